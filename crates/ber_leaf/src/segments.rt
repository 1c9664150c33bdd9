ghost use Rattle.std.specs.Prelude.{◌≡◌, [], ◌++◌, OnOk, OnErr};

use std::alloc::{AllocError, Global};
use std::marker::Model;

/// The pieces of a string's octets, joined in the order in which they come (X.690, 8.7.3 and 8.23).
#[derive(Debug, Drop)]
pub struct Segments {
    octets: Vec<u8>,
}

impl Model for Segments {
    ghost use Rattle.std.specs.Prelude.{List, ℕ};

    ghost Value = { List ℕ };

    ghost view = { λ segments. segments.octets.items };
}

impl Segments {
    /// No piece yet; takes no memory.
    pub fn new(alloc: Global) -> Self
        ensures { result ≡ [] }
    {
        Segments {
            octets: Vec::new(alloc),
        }
    }

    /// Adds a piece at the end, or leaves the pieces as they were when out of memory.
    pub fn push(&mut self, piece: &[u8]) -> Result<(), AllocError>
        ensures ok { OnOk result (self.new ≡ self.old ++ piece.now) }
        ensures err { OnErr result (self.new ≡ self.old) }
    {
        self.octets.extend_from_slice(piece)
    }

    /// The pieces joined.
    pub fn into_octets(self) -> Vec<u8>
        ensures { result.items ≡ self }
    {
        self.octets
    }
}
