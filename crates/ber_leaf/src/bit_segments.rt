ghost use Rattle.std.specs.Prelude.{◌≡◌, [], ◌∷◌, OnOk, IsTrue};
ghost use Rattle.ber_leaf.specs.Bits.{cleared_content};
ghost use Rattle.ber_leaf.specs.Leaf.{is_bits};
ghost use Rattle.ber_leaf.specs.Segments.{join_bits};

use crate::bit_string::{clear_unused, is_bits};
use std::alloc::{AllocError, Global};
use std::marker::Model;

/// The content of a BIT STRING that comes in segments, which are joined in order (X.690, 8.6.4): the number of unused bits, then
/// the octets.
#[derive(Debug, Drop)]
pub struct BitSegments {
    content: Vec<u8>,
}

impl Model for BitSegments {
    ghost use Rattle.std.specs.Prelude.{List, ℕ};

    ghost Value = { List ℕ };

    ghost view = { λ segments. segments.content.items };
}

impl BitSegments {
    /// No content yet; takes no memory.
    pub fn new(alloc: Global) -> Self
        ensures { result ≡ [] }
    {
        BitSegments {
            content: Vec::new(alloc),
        }
    }

    /// Begins a string that has no segment yet.
    pub fn begin(&mut self) -> Result<(), AllocError>
        ensures { OnOk result (self.new ≡ 0 ∷ []) }
    {
        self.content.clear();
        self.content.push(0)?;
        Ok(())
    }

    /// Adds the bits of a segment at the end.
    ///
    /// Only the last segment may have unused bits (X.690, 8.6.4). After one that breaks this rule, or is itself malformed, the
    /// content stays invalid whatever is added.
    pub fn push(&mut self, segment: &[u8]) -> Result<(), AllocError>
        ensures { OnOk result (self.new ≡ join_bits self.old segment.now) }
    {
        let [unused, octets @ ..] = segment else {
            return self.mark_invalid();
        };
        if !is_bits(segment) || self.content.first() != Some(&0) {
            return self.mark_invalid();
        }
        self.content.extend_from_slice(octets)?;
        self.content[0] = *unused;
        Ok(())
    }

    /// Makes the content invalid for good.
    fn mark_invalid(&mut self) -> Result<(), AllocError>
        ensures { OnOk result (self.new ≡ 8 ∷ []) }
    {
        self.content.clear();
        self.content.push(8)?;
        Ok(())
    }

    /// The content.
    pub fn content(&self) -> &[u8]
        ensures { result.now ≡ self.now }
    {
        &self.content
    }

    /// Sets the unused bits to 0 (X.690, 11.2.1).
    pub fn clear_unused(&mut self)
        requires { IsTrue (is_bits self.old) }
        ensures { self.new ≡ cleared_content self.old }
    {
        clear_unused(&mut self.content);
    }
}
