//! Recorders of the octets that a message is read from.
ghost use Rattle.std.specs.Prelude.{OnOk, List, ℕ, Option, None, Some};
ghost use Rattle.std.specs.Io.KnownBytes.{Appends};

use std::alloc::AllocError;

/// A recorder of the octets that a message is read from, as `Vec<u8>` is.
pub trait Recorder {
    // The recorded octets, where it records them.
    ghost recorded: { Self → Option (List ℕ) };

    /// Appends octets to the recorded ones.
    fn append(&mut self, octets: &[u8]) -> Result<(), AllocError>
        ensures { OnOk result (Appends (recorded self.old) (recorded self.new) octets.now) };
}

/// Records nothing.
#[derive(Drop)]
pub struct NoRecorder;

impl Recorder for NoRecorder {
    ghost recorded = { λ _. None };

    fn append(&mut self, octets: &[u8]) -> Result<(), AllocError> {
        let _ = octets;
        Ok(())
    }
}

impl Recorder for Vec<u8> {
    ghost recorded = { λ v. Some v.items };

    fn append(&mut self, octets: &[u8]) -> Result<(), AllocError> {
        self.extend_from_slice(octets)?;
        Ok(())
    }
}
