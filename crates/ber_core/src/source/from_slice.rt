ghost use Rattle.std.specs.Prelude.{◌≡◌, ◌≤◌, ◌↔◌, min, false, Ok, Some, IfOk, IfSome, IsErr, IsTrue, OnErr, OnOk, length, take, drop};
ghost use Rattle.std.specs.Io.{StartsWith};
ghost use Rattle.std.specs.Io.KnownBytes.{ReadConsumes};
ghost use Rattle.ber_core.specs.Shown.{Drops, DropsFewer};

use super::{Broken, Source};
use std::marker::Model;

/// A slice as a source, which never breaks, and has all that is left at hand. In contracts it is the octets that are left.
///
/// # Examples
///
/// ```
/// let mut source = FromSlice::new(&[1, 2, 3]);
/// source.consume(1)?;
/// // Now `source.buffered()` is `[2, 3]`.
/// ```
#[derive(Debug, Drop)]
pub struct FromSlice<'a> {
    octets: &'a [u8],
}

impl<'a> Model for FromSlice<'a> {
    ghost use Rattle.std.specs.Prelude.{ℕ, List};

    ghost Value = { List ℕ };

    ghost view = { λ s. s.octets.now };
}

impl<'a> FromSlice<'a> {
    /// The octets of the slice as a source.
    pub fn new(octets: &'a [u8]) -> FromSlice<'a>
        ensures { result ≡ octets.now }
    {
        FromSlice { octets }
    }
}

impl Source for FromSlice<'_> {
    ghost left = { λ s. Some s };

    ghost is_broken = { λ _. false };

    ghost hand_len = { λ s. length s };

    /// Takes as many octets as there are, or as the buffer has room for.
    fn take(&mut self, buffer: &mut [u8]) -> Result<usize, Broken>
        ensures count { IfOk result (λ n. n ≤ length buffer.new) }
        ensures octets { ReadConsumes (Some self.old) (Some self.new) result buffer.new }
        ensures breaks { IsErr result ↔ IsTrue false }
        ensures stays { IsTrue false → IsTrue false }
        ensures taken { result ≡ Ok (min (length buffer.old) (length self.old)) }
        ensures left { IfOk result (λ n. self.new ≡ drop n self.old) }
        ensures front { IfOk result (λ n. take n buffer.new ≡ take n self.old) }
        ensures rest { IfOk result (λ n. drop n buffer.new ≡ drop n buffer.old) }
    {
        let all: &[u8] = self.octets;
        let n = buffer.len().min(all.len());
        buffer[..n].copy_from_slice(&all[..n]);
        self.octets = &all[n..];
        Ok(n)
    }

    fn broken(&self) -> bool {
        false
    }

    /// All octets that are left.
    fn buffered(&self) -> &[u8]
        ensures front { IfSome (Some self.now) (λ octets. StartsWith octets result.now) }
        ensures len { length result.now ≤ length self.now }
        ensures all { result.now ≡ self.now }
    {
        self.octets
    }

    fn consume(&mut self, count: usize) -> Result<(), Broken>
        requires hand { count ≤ length self.old }
        ensures octets { OnOk result (Drops (Some self.old) (Some self.new) count) }
        ensures part { OnErr result (DropsFewer (Some self.old) (Some self.new) count) }
        ensures breaks { IsErr result → IsTrue false }
        ensures stays { IsTrue false → IsTrue false }
        ensures takes { result ≡ Ok tt }
        ensures rest { self.new ≡ drop count self.old }
    {
        let all: &[u8] = self.octets;
        self.octets = &all[count..];
        Ok(())
    }
}
