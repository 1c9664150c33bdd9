ghost use Rattle.std.specs.Prelude.{◌≡◌, ◌<◌, ◌≤◌, ◌↔◌, min, false, Some, IfOk, IsErr, IsTrue, MatchBool, length, drop};
ghost use Rattle.std.specs.Io.KnownBytes.{ReadConsumes};
ghost use Rattle.ber_core.specs.Pieces.{is_spent, moved, broken, without};

use super::{Broken, Source};
use std::marker::Model;

/// A slice as a source, a few octets at a time, that may break.
#[derive(Debug, Drop)]
pub struct Pieces<'a> {
    octets: &'a [u8],
    per_call: usize,
    breaks_after: Option<usize>,
    broken: bool,
}

impl<'a> Model for Pieces<'a> {
    ghost use Rattle.std.specs.Prelude.{◌<◌};
    ghost use Rattle.ber_core.specs.Pieces.{Moving};

    ghost Value = { Moving };

    ghost view = { λ s. record { octets = s.octets.now; per_call = s.per_call; breaks_after = s.breaks_after; broken = s.broken } };

    ghost invariant = { λ s. 0 < s.per_call };
}

impl<'a> Pieces<'a> {
    /// At most `per_call` octets in each call; after `breaks_at` octets the source breaks (None: never).
    pub fn new(octets: &'a [u8], per_call: usize, breaks_at: Option<usize>) -> Pieces<'a>
        requires { 0 < per_call }
        ensures { result ≡ record {
          octets = octets.now;
          per_call = per_call;
          breaks_after = breaks_at;
          broken = false;
        } }
    {
        Pieces {
            octets,
            per_call,
            breaks_after: breaks_at,
            broken: false,
        }
    }
}

impl Source for Pieces<'_> {
    ghost left = { λ s. Some s.octets };

    ghost is_broken = { λ s. s.broken };

    fn take(&mut self, buffer: &mut [u8]) -> Result<usize, Broken>
        ensures count { IfOk result (λ n. n ≤ length buffer.new) }
        ensures octets { ReadConsumes (Some self.old.octets) (Some self.new.octets) result
            buffer.new }
        ensures breaks { IsErr result ↔ IsTrue self.new.broken }
        ensures stays { IsTrue self.old.broken → IsTrue self.new.broken }
        ensures broken { IsErr result ↔ IsTrue (is_spent self.old) }
        ensures moved { IfOk result (λ n. n ≡ moved self.old
            (min (length buffer.old) (length self.old.octets))) }
        ensures state { MatchBool (is_spent self.old) (self.new ≡ broken self.old)
            (IfOk result (λ n. self.new ≡ without self.old n)) }
        ensures rest { IfOk result (λ n. drop n buffer.new ≡ drop n buffer.old) }
    {
        if self.broken || matches!(&self.breaks_after, Some(0)) {
            self.broken = true;
            return Err(Broken);
        }
        let all: &[u8] = self.octets;
        let mut n = self.per_call.min(buffer.len()).min(all.len());
        if let Some(most) = self.breaks_after {
            n = n.min(most);
            self.breaks_after = Some(most - n);
        }
        buffer[..n].copy_from_slice(&all[..n]);
        self.octets = &all[n..];
        Ok(n)
    }

    fn broken(&self) -> bool {
        self.broken
    }
}
