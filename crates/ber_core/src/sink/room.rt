ghost use Rattle.std.specs.Prelude.{◌≡◌, ◌-◌, ◌<◌, ◌≤◌, ◌↔◌, ◌⊎◌, min, false, [], Some, IfOk, IsErr, IsTrue, length, take};
ghost use Rattle.std.specs.Io.KnownBytes.{WriteAppends};
ghost use Rattle.ber_core.specs.Pieces.{moved, broken, with};

use super::Sink;
use crate::source::Broken;
use std::marker::Model;

/// An array as a sink, a few octets at a time, that may break. It breaks, too, when it is full.
#[derive(Debug, Drop)]
pub struct Room<const N: usize> {
    octets: [u8; N],
    len: usize,
    per_call: usize,
    breaks_after: Option<usize>,
    broken: bool,
}

impl<const N: usize> Model for Room<N> {
    ghost use Rattle.std.specs.Prelude.{◌<◌, ◌≤◌, take};
    ghost use Rattle.ber_core.specs.Pieces.{Moving};

    ghost Value = { Moving };

    ghost view = { λ s. record { octets = take s.len s.octets; per_call = s.per_call; breaks_after = s.breaks_after; broken = s.broken } };

    ghost invariant = { λ s. (s.len ≤ N) × (0 < s.per_call) };
}

impl<const N: usize> Room<N> {
    /// At most `per_call` octets in each call; after `breaks_at` octets (None: never), or when full, the sink breaks.
    pub fn new(per_call: usize, breaks_at: Option<usize>) -> Room<N>
        requires { 0 < per_call }
        ensures { result ≡ record {
          octets = [];
          per_call = per_call;
          breaks_after = breaks_at;
          broken = false;
        } }
    {
        Room {
            octets: [0; N],
            len: 0,
            per_call,
            breaks_after: breaks_at,
            broken: false,
        }
    }

    /// The octets that were put.
    pub fn octets(&self) -> &[u8]
        ensures { result.now ≡ self.now.octets }
    {
        &self.octets[..self.len]
    }
}

impl<const N: usize> Sink for Room<N> {
    ghost contents = { λ s. Some s.octets };

    ghost is_broken = { λ s. s.broken };

    fn put(&mut self, octets: &[u8]) -> Result<usize, Broken>
        ensures count { IfOk result (λ n. n ≤ length octets.now) }
        ensures some { IfOk result (λ n. 0 < length octets.now → 0 < n) }
        ensures octets { WriteAppends (Some self.old.octets) (Some self.new.octets) result
            octets.now }
        ensures breaks { IsErr result ↔ IsTrue self.new.broken }
        ensures stays { IsTrue self.old.broken → IsTrue self.new.broken }
        ensures moved { IfOk result (λ n. n ≡ moved self.old
            (min (length octets.now) (N - length self.old.octets))) }
        ensures state { IfOk result (λ n. self.new ≡ with self.old (take n octets.now)) }
        ensures unchanged { IsErr result → self.new ≡ broken self.old }
        ensures broken { IsErr result ↔ (IsTrue self.old.broken
            ⊎ ((0 < length octets.now)
            × (moved self.old (min (length octets.now) (N - length self.old.octets)) ≡ 0))) }
    {
        if self.broken {
            return Err(Broken);
        }
        let mut n = self.per_call.min(octets.len()).min(N - self.len);
        if let Some(most) = self.breaks_after {
            n = n.min(most);
        }
        if n == 0 && !octets.is_empty() {
            self.broken = true;
            return Err(Broken);
        }
        if let Some(most) = self.breaks_after {
            self.breaks_after = Some(most - n);
        }
        let end = self.len + n;
        let room = &mut self.octets[..];
        room[self.len..end].copy_from_slice(&octets[..n]);
        self.len = end;
        Ok(n)
    }

    fn broken(&self) -> bool {
        self.broken
    }
}
