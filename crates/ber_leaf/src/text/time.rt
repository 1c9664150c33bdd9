ghost use Rattle.std.specs.Prelude.{◌≡◌, ◌↔◌, nat_eq, IfErr, IfOk, IsOk};
ghost use Rattle.std.specs.Cmp.{partial_equiv_from_equiv};
ghost use Rattle.std.specs.Cmp.Lexicographic.{nat_list_eq_equiv, pointwise};
ghost use Rattle.ber_leaf.specs.Content.{IsContent};
ghost use Rattle.ber_leaf.specs.Leaf.{content_fault, iso_time, is_time, is_clock_time};
ghost use Rattle.ber_leaf.specs.Profile.{profile_two};
ghost use Rattle.ber_leaf.specs.Simple.{time};

use super::digits::{are_digits, pair};
use crate::{Leaf, LeafFault};
use std::alloc::{AllocError, Global};
use std::marker::Model;

/// A time of a day, as the six digits HHMMSS: the second may be 60 in every minute, and 240000 is a time of its own.
#[derive(Debug, Drop)]
pub struct TimeText {
    octets: Vec<u8>,
}

impl Model for TimeText {
    ghost use Rattle.std.specs.Prelude.{List, ℕ};
    ghost use Rattle.ber_leaf.specs.Content.{IsContent};
    ghost use Rattle.ber_leaf.specs.Leaf.{iso_time};

    ghost Value = { List ℕ };

    ghost view = { λ text. text.octets.items };

    ghost invariant = { λ text. IsContent iso_time text.octets.items };
}

impl TimeText {
    /// The text with these octets, or the fault that they have.
    pub fn new(octets: Vec<u8>) -> Result<Self, LeafFault>
        ensures text { IfOk result (λ text. text ≡ octets.items) }
        ensures succeeds { IsOk result ↔ IsContent iso_time octets.items }
        ensures fault { IfErr result
            (λ fault. content_fault profile_two iso_time octets.items ≡ Some fault) }
    {
        match Self::check(&octets) {
            None => Ok(Self::of(octets)),
            Some(fault) => Err(fault),
        }
    }

    /// The octets of the text.
    pub fn octets(&self) -> &[u8]
        ensures value { result.now ≡ self.now }
        ensures content { IsContent iso_time self.now }
    {
        &self.octets
    }

    /// A copy of the text in new memory.
    pub fn copy(&self, alloc: Global) -> Result<Self, AllocError>
        ensures { IfOk result (λ text. text ≡ self.now) }
    {
        let octets = Vec::from_slice(alloc, &self.octets)?;
        Ok(TimeText { octets })
    }
}

impl Leaf for TimeText {
    type Out = TimeText;

    ghost kind = { iso_time };

    ghost simple = { time };

    ghost apart = { λ v w e. Prim.cc };

    fn check(octets: &[u8]) -> Option<LeafFault> {
        (!is_time(octets)).then_some(LeafFault::BadTime)
    }

    fn of(octets: Vec<u8>) -> TimeText {
        TimeText { octets }
    }

    fn normal_size(text: &TimeText) -> usize {
        text.octets.len()
    }

    fn put_normal(text: &TimeText, room: &mut [u8]) {
        room.copy_from_slice(&text.octets);
    }
}

impl PartialEq for TimeText {
    ghost eq = { pointwise nat_eq };

    ghost laws = { partial_equiv_from_equiv nat_list_eq_equiv };

    fn eq(&self, other: &Self) -> bool {
        self.octets() == other.octets()
    }
}

impl Eq for TimeText {
    ghost laws = { nat_list_eq_equiv };
}

/// Tells whether the octets are a time of a day, as HHMMSS.
fn is_time(octets: &[u8]) -> bool
    ensures { result ≡ is_time octets.now }
{
    let [h1, h2, m1, m2, s1, s2] = *octets else {
        return false;
    };
    if !are_digits(octets) {
        return false;
    }
    is_clock_time(pair(h1, h2), pair(m1, m2), pair(s1, s2))
}

/// Tells whether a day has the time; a leap second may end any minute.
fn is_clock_time(hour: u8, minute: u8, second: u8) -> bool
    ensures { result ≡ is_clock_time hour minute second }
{
    matches!(
        (hour, minute, second),
        (0..=23, 0..=59, 0..=60) | (24, 0, 0)
    )
}
