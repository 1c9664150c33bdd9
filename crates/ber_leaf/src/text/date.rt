ghost use Rattle.std.specs.Prelude.{◌≡◌, ◌↔◌, nat_eq, IfErr, IfOk, IsOk, ◌≤◌};
ghost use Rattle.std.specs.Cmp.{partial_equiv_from_equiv};
ghost use Rattle.std.specs.Cmp.Lexicographic.{nat_list_eq_equiv, pointwise};
ghost use Rattle.ber_leaf.specs.Content.{IsContent};
ghost use Rattle.ber_leaf.specs.Leaf.{content_fault, iso_date, is_day, is_civil_day};
ghost use Rattle.ber_leaf.specs.Profile.{profile_two};
ghost use Rattle.ber_leaf.specs.Simple.{date};

use super::digits::{are_digits, pair};
use crate::{Leaf, LeafFault};
use jiff::civil::Date;
use std::alloc::{AllocError, Global};
use std::marker::Model;

/// A day of the proleptic Gregorian calendar, years 0000 to 9999, as the eight digits YYYYMMDD.
#[derive(Debug, Drop)]
pub struct DateText {
    octets: Vec<u8>,
}

impl Model for DateText {
    ghost use Rattle.std.specs.Prelude.{List, ℕ};
    ghost use Rattle.ber_leaf.specs.Content.{IsContent};
    ghost use Rattle.ber_leaf.specs.Leaf.{iso_date};

    ghost Value = { List ℕ };

    ghost view = { λ text. text.octets.items };

    ghost invariant = { λ text. IsContent iso_date text.octets.items };
}

impl DateText {
    /// The text with these octets, or the fault that they have.
    pub fn new(octets: Vec<u8>) -> Result<Self, LeafFault>
        ensures text { IfOk result (λ text. text ≡ octets.items) }
        ensures succeeds { IsOk result ↔ IsContent iso_date octets.items }
        ensures fault { IfErr result
            (λ fault. content_fault profile_two iso_date octets.items ≡ Some fault) }
    {
        match Self::check(&octets) {
            None => Ok(Self::of(octets)),
            Some(fault) => Err(fault),
        }
    }

    /// The octets of the text.
    pub fn octets(&self) -> &[u8]
        ensures value { result.now ≡ self.now }
        ensures content { IsContent iso_date self.now }
    {
        &self.octets
    }

    /// A copy of the text in new memory.
    pub fn copy(&self, alloc: Global) -> Result<Self, AllocError>
        ensures { IfOk result (λ text. text ≡ self.now) }
    {
        let octets = Vec::from_slice(alloc, &self.octets)?;
        Ok(DateText { octets })
    }
}

impl Leaf for DateText {
    type Out = DateText;

    ghost kind = { iso_date };

    ghost simple = { date };

    ghost apart = { λ v w e. Prim.cc };

    fn check(octets: &[u8]) -> Option<LeafFault> {
        (!is_day(octets)).then_some(LeafFault::BadDate)
    }

    fn of(octets: Vec<u8>) -> DateText {
        DateText { octets }
    }

    fn normal_size(text: &DateText) -> usize {
        text.octets.len()
    }

    fn put_normal(text: &DateText, room: &mut [u8]) {
        room.copy_from_slice(&text.octets);
    }
}

impl PartialEq for DateText {
    ghost eq = { pointwise nat_eq };

    ghost laws = { partial_equiv_from_equiv nat_list_eq_equiv };

    fn eq(&self, other: &Self) -> bool {
        self.octets() == other.octets()
    }
}

impl Eq for DateText {
    ghost laws = { nat_list_eq_equiv };
}

/// Tells whether the octets are a day, as YYYYMMDD.
fn is_day(octets: &[u8]) -> bool
    ensures { result ≡ is_day octets.now }
{
    let [y1, y2, y3, y4, m1, m2, d1, d2] = *octets else {
        return false;
    };
    if !are_digits(octets) {
        return false;
    }
    let year = 100 * u16::from(pair(y1, y2)) + u16::from(pair(y3, y4));
    is_civil_day(year, pair(m1, m2), pair(d1, d2))
}

/// Tells whether the proleptic Gregorian calendar has the day.
fn is_civil_day(year: u16, month: u8, day: u8) -> bool
    requires year { year ≤ 9999 }
    requires month { month ≤ 99 }
    requires day { day ≤ 99 }
    ensures { result ≡ is_civil_day year month day }
{
    Date::new(year as i16, month as i8, day as i8).is_ok()
}
