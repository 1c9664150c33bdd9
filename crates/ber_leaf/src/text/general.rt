ghost use Rattle.std.specs.Prelude.{◌≡◌, ◌↔◌, nat_eq, IfErr, IfOk, IsOk};
ghost use Rattle.std.specs.Cmp.{partial_equiv_from_equiv};
ghost use Rattle.std.specs.Cmp.Lexicographic.{nat_list_eq_equiv, pointwise};
ghost use Rattle.ber_leaf.specs.Content.{IsContent};
ghost use Rattle.ber_leaf.specs.Leaf.{content_fault, general_string};
ghost use Rattle.ber_leaf.specs.Profile.{is_no_shift, profile_two};
ghost use Rattle.ber_leaf.specs.Simple.{general};
ghost use Rattle.std.specs.List.{list_all};

use crate::{Leaf, LeafFault};
use std::alloc::{AllocError, Global};
use std::marker::Model;

/// A GeneralString's text (X.690, 8.23): any octets but `0E`, `0F` and `1B`, which shift or escape.
#[derive(Debug, Drop)]
pub struct GeneralText {
    octets: Vec<u8>,
}

impl Model for GeneralText {
    ghost use Rattle.std.specs.Prelude.{List, ℕ};
    ghost use Rattle.ber_leaf.specs.Content.{IsContent};
    ghost use Rattle.ber_leaf.specs.Leaf.{general_string};

    ghost Value = { List ℕ };

    ghost view = { λ text. text.octets.items };

    ghost invariant = { λ text. IsContent general_string text.octets.items };
}

impl GeneralText {
    /// The text with these octets, or the fault that they have.
    pub fn new(octets: Vec<u8>) -> Result<Self, LeafFault>
        ensures text { IfOk result (λ text. text ≡ octets.items) }
        ensures succeeds { IsOk result ↔ IsContent general_string octets.items }
        ensures fault { IfErr result
            (λ fault. content_fault profile_two general_string octets.items ≡ Some fault) }
    {
        match Self::check(&octets) {
            None => Ok(Self::of(octets)),
            Some(fault) => Err(fault),
        }
    }

    /// The octets of the text.
    pub fn octets(&self) -> &[u8]
        ensures value { result.now ≡ self.now }
        ensures content { IsContent general_string self.now }
    {
        &self.octets
    }

    /// A copy of the text in new memory.
    pub fn copy(&self, alloc: Global) -> Result<Self, AllocError>
        ensures { IfOk result (λ text. text ≡ self.now) }
    {
        let octets = Vec::from_slice(alloc, &self.octets)?;
        Ok(GeneralText { octets })
    }
}

impl Leaf for GeneralText {
    type Out = GeneralText;

    ghost kind = { general_string };

    ghost simple = { general };

    ghost apart = { λ v w e. Prim.cc };

    fn check(octets: &[u8]) -> Option<LeafFault> {
        (!has_no_shift(octets)).then_some(LeafFault::BadText)
    }

    fn of(octets: Vec<u8>) -> GeneralText {
        GeneralText { octets }
    }

    fn normal_size(text: &GeneralText) -> usize {
        text.octets.len()
    }

    fn put_normal(text: &GeneralText, room: &mut [u8]) {
        room.copy_from_slice(&text.octets);
    }
}

impl PartialEq for GeneralText {
    ghost eq = { pointwise nat_eq };

    ghost laws = { partial_equiv_from_equiv nat_list_eq_equiv };

    fn eq(&self, other: &Self) -> bool {
        self.octets() == other.octets()
    }
}

impl Eq for GeneralText {
    ghost laws = { nat_list_eq_equiv };
}

/// Tells whether no octet shifts or escapes.
fn has_no_shift(octets: &[u8]) -> bool
    ensures { result ≡ list_all is_no_shift octets.now }
{
    octets
        .iter()
        .all(|octet| !matches!(octet, 0x0E | 0x0F | 0x1B))
}
