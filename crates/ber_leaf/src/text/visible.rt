ghost use Rattle.std.specs.Prelude.{◌≡◌, ◌↔◌, nat_eq, IfErr, IfOk, IsOk};
ghost use Rattle.std.specs.Cmp.{partial_equiv_from_equiv};
ghost use Rattle.std.specs.Cmp.Lexicographic.{nat_list_eq_equiv, pointwise};
ghost use Rattle.ber_leaf.specs.Content.{IsContent};
ghost use Rattle.ber_leaf.specs.Leaf.{content_fault, visible_string};
ghost use Rattle.ber_leaf.specs.Profile.{is_graphic, profile_two};
ghost use Rattle.ber_leaf.specs.Simple.{visible};
ghost use Rattle.std.specs.List.{list_all};

use crate::{Leaf, LeafFault};
use std::alloc::{AllocError, Global};
use std::marker::Model;

/// A VisibleString's text (X.690, 8.23): the graphic octets of ASCII and the space, `20` to `7E`.
#[derive(Debug, Drop)]
pub struct VisibleText {
    octets: Vec<u8>,
}

impl Model for VisibleText {
    ghost use Rattle.std.specs.Prelude.{List, ℕ};
    ghost use Rattle.ber_leaf.specs.Content.{IsContent};
    ghost use Rattle.ber_leaf.specs.Leaf.{visible_string};

    ghost Value = { List ℕ };

    ghost view = { λ text. text.octets.items };

    ghost invariant = { λ text. IsContent visible_string text.octets.items };
}

impl VisibleText {
    /// The text with these octets, or the fault that they have.
    pub fn new(octets: Vec<u8>) -> Result<Self, LeafFault>
        ensures text { IfOk result (λ text. text ≡ octets.items) }
        ensures succeeds { IsOk result ↔ IsContent visible_string octets.items }
        ensures fault { IfErr result
            (λ fault. content_fault profile_two visible_string octets.items ≡ Some fault) }
    {
        match Self::check(&octets) {
            None => Ok(Self::of(octets)),
            Some(fault) => Err(fault),
        }
    }

    /// The octets of the text.
    pub fn octets(&self) -> &[u8]
        ensures value { result.now ≡ self.now }
        ensures content { IsContent visible_string self.now }
    {
        &self.octets
    }

    /// A copy of the text in new memory.
    pub fn copy(&self, alloc: Global) -> Result<Self, AllocError>
        ensures { IfOk result (λ text. text ≡ self.now) }
    {
        let octets = Vec::from_slice(alloc, &self.octets)?;
        Ok(VisibleText { octets })
    }
}

impl Leaf for VisibleText {
    type Out = VisibleText;

    ghost kind = { visible_string };

    ghost simple = { visible };

    ghost apart = { λ v w e. Prim.cc };

    fn check(octets: &[u8]) -> Option<LeafFault> {
        (!is_graphic(octets)).then_some(LeafFault::BadText)
    }

    fn of(octets: Vec<u8>) -> VisibleText {
        VisibleText { octets }
    }

    fn normal_size(text: &VisibleText) -> usize {
        text.octets.len()
    }

    fn put_normal(text: &VisibleText, room: &mut [u8]) {
        room.copy_from_slice(&text.octets);
    }
}

impl PartialEq for VisibleText {
    ghost eq = { pointwise nat_eq };

    ghost laws = { partial_equiv_from_equiv nat_list_eq_equiv };

    fn eq(&self, other: &Self) -> bool {
        self.octets() == other.octets()
    }
}

impl Eq for VisibleText {
    ghost laws = { nat_list_eq_equiv };
}

/// Tells whether each octet is graphic or the space.
fn is_graphic(octets: &[u8]) -> bool
    ensures { result ≡ list_all is_graphic octets.now }
{
    octets.iter().all(|octet| matches!(octet, b' '..=b'~'))
}
