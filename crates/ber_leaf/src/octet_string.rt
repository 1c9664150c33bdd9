ghost use Rattle.std.specs.Prelude.{◌≡◌, nat_eq};
ghost use Rattle.std.specs.Cmp.{partial_equiv_from_equiv};
ghost use Rattle.std.specs.Cmp.Lexicographic.{nat_list_eq_equiv, pointwise};
ghost use Rattle.ber_leaf.specs.Content.{IsContent};
ghost use Rattle.ber_leaf.specs.Leaf.{octet_string};
ghost use Rattle.ber_leaf.specs.Simple.{binary};

use crate::{Leaf, LeafFault};
use std::marker::Model;

/// An OCTET STRING (X.690, 8.7): any octets.
///
/// # Examples
///
/// ```
/// let string = OctetString::new(vec![in alloc; 0x00, 0xFF]?);
/// ```
#[derive(Debug, Drop)]
pub struct OctetString {
    octets: Vec<u8>,
}

impl Model for OctetString {
    ghost use Rattle.std.specs.Prelude.{List, ℕ};
    ghost use Rattle.ber_leaf.specs.Content.{IsContent};
    ghost use Rattle.ber_leaf.specs.Leaf.{octet_string};

    ghost Value = { List ℕ };

    ghost view = { λ string. string.octets.items };

    ghost invariant = { λ string. IsContent octet_string string.octets.items };
}

impl OctetString {
    /// The string of these octets.
    pub fn new(octets: Vec<u8>) -> Self
        ensures { result ≡ octets.items }
    {
        OctetString { octets }
    }

    /// The octets of the string.
    pub fn octets(&self) -> &[u8]
        ensures value { result.now ≡ self.now }
        ensures content { IsContent octet_string self.now }
    {
        &self.octets
    }
}

impl Leaf for OctetString {
    type Out = OctetString;

    ghost kind = { octet_string };

    ghost simple = { binary };

    ghost apart = { λ v w e. Prim.cc };

    fn check(_octets: &[u8]) -> Option<LeafFault> {
        None
    }

    fn of(octets: Vec<u8>) -> OctetString {
        OctetString { octets }
    }

    fn normal_size(string: &OctetString) -> usize {
        string.octets.len()
    }

    fn put_normal(string: &OctetString, room: &mut [u8]) {
        room.copy_from_slice(&string.octets);
    }
}

impl PartialEq for OctetString {
    ghost eq = { pointwise nat_eq };

    ghost laws = { partial_equiv_from_equiv nat_list_eq_equiv };

    fn eq(&self, other: &Self) -> bool {
        self.octets() == other.octets()
    }
}

impl Eq for OctetString {
    ghost laws = { nat_list_eq_equiv };
}
