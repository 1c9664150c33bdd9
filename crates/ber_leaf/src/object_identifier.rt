ghost use Rattle.std.specs.Prelude.{◌≡◌, ◌↔◌, nat_eq, IfErr, IfOk, IsOk};
ghost use Rattle.std.specs.Cmp.{partial_equiv_from_equiv};
ghost use Rattle.std.specs.Cmp.Lexicographic.{nat_list_eq_equiv, pointwise};
ghost use Rattle.ber_leaf.specs.Content.{IsContent};
ghost use Rattle.ber_leaf.specs.Leaf.{content_fault, object_identifier, is_oid, goes_on};
ghost use Rattle.ber_leaf.specs.Profile.{profile_two};
ghost use Rattle.ber_leaf.specs.Simple.{oid};

use crate::{Leaf, LeafFault};
use std::marker::Model;

/// An OBJECT IDENTIFIER (X.690, 8.19), as its contents octets: one subidentifier or more, each in the fewest octets.
///
/// # Examples
///
/// ```
/// let identifier = ObjectIdentifier::new(b"\x2A\x86\x48".to_vec(alloc)?)?;
/// ```
#[derive(Debug, Drop)]
pub struct ObjectIdentifier {
    octets: Vec<u8>,
}

impl Model for ObjectIdentifier {
    ghost use Rattle.std.specs.Prelude.{List, ℕ};
    ghost use Rattle.ber_leaf.specs.Content.{IsContent};
    ghost use Rattle.ber_leaf.specs.Leaf.{object_identifier};

    ghost Value = { List ℕ };

    ghost view = { λ identifier. identifier.octets.items };

    ghost invariant = { λ identifier. IsContent object_identifier identifier.octets.items };
}

impl ObjectIdentifier {
    /// The identifier with these contents octets, or the fault that they have.
    pub fn new(octets: Vec<u8>) -> Result<Self, LeafFault>
        ensures value { IfOk result (λ identifier. identifier ≡ octets.items) }
        ensures succeeds { IsOk result ↔ IsContent object_identifier octets.items }
        ensures fault { IfErr result
            (λ fault. content_fault profile_two object_identifier octets.items ≡ Some fault) }
    {
        match Self::check(&octets) {
            None => Ok(Self::of(octets)),
            Some(fault) => Err(fault),
        }
    }

    /// The octets of the identifier.
    pub fn octets(&self) -> &[u8]
        ensures value { result.now ≡ self.now }
        ensures content { IsContent object_identifier self.now }
    {
        &self.octets
    }
}

impl Leaf for ObjectIdentifier {
    type Out = ObjectIdentifier;

    ghost kind = { object_identifier };

    ghost simple = { oid };

    ghost apart = { λ v w e. Prim.cc };

    fn check(octets: &[u8]) -> Option<LeafFault> {
        (!is_oid(octets)).then_some(LeafFault::BadOid)
    }

    fn of(octets: Vec<u8>) -> ObjectIdentifier {
        ObjectIdentifier { octets }
    }

    fn normal_size(identifier: &ObjectIdentifier) -> usize {
        identifier.octets.len()
    }

    fn put_normal(identifier: &ObjectIdentifier, room: &mut [u8]) {
        room.copy_from_slice(&identifier.octets);
    }
}

impl PartialEq for ObjectIdentifier {
    ghost eq = { pointwise nat_eq };

    ghost laws = { partial_equiv_from_equiv nat_list_eq_equiv };

    fn eq(&self, other: &Self) -> bool {
        self.octets() == other.octets()
    }
}

impl Eq for ObjectIdentifier {
    ghost laws = { nat_list_eq_equiv };
}

/// Tells whether the octets are one subidentifier or more.
fn is_oid(octets: &[u8]) -> bool
    ensures { result ≡ is_oid octets.now }
{
    let mut before = 0x00;
    for octet in octets {
        if before < 0x80 && *octet == 0x80 {
            return false;
        }
        before = *octet;
    }
    !octets.is_empty() && before < 0x80
}
