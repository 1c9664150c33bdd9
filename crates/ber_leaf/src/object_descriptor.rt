ghost use Rattle.std.specs.Prelude.{◌≡◌, nat_eq};
ghost use Rattle.std.specs.Cmp.{partial_equiv_from_equiv};
ghost use Rattle.std.specs.Cmp.Lexicographic.{nat_list_eq_equiv, pointwise};
ghost use Rattle.ber_leaf.specs.Content.{IsContent};
ghost use Rattle.ber_leaf.specs.Leaf.{object_descriptor};
ghost use Rattle.ber_leaf.specs.Simple.{descriptor};

use crate::{Leaf, LeafFault};
use std::marker::Model;

/// An ObjectDescriptor (X.690, 8.25): any octets, as escape sequences in them aren't read.
///
/// # Examples
///
/// ```
/// let name = ObjectDescriptor::new(b"MARC".to_vec(alloc)?);
/// ```
#[derive(Debug, Drop)]
pub struct ObjectDescriptor {
    octets: Vec<u8>,
}

impl Model for ObjectDescriptor {
    ghost use Rattle.std.specs.Prelude.{List, ℕ};
    ghost use Rattle.ber_leaf.specs.Content.{IsContent};
    ghost use Rattle.ber_leaf.specs.Leaf.{object_descriptor};

    ghost Value = { List ℕ };

    ghost view = { λ descriptor. descriptor.octets.items };

    ghost invariant = { λ descriptor. IsContent object_descriptor descriptor.octets.items };
}

impl ObjectDescriptor {
    /// The descriptor of these octets.
    pub fn new(octets: Vec<u8>) -> Self
        ensures { result ≡ octets.items }
    {
        ObjectDescriptor { octets }
    }

    /// The octets of the descriptor.
    pub fn octets(&self) -> &[u8]
        ensures value { result.now ≡ self.now }
        ensures content { IsContent object_descriptor self.now }
    {
        &self.octets
    }
}

impl Leaf for ObjectDescriptor {
    type Out = ObjectDescriptor;

    ghost kind = { object_descriptor };

    ghost simple = { descriptor };

    ghost apart = { λ v w e. Prim.cc };

    fn check(_octets: &[u8]) -> Option<LeafFault> {
        None
    }

    fn of(octets: Vec<u8>) -> ObjectDescriptor {
        ObjectDescriptor { octets }
    }

    fn normal_size(descriptor: &ObjectDescriptor) -> usize {
        descriptor.octets.len()
    }

    fn put_normal(descriptor: &ObjectDescriptor, room: &mut [u8]) {
        room.copy_from_slice(&descriptor.octets);
    }
}

impl PartialEq for ObjectDescriptor {
    ghost eq = { pointwise nat_eq };

    ghost laws = { partial_equiv_from_equiv nat_list_eq_equiv };

    fn eq(&self, other: &Self) -> bool {
        self.octets() == other.octets()
    }
}

impl Eq for ObjectDescriptor {
    ghost laws = { nat_list_eq_equiv };
}
