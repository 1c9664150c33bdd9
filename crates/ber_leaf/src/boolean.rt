ghost use Rattle.std.specs.Prelude.{◌≡◌, length, nat_eq, not};
ghost use Rattle.std.specs.List.{list_all};
ghost use Rattle.ber_leaf.specs.Leaf.{boolean};
ghost use Rattle.ber_leaf.specs.Simple.{flag};

use crate::{Leaf, LeafFault};

/// The contents of a BOOLEAN (X.690, 8.2): one octet, `00` for false and any other for true.
pub struct Flag;

impl Leaf for Flag {
    type Out = bool;

    ghost kind = { boolean };

    ghost simple = { flag };

    ghost apart = { λ v w e. Prim.cc };

    fn check(octets: &[u8]) -> Option<LeafFault> {
        (octets.len() != 1).then_some(LeafFault::BadBoolean)
    }

    fn of(octets: Vec<u8>) -> bool {
        Flag::read(&octets)
    }

    fn normal_size(_value: &bool) -> usize {
        1
    }

    fn put_normal(value: &bool, room: &mut [u8]) {
        room[0] = if *value { 0xFF } else { 0x00 };
    }
}

impl Flag {
    /// The value of a content (X.690, 8.2.2): false where its octet is 0. It takes no memory.
    ///
    /// # Examples
    ///
    /// ```
    /// assert!(Flag::read(&[0x01]));
    /// ```
    pub fn read(octets: &[u8]) -> bool
        requires { length octets.now ≡ 1 }
        ensures { result ≡ not (list_all (nat_eq 0) octets.now) }
    {
        octets[0] != 0
    }
}
