ghost use Rattle.std.proofs.Common.{refl};
ghost use Rattle.ber_leaf.specs.Leaf.{null_type};
ghost use Rattle.ber_leaf.specs.Simple.{null};

use crate::{Leaf, LeafFault};

/// The one value of NULL, whose contents have no octets (X.690, 8.8).
///
/// # Examples
///
/// ```
/// assert!(Null::check(&[]).is_none());
/// ```
#[derive(Clone, Copy, Debug, PartialEq, Eq)]
pub struct Null;

impl Leaf for Null {
    type Out = Null;

    ghost kind = { null_type };

    ghost simple = { λ value. null };

    ghost apart = { λ v w e. refl };

    fn check(octets: &[u8]) -> Option<LeafFault> {
        (!octets.is_empty()).then_some(LeafFault::BadNull)
    }

    fn of(_octets: Vec<u8>) -> Null {
        Null
    }

    fn normal_size(_value: &Null) -> usize {
        0
    }

    fn put_normal(_value: &Null, _room: &mut [u8]) {}
}
