ghost use Rattle.std.specs.Prelude.{◌≡◌, ◌<◌, ◌≤◌, ◌-◌, ◌++◌, length, replicate};
ghost use Rattle.ber_leaf.specs.Leaf.{integer, integer_of, is_padded, octet_count};
ghost use Rattle.ber_leaf.specs.code.Sign.{magnitude, sign_octet};
ghost use Rattle.ber_leaf.specs.Simple.{whole};

use crate::{Leaf, LeafFault};

/// The contents of an INTEGER or ENUMERATED (X.690, 8.3 and 8.4): one to eight octets of two's complement, and no fewer would do.
pub struct Whole;

impl Leaf for Whole {
    type Out = i64;

    ghost kind = { integer };

    ghost simple = { whole };

    ghost apart = { λ v w e. Prim.cc };

    fn check(octets: &[u8]) -> Option<LeafFault> {
        if is_padded(octets) {
            Some(LeafFault::BadInteger)
        } else {
            (octets.len() > 8).then_some(LeafFault::IntegerTooLong)
        }
    }

    fn of(octets: Vec<u8>) -> i64 {
        Whole::read(&octets)
    }

    fn normal_size(value: &i64) -> usize {
        octet_count(magnitude(*value))
    }

    fn put_normal(value: &i64, room: &mut [u8]) {
        let bytes = value.to_be_bytes();
        room.copy_from_slice(&bytes[8 - room.len()..]);
    }
}

impl Whole {
    /// The number that these octets are in two's complement, most significant octet first (X.690, 8.3.3). It takes no memory.
    ///
    /// # Examples
    ///
    /// ```
    /// assert!(Whole::read(&[0xFF, 0x7F]) == -129);
    /// ```
    pub fn read(octets: &[u8]) -> i64
        requires some { 0 < length octets.now }
        requires few { length octets.now ≤ 8 }
        ensures { result ≡ integer_of octets.now }
    {
        i64::from_be_bytes(sign_extended(octets))
    }
}

/// Tells whether there are no octets, or at least two whose first nine bits are equal.
fn is_padded(octets: &[u8]) -> bool
    ensures { result ≡ is_padded octets.now }
{
    match octets {
        [] => true,
        [_] => false,
        [first, second, ..] => match first {
            0x00 => *second < 0x80,
            0xFF => *second >= 0x80,
            _ => false,
        },
    }
}

/// The octets after as many copies of their sign as make eight of them.
fn sign_extended(octets: &[u8]) -> [u8; 8]
    requires some { 0 < length octets.now }
    requires few { length octets.now ≤ 8 }
    ensures { result ≡ replicate (8 - length octets.now) (sign_octet octets.now) ++ octets.now }
{
    let sign = if octets[0] < 0x80 { 0x00 } else { 0xFF };
    let mut bytes = [sign; 8];
    bytes[8 - octets.len()..].copy_from_slice(octets);
    bytes
}

/// The least `n` such that the value is from `-n - 1` to `n`.
fn magnitude(value: i64) -> u64
    ensures { result ≡ magnitude value }
{
    if value < 0 {
        (-1 - value) as u64
    } else {
        value as u64
    }
}

/// The number of octets that hold the numbers from `-n - 1` to `n`.
fn octet_count(n: u64) -> usize
    ensures { result ≡ octet_count n }
{
    match n {
        0..0x80 => 1,
        0x80..0x8000 => 2,
        0x8000..0x80_0000 => 3,
        0x80_0000..0x8000_0000 => 4,
        0x8000_0000..0x80_0000_0000 => 5,
        0x80_0000_0000..0x8000_0000_0000 => 6,
        0x8000_0000_0000..0x80_0000_0000_0000 => 7,
        _ => 8,
    }
}
