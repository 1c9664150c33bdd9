//! The octets of numbers.
ghost use Rattle.std.specs.Prelude.{◌≡◌, ◌+◌, ◌++◌, map, OnOk};
ghost use Rattle.std.specs.Int.Digits.{digits_of};
ghost use Rattle.ber_leaf.specs.Leaf.{is_oid};
ghost use Rattle.ill_schema.specs.Texts.{numbers_after};
ghost use Rattle.oid_text.specs.Numbers.{are_short, subidentifier};

use ber_leaf::{Leaf, ObjectIdentifier};
use std::alloc::AllocError;

/// The least number that takes more than 63 bits.
pub const SHORT_END: u64 = 1 << 63;

/// Appends a number in the fewest octets of seven bits (X.690, 8.19.2).
pub fn put_number(number: u64, octets: &mut Vec<u8>) -> Result<(), AllocError>
    ensures { OnOk result (octets.new.items ≡ octets.old.items ++ subidentifier number) }
{
    put_digits(number / 128, octets)?;
    octets.push((number % 128) as u8)?;
    Ok(())
}

/// Appends the digits of a number in base 128, with bit 8 set on each. There are none of 0.
fn put_digits(number: u64, octets: &mut Vec<u8>) -> Result<(), AllocError>
    ensures { OnOk result (octets.new.items ≡ octets.old.items
        ++ map (λ digit. 128 + digit) (digits_of 128 number)) }
{
    if number > 0 {
        put_digits(number / 128, octets)?;
        octets.push(128 + (number % 128) as u8)?;
    }
    Ok(())
}

/// Tells whether each number takes at most 63 bits.
pub fn are_short(octets: &[u8]) -> bool
    ensures { result ≡ are_short (numbers_after 0 octets.now) }
{
    let mut number: u64 = 0;
    for octet in octets {
        number = number
            .saturating_mul(128)
            .saturating_add((*octet % 128) as u64);
        if *octet < 128 {
            if number >= SHORT_END {
                return false;
            }
            number = 0;
        }
    }
    true
}

/// Tells whether the octets are one subidentifier or more.
pub fn is_oid(octets: &[u8]) -> bool
    ensures { result ≡ is_oid octets.now }
{
    ObjectIdentifier::check(octets).is_none()
}
