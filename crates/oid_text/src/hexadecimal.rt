//! Octets in hexadecimal digits.
ghost use Rattle.std.specs.Prelude.{◌≡◌, ℕ, ◌<◌, List, ◌++◌, IfOk, IfNone, IfSome, IsTrue, MatchOption};
ghost use Rattle.std.specs.Char.{digit_char};
ghost use Rattle.ber_tree.specs.Octets.{are_octets};
ghost use Rattle.ill_schema.specs.Texts.{digits, hexadecimal};

use std::alloc::{AllocError, Global};

/// The octets that a text writes in hexadecimal digits. None where it writes none.
pub fn read_hexadecimal(alloc: Global, text: &[u8]) -> Result<Option<Vec<u8>>, AllocError>
    ensures said { IfOk result (λ found. IfSome found (λ octets. IsTrue (are_octets octets.items)
        × (text.now ≡ hexadecimal octets.items))) }
    ensures unsaid { IfOk result (λ found. IfNone found ((octets : List ℕ)
        → IsTrue (are_octets octets) → text.now ≡ hexadecimal octets → ⊥)) }
{
    let mut octets = Vec::new(alloc);
    let mut left = text;
    'octets: while !left.is_empty() {
        let Some((octet, rest)) = read_octet(left) else {
            return Ok(None);
        };
        octets.push(octet)?;
        left = rest;
    }
    Ok(Some(octets))
}

/// The octet whose two hexadecimal digits a text begins with, and the rest. None where it begins with none.
fn read_octet(text: &[u8]) -> Option<(u8, &[u8])>
    ensures { MatchOption result
        ((n : ℕ) (rest : List ℕ) → n < 256 → text.now ≡ digits n ++ rest → ⊥)
        (λ found. (found.0 < 256) × (text.now ≡ digits found.0 ++ found.1.now)) }
{
    let (high, after_high) = text.split_first()?;
    let (low, rest) = after_high.split_first()?;
    let octet = 16 * digit_value(*high)? + digit_value(*low)?;
    Some((octet, rest))
}

/// The value of a hexadecimal digit, in small letters. None where the octet is no digit.
fn digit_value(digit: u8) -> Option<u8>
    ensures { MatchOption result ((n : ℕ) → n < 16 → digit ≡ digit_char n → ⊥)
        (λ value. (value < 16) × (digit ≡ digit_char value)) }
{
    match digit {
        b'0'..=b'9' => Some(digit - b'0'),
        b'a'..=b'f' => Some(digit - b'a' + 10),
        _ => None,
    }
}
