//! Numbers in decimals.
ghost use Rattle.std.specs.Prelude.{◌≡◌, ℕ, ◌^◌, ◌<◌, List, ◌++◌, decimal, MatchOption};
ghost use Rattle.ill_schema.specs.Texts.{after_dot};
ghost use Rattle.oid_text.specs.Numbers.{HasNoDot, IsAtDot};

use crate::octets::SHORT_END;
use fast_float::parse_u64;
use itoa::Buffer;

/// The number of at most 63 bits whose decimals a text begins with, up to a dot or the end, and the rest. None where it begins with none.
pub fn read_number(text: &[u8]) -> Option<(u64, &[u8])>
    ensures { MatchOption result
        ((n : ℕ) (rest : List ℕ) → n < 2 ^ 63 → IsAtDot rest → text.now ≡ decimal n ++ rest → ⊥)
        (λ found. (found.0 < 2 ^ 63) × IsAtDot found.1.now
        × (text.now ≡ decimal found.0 ++ found.1.now)) }
{
    let (digits, rest) = split_at_dot(text);
    let number = parse_u64(digits).ok()?;
    // A number has one text, without zeros or a sign before it.
    if number >= SHORT_END || Buffer::new().format(number).as_bytes() != digits {
        return None;
    }
    Some((number, rest))
}

/// The number of at most 63 bits that a text begins with after a dot, up to another dot or the end, and the rest. None where it begins with
/// none.
pub fn read_dotted(text: &[u8]) -> Option<(u64, &[u8])>
    ensures { MatchOption result
        ((n : ℕ) (rest : List ℕ) → n < 2 ^ 63 → IsAtDot rest → text.now ≡ after_dot n ++ rest → ⊥)
        (λ found. (found.0 < 2 ^ 63) × IsAtDot found.1.now
        × (text.now ≡ after_dot found.0 ++ found.1.now)) }
{
    let (first, rest) = text.split_first()?;
    if *first != b'.' {
        return None;
    }
    read_number(rest)
}

/// The text before its first dot, and the rest.
fn split_at_dot(text: &[u8]) -> (&[u8], &[u8])
    ensures joined { text.now ≡ result.0.now ++ result.1.now }
    ensures front { HasNoDot result.0.now }
    ensures rest { IsAtDot result.1.now }
{
    for (i, octet) in text.iter().enumerate() {
        if *octet == b'.' {
            return text.split_at(i);
        }
    }
    text.split_at(text.len())
}
