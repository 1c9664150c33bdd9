//! Lengths in the fewest octets.
ghost use Rattle.std.specs.Prelude.{◌≡◌, ℕ, ◌^◌, ◌<◌, ◌≤◌, List, ◌++◌, length, MatchOption};
ghost use Rattle.std.specs.Int.Digits.{digits_of, number_from_digits};
ghost use Rattle.ber_tree.specs.Length.{shortest_length};

/// The length in the fewest octets that octets begin with (X.690, 8.1.3 and 10.1), and the octets behind it. None where they begin with
/// none below 2 to the power 64.
pub fn shortest_len(octets: &[u8]) -> Option<(usize, &[u8])>
    ensures { MatchOption result
        ((n : ℕ) (behind : List ℕ) → n < 2 ^ 64 → octets.now ≡ shortest_length n ++ behind → ⊥)
        (λ found. octets.now ≡ shortest_length found.0 ++ found.1.now) }
{
    let (first, behind) = octets.split_first()?;
    if *first < 128 {
        return Some((*first as usize, behind));
    }
    long_len((*first - 128) as usize, behind)
}

/// The least length in the long form, where it takes the fewest octets (X.690, 8.1.3.4 and 10.1).
const LONG_MIN: usize = 128;

/// The length of at least 128 in this number of octets at the front, and the octets behind it. None where it takes fewer octets, or more
/// than there are, or more than 8.
fn long_len(count: usize, octets: &[u8]) -> Option<(usize, &[u8])>
    ensures { MatchOption result
        ((n : ℕ) (behind : List ℕ) → 128 ≤ n → n < 2 ^ 64 → count ≡ length (digits_of 256 n)
        → octets.now ≡ digits_of 256 n ++ behind → ⊥)
        (λ found. (128 ≤ found.0) × (count ≡ length (digits_of 256 found.0))
        × (octets.now ≡ digits_of 256 found.0 ++ found.1.now)) }
{
    if count > 8 || count > octets.len() {
        return None;
    }
    let (digits, behind) = octets.split_at(count);
    let len = number(digits);
    if len < LONG_MIN || digits[0] == 0 {
        return None;
    }
    Some((len, behind))
}

/// The number that these digits in base 256 spell.
fn number(digits: &[u8]) -> usize
    requires { length digits.now ≤ 8 }
    ensures { result ≡ number_from_digits 256 digits.now }
{
    let mut number: usize = 0;
    for digit in digits {
        number = number * 256 + *digit as usize;
    }
    number
}
