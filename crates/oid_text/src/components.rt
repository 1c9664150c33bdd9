//! Identifiers whose numbers are short: decimals with dots between them.
ghost use Rattle.std.specs.Prelude.{◌≡◌, ℕ, ◌-◌, ◌*◌, ◌/◌, ◌^◌, ◌<◌, min, true, false, List, ◌∷◌, ◌++◌, flat_map, IsTrue, IfOk, IfNone, IfSome, MatchOption};
ghost use Rattle.ill_schema.specs.Texts.{after_dot, oid_components, with_dots};
ghost use Rattle.oid_text.specs.Numbers.{IsAtDot, are_short, subidentifier, two_components};

use crate::number::{read_dotted, read_number};
use crate::octets::{SHORT_END, put_number};
use std::alloc::{AllocError, Global};

/// The octets of the numbers whose components a text is, with dots between them. None where it is no such text.
pub fn read_components(alloc: Global, text: &[u8]) -> Result<Option<Vec<u8>>, AllocError>
    ensures said { IfOk result (λ found. IfSome found (λ octets. (n : ℕ) × (numbers : List ℕ)
        × IsTrue (are_short (n ∷ numbers)) × (text.now ≡ with_dots (oid_components (n ∷ numbers)))
        × (octets.items ≡ flat_map subidentifier (n ∷ numbers)))) }
    ensures unsaid { IfOk result (λ found. IfNone found ((n : ℕ) (numbers : List ℕ)
        → IsTrue (are_short (n ∷ numbers)) → text.now ≡ with_dots (oid_components (n ∷ numbers))
        → ⊥)) }
{
    let Some((number, rest)) = read_two(text) else {
        return Ok(None);
    };
    let mut octets = Vec::new(alloc);
    put_number(number, &mut octets)?;
    let is_read = put_numbers(rest, &mut octets)?;
    Ok(is_read.then_some(octets))
}

/// The first number, for which two components stand that a text begins with (X.690, 8.19.4), and the rest. None where it begins with none.
fn read_two(text: &[u8]) -> Option<(u64, &[u8])>
    ensures { MatchOption result
        ((n : ℕ) (rest : List ℕ) → n < 2 ^ 63 → IsAtDot rest → text.now ≡ two_components n ++ rest → ⊥)
        (λ found. (found.0 < 2 ^ 63) × IsAtDot found.1.now
        × (text.now ≡ two_components found.0 ++ found.1.now)) }
{
    let (root, after_root) = read_number(text)?;
    let (second, rest) = read_dotted(after_root)?;
    let number = first_number(root, second)?;
    Some((number, rest))
}

/// The number that stands for these two components (X.690, 8.19.4). None where none does that takes at most 63 bits.
fn first_number(root: u64, second: u64) -> Option<u64>
    ensures { MatchOption result
        ((n : ℕ) → n < 2 ^ 63 → root ≡ min 2 (n / 40) → second ≡ n - 40 * min 2 (n / 40) → ⊥)
        (λ n. (n < 2 ^ 63) × (root ≡ min 2 (n / 40)) × (second ≡ n - 40 * min 2 (n / 40))) }
{
    if root > 2 || (root < 2 && second >= 40) || second >= SHORT_END - 40 * root {
        return None;
    }
    Some(40 * root + second)
}

/// Appends the octets of the numbers of a text, each after a dot. False where it is no such text; what was appended is not said then.
fn put_numbers(text: &[u8], octets: &mut Vec<u8>) -> Result<bool, AllocError>
    ensures said { IfOk result (λ is_read. is_read ≡ true → (numbers : List ℕ)
        × IsTrue (are_short numbers) × (text.now ≡ flat_map after_dot numbers)
        × (octets.new.items ≡ octets.old.items ++ flat_map subidentifier numbers)) }
    ensures unsaid { IfOk result (λ is_read. is_read ≡ false → (numbers : List ℕ)
        → IsTrue (are_short numbers) → text.now ≡ flat_map after_dot numbers → ⊥) }
{
    let mut left = text;
    'numbers: while !left.is_empty() {
        let Some((number, rest)) = read_dotted(left) else {
            return Ok(false);
        };
        put_number(number, octets)?;
        left = rest;
    }
    Ok(true)
}
