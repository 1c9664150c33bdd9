//! Characters as octets.
ghost use Rattle.std.specs.Prelude.{◌≡◌, ℕ, List, IfNone, IfOk, IfSome, IsTrue};
ghost use Rattle.ber_tree.specs.Octets.{are_octets};
ghost use Rattle.ill_schema.specs.Texts.{characters};

use std::alloc::{AllocError, Global};

/// The octets whose characters the text is: each character is an octet of its number. None where a
/// character is past U+00FF.
///
/// ```
/// // Some([0x4C, 0xFC])
/// let octets = octets_of_characters(alloc, "Lü")?;
/// ```
///
/// # Errors
///
/// Only out of memory.
pub fn octets_of_characters(alloc: Global, text: &str) -> Result<Option<Vec<u8>>, AllocError>
    ensures said { IfOk result (λ found. IfSome found (λ octets.
        IsTrue (are_octets octets.items) × (text.now ≡ characters octets.items))) }
    ensures unsaid { IfOk result (λ found. IfNone found ((octets : List ℕ)
        → IsTrue (are_octets octets) → text.now ≡ characters octets → ⊥)) }
{
    if text.is_ascii() {
        return Ok(Some(Vec::from_slice(alloc, text.as_bytes())?));
    }
    octets_by_character(alloc, text)
}

/// The octets of any characters, one character at a time.
fn octets_by_character(alloc: Global, text: &str) -> Result<Option<Vec<u8>>, AllocError>
    ensures said { IfOk result (λ found. IfSome found (λ octets.
        IsTrue (are_octets octets.items) × (text.now ≡ characters octets.items))) }
    ensures unsaid { IfOk result (λ found. IfNone found ((octets : List ℕ)
        → IsTrue (are_octets octets) → text.now ≡ characters octets → ⊥)) }
{
    let mut octets = Vec::new(alloc);
    for character in text.chars() {
        let Ok(octet) = u8::try_from(character) else {
            return Ok(None);
        };
        octets.push(octet)?;
    }
    Ok(Some(octets))
}
