//! Hexadecimal digits as octets.
ghost use Rattle.std.specs.Prelude.{◌≡◌, ℕ, List, IfNone, IfOk, IfSome, IsTrue};
ghost use Rattle.std.specs.Char.{is_ascii_uppercase};
ghost use Rattle.std.specs.List.{list_any};
ghost use Rattle.ber_tree.specs.Octets.{are_octets};
ghost use Rattle.ill_schema.specs.Texts.{hexadecimal};

use hex::FromHexError;
use std::alloc::{AllocError, Global};

/// The octets whose hexadecimal digits, in small letters, the text is. None where it is no such
/// text.
///
/// ```
/// // Some([0x2A, 0x86, 0x48])
/// let octets = octets_of_hexadecimal(alloc, "2a8648")?;
/// // None, since the letter is a capital letter
/// let octets = octets_of_hexadecimal(alloc, "2A8648")?;
/// ```
///
/// # Errors
///
/// Only out of memory.
pub fn octets_of_hexadecimal(alloc: Global, text: &str) -> Result<Option<Vec<u8>>, AllocError>
    ensures said { IfOk result (λ found. IfSome found (λ octets.
        IsTrue (are_octets octets.items) × (text.now ≡ hexadecimal octets.items))) }
    ensures unsaid { IfOk result (λ found. IfNone found ((octets : List ℕ)
        → IsTrue (are_octets octets) → text.now ≡ hexadecimal octets → ⊥)) }
{
    if has_capitals(text) {
        return Ok(None);
    }
    match hex::decode(alloc, text) {
        Ok(octets) => Ok(Some(octets)),
        Err(fault) => match fault {
            FromHexError::OutOfMemory => Err(AllocError),
            _ => Ok(None),
        },
    }
}

/// Tells whether some character of the text is a capital letter of ASCII.
fn has_capitals(text: &str) -> bool
    ensures { result ≡ list_any is_ascii_uppercase text.now }
{
    text.as_bytes()
        .iter()
        .any(|octet| octet.is_ascii_uppercase())
}
