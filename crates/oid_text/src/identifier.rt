//! Identifiers.
ghost use Rattle.std.specs.Prelude.{◌≡◌, ℕ, false, List, IfOk, IfNone, IfSome, IsTrue};
ghost use Rattle.ber_leaf.specs.Leaf.{is_oid};
ghost use Rattle.ber_tree.specs.Octets.{are_octets};
ghost use Rattle.ill_schema.specs.Texts.{hexadecimal, numbers_after, oid_text};
ghost use Rattle.oid_text.specs.Numbers.{are_short};

use crate::components::read_components;
use crate::hexadecimal::read_hexadecimal;
use crate::octets::{are_short, is_oid};
use std::alloc::{AllocError, Global};

/// The contents octets of the OBJECT IDENTIFIER whose text this is: decimals with dots between them, or `oid ` and hexadecimal digits where
/// a number takes more than 63 bits. None where it is no such text.
///
/// # Errors
///
/// Only out of memory.
///
/// # Examples
///
/// ```
/// let octets = octets_of_oid(alloc, "2.999.3")?; // Some(vec![0x88, 0x37, 0x03])
/// let none = octets_of_oid(alloc, "2.0999")?; // None: a number has no zero before it
/// ```
pub fn octets_of_oid(alloc: Global, text: &str) -> Result<Option<Vec<u8>>, AllocError>
    ensures said { IfOk result (λ found. IfSome found (λ octets. IsTrue (are_octets octets.items)
        × IsTrue (is_oid octets.items) × (text.now ≡ oid_text octets.items))) }
    ensures unsaid { IfOk result (λ found. IfNone found ((octets : List ℕ)
        → IsTrue (are_octets octets) → IsTrue (is_oid octets) → text.now ≡ oid_text octets → ⊥)) }
{
    let bytes = text.as_bytes();
    match bytes.strip_prefix(b"oid ") {
        Some(digits) => read_great(alloc, digits),
        None => read_components(alloc, bytes),
    }
}

/// The octets of an identifier of which a number takes more than 63 bits, in hexadecimal digits. None where a text is no such octets.
fn read_great(alloc: Global, text: &[u8]) -> Result<Option<Vec<u8>>, AllocError>
    ensures said { IfOk result (λ found. IfSome found (λ octets. IsTrue (are_octets octets.items)
        × IsTrue (is_oid octets.items) × (are_short (numbers_after 0 octets.items) ≡ false)
        × (text.now ≡ hexadecimal octets.items))) }
    ensures unsaid { IfOk result (λ found. IfNone found ((octets : List ℕ)
        → IsTrue (are_octets octets) → IsTrue (is_oid octets)
        → are_short (numbers_after 0 octets) ≡ false → text.now ≡ hexadecimal octets → ⊥)) }
{
    let Some(octets) = read_hexadecimal(alloc, text)? else {
        return Ok(None);
    };
    if is_oid(&octets) && !are_short(&octets) {
        Ok(Some(octets))
    } else {
        Ok(None)
    }
}
