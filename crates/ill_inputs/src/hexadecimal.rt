//! Hexadecimal text as an input.
ghost use Rattle.std.specs.Prelude.{◌≡◌, ◌≤◌, ◌⊎◌, length, Ok, Err, IfOk, IfErr, IsTrue};
ghost use Rattle.hex.specs.Hex.{decode_of};
ghost use Rattle.ill_inputs.specs.Hexadecimal.{hex_octets, is_blank, with_fault, without_blanks};
ghost use Rattle.ill_inputs.specs.declared.run_fault.RunFault.{RunFault};
ghost use Rattle.ill_inputs.specs.Inputs.{TextOf, FailsText};

use crate::run_fault::RunFault;
use crate::whole_input::read_at_most;
use ber_core::Source;
use hex::FromHexError;
use std::alloc::{AllocError, Global};

/// The greatest size of a hexadecimal text, in octets.
pub const MAX_HEX_TEXT: usize = 4_194_304;

/// Reads a text to its end, and returns the octets that it stands for. At most 4,194,305 octets are
/// taken of the source, whatever the result.
///
/// # Errors
///
/// The reason why the text stands for no octets, out of memory, or a source that is broken.
pub fn read_hex<R: Source>(alloc: Global, source: &mut R) -> Result<Vec<u8>, RunFault>
    ensures octets { IfOk result (λ octets. TextOf (R.left source.old) (R.left source.new)
        octets.items) }
    ensures fails { IfErr result (FailsText (R.left source.old) (R.left source.new)
        (R.is_broken source.new)) }
    ensures stays { IsTrue (R.is_broken source.old) → IsTrue (R.is_broken source.new) }
{
    let text = read_at_most(alloc, source, MAX_HEX_TEXT + 1)?;
    text_octets(alloc, &text)
}

/// The octets that a text stands for.
///
/// # Errors
///
/// The reason why the text stands for no octets, or out of memory.
pub fn text_octets(alloc: Global, text: &[u8]) -> Result<Vec<u8>, RunFault>
    ensures octets { IfOk result (λ octets. hex_octets text.now ≡ Ok octets.items) }
    ensures fails { IfErr result (λ fault. (hex_octets text.now ≡ Err fault)
        ⊎ (fault ≡ RunFault.OutOfMemory)) }
{
    if text.len() > MAX_HEX_TEXT {
        return Err(RunFault::HexTooLong);
    }
    // Digits alone, and one line of them, need no copy.
    let line = without_last_blank(without_last_blank(text));
    match hex::decode(alloc, line) {
        Ok(octets) => Ok(octets),
        Err(FromHexError::OutOfMemory) => Err(RunFault::OutOfMemory),
        Err(_) => spaced_octets(alloc, text),
    }
}

/// The octets that the digits of a text stand for.
fn spaced_octets(alloc: Global, text: &[u8]) -> Result<Vec<u8>, RunFault>
    ensures octets { IfOk result (λ octets. with_fault (decode_of (without_blanks text.now)) ≡ Ok
        octets.items) }
    ensures fails { IfErr result
        (λ fault. (with_fault (decode_of (without_blanks text.now)) ≡ Err fault)
        ⊎ (fault ≡ RunFault.OutOfMemory)) }
{
    let Ok(digits) = without_blanks(alloc, text) else {
        return Err(RunFault::OutOfMemory);
    };
    match hex::decode(alloc, digits.as_slice()) {
        Ok(octets) => Ok(octets),
        Err(FromHexError::OddLength) => Err(RunFault::OddHex),
        Err(FromHexError::InvalidHexCharacter { index, .. }) => Err(RunFault::BadHex(index as u64)),
        Err(FromHexError::OutOfMemory) => Err(RunFault::OutOfMemory),
        // That is of a buffer, which isn't as long as the digits say.
        Err(FromHexError::InvalidStringLength) => unreachable!(),
    }
}

fn is_blank(octet: u8) -> bool
    ensures { result ≡ is_blank octet }
{
    matches!(octet, b' ' | b'\t' | b'\r' | b'\n')
}

/// A text without its last octet, where that is a blank.
fn without_last_blank(text: &[u8]) -> &[u8]
    ensures same { without_blanks result.now ≡ without_blanks text.now }
    ensures fewer { length result.now ≤ length text.now }
{
    match text.split_last() {
        Some((last, front)) if is_blank(*last) => front,
        _ => text,
    }
}

fn without_blanks(alloc: Global, text: &[u8]) -> Result<Vec<u8>, AllocError>
    ensures { IfOk result (λ digits. digits.items ≡ without_blanks text.now) }
{
    let mut digits = Vec::new(alloc);
    for octet in text {
        if !is_blank(*octet) {
            digits.push(*octet)?;
        }
    }
    Ok(digits)
}
