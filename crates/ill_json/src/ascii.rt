//! Texts of JSON in ASCII.
ghost use Rattle.std.specs.Prelude.{◌≡◌, ◌%◌, ◌++◌, flat_map, nat_lt, IfOk, OnOk};
ghost use Rattle.std.specs.Char.{digit_char};
ghost use Rattle.std.specs.List.{list_all};
ghost use Rattle.std.specs.Str.{chars, IsUtf8};
ghost use Rattle.ill_json.specs.Json.{plain, unit_text};

use std::alloc::{AllocError, Global};
use std::str;

/// The first of the characters that are written by their numbers.
const DEL: char = '\x7f';

/// The text in ASCII: DEL and each character beyond ASCII is written by its number.
///
/// # Errors
///
/// Only out of memory.
pub fn into_ascii(alloc: Global, text: Vec<u8>) -> Result<Vec<u8>, AllocError>
    requires { IsUtf8 text.items }
    ensures { IfOk result (λ line. line.items ≡ flat_map plain (chars text.items)) }
{
    if is_plain(&text) {
        Ok(text)
    } else {
        escaped(alloc, text_of(&text))
    }
}

/// Tells whether each character of the text is before DEL.
fn is_plain(text: &[u8]) -> bool
    ensures { result ≡ list_all (λ octet. nat_lt octet 0x7F) text.now }
{
    let mut is_plain = true;
    for octet in text {
        // A loop with no way out takes many octets at once.
        is_plain &= *octet < DEL as u8;
    }
    is_plain
}

/// The octets as text.
fn text_of(octets: &[u8]) -> &str
    requires { IsUtf8 octets.now }
    ensures { result.now ≡ octets.now }
{
    match str::from_utf8(octets) {
        Ok(text) => text,
        Err(_) => unreachable!(),
    }
}

fn escaped(alloc: Global, text: &str) -> Result<Vec<u8>, AllocError>
    ensures { IfOk result (λ line. line.items ≡ flat_map plain (chars text.now)) }
{
    let mut line = Vec::new(alloc);
    for character in text.chars() {
        push_character(&mut line, character)?;
    }
    Ok(line)
}

fn push_character(line: &mut Vec<u8>, character: char) -> Result<(), AllocError>
    ensures { OnOk result (line.new.items ≡ line.old.items ++ plain character) }
{
    if character < DEL {
        line.push(character as u8)?;
        return Ok(());
    }
    let mut room = [0; 2];
    push_units(line, character.encode_utf16(&mut room))
}

fn push_units(line: &mut Vec<u8>, units: &[u16]) -> Result<(), AllocError>
    ensures { OnOk result (line.new.items ≡ line.old.items ++ flat_map unit_text units.now) }
{
    for unit in units {
        push_unit(line, *unit)?;
    }
    Ok(())
}

fn push_unit(line: &mut Vec<u8>, unit: u16) -> Result<(), AllocError>
    ensures { OnOk result (line.new.items ≡ line.old.items ++ unit_text unit) }
{
    line.extend_from_slice(&[
        b'\\',
        b'u',
        digit(unit / 4096),
        digit(unit / 256),
        digit(unit / 16),
        digit(unit),
    ])
}

/// The last hexadecimal digit of a number.
fn digit(number: u16) -> u8
    ensures { result ≡ digit_char (number % 16) }
{
    let digit = (number % 16) as u8;
    if digit < 10 {
        b'0' + digit
    } else {
        b'a' + (digit - 10)
    }
}
