//! The text of an OBJECT IDENTIFIER.
ghost use Rattle.std.specs.Prelude.{◌≡◌, ◌<◌, ◌++◌, [], ℕ, length, min, decimal, string_bytes, IfSome, IsTrue, MatchOption, OnOk};
ghost use Rattle.ill_grammar.specs.Identifiers.{IsFirstNumber, are_short, numbers_in};
ghost use Rattle.ill_grammar.specs.Marks.{octets_in};
ghost use Rattle.ill_schema.specs.Texts.{after_dot, oid_components, oid_text, with_dots};
ghost use Rattle.ill_grammar.specs.code.Identifiers.{number_with};

use crate::hexadecimal::add_hexadecimal;
use crate::marks::ends_number;
use crate::outline::Mark;
use itoa::Buffer;
use std::alloc::AllocError;

/// Adds the text of an OBJECT IDENTIFIER with these octets: its components in decimals, or its octets where a number
/// takes more than 63 bits.
///
/// # Errors
///
/// Only out of memory.
///
/// # Examples
///
/// ```
/// let mut text = String::new(alloc);
/// add_identifier(&mut text, &[Mark::Octet(0x2A), Mark::Octet(0x03)])?; // 1.2.3
/// ```
pub fn add_identifier(text: &mut String, octets: &[Mark]) -> Result<(), AllocError>
    ensures { OnOk result (string_bytes text.new ≡ string_bytes text.old
        ++ oid_text (octets_in octets.now)) }
{
    if are_short(octets) {
        add_components(text, octets)
    } else {
        text.push_str("oid ")?;
        add_hexadecimal(text, octets)
    }
}

/// Tells whether each subidentifier is below 2 to the power 63.
///
/// # Examples
///
/// ```
/// let is_short = are_short(&[Mark::Octet(0x2A), Mark::Octet(0x03)]); // true
/// ```
pub fn are_short(octets: &[Mark]) -> bool
    ensures { result ≡ are_short (numbers_in octets.now) }
{
    let mut left = octets;
    'numbers: while let Some((number, rest)) = next_number(left) {
        if number >= 1 << 63 {
            return false;
        }
        left = rest;
    }
    true
}

/// Adds the components of an OBJECT IDENTIFIER whose subidentifiers are short, with dots between them.
fn add_components(text: &mut String, octets: &[Mark]) -> Result<(), AllocError>
    requires { IsTrue (are_short (numbers_in octets.now)) }
    ensures { OnOk result (string_bytes text.new ≡ string_bytes text.old
        ++ with_dots (oid_components (numbers_in octets.now))) }
{
    let Some((first, rest)) = next_number(octets) else {
        return Ok(());
    };
    let root = (first / 40).min(2);
    add_number(text, root)?;
    add_dotted(text, first - 40 * root)?;
    let mut left = rest;
    'numbers: while let Some((number, rest)) = next_number(left) {
        add_dotted(text, number)?;
        left = rest;
    }
    Ok(())
}

/// Adds a dot and a number.
fn add_dotted(text: &mut String, number: u64) -> Result<(), AllocError>
    ensures { OnOk result (string_bytes text.new ≡ string_bytes text.old ++ after_dot number) }
{
    text.push('.')?;
    add_number(text, number)
}

/// Adds a number in decimals.
fn add_number(text: &mut String, number: u64) -> Result<(), AllocError>
    ensures { OnOk result (string_bytes text.new ≡ string_bytes text.old ++ decimal number) }
{
    text.push_str(Buffer::new().format(number))
}

/// The number of the first subidentifier, or 2 ^ 64 - 1 where it is greater, and the marks after it; None where no
/// subidentifier ends.
///
/// # Examples
///
/// ```
/// let next = next_number(&[Mark::Octet(0x86), Mark::Octet(0x48), Mark::Octet(0x03)]); // 840, and the mark of 03
/// ```
pub fn next_number(octets: &[Mark]) -> Option<(u64, &[Mark])>
    ensures number { MatchOption result (numbers_in octets.now ≡ [])
        (λ next. IsFirstNumber (octets_in octets.now) next.0 (octets_in next.1.now)) }
    ensures shorter { IfSome result (λ next. length next.1.now < length octets.now) }
{
    let mut number = 0;
    for i in 0..octets.len() {
        number = number_with(number, octets[i]);
        if ends_number(octets[i]) {
            return Some((number, &octets[i + 1..]));
        }
    }
    None
}

/// A number with seven more bits, or 2 ^ 64 - 1 where it is greater.
fn number_with(number: u64, mark: Mark) -> u64
    ensures { (n : ℕ) → number ≡ min n 18_446_744_073_709_551_615
        → result ≡ min (number_with n mark) 18_446_744_073_709_551_615 }
{
    match mark {
        Mark::Octet(octet) => number
            .saturating_mul(128)
            .saturating_add((octet % 128) as u64),
        _ => number,
    }
}
