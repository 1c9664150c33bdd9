//! Octets as text in hexadecimal.
ghost use Rattle.std.specs.Prelude.{◌≡◌, ◌<◌, ◌++◌, [], ◌∷◌, codes, slice_index, string_bytes, OnOk};
ghost use Rattle.std.specs.Char.{encode_utf8};
ghost use Rattle.ill_grammar.specs.Marks.{octets_in};
ghost use Rattle.ill_schema.specs.Texts.{hexadecimal};

use crate::outline::Mark;
use ill_schema::hexadecimal_digits;
use std::alloc::AllocError;

/// Adds the octets of the marks in hexadecimal.
pub fn add_hexadecimal(text: &mut String, octets: &[Mark]) -> Result<(), AllocError>
    ensures { OnOk result (string_bytes text.new ≡ string_bytes text.old
        ++ hexadecimal (octets_in octets.now)) }
{
    for mark in octets {
        add_mark(text, *mark)?;
    }
    Ok(())
}

fn add_mark(text: &mut String, mark: Mark) -> Result<(), AllocError>
    ensures { OnOk result (string_bytes text.new ≡ string_bytes text.old
        ++ hexadecimal (octets_in (mark ∷ []))) }
{
    match mark {
        Mark::Octet(octet) => add_octet(text, octet),
        _ => Ok(()),
    }
}

/// Adds the octets in hexadecimal.
pub fn add_octets(text: &mut String, octets: &[u8]) -> Result<(), AllocError>
    ensures { OnOk result (string_bytes text.new ≡ string_bytes text.old
        ++ hexadecimal octets.now) }
{
    for octet in octets {
        add_octet(text, *octet)?;
    }
    Ok(())
}

/// Adds an octet in hexadecimal.
fn add_octet(text: &mut String, octet: u8) -> Result<(), AllocError>
    ensures { OnOk result (string_bytes text.new ≡ string_bytes text.old
        ++ hexadecimal (octet ∷ [])) }
{
    let [high, low] = hexadecimal_digits(octet);
    text.push(char::from(high))?;
    text.push(char::from(low))
}
