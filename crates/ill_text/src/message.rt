//! The text of a message that is at hand.
ghost use Rattle.std.specs.Prelude.{◌≡◌, IfOk};
ghost use Rattle.ber_leaf.specs.Profile.{profile_two};
ghost use Rattle.ill_schema.specs.Apdu.{Apdu, SpellsApdu};
ghost use Rattle.ill_schema.specs.Message.{apdu_of};
ghost use Rattle.ill_grammar.specs.Outline.{IsOutlineOf};
ghost use Rattle.ill_text.specs.Shown.{shown_text};

use crate::text::Text;
use ber_core::FromSlice;
use ill_read::{Outline, ReadFailure, read_outline};
use ill_schema::{Message, Profile};
use ill_write::normal_bytes;
use std::alloc::{AllocError, Global};

/// The text of a message under this number: `message`, the number and the APDU's name, and then a
/// line for each leaf, its path and its value.
///
/// # Errors
///
/// Only out of memory.
///
/// # Examples
///
/// ```
/// // message 1 Expired
/// // protocol-version-num = 2
/// let text = show_text(alloc, 1, &message)?;
/// ```
pub fn show_text(alloc: Global, number: u32, message: &Message) -> Result<Vec<u8>, AllocError>
    ensures { IfOk result (λ text. text.items ≡ shown_text number (apdu_of message.now)) }
{
    let _ = message.body();
    let normal = normal_bytes(alloc, message)?;
    let outline = outline_of(alloc, &normal)?;
    Text::new(number, outline).octets(alloc)
}

/// The outline of the message that the octets are.
///
/// # Errors
///
/// Only out of memory.
fn outline_of(alloc: Global, octets: &[u8]) -> Result<Outline, AllocError>
    requires { (a : Apdu) × SpellsApdu profile_two a octets.now }
    ensures { (a : Apdu) → SpellsApdu profile_two a octets.now
        → IfOk result (λ outline. IsOutlineOf outline a) }
{
    let mut source = FromSlice::new(octets);
    match read_outline(alloc, Profile::Two, &mut source) {
        Ok(Some(read)) => Ok(read.outline),
        Ok(None) => unreachable!(),
        Err(ReadFailure::Refused(_)) => unreachable!(),
        Err(ReadFailure::OutOfMemory) => Err(AllocError),
        // A slice doesn't break.
        Err(ReadFailure::ReadFault) => unreachable!(),
    }
}
