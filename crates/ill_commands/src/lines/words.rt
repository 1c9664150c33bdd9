//! The words of a line that is not a message.
ghost use Rattle.std.specs.Prelude.{◌≡◌, IfOk, OnOk, ◌++◌};
ghost use Rattle.ill_refusals.specs.Fault.{fault_of};
ghost use Rattle.ill_commands.specs.Words.{cause_words, hex_words, refusal_words};

use ill_normal::{Cause, Refusal, RunFault};
use itoa::Buffer;
use std::alloc::{AllocError, Global};

/// `refused at`, the offset, and the cause.
pub fn refusal_words(alloc: Global, refusal: Refusal) -> Result<Vec<u8>, AllocError>
    ensures { IfOk result (λ words. words.items ≡ refusal_words (fault_of refusal)) }
{
    let mut words = Vec::new(alloc);
    words.extend_from_slice(b"refused at ")?;
    words.extend_from_slice(Buffer::new().format(refusal.at).as_bytes())?;
    words.extend_from_slice(b": ")?;
    push_cause(&mut words, refusal.cause)?;
    Ok(words)
}

fn push_cause(words: &mut Vec<u8>, cause: Cause) -> Result<(), AllocError>
    ensures { OnOk result (words.new.items ≡ words.old.items ++ cause_words cause) }
{
    words.extend_from_slice(cause.name().as_bytes())?;
    let Some((node, row)) = cause.part_name() else {
        return Ok(());
    };
    words.extend_from_slice(b" ")?;
    words.extend_from_slice(node.as_bytes())?;
    words.extend_from_slice(b".")?;
    words.extend_from_slice(row.as_bytes())?;
    Ok(())
}

/// The reason why a text stands for no octets.
pub fn hex_words(alloc: Global, fault: RunFault) -> Result<Vec<u8>, AllocError>
    ensures { IfOk result (λ words. words.items ≡ hex_words fault) }
{
    let mut words = Vec::new(alloc);
    match fault {
        RunFault::OddHex => words.extend_from_slice(b"hex: odd number of digits")?,
        RunFault::BadHex(place) => {
            words.extend_from_slice(b"hex: bad digit at ")?;
            words.extend_from_slice(Buffer::new().format(place).as_bytes())?;
        }
        RunFault::HexTooLong => words.extend_from_slice(b"hex: too long")?,
        _ => {}
    }
    Ok(words)
}
