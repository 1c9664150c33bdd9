//! The normal form of a message, written to a sink.
ghost use Rattle.std.specs.Prelude.{◌≡◌, ◌<◌, IfOk, IfErr, IsErr, IsErrOf, IsTrue, length, take};
ghost use Rattle.std.specs.Io.KnownBytes.{Appends, Keeps};
ghost use Rattle.ill_schema.specs.Apdu.{normal_form};
ghost use Rattle.ill_schema.specs.Message.{apdu_of};
ghost use Rattle.ill_write.specs.code.NextAre.{NextAre};
ghost use Rattle.ill_write.specs.ContentSizes.{content_sizes, tree_of};
ghost use Rattle.ill_write.specs.Sizes.{contents_of, total_of};
ghost use Rattle.ill_write.specs.code.Puts.{Puts};
ghost use Rattle.ill_write.specs.Written.{IfPartWritten};

use crate::buffered_sink::BufferedSink;
use crate::element::apdu_row;
use crate::failure::WriteFailure;
use crate::sizes::Sizes;
use crate::write::write_row;
use ber_core::{Broken, Sink, VecSink};
use ill_schema::Message;
use std::alloc::{AllocError, Global};

/// Writes the normal form of a message, which is its DER encoding (X.690, 10 and 11), and returns its
/// size in octets. Memory is taken for the sizes alone, before the first octet is written.
///
/// # Errors
///
/// [`WriteFailure::OutOfMemory`], where nothing was written, or [`WriteFailure::WriteFault`] with
/// the number of octets that were written before the sink broke.
pub fn write_normal<W: Sink>(
    alloc: Global,
    message: &Message,
    sink: &mut W,
) -> Result<u32, WriteFailure>
    ensures written { IfOk result (λ n. Appends (W.contents sink.old) (W.contents sink.new)
        (normal_form (apdu_of message.now))
        × (n ≡ length (normal_form (apdu_of message.now)))) }
    ensures memory { IsErrOf result WriteFailure.OutOfMemory
        → Keeps (W.contents sink.old) (W.contents sink.new) }
    // Of a normal form that wasn't written whole, exactly the first octets were, as many as the fault says.
    ensures part { IfErr result (λ e. IfPartWritten e
        (λ n. Appends (W.contents sink.old) (W.contents sink.new)
        (take n (normal_form (apdu_of message.now)))
        × (n < length (normal_form (apdu_of message.now))) × IsTrue (W.is_broken sink.new))) }
    ensures stays { IsTrue (W.is_broken sink.old) → IsTrue (W.is_broken sink.new) }
{
    match Sizes::measure(alloc, message) {
        Ok(sizes) => match write_measured(&sizes, message, sink) {
            Ok(total) => Ok(total),
            Err(written) => Err(WriteFailure::WriteFault(written)),
        },
        Err(_) => Err(WriteFailure::OutOfMemory),
    }
}

/// The octets of the normal form of a message, which is its DER encoding (X.690, 10 and 11).
///
/// # Errors
///
/// [`AllocError`], where memory is refused.
pub fn normal_bytes(alloc: Global, message: &Message) -> Result<Vec<u8>, AllocError>
    ensures { IfOk result (λ octets. octets.items ≡ normal_form (apdu_of message.now)) }
{
    let sizes = Sizes::measure(alloc, message)?;
    let mut bytes = VecSink {
        octets: Vec::with_capacity(alloc, sizes.total as usize)?,
        broken: false,
    };
    match write_measured(&sizes, message, &mut bytes) {
        Ok(_) => Ok(bytes.octets),
        Err(_) => Err(AllocError),
    }
}

/// Writes the normal form of the message that was measured, and returns its size; where the sink
/// broke, the error is how many octets were written.
fn write_measured<W: Sink>(sizes: &Sizes, message: &Message, sink: &mut W) -> Result<u32, u32>
    requires contents { contents_of sizes.now ≡ content_sizes (tree_of message.now) }
    requires total { total_of sizes.now ≡ length (normal_form (apdu_of message.now)) }
    ensures written { IfOk result (λ n. Appends (W.contents sink.old) (W.contents sink.new)
        (normal_form (apdu_of message.now))
        × (n ≡ length (normal_form (apdu_of message.now)))) }
    ensures part { IfErr result (λ n. Appends (W.contents sink.old) (W.contents sink.new)
        (take n (normal_form (apdu_of message.now)))
        × (n < length (normal_form (apdu_of message.now))) × IsTrue (W.is_broken sink.new)) }
    ensures stays { IsTrue (W.is_broken sink.old) → IsTrue (W.is_broken sink.new) }
{
    let total = sizes.total;
    let mut progress = BufferedSink::new();
    match write_message(message, &sizes.contents, &mut progress, sink) {
        Ok(()) => Ok(total),
        Err(Broken) => Err(progress.written()),
    }
}

/// Writes a message's element, and what waits.
fn write_message<W: Sink>(
    message: &Message,
    contents: &[u32],
    progress: &mut BufferedSink,
    sink: &mut W,
) -> Result<(), Broken>
    requires { NextAre contents.now progress.old.next (content_sizes (tree_of message.now)) }
    ensures puts { Puts result (normal_form (apdu_of message.now))
        (W.contents sink.old) progress.old (W.contents sink.new) progress.new }
    ensures empty { IfOk result (λ _. progress.new.len ≡ 0) }
    ensures breaks { IsErr result → IsTrue (W.is_broken sink.new) }
    ensures stays { IsTrue (W.is_broken sink.old) → IsTrue (W.is_broken sink.new) }
{
    write_row(apdu_row(message), message.body(), contents, progress, sink)?;
    progress.flush(sink)
}
