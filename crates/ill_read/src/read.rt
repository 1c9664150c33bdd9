//! Messages out of sources and slices.
ghost use Rattle.std.specs.Prelude.{◌≡◌, ℕ, ◌<◌, ◌≤◌, List, [], length, take, IfOk, IfErr, IfSome, IsErr, IsErrOf, IsTrue};
ghost use Rattle.std.specs.Io.KnownBytes.{Appends, Consumes, Keeps};
ghost use Rattle.ill_schema.specs.Profiles.{profile_of};
ghost use Rattle.ill_tables.specs.declared.profile.Profile.{Profile as Named};
ghost use Rattle.ber_leaf.specs.Profile.{profile_two};
ghost use Rattle.ill_schema.specs.Apdu.{Accepts, Apdu, SpellsApdu};
ghost use Rattle.ill_read.specs.Answers.{AnswersSome, IfRefused, IsRead, IsReadFault, IsSpelled, IsUnfinishedIn, ReadsNext, ReadsNextIn, RefusesWhole, TakesFront, TakesNoMessageIn};
ghost use Rattle.ill_read.specs.code.Filling.{HasKept, HasPulled, HasTaken, NoneEndsWithin, TakesUnfinished};
ghost use Rattle.ill_read.specs.Feeding.{IsOpenAt};
ghost use Rattle.ill_read.specs.declared.failure.Failure.{Failure};
ghost use Rattle.ill_read.specs.declared.failure.ReadFailure.{ReadFailure};
ghost use Rattle.ill_read.specs.code.ReaderCode.{DecodeAnswers, HasBegun, IsFed, IsReadOf};

use crate::draft::Draft;
use crate::failure::{Failure, ReadFailure};
use crate::reader::Reader;
use crate::recorder::{NoRecorder, Recorder};
use crate::value_draft::ValueDraft;
use ber_core::{Broken, Source};
use ill_schema::{Cause, LIMIT, Message, Profile};
use std::alloc::Global;

/// The number of octets that are asked of a source at once, where it shows none. They are cleared for each message, so they are few.
const READ_LEN: usize = 128;

/// Reads the message at the front of what is left, and takes its octets and no more; None where the input ends before any octet. Octets that
/// the source has at hand are read where they are.
///
/// # Errors
///
/// The one fault of what is left, out of memory, or a broken source. At most [`LIMIT`] octets are taken, whatever the result.
pub fn read_message<R: Source>(
    alloc: Global,
    source: &mut R,
) -> Result<Option<Message>, ReadFailure>
    ensures next { ReadsNext (R.left source.old) (R.left source.new) (R.is_broken source.old)
        (R.is_broken source.new) IsSpelled result }
    // What is read is a spelling, and what begins with one is read, unless memory or the source failed.
    ensures spelled { IfOk result (λ found. IfSome found (λ message. (b : List ℕ)
        × Consumes (R.left source.old) (R.left source.new) b × IsSpelled message b)) }
    ensures accepts { IfSome (R.left source.old)
        (λ s. (a : Apdu) (n : ℕ) → Accepts profile_two s a n → AnswersSome result) }
{
    read_value(alloc, source)
}

/// Reads a message into its value.
fn read_value<R: Source>(alloc: Global, source: &mut R) -> Result<Option<Message>, ReadFailure>
    ensures { ReadsNext (R.left source.old) (R.left source.new) (R.is_broken source.old)
        (R.is_broken source.new) IsSpelled result }
{
    let mut reader = Reader::new(alloc, Profile::Two, ValueDraft::new(alloc));
    match read_draft(&mut reader, source, &mut NoRecorder) {
        Ok(Some(_)) => Ok(reader.into_draft().into_message()),
        Ok(None) => Ok(None),
        Err(failure) => Err(failure),
    }
}

/// Reads a message with a reader that nothing was fed, in its profile. Where its draft has it, returns how many octets it had.
#[inline(always)]
pub(crate) fn read_draft<D: Draft, R: Source, K: Recorder>(
    reader: &mut Reader<D>,
    source: &mut R,
    recorder: &mut K,
) -> Result<Option<u32>, ReadFailure>
    requires takes { D.takes reader.old.path.frames.profile }
    ensures { (p : Named) → IsOpenAt p D.holds reader.old []
        → ReadsNextIn (profile_of p) (R.left source.old) (R.left source.new)
        (R.is_broken source.old) (R.is_broken source.new)
        (λ n octets. (n ≡ length octets) × IsReadOf p D.has reader.new.path.draft octets
        × Appends (K.recorded recorder.old) (K.recorded recorder.new) octets) result }
{
    match fill(reader, source, recorder) {
        Ok(()) => match reader.ended() {
            Ok(true) => Ok(Some(reader.offset())),
            Ok(false) => Ok(None),
            Err(failure) => Err(ReadFailure::from(failure)),
        },
        Err(failure) => Err(failure),
    }
}

/// Feeds a reader until it needs nothing more or the source ends, and records the octets that it is fed.
#[inline(always)]
fn fill<D: Draft, R: Source, K: Recorder>(
    reader: &mut Reader<D>,
    source: &mut R,
    recorder: &mut K,
) -> Result<(), ReadFailure>
    requires takes { D.takes reader.old.path.frames.profile }
    ensures filled { (p : Named) → IsOpenAt p D.holds reader.old []
        → IfOk result (λ _. HasKept p D.holds D.has (R.left source.old) (R.left source.new)
        reader.new (K.recorded recorder.old) (K.recorded recorder.new)) }
    ensures taken { TakesFront (R.left source.old) (R.left source.new) }
    ensures failed { IfErr result IsReadFault }
    ensures broken { IsErrOf result ReadFailure.ReadFault → IsTrue (R.is_broken source.new) }
    ensures unfinished { (p : Named) → IsOpenAt p D.holds reader.old []
        → IsErrOf result ReadFailure.ReadFault
        → TakesNoMessageIn (profile_of p) (R.left source.old) (R.left source.new) }
    ensures stays { IsTrue (R.is_broken source.old) → IsTrue (R.is_broken source.new) }
    ensures profile { reader.new.path.frames.profile ≡ reader.old.path.frames.profile }
{
    let mut buffer = [0; READ_LEN];
    let mut room = LIMIT;
    while room > 0 {
        let count = match more(reader, source, recorder, &mut buffer, room) {
            Ok(0) => return Ok(()),
            Ok(count) => count,
            Err(failure) => return Err(failure),
        };
        room -= count as u32;
    }
    Ok(())
}

/// Feeds the reader with octets that the source has at hand, or else with some that it needs, at most `room`, and returns how many they
/// are; 0 where nothing is needed or the source is at its end.
#[inline(always)]
fn more<D: Draft, R: Source, K: Recorder>(
    reader: &mut Reader<D>,
    source: &mut R,
    recorder: &mut K,
    buffer: &mut [u8],
    room: u32,
) -> Result<usize, ReadFailure>
    requires takes { D.takes reader.old.path.frames.profile }
    requires space { 0 < length buffer.old }
    requires room { 0 < room }
    ensures taken { IfOk result (λ n. (n ≤ room)
        × HasTaken D.holds D.has (R.left source.old) (R.left source.new) (K.recorded recorder.old)
        (K.recorded recorder.new) reader.old reader.new n) }
    ensures front { IfErr result (λ _. (octets : List ℕ)
        × Consumes (R.left source.old) (R.left source.new) octets × (length octets ≤ room)) }
    ensures broken { IsErrOf result ReadFailure.ReadFault → IsTrue (R.is_broken source.new) }
    ensures failed { IfErr result IsReadFault }
    ensures unfinished { IsErrOf result ReadFailure.ReadFault → (p : Named) (b : List ℕ)
        → IsFed p D.holds D.has reader.old b → NoneEndsWithin p b
        → TakesUnfinished p (R.left source.old) (R.left source.new) b }
    ensures stays { IsTrue (R.is_broken source.old) → IsTrue (R.is_broken source.new) }
    ensures space { length buffer.new ≡ length buffer.old }
    ensures profile { reader.new.path.frames.profile ≡ reader.old.path.frames.profile }
{
    let hand = source.buffered();
    let most = hand.len().min(room as usize);
    let seen = reader.read_buffered(&hand[..most]);
    if seen > 0 {
        if let Err(_) = recorder.append(&hand[..seen]) {
            return Err(ReadFailure::OutOfMemory);
        }
        return match source.consume(seen) {
            Ok(()) => Ok(seen),
            Err(Broken) => Err(ReadFailure::ReadFault),
        };
    }
    match take_octets(reader, source, buffer, room) {
        Ok(count) => match recorder.append(&buffer[..count]) {
            Ok(()) => Ok(count),
            Err(_) => Err(ReadFailure::OutOfMemory),
        },
        Err(Broken) => Err(ReadFailure::ReadFault),
    }
}

/// Feeds the reader with some octets that it needs, at most `room`, and returns how many they are at the front of the buffer; 0 where
/// nothing is needed or the source is at its end.
#[inline(always)]
fn take_octets<D: Draft, R: Source>(
    reader: &mut Reader<D>,
    source: &mut R,
    buffer: &mut [u8],
    room: u32,
) -> Result<usize, Broken>
    requires takes { D.takes reader.old.path.frames.profile }
    requires space { 0 < length buffer.old }
    requires room { 0 < room }
    ensures count { IfOk result (λ n. (n ≤ room) × (n ≤ length buffer.new)) }
    ensures taken { IfOk result (λ n. Consumes (R.left source.old) (R.left source.new)
        (take n buffer.new)) }
    ensures untaken { IsErr result → Keeps (R.left source.old) (R.left source.new) }
    ensures unfinished { IsErr result → (p : Named) (b : List ℕ)
        → IsFed p D.holds D.has reader.old b → IsUnfinishedIn (profile_of p) b }
    ensures fed { IfOk result (λ n. (p : Named) (b : List ℕ) → IsFed p D.holds D.has reader.old b
        → NoneEndsWithin p b → HasPulled p D.holds D.has (R.left source.new) reader.new b
        (take n buffer.new)) }
    ensures broken { IsErr result → IsTrue (R.is_broken source.new) }
    ensures stays { IsTrue (R.is_broken source.old) → IsTrue (R.is_broken source.new) }
    ensures profile { reader.new.path.frames.profile ≡ reader.old.path.frames.profile }
{
    let wanted = (reader.request_len().min(room) as usize).min(buffer.len());
    if wanted == 0 {
        return Ok(0);
    }
    let count = source.take(&mut buffer[..wanted])?;
    reader.read_piece(&buffer[..count]);
    Ok(count)
}

/// Reads the message that the whole slice is.
///
/// # Errors
///
/// The one fault of the octets, TrailingBytes at the end of a message that they only begin with, or out of memory.
pub fn decode(alloc: Global, octets: &[u8]) -> Result<Message, Failure>
    ensures spelled { IfOk result (λ message. IsSpelled message octets.now) }
    ensures refused { IfErr result (λ e. IfRefused e (RefusesWhole octets.now)) }
    // A spelling is decoded, unless memory runs out.
    ensures accepts { (a : Apdu) → SpellsApdu profile_two a octets.now
        → IfErr result (λ e. e ≡ Failure.OutOfMemory) }
{
    decode_value(alloc, octets)
}

/// Decodes a message into its value.
fn decode_value(alloc: Global, octets: &[u8]) -> Result<Message, Failure>
    ensures { DecodeAnswers octets.now result }
{
    match message_of_piece(alloc, octets) {
        Ok(Some(message)) => message_of_slice(message, octets.len()),
        Ok(None) => Err(Failure::refused(octets.len() as u32, Cause::Truncated)),
        Err(failure) => Err(failure),
    }
}

/// The message that the octets begin with, None where they end before it is whole.
fn message_of_piece(alloc: Global, octets: &[u8]) -> Result<Option<Message>, Failure>
    ensures { HasBegun octets.now result }
{
    let mut reader = Reader::new(alloc, Profile::Two, ValueDraft::new(alloc));
    let _ = reader.read_elements(octets);
    match reader.outcome() {
        Ok(true) => Ok(reader.into_draft().into_message()),
        Ok(false) => Ok(None),
        Err(failure) => Err(failure),
    }
}

/// The message, if it has as many octets.
fn message_of_slice(message: Message, size: usize) -> Result<Message, Failure>
    ensures { (s : List ℕ) → size ≡ length s → IsRead s message → DecodeAnswers s result }
{
    if message.octets() as usize == size {
        Ok(message)
    } else {
        Err(Failure::refused(message.octets(), Cause::TrailingBytes))
    }
}
