//! The next message of an input: its octets, up to where they end by their framing.
ghost use Rattle.std.specs.Prelude.{◌≡◌, ℕ, ◌-◌, ◌<◌, ◌≤◌, List, [], ◌++◌, length, take, Option, IfOk, IfErr, OnOk, IsTrue};
ghost use Rattle.std.specs.Io.KnownBytes.{Consumes, IsAtEnd, Keeps};
ghost use Rattle.ber_framing.specs.Framed.{IsPartOfFrame};
ghost use Rattle.ill_schema.specs.Profiles.{profile_of};
ghost use Rattle.ber_framing.specs.Framer.{IsFed, HasFraming};
ghost use Rattle.ber_framing.specs.declared.framer.Framing.{Framing};
ghost use Rattle.ill_inputs.specs.declared.run_fault.RunFault.{RunFault};
ghost use Rattle.ill_normal.specs.Next.{IsNext, TakesPart};
ghost use Rattle.ill_normal.specs.code.Taking.{end_of, IsTakeFault, Takes, TakesElement, TakesOctet, TakesPartAfter, TakesUnframed, TakesWhereCut, Took};

use crate::message_reader::{MessageReader, Wants};
use ber_core::{Broken, FromSlice, Source};
use ber_framing::{Framer, Framing};
use ill_inputs::RunFault;
use ill_read::ReadFailure;
use ill_schema::{Cause, LIMIT, Profile, Refusal};
use std::alloc::AllocError;

/// The number of octets that are asked of a source at once.
const READ_LEN: usize = 1024;

/// The next message of an input.
#[derive(Clone, Copy)]
pub enum NextMessage {
    /// It was read.
    Read,
    /// The reason why it is refused, and how many octets it has, where its end is known; 18,446,744,073,709,551,615 where they are more.
    Refused { refusal: Refusal, end: Option<u64> },
    /// The input is at its end.
    AtEnd,
}

/// Takes the octets of the next element, as its framing gives it, and records the first 1,048,576 of them; `recorded` forgets what it had
/// before. Then the reader reads them as a message of the profile. Where the element's end can't be known, a length that is too great is taken as a
/// whole: a message is Truncated only where the input ends.
///
/// # Errors
///
/// Memory ran out, or the source is broken.
pub fn take_message<R: Source>(
    profile: Profile,
    wants: Wants,
    reader: &mut MessageReader,
    source: &mut R,
    recorded: &mut Vec<u8>,
) -> Result<NextMessage, RunFault>
    ensures next { IfOk result (IsNext (profile_of profile) wants (R.left source.old)
        (R.left source.new) recorded.new.items reader.new.message) }
    ensures failed { IfErr result IsTakeFault }
    ensures broken { IfErr result (λ e. e ≡ RunFault.ReadFault → IsTrue (R.is_broken source.new)
        × TakesPart (R.left source.old) (R.left source.new)) }
    ensures stays { IsTrue (R.is_broken source.old) → IsTrue (R.is_broken source.new) }
{
    let taken = match take_element(source, recorded) {
        Ok(taken) => taken,
        Err(unread) => return Err(unread),
    };
    'judged: loop {
        let mut octets = FromSlice::new(recorded.as_slice());
        let refusal = match reader.read(profile, wants, &mut octets) {
            Ok(Some(_)) => return Ok(NextMessage::Read),
            Ok(None) => return Ok(NextMessage::AtEnd),
            Err(ReadFailure::Refused(refusal)) => refusal,
            Err(ReadFailure::OutOfMemory) => return Err(RunFault::OutOfMemory),
            Err(ReadFailure::ReadFault) => unreachable!(),
        };
        match take_where_cut(source, recorded, taken.framing, refusal.cause) {
            Ok(true) => {}
            Ok(false) => {
                let end = end_of(taken);
                return Ok(NextMessage::Refused { refusal, end });
            }
            Err(unread) => return Err(unread),
        }
    }
}

/// The octets that were taken: their framing, and their number, up to 18,446,744,073,709,551,615.
#[derive(Clone, Copy)]
pub struct TakenElement {
    pub framing: Framing,
    pub octets: u64,
}

/// The number of octets that an element has whose end was found.
fn end_of(taken: TakenElement) -> Option<u64>
    ensures { result ≡ end_of taken.framing taken.octets }
{
    match taken.framing {
        Framing::Whole => Some(taken.octets),
        Framing::Part | Framing::Unframed => None,
    }
}

/// Takes the octets of the next element, up to where it ends, where its end can't be known or where the input ends, and records the first
/// 1,048,576 of them. Of a length that is too great it takes the rest.
fn take_element<R: Source>(source: &mut R, recorded: &mut Vec<u8>) -> Result<TakenElement, RunFault>
    ensures element { IfOk result (λ taken. Took (R.left source.old) (R.left source.new)
        recorded.new.items taken.octets taken.framing) }
    ensures failed { IfErr result IsTakeFault }
    ensures broken { IfErr result (λ e. e ≡ RunFault.ReadFault → IsTrue (R.is_broken source.new)
        × TakesPart (R.left source.old) (R.left source.new)) }
    ensures stays { IsTrue (R.is_broken source.old) → IsTrue (R.is_broken source.new) }
{
    let (framer, octets) = match take_framed(source, recorded) {
        Ok(taken) => taken,
        Err(unread) => return Err(unread),
    };
    let framing = framer.framing();
    if let Framing::Unframed = framing {
        match take_rest(source, recorded, framer.oversized_length_rest()) {
            Ok(()) => {}
            Err(unread) => return Err(unread),
        }
    }
    Ok(TakenElement { framing, octets })
}

/// Takes `count` octets more of an element whose end can't be known, or fewer where the input ends, and records them.
fn take_rest<R: Source>(source: &mut R, recorded: &mut Vec<u8>, count: u8) -> Result<(), RunFault>
    ensures rest { OnOk result ((from : Option (List ℕ))
        → TakesUnframed from (R.left source.old) recorded.old.items
        → TakesUnframed from (R.left source.new) recorded.new.items) }
    ensures failed { IfErr result IsTakeFault }
    ensures broken { IfErr result (λ e. e ≡ RunFault.ReadFault → IsTrue (R.is_broken source.new)
        × ((from : Option (List ℕ)) → TakesUnframed from (R.left source.old) recorded.old.items
        → TakesPart from (R.left source.new))) }
    ensures stays { IsTrue (R.is_broken source.old) → IsTrue (R.is_broken source.new) }
{
    'rest: for _ in 0..count {
        match take_octet(source, recorded) {
            Ok(true) => {}
            Ok(false) => return Ok(()),
            Err(unread) => return Err(unread),
        }
    }
    Ok(())
}

/// Takes and records one octet, and returns false where the input ends.
fn take_octet<R: Source>(source: &mut R, recorded: &mut Vec<u8>) -> Result<bool, RunFault>
    ensures takes { IfOk result (TakesOctet (R.left source.old) (R.left source.new)
        recorded.old.items recorded.new.items) }
    ensures failed { IfErr result IsTakeFault }
    ensures broken { IfErr result (λ e. e ≡ RunFault.ReadFault → IsTrue (R.is_broken source.new)
        × Keeps (R.left source.old) (R.left source.new) × (recorded.new ≡ recorded.old)) }
    ensures stays { IsTrue (R.is_broken source.old) → IsTrue (R.is_broken source.new) }
{
    let mut octet = [0];
    match source.take(&mut octet) {
        Ok(0) => Ok(false),
        Ok(_) => match record_octets(recorded, &octet) {
            Ok(()) => Ok(true),
            Err(AllocError) => Err(RunFault::OutOfMemory),
        },
        Err(_) => Err(RunFault::ReadFault),
    }
}

/// Takes octets and feeds a framer with them, up to where nothing more is needed or the input ends, and records the first ones. Returns how
/// many they are as well, up to 18,446,744,073,709,551,615.
fn take_framed<R: Source>(source: &mut R, recorded: &mut Vec<u8>) -> Result<(Framer, u64), RunFault>
    ensures element { IfOk result (λ taken. (frame : Framing)
        → ((b : List ℕ) → IsFed taken.0 b → HasFraming b frame)
        → TakesElement (R.left source.old) (R.left source.new) recorded.new.items taken.1 frame) }
    ensures failed { IfErr result IsTakeFault }
    ensures broken { IfErr result (λ e. e ≡ RunFault.ReadFault → IsTrue (R.is_broken source.new)
        × TakesPart (R.left source.old) (R.left source.new)) }
    ensures stays { IsTrue (R.is_broken source.old) → IsTrue (R.is_broken source.new) }
{
    recorded.clear();
    let mut framer = Framer::new();
    let mut buffer = [0; READ_LEN];
    let mut octets: u64 = 0;
    'element: for _ in 0..u64::MAX {
        match take_some(source, &mut framer, recorded, &mut buffer) {
            Ok(0) => return Ok((framer, octets)),
            Ok(count) => octets = octets.saturating_add(count as u64),
            Err(unread) => return Err(unread),
        }
    }
    Ok((framer, octets))
}

/// Takes and records one octet more where an element's end can't be known, and its octets are refused as ending too early. Returns false
/// where it takes none.
fn take_where_cut<R: Source>(
    source: &mut R,
    recorded: &mut Vec<u8>,
    framing: Framing,
    cause: Cause,
) -> Result<bool, RunFault>
    ensures takes { IfOk result (TakesWhereCut (R.left source.old) (R.left source.new)
        recorded.old.items recorded.new.items framing cause) }
    ensures failed { IfErr result IsTakeFault }
    ensures broken { IfErr result (λ e. e ≡ RunFault.ReadFault → (framing ≡ Framing.Unframed)
        × IsTrue (R.is_broken source.new) × Keeps (R.left source.old) (R.left source.new)) }
    ensures stays { IsTrue (R.is_broken source.old) → IsTrue (R.is_broken source.new) }
{
    let (Framing::Unframed, Cause::Truncated) = (framing, cause) else {
        return Ok(false);
    };
    take_octet(source, recorded)
}

/// Takes some octets of an element, feeds a framer with them, and returns how many they are; 0 where the element or the input ends, or
/// where the element's end can't be known.
fn take_some<R: Source>(
    source: &mut R,
    framer: &mut Framer,
    recorded: &mut Vec<u8>,
    buffer: &mut [u8],
) -> Result<usize, RunFault>
    requires { 0 < length buffer.old }
    ensures takes { IfOk result (Takes (R.left source.old) (R.left source.new) framer.old framer.new
        recorded.old.items recorded.new.items) }
    ensures failed { IfErr result IsTakeFault }
    ensures broken { IfErr result
        (λ e. e ≡ RunFault.ReadFault → IsTrue (R.is_broken source.new)) }
    ensures part { IfErr result (λ e. e ≡ RunFault.ReadFault → (b : List ℕ) → IsFed framer.old b
        → TakesPartAfter (R.left source.old) (R.left source.new) b) }
    ensures stays { IsTrue (R.is_broken source.old) → IsTrue (R.is_broken source.new) }
    ensures room { length buffer.new ≡ length buffer.old }
{
    let hand = source.buffered();
    let seen = framer.feed(hand);
    if seen > 0 {
        return match record_octets(recorded, &hand[..seen]) {
            Ok(()) => {
                match source.consume(seen) {
                    Ok(()) => Ok(seen),
                    Err(Broken) => Err(RunFault::ReadFault),
                }
            }
            Err(AllocError) => Err(RunFault::OutOfMemory),
        };
    }
    let wanted = (framer.missing_len() as usize).min(buffer.len());
    if wanted == 0 {
        return Ok(0);
    }
    let Ok(count) = source.take(&mut buffer[..wanted]) else {
        return Err(RunFault::ReadFault);
    };
    let octets = &buffer[..count];
    let _ = framer.feed(octets);
    match record_octets(recorded, octets) {
        Ok(()) => Ok(count),
        Err(AllocError) => Err(RunFault::OutOfMemory),
    }
}

/// Records octets, as far as a message may have more.
fn record_octets(recorded: &mut Vec<u8>, octets: &[u8]) -> Result<(), AllocError>
    ensures { OnOk result (recorded.new.items ≡ recorded.old.items
        ++ take (1_048_576 - length recorded.old.items) octets.now) }
{
    let room = (LIMIT as usize).saturating_sub(recorded.len());
    let count = octets.len().min(room);
    recorded.extend_from_slice(&octets[..count])
}
