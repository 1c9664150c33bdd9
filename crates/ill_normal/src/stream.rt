//! Messages one after another.
ghost use Rattle.std.specs.Prelude.{◌≡◌, ◌<◌, ◌≤◌, ℕ, List, [], true, false, length, IfOk, IfErr, IfSome, IsTrue};
ghost use Rattle.std.specs.Io.KnownBytes.{IsAtEnd};
ghost use Rattle.ber_leaf.specs.Profile.{profile_two};
ghost use Rattle.ill_schema.specs.Apdu.{Apdu, IsStream};
ghost use Rattle.ill_schema.specs.Profiles.{profile_of};
ghost use Rattle.ill_refusals.specs.Fault.{Fault};
ghost use Rattle.ill_refusals.specs.Outcome.{OnlyRefuses};
ghost use Rattle.ill_normal.specs.Calls.{taking, putting};
ghost use Rattle.ill_normal.specs.Entries.{BreaksText, WritesText};
ghost use Rattle.ill_normal.specs.ReadMessages.{wants};
ghost use Rattle.ill_normal.specs.code.Streaming.{IsCause, IsStreamFault, normal_text, stream_cause, stream_failure};
ghost use Rattle.ill_normal.specs.Streamed.{Passes, PassesIn, StopsAfter, StopsAfterIn, AnswersCount, AnswersRefusedAfter, AnswersTooMany};

use crate::failure::{NormalFailure, StreamCause, StreamFailure};
use crate::item_loop::read_items;
use crate::message_reader::{ReadMessage, Wants};
use crate::messages::{MessagePlace, OnRefusal, Reading, StreamEnd};
use crate::report::{NoReports, RefusalReport};
use crate::write_items::{PutError, WriteItems, Written};
use ber_core::{Sink, Source, put_all};
use ill_inputs::RunFault;
use ill_schema::Profile;
use std::alloc::Global;

/// The reading of a stream, up to a message that is refused.
const STOPPING: Reading = Reading {
    hex: false,
    on_refusal: OnRefusal::Stop,
    only: None,
};

/// Writes the normal form of each message, in a profile.
#[derive(Clone, Copy)]
pub struct WriteNormalForms {
    pub alloc: Global,
    pub profile: Profile,
}

impl WriteItems for WriteNormalForms {
    type Options = Profile;

    ghost options = { λ writer. writer.profile };

    ghost is_ready = { λ _. Unit {0} };

    ghost reads = { λ profile. profile };

    ghost needs = { λ _. wants false false };

    ghost writes = { λ profile. WritesText (normal_text profile) };

    ghost fails = { λ profile. BreaksText (normal_text profile) };

    ghost is_good = { λ _ m. true };

    fn alloc(&self) -> Global {
        self.alloc
    }

    fn profile(&self) -> Profile {
        self.profile
    }

    fn wants(&self) -> Wants {
        Wants {
            spelled: false,
            outline: false,
        }
    }

    fn accepted<W: Sink>(
        &mut self,
        _place: MessagePlace,
        message: &mut ReadMessage,
        sink: &mut W,
    ) -> Result<Written, PutError> {
        match put_all(sink, &message.normal) {
            Ok(()) => Ok(Written {
                octets: message.normal.len() as u64,
                is_good: true,
            }),
            Err(count) => Err(PutError::Broken(count as u64)),
        }
    }

    fn refused<W: Sink>(
        &mut self,
        _report: RefusalReport,
        _octets: &[u8],
        _sink: &mut W,
    ) -> Result<u64, PutError> {
        Ok(0)
    }
}

/// The reason why a stream went no further.
fn failure_of(end: StreamEnd, fault: RunFault) -> StreamFailure
    requires { IsStreamFault end.counts fault }
    ensures { result ≡ stream_failure end.counts fault }
{
    StreamFailure {
        whole: end.counts.messages - end.counts.refused,
        before: end.counts.octets,
        why: cause(end.counts.written, fault),
    }
}

fn cause(written: u128, fault: RunFault) -> StreamCause
    requires { IsCause written fault }
    ensures { result ≡ stream_cause written fault }
{
    match fault {
        RunFault::Refused { refusal, .. } => StreamCause::Normal(NormalFailure::Refused(refusal)),
        RunFault::OutOfMemory => StreamCause::Normal(NormalFailure::OutOfMemory),
        RunFault::ReadFault => StreamCause::Normal(NormalFailure::ReadFault),
        RunFault::WriteFault(count) => {
            StreamCause::Normal(NormalFailure::WriteFault((count - written) as u32))
        }
        RunFault::TooManyMessages => StreamCause::TooManyMessages,
        RunFault::RefusedSide(..)
        | RunFault::OddHex
        | RunFault::BadHex(_)
        | RunFault::HexTooLong
        | RunFault::NotReported => unreachable!(),
    }
}

/// Writes the normal forms of the messages that the source holds up to its end, at most 1,000,000,
/// and returns how many messages they are. One message is held in memory at a time.
///
/// # Errors
///
/// The cause, the number of messages that were normalised before, and the number of octets that they
/// have in the input: where a message is not normalised, or the input goes on after 1,000,000
/// messages. After those messages at most 1,048,576 octets of the input were taken.
pub fn normalise_stream<R: Source, W: Sink>(
    alloc: Global,
    source: &mut R,
    sink: &mut W,
) -> Result<u32, StreamFailure>
    // The input was this number of messages and nothing else, and their normal forms were written.
    ensures streamed { IfOk result (λ whole. (before : ℕ)
        × Passes (R.left source.old) (R.left source.new)
        (W.contents sink.old) (W.contents sink.new) whole before × IsAtEnd (R.left source.new)
        × (whole ≤ 1_000_000)) }
    ensures stops { IfErr result
        (StopsAfter (taking (R.left source.old) (R.left source.new) (R.is_broken source.new))
        (putting (W.contents sink.old) (W.contents sink.new) (W.is_broken sink.new))) }
    // A stream of messages is normalised, unless they are too many or what follows is refused.
    ensures accepts { IfSome (R.left source.old)
        (λ s. (as' : List Apdu) → IsStream profile_two s as' [] → length as' ≤ 1_000_000
        → AnswersCount result (length as')) }
    ensures refuses { IfSome (R.left source.old)
        (λ s. (as' : List Apdu) (rest : List ℕ) (f : Fault) → IsStream profile_two s as' rest
        → length as' < 1_000_000 → 0 < length rest → OnlyRefuses profile_two rest f
        → AnswersRefusedAfter result (length as') f) }
    ensures too_many { IfSome (R.left source.old)
        (λ s. (as' : List Apdu) (rest : List ℕ) → IsStream profile_two s as' rest
        → length as' ≡ 1_000_000 → 0 < length rest → AnswersTooMany result) }
    ensures source_stays { IsTrue (R.is_broken source.old) → IsTrue (R.is_broken source.new) }
    ensures sink_stays { IsTrue (W.is_broken sink.old) → IsTrue (W.is_broken sink.new) }
{
    normalise_stream_as(alloc, Profile::Two, source, sink)
}

/// Writes normal forms as [`normalise_stream`] does, of messages in the profile.
///
/// # Errors
///
/// Those of [`normalise_stream`], in the profile.
pub fn normalise_stream_as<R: Source, W: Sink>(
    alloc: Global,
    profile: Profile,
    source: &mut R,
    sink: &mut W,
) -> Result<u32, StreamFailure>
    // The input was this number of messages and nothing else, and their normal forms were written.
    ensures streamed { IfOk result (λ whole. (before : ℕ)
        × PassesIn (profile_of profile) (R.left source.old) (R.left source.new)
        (W.contents sink.old) (W.contents sink.new) whole before × IsAtEnd (R.left source.new)
        × (whole ≤ 1_000_000)) }
    ensures stops { IfErr result (StopsAfterIn (profile_of profile)
        (taking (R.left source.old) (R.left source.new) (R.is_broken source.new))
        (putting (W.contents sink.old) (W.contents sink.new) (W.is_broken sink.new))) }
    // A stream of messages is normalised, unless they are too many or what follows is refused.
    ensures accepts { IfSome (R.left source.old)
        (λ s. (as' : List Apdu) → IsStream (profile_of profile) s as' [] → length as' ≤ 1_000_000
        → AnswersCount result (length as')) }
    ensures refuses { IfSome (R.left source.old)
        (λ s. (as' : List Apdu) (rest : List ℕ) (f : Fault)
        → IsStream (profile_of profile) s as' rest
        → length as' < 1_000_000 → 0 < length rest → OnlyRefuses (profile_of profile) rest f
        → AnswersRefusedAfter result (length as') f) }
    ensures too_many { IfSome (R.left source.old)
        (λ s. (as' : List Apdu) (rest : List ℕ) → IsStream (profile_of profile) s as' rest
        → length as' ≡ 1_000_000 → 0 < length rest → AnswersTooMany result) }
    ensures source_stays { IsTrue (R.is_broken source.old) → IsTrue (R.is_broken source.new) }
    ensures sink_stays { IsTrue (W.is_broken sink.old) → IsTrue (W.is_broken sink.new) }
{
    let mut writer = WriteNormalForms { alloc, profile };
    let end = read_items(STOPPING, &mut writer, source, sink, &mut NoReports);
    match end.fault {
        None => Ok(end.counts.messages),
        Some(fault) => Err(failure_of(end, fault)),
    }
}
