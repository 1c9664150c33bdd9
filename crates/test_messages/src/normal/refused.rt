//! Contracts that leave one refusal, and one result of a stream: what the calls return is proved of their contracts and the laws alone.
//! Out of memory, and a source or a sink that broke, are the results that may come besides.
ghost use Rattle.std.specs.Prelude.{◌≡◌, ◌<◌, ◌≤◌, ℕ, List, [], ◌++◌, Err, Ok, IfOk, flat_map, length};
ghost use Rattle.ber_leaf.specs.Profile.{profile_two};
ghost use Rattle.ill_schema.specs.Apdu.{Apdu, IsStream, normal_form};
ghost use Rattle.ill_refusals.specs.Fault.{Fault, fault_of};
ghost use Rattle.ill_refusals.specs.Outcome.{OnlyRefuses};
ghost use Rattle.ill_normal.specs.Normalised.{AnswersRefused};
ghost use Rattle.ill_normal.specs.Streamed.{AnswersCount, AnswersRefusedAfter};

use ber_core::{Pieces, Room, Sink, Source};
use ill_normal::{
    Checked, Failure, Message, NormalFailure, ReadFailure, Refusal, Side, StreamCause,
    StreamFailure, check_one, is_normal, normalise, normalise_stream, read_message, same_message,
};
use std::alloc::Global;

/// An input that is refused is no message, and is refused with its one fault.
fn messages_are_refused_in_one_way(
    source: &mut Pieces,
    alloc: Global,
) -> Result<Option<Message>, ReadFailure>
    ensures none { (f : Fault) → 0 < length source.old.octets
        → OnlyRefuses profile_two source.old.octets f → IfOk result (λ _. ⊥) }
    ensures one { (f : Fault) (x : Refusal) → OnlyRefuses profile_two source.old.octets f
        → result ≡ Err (ReadFailure.Refused x) → fault_of x ≡ f }
{
    read_message(alloc, source)
}

/// A message that is checked is refused with its one fault, too.
fn checks_are_refused_in_one_way(
    source: &mut Pieces,
    alloc: Global,
) -> Result<Option<Checked>, ReadFailure>
    ensures none { (f : Fault) → 0 < length source.old.octets
        → OnlyRefuses profile_two source.old.octets f → IfOk result (λ _. ⊥) }
    ensures one { (f : Fault) (x : Refusal) → OnlyRefuses profile_two source.old.octets f
        → result ≡ Err (ReadFailure.Refused x) → fault_of x ≡ f }
{
    check_one(alloc, source)
}

/// A message that is normalised is refused with its one fault, too.
fn normal_forms_are_refused_in_one_way(
    source: &mut Pieces,
    sink: &mut Room<64>,
    alloc: Global,
) -> Result<Option<u32>, NormalFailure>
    ensures { (f : Fault) → 0 < length source.old.octets
        → OnlyRefuses profile_two source.old.octets f → AnswersRefused result f }
{
    normalise(alloc, source, sink)
}

/// A stream of messages is normalised, each of them; one that is refused after some messages is refused there, and with its one fault.
fn streams_have_one_result(
    source: &mut Pieces,
    sink: &mut Room<64>,
    alloc: Global,
) -> Result<u32, StreamFailure>
    ensures count { (apdus : List Apdu) → IsStream profile_two source.old.octets apdus []
        → length apdus ≤ 1_000_000
        → AnswersCount result (length apdus) }
    ensures written { (apdus : List Apdu) → IsStream profile_two source.old.octets apdus []
        → IfOk result (λ _. sink.new.octets ≡ sink.old.octets ++ flat_map normal_form apdus) }
    ensures refused { (apdus : List Apdu) (rest : List ℕ) (f : Fault)
        → IsStream profile_two source.old.octets apdus rest
        → length apdus < 1_000_000 → 0 < length rest → OnlyRefuses profile_two rest f
        → AnswersRefusedAfter result (length apdus) f }
{
    normalise_stream(alloc, source, sink)
}

/// Two slices are refused for one side and with one fault, or compared.
fn sides_are_refused_in_one_way(
    first: &[u8],
    second: &[u8],
    alloc: Global,
) -> (Result<bool, (Side, Failure)>, Result<bool, (Side, Failure)>)
    ensures { (s t : Side) (x y : Refusal) → result.0 ≡ Err (s, Failure.Refused x)
        → result.1 ≡ Err (t, Failure.Refused y) → (s ≡ t) × (x ≡ y) }
{
    (
        same_message(alloc, first, second),
        same_message(alloc, first, second),
    )
}

/// A slice that is no message is refused with one fault.
fn slices_are_refused_in_one_way(
    octets: &[u8],
    alloc: Global,
) -> (Result<bool, Failure>, Result<bool, Failure>)
    ensures { (x y : Refusal) → result.0 ≡ Err (Failure.Refused x)
        → result.1 ≡ Err (Failure.Refused y) → x ≡ y }
{
    (is_normal(alloc, octets), is_normal(alloc, octets))
}

/// A read fault comes only of a source that is broken, and a write fault only of a sink that is.
fn faults_come_of_what_is_broken(
    octets: &[u8],
    reads: Option<usize>,
    writes: Option<usize>,
    alloc: Global,
) {
    let mut source = Pieces::new(octets, 1, reads);
    if let Err(ReadFailure::ReadFault) = read_message(alloc, &mut source) {
        prove!(source.broken());
    }
    let mut source = Pieces::new(octets, 1, reads);
    if let Err(ReadFailure::ReadFault) = check_one(alloc, &mut source) {
        prove!(source.broken());
    }
    let mut source = Pieces::new(octets, 1, reads);
    let mut sink: Room<64> = Room::new(1, writes);
    if let Err(failure) = normalise_stream(alloc, &mut source, &mut sink) {
        match failure.why {
            StreamCause::Normal(NormalFailure::ReadFault) => {
                prove!(source.broken());
            }
            StreamCause::Normal(NormalFailure::WriteFault(_)) => {
                prove!(sink.broken());
            }
            _ => {}
        }
    }
}
