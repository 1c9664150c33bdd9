//! Contracts that leave one result, for what is read, normalised and compared: what the calls return and write is proved of their
//! contracts and the laws alone. So a body that returns or writes anything else doesn't meet its contract. That memory was refused,
//! and that the source or the sink broke, are the results that may come besides.
ghost use Rattle.std.specs.Prelude.{◌≡◌, ◌↔◌, ◌≤◌, ◌+◌, ℕ, List, [], ◌++◌, take, drop, Some, None, Ok, Err, IfOk, IfErr, IsTrue, length};
ghost use Rattle.ber_leaf.specs.Profile.{profile_two};
ghost use Rattle.ill_schema.specs.Apdu.{Apdu, Accepts, IsStream, SpellsApdu, normal_form, normal_form_in};
ghost use Rattle.ill_schema.specs.Message.{apdu_of, octets_of};
ghost use Rattle.ill_schema.specs.Profiles.{profile_of};
ghost use Rattle.ill_inputs.specs.declared.run_fault.RunFault.{RunFault as Fault};
ghost use Rattle.ill_normal.specs.Messages.{AreSpelled, Spelling};

use ber_core::{FromSlice, Pieces, Room, Sink, Source};
use ill_normal::{
    Checked, Failure, Message, MessageReader, NoReports, NormalFailure, NormalForm, NormalReader,
    OnRefusal, Profile, ReadFailure, Reading, Refusal, RunFault, Side, StreamEnd, StreamFailure,
    Wants, WriteNormalForms, check_one, decode, decode_normal, is_normal, normalise,
    normalise_stream, read_input, read_message, read_normal, same_message,
};
use std::alloc::Global;

/// The reading of octets, up to a message that is refused.
const STOPPING: Reading = Reading {
    hex: false,
    on_refusal: OnRefusal::Stop,
    only: None,
};

/// A slice has one result: one message, or one refusal.
fn slices_have_one_answer(
    octets: &[u8],
    alloc: Global,
) -> (Result<Message, Failure>, Result<Message, Failure>)
    ensures message { (m n : Message) → result.0 ≡ Ok m → result.1 ≡ Ok n → apdu_of m ≡ apdu_of n }
    ensures octets { (m : Message) → result.0 ≡ Ok m → octets_of m ≡ length octets.now }
    ensures refusal { (x y : Refusal) → result.0 ≡ Err (Failure.Refused x)
        → result.1 ≡ Err (Failure.Refused y) → x ≡ y }
    ensures apart { (m : Message) (y : Refusal) → result.0 ≡ Ok m
        → result.1 ≡ Err (Failure.Refused y) → ⊥ }
{
    (decode(alloc, octets), decode(alloc, octets))
}

/// A slice has a normal form exactly where it is a message, and it is the normal form of that message; else both calls refuse it alike.
fn slices_have_the_normal_form_of_their_message(
    octets: &[u8],
    alloc: Global,
) -> (Result<Message, Failure>, Result<NormalForm, Failure>)
    ensures form { (m : Message) (n : NormalForm) → result.0 ≡ Ok m → result.1 ≡ Ok n
        → n.octets.items ≡ normal_form (apdu_of m) }
    ensures read { (n : NormalForm) → result.1 ≡ Ok n → n.input_len ≡ length octets.now }
    ensures refusal { (x y : Refusal) → result.0 ≡ Err (Failure.Refused x)
        → result.1 ≡ Err (Failure.Refused y) → x ≡ y }
    ensures message { (m : Message) (y : Refusal) → result.0 ≡ Ok m
        → result.1 ≡ Err (Failure.Refused y) → ⊥ }
    ensures normal { (x : Refusal) (n : NormalForm) → result.0 ≡ Err (Failure.Refused x)
        → result.1 ≡ Ok n → ⊥ }
{
    (
        decode(alloc, octets),
        decode_normal(alloc, Profile::Two, octets),
    )
}

/// Two slices are the same exactly where they spell one APDU, and exactly where the normal forms of what they spell are equal.
fn slices_are_the_same_where_their_apdus_are(
    first: &[u8],
    second: &[u8],
    alloc: Global,
) -> Result<bool, (Side, Failure)>
    ensures { (a b : Apdu) → SpellsApdu profile_two a first.now
        → SpellsApdu profile_two b second.now
        → IfOk result (λ same. (IsTrue same ↔ (a ≡ b))
        × (IsTrue same ↔ (normal_form a ≡ normal_form b))) }
{
    same_message(alloc, first, second)
}

/// A slice is normal exactly where it is the normal form of what it spells.
fn slices_are_normal_where_they_are_their_normal_form(
    octets: &[u8],
    alloc: Global,
) -> Result<bool, Failure>
    ensures { (a : Apdu) → SpellsApdu profile_two a octets.now
        → IfOk result (λ yes. IsTrue yes ↔ (octets.now ≡ normal_form a)) }
{
    is_normal(alloc, octets)
}

/// The first octets that are left are read, as many as the message says, and none after them.
fn messages_are_taken_whole(
    source: &mut Pieces,
    alloc: Global,
) -> Result<Option<Message>, ReadFailure>
    ensures { IfOk result (λ found. elim found as (λ _. Type 0) [
      | Some message ↦ source.new.octets ≡ drop (octets_of message) source.old.octets
      | None ↦ (source.old.octets ≡ []) × (source.new.octets ≡ [])
    ]) }
{
    read_message(alloc, source)
}

/// Of octets at hand no more are passed than the message has.
fn messages_at_hand_are_taken_whole(
    source: &mut FromSlice,
    alloc: Global,
) -> Result<Option<Message>, ReadFailure>
    ensures { IfOk result (λ found. elim found as (λ _. Type 0) [
      | Some message ↦ source.new ≡ drop (octets_of message) source.old
      | None ↦ (source.old ≡ []) × (source.new ≡ [])
    ]) }
{
    read_message(alloc, source)
}

/// The normal form of the message at the front is read, and no octet after that message is taken; the octets that it had are recorded.
fn normal_forms_are_of_the_message_at_the_front(
    source: &mut Pieces,
    recorded: &mut Vec<u8>,
    alloc: Global,
) -> Result<Option<NormalForm>, ReadFailure>
    ensures { (a : Apdu) (n : ℕ) → Accepts profile_two source.old.octets a n
        → IfOk result (λ found. elim found as (λ _. Type 0) [
          | Some x ↦ (x.octets.items ≡ normal_form a) × (x.input_len ≡ n)
              × (source.new.octets ≡ drop n source.old.octets)
              × (recorded.new.items ≡ recorded.old.items ++ take n source.old.octets)
          | None ↦ ⊥
        ]) }
{
    let mut reader = NormalReader::new(alloc);
    reader.read_recording(Profile::Two, source, Vec::new(alloc), recorded)
}

/// Of octets at hand no more are passed than the message has whose normal form is read.
fn normal_forms_at_hand_are_taken_whole(
    source: &mut FromSlice,
    alloc: Global,
) -> Result<Option<NormalForm>, ReadFailure>
    ensures { (a : Apdu) (n : ℕ) → Accepts profile_two source.old a n
        → IfOk result (λ found. elim found as (λ _. Type 0) [
          | Some x ↦ (x.octets.items ≡ normal_form a) × (x.input_len ≡ n)
              × (source.new ≡ drop n source.old)
          | None ↦ ⊥
        ]) }
{
    read_normal(alloc, Profile::Two, source)
}

/// Nothing that is in the buffer comes into a normal form.
fn normal_forms_have_nothing_of_the_room(
    source: &mut FromSlice,
    buffer: Vec<u8>,
    alloc: Global,
) -> Result<Option<NormalForm>, ReadFailure>
    ensures { (a : Apdu) (n : ℕ) → Accepts profile_two source.old a n
        → IfOk result (λ found. elim found as (λ _. Type 0) [
          | Some x ↦ (x.octets.items ≡ normal_form a) × (x.input_len ≡ n)
              × (source.new ≡ drop n source.old)
          | None ↦ ⊥
        ]) }
{
    NormalReader::new(alloc).read(Profile::Two, source, buffer)
}

/// Nothing that is in the buffer, or that the reader read before, comes into a normal form, or among the octets that are recorded.
fn kept_normal_forms_have_nothing_of_the_room(
    reader: &mut NormalReader,
    source: &mut Pieces,
    buffer: Vec<u8>,
    recorded: &mut Vec<u8>,
) -> Result<Option<NormalForm>, ReadFailure>
    ensures { (a : Apdu) (n : ℕ) → Accepts profile_two source.old.octets a n
        → IfOk result (λ found. elim found as (λ _. Type 0) [
          | Some x ↦ (x.octets.items ≡ normal_form a) × (x.input_len ≡ n)
              × (source.new.octets ≡ drop n source.old.octets)
              × (recorded.new.items ≡ recorded.old.items ++ take n source.old.octets)
          | None ↦ ⊥
        ]) }
{
    reader.read_recording(Profile::Two, source, buffer, recorded)
}

/// Nothing that the reader read before comes into the normal form of a message.
fn messages_have_nothing_of_those_before(
    profile: Profile,
    wants: Wants,
    reader: &mut MessageReader,
    source: &mut Pieces,
) -> Result<Option<u32>, ReadFailure>
    ensures { (a : Apdu) (n : ℕ) → Accepts (profile_of profile) source.old.octets a n
        → IfOk result (λ found. elim found as (λ _. Type 0) [
          | Some x ↦ (x ≡ n)
              × (reader.new.message.normal.items ≡ normal_form_in (profile_of profile) a)
          | None ↦ ⊥
        ]) }
{
    reader.read(profile, wants, source)
}

/// The message at the front is checked, and the result describes it.
fn checks_describe_what_they_took(
    source: &mut Pieces,
    alloc: Global,
) -> Result<Option<Checked>, ReadFailure>
    ensures { (a : Apdu) (n : ℕ) → Accepts profile_two source.old.octets a n
        → IfOk result (λ found. elim found as (λ _. Type 0) [
          | Some x ↦ (x.apdu ≡ a.number) × (x.octets ≡ n) × (x.normal ≡ length (normal_form a))
              × (IsTrue x.is_normal ↔ (take n source.old.octets ≡ normal_form a))
          | None ↦ ⊥
        ]) }
{
    check_one(alloc, source)
}

/// Nothing is written before the whole message was read, and then as many octets as are reported.
fn nothing_is_written_for_what_is_no_message(
    octets: &[u8],
    breaks_at: Option<usize>,
    alloc: Global,
) {
    let mut source = Pieces::new(octets, 1, None);
    let mut sink: Room<64> = Room::new(1, breaks_at);
    match normalise(alloc, &mut source, &mut sink) {
        Ok(Some(n)) => {
            prove!(sink.octets().len() == n as usize);
        }
        Ok(None) => {
            prove!(octets.is_empty() && sink.octets().is_empty());
        }
        Err(NormalFailure::Refused(_) | NormalFailure::OutOfMemory) => {
            prove!(sink.octets().is_empty());
        }
        Err(NormalFailure::ReadFault) => {
            prove!(source.broken() && sink.octets().is_empty());
        }
        Err(NormalFailure::WriteFault(n)) => {
            prove!(sink.broken());
            prove!(sink.octets().len() == n as usize);
        }
    }
}

/// An input that begins with a spelling is normalised to the normal form of its APDU, however it is spelled.
fn spellings_are_normalised_alike(
    source: &mut Pieces,
    sink: &mut Room<64>,
    alloc: Global,
) -> Result<Option<u32>, NormalFailure>
    ensures { (a : Apdu) (n : ℕ) → Accepts profile_two source.old.octets a n
        → IfOk result (λ found. (found ≡ Some (length (normal_form a)))
        × (sink.new.octets ≡ sink.old.octets ++ normal_form a)) }
{
    normalise(alloc, source, sink)
}

/// A stream ends only where nothing is left. Where it stops before, it reports how many messages there were and how many octets they
/// had, and at most 1,048,576 octets were taken after them.
fn streams_are_taken_to_their_end(
    source: &mut Pieces,
    sink: &mut Room<64>,
    alloc: Global,
) -> Result<u32, StreamFailure>
    ensures end { IfOk result (λ _. source.new.octets ≡ []) }
    ensures before { IfErr result (λ failure. (apdus : List Apdu) × (length apdus ≡ failure.whole)
        × IsStream profile_two (take failure.before source.old.octets) apdus []) }
    ensures stop { IfErr result (λ failure. length source.old.octets ≤ failure.before
        + (1_048_576 + length source.new.octets)) }
{
    normalise_stream(alloc, source, sink)
}

/// The messages of an input are read to its end. Where that stops before, it is reported how many messages there were and how many
/// octets they had, and at most 1,048,576 octets were taken after them.
fn messages_are_read_to_their_end(
    source: &mut Pieces,
    sink: &mut Room<64>,
    alloc: Global,
) -> StreamEnd
    ensures end { result.fault ≡ None → (source.new.octets ≡ [])
        × ((messages : List Spelling) × (length messages ≡ result.counts.messages)
        × AreSpelled source.old.octets messages []) }
    ensures counts { result.fault ≡ None → (result.counts.good ≡ result.counts.messages)
        × (result.counts.octets ≡ length source.old.octets) }
    ensures before { (e : RunFault) → result.fault ≡ Some e → (messages : List Spelling)
        × (length messages + result.counts.refused ≡ result.counts.messages)
        × AreSpelled (take result.counts.octets source.old.octets) messages [] }
    ensures stop { (e : RunFault) → result.fault ≡ Some e
        → length source.old.octets ≤ result.counts.octets
        + (1_048_576 + length source.new.octets) }
{
    let mut writer = WriteNormalForms {
        alloc,
        profile: Profile::Two,
    };
    read_input(STOPPING, &mut writer, source, sink, &mut NoReports)
}
