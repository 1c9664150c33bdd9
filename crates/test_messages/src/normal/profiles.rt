//! Contracts that leave one result in each profile: what the calls that are given a profile return and write is proved of their contracts
//! and the laws alone. That memory was refused, and that the source or the sink broke, are the results that may come besides.
ghost use Rattle.std.specs.Prelude.{◌≡◌, ◌↔◌, ◌<◌, ◌≤◌, ℕ, List, [], ◌++◌, take, Some, None, Err, IfOk, IsTrue, flat_map, length};
ghost use Rattle.ill_schema.specs.Apdu.{Apdu, Accepts, IsStream, SpellsApdu, normal_form_in};
ghost use Rattle.ill_schema.specs.Profiles.{profile_of};
ghost use Rattle.ill_refusals.specs.Fault.{Fault, fault_of};
ghost use Rattle.ill_refusals.specs.Outcome.{OnlyRefuses};
ghost use Rattle.ill_normal.specs.Normalised.{AnswersRefused};
ghost use Rattle.ill_normal.specs.Streamed.{AnswersCount, AnswersRefusedAfter};

use ber_core::{Pieces, Room, Sink, Source};
use ill_normal::{
    Cause, Checked, Failure, NormalFailure, Profile, ReadFailure, Refusal, Side, StreamFailure,
    check_one_as, is_normal_as, normalise_as, normalise_stream_as, same_message_as,
};
use std::alloc::Global;
use std::test::Fail;
use test_support::octets_of;

/// An EXPIRED with an extension, whose part critical is written though it is FALSE.
const EXTENDED_HEX: &str =
    "742e302c800102a10aa1031b0147a2031b0151a20ca00a80083230323430323239bf310c300a800101810100a2020500";

/// Its normal form.
const EXTENDED_NORMAL_HEX: &str =
    "742b3029800102a10aa1031b0147a2031b0151a20ca00a80083230323430323239bf31093007800101a2020500";

/// In each profile what begins with a spelling is normalised to the normal form of its APDU, and what is refused is refused with its one
/// fault.
fn messages_are_normalised_in_each_profile(
    profile: Profile,
    source: &mut Pieces,
    sink: &mut Room<64>,
    alloc: Global,
) -> Result<Option<u32>, NormalFailure>
    ensures form { (a : Apdu) (n : ℕ) → Accepts (profile_of profile) source.old.octets a n
        → IfOk result (λ found. (found ≡ Some (length (normal_form_in (profile_of profile) a)))
        × (sink.new.octets ≡ sink.old.octets ++ normal_form_in (profile_of profile) a)) }
    ensures refused { (f : Fault) → 0 < length source.old.octets
        → OnlyRefuses (profile_of profile) source.old.octets f
        → AnswersRefused result f }
{
    normalise_as(alloc, profile, source, sink)
}

/// In each profile a stream of messages is normalised, each of them; one that is refused after some messages is refused there, and with
/// its one fault.
fn streams_are_normalised_in_each_profile(
    profile: Profile,
    source: &mut Pieces,
    sink: &mut Room<64>,
    alloc: Global,
) -> Result<u32, StreamFailure>
    ensures count { (apdus : List Apdu) → IsStream (profile_of profile) source.old.octets apdus []
        → length apdus ≤ 1_000_000
        → AnswersCount result (length apdus) }
    ensures written { (apdus : List Apdu) → IsStream (profile_of profile) source.old.octets apdus []
        → IfOk result (λ _. sink.new.octets ≡ sink.old.octets
        ++ flat_map (normal_form_in (profile_of profile)) apdus) }
    ensures refused { (apdus : List Apdu) (rest : List ℕ) (f : Fault)
        → IsStream (profile_of profile) source.old.octets apdus rest
        → length apdus < 1_000_000 → 0 < length rest → OnlyRefuses (profile_of profile) rest f
        → AnswersRefusedAfter result (length apdus) f }
{
    normalise_stream_as(alloc, profile, source, sink)
}

/// In each profile the message at the front is checked and described, and what is refused is refused with its one fault.
fn messages_are_checked_in_each_profile(
    profile: Profile,
    source: &mut Pieces,
    alloc: Global,
) -> Result<Option<Checked>, ReadFailure>
    ensures described { (a : Apdu) (n : ℕ) → Accepts (profile_of profile) source.old.octets a n
        → IfOk result (λ found. elim found as (λ _. Type 0) [
          | Some x ↦ (x.apdu ≡ a.number) × (x.octets ≡ n)
              × (x.normal ≡ length (normal_form_in (profile_of profile) a))
              × (IsTrue x.is_normal ↔ (take n source.old.octets
              ≡ normal_form_in (profile_of profile) a))
          | None ↦ ⊥
        ]) }
    ensures none { (f : Fault) → 0 < length source.old.octets
        → OnlyRefuses (profile_of profile) source.old.octets f
        → IfOk result (λ _. ⊥) }
    ensures refused { (f : Fault) (x : Refusal)
        → OnlyRefuses (profile_of profile) source.old.octets f
        → result ≡ Err (ReadFailure.Refused x) → fault_of x ≡ f }
{
    check_one_as(alloc, profile, source)
}

/// In each profile two slices are the same exactly where they spell one APDU, and else are refused for one side and with one fault.
fn slices_are_compared_in_each_profile(
    profile: Profile,
    first: &[u8],
    second: &[u8],
    alloc: Global,
) -> (Result<bool, (Side, Failure)>, Result<bool, (Side, Failure)>)
    ensures same { (a b : Apdu) → SpellsApdu (profile_of profile) a first.now
        → SpellsApdu (profile_of profile) b second.now
        → IfOk result.0 (λ same. (IsTrue same ↔ (a ≡ b))
        × (IsTrue same ↔ (normal_form_in (profile_of profile) a
        ≡ normal_form_in (profile_of profile) b))) }
    ensures refused { (s t : Side) (x y : Refusal) → result.0 ≡ Err (s, Failure.Refused x)
        → result.1 ≡ Err (t, Failure.Refused y)
        → (s ≡ t) × (x ≡ y) }
{
    (
        same_message_as(alloc, profile, first, second),
        same_message_as(alloc, profile, first, second),
    )
}

/// In each profile a slice is normal exactly where it is the normal form of what it spells, and is else refused with one fault.
fn slices_are_normal_in_each_profile(
    profile: Profile,
    octets: &[u8],
    alloc: Global,
) -> (Result<bool, Failure>, Result<bool, Failure>)
    ensures normal { (a : Apdu) → SpellsApdu (profile_of profile) a octets.now
        → IfOk result.0 (λ yes. IsTrue yes ↔ (octets.now ≡ normal_form_in (profile_of profile) a)) }
    ensures refused { (x y : Refusal) → result.0 ≡ Err (Failure.Refused x)
        → result.1 ≡ Err (Failure.Refused y) → x ≡ y }
{
    (
        is_normal_as(alloc, profile, octets),
        is_normal_as(alloc, profile, octets),
    )
}

/// Tells whether a message is normalised in a profile, one by one and as a stream.
fn is_normalised(alloc: Global, profile: Profile, octets: &[u8], normal: &[u8]) -> bool {
    let mut one: Room<64> = Room::new(7, None);
    let mut stream: Room<64> = Room::new(7, None);
    let size = normalise_as(alloc, profile, &mut Pieces::new(octets, 7, None), &mut one);
    let count = normalise_stream_as(
        alloc,
        profile,
        &mut Pieces::new(octets, 7, None),
        &mut stream,
    );
    size == Ok(Some(45))
        && one.octets() == normal
        && matches!(count, Ok(1))
        && stream.octets() == normal
}

/// Tells whether a message is checked, and compared with its normal form, in a profile.
fn is_compared(alloc: Global, profile: Profile, octets: &[u8], normal: &[u8]) -> bool {
    let checked = Checked {
        apdu: 20,
        octets: 48,
        normal: 45,
        is_normal: false,
    };
    check_one_as(alloc, profile, &mut Pieces::new(octets, 7, None)) == Ok(Some(checked))
        && same_message_as(alloc, profile, octets, normal) == Ok(true)
        && is_normal_as(alloc, profile, octets) == Ok(false)
        && is_normal_as(alloc, profile, normal) == Ok(true)
}

#[test]
fn messages_of_the_module_profile_are_taken(rt: HostRuntime) -> Result<(), Fail> {
    let octets = octets_of(rt.alloc(), EXTENDED_HEX)?;
    let normal = octets_of(rt.alloc(), EXTENDED_NORMAL_HEX)?;
    assert!(rt;
        is_normalised(rt.alloc(), Profile::Module, &octets, &normal)
            && is_compared(rt.alloc(), Profile::Module, &octets, &normal)
    );
    Ok(())
}

/// Tells whether an extension is refused as left out.
fn is_left_out(refusal: Refusal) -> bool {
    refusal.at == 33 && matches!(refusal.cause, Cause::LeftOut(_))
}

/// Tells whether a message is neither normalised nor checked, since its extension is left out.
fn is_refused(alloc: Global, profile: Profile, octets: &[u8]) -> bool {
    let mut sink: Room<64> = Room::new(7, None);
    let written = normalise_as(alloc, profile, &mut Pieces::new(octets, 7, None), &mut sink);
    let checked = check_one_as(alloc, profile, &mut Pieces::new(octets, 7, None));
    matches!(written, Err(NormalFailure::Refused(refusal)) if is_left_out(refusal))
        && matches!(checked, Err(ReadFailure::Refused(refusal)) if is_left_out(refusal))
}

/// Tells whether a message isn't compared, since its extension is left out.
fn is_not_compared(alloc: Global, profile: Profile, octets: &[u8]) -> bool {
    let same = same_message_as(alloc, profile, octets, octets);
    let found = is_normal_as(alloc, profile, octets);
    matches!(same, Err((Side::First, Failure::Refused(refusal))) if is_left_out(refusal))
        && matches!(found, Err(Failure::Refused(refusal)) if is_left_out(refusal))
}

#[test]
fn extensions_are_left_out_in_profile_2(rt: HostRuntime) -> Result<(), Fail> {
    let octets = octets_of(rt.alloc(), EXTENDED_HEX)?;
    assert!(rt;
        is_refused(rt.alloc(), Profile::Two, &octets)
            && is_not_compared(rt.alloc(), Profile::Two, &octets)
    );
    Ok(())
}
