//! Two inputs, compared.
ghost use Rattle.std.specs.Prelude.{◌≡◌, IfOk, IfErr, IfSome, IsTrue};
ghost use Rattle.ber_leaf.specs.Profile.{profile_two};
ghost use Rattle.ill_schema.specs.Profiles.{profile_of};
ghost use Rattle.ill_normal.specs.Calls.{taking, putting};
ghost use Rattle.ill_commands.specs.Compared.{verdict_line, ReadsSide, SideFails, AreCompared, NotCompared, SameDone, SameFails, ComparesBoth, RefusesOne, RefusesTexts};

use ber_core::{Sink, Source, put_all};
use ill_normal::{
    Failure, LIMIT, Profile, RunFault, Verdict, read_at_most, read_hex, same_message_as,
};
use std::alloc::Global;

/// Writes `same` or `different`, and a line end, for two inputs of one message each. The first
/// input is read, then the second, and then they are compared. Whatever the result, at most
/// 1,048,577 octets are taken of an input, one more than a message may have, and with `hex` at most
/// 4,194,305.
///
/// # Errors
///
/// The reason why the inputs were not compared, see [`RunFault`]. Nothing was written then, unless the sink
/// broke.
pub fn run_same<R: Source, S: Source, W: Sink>(
    alloc: Global,
    hex: bool,
    first: &mut R,
    second: &mut S,
    sink: &mut W,
) -> Result<Verdict, RunFault>
    // Both inputs were one message, and the line was written.
    ensures done { IfOk result (SameDone profile_two hex (R.left first.old) (R.left first.new)
        (S.left second.old) (S.left second.new)
        (W.contents sink.old) (W.contents sink.new)) }
    ensures fails { IfErr result (SameFails profile_two hex
        (taking (R.left first.old) (R.left first.new) (R.is_broken first.new))
        (taking (S.left second.old) (S.left second.new) (S.is_broken second.new))
        (putting (W.contents sink.old) (W.contents sink.new) (W.is_broken sink.new))) }
    // Two inputs have one result, unless memory, a source or the sink fails.
    ensures compares { IfSome (R.left first.old)
        (λ s. IfSome (S.left second.old) (λ t. ComparesBoth profile_two hex s t result)) }
    ensures refuses { IfSome (R.left first.old)
        (λ s. IfSome (S.left second.old) (λ t. RefusesOne profile_two hex s t result)) }
    ensures no_hex { IfSome (R.left first.old)
        (λ s. IfSome (S.left second.old) (λ t. RefusesTexts hex s t result)) }
    ensures first_stays { IsTrue (R.is_broken first.old) → IsTrue (R.is_broken first.new) }
    ensures second_stays { IsTrue (S.is_broken second.old) → IsTrue (S.is_broken second.new) }
    ensures sink_stays { IsTrue (W.is_broken sink.old) → IsTrue (W.is_broken sink.new) }
{
    run_same_as(alloc, Profile::Two, hex, first, second, sink)
}

/// Compares two inputs as [`run_same`] does, each of one message of the profile.
///
/// # Errors
///
/// Those of [`run_same`], in the profile.
pub fn run_same_as<R: Source, S: Source, W: Sink>(
    alloc: Global,
    profile: Profile,
    hex: bool,
    first: &mut R,
    second: &mut S,
    sink: &mut W,
) -> Result<Verdict, RunFault>
    // Both inputs were one message, and the line was written.
    ensures done { IfOk result (SameDone (profile_of profile) hex (R.left first.old)
        (R.left first.new) (S.left second.old) (S.left second.new)
        (W.contents sink.old) (W.contents sink.new)) }
    ensures fails { IfErr result (SameFails (profile_of profile) hex
        (taking (R.left first.old) (R.left first.new) (R.is_broken first.new))
        (taking (S.left second.old) (S.left second.new) (S.is_broken second.new))
        (putting (W.contents sink.old) (W.contents sink.new) (W.is_broken sink.new))) }
    // Two inputs have one result, unless memory, a source or the sink fails.
    ensures compares { IfSome (R.left first.old)
        (λ s. IfSome (S.left second.old) (λ t. ComparesBoth (profile_of profile) hex s t result)) }
    ensures refuses { IfSome (R.left first.old)
        (λ s. IfSome (S.left second.old) (λ t. RefusesOne (profile_of profile) hex s t result)) }
    ensures no_hex { IfSome (R.left first.old)
        (λ s. IfSome (S.left second.old) (λ t. RefusesTexts hex s t result)) }
    ensures first_stays { IsTrue (R.is_broken first.old) → IsTrue (R.is_broken first.new) }
    ensures second_stays { IsTrue (S.is_broken second.old) → IsTrue (S.is_broken second.new) }
    ensures sink_stays { IsTrue (W.is_broken sink.old) → IsTrue (W.is_broken sink.new) }
{
    let one = read_side(alloc, hex, first)?;
    let other = read_side(alloc, hex, second)?;
    let verdict = compare(alloc, profile, &one, &other)?;
    match put_all(sink, line_of(verdict)) {
        Ok(()) => Ok(verdict),
        Err(count) => Err(RunFault::WriteFault(count as u128)),
    }
}

fn line_of(verdict: Verdict) -> &'static [u8]
    ensures { result.now ≡ verdict_line verdict }
{
    match verdict {
        Verdict::Good => b"same\n",
        Verdict::NotGood => b"different\n",
    }
}

fn compare(alloc: Global, profile: Profile, one: &[u8], other: &[u8]) -> Result<Verdict, RunFault>
    ensures compares { IfOk result (AreCompared (profile_of profile) one.now other.now) }
    ensures refuses { IfErr result (NotCompared (profile_of profile) one.now other.now) }
{
    match same_message_as(alloc, profile, one, other) {
        Ok(true) => Ok(Verdict::Good),
        Ok(false) => Ok(Verdict::NotGood),
        Err((side, Failure::Refused(refusal))) => Err(RunFault::RefusedSide(side, refusal)),
        Err((_, Failure::OutOfMemory)) => Err(RunFault::OutOfMemory),
    }
}

/// The octets of an input. One octet more than a message may have shows that it is too long; no
/// more is taken, whatever the result.
fn read_side<R: Source>(alloc: Global, hex: bool, source: &mut R) -> Result<Vec<u8>, RunFault>
    ensures read { IfOk result (λ octets. ReadsSide hex (R.left source.old) (R.left source.new)
        octets.items) }
    ensures fails { IfErr result (SideFails hex (R.left source.old) (R.left source.new)
        (R.is_broken source.new)) }
    ensures stays { IsTrue (R.is_broken source.old) → IsTrue (R.is_broken source.new) }
{
    if hex {
        return read_hex(alloc, source);
    }
    read_at_most(alloc, source, LIMIT as usize + 1)
}
