//! One message.
ghost use Rattle.std.specs.Prelude.{◌≡◌, ◌<◌, ℕ, List, [], length, IfOk, IfErr, IfSome, IfNone, IsTrue, Some, None};
ghost use Rattle.std.specs.Io.KnownBytes.{Consumes, Appends, Keeps, IsAtEnd};
ghost use Rattle.ber_leaf.specs.Profile.{profile_two};
ghost use Rattle.ill_schema.specs.Apdu.{Apdu, SpellsApdu, Accepts, normal_form, normal_form_in};
ghost use Rattle.ill_schema.specs.Profiles.{profile_of};
ghost use Rattle.ill_read.specs.Answers.{TakesFront};
ghost use Rattle.ill_refusals.specs.Fault.{Fault};
ghost use Rattle.ill_refusals.specs.Outcome.{OnlyRefuses};
ghost use Rattle.ill_normal.specs.Calls.{taking, putting};
ghost use Rattle.ill_normal.specs.Normalised.{ForwardsIn, Fails, FailsIn, Answers, AnswersRefused};

use crate::failure::NormalFailure;
use ber_core::{Sink, Source, put_all};
use ill_read::read_normal;
use ill_schema::Profile;
use std::alloc::Global;

/// The number of octets that a message had in the input, and how many its normal form has.
#[derive(Clone, Copy)]
pub(crate) struct Forwarded {
    pub(crate) read: u32,
    pub(crate) written: u32,
}

/// Writes the normal form of the message that the source begins with; None where the source is at
/// its end.
pub(crate) fn forward<R: Source, W: Sink>(
    alloc: Global,
    profile: Profile,
    source: &mut R,
    sink: &mut W,
) -> Result<Option<Forwarded>, NormalFailure>
    ensures forwarded { IfOk result (λ found. IfSome found
        (λ size. ForwardsIn (profile_of profile) (R.left source.old) (R.left source.new)
        (W.contents sink.old) (W.contents sink.new) size.read size.written)) }
    ensures none { IfOk result (λ found. IfNone found
        (Consumes (R.left source.old) (R.left source.new) []
        × IsAtEnd (R.left source.new) × Keeps (W.contents sink.old) (W.contents sink.new))) }
    ensures fails { IfErr result (FailsIn (profile_of profile)
        (taking (R.left source.old) (R.left source.new) (R.is_broken source.new))
        (putting (W.contents sink.old) (W.contents sink.new) (W.is_broken sink.new))) }
    ensures taken { TakesFront (R.left source.old) (R.left source.new) }
    ensures source_stays { IsTrue (R.is_broken source.old) → IsTrue (R.is_broken source.new) }
    ensures sink_stays { IsTrue (W.is_broken sink.old) → IsTrue (W.is_broken sink.new) }
{
    let Some(normal) = read_normal(alloc, profile, source)? else {
        return Ok(None);
    };
    match put_all(sink, &normal.octets) {
        Ok(()) => Ok(Some(Forwarded {
            read: normal.input_len,
            written: normal.octets.len() as u32,
        })),
        Err(count) => Err(NormalFailure::WriteFault(count as u32)),
    }
}

/// Writes the normal form of the message that the source begins with, and returns how many octets
/// it has; None where the source is at its end. Exactly the octets of the message are taken.
///
/// # Errors
///
/// The one refusal of an input that begins with no message, out of memory, or the fault of the
/// source or the sink. Nothing was written, unless the sink broke.
pub fn normalise<R: Source, W: Sink>(
    alloc: Global,
    source: &mut R,
    sink: &mut W,
) -> Result<Option<u32>, NormalFailure>
    // The octets that were taken spell an APDU, and its normal form was written.
    ensures normalised { IfOk result (λ found. IfSome found
        (λ n. (a : Apdu) × (b : List ℕ) × SpellsApdu profile_two a b
        × Consumes (R.left source.old) (R.left source.new) b
        × Appends (W.contents sink.old) (W.contents sink.new) (normal_form a)
        × (n ≡ length (normal_form a)))) }
    // There was nothing left, and nothing was written.
    ensures none { IfOk result (λ found. IfNone found
        (Consumes (R.left source.old) (R.left source.new) []
        × IsAtEnd (R.left source.new) × Keeps (W.contents sink.old) (W.contents sink.new))) }
    ensures fails { IfErr result
        (Fails (taking (R.left source.old) (R.left source.new) (R.is_broken source.new))
        (putting (W.contents sink.old) (W.contents sink.new) (W.is_broken sink.new))) }
    // An input that begins with a spelling is normalised, an empty one is no message, and any other is refused with its cause.
    ensures accepts { IfSome (R.left source.old)
        (λ s. (a : Apdu) (n : ℕ) → Accepts profile_two s a n
        → Answers result (Some (length (normal_form a)))) }
    ensures empty { IfSome (R.left source.old) (λ s. s ≡ [] → Answers result None) }
    ensures refuses { IfSome (R.left source.old)
        (λ s. (f : Fault) → 0 < length s → OnlyRefuses profile_two s f → AnswersRefused result f) }
    ensures taken { TakesFront (R.left source.old) (R.left source.new) }
    ensures source_stays { IsTrue (R.is_broken source.old) → IsTrue (R.is_broken source.new) }
    ensures sink_stays { IsTrue (W.is_broken sink.old) → IsTrue (W.is_broken sink.new) }
{
    normalise_as(alloc, Profile::Two, source, sink)
}

/// Writes a normal form as [`normalise`] does, of a message in the profile.
///
/// # Errors
///
/// Those of [`normalise`], in the profile.
pub fn normalise_as<R: Source, W: Sink>(
    alloc: Global,
    profile: Profile,
    source: &mut R,
    sink: &mut W,
) -> Result<Option<u32>, NormalFailure>
    // The octets that were taken spell an APDU, and its normal form was written.
    ensures normalised { IfOk result (λ found. IfSome found
        (λ n. (a : Apdu) × (b : List ℕ) × SpellsApdu (profile_of profile) a b
        × Consumes (R.left source.old) (R.left source.new) b
        × Appends (W.contents sink.old) (W.contents sink.new)
        (normal_form_in (profile_of profile) a)
        × (n ≡ length (normal_form_in (profile_of profile) a)))) }
    // There was nothing left, and nothing was written.
    ensures none { IfOk result (λ found. IfNone found
        (Consumes (R.left source.old) (R.left source.new) []
        × IsAtEnd (R.left source.new) × Keeps (W.contents sink.old) (W.contents sink.new))) }
    ensures fails { IfErr result (FailsIn (profile_of profile)
        (taking (R.left source.old) (R.left source.new) (R.is_broken source.new))
        (putting (W.contents sink.old) (W.contents sink.new) (W.is_broken sink.new))) }
    // An input that begins with a spelling is normalised, an empty one is no message, and any other is refused with its cause.
    ensures accepts { IfSome (R.left source.old)
        (λ s. (a : Apdu) (n : ℕ) → Accepts (profile_of profile) s a n
        → Answers result (Some (length (normal_form_in (profile_of profile) a)))) }
    ensures empty { IfSome (R.left source.old) (λ s. s ≡ [] → Answers result None) }
    ensures refuses { IfSome (R.left source.old)
        (λ s. (f : Fault) → 0 < length s → OnlyRefuses (profile_of profile) s f
        → AnswersRefused result f) }
    ensures taken { TakesFront (R.left source.old) (R.left source.new) }
    ensures source_stays { IsTrue (R.is_broken source.old) → IsTrue (R.is_broken source.new) }
    ensures sink_stays { IsTrue (W.is_broken sink.old) → IsTrue (W.is_broken sink.new) }
{
    match forward(alloc, profile, source, sink)? {
        Some(size) => Ok(Some(size.written)),
        None => Ok(None),
    }
}
