//! Messages that are compared.
ghost use Rattle.std.specs.Prelude.{◌≡◌, ◌↔◌, ℕ, IfOk, IfErr, IsTrue};
ghost use Rattle.ber_leaf.specs.Profile.{profile_two};
ghost use Rattle.ill_schema.specs.Apdu.{Apdu, SpellsApdu, normal_form, normal_form_in};
ghost use Rattle.ill_schema.specs.Profiles.{profile_of};
ghost use Rattle.ill_read.specs.Answers.{IfRefused, RefusesWhole, RefusesWholeIn};
ghost use Rattle.ill_normal.specs.Compared.{RefusesSide, RefusesSideIn};

use ill_inputs::Side;
use ill_read::{Failure, decode_normal};
use ill_schema::Profile;
use std::alloc::Global;

/// Tells whether two messages are of one APDU, which is whether they have one normal form.
///
/// # Errors
///
/// The first side that is not exactly one message, and why; or out of memory.
pub fn same_message(alloc: Global, first: &[u8], second: &[u8]) -> Result<bool, (Side, Failure)>
    ensures same { IfOk result (λ same. (a : Apdu) × (b : Apdu) × SpellsApdu profile_two a first.now
        × SpellsApdu profile_two b second.now
        × (IsTrue same ↔ (a ≡ b)) × (IsTrue same ↔ (normal_form a ≡ normal_form b))) }
    // A refusal is that of the first side that isn't one whole spelling.
    ensures refused { IfErr result (λ e. IfRefused e.1 (RefusesSide first.now second.now e.0)) }
    // Two spellings are compared, unless memory runs out.
    ensures accepts { (a b : Apdu) → SpellsApdu profile_two a first.now
        → SpellsApdu profile_two b second.now
        → IfErr result (λ e. e.1 ≡ Failure.OutOfMemory) }
{
    same_message_as(alloc, Profile::Two, first, second)
}

/// Compares two messages in the profile as [`same_message`] does.
///
/// # Errors
///
/// Those of [`same_message`], in the profile.
pub fn same_message_as(
    alloc: Global,
    profile: Profile,
    first: &[u8],
    second: &[u8],
) -> Result<bool, (Side, Failure)>
    ensures same { IfOk result (λ same. (a : Apdu) × (b : Apdu)
        × SpellsApdu (profile_of profile) a first.now × SpellsApdu (profile_of profile) b second.now
        × (IsTrue same ↔ (a ≡ b))
        × (IsTrue same ↔ (normal_form_in (profile_of profile) a
        ≡ normal_form_in (profile_of profile) b))) }
    // A refusal is that of the first side that isn't one whole spelling.
    ensures refused { IfErr result
        (λ e. IfRefused e.1 (RefusesSideIn (profile_of profile) first.now second.now e.0)) }
    // Two spellings are compared, unless memory runs out.
    ensures accepts { (a b : Apdu) → SpellsApdu (profile_of profile) a first.now
        → SpellsApdu (profile_of profile) b second.now
        → IfErr result (λ e. e.1 ≡ Failure.OutOfMemory) }
{
    let one = match decode_normal(alloc, profile, first) {
        Ok(normal) => normal,
        Err(failure) => return Err((Side::First, failure)),
    };
    let other = match decode_normal(alloc, profile, second) {
        Ok(normal) => normal,
        Err(failure) => return Err((Side::Second, failure)),
    };
    Ok(one.octets.as_slice() == other.octets.as_slice())
}

/// Tells whether the message is in normal form.
///
/// # Errors
///
/// The reason why they are not exactly one message; or out of memory.
pub fn is_normal(alloc: Global, octets: &[u8]) -> Result<bool, Failure>
    ensures normal { IfOk result (λ yes. (a : Apdu) × SpellsApdu profile_two a octets.now
        × (IsTrue yes ↔ (octets.now ≡ normal_form a))) }
    ensures refused { IfErr result (λ e. IfRefused e (RefusesWhole octets.now)) }
    // A spelling is compared, unless memory runs out.
    ensures accepts { (a : Apdu) → SpellsApdu profile_two a octets.now
        → IfErr result (λ e. e ≡ Failure.OutOfMemory) }
{
    is_normal_as(alloc, Profile::Two, octets)
}

/// Says of a message in the profile what [`is_normal`] says.
///
/// # Errors
///
/// Those of [`is_normal`], in the profile.
pub fn is_normal_as(alloc: Global, profile: Profile, octets: &[u8]) -> Result<bool, Failure>
    ensures normal { IfOk result (λ yes. (a : Apdu) × SpellsApdu (profile_of profile) a octets.now
        × (IsTrue yes ↔ (octets.now ≡ normal_form_in (profile_of profile) a))) }
    ensures refused { IfErr result
        (λ e. IfRefused e (RefusesWholeIn (profile_of profile) octets.now)) }
    // A spelling is compared, unless memory runs out.
    ensures accepts { (a : Apdu) → SpellsApdu (profile_of profile) a octets.now
        → IfErr result (λ e. e ≡ Failure.OutOfMemory) }
{
    let normal = decode_normal(alloc, profile, octets)?;
    Ok(normal.octets.as_slice() == octets)
}
