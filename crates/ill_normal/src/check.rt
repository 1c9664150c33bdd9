//! The facts of a message: its octets, its APDU and its normal form.
ghost use Rattle.std.specs.Prelude.{◌≡◌, ℕ, List, IfSome};
ghost use Rattle.ber_leaf.specs.Profile.{profile_two};
ghost use Rattle.ill_schema.specs.Apdu.{Apdu, Accepts, SpellsApdu, normal_form_in};
ghost use Rattle.ill_schema.specs.Profiles.{profile_of};
ghost use Rattle.ill_tables.specs.declared.profile.Profile.{Profile as Named};
ghost use Rattle.ill_read.specs.Answers.{AnswersSome, ReadsNext, ReadsNextIn};
ghost use Rattle.ill_normal.specs.Checking.{Describes, DescribesIn};

use ber_core::Source;
use ill_read::{NormalReader, ReadFailure};
use ill_schema::Profile;
use std::alloc::Global;

/// A message, and how it was spelled.
#[derive(Clone, Copy, Debug, PartialEq, Eq)]
pub struct Checked {
    /// The number of the APDU, for [`apdu_name`](crate::apdu_name).
    pub apdu: u8,
    /// The number of octets that the message had in the input.
    pub octets: u32,
    /// The number of octets that its normal form has.
    pub normal: u32,
    /// True if it was its normal form, octet for octet.
    pub is_normal: bool,
}

/// Reads the message that the source begins with, of which exactly its octets are taken, and
/// compares it with its normal form; None where the source is at its end.
///
/// # Errors
///
/// The one refusal of an input that begins with no message, out of memory, or the source's fault.
pub fn check_one<R: Source>(alloc: Global, source: &mut R) -> Result<Option<Checked>, ReadFailure>
    ensures next { ReadsNext (R.left source.old) (R.left source.new) (R.is_broken source.old)
        (R.is_broken source.new) Describes result }
    // A spelling at the front is checked, unless memory or the source failed.
    ensures accepts { IfSome (R.left source.old)
        (λ s. (a : Apdu) (n : ℕ) → Accepts profile_two s a n → AnswersSome result) }
{
    check_one_as(alloc, Profile::Two, source)
}

/// Checks a message in the profile as [`check_one`] does.
///
/// # Errors
///
/// Those of [`check_one`], in the profile.
pub fn check_one_as<R: Source>(
    alloc: Global,
    profile: Profile,
    source: &mut R,
) -> Result<Option<Checked>, ReadFailure>
    ensures next { ReadsNextIn (profile_of profile) (R.left source.old) (R.left source.new)
        (R.is_broken source.old) (R.is_broken source.new)
        (DescribesIn (profile_of profile)) result }
    // A spelling at the front is checked, unless memory or the source failed.
    ensures accepts { IfSome (R.left source.old)
        (λ s. (a : Apdu) (n : ℕ) → Accepts (profile_of profile) s a n → AnswersSome result) }
{
    let mut reader = NormalReader::new(alloc);
    let mut recorded = Vec::new(alloc);
    let read = reader.read_recording(profile, source, Vec::new(alloc), &mut recorded)?;
    let Some(normal) = read else {
        return Ok(None);
    };
    Ok(Some(Checked {
        apdu: apdu_number(&normal.octets),
        octets: normal.input_len,
        normal: normal.octets.len() as u32,
        is_normal: recorded.as_slice() == normal.octets.as_slice(),
    }))
}

/// The number of the APDU whose normal form this is: its first octet is [APPLICATION number], constructed.
///
/// ```text
/// apdu_number(&normal.octets) // 20: an Expired
/// ```
pub fn apdu_number(normal: &[u8]) -> u8
    ensures { (p : Named) (a : Apdu) (b : List ℕ) → SpellsApdu (profile_of p) a b
        → normal.now ≡ normal_form_in (profile_of p) a
        → result ≡ a.number }
{
    match normal {
        [first, ..] => first % 32,
        [] => 0,
    }
}
