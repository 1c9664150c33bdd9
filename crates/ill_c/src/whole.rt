//! Reading of octets that are one message.
ghost use Rattle.std.specs.Prelude.{◌≡◌, List, ℕ, ◌++◌, length};
ghost use Rattle.ber_leaf.specs.Profile.{Profile as Meaning};
ghost use Rattle.ill_schema.specs.Profiles.{profile_of};
ghost use Rattle.ill_read.specs.Outlined.{IsOutlinedIn};
ghost use Rattle.ill_read.specs.declared.failure.Failure.{Failure};
ghost use Rattle.ill_c.specs.code.Steps.{OutlineAnswers};

use ill_normal::{Cause, Failure, FromSlice, Profile, ReadFailure, Refusal};
use ill_read::{OutlinedMessage, read_outline};
use std::alloc::Global;

/// The outline and the normal form of the message in the profile that the octets are.
pub(crate) fn read_whole_outline(
    alloc: Global,
    profile: Profile,
    octets: &[u8],
) -> Result<OutlinedMessage, Failure>
    ensures { OutlineAnswers (profile_of profile) octets.now result }
{
    let mut source = FromSlice::new(octets);
    match read_outline(alloc, profile, &mut source) {
        Ok(Some(outlined)) => whole_outline(outlined, octets.len()),
        Ok(None) => Err(refused(0, Cause::Truncated)),
        Err(ReadFailure::Refused(refusal)) => Err(Failure::Refused(refusal)),
        Err(ReadFailure::OutOfMemory) => Err(Failure::OutOfMemory),
        // A slice doesn't break.
        Err(ReadFailure::ReadFault) => unreachable!(),
    }
}

/// The outline of a message at the front of octets, if there are no more.
fn whole_outline(outlined: OutlinedMessage, count: usize) -> Result<OutlinedMessage, Failure>
    ensures { (p : Meaning) (front rest : List ℕ) → count ≡ length (front ++ rest)
        → IsOutlinedIn p outlined front → OutlineAnswers p (front ++ rest) result }
{
    if outlined.input_len as usize == count {
        Ok(outlined)
    } else {
        Err(refused(outlined.input_len, Cause::TrailingBytes))
    }
}

fn refused(at: u32, cause: Cause) -> Failure
    ensures { result ≡ Failure.Refused (record { at = at; cause = cause }) }
{
    Failure::Refused(Refusal { at, cause })
}
