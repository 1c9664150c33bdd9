//! The normal form of the message at the front of octets.
ghost use Rattle.ill_schema.specs.Profiles.{profile_of};
ghost use Rattle.ill_c.specs.code.Steps.{FrontAnswers};

use ill_normal::{Cause, Failure, FromSlice, NormalForm, Profile, ReadFailure, read_normal};
use std::alloc::Global;

/// The normal form of the message in the profile at the front of octets, or none where they may be the beginning of a message.
pub(crate) fn read_front(
    alloc: Global,
    profile: Profile,
    octets: &[u8],
) -> Result<Option<NormalForm>, Failure>
    ensures { FrontAnswers (profile_of profile) octets.now result }
{
    let mut source = FromSlice::new(octets);
    match read_normal(alloc, profile, &mut source) {
        Ok(Some(normal)) => Ok(Some(normal)),
        Ok(None) => Ok(None),
        Err(ReadFailure::Refused(it)) => match it.cause {
            Cause::Truncated => Ok(None),
            _ => Err(Failure::Refused(it)),
        },
        Err(ReadFailure::OutOfMemory) => Err(Failure::OutOfMemory),
        // A slice doesn't break.
        Err(ReadFailure::ReadFault) => unreachable!(),
    }
}
