//! A message as it is spelled, element by element, also where it is refused.
ghost use Rattle.ill_schema.specs.Profiles.{profile_of};
ghost use Rattle.ill_c.specs.Calls.{Dumps, DumpsAs, DumpsIn};
ghost use Rattle.ill_c.specs.Memory.{change};
ghost use Rattle.ill_c.specs.Profiles.{profile_numbered};
ghost use Rattle.ill_c.specs.Status.{ReturnsStatus};

use crate::profile::profile_numbered;
use crate::put::put;
use crate::refusal::{IllcanonRefusal, reported};
use crate::status::Status;
use ill_dump::dump_message;
use ill_normal::Profile;
use std::alloc::{AllocError, Global};

/// Writes the lines of the message that the octets are, under a number, or those of its elements up to where it is refused.
#[unsafe(no_mangle)]
pub extern "C" fn illcanon_dump(
    alloc: Global,
    octets: &[u8],
    number: u32,
    buffer: &mut [u8],
    size: &mut usize,
    refusal: &mut IllcanonRefusal,
) -> u32
    ensures { ReturnsStatus result (Dumps octets.now (change buffer.old buffer.new)
        (change size.old size.new) (change refusal.old refusal.new)) }
{
    dump(alloc, Profile::Two, octets, number, buffer, size, refusal).number()
}

/// Writes the lines of the message in the profile of a number that the octets are, under another number, or those of its elements up to
/// where it is refused.
#[unsafe(no_mangle)]
pub extern "C" fn illcanon_dump_as(
    alloc: Global,
    profile: u32,
    octets: &[u8],
    number: u32,
    buffer: &mut [u8],
    size: &mut usize,
    refusal: &mut IllcanonRefusal,
) -> u32
    ensures { ReturnsStatus result (DumpsAs (profile_numbered profile) octets.now
        (change buffer.old buffer.new) (change size.old size.new)
        (change refusal.old refusal.new)) }
{
    match profile_numbered(profile) {
        Some(profile) => dump(alloc, profile, octets, number, buffer, size, refusal).number(),
        None => Status::UnknownProfile.number(),
    }
}

fn dump(
    alloc: Global,
    profile: Profile,
    octets: &[u8],
    number: u32,
    buffer: &mut [u8],
    size: &mut usize,
    refusal: &mut IllcanonRefusal,
) -> Status
    ensures { DumpsIn (profile_of profile) octets.now
        (change buffer.old buffer.new) (change size.old size.new)
        (change refusal.old refusal.new) result }
{
    let dumped = match dump_message(alloc, profile, number, octets) {
        Ok(dumped) => dumped,
        Err(AllocError) => return Status::OutOfMemory,
    };
    match put(&dumped.text, buffer, size) {
        Status::Done => match dumped.refusal {
            Some(it) => {
                *refusal = reported(it);
                Status::Refused
            }
            None => Status::Done,
        },
        status => status,
    }
}
