//! The message at the front of a buffer, whatever follows it.
ghost use Rattle.ill_schema.specs.Profiles.{profile_of};
ghost use Rattle.ill_c.specs.Calls.{Finds, FindsAs, FindsIn, WritesFront, WritesFrontAs, WritesFrontIn};
ghost use Rattle.ill_c.specs.Memory.{change};
ghost use Rattle.ill_c.specs.Profiles.{profile_numbered};
ghost use Rattle.ill_c.specs.Status.{ReturnsStatus};

use crate::front::read_front;
use crate::profile::profile_numbered;
use crate::put::put;
use crate::refusal::{IllcanonRefusal, report};
use crate::status::Status;
use ill_normal::Profile;
use std::alloc::Global;

/// Finds how many octets the message has that the octets begin with.
#[unsafe(no_mangle)]
pub extern "C" fn illcanon_next(
    alloc: Global,
    octets: &[u8],
    size: &mut usize,
    refusal: &mut IllcanonRefusal,
) -> u32
    ensures { ReturnsStatus result (Finds octets.now (change size.old size.new)
        (change refusal.old refusal.new)) }
{
    next(alloc, Profile::Two, octets, size, refusal).number()
}

/// Finds how many octets the message in the profile of a number has that the octets begin with.
#[unsafe(no_mangle)]
pub extern "C" fn illcanon_next_as(
    alloc: Global,
    profile: u32,
    octets: &[u8],
    size: &mut usize,
    refusal: &mut IllcanonRefusal,
) -> u32
    ensures { ReturnsStatus result (FindsAs (profile_numbered profile) octets.now
        (change size.old size.new) (change refusal.old refusal.new)) }
{
    match profile_numbered(profile) {
        Some(profile) => next(alloc, profile, octets, size, refusal).number(),
        None => Status::UnknownProfile.number(),
    }
}

fn next(
    alloc: Global,
    profile: Profile,
    octets: &[u8],
    size: &mut usize,
    refusal: &mut IllcanonRefusal,
) -> Status
    ensures { FindsIn (profile_of profile) octets.now
        (change size.old size.new) (change refusal.old refusal.new) result }
{
    match read_front(alloc, profile, octets) {
        Ok(Some(normal)) => {
            *size = normal.input_len as usize;
            Status::Done
        }
        Ok(None) => Status::NeedsMore,
        Err(failure) => report(failure, refusal),
    }
}

/// Writes the normal form of the message that the octets begin with, and says how many octets the message has.
#[unsafe(no_mangle)]
pub extern "C" fn illcanon_normalise_next(
    alloc: Global,
    octets: &[u8],
    read: &mut usize,
    buffer: &mut [u8],
    size: &mut usize,
    refusal: &mut IllcanonRefusal,
) -> u32
    ensures { ReturnsStatus result (WritesFront octets.now (change read.old read.new)
        (change buffer.old buffer.new) (change size.old size.new)
        (change refusal.old refusal.new)) }
{
    normalise_next(alloc, Profile::Two, octets, read, buffer, size, refusal).number()
}

/// Writes the normal form of the message in the profile of a number that the octets begin with, and says how many octets the message
/// has.
#[unsafe(no_mangle)]
pub extern "C" fn illcanon_normalise_next_as(
    alloc: Global,
    profile: u32,
    octets: &[u8],
    read: &mut usize,
    buffer: &mut [u8],
    size: &mut usize,
    refusal: &mut IllcanonRefusal,
) -> u32
    ensures { ReturnsStatus result (WritesFrontAs (profile_numbered profile) octets.now
        (change read.old read.new) (change buffer.old buffer.new) (change size.old size.new)
        (change refusal.old refusal.new)) }
{
    match profile_numbered(profile) {
        Some(profile) => normalise_next(
            alloc, profile, octets, read, buffer, size, refusal,
        ).number(),
        None => Status::UnknownProfile.number(),
    }
}

fn normalise_next(
    alloc: Global,
    profile: Profile,
    octets: &[u8],
    read: &mut usize,
    buffer: &mut [u8],
    size: &mut usize,
    refusal: &mut IllcanonRefusal,
) -> Status
    ensures { WritesFrontIn (profile_of profile) octets.now (change read.old read.new)
        (change buffer.old buffer.new) (change size.old size.new)
        (change refusal.old refusal.new) result }
{
    match read_front(alloc, profile, octets) {
        Ok(Some(normal)) => {
            *read = normal.input_len as usize;
            put(&normal.octets, buffer, size)
        }
        Ok(None) => Status::NeedsMore,
        Err(failure) => report(failure, refusal),
    }
}
