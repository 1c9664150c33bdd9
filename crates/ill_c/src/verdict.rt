//! Verdicts on messages.
ghost use Rattle.ill_schema.specs.Profiles.{profile_of};
ghost use Rattle.ill_c.specs.Calls.{Checks, ChecksAs, ChecksIn, Compares, ComparesAs, ComparesIn};
ghost use Rattle.ill_c.specs.Memory.{change};
ghost use Rattle.ill_c.specs.Profiles.{profile_numbered};
ghost use Rattle.ill_c.specs.Status.{ReturnsStatus};

use crate::profile::profile_numbered;
use crate::refusal::{IllcanonRefusal, report, reported};
use crate::status::Status;
use ill_normal::{Failure, Profile, Side, is_normal_as, same_message_as};
use std::alloc::Global;

/// Says whether the message is in normal form: 1 if they are, else 0.
#[unsafe(no_mangle)]
pub extern "C" fn illcanon_check(
    alloc: Global,
    octets: &[u8],
    normal: &mut u32,
    refusal: &mut IllcanonRefusal,
) -> u32
    ensures { ReturnsStatus result (Checks octets.now (change normal.old normal.new)
        (change refusal.old refusal.new)) }
{
    check(alloc, Profile::Two, octets, normal, refusal).number()
}

/// Says whether the message in the profile of a number is in normal form: 1 if they are, else 0.
#[unsafe(no_mangle)]
pub extern "C" fn illcanon_check_as(
    alloc: Global,
    profile: u32,
    octets: &[u8],
    normal: &mut u32,
    refusal: &mut IllcanonRefusal,
) -> u32
    ensures { ReturnsStatus result (ChecksAs (profile_numbered profile) octets.now
        (change normal.old normal.new) (change refusal.old refusal.new)) }
{
    match profile_numbered(profile) {
        Some(profile) => check(alloc, profile, octets, normal, refusal).number(),
        None => Status::UnknownProfile.number(),
    }
}

fn check(
    alloc: Global,
    profile: Profile,
    octets: &[u8],
    normal: &mut u32,
    refusal: &mut IllcanonRefusal,
) -> Status
    ensures { ChecksIn (profile_of profile) octets.now
        (change normal.old normal.new) (change refusal.old refusal.new) result }
{
    match is_normal_as(alloc, profile, octets) {
        Ok(yes) => {
            *normal = u32::from(yes);
            Status::Done
        }
        Err(failure) => report(failure, refusal),
    }
}

/// Says whether two messages are of one APDU: 1 if they are, else 0.
#[unsafe(no_mangle)]
pub extern "C" fn illcanon_same(
    alloc: Global,
    first: &[u8],
    second: &[u8],
    same: &mut u32,
    refusal: &mut IllcanonRefusal,
) -> u32
    ensures { ReturnsStatus result (Compares first.now second.now (change same.old same.new)
        (change refusal.old refusal.new)) }
{
    compare(alloc, Profile::Two, first, second, same, refusal).number()
}

/// Says whether two messages in the profile of a number are of one APDU: 1 if they are, else 0.
#[unsafe(no_mangle)]
pub extern "C" fn illcanon_same_as(
    alloc: Global,
    profile: u32,
    first: &[u8],
    second: &[u8],
    same: &mut u32,
    refusal: &mut IllcanonRefusal,
) -> u32
    ensures { ReturnsStatus result (ComparesAs (profile_numbered profile) first.now second.now
        (change same.old same.new) (change refusal.old refusal.new)) }
{
    match profile_numbered(profile) {
        Some(profile) => compare(alloc, profile, first, second, same, refusal).number(),
        None => Status::UnknownProfile.number(),
    }
}

fn compare(
    alloc: Global,
    profile: Profile,
    first: &[u8],
    second: &[u8],
    same: &mut u32,
    refusal: &mut IllcanonRefusal,
) -> Status
    ensures { ComparesIn (profile_of profile) first.now second.now
        (change same.old same.new) (change refusal.old refusal.new) result }
{
    match same_message_as(alloc, profile, first, second) {
        Ok(yes) => {
            *same = u32::from(yes);
            Status::Done
        }
        Err((Side::First, failure)) => report(failure, refusal),
        Err((Side::Second, Failure::Refused(it))) => {
            *refusal = reported(it);
            Status::SecondRefused
        }
        Err((Side::Second, Failure::OutOfMemory)) => Status::OutOfMemory,
    }
}
