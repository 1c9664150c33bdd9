//! The message that a line of JSON says.
ghost use Rattle.std.specs.Prelude.{IfErr, IfOk, false, true};
ghost use Rattle.ill_schema.specs.Profiles.{profile_of};
ghost use Rattle.ill_build.specs.Line.{IsFaultyLine, OnFailure};
ghost use Rattle.ill_c.specs.Builds.{Builds, BuildsAs, BuildsIn, IsBuilt};
ghost use Rattle.ill_c.specs.Memory.{change};
ghost use Rattle.ill_c.specs.Profiles.{profile_numbered};
ghost use Rattle.ill_c.specs.Status.{ReturnsStatus};

use crate::profile::profile_numbered;
use crate::put::put;
use crate::status::Status;
use ill_build::{BuildFailure, build_line, write_defaults};
use ill_normal::Profile;
use std::alloc::Global;

/// Writes the normal form of the message that a line of JSON says, or the place where the line is refused.
#[unsafe(no_mangle)]
pub extern "C" fn illcanon_build(
    alloc: Global,
    line: &[u8],
    buffer: &mut [u8],
    size: &mut usize,
    cause: &mut u32,
) -> u32
    ensures { ReturnsStatus result (Builds line.now (change buffer.old buffer.new)
        (change size.old size.new) (change cause.old cause.new)) }
{
    let builder = Builder {
        alloc,
        profile: Profile::Two,
        writes_defaults: false,
    };
    builder.put(line, buffer, size, cause).number()
}

/// Writes the normal form of the message in the profile of a number that a line of JSON says, or the place where the line is refused.
#[unsafe(no_mangle)]
pub extern "C" fn illcanon_build_as(
    alloc: Global,
    profile: u32,
    line: &[u8],
    buffer: &mut [u8],
    size: &mut usize,
    cause: &mut u32,
) -> u32
    ensures { ReturnsStatus result (BuildsAs false (profile_numbered profile) line.now
        (change buffer.old buffer.new) (change size.old size.new)
        (change cause.old cause.new)) }
{
    match profile_numbered(profile) {
        Some(profile) => {
            let builder = Builder {
                alloc,
                profile,
                writes_defaults: false,
            };
            builder.put(line, buffer, size, cause).number()
        }
        None => Status::UnknownProfile.number(),
    }
}

/// Writes the message in the profile of a number that a line of JSON says, with an element for each row that has its default, or the place where
/// the line is refused.
#[unsafe(no_mangle)]
pub extern "C" fn illcanon_build_with_defaults(
    alloc: Global,
    profile: u32,
    line: &[u8],
    buffer: &mut [u8],
    size: &mut usize,
    cause: &mut u32,
) -> u32
    ensures { ReturnsStatus result (BuildsAs true (profile_numbered profile) line.now
        (change buffer.old buffer.new) (change size.old size.new)
        (change cause.old cause.new)) }
{
    match profile_numbered(profile) {
        Some(profile) => {
            let builder = Builder {
                alloc,
                profile,
                writes_defaults: true,
            };
            builder.put(line, buffer, size, cause).number()
        }
        None => Status::UnknownProfile.number(),
    }
}

/// The way that messages are built.
#[derive(Clone, Copy)]
struct Builder {
    alloc: Global,
    profile: Profile,
    /// True if each row that has its default has an element.
    writes_defaults: bool,
}

impl Builder {
    /// Builds the message that a line says.
    fn build(self, line: &[u8]) -> Result<Vec<u8>, BuildFailure>
        ensures built { IfOk result (λ octets. IsBuilt self.writes_defaults
            (profile_of self.profile) line.now octets.items) }
        ensures refused { IfErr result
            (λ failure. OnFailure failure (IsFaultyLine (profile_of self.profile) line.now)) }
    {
        let normal = build_line(self.alloc, self.profile, line)?;
        if !self.writes_defaults {
            return Ok(normal);
        }
        let octets = write_defaults(self.alloc, self.profile, &normal)?;
        Ok(octets)
    }

    /// Puts the message that a line says, or the place where the line is refused.
    fn put(self, line: &[u8], buffer: &mut [u8], size: &mut usize, cause: &mut u32) -> Status
        ensures { BuildsIn self.writes_defaults (profile_of self.profile) line.now
            (change buffer.old buffer.new) (change size.old size.new)
            (change cause.old cause.new) result }
    {
        let refusal = match self.build(line) {
            Ok(octets) => return put(&octets, buffer, size),
            Err(BuildFailure::Refused(refusal)) => refusal,
            Err(BuildFailure::OutOfMemory) => return Status::OutOfMemory,
        };
        match put(&refusal.pointer, buffer, size) {
            Status::Done => {
                *cause = refusal.cause.number();
                Status::Refused
            }
            status => status,
        }
    }
}
