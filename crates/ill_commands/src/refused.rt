//! The lines of JSON of messages that are refused.
ghost use Rattle.std.specs.Prelude.{◌≡◌, false, IfOk};
ghost use Rattle.ill_tables.specs.declared.profile.Profile.{Profile as Named};
ghost use Rattle.ill_commands.specs.Refusals.{is_limit, HasKind, IsNotRead, IsRefusedLine, Says};

use crate::job::JobOptions;
use crate::piece::file_of;
use ber_core::FromSlice;
use ill_json::{RefusalKind, RefusalPlace, RefusedHead, refused_line};
use ill_normal::{Profile, ReadFailure, RefusalReport, read_normal};
use ill_schema::{Cause, Refusal, apdu_begun};
use std::alloc::{AllocError, Global};

/// The line of JSON of a message that is refused, and the kind of its refusal.
#[derive(Drop)]
pub struct RefusedLine {
    pub line: Vec<u8>,
    pub kind: RefusalKind,
}

/// The line of JSON of a message that is refused, in the memory of `buffer`, whose octets are forgotten. `octets` are those that a report
/// comes with, and `place` says of their refusal what `ill_dump` finds. The line has the name of the input where those of its other messages
/// have it.
///
/// # Errors
///
/// Only out of memory.
///
/// # Examples
///
/// ```
/// let refused = refused_json(alloc, work, report, octets, &place, Vec::new(alloc))?;
/// ```
pub fn refused_json(
    alloc: Global,
    work: JobOptions<'_>,
    report: RefusalReport,
    octets: &[u8],
    place: &RefusalPlace,
    buffer: Vec<u8>,
) -> Result<RefusedLine, AllocError>
    ensures { IfOk result (λ refused. IsRefusedLine work.entry report octets.now place.now
        refused.kind refused.line.items) }
{
    let RefusalReport {
        message,
        offset,
        refusal,
        octets: size,
    } = report;
    let kind = refusal_kind(alloc, work.profile, octets, refusal)?;
    let head = RefusedHead {
        number: message,
        offset,
        octets: size,
        refusal,
        kind,
    };
    let line = refused_line(
        alloc,
        buffer,
        file_of(work),
        head,
        apdu_begun(octets),
        place,
    )?;
    Ok(RefusedLine { line, kind })
}

/// The kind of a refusal of these octets in the profile.
///
/// # Errors
///
/// Only out of memory.
///
/// # Examples
///
/// ```
/// // RefusalKind::NoMessage
/// let kind = refusal_kind(alloc, Profile::Two, b"From: library", refusal)?;
/// ```
pub fn refusal_kind(
    alloc: Global,
    profile: Profile,
    octets: &[u8],
    refusal: Refusal,
) -> Result<RefusalKind, AllocError>
    ensures { IfOk result (HasKind profile octets.now refusal) }
{
    if apdu_begun(octets).is_none() {
        return Ok(RefusalKind::NoMessage);
    }
    if is_not_read(alloc, profile, octets, refusal)? {
        Ok(RefusalKind::NotRead)
    } else {
        Ok(RefusalKind::Invalid)
    }
}

/// Tells whether a refusal of octets in the profile says only that they are not read.
fn is_not_read(
    alloc: Global,
    profile: Profile,
    octets: &[u8],
    refusal: Refusal,
) -> Result<bool, AllocError>
    ensures { IfOk result (λ yes. Says yes (IsNotRead profile octets.now refusal)) }
{
    if is_limit(refusal.cause) {
        return Ok(true);
    }
    match profile {
        Profile::Module => Ok(false),
        Profile::Two => is_read_past(alloc, octets, refusal),
    }
}

/// Tells whether the module profile reads octets past the place where profile 2 refuses them, for a cause that is no limit.
fn is_read_past(alloc: Global, octets: &[u8], refusal: Refusal) -> Result<bool, AllocError>
    requires { is_limit refusal.cause ≡ false }
    ensures { IfOk result (λ yes. Says yes (IsNotRead Named.Two octets.now refusal)) }
{
    let mut source = FromSlice::new(octets);
    match read_normal(alloc, Profile::Module, &mut source) {
        Ok(Some(_)) => Ok(true),
        Ok(None) => Ok(false),
        Err(ReadFailure::Refused(other)) if other.at > refusal.at => Ok(true),
        Err(ReadFailure::Refused(_)) => Ok(false),
        Err(ReadFailure::OutOfMemory) => Err(AllocError),
        Err(ReadFailure::ReadFault) => unreachable!(),
    }
}

/// Tells whether a cause is that a limit is passed, or that the profile leaves a part out.
fn is_limit(cause: Cause) -> bool
    ensures { result ≡ is_limit cause }
{
    matches!(
        cause,
        Cause::TooLong
            | Cause::TooDeep
            | Cause::LeftOut(_)
            | Cause::IntegerTooLong
            | Cause::NormalTooLong
    )
}
