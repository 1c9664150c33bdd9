//! One message in memory.
ghost use Rattle.std.specs.Prelude.{IfOk};
ghost use Rattle.ill_schema.specs.Profiles.{profile_of};
ghost use Rattle.ill_dump.specs.Dumped.{IsJudged};

use crate::put::{put_check, put_head, put_refused_line};
use crate::run::DumpOptions;
use ill_normal::OnRefusal;
use ill_read::{Failure, decode_normal};
use ill_schema::{Cause, LIMIT, Profile, Refusal};
use ill_walk::{DumpFormat, ElementWalk, LineBuffer, Steps, UnjudgedWalk, put_refusal_lines};
use std::alloc::{AllocError, Global};

/// A message as it is spelled, and why it is refused, if it is.
#[derive(Drop)]
pub struct DumpedMessage {
    /// The line of the message and one for each element, and of octets that are refused the refusal in words, before the elements from its place on.
    pub text: Vec<u8>,
    /// The refusal of octets that are not exactly one message.
    pub refusal: Option<Refusal>,
}

/// Makes the lines of the message in the profile that the octets are, under a number, as [`run_dump`](crate::run_dump) writes them. Of
/// octets that are not exactly one message the elements before the place come, then the refusal in words, and then the elements from the place on,
/// in the first 1,048,576 octets.
///
/// # Errors
///
/// Memory ran out.
pub fn dump_message(
    alloc: Global,
    profile: Profile,
    number: u32,
    octets: &[u8],
) -> Result<DumpedMessage, AllocError>
    ensures { IfOk result (λ dumped. IsJudged (profile_of profile) octets.now dumped.refusal) }
{
    let dump = DumpOptions {
        profile,
        hex: false,
        name: "",
        names_input: false,
        only: None,
        format: DumpFormat::Text,
        on_refusal: OnRefusal::Stop,
    };
    let mut lines = LineBuffer::new(alloc, DumpFormat::Text);
    put_head(dump, number, &mut lines)?;
    match decode_normal(alloc, profile, octets) {
        Ok(normal) => {
            put_check(dump, octets, &normal.octets, &mut lines)?;
            let mut walk = ElementWalk::new(alloc, profile, octets.len());
            put_elements(&mut walk, octets, &mut lines)?;
            Ok(DumpedMessage {
                text: lines.octets,
                refusal: None,
            })
        }
        Err(Failure::Refused(refusal)) => {
            put_refused(alloc, profile, octets, refusal, &mut lines)?;
            Ok(DumpedMessage {
                text: lines.octets,
                refusal: Some(refusal),
            })
        }
        Err(Failure::OutOfMemory) => Err(AllocError),
    }
}

/// The rest of the lines of octets that are refused.
fn put_refused(
    alloc: Global,
    profile: Profile,
    octets: &[u8],
    refusal: Refusal,
    lines: &mut LineBuffer,
) -> Result<(), AllocError> {
    put_refused_line(lines)?;
    let mut walk = ElementWalk::new(alloc, profile, refusal.at as usize);
    put_elements(&mut walk, octets, lines)?;
    put_refusal_lines(alloc, lines, &walk, octets, refusal)?;
    if refusal.cause == Cause::NormalTooLong {
        return Ok(());
    }
    let mut rest = UnjudgedWalk::from_place(&walk, octets, refusal)?;
    let judged = octets.get(..LIMIT as usize).unwrap_or(octets);
    put_elements(&mut rest, judged, lines)
}

/// The lines of the elements on a way through them.
fn put_elements<S: Steps>(
    walk: &mut S,
    octets: &[u8],
    lines: &mut LineBuffer,
) -> Result<(), AllocError> {
    for _ in 0..=octets.len() {
        if !walk.step(octets, lines)? {
            return Ok(());
        }
    }
    Ok(())
}
