//! The path of usual messages: a message that is at hand whole, and has usual elements alone, is read straight to its normal form.
//!
//! All else gives None, which says nothing: the [`Reader`](crate::reader::Reader) reads the message then from its start.
ghost use Rattle.std.specs.Prelude.{◌≡◌, ◌+◌, ◌<◌, ◌≤◌, ◌^◌, [], ◌∷◌, IfOk, IfSome, OnSome, length, take};
ghost use Rattle.ill_schema.specs.Profiles.{profile_of};
ghost use Rattle.ill_tables.specs.declared.profile.Profile.{Profile as Named};
ghost use Rattle.ill_read.specs.code.Usual.{IsNormalFormOf};
ghost use Rattle.ill_read.specs.code.UsualLevels.{IsReading, level_after, to_read};

mod header;
mod input;
mod leaf;
mod level;
mod string;
mod text;
mod writing;

use arrayvec::ArrayVec;
use header::{ends_at, read_identifier};
use ill_grammar::{Spot, UsualKind};
use ill_schema::{LIMIT, Profile};
use input::{Input, Reach};
use leaf::read_leaf;
use level::{Level, MAX_LEVELS, Standing, close_level, open_level};
use std::alloc::AllocError;
use string::read_wrapped;
use writing::ROOM;

/// The number of octets of output memory beyond those of a message.
const SPARE_LEN: usize = 2 * ROOM;

/// The levels round the innermost one, outermost first.
type Levels = ArrayVec<Level, MAX_LEVELS>;

/// Reads the next element of the innermost level; one that is constructed up to its contents.
#[inline(always)]
fn read_next(input: Input<'_>, at: &mut Standing, levels: &mut Levels, out: &mut [u8]) -> Option<()>
    requires reading { (p : Named) × (top : Level)
        × IsReading p input (top ∷ levels.old.items) at.old out.old }
    requires few { length out.old < 2 ^ 32 }
    ensures room { length out.new ≡ length out.old }
    ensures reading { OnSome result ((p : Named) (top : Level)
        → IsReading p input.entry (top ∷ levels.old.items) at.old out.old
        → IsReading p input.entry (top ∷ levels.new.items) at.new out.new) }
    ensures less { OnSome result (to_read input.entry levels.new.items at.new
        < to_read input.entry levels.old.items at.old) }
{
    let inside = input.up_to(at.level.bound as usize);
    let header = read_identifier(inside, at.reach, at.level.spot, out)?;
    at.level.spot = header.element.after;
    match header.element.kind {
        UsualKind::Constructed => {
            if levels.is_full() {
                return None;
            }
            levels.push(at.level);
            *at = open_level(inside, header, out)?;
        }
        UsualKind::StringWrapper => at.reach = read_wrapped(inside, header, out)?,
        _ => at.reach = read_leaf(inside, header, out)?,
    }
    Some(())
}

/// Opens the element that is due in the level of the message, if it is constructed, and returns where it stands and the spot after it.
#[inline(always)]
fn open_message(input: Input<'_>, top: Standing, out: &mut [u8]) -> Option<(Standing, Spot)>
    requires reading { (p : Named) × IsReading p input [] top out.old }
    requires bound { top.level.bound ≡ input.bound }
    requires few { length out.old < 2 ^ 32 }
    ensures room { length out.new ≡ length out.old }
    ensures reading { IfSome result (λ it. (p : Named)
        → IsReading p input.entry [] top out.old
        → IsReading p input.entry (level_after top.level it.1 ∷ []) it.0 out.new) }
{
    let header = read_identifier(input, top.reach, top.level.spot, out)?;
    let UsualKind::Constructed = header.element.kind else {
        return None;
    };
    let at = open_level(input, header, out)?;
    Some((at, header.element.after))
}

/// Reads the one element that is due in the level of the message, with all that is in it.
#[inline(always)]
fn read_whole(input: Input<'_>, top: Standing, out: &mut [u8]) -> Option<Standing>
    requires reading { (p : Named) × IsReading p input [] top out.old }
    requires bound { top.level.bound ≡ input.bound }
    requires few { length out.old < 2 ^ 32 }
    ensures room { length out.new ≡ length out.old }
    ensures reading { IfSome result (λ at. (p : Named)
        → IsReading p input.entry [] top out.old
        → IsReading p input.entry [] at out.new) }
{
    let (mut at, after) = open_message(input, top, out)?;
    let mut levels = ArrayVec::new();
    loop {
        let inside = input.up_to(at.level.bound as usize);
        if !ends_at(inside, at.reach.taken, at.level.is_definite) {
            read_next(input, &mut at, &mut levels, out)?;
            continue;
        }
        let reach = close_level(at, out)?;
        let Some(level) = levels.pop() else {
            let level = Level {
                spot: after,
                ..top.level
            };
            return Some(Standing { level, reach });
        };
        at = Standing { level, reach };
    }
}

/// Reads the message at the front of the octets, where it has usual elements alone, and writes its normal form at the front of `out`. None
/// says nothing of the octets; some of `out` may have changed then.
fn read_usual(profile: Profile, input: Input<'_>, out: &mut [u8]) -> Option<Reach>
    requires room { input.bound + SPARE_LEN ≤ length out.old }
    ensures room { length out.new ≡ length out.old }
    ensures within { IfSome result (λ r. (r.taken ≤ length input.entry.octets.now)
        × (r.written ≤ length out.new)) }
    ensures normal { IfSome result (λ r. IsNormalFormOf (profile_of profile)
        (take r.written out.new) (take r.taken input.entry.octets.now)) }
{
    let top = Standing {
        level: Level {
            spot: Spot::top_of(profile),
            is_definite: true,
            bound: input.bound as u32,
            length_at: 0,
            start: 0,
        },
        reach: Reach {
            taken: 0,
            written: 0,
        },
    };
    let at = read_whole(input, top, &mut out[..input.bound + SPARE_LEN])?;
    if !at.level.spot.is_complete() || at.reach.written > LIMIT as usize {
        return None;
    }
    Some(at.reach)
}

/// Reads the message at the front of the octets, where it has usual elements alone, and puts its normal form into the buffer. Returns the
/// number of octets that the message has; None says nothing. The scratch memory is kept for the next message.
#[inline(always)]
pub(crate) fn usual_front(
    profile: Profile,
    octets: &[u8],
    scratch: &mut Vec<u8>,
    buffer: &mut Vec<u8>,
) -> Result<Option<usize>, AllocError>
    ensures taken { IfOk result (λ found. IfSome found (λ n. n ≤ length octets.now)) }
    ensures normal { IfOk result (λ found. IfSome found (λ n. IsNormalFormOf (profile_of profile)
        buffer.new.items (take n octets.now))) }
{
    let input = Input::front_of(octets);
    if scratch.len() < input.bound + SPARE_LEN {
        scratch.resize(input.bound + SPARE_LEN, 0)?;
    }
    let Some(reach) = read_usual(profile, input, scratch.as_mut_slice()) else {
        return Ok(None);
    };
    buffer.clear();
    buffer.extend_from_slice(&scratch[..reach.written])?;
    Ok(Some(reach.taken))
}

/// Does the same in the memory of the buffer alone.
pub(crate) fn usual_form(
    profile: Profile,
    octets: &[u8],
    buffer: &mut Vec<u8>,
) -> Result<Option<usize>, AllocError>
    ensures taken { IfOk result (λ found. IfSome found (λ n. n ≤ length octets.now)) }
    ensures normal { IfOk result (λ found. IfSome found (λ n. IsNormalFormOf (profile_of profile)
        buffer.new.items (take n octets.now))) }
{
    let input = Input::front_of(octets);
    buffer.clear();
    buffer.resize(input.bound + SPARE_LEN, 0)?;
    let Some(reach) = read_usual(profile, input, buffer.as_mut_slice()) else {
        return Ok(None);
    };
    buffer.truncate(reach.written);
    Ok(Some(reach.taken))
}
