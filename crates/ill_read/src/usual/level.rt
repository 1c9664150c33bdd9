//! Open elements on the path of usual messages.
ghost use Rattle.std.specs.Prelude.{◌≡◌, ◌+◌, ◌-◌, ◌<◌, ◌≤◌, ◌^◌, ◌++◌, IfSome, None, false, length};
ghost use Rattle.std.specs.List.{between};
ghost use Rattle.ber_leaf.specs.Profile.{profile_two};
ghost use Rattle.ber_tree.specs.Length.{shortest_length};
ghost use Rattle.ill_refusals.specs.Next.{missing};
ghost use Rattle.ill_grammar.specs.Due.{next_is};
ghost use Rattle.ill_grammar.specs.code.Spots.{is_either, spot_next};
ghost use Rattle.ill_read.specs.code.Usual.{IsOrdered, Puts, mark_of};
ghost use Rattle.ill_read.specs.code.UsualLevels.{OpensIn};

use super::header::{Header, Length, length_at};
use super::input::{Input, Reach};
use super::writing::{FREE_LEN, Written, close, has_room};
use ill_grammar::Spot;
use ill_schema::Profile;

/// The number of elements that are open at once in the deepest usual message. A message with more of them is left to the reader.
pub(super) const MAX_LEVELS: usize = 10;

/// An element that is open, and what may come next in it. The message itself is in a level that has no header.
#[derive(Clone, Copy)]
pub(super) struct Level {
    pub spot: Spot,
    pub is_definite: bool,
    /// The offset that its contents don't pass. Those of a definite length end there.
    pub bound: u32,
    /// The offset in the output where its length is to stand.
    pub length_at: u32,
    /// The offset in the output where its contents begin, until their length is known.
    pub start: u32,
}

/// Where the reading of a message stands: in the innermost open element, up to these offsets.
#[derive(Clone, Copy)]
pub(super) struct Standing {
    pub level: Level,
    pub reach: Reach,
}

/// A level of no element. All its octets are zero, so that memory for levels is cleared at once.
impl Default for Level {
    #[inline(always)]
    fn default() -> Level {
        Level {
            spot: Spot::top_of(Profile::Module),
            is_definite: false,
            bound: 0,
            length_at: 0,
            start: 0,
        }
    }
}

/// The number of octets that are left for a length before contents of this size: a guess, which is right where these are read from DER.
#[inline(always)]
fn length_room(size: usize) -> usize
    ensures { (1 ≤ result) × (result ≤ 3) }
{
    if size < 0x80 {
        return 1;
    }
    long_length_room(size)
}

/// The same for contents of 128 octets or more.
#[inline(never)]
fn long_length_room(size: usize) -> usize
    ensures { (1 ≤ result) × (result ≤ 3) }
{
    if size < 0x100 {
        return 2;
    }
    3
}

/// Opens a constructed element, behind its identifier.
#[inline(always)]
pub(super) fn open_level(input: Input<'_>, header: Header, out: &[u8]) -> Option<Standing>
    requires within { (header.length.taken < input.bound) × IsOrdered header 0 out.now }
    requires few { length out.now < 2 ^ 32 }
    ensures { IfSome result (OpensIn input.entry header out.now) }
{
    let length = header.length;
    let spot = header.element.first;
    if input.octets[length.taken] == 0x80 {
        if !has_room(out, length.written, 0) {
            return None;
        }
        let start = length.written + 1;
        return Some(Standing {
            level: Level {
                spot,
                is_definite: false,
                bound: input.bound as u32,
                length_at: length.written as u32,
                start: start as u32,
            },
            reach: Reach {
                taken: length.taken + 1,
                written: start,
            },
        });
    }
    let Length { size, contents } = length_at(input, length.taken)?;
    if size > input.bound - contents || !has_room(out, length.written, size) {
        return None;
    }
    let start = length.written + length_room(size);
    Some(Standing {
        level: Level {
            spot,
            is_definite: true,
            bound: (contents + size) as u32,
            length_at: length.written as u32,
            start: start as u32,
        },
        reach: Reach {
            taken: contents,
            written: start,
        },
    })
}

/// Ends an element whose contents were read, and writes their length.
#[inline(always)]
pub(super) fn close_level(standing: Standing, out: &mut [u8]) -> Option<Reach>
    requires order { (standing.level.length_at ≤ standing.level.start)
        × (standing.level.start ≤ standing.reach.written) }
    requires free { standing.reach.written + FREE_LEN ≤ length out.old }
    requires taken { standing.reach.taken ≤ 1_048_576 }
    ensures room { length out.new ≡ length out.old }
    ensures free { IfSome result (λ r. r.written + FREE_LEN ≤ length out.new) }
    ensures complete { IfSome result (λ r. (missing profile_two
        (next_is (spot_next standing.level.spot)) ≡ None)
        × (is_either (spot_next standing.level.spot) ≡ false)) }
    ensures taken { IfSome result (λ r. r.taken
        ≡ standing.reach.taken + length (mark_of standing.level.is_definite)) }
    ensures put { IfSome result (λ r. Puts out.old out.new standing.level.length_at r.written
        (shortest_length (standing.reach.written - standing.level.start)
        ++ between standing.level.start standing.reach.written out.old)) }
{
    let Standing { level, reach } = standing;
    if !level.spot.is_complete() {
        return None;
    }
    let written = close(
        out,
        Written {
            length_at: level.length_at as usize,
            start: level.start as usize,
            end: reach.written,
        },
    )?;
    let taken = if level.is_definite {
        reach.taken
    } else {
        reach.taken + 2
    };
    Some(Reach { taken, written })
}
