//! Headers of usual elements, and where their contents end.
ghost use Rattle.std.specs.Prelude.{◌≡◌, ◌+◌, ◌<◌, ◌≤◌, IsTrue, IfSome, length, take};
ghost use Rattle.std.specs.List.{between};
ghost use Rattle.ber_tree.specs.Length.{IsLength};
ghost use Rattle.ill_grammar.specs.code.Spots.{IsUsualDue, spot_next};
ghost use Rattle.ill_read.specs.code.Usual.{EndsAt, IsHeaded, IsOrdered};

use super::input::{Input, Reach};
use super::writing::{FREE_LEN, copy_two};
use ber_core::{Len, LengthRead, length_after};
use ill_grammar::{Spot, UsualElement};

/// A usual element whose identifier was read and written, from an offset up to that of its length.
#[derive(Clone, Copy)]
pub(super) struct Header {
    pub element: UsualElement,
    pub from: Reach,
    pub length: Reach,
}

/// A usual element that begins, and the offset of its length.
#[derive(Clone, Copy)]
pub(super) struct Begun {
    pub element: UsualElement,
    pub length_at: usize,
}

/// A definite length, and the offset of the contents.
#[derive(Clone, Copy)]
pub(super) struct Length {
    pub size: usize,
    pub contents: usize,
}

/// The usual element whose identifier is at the offset.
#[inline(always)]
pub(super) fn begin(input: Input<'_>, at: usize, spot: Spot) -> Option<Begun>
    requires { at + 2 ≤ input.bound }
    ensures due { IfSome result (λ b. IsUsualDue (between at b.length_at input.entry.octets.now)
        (spot_next spot) b.element) }
    ensures within { IfSome result (λ b. (at < b.length_at) × (b.length_at ≤ at + 2)
        × (b.length_at < input.entry.bound)) }
{
    let first = input.octets[at];
    if let Some(element) = spot.find(first) {
        return Some(Begun {
            element,
            length_at: at + 1,
        });
    }
    if input.bound - at < 3 {
        return None;
    }
    let element = spot.find_long(first, input.octets[at + 1])?;
    Some(Begun {
        element,
        length_at: at + 2,
    })
}

/// Reads the identifier of the usual element that is due at the offset, and copies it.
#[inline(always)]
pub(super) fn read_identifier(
    input: Input<'_>,
    from: Reach,
    spot: Spot,
    out: &mut [u8],
) -> Option<Header>
    requires within { from.taken ≤ input.bound }
    requires free { from.written + FREE_LEN ≤ length out.old }
    ensures room { length out.new ≡ length out.old }
    ensures before { take from.written out.new ≡ take from.written out.old }
    ensures from { IfSome result (λ h. h.from ≡ from) }
    ensures order { IfSome result (λ h. (h.length.taken < input.entry.bound)
        × IsOrdered h 0 out.new) }
    ensures headed { IfSome result (λ h. IsHeaded (spot_next spot) input.entry h out.new) }
{
    if input.bound - from.taken < 2 {
        return None;
    }
    let begun = begin(input, from.taken, spot)?;
    copy_two(input.octets, from.taken, out, from.written);
    Some(Header {
        element: begun.element,
        from,
        length: Reach {
            taken: begun.length_at,
            written: from.written + (begun.length_at - from.taken),
        },
    })
}

/// The definite length at the offset.
#[inline(always)]
pub(super) fn length_at(input: Input<'_>, at: usize) -> Option<Length>
    requires { (0 < at) × (at < input.bound) }
    ensures within { IfSome result (λ l. (at < l.contents) × (l.contents ≤ input.entry.bound)) }
    ensures is { IfSome result (λ l. l.size ≤ 1_048_576
        → IsLength l.size (between at l.contents input.entry.octets.now)) }
{
    let first = input.octets[at];
    if first < 0x80 {
        return Some(Length {
            size: first as usize,
            contents: at + 1,
        });
    }
    long_length_at(input, at)
}

/// The definite length at the offset, in any number of octets.
#[inline(always)]
fn long_length_at(input: Input<'_>, at: usize) -> Option<Length>
    requires { (0 < at) × (at < input.bound) }
    ensures within { IfSome result (λ l. (at < l.contents) × (l.contents ≤ input.entry.bound)) }
    ensures is { IfSome result (λ l. l.size ≤ 1_048_576
        → IsLength l.size (between at l.contents input.entry.octets.now)) }
{
    let header = &input.octets[at - 1..input.bound];
    let LengthRead::Whole(Len::Definite(size), header_len) = length_after(header, false)? else {
        return None;
    };
    Some(Length {
        size: size as usize,
        contents: at - 1 + header_len as usize,
    })
}

/// Tells whether the contents of an element end at the offset: at the bound, or at an end mark.
#[inline(always)]
pub(super) fn ends_at(input: Input<'_>, at: usize, is_definite: bool) -> bool
    requires { at ≤ input.bound }
    ensures { IsTrue result → EndsAt is_definite input.entry.octets.now at input.entry.bound }
{
    if is_definite {
        return at == input.bound;
    }
    input.bound - at >= 2 && input.octets[at] == 0 && input.octets[at + 1] == 0
}
