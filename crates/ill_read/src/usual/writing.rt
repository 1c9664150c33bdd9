//! Octets written from an offset on, into memory that is at hand.
ghost use Rattle.std.specs.Prelude.{◌≡◌, ◌+◌, ◌-◌, ◌≤◌, ◌<◌, [], ◌∷◌, ◌++◌, List, ℕ, IfSome, IsTrue, length, drop, take};
ghost use Rattle.std.specs.List.{between};
ghost use Rattle.ber_tree.specs.Length.{shortest_length};
ghost use Rattle.ill_read.specs.code.Usual.{Puts};

use der_buffer::put_length;
use std::simd::prelude::*;

/// The number of octets that are free behind what was written, where an element begins.
pub(super) const FREE_LEN: usize = 40;

/// The number of octets that an element may take in the output beside its contents, with those that are free behind it.
pub(super) const ROOM: usize = 64;

/// Tells whether contents of this size fit from an offset on, with what an element takes beside them.
#[inline(always)]
pub(super) fn has_room(out: &[u8], to: usize, size: usize) -> bool
    requires { (to ≤ length out.now) × (size ≤ 1_048_576) }
    ensures { IsTrue result → to + size + ROOM ≤ length out.now }
{
    out.len() - to >= size + ROOM
}

/// Writes one octet.
#[inline(always)]
pub(super) fn put_octet(out: &mut [u8], to: usize, octet: u8)
    requires { to < length out.old }
    ensures put { Puts out.old out.new to (to + 1) (octet ∷ []) }
    ensures behind { drop (to + 1) out.new ≡ drop (to + 1) out.old }
{
    out[to] = octet;
}

/// Copies two octets at once.
#[inline(always)]
pub(super) fn copy_two(octets: &[u8], at: usize, out: &mut [u8], to: usize)
    requires octets { at + 2 ≤ length octets.now }
    requires room { to + 2 ≤ length out.old }
    ensures { Puts out.old out.new to (to + 2) (between at (at + 2) octets.now) }
{
    u8x2::from_slice(&octets[at..at + 2]).copy_to_slice(&mut out[to..to + 2]);
}

/// Copies any number of octets.
#[inline(always)]
pub(super) fn copy(octets: &[u8], out: &mut [u8], to: usize)
    requires room { to + length octets.now ≤ length out.old }
    ensures put { Puts out.old out.new to (to + length octets.now) octets.now }
    ensures behind { drop (to + length octets.now) out.new
        ≡ drop (to + length octets.now) out.old }
{
    out[to..to + octets.len()].copy_from_slice(octets);
}

/// Writes a length in the fewest octets (X.690, 10.1), and returns where it ends.
#[inline(always)]
pub(super) fn write_length(out: &mut [u8], to: usize, size: usize) -> usize
    requires { to + 9 ≤ length out.old }
    ensures put { Puts out.old out.new to result (shortest_length size) }
    ensures few { result ≤ to + 9 }
{
    if size < 128 {
        put_octet(out, to, size as u8);
        return to + 1;
    }
    write_long_length(out, to, size)
}

/// Writes a length of 128 or more, and returns where it ends.
#[inline(never)]
fn write_long_length(out: &mut [u8], to: usize, size: usize) -> usize
    requires { to + 9 ≤ length out.old }
    ensures put { Puts out.old out.new to result (shortest_length size) }
    ensures few { result ≤ to + 9 }
{
    let mut room = [0; 9];
    let first = put_length(size, &mut room);
    copy(&room[first..], out, to);
    to + (9 - first)
}

/// The contents of a constructed element, as they were written: where its length is to stand, and where they begin and end.
#[derive(Clone, Copy)]
pub(super) struct Written {
    pub length_at: usize,
    pub start: usize,
    pub end: usize,
}

/// Writes the length of contents before them, and returns where they end then. None where there is no room.
#[inline(always)]
pub(super) fn close(out: &mut [u8], written: Written) -> Option<usize>
    requires order { (written.length_at ≤ written.start) × (written.start ≤ written.end) }
    requires free { written.end + FREE_LEN ≤ length out.old }
    ensures room { length out.new ≡ length out.old }
    ensures free { IfSome result (λ end. end + FREE_LEN ≤ length out.new) }
    ensures put { IfSome result (λ end. Puts out.old out.new written.length_at end
        (shortest_length (written.end - written.start)
        ++ between written.start written.end out.old)) }
{
    let size = written.end - written.start;
    if size < 128 && written.start == written.length_at + 1 {
        put_octet(out, written.length_at, size as u8);
        return Some(written.end);
    }
    move_behind_length(out, written.length_at, written.start, size)
}

/// Does the same where the length takes another number of octets than were left for it, or more than one. The contents are `size` octets from
/// the offset `from` on.
#[inline(never)]
fn move_behind_length(out: &mut [u8], length_at: usize, from: usize, size: usize) -> Option<usize>
    requires order { length_at ≤ from }
    requires room { from + size ≤ length out.old }
    ensures room { length out.new ≡ length out.old }
    ensures free { IfSome result (λ end. end + FREE_LEN ≤ length out.new) }
    ensures put { IfSome result (λ end. Puts out.old out.new length_at end
        (shortest_length size ++ between from (from + size) out.old)) }
{
    let mut room = [0; 9];
    let first = put_length(size, &mut room);
    let start = length_at + (9 - first);
    if out.len() - size < start + FREE_LEN {
        return None;
    }
    move_to(out, from, size, start);
    copy(&room[first..], out, length_at);
    Some(start + size)
}

/// Moves contents of `size` octets from one offset to another.
#[inline(always)]
fn move_to(out: &mut [u8], from: usize, size: usize, to: usize)
    requires room { (from + size ≤ length out.old) × (to + size ≤ length out.old) }
    ensures room { length out.new ≡ length out.old }
    ensures before { (n : ℕ) → n ≤ to → n ≤ from → take n out.new ≡ take n out.old }
    ensures moved { between to (to + size) out.new ≡ between from (from + size) out.old }
{
    if to != from {
        out.copy_within(from..from + size, to);
    }
}
