//! Texts of ILL-Strings.
ghost use Rattle.std.specs.Prelude.{◌≡◌, ◌+◌, ◌≤◌, List, ℕ, IsTrue, length, true};
ghost use Rattle.std.specs.List.{between, list_all};
ghost use Rattle.ber_leaf.specs.Profile.{is_graphic};
ghost use Rattle.ill_grammar.specs.LeafTypes.{IsContentIn, leaf_is};
ghost use Rattle.ill_tables.specs.declared.profile.Profile.{Profile as Named};
ghost use Rattle.ill_read.specs.code.Usual.{IsStringType, Puts};

use super::writing::copy;
use ill_grammar::LeafType;
use ill_schema::Profile;
use std::simd::prelude::*;

/// The number of octets that are copied at once.
const BLOCK_LEN: usize = 16;

/// Copies the text of a string, and tells whether it is right.
#[inline(always)]
pub(super) fn put_text(
    octets: &[u8],
    at: usize,
    size: usize,
    leaf: LeafType,
    out: &mut [u8],
    to: usize,
) -> bool
    requires string { IsStringType leaf }
    requires within { at + size ≤ length octets.now }
    requires room { to + size + BLOCK_LEN ≤ length out.old }
    ensures room { length out.new ≡ length out.old }
    ensures put { Puts out.old out.new to (to + size) (between at (at + size) octets.now) }
    ensures right { IsTrue result → (p : Named)
        → IsContentIn p (leaf_is leaf) (between at (at + size) octets.now) }
{
    if size <= BLOCK_LEN && octets.len() - at >= BLOCK_LEN {
        copy_block(octets, at, out, to);
        if is_graphic_front(octets, at, size) {
            return true;
        }
    }
    put_any_text(&octets[at..at + size], leaf, out, to)
}

/// Copies the text of a string, and tells whether it is right, octet by octet.
#[inline(never)]
fn put_any_text(text: &[u8], leaf: LeafType, out: &mut [u8], to: usize) -> bool
    requires string { IsStringType leaf }
    requires room { to + length text.now ≤ length out.old }
    ensures put { Puts out.old out.new to (to + length text.now) text.now }
    ensures right { IsTrue result → (p : Named) → IsContentIn p (leaf_is leaf) text.now }
{
    copy(text, out, to);
    leaf.fault(Profile::Two, text).is_none()
}

/// Copies a block.
#[inline(always)]
fn copy_block(octets: &[u8], at: usize, out: &mut [u8], to: usize)
    requires octets { at + BLOCK_LEN ≤ length octets.now }
    requires room { to + BLOCK_LEN ≤ length out.old }
    ensures { Puts out.old out.new to (to + BLOCK_LEN) (between at (at + BLOCK_LEN) octets.now) }
{
    u8x16::from_slice(&octets[at..at + BLOCK_LEN]).copy_to_slice(&mut out[to..to + BLOCK_LEN]);
}

/// Tells whether the first octets of a block are graphic ones of ASCII or the space. False says nothing.
#[inline(always)]
fn is_graphic_front(octets: &[u8], at: usize, size: usize) -> bool
    requires octets { at + BLOCK_LEN ≤ length octets.now }
    requires few { size ≤ BLOCK_LEN }
    ensures { IsTrue result
        → list_all is_graphic (between at (at + size) octets.now) ≡ true }
{
    let block = u8x16::from_slice(&octets[at..]);
    let others = block.simd_lt(u8x16::splat(0x20)) | block.simd_ge(u8x16::splat(0x7F));
    others.to_bitmask().trailing_zeros() as usize >= size
}
