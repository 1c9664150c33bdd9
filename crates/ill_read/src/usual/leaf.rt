//! Leaves of usual elements.
ghost use Rattle.std.specs.Prelude.{◌≡◌, ◌+◌, ◌<◌, ◌≤◌, ◌++◌, [], ◌∷◌, IfSome, Some, length};
ghost use Rattle.ber_leaf.specs.Leaf.{normal_content, value};
ghost use Rattle.ber_tree.specs.Length.{shortest_length};
ghost use Rattle.ill_grammar.specs.LeafTypes.{IsContentIn, leaf_is};
ghost use Rattle.ill_grammar.specs.declared.leaf_type.LeafType.{LeafType as Leaf};
ghost use Rattle.ill_tables.specs.declared.profile.Profile.{Profile as Named};
ghost use Rattle.ill_read.specs.code.Usual.{IsElementRead, IsLeafPut, IsNumberType, IsOrdered, Puts, kind_leaf};

use super::header::{Header, Length, length_at};
use super::input::{Input, Reach};
use super::writing::{FREE_LEN, copy, has_room, put_octet, write_length};
use ill_grammar::{LeafType, NO_DEFAULT, UsualKind};
use ill_schema::Profile;

/// Writes a BOOLEAN, unless it is its row's default, and returns where it ends.
#[inline(always)]
fn put_flag(header: Header, content: &[u8], out: &mut [u8]) -> Option<usize>
    requires order { IsOrdered header (length content.now) out.old }
    ensures room { length out.new ≡ length out.old }
    ensures few { IfSome result (λ end. end ≤ header.length.written + length content.now + 9) }
    ensures put { IfSome result (IsLeafPut LeafType.Boolean header content.now
        out.old out.new) }
{
    let [octet] = content else {
        return None;
    };
    if header.element.is_default(LeafType::Boolean, content) {
        return Some(header.from.written);
    }
    let normal = if *octet == 0 { 0x00 } else { 0xFF };
    Some(put_single(out, header.length.written, normal))
}

/// Writes an INTEGER or ENUMERATED, unless it is its row's default, and returns where it ends.
#[inline(always)]
fn put_number(header: Header, leaf: LeafType, content: &[u8], out: &mut [u8]) -> Option<usize>
    requires number { IsNumberType leaf }
    requires order { IsOrdered header (length content.now) out.old }
    ensures room { length out.new ≡ length out.old }
    ensures few { IfSome result (λ end. end ≤ header.length.written + length content.now + 9) }
    ensures put { IfSome result (IsLeafPut leaf header content.now out.old out.new) }
{
    let [octet] = content else {
        return put_other(header, leaf, content, out);
    };
    if header.element.is_default(leaf, content) {
        return Some(header.from.written);
    }
    Some(put_single(out, header.length.written, *octet))
}

/// Writes a content of one octet with its length, and returns where it ends.
#[inline(always)]
fn put_single(out: &mut [u8], to: usize, octet: u8) -> usize
    requires { to + 2 ≤ length out.old }
    ensures few { result ≡ to + 2 }
    ensures put { Puts out.old out.new to result (1 ∷ octet ∷ []) }
{
    put_octet(out, to, 1);
    put_octet(out, to + 1, octet);
    to + 2
}

/// Writes another leaf, where its row has no default, and returns where it ends.
#[inline(always)]
fn put_other(header: Header, leaf: LeafType, content: &[u8], out: &mut [u8]) -> Option<usize>
    requires other { leaf ≡ LeafType.Boolean → ⊥ }
    requires order { IsOrdered header (length content.now) out.old }
    ensures room { length out.new ≡ length out.old }
    ensures few { IfSome result (λ end. end ≤ header.length.written + length content.now + 9) }
    ensures put { IfSome result (IsLeafPut leaf header content.now out.old out.new) }
{
    if header.element.default != NO_DEFAULT {
        return None;
    }
    let end = put_content(leaf, content, out, header.length.written)?;
    Some(end)
}

/// Writes the length and the contents of a leaf other than a BOOLEAN, where they are right, and returns where they end.
#[inline(never)]
fn put_content(leaf: LeafType, content: &[u8], out: &mut [u8], to: usize) -> Option<usize>
    requires other { leaf ≡ LeafType.Boolean → ⊥ }
    requires room { to + length content.now + 9 ≤ length out.old }
    ensures room { length out.new ≡ length out.old }
    ensures few { IfSome result (λ end. end ≤ to + length content.now + 9) }
    ensures right { IfSome result (λ end. (p : Named)
        → IsContentIn p (leaf_is leaf) content.now) }
    ensures put { IfSome result (λ end. Puts out.old out.new to end (shortest_length
        (length (normal_content (value (leaf_is leaf) content.now)))
        ++ normal_content (value (leaf_is leaf) content.now))) }
{
    if leaf.fault(Profile::Two, content).is_some() {
        return None;
    }
    let start = write_length(out, to, content.len());
    copy(content, out, start);
    Some(start + content.len())
}

/// Writes a leaf, unless it is its row's default, and returns where it ends.
#[inline(always)]
fn put_leaf(header: Header, content: &[u8], out: &mut [u8]) -> Option<usize>
    requires order { IsOrdered header (length content.now) out.old }
    ensures room { length out.new ≡ length out.old }
    ensures few { IfSome result (λ end. end ≤ header.length.written + length content.now + 9) }
    ensures put { IfSome result (λ end. (l : Leaf) × (kind_leaf header.element.kind ≡ Some l)
        × IsLeafPut l header content.now out.old out.new end) }
{
    match header.element.kind {
        UsualKind::Boolean => put_flag(header, content, out),
        UsualKind::Integer => put_number(header, LeafType::Integer, content, out),
        UsualKind::Enumerated => put_number(header, LeafType::Enumerated, content, out),
        UsualKind::Printable => put_other(header, LeafType::Printable, content, out),
        UsualKind::Date => put_other(header, LeafType::Date, content, out),
        UsualKind::Time => put_other(header, LeafType::Time, content, out),
        UsualKind::StringWrapper | UsualKind::Constructed => None,
    }
}

/// Reads a leaf, behind its identifier.
#[inline(always)]
pub(super) fn read_leaf(input: Input<'_>, header: Header, out: &mut [u8]) -> Option<Reach>
    requires within { (header.length.taken < input.bound) × IsOrdered header 0 out.old }
    ensures room { length out.new ≡ length out.old }
    ensures free { IfSome result (λ r. r.written + FREE_LEN ≤ length out.new) }
    ensures read { IfSome result (IsElementRead input.entry header out.old out.new) }
{
    let Length { size, contents } = length_at(input, header.length.taken)?;
    if size > input.bound - contents || !has_room(out, header.length.written, size) {
        return None;
    }
    let end = contents + size;
    let written = put_leaf(header, &input.octets[contents..end], out)?;
    Some(Reach {
        taken: end,
        written,
    })
}
