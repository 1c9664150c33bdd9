//! ILL-Strings in their tags, on the path of usual messages.
ghost use Rattle.std.specs.Prelude.{◌≡◌, ◌+◌, ◌-◌, ◌<◌, ◌≤◌, ℕ, IsTrue, IfSome, get_or, length};
ghost use Rattle.std.specs.List.{between};
ghost use Rattle.ill_grammar.specs.declared.element.Element.{Element as CodeElement};
ghost use Rattle.ill_grammar.specs.declared.spot.UsualKind.TheVariants.{StringWrapper};
ghost use Rattle.ill_tables.specs.declared.profile.Profile.{Profile as Named};
ghost use Rattle.ill_read.specs.code.Usual.{HasAll, IsContentsRead, IsElementRead, IsOrdered, IsStringTag};

use super::header::{Header, Length, ends_at, length_at};
use super::input::{Input, Reach};
use super::text::put_text;
use super::writing::{FREE_LEN, Written, close, has_room, put_octet, write_length};
use ill_grammar::LeafType;

/// Reads the one string in the tag of an ILL-String, whose contents begin at the offset.
#[inline(always)]
fn read_string(input: Input<'_>, from: Reach, is_definite: bool, out: &mut [u8]) -> Option<Reach>
    requires order { (from.taken ≤ input.bound) × (from.written ≤ length out.old) }
    requires room { IsTrue is_definite
        → from.written + (input.bound - from.taken) + 63 ≤ length out.old }
    ensures room { length out.new ≡ length out.old }
    ensures free { IfSome result (λ r. r.written + FREE_LEN ≤ length out.new) }
    ensures read { IfSome result (IsContentsRead input.entry is_definite from out.old out.new) }
    ensures all { (p : Named) (e : CodeElement) (k : ℕ) → IsStringTag e → 0 < k
        → IfSome result (λ r. HasAll p e k (between from.taken r.taken input.entry.octets.now)
        (between from.written r.written out.new)) }
{
    if input.bound - from.taken < 2 {
        return None;
    }
    let first = input.octets[from.taken];
    let leaf = match first {
        0x1B => LeafType::General,
        0x1A => LeafType::Visible,
        _ => return None,
    };
    let Length { size, contents } = length_at(input, from.taken + 1)?;
    if size > input.bound - contents {
        return None;
    }
    let end = contents + size;
    if !ends_at(input, end, is_definite) {
        return None;
    }
    // Where the length is definite, there is room for all that is in the tag.
    if !is_definite && !has_room(out, from.written, size) {
        return None;
    }
    put_octet(out, from.written, first);
    let to = write_length(out, from.written + 1, size);
    if !put_text(input.octets, contents, size, leaf, out, to) {
        return None;
    }
    Some(Reach {
        taken: end,
        written: to + size,
    })
}

/// Reads a string in its tag, behind the identifier of the tag.
#[inline(always)]
pub(super) fn read_wrapped(input: Input<'_>, header: Header, out: &mut [u8]) -> Option<Reach>
    requires kind { header.element.kind ≡ StringWrapper }
    requires within { (header.length.taken < input.bound) × IsOrdered header 0 out.old }
    ensures room { length out.new ≡ length out.old }
    ensures free { IfSome result (λ r. r.written + FREE_LEN ≤ length out.new) }
    ensures read { IfSome result (IsElementRead input.entry header out.old out.new) }
{
    if input.octets[header.length.taken] == 0x80 {
        return read_indefinite(input, header, out);
    }
    let Length { size, contents } = length_at(input, header.length.taken)?;
    if size > input.bound - contents || !has_room(out, header.length.written, size) {
        return None;
    }
    let length_at = header.length.written;
    let from = Reach {
        taken: contents,
        written: length_at + 1,
    };
    let reach = read_string(input.up_to(contents + size), from, true, out)?;
    let written = close(
        out,
        Written {
            length_at,
            start: length_at + 1,
            end: reach.written,
        },
    )?;
    Some(Reach {
        taken: contents + size,
        written,
    })
}

/// Reads a string in its tag, where the length of the tag is indefinite.
#[inline(always)]
fn read_indefinite(input: Input<'_>, header: Header, out: &mut [u8]) -> Option<Reach>
    requires kind { header.element.kind ≡ StringWrapper }
    requires within { (header.length.taken < input.bound) × IsOrdered header 0 out.old }
    requires mark { get_or input.octets.now header.length.taken 0 ≡ 128 }
    ensures room { length out.new ≡ length out.old }
    ensures free { IfSome result (λ r. r.written + FREE_LEN ≤ length out.new) }
    ensures read { IfSome result (IsElementRead input.entry header out.old out.new) }
{
    let length_at = header.length.written;
    let from = Reach {
        taken: header.length.taken + 1,
        written: length_at + 1,
    };
    let reach = read_string(input, from, false, out)?;
    let written = close(
        out,
        Written {
            length_at,
            start: length_at + 1,
            end: reach.written,
        },
    )?;
    Some(Reach {
        taken: reach.taken + 2,
        written,
    })
}
