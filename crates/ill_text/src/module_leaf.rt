//! Leaves of the module profile as lines.
ghost use Rattle.std.specs.Prelude.{◌≡◌, ◌≤◌, ◌<◌, ℕ, ◌+◌, ◌-◌, ◌*◌, ◌/◌, ◌^◌, min, true, List, [], ◌∷◌, ◌++◌, codes, decimal, flat_map, length, map, take, IsTrue, MatchOption, IfSome};
ghost use Rattle.std.specs.List.{list_all};
ghost use Rattle.ber_leaf.specs.Leaf.{bit_count, bit_octets, bit_string, cleared, cleared_last, is_bits, value};
ghost use Rattle.ber_leaf.specs.Profile.{is_graphic};
ghost use Rattle.ill_tables.specs.declared.profile.Profile.{Profile as Named};
ghost use Rattle.ill_grammar.specs.LeafTypes.{IsContentIn, module_leaf_is};
ghost use Rattle.ill_grammar.specs.declared.outline.Mark.{Mark};
ghost use Rattle.ill_schema.specs.Texts.{after_dot, hexadecimal, oid_components, oid_text, with_dots};
ghost use Rattle.ill_text.specs.Shown.{content_text, leaf_text, line};
ghost use Rattle.ill_grammar.specs.Identifiers.{are_short, numbers_in};
ghost use Rattle.ill_grammar.specs.Marks.{leading_octets, octets_in};
ghost use Rattle.ill_text.specs.code.Bits.{filled_text};
ghost use Rattle.ill_text.specs.code.Sending.{Adds, sending};
ghost use Rattle.ill_text.specs.code.FieldPaths.{path_of};

use crate::field_path::{FieldPath, put_line, put_path};
use crate::leaf::{put_escaped, put_quoted};
use crate::text_sink::TextSink;
use ber_core::Sink;
use ill_grammar::{ModuleLeaf, ValueKind, are_short, leading_octets, next_number};
use ill_read::Mark;
use ill_schema::hexadecimal_digits;
use itoa::Buffer;

/// Puts the line of a leaf whose octets the marks begin with, and returns how many octets it has.
pub fn put_module_leaf<W: Sink>(
    leaf: ModuleLeaf,
    marks: &[Mark],
    path: &FieldPath<'_>,
    out: &mut TextSink,
    sink: &mut W,
) -> usize
    ensures exact { result ≡ leading_octets marks.now }
    ensures within { result ≤ length marks.now }
    ensures adds { (p : Named) (name : List ℕ)
        → IsContentIn p (module_leaf_is leaf) (octets_in (take result marks.now))
        → Adds (line (path_of path.now)
        (leaf_text name (value (module_leaf_is leaf) (octets_in (take result marks.now)))))
        (sending (W.contents sink.old) (W.is_broken sink.old) out.old)
        (sending (W.contents sink.new) (W.is_broken sink.new) out.new) }
    ensures stays { IsTrue (W.is_broken sink.old) → IsTrue (W.is_broken sink.new) }
{
    match leaf.value_kind() {
        ValueKind::Null => {
            put_line(path, b"NULL", out, sink);
            leading_octets(marks)
        }
        ValueKind::Identifier => put_object_identifier(path, marks, out, sink),
        ValueKind::Octets => put_octet_string(path, marks, out, sink),
        ValueKind::Text => put_quoted(path, "descriptor \"", marks, out, sink),
    }
}

/// Puts the line of a BIT STRING whose octets the marks begin with, and returns how many octets it has.
pub fn put_bits<W: Sink>(
    marks: &[Mark],
    path: &FieldPath<'_>,
    out: &mut TextSink,
    sink: &mut W,
) -> usize
    ensures exact { result ≡ leading_octets marks.now }
    ensures within { result ≤ length marks.now }
    ensures adds { (p : Named) (name : List ℕ)
        → IsContentIn p bit_string (octets_in (take result marks.now))
        → Adds (line (path_of path.now)
        (leaf_text name (value bit_string (octets_in (take result marks.now)))))
        (sending (W.contents sink.old) (W.is_broken sink.old) out.old)
        (sending (W.contents sink.new) (W.is_broken sink.new) out.new) }
    ensures stays { IsTrue (W.is_broken sink.old) → IsTrue (W.is_broken sink.new) }
{
    let count = leading_octets(marks);
    let _ = put_path(path, out, sink);
    out.put(sink, b" = bits ");
    put_bit_content(&marks[..count], out, sink);
    out.put(sink, b"\n");
    count
}

/// Puts how many bits there are, and the octets that they fill.
fn put_bit_content<W: Sink>(marks: &[Mark], out: &mut TextSink, sink: &mut W)
    ensures adds { (octets : List ℕ) → IsTrue (is_bits octets) → marks.now ≡ map Mark.Octet octets
        → Adds (decimal (bit_count octets) ++ filled_text (bit_octets octets))
        (sending (W.contents sink.old) (W.is_broken sink.old) out.old)
        (sending (W.contents sink.new) (W.is_broken sink.new) out.new) }
    ensures stays { IsTrue (W.is_broken sink.old) → IsTrue (W.is_broken sink.new) }
{
    let Some((first, filled)) = marks.split_first() else {
        return;
    };
    let Mark::Octet(unused) = *first else {
        return;
    };
    let number = (8 * filled.len() as u128).saturating_sub(unused as u128);
    let mut buffer = Buffer::new();
    out.put(sink, buffer.format(number).as_bytes());
    put_filled(unused, filled, out, sink);
}

/// Puts the octets that bits fill, if there are any, with the unused bits 0.
fn put_filled<W: Sink>(unused: u8, marks: &[Mark], out: &mut TextSink, sink: &mut W)
    ensures adds { (octets : List ℕ) → unused ≤ 7 → marks.now ≡ map Mark.Octet octets
        → Adds (filled_text (cleared_last unused octets))
        (sending (W.contents sink.old) (W.is_broken sink.old) out.old)
        (sending (W.contents sink.new) (W.is_broken sink.new) out.new) }
    ensures stays { IsTrue (W.is_broken sink.old) → IsTrue (W.is_broken sink.new) }
{
    let Some((last, front)) = marks.split_last() else {
        return;
    };
    out.put(sink, b" ");
    put_hexadecimal(front, out, sink);
    put_last(unused, *last, out, sink);
}

/// Puts the last octet that bits fill.
fn put_last<W: Sink>(unused: u8, mark: Mark, out: &mut TextSink, sink: &mut W)
    ensures adds { (octet : ℕ) → unused ≤ 7 → mark ≡ Mark.Octet octet
        → Adds (hexadecimal (cleared unused octet ∷ []))
        (sending (W.contents sink.old) (W.is_broken sink.old) out.old)
        (sending (W.contents sink.new) (W.is_broken sink.new) out.new) }
    ensures stays { IsTrue (W.is_broken sink.old) → IsTrue (W.is_broken sink.new) }
{
    match mark {
        Mark::Octet(octet) => put_digits(cleared(unused, octet), out, sink),
        _ => {}
    }
}

/// The octet with its unused bits, the last ones, set to 0.
fn cleared(unused: u8, octet: u8) -> u8
    ensures { unused ≤ 7 → result ≡ cleared unused octet }
{
    let unused = unused.min(7);
    octet >> unused << unused
}

/// Puts the line of an OBJECT IDENTIFIER whose octets the marks begin with, and returns how many octets it has.
fn put_object_identifier<W: Sink>(
    path: &FieldPath<'_>,
    marks: &[Mark],
    out: &mut TextSink,
    sink: &mut W,
) -> usize
    ensures exact { result ≡ leading_octets marks.now }
    ensures within { result ≤ length marks.now }
    ensures adds { Adds (line (path_of path.now) (oid_text (octets_in (take result marks.now))))
        (sending (W.contents sink.old) (W.is_broken sink.old) out.old)
        (sending (W.contents sink.new) (W.is_broken sink.new) out.new) }
    ensures stays { IsTrue (W.is_broken sink.old) → IsTrue (W.is_broken sink.new) }
{
    let count = leading_octets(marks);
    let _ = put_path(path, out, sink);
    out.put(sink, b" = ");
    put_oid(&marks[..count], out, sink);
    out.put(sink, b"\n");
    count
}

/// Puts the line of an OCTET STRING whose octets the marks begin with, and returns how many octets it has.
fn put_octet_string<W: Sink>(
    path: &FieldPath<'_>,
    marks: &[Mark],
    out: &mut TextSink,
    sink: &mut W,
) -> usize
    ensures exact { result ≡ leading_octets marks.now }
    ensures within { result ≤ length marks.now }
    ensures adds { Adds (line (path_of path.now)
        (codes "octets " ++ content_text (octets_in (take result marks.now))))
        (sending (W.contents sink.old) (W.is_broken sink.old) out.old)
        (sending (W.contents sink.new) (W.is_broken sink.new) out.new) }
    ensures stays { IsTrue (W.is_broken sink.old) → IsTrue (W.is_broken sink.new) }
{
    let count = leading_octets(marks);
    let _ = put_path(path, out, sink);
    out.put(sink, b" = octets ");
    put_content(&marks[..count], out, sink);
    out.put(sink, b"\n");
    count
}

/// Puts octets of no known meaning: in quotation marks where all are printable ASCII, else in hexadecimal.
pub fn put_content<W: Sink>(marks: &[Mark], out: &mut TextSink, sink: &mut W)
    ensures adds { (octets : List ℕ) → marks.now ≡ map Mark.Octet octets
        → Adds (content_text octets)
        (sending (W.contents sink.old) (W.is_broken sink.old) out.old)
        (sending (W.contents sink.new) (W.is_broken sink.new) out.new) }
    ensures stays { IsTrue (W.is_broken sink.old) → IsTrue (W.is_broken sink.new) }
{
    if !are_graphic(marks) {
        put_hexadecimal(marks, out, sink);
        return;
    }
    out.put(sink, b"\"");
    let _ = put_escaped(marks, out, sink);
    out.put(sink, b"\"");
}

/// Tells whether all octets are printable ASCII.
fn are_graphic(marks: &[Mark]) -> bool
    ensures { result ≡ list_all is_graphic (octets_in marks.now) }
{
    for mark in marks {
        if !is_graphic(*mark) {
            return false;
        }
    }
    true
}

fn is_graphic(mark: Mark) -> bool
    ensures { result ≡ list_all is_graphic (octets_in (mark ∷ [])) }
{
    match mark {
        Mark::Octet(octet) => 0x20 <= octet && octet <= 0x7E,
        _ => true,
    }
}

/// Puts each octet as two hexadecimal digits.
pub fn put_hexadecimal<W: Sink>(marks: &[Mark], out: &mut TextSink, sink: &mut W)
    ensures adds { Adds (hexadecimal (octets_in marks.now))
        (sending (W.contents sink.old) (W.is_broken sink.old) out.old)
        (sending (W.contents sink.new) (W.is_broken sink.new) out.new) }
    ensures stays { IsTrue (W.is_broken sink.old) → IsTrue (W.is_broken sink.new) }
{
    for mark in marks {
        put_mark_digits(*mark, out, sink);
    }
}

fn put_mark_digits<W: Sink>(mark: Mark, out: &mut TextSink, sink: &mut W)
    ensures adds { Adds (hexadecimal (octets_in (mark ∷ [])))
        (sending (W.contents sink.old) (W.is_broken sink.old) out.old)
        (sending (W.contents sink.new) (W.is_broken sink.new) out.new) }
    ensures stays { IsTrue (W.is_broken sink.old) → IsTrue (W.is_broken sink.new) }
{
    match mark {
        Mark::Octet(octet) => put_digits(octet, out, sink),
        _ => {}
    }
}

/// Puts an octet as two hexadecimal digits.
fn put_digits<W: Sink>(octet: u8, out: &mut TextSink, sink: &mut W)
    ensures adds { Adds (hexadecimal (octet ∷ []))
        (sending (W.contents sink.old) (W.is_broken sink.old) out.old)
        (sending (W.contents sink.new) (W.is_broken sink.new) out.new) }
    ensures stays { IsTrue (W.is_broken sink.old) → IsTrue (W.is_broken sink.new) }
{
    out.put(sink, &hexadecimal_digits(octet));
}

/// Puts an OBJECT IDENTIFIER: in decimals, or in hexadecimal where a number takes more than 63 bits.
fn put_oid<W: Sink>(marks: &[Mark], out: &mut TextSink, sink: &mut W)
    ensures adds { Adds (oid_text (octets_in marks.now))
        (sending (W.contents sink.old) (W.is_broken sink.old) out.old)
        (sending (W.contents sink.new) (W.is_broken sink.new) out.new) }
    ensures stays { IsTrue (W.is_broken sink.old) → IsTrue (W.is_broken sink.new) }
{
    if are_short(marks) {
        put_components(marks, out, sink);
        return;
    }
    out.put(sink, b"oid ");
    put_hexadecimal(marks, out, sink);
}

/// Puts the components, of which the first number stands for two.
fn put_components<W: Sink>(marks: &[Mark], out: &mut TextSink, sink: &mut W)
    ensures adds { are_short (numbers_in marks.now) ≡ true
        → Adds (with_dots (oid_components (numbers_in marks.now)))
        (sending (W.contents sink.old) (W.is_broken sink.old) out.old)
        (sending (W.contents sink.new) (W.is_broken sink.new) out.new) }
    ensures stays { IsTrue (W.is_broken sink.old) → IsTrue (W.is_broken sink.new) }
{
    let Some((number, rest)) = next_number(marks) else {
        return;
    };
    put_first_two(number, out, sink);
    put_numbers(rest, out, sink);
}

/// Puts the two components for which the first number stands.
fn put_first_two<W: Sink>(number: u64, out: &mut TextSink, sink: &mut W)
    ensures adds { Adds (decimal (min 2 (number / 40))
        ++ (codes "." ++ decimal (number - 40 * min 2 (number / 40))))
        (sending (W.contents sink.old) (W.is_broken sink.old) out.old)
        (sending (W.contents sink.new) (W.is_broken sink.new) out.new) }
    ensures stays { IsTrue (W.is_broken sink.old) → IsTrue (W.is_broken sink.new) }
{
    let first = (number / 40).min(2);
    let mut buffer = Buffer::new();
    out.put(sink, buffer.format(first).as_bytes());
    put_dotted(number - 40 * first, out, sink);
}

/// Puts each number after a dot.
fn put_numbers<W: Sink>(marks: &[Mark], out: &mut TextSink, sink: &mut W)
    ensures adds { are_short (numbers_in marks.now) ≡ true
        → Adds (flat_map after_dot (numbers_in marks.now))
        (sending (W.contents sink.old) (W.is_broken sink.old) out.old)
        (sending (W.contents sink.new) (W.is_broken sink.new) out.new) }
    ensures stays { IsTrue (W.is_broken sink.old) → IsTrue (W.is_broken sink.new) }
{
    let mut left = marks;
    'numbers: while let Some((number, rest)) = next_number(left) {
        put_dotted(number, out, sink);
        left = rest;
    }
}

fn put_dotted<W: Sink>(number: u64, out: &mut TextSink, sink: &mut W)
    ensures adds { Adds (after_dot number)
        (sending (W.contents sink.old) (W.is_broken sink.old) out.old)
        (sending (W.contents sink.new) (W.is_broken sink.new) out.new) }
    ensures stays { IsTrue (W.is_broken sink.old) → IsTrue (W.is_broken sink.new) }
{
    let mut buffer = Buffer::new();
    out.put(sink, b".");
    out.put(sink, buffer.format(number).as_bytes());
}
