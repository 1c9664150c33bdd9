//! Leaves as lines.
ghost use Rattle.std.specs.Prelude.{◌≡◌, ◌++◌, ◌<◌, ◌≤◌, [], length, codes, flat_map, take, ◌∷◌, IsTrue, MatchOption, None, Option, Some};
ghost use Rattle.std.specs.Fmt.{signed_decimal};
ghost use Rattle.ill_tables.specs.declared.profile.Profile.{Profile as Named};
ghost use Rattle.ber_leaf.specs.Leaf.{integer_of, value};
ghost use Rattle.ber_leaf.specs.Simple.{flag, whole};
ghost use Rattle.ill_schema.specs.Content.{Content};
ghost use Rattle.ill_schema.specs.Presence.{default_value};
ghost use Rattle.ill_tables.specs.Table.{kind_of};
ghost use Rattle.ill_tables.specs.declared.node.NodeId.{NodeId};
ghost use Rattle.ill_grammar.specs.LeafTypes.{IsContentIn, leaf_is};
ghost use Rattle.ill_grammar.specs.Outline.{IsAbsent};
ghost use Rattle.ill_text.specs.Shown.{escaped, in_brackets, is_named, leaf_text, line, text_name};
ghost use Rattle.ill_text.specs.Shown.{entry_text};
ghost use Rattle.ill_grammar.specs.Marks.{leading_octets, is_octet, octets_in};
ghost use Rattle.ill_text.specs.code.Sending.{Adds, sending};
ghost use Rattle.ill_text.specs.code.FieldPaths.{path_of, place_at};

use crate::field_path::{FieldPath, FieldPlace, put_line, put_path};
use crate::text_sink::TextSink;
use ber_core::Sink;
use ill_grammar::{is_octet, is_set, leading_octets, number_in};
use ill_read::{LeafType, Mark};
use ill_schema::{
    Kind, LeafKind, NodeId, PartId, Presence, hexadecimal_digits, kind, number_name, row,
};
use itoa::Buffer;

/// Puts the line of a leaf whose octets the marks begin with, at this place, and returns how many octets it has.
#[inline(always)]
pub fn put_leaf<W: Sink>(
    leaf: LeafType,
    marks: &[Mark],
    place: &FieldPlace<'_>,
    out: &mut TextSink,
    sink: &mut W,
) -> usize
    ensures exact { result ≡ leading_octets marks.now }
    ensures within { result ≤ length marks.now }
    ensures adds { (p : Named) → IsContentIn p (leaf_is leaf) (octets_in (take result marks.now))
        → Adds (line (path_of place.now.path.now)
        (leaf_text place.now.name.now (value (leaf_is leaf) (octets_in (take result marks.now)))))
        (sending (W.contents sink.old) (W.is_broken sink.old) out.old)
        (sending (W.contents sink.new) (W.is_broken sink.new) out.new) }
    ensures stays { IsTrue (W.is_broken sink.old) → IsTrue (W.is_broken sink.new) }
{
    match leaf {
        LeafType::Boolean => {
            let count = leading_octets(marks);
            put_line(place.path, flag_text(is_set(&marks[..count])), out, sink);
            count
        }
        LeafType::Integer => put_whole(place, marks, out, sink),
        LeafType::Enumerated => put_whole(place, marks, out, sink),
        LeafType::General => put_quoted(place.path, "general \"", marks, out, sink),
        LeafType::Visible => put_quoted(place.path, "visible \"", marks, out, sink),
        LeafType::Printable => put_quoted(place.path, "\"", marks, out, sink),
        LeafType::Date => put_plain(place.path, marks, out, sink),
        LeafType::Time => put_plain(place.path, marks, out, sink),
    }
}

/// Puts the line of the default of a row that is absent, if it has one.
pub fn put_default<W: Sink>(part: PartId, place: &FieldPlace<'_>, out: &mut TextSink, sink: &mut W)
    ensures adds { (e : Option Content) (node : NodeId) → IsAbsent part e
        → Adds (entry_text (place_at place.now.path.now place.now.name.now node) e)
        (sending (W.contents sink.old) (W.is_broken sink.old) out.old)
        (sending (W.contents sink.new) (W.is_broken sink.new) out.new) }
    ensures stays { IsTrue (W.is_broken sink.old) → IsTrue (W.is_broken sink.new) }
{
    let Some(row) = row(part) else {
        return;
    };
    let Presence::Default(number) = row.presence else {
        return;
    };
    put_value_of(row.node, number, place, out, sink);
}

/// Puts the line of the value that the number of a default stands for.
fn put_value_of<W: Sink>(
    node: NodeId,
    number: i64,
    place: &FieldPlace<'_>,
    out: &mut TextSink,
    sink: &mut W,
)
    ensures adds { Adds (line (path_of place.now.path.now)
        (leaf_text place.now.name.now (default_value (kind_of node) number)))
        (sending (W.contents sink.old) (W.is_broken sink.old) out.old)
        (sending (W.contents sink.new) (W.is_broken sink.new) out.new) }
    ensures stays { IsTrue (W.is_broken sink.old) → IsTrue (W.is_broken sink.new) }
{
    match kind(node) {
        Kind::Leaf(LeafKind::Boolean) => put_line(place.path, flag_text(number == 1), out, sink),
        _ => put_number(place, number, out, sink),
    }
}

fn flag_text(is_true: bool) -> &'static [u8]
    ensures { result.now ≡ leaf_text [] (flag is_true) }
{
    if is_true { b"TRUE" } else { b"FALSE" }
}

/// Puts a line with the number that the marks begin with, and returns how many octets it has.
fn put_whole<W: Sink>(
    place: &FieldPlace<'_>,
    marks: &[Mark],
    out: &mut TextSink,
    sink: &mut W,
) -> usize
    ensures exact { result ≡ leading_octets marks.now }
    ensures within { result ≤ length marks.now }
    ensures adds { 0 < length (octets_in (take result marks.now))
        → length (octets_in (take result marks.now)) ≤ 8
        → Adds (line (path_of place.now.path.now)
        (leaf_text place.now.name.now (whole (integer_of (octets_in (take result marks.now))))))
        (sending (W.contents sink.old) (W.is_broken sink.old) out.old)
        (sending (W.contents sink.new) (W.is_broken sink.new) out.new) }
    ensures stays { IsTrue (W.is_broken sink.old) → IsTrue (W.is_broken sink.new) }
{
    let count = leading_octets(marks);
    put_number(place, number_in(&marks[..count]), out, sink);
    count
}

/// Puts a line with a number, and its name in the row, if it has one.
fn put_number<W: Sink>(place: &FieldPlace<'_>, number: i64, out: &mut TextSink, sink: &mut W)
    ensures adds { Adds (line (path_of place.now.path.now)
        (signed_decimal number ++ in_brackets (text_name place.now.name.now number)))
        (sending (W.contents sink.old) (W.is_broken sink.old) out.old)
        (sending (W.contents sink.new) (W.is_broken sink.new) out.new) }
    ensures stays { IsTrue (W.is_broken sink.old) → IsTrue (W.is_broken sink.new) }
{
    let mut buffer = Buffer::new();
    let _ = put_path(place.path, out, sink);
    out.put(sink, b" = ");
    out.put(sink, buffer.format(number).as_bytes());
    put_name(place.name, number, out, sink);
    out.put(sink, b"\n");
}

/// Tells whether the numbers of a row of this name have their names in the text.
fn is_named(row: &str) -> bool
    ensures { result ≡ is_named row.now }
{
    matches!(
        row,
        "transaction-type"
            | "ill-service-type"
            | "place-on-hold"
            | "item-type"
            | "transaction-results"
    )
}

/// The name that the text has beside a number in a row, if it has one.
fn text_name(row: &str, number: i64) -> Option<&'static str>
    ensures { MatchOption result (text_name row.now number ≡ None)
        (λ name. text_name row.now number ≡ Some name.now) }
{
    if is_named(row) {
        number_name(row, number)
    } else {
        None
    }
}

/// Puts the name of a number in brackets, if it has one in the row.
fn put_name<W: Sink>(row: &str, number: i64, out: &mut TextSink, sink: &mut W)
    ensures adds { Adds (in_brackets (text_name row.now number))
        (sending (W.contents sink.old) (W.is_broken sink.old) out.old)
        (sending (W.contents sink.new) (W.is_broken sink.new) out.new) }
    ensures stays { IsTrue (W.is_broken sink.old) → IsTrue (W.is_broken sink.new) }
{
    match text_name(row, number) {
        Some(name) => {
            out.put(sink, b" (");
            out.put(sink, name.as_bytes());
            out.put(sink, b")");
        }
        None => {}
    }
}

/// Puts a line with the string that the marks begin with in quotation marks, after what it opens with, and returns how many octets it has.
#[inline(always)]
pub fn put_quoted<W: Sink>(
    path: &FieldPath<'_>,
    opening: &str,
    marks: &[Mark],
    out: &mut TextSink,
    sink: &mut W,
) -> usize
    ensures exact { result ≡ leading_octets marks.now }
    ensures within { result ≤ length marks.now }
    ensures adds { Adds (line (path_of path.now)
        (opening.now ++ (flat_map escaped (octets_in (take result marks.now)) ++ codes "\"")))
        (sending (W.contents sink.old) (W.is_broken sink.old) out.old)
        (sending (W.contents sink.new) (W.is_broken sink.new) out.new) }
    ensures stays { IsTrue (W.is_broken sink.old) → IsTrue (W.is_broken sink.new) }
{
    let _ = put_path(path, out, sink);
    out.put(sink, b" = ");
    out.put(sink, opening.as_bytes());
    let count = put_escaped(marks, out, sink);
    out.put(sink, b"\"\n");
    count
}

/// Puts the octets that come first, escaped, and returns how many there are.
pub fn put_escaped<W: Sink>(marks: &[Mark], out: &mut TextSink, sink: &mut W) -> usize
    ensures exact { result ≡ leading_octets marks.now }
    ensures within { result ≤ length marks.now }
    ensures adds { Adds (flat_map escaped (octets_in (take result marks.now)))
        (sending (W.contents sink.old) (W.is_broken sink.old) out.old)
        (sending (W.contents sink.new) (W.is_broken sink.new) out.new) }
    ensures stays { IsTrue (W.is_broken sink.old) → IsTrue (W.is_broken sink.new) }
{
    let mut count = 0;
    for mark in marks {
        if !is_octet(*mark) {
            return count;
        }
        put_escaped_mark(*mark, out, sink);
        count += 1;
    }
    count
}

fn put_escaped_mark<W: Sink>(mark: Mark, out: &mut TextSink, sink: &mut W)
    ensures adds { Adds (flat_map escaped (octets_in (mark ∷ [])))
        (sending (W.contents sink.old) (W.is_broken sink.old) out.old)
        (sending (W.contents sink.new) (W.is_broken sink.new) out.new) }
    ensures stays { IsTrue (W.is_broken sink.old) → IsTrue (W.is_broken sink.new) }
{
    match mark {
        Mark::Octet(octet) => put_octet(octet, out, sink),
        _ => {}
    }
}

fn put_octet<W: Sink>(octet: u8, out: &mut TextSink, sink: &mut W)
    ensures adds { Adds (escaped octet) (sending (W.contents sink.old) (W.is_broken sink.old)
        out.old) (sending (W.contents sink.new) (W.is_broken sink.new) out.new) }
    ensures stays { IsTrue (W.is_broken sink.old) → IsTrue (W.is_broken sink.new) }
{
    match octet {
        b' ' | b'!' | b'#'..=b'[' | b']'..=b'~' => out.put_octet(sink, octet),
        _ => put_escape(octet, out, sink),
    }
}

/// Puts an octet, escaped where it has to be.
#[inline(never)]
fn put_escape<W: Sink>(octet: u8, out: &mut TextSink, sink: &mut W)
    ensures adds { Adds (escaped octet) (sending (W.contents sink.old) (W.is_broken sink.old)
        out.old) (sending (W.contents sink.new) (W.is_broken sink.new) out.new) }
    ensures stays { IsTrue (W.is_broken sink.old) → IsTrue (W.is_broken sink.new) }
{
    match octet {
        b'"' | b'\\' => out.put(sink, &[b'\\', octet]),
        b' '..=b'~' => out.put(sink, &[octet]),
        _ => {
            let [high, low] = hexadecimal_digits(octet);
            out.put(sink, &[b'\\', b'x', high, low]);
        }
    }
}

/// Puts a line with the octets that come first as they are, and returns how many there are.
fn put_plain<W: Sink>(
    path: &FieldPath<'_>,
    marks: &[Mark],
    out: &mut TextSink,
    sink: &mut W,
) -> usize
    ensures exact { result ≡ leading_octets marks.now }
    ensures within { result ≤ length marks.now }
    ensures adds { Adds (line (path_of path.now) (octets_in (take result marks.now)))
        (sending (W.contents sink.old) (W.is_broken sink.old) out.old)
        (sending (W.contents sink.new) (W.is_broken sink.new) out.new) }
    ensures stays { IsTrue (W.is_broken sink.old) → IsTrue (W.is_broken sink.new) }
{
    let _ = put_path(path, out, sink);
    out.put(sink, b" = ");
    let count = put_octets(marks, out, sink);
    out.put(sink, b"\n");
    count
}

/// Puts the octets that come first as they are, and returns how many there are.
fn put_octets<W: Sink>(marks: &[Mark], out: &mut TextSink, sink: &mut W) -> usize
    ensures exact { result ≡ leading_octets marks.now }
    ensures within { result ≤ length marks.now }
    ensures adds { Adds (octets_in (take result marks.now))
        (sending (W.contents sink.old) (W.is_broken sink.old) out.old)
        (sending (W.contents sink.new) (W.is_broken sink.new) out.new) }
    ensures stays { IsTrue (W.is_broken sink.old) → IsTrue (W.is_broken sink.new) }
{
    let mut count = 0;
    for mark in marks {
        if !is_octet(*mark) {
            return count;
        }
        put_mark(*mark, out, sink);
        count += 1;
    }
    count
}

fn put_mark<W: Sink>(mark: Mark, out: &mut TextSink, sink: &mut W)
    ensures adds { Adds (octets_in (mark ∷ []))
        (sending (W.contents sink.old) (W.is_broken sink.old) out.old)
        (sending (W.contents sink.new) (W.is_broken sink.new) out.new) }
    ensures stays { IsTrue (W.is_broken sink.old) → IsTrue (W.is_broken sink.new) }
{
    match mark {
        Mark::Octet(octet) => out.put_octet(sink, octet),
        _ => {}
    }
}
