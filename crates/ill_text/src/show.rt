//! Outlines as lines.
ghost use Rattle.std.specs.Prelude.{◌≡◌, ◌<◌, ◌≤◌, ℕ, List, [], ◌∷◌, ◌++◌, length, map, not, IsTrue, Option};
ghost use Rattle.ill_schema.specs.Content.{Content, Entries, Items, sequence, list};
ghost use Rattle.ill_grammar.specs.Outline.{AreEntries, AreItems, IsMarked};
ghost use Rattle.ill_grammar.specs.declared.outline.Mark.{Mark};
ghost use Rattle.ill_text.specs.Shown.{entry_text};
ghost use Rattle.ill_grammar.specs.Marks.{IsEntry, is_there};
ghost use Rattle.ill_text.specs.code.Sending.{Adds, sending};
ghost use Rattle.ill_text.specs.code.FieldPaths.{path_of, place_of};
ghost use Rattle.ill_text.specs.Shown.{Place, item_of, leaf_text, line, lines_of, part};
ghost use Rattle.ill_tables.specs.declared.profile.Profile.{Profile as Named};
ghost use Rattle.ill_grammar.specs.code.MarkedOctets.{SaysOctets};
ghost use Rattle.ber_leaf.specs.Leaf.{value};
ghost use Rattle.ill_grammar.specs.LeafTypes.{IsContentIn, leaf_is};

use crate::field_path::{FieldPath, FieldPlace, put_line};
use crate::foreign::put_foreign;
use crate::leaf::{put_default, put_leaf};
use crate::module_leaf::{put_bits, put_module_leaf};
use crate::text_sink::TextSink;
use ber_core::Sink;
use ill_grammar::{absent_row, after_leading_mark, has_default, is_at_end, leading_mark};
use ill_read::{LeafType, Mark};
use ill_schema::{PartId, row_name, row_node};

/// Puts the lines of the value that the marks begin with, at this place, and returns the marks after it.
#[cycle(show)]
#[inline(always)]
pub fn put_value<'m, W: Sink>(
    marks: &'m [Mark],
    place: &FieldPlace<'_>,
    out: &mut TextSink,
    sink: &mut W,
) -> &'m [Mark]
    ensures adds { (c : Content) (ms rest : List Mark) → IsMarked c ms → marks.now ≡ ms ++ rest
        → (result.now ≡ rest)
        × Adds (lines_of (place_of place.now) c)
        (sending (W.contents sink.old) (W.is_broken sink.old) out.old)
        (sending (W.contents sink.new) (W.is_broken sink.new) out.new) }
    ensures shorter { 0 < length marks.now → length result.now < length marks.now }
    ensures no_longer { length result.now ≤ length marks.now }
    ensures stays { IsTrue (W.is_broken sink.old) → IsTrue (W.is_broken sink.new) }
{
    let Some(first) = leading_mark(marks) else {
        return marks;
    };
    let rest = after_leading_mark(marks);
    match first {
        Mark::Leaf(leaf) => put_marked_leaf(leaf, rest, place, out, sink),
        Mark::ModuleLeaf(_) | Mark::BitString | Mark::Foreign => {
            put_module_line(first, rest, place.path, out, sink)
        }
        Mark::Absent(part) => {
            put_default(part, place, out, sink);
            rest
        }
        Mark::Alternative(row) => put_alternative(rest, place, row, out, sink),
        Mark::Sequence => put_entries(rest, place, out, sink),
        Mark::List => put_items(rest, place, out, sink),
        Mark::Octet(_) => rest,
        Mark::End => rest,
    }
}

/// Puts the line of a leaf whose octets the marks begin with, and returns the marks after it.
#[inline(always)]
fn put_marked_leaf<'m, W: Sink>(
    leaf: LeafType,
    marks: &'m [Mark],
    place: &FieldPlace<'_>,
    out: &mut TextSink,
    sink: &mut W,
) -> &'m [Mark]
    ensures adds { (p : Named) (octets : List ℕ) (rest : List Mark)
        → IsContentIn p (leaf_is leaf) octets
        → marks.now ≡ map Mark.Octet octets ++ (Mark.End ∷ rest) → (result.now ≡ rest)
        × Adds (line (path_of place.now.path.now)
        (leaf_text place.now.name.now (value (leaf_is leaf) octets)))
        (sending (W.contents sink.old) (W.is_broken sink.old) out.old)
        (sending (W.contents sink.new) (W.is_broken sink.new) out.new) }
    ensures shorter { length result.now ≤ length marks.now }
    ensures stays { IsTrue (W.is_broken sink.old) → IsTrue (W.is_broken sink.new) }
{
    let count = put_leaf(leaf, marks, place, out, sink);
    &marks[(count + 1).min(marks.len())..]
}

/// Puts the line of what only the module profile has: of a leaf, or of a foreign tree, whose octets come after this mark. Returns the
/// marks after it.
#[inline(never)]
fn put_module_line<'m, W: Sink>(
    first: Mark,
    marks: &'m [Mark],
    path: &FieldPath<'_>,
    out: &mut TextSink,
    sink: &mut W,
) -> &'m [Mark]
    ensures adds { (c : Content) (octets : List ℕ) (rest : List Mark) (p : Place)
        → p.path ≡ path_of path.now → SaysOctets first c octets
        → marks.now ≡ map Mark.Octet octets ++ (Mark.End ∷ rest) → (result.now ≡ rest)
        × Adds (lines_of p c) (sending (W.contents sink.old) (W.is_broken sink.old) out.old)
        (sending (W.contents sink.new) (W.is_broken sink.new) out.new) }
    ensures shorter { length result.now ≤ length marks.now }
    ensures stays { IsTrue (W.is_broken sink.old) → IsTrue (W.is_broken sink.new) }
{
    let count = match first {
        Mark::ModuleLeaf(leaf) => put_module_leaf(leaf, marks, path, out, sink),
        Mark::BitString => put_bits(marks, path, out, sink),
        Mark::Foreign => put_foreign(marks, path, out, sink),
        _ => 0,
    };
    &marks[(count + 1).min(marks.len())..]
}

/// Puts the lines of the alternative of a choice that is in a row.
#[cycle(show)]
#[inline(never)]
fn put_alternative<'m, W: Sink>(
    marks: &'m [Mark],
    place: &FieldPlace<'_>,
    row: u8,
    out: &mut TextSink,
    sink: &mut W,
) -> &'m [Mark]
    ensures adds { (c : Content) (ms rest : List Mark) → IsMarked c ms → marks.now ≡ ms ++ rest
        → (result.now ≡ rest)
        × Adds (lines_of (part (place_of place.now) row) c)
        (sending (W.contents sink.old) (W.is_broken sink.old) out.old)
        (sending (W.contents sink.new) (W.is_broken sink.new) out.new) }
    ensures shorter { 0 < length marks.now → length result.now < length marks.now }
    ensures no_longer { length result.now ≤ length marks.now }
    ensures stays { IsTrue (W.is_broken sink.old) → IsTrue (W.is_broken sink.new) }
{
    put_part(marks, place, row as usize, out, sink)
}

/// Puts the lines of the value in a row.
#[cycle(show)]
#[inline(always)]
fn put_part<'m, W: Sink>(
    marks: &'m [Mark],
    place: &FieldPlace<'_>,
    i: usize,
    out: &mut TextSink,
    sink: &mut W,
) -> &'m [Mark]
    ensures adds { (c : Content) (ms rest : List Mark) → IsMarked c ms → marks.now ≡ ms ++ rest
        → (result.now ≡ rest)
        × Adds (lines_of (part (place_of place.now) i) c)
        (sending (W.contents sink.old) (W.is_broken sink.old) out.old)
        (sending (W.contents sink.new) (W.is_broken sink.new) out.new) }
    ensures shorter { 0 < length marks.now → length result.now < length marks.now }
    ensures no_longer { length result.now ≤ length marks.now }
    ensures stays { IsTrue (W.is_broken sink.old) → IsTrue (W.is_broken sink.new) }
{
    let name = row_name(place.node, i);
    let inside = FieldPlace {
        path: &FieldPath::Row(place.path, name),
        name,
        node: row_node(place.node, i),
    };
    put_value(marks, &inside, out, sink)
}

/// Puts the lines of a row's entry, and returns the marks after it, and whether there was a value.
#[cycle(show)]
fn put_entry<'m, W: Sink>(
    marks: &'m [Mark],
    place: &FieldPlace<'_>,
    i: usize,
    out: &mut TextSink,
    sink: &mut W,
) -> (&'m [Mark], bool)
    ensures adds { (e : Option Content) (ms rest : List Mark) → IsEntry e ms
        → marks.now ≡ ms ++ rest → (result.0.now ≡ rest) × (result.1 ≡ is_there e)
        × Adds (entry_text (part (place_of place.now) i) e)
        (sending (W.contents sink.old) (W.is_broken sink.old) out.old)
        (sending (W.contents sink.new) (W.is_broken sink.new) out.new) }
    ensures shorter { 0 < length marks.now → length result.0.now < length marks.now }
    ensures stays { IsTrue (W.is_broken sink.old) → IsTrue (W.is_broken sink.new) }
{
    if is_absent(marks) {
        return (after_leading_mark(marks), false);
    }
    (put_part(marks, place, i, out, sink), true)
}

/// Tells whether a row that has no default is absent.
fn is_absent(marks: &[Mark]) -> bool
    ensures { (e : Option Content) (ms rest : List Mark) → IsEntry e ms → marks.now ≡ ms ++ rest
        → result ≡ not (is_there e) }
{
    match absent_row(marks) {
        Some(part) => !has_default(part),
        None => false,
    }
}

/// Puts the lines of the entries that the marks begin with, up to their end, and returns the marks after it.
#[cycle(show)]
#[inline(never)]
fn put_entries<'m, W: Sink>(
    marks: &'m [Mark],
    place: &FieldPlace<'_>,
    out: &mut TextSink,
    sink: &mut W,
) -> &'m [Mark]
    ensures adds { (es : Entries) (ms rest : List Mark) → AreEntries es ms
        → marks.now ≡ ms ++ (Mark.End ∷ rest) → (result.now ≡ rest)
        × Adds (lines_of (place_of place.now) (sequence es))
        (sending (W.contents sink.old) (W.is_broken sink.old) out.old)
        (sending (W.contents sink.new) (W.is_broken sink.new) out.new) }
    ensures shorter { length result.now ≤ length marks.now }
    ensures stays { IsTrue (W.is_broken sink.old) → IsTrue (W.is_broken sink.new) }
{
    let mut left = marks;
    let mut i = 0;
    let mut some = false;
    'rows: while !is_at_end(left) {
        let (rest, there) = put_entry(left, place, i, out, sink);
        left = rest;
        i += 1;
        some = some || there;
    }
    if some {
        return after_leading_mark(left);
    }
    put_line(place.path, b"{}", out, sink);
    after_leading_mark(left)
}

/// Puts the lines of the items that the marks begin with, up to their end, and returns the marks after it.
#[cycle(show)]
#[inline(never)]
fn put_items<'m, W: Sink>(
    marks: &'m [Mark],
    place: &FieldPlace<'_>,
    out: &mut TextSink,
    sink: &mut W,
) -> &'m [Mark]
    ensures adds { (is : Items) (ms rest : List Mark) → AreItems is ms
        → marks.now ≡ ms ++ (Mark.End ∷ rest) → (result.now ≡ rest)
        × Adds (lines_of (place_of place.now) (list is))
        (sending (W.contents sink.old) (W.is_broken sink.old) out.old)
        (sending (W.contents sink.new) (W.is_broken sink.new) out.new) }
    ensures shorter { length result.now ≤ length marks.now }
    ensures stays { IsTrue (W.is_broken sink.old) → IsTrue (W.is_broken sink.new) }
{
    let mut left = marks;
    let mut i = 0;
    'items: while !is_at_end(left) {
        left = put_item(left, place, i, out, sink);
        i += 1;
    }
    if i > 0 {
        return after_leading_mark(left);
    }
    put_line(place.path, b"[]", out, sink);
    after_leading_mark(left)
}

/// Puts the lines of an item, which has its list's name.
#[cycle(show)]
fn put_item<'m, W: Sink>(
    marks: &'m [Mark],
    place: &FieldPlace<'_>,
    i: usize,
    out: &mut TextSink,
    sink: &mut W,
) -> &'m [Mark]
    ensures adds { (c : Content) (ms rest : List Mark) → IsMarked c ms → marks.now ≡ ms ++ rest
        → (result.now ≡ rest)
        × Adds (lines_of (item_of (place_of place.now) i) c)
        (sending (W.contents sink.old) (W.is_broken sink.old) out.old)
        (sending (W.contents sink.new) (W.is_broken sink.new) out.new) }
    ensures shorter { 0 < length marks.now → length result.now < length marks.now }
    ensures no_longer { length result.now ≤ length marks.now }
    ensures stays { IsTrue (W.is_broken sink.old) → IsTrue (W.is_broken sink.new) }
{
    let inside = FieldPlace {
        path: &FieldPath::Item(place.path, i),
        name: place.name,
        node: row_node(place.node, 0),
    };
    put_value(marks, &inside, out, sink)
}
