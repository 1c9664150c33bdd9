//! Foreign trees as lines.
ghost use Rattle.std.specs.Prelude.{◌≡◌, ◌≤◌, ◌<◌, ℕ, suc, ◌^◌, ◌/◌, ◌%◌, Bool, List, [], ◌∷◌, ◌++◌, codes, length, map, take, IsTrue};
ghost use Rattle.std.specs.Int.Digits.{number_from_digits, number_from_digits_after};
ghost use Rattle.ber_core.specs.Der.{encoding, encodings};
ghost use Rattle.ber_core.specs.Foreign.{are_foreign, foreign_levels, is_foreign};
ghost use Rattle.ber_tree.specs.Identifier.{HasIdentifier, Tag, identifier};
ghost use Rattle.ber_tree.specs.Length.{shortest_length};
ghost use Rattle.ber_tree.specs.Tree.{Tree, Trees};
ghost use Rattle.ill_grammar.specs.declared.outline.Mark.{Mark};
ghost use Rattle.ill_text.specs.Shown.{line, tree_text, trees_text};
ghost use Rattle.ill_grammar.specs.Marks.{leading_octets, octets_in};
ghost use Rattle.ill_text.specs.code.Elements.{blank, up_to_last};
ghost use Rattle.ill_text.specs.code.Sending.{Adds, counted, sending};
ghost use Rattle.ill_text.specs.code.FieldPaths.{path_of};

use crate::field_path::{FieldPath, put_path};
use crate::module_leaf::{put_content, put_hexadecimal};
use crate::text_sink::TextSink;
use ber_core::Sink;
use ill_grammar::{ends_number, leading_octets};
use ill_read::Mark;

/// The most levels that a foreign tree may have.
const LEVELS: u8 = 20;

/// Puts the line of a foreign tree whose octets the marks begin with, and returns how many octets it has.
pub fn put_foreign<W: Sink>(
    marks: &[Mark],
    path: &FieldPath<'_>,
    out: &mut TextSink,
    sink: &mut W,
) -> usize
    ensures exact { result ≡ leading_octets marks.now }
    ensures within { result ≤ length marks.now }
    ensures adds { (T : Tree) → IsTrue (is_foreign foreign_levels T)
        → octets_in (take result marks.now) ≡ encoding T
        → Adds (line (path_of path.now) (codes "foreign " ++ tree_text T))
        (sending (W.contents sink.old) (W.is_broken sink.old) out.old)
        (sending (W.contents sink.new) (W.is_broken sink.new) out.new) }
    ensures stays { IsTrue (W.is_broken sink.old) → IsTrue (W.is_broken sink.new) }
{
    let count = leading_octets(marks);
    let _ = put_path(path, out, sink);
    out.put(sink, b" = foreign ");
    put_trees(LEVELS, &marks[..count], out, sink);
    out.put(sink, b"\n");
    count
}

/// Puts the trees whose octets the marks are, with a blank between two, where they have at most so many levels.
#[cycle(trees)]
fn put_trees<W: Sink>(levels: u8, marks: &[Mark], out: &mut TextSink, sink: &mut W)
    ensures adds { (ts : Trees) → IsTrue (are_foreign levels ts)
        → marks.now ≡ map Mark.Octet (encodings ts) → Adds (trees_text ts)
        (sending (W.contents sink.old) (W.is_broken sink.old) out.old)
        (sending (W.contents sink.new) (W.is_broken sink.new) out.new) }
    ensures stays { IsTrue (W.is_broken sink.old) → IsTrue (W.is_broken sink.new) }
{
    let Some(inside) = levels.checked_sub(1) else {
        return;
    };
    let mut left = marks;
    'trees: while !left.is_empty() {
        left = put_tree(inside, left, out, sink);
        put_blank(left, out, sink);
    }
}

/// Puts the tree that comes first, where so many levels may be inside it, and returns the marks after it.
#[cycle(trees)]
fn put_tree<'m, W: Sink>(
    inside: u8,
    marks: &'m [Mark],
    out: &mut TextSink,
    sink: &mut W,
) -> &'m [Mark]
    ensures adds { (T : Tree) (rest : List ℕ) → IsTrue (is_foreign (suc inside) T)
        → marks.now ≡ map Mark.Octet (encoding T ++ rest)
        → (result.now ≡ map Mark.Octet rest) × Adds (tree_text T)
        (sending (W.contents sink.old) (W.is_broken sink.old) out.old)
        (sending (W.contents sink.new) (W.is_broken sink.new) out.new) }
    ensures shorter { 0 < length marks.now → length result.now < length marks.now }
    ensures stays { IsTrue (W.is_broken sink.old) → IsTrue (W.is_broken sink.new) }
{
    let (identifier, after) = split_identifier(marks);
    let (contents, rest) = split_contents(after);
    put_hexadecimal(identifier, out, sink);
    if is_constructed(identifier) {
        out.put(sink, b"{");
        put_trees(inside, contents, out, sink);
        out.put(sink, b"}");
        return rest;
    }
    out.put(sink, b":");
    put_content(contents, out, sink);
    rest
}

/// Puts a blank, where a tree follows.
fn put_blank<W: Sink>(marks: &[Mark], out: &mut TextSink, sink: &mut W)
    ensures adds { Adds (blank marks.now)
        (sending (W.contents sink.old) (W.is_broken sink.old) out.old)
        (sending (W.contents sink.new) (W.is_broken sink.new) out.new) }
    ensures stays { IsTrue (W.is_broken sink.old) → IsTrue (W.is_broken sink.new) }
{
    if !marks.is_empty() {
        out.put(sink, b" ");
    }
}

/// The identifier octets that come first, and the marks after them.
fn split_identifier(marks: &[Mark]) -> (&[Mark], &[Mark])
    ensures exact { (tag : Tag) (form : Bool) (rest : List ℕ) → HasIdentifier tag form
        → marks.now ≡ map Mark.Octet (identifier tag form ++ rest)
        → (result.0.now ≡ map Mark.Octet (identifier tag form))
        × (result.1.now ≡ map Mark.Octet rest) }
    ensures shorter { 0 < length marks.now → length result.1.now < length marks.now }
    ensures no_longer { length result.1.now ≤ length marks.now }
{
    marks.split_at(identifier_size(marks))
}

/// The number of octets of the identifier that comes first.
fn identifier_size(marks: &[Mark]) -> usize
    ensures exact { (tag : Tag) (form : Bool) (rest : List ℕ) → HasIdentifier tag form
        → marks.now ≡ map Mark.Octet (identifier tag form ++ rest)
        → result ≡ length (identifier tag form) }
    ensures some { 0 < length marks.now → 0 < result }
    ensures within { result ≤ length marks.now }
{
    let Some((first, rest)) = marks.split_first() else {
        return 0;
    };
    if octet_in(*first) % 32 == 31 {
        return 1 + number_size(rest);
    }
    1
}

/// The number of marks up to the last octet of a number, which is the first below 80.
fn number_size(marks: &[Mark]) -> usize
    ensures exact { result ≡ up_to_last marks.now }
    ensures within { result ≤ length marks.now }
{
    let mut count = 0;
    for mark in marks {
        count += 1;
        if ends_number(*mark) {
            return count;
        }
    }
    count
}

/// Tells whether an identifier is of the constructed form.
fn is_constructed(marks: &[Mark]) -> bool
    ensures { (tag : Tag) (form : Bool) → HasIdentifier tag form
        → marks.now ≡ map Mark.Octet (identifier tag form) → result ≡ form }
{
    match marks.first() {
        Some(mark) => octet_in(*mark) / 32 % 2 == 1,
        None => false,
    }
}

/// The octet of a mark, or 0 where the mark has no octet.
fn octet_in(mark: Mark) -> u8
    ensures { (octet : ℕ) → mark ≡ Mark.Octet octet → result ≡ octet }
{
    match mark {
        Mark::Octet(octet) => octet,
        _ => 0,
    }
}

/// The contents whose length comes first, and the marks after them.
fn split_contents(marks: &[Mark]) -> (&[Mark], &[Mark])
    ensures exact { (contents rest : List ℕ)
        → marks.now ≡ map Mark.Octet (shortest_length (length contents) ++ (contents ++ rest))
        → (result.0.now ≡ map Mark.Octet contents) × (result.1.now ≡ map Mark.Octet rest) }
    ensures no_longer { length result.1.now ≤ length marks.now }
{
    let (size, after) = split_length(marks);
    after.split_at(size.min(after.len()))
}

/// The number that length octets spell that come first, and the marks after them.
fn split_length(marks: &[Mark]) -> (usize, &[Mark])
    ensures exact { (n : ℕ) (rest : List ℕ) → n < 2 ^ 64
        → marks.now ≡ map Mark.Octet (shortest_length n ++ rest)
        → (result.0 ≡ n) × (result.1.now ≡ map Mark.Octet rest) }
    ensures no_longer { length result.1.now ≤ length marks.now }
{
    let Some((first, rest)) = marks.split_first() else {
        return (0, marks);
    };
    let octet = octet_in(*first);
    if octet < 128 {
        return (usize::from(octet), rest);
    }
    let (digits, after) = rest.split_at(usize::from(octet - 128).min(rest.len()));
    (number_of(digits), after)
}

/// The number with these octets, most significant first, as far as 64 bits hold it.
fn number_of(marks: &[Mark]) -> usize
    ensures { result ≡ counted (number_from_digits 256 (octets_in marks.now)) }
{
    let mut number = 0;
    for mark in marks {
        number = extended(number, *mark);
    }
    number
}

/// The number with an octet more.
fn extended(number: usize, mark: Mark) -> usize
    ensures { result ≡ counted (number_from_digits_after 256 number (octets_in (mark ∷ []))) }
{
    match mark {
        Mark::Octet(octet) => number
            .saturating_mul(256)
            .saturating_add(usize::from(octet)),
        _ => number,
    }
}
