//! Outlines as tokens.
ghost use Rattle.std.specs.Prelude.{◌≡◌, ◌<◌, ◌≤◌, ℕ, List, ◌∷◌, ◌++◌, length, map, Option};
ghost use Rattle.ill_tables.specs.declared.node.NodeId.{NodeId};
ghost use Rattle.ill_tables.specs.declared.profile.Profile.{Profile as Named};
ghost use Rattle.ill_grammar.specs.code.MarkedOctets.{SaysOctets};
ghost use Rattle.ber_leaf.specs.Leaf.{value};
ghost use Rattle.ill_schema.specs.Content.{Content, Entries, Items, alternative, list, sequence};
ghost use Rattle.ill_grammar.specs.LeafTypes.{IsContentIn, leaf_is};
ghost use Rattle.ill_grammar.specs.Outline.{AreEntries, AreItems, IsMarked, IsAbsent};
ghost use Rattle.ill_grammar.specs.declared.outline.Mark.{Mark};
ghost use Rattle.ill_grammar.specs.Marks.{IsEntry, octets_in};
ghost use Rattle.json.specs.Tree.{json_tokens};
ghost use Rattle.ill_json.specs.Json.{leaf_json, value_json};
ghost use Rattle.ill_json.specs.code.Adding.{Adds, entry_tokens, part_tokens};

use crate::leaf::{put_default, put_leaf};
use crate::module_leaf::{put_bits, put_foreign, put_module_leaf};
use crate::writing::LineWriter;
use ill_grammar::{
    LeafType, Mark, absent_row, after_leading_mark, has_default, is_at_end, leading_mark,
    leading_octets,
};
use ill_schema::{NodeId, PartId, row_name, row_node};
use json::Token;

/// Puts the value that the marks begin with, of this node in a row with this name, and returns the marks after it.
#[cycle(value)]
pub fn put_value<'m>(
    marks: &'m [Mark],
    name: &str,
    node: NodeId,
    out: &mut LineWriter,
) -> &'m [Mark]
    ensures adds { (c : Content) (ms rest : List Mark) → IsMarked c ms → marks.now ≡ ms ++ rest
        → (result.now ≡ rest)
        × Adds (json_tokens (value_json name.now node c)) out.old out.new }
    ensures shorter { 0 < length marks.now → length result.now < length marks.now }
    ensures no_longer { length result.now ≤ length marks.now }
{
    let Some(first) = leading_mark(marks) else {
        return marks;
    };
    let rest = after_leading_mark(marks);
    match first {
        Mark::Leaf(leaf) => put_marked_leaf(leaf, rest, name, out),
        Mark::ModuleLeaf(_) | Mark::BitString | Mark::Foreign => {
            put_module_value(first, rest, out)
        }
        Mark::Absent(part) => {
            put_default(part, name, out);
            rest
        }
        Mark::Alternative(row) => put_alternative(rest, node, row as usize, out),
        Mark::Sequence => put_entries(rest, node, out),
        Mark::List => put_items(rest, name, node, out),
        Mark::Octet(_) => rest,
        Mark::End => rest,
    }
}

/// Puts a leaf whose octets the marks begin with, and returns the marks after it.
fn put_marked_leaf<'m>(
    leaf: LeafType,
    marks: &'m [Mark],
    name: &str,
    out: &mut LineWriter,
) -> &'m [Mark]
    ensures adds { (p : Named) (octets : List ℕ) (rest : List Mark)
        → IsContentIn p (leaf_is leaf) octets
        → marks.now ≡ map Mark.Octet octets ++ (Mark.End ∷ rest) → (result.now ≡ rest)
        × Adds (json_tokens (leaf_json name.now (value (leaf_is leaf) octets))) out.old out.new }
    ensures shorter { length result.now ≤ length marks.now }
{
    let count = leading_octets(marks);
    put_leaf(leaf, &marks[..count], name, out);
    &marks[(count + 1).min(marks.len())..]
}

/// Puts what only the module profile has: a leaf, or a foreign tree, whose octets come after this mark. Returns the marks after it.
fn put_module_value<'m>(first: Mark, marks: &'m [Mark], out: &mut LineWriter) -> &'m [Mark]
    ensures adds { (c : Content) (name octets : List ℕ) (node : NodeId) (rest : List Mark)
        → SaysOctets first c octets
        → marks.now ≡ map Mark.Octet octets ++ (Mark.End ∷ rest) → (result.now ≡ rest)
        × Adds (json_tokens (value_json name node c)) out.old out.new }
    ensures shorter { length result.now ≤ length marks.now }
{
    let count = leading_octets(marks);
    put_module_octets(first, &marks[..count], out);
    &marks[(count + 1).min(marks.len())..]
}

/// Puts what these octets say after the mark.
fn put_module_octets(first: Mark, octets: &[Mark], out: &mut LineWriter)
    ensures { (c : Content) (name : List ℕ) (node : NodeId)
        → SaysOctets first c (octets_in octets.now)
        → Adds (json_tokens (value_json name node c)) out.old out.new }
{
    match first {
        Mark::ModuleLeaf(leaf) => put_module_leaf(leaf, octets, out),
        Mark::BitString => put_bits(octets, out),
        Mark::Foreign => put_foreign(octets, out),
        _ => {}
    }
}

/// Puts an object with the alternative of row i, or its value alone where the row has no name, and returns the marks after it.
#[cycle(value)]
fn put_alternative<'m>(
    marks: &'m [Mark],
    node: NodeId,
    i: usize,
    out: &mut LineWriter,
) -> &'m [Mark]
    ensures adds { (c : Content) (name : List ℕ) (ms rest : List Mark) → IsMarked c ms
        → marks.now ≡ ms ++ rest → (result.now ≡ rest)
        × Adds (json_tokens (value_json name node (alternative i c))) out.old out.new }
    ensures shorter { 0 < length marks.now → length result.now < length marks.now }
    ensures no_longer { length result.now ≤ length marks.now }
{
    let name = row_name(node, i);
    if name.is_empty() {
        return put_value(marks, name, row_node(node, i), out);
    }
    out.put(Token::BeginObject);
    let rest = put_part(marks, node, i, out);
    out.put(Token::EndObject);
    rest
}

/// Puts the member that the value in row i is, and returns the marks after it.
#[cycle(value)]
fn put_part<'m>(marks: &'m [Mark], node: NodeId, i: usize, out: &mut LineWriter) -> &'m [Mark]
    ensures adds { (c : Content) (ms rest : List Mark) → IsMarked c ms → marks.now ≡ ms ++ rest
        → (result.now ≡ rest)
        × Adds (part_tokens node i c) out.old out.new }
    ensures shorter { 0 < length marks.now → length result.now < length marks.now }
    ensures no_longer { length result.now ≤ length marks.now }
{
    let name = row_name(node, i);
    out.put(Token::Key(name));
    put_value(marks, name, row_node(node, i), out)
}

/// Puts the member of row i, if it has an entry, and returns the marks after it.
#[cycle(value)]
fn put_entry<'m>(marks: &'m [Mark], node: NodeId, i: usize, out: &mut LineWriter) -> &'m [Mark]
    ensures adds { (e : Option Content) (ms rest : List Mark) → IsEntry e ms
        → marks.now ≡ ms ++ rest → (result.now ≡ rest)
        × Adds (entry_tokens node i e) out.old out.new }
    ensures shorter { 0 < length marks.now → length result.now < length marks.now }
{
    match absent_row(marks) {
        Some(part) => {
            put_absent(part, node, i, out);
            after_leading_mark(marks)
        }
        None => put_part(marks, node, i, out),
    }
}

/// Puts the member of row i, which is absent, if it has a default.
fn put_absent(part: PartId, node: NodeId, i: usize, out: &mut LineWriter)
    ensures { (e : Option Content) → IsAbsent part e
        → Adds (entry_tokens node i e) out.old out.new }
{
    if !has_default(part) {
        return;
    }
    let name = row_name(node, i);
    out.put(Token::Key(name));
    put_default(part, name, out);
}

/// Puts an object of the entries that the marks begin with, up to their end, and returns the marks after it.
#[cycle(value)]
fn put_entries<'m>(marks: &'m [Mark], node: NodeId, out: &mut LineWriter) -> &'m [Mark]
    ensures adds { (es : Entries) (name : List ℕ) (ms rest : List Mark) → AreEntries es ms
        → marks.now ≡ ms ++ (Mark.End ∷ rest) → (result.now ≡ rest)
        × Adds (json_tokens (value_json name node (sequence es))) out.old out.new }
    ensures shorter { length result.now ≤ length marks.now }
{
    out.put(Token::BeginObject);
    let mut left = marks;
    let mut i = 0;
    'rows: while !is_at_end(left) {
        left = put_entry(left, node, i, out);
        i += 1;
    }
    out.put(Token::EndObject);
    after_leading_mark(left)
}

/// Puts an array of the items that the marks begin with, up to their end, and returns the marks after it.
#[cycle(value)]
fn put_items<'m>(marks: &'m [Mark], name: &str, node: NodeId, out: &mut LineWriter) -> &'m [Mark]
    ensures adds { (is : Items) (ms rest : List Mark) → AreItems is ms
        → marks.now ≡ ms ++ (Mark.End ∷ rest) → (result.now ≡ rest)
        × Adds (json_tokens (value_json name.now node (list is))) out.old out.new }
    ensures shorter { length result.now ≤ length marks.now }
{
    out.put(Token::BeginArray);
    let inner = row_node(node, 0);
    let mut left = marks;
    'items: while !is_at_end(left) {
        left = put_value(left, name, inner, out);
    }
    out.put(Token::EndArray);
    after_leading_mark(left)
}
