//! Leaves as tokens.
ghost use Rattle.std.specs.Prelude.{Option, Some};
ghost use Rattle.json.specs.Tree.{json_tokens};
ghost use Rattle.ill_tables.specs.declared.profile.Profile.{Profile as Named};
ghost use Rattle.ber_leaf.specs.Leaf.{value};
ghost use Rattle.ill_schema.specs.Content.{Content};
ghost use Rattle.ill_schema.specs.Presence.{default_value};
ghost use Rattle.ill_tables.specs.Table.{kind_of};
ghost use Rattle.ill_tables.specs.declared.node.NodeId.{NodeId};
ghost use Rattle.ill_grammar.specs.LeafTypes.{IsContentIn, leaf_is};
ghost use Rattle.ill_grammar.specs.Outline.{IsAbsent};
ghost use Rattle.ill_tables.specs.Numbers.{number_name};
ghost use Rattle.ill_grammar.specs.Marks.{octets_in};
ghost use Rattle.ill_json.specs.Json.{leaf_json, number_json, text_json};
ghost use Rattle.ill_json.specs.code.Adding.{Adds, value_tokens};

use crate::writing::LineWriter;
use ill_grammar::{LeafType, Mark, is_set, number_in};
use ill_schema::{Kind, LeafKind, NodeId, PartId, Presence, kind, number_name, row};
use json::Token;

/// Puts a leaf with these octets, in a row with this name.
pub fn put_leaf(leaf: LeafType, octets: &[Mark], name: &str, out: &mut LineWriter)
    ensures { (p : Named) → IsContentIn p (leaf_is leaf) (octets_in octets.now)
        → Adds (json_tokens (leaf_json name.now (value (leaf_is leaf) (octets_in octets.now))))
        out.old out.new }
{
    match leaf {
        LeafType::Boolean => out.put(Token::Bool(is_set(octets))),
        LeafType::Integer => put_number(name, number_in(octets), out),
        LeafType::Enumerated => put_number(name, number_in(octets), out),
        LeafType::General => put_text("general", octets, out),
        LeafType::Visible => put_text("visible", octets, out),
        LeafType::Printable => out.octets(octets),
        LeafType::Date => out.octets(octets),
        LeafType::Time => out.octets(octets),
    }
}

/// Puts the default of a row that is absent, if it has one.
pub fn put_default(part: PartId, name: &str, out: &mut LineWriter)
    ensures { (e : Option Content) (node : NodeId) → IsAbsent part e
        → Adds (value_tokens name.now node e) out.old out.new }
{
    let Some(row) = row(part) else {
        return;
    };
    let Presence::Default(number) = row.presence else {
        return;
    };
    put_value_of(row.node, number, name, out);
}

/// Puts the value that the number of a default stands for.
fn put_value_of(node: NodeId, number: i64, name: &str, out: &mut LineWriter)
    ensures { Adds (json_tokens (leaf_json name.now (default_value (kind_of node) number))) out.old
        out.new }
{
    match kind(node) {
        Kind::Leaf(LeafKind::Boolean) => out.put(Token::Bool(number == 1)),
        _ => put_number(name, number, out),
    }
}

/// Puts a number in a row with this name: with its name, if it has one.
fn put_number(row: &str, number: i64, out: &mut LineWriter)
    ensures { Adds (json_tokens (number_json number (number_name row.now number))) out.old out.new }
{
    match number_name(row, number) {
        Some(name) => put_named(number, name, out),
        None => out.whole(number),
    }
}

/// Puts a number and its name.
fn put_named(number: i64, name: &str, out: &mut LineWriter)
    ensures { Adds (json_tokens (number_json number (Some name.now))) out.old out.new }
{
    out.put(Token::BeginObject);
    out.put(Token::Key("number"));
    out.whole(number);
    out.put(Token::Key("name"));
    out.put(Token::String(name));
    out.put(Token::EndObject);
}

/// Puts a string of an ILL-String under the name of its type.
fn put_text(kind: &str, octets: &[Mark], out: &mut LineWriter)
    ensures { Adds (json_tokens (text_json kind.now (octets_in octets.now))) out.old out.new }
{
    out.put(Token::BeginObject);
    out.put(Token::Key(kind));
    out.octets(octets);
    out.put(Token::EndObject);
}
