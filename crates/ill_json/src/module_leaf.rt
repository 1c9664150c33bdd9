//! Leaves and foreign trees of the module profile as tokens.
ghost use Rattle.std.specs.Prelude.{◌≡◌, ◌++◌, [], ◌∷◌, ℕ, List, IfOk, OnOk};
ghost use Rattle.json.specs.Json.{member, no_members, object, string};
ghost use Rattle.json.specs.Tree.{json_tokens};
ghost use Rattle.ber_core.specs.Der.{encoding};
ghost use Rattle.ber_tree.specs.Tree.{Tree};
ghost use Rattle.ber_leaf.specs.Content.{IsContent};
ghost use Rattle.ber_leaf.specs.Leaf.{bit_string, value};
ghost use Rattle.ber_leaf.specs.Simple.{bits};
ghost use Rattle.ill_schema.specs.Content.{foreign};
ghost use Rattle.ill_tables.specs.declared.node.NodeId.{NodeId};
ghost use Rattle.ill_tables.specs.declared.profile.Profile.{Profile as Named};
ghost use Rattle.ill_grammar.specs.LeafTypes.{IsContentIn, module_leaf_is};
ghost use Rattle.ill_grammar.specs.Marks.{octets_in};
ghost use Rattle.ill_schema.specs.Texts.{hexadecimal};
ghost use Rattle.ill_json.specs.Json.{leaf_json, value_json};
ghost use Rattle.ill_json.specs.code.Adding.{Adds};

use crate::writing::LineWriter;
use ber_leaf::BitString;
use ill_grammar::{Mark, ModuleLeaf, ValueKind};
use json::Token;
use std::alloc::{AllocError, Global};

/// Puts a leaf with these octets.
pub fn put_module_leaf(leaf: ModuleLeaf, octets: &[Mark], out: &mut LineWriter)
    ensures { (p : Named) (name : List ℕ)
        → IsContentIn p (module_leaf_is leaf) (octets_in octets.now)
        → Adds (json_tokens (leaf_json name (value (module_leaf_is leaf) (octets_in octets.now))))
        out.old out.new }
{
    match leaf.value_kind() {
        ValueKind::Null => out.put(Token::Null),
        ValueKind::Identifier => out.identifier(octets),
        ValueKind::Octets => put_hexadecimal("octets", octets, out),
        ValueKind::Text => out.octets(octets),
    }
}

/// Puts a BIT STRING with these octets.
pub fn put_bits(octets: &[Mark], out: &mut LineWriter)
    ensures { (p : Named) (name : List ℕ) → IsContentIn p bit_string (octets_in octets.now)
        → Adds (json_tokens (leaf_json name (value bit_string (octets_in octets.now)))) out.old
        out.new }
{
    match octets_of(out.alloc(), octets) {
        Ok(content) => put_bits_of(content, out),
        Err(_) => out.fail(),
    }
}

/// Puts a BIT STRING with this content.
fn put_bits_of(content: Vec<u8>, out: &mut LineWriter)
    ensures { (name : List ℕ) → IsContent bit_string content.items
        → Adds (json_tokens (leaf_json name (value bit_string content.items))) out.old out.new }
{
    let Ok(bits) = BitString::new(content) else {
        return;
    };
    put_counted(bits.bit_len(), bits.octets(), out);
}

/// Puts an object of the number of bits, and the octets that they fill.
fn put_counted(count: u128, octets: &[u8], out: &mut LineWriter)
    ensures { (name : List ℕ)
        → Adds (json_tokens (leaf_json name (bits count octets.now))) out.old out.new }
{
    out.put(Token::BeginObject);
    out.put(Token::Key("bits"));
    out.bits(count);
    out.put(Token::Key("octets"));
    out.hexadecimal_of(octets);
    out.put(Token::EndObject);
}

/// The octets of the marks, in memory of their own.
fn octets_of(alloc: Global, octets: &[Mark]) -> Result<Vec<u8>, AllocError>
    ensures { IfOk result (λ all. all.items ≡ octets_in octets.now) }
{
    let mut all = Vec::new(alloc);
    for mark in octets {
        push_mark(&mut all, *mark)?;
    }
    Ok(all)
}

fn push_mark(octets: &mut Vec<u8>, mark: Mark) -> Result<(), AllocError>
    ensures { OnOk result (octets.new.items ≡ octets.old.items ++ octets_in (mark ∷ [])) }
{
    match mark {
        Mark::Octet(octet) => Ok(octets.push(octet)?),
        _ => Ok(()),
    }
}

/// Puts a tree of no known type by its octets.
pub fn put_foreign(octets: &[Mark], out: &mut LineWriter)
    ensures { (T : Tree) (row : List ℕ) (node : NodeId) → octets_in octets.now ≡ encoding T
        → Adds (json_tokens (value_json row node (foreign T))) out.old out.new }
{
    put_hexadecimal("foreign", octets, out);
}

/// Puts an object of one member: the octets in hexadecimal.
fn put_hexadecimal(name: &str, octets: &[Mark], out: &mut LineWriter)
    ensures { Adds (json_tokens
        (object (member name.now (string (hexadecimal (octets_in octets.now))) no_members))) out.old
        out.new }
{
    out.put(Token::BeginObject);
    out.put(Token::Key(name));
    out.hexadecimal(octets);
    out.put(Token::EndObject);
}
