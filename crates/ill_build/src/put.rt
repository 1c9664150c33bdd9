//! Elements in DER, of values of JSON, in the order of the tables' rows.
ghost use Rattle.std.specs.Prelude.{◌≡◌, ◌∷◌, ◌<◌, ℕ, List, OnOk, Option, [], length, slice_get, true};
ghost use Rattle.ber_tree.specs.declared.class.Class.{Class as ClassOf};
ghost use Rattle.ill_tables.specs.declared.part.Row.{Row as RowOf};
ghost use Rattle.json.specs.Value.{items_view, value_view};
ghost use Rattle.ber_tree.specs.Identifier.{HasIdentifier};
ghost use Rattle.ill_schema.specs.Elements.{tag_at};
ghost use Rattle.ill_schema.specs.Profiles.{profile_of};
ghost use Rattle.ill_tables.specs.Table.{kind_of, rows_of};
ghost use Rattle.ill_tables.specs.declared.node.Kind.{Kind as KindOf};
ghost use Rattle.ill_build.specs.Faulty.{IsFaulty};
ghost use Rattle.ill_build.specs.Members.{IsObjectOf, of_type};
ghost use Rattle.ill_build.specs.Path.{OnRefusal};
ghost use Rattle.ill_build.specs.code.Built.{Built, BuiltEntries, BuiltItems, BuiltList, BuiltPresent, BuiltRow, BuiltSequence, HasTag, IsLeafKind};
ghost use Rattle.ill_build.specs.code.Refused.{IsChoiceRefused, IsListRefused, IsRowRefused, IsSequenceRefused, AreItemsRefused, AreRowsRefused};

use crate::cause::BuildCause;
use crate::element::{open, put_primitive};
use crate::leaf::{read_foreign, read_leaf};
use crate::members::{Known, items_of, members_of, only_member, place_of};
use crate::number::says_default;
use crate::stop::{Step, Stop, refused, within};
use ber_core::{Class, universal};
use der_buffer::DerBuffer;
use ill_schema::{
    Kind, NodeId, Presence, Profile, Row, kind, replacement, row_name, rows_of, wrapper,
};
use json::Value;
use std::alloc::Global;

/// The tag of a SEQUENCE and of a SEQUENCE OF (X.680, 25 and 26).
pub const SEQUENCE: (Class, u32) = (Class::Universal, universal::SEQUENCE);

/// What each call of the builder is given.
#[derive(Clone, Copy)]
pub struct Context {
    pub alloc: Global,
    pub profile: Profile,
}

/// Appends the element of a value, where this tag is in place of its own, in a row of this name.
#[cycle(put)]
pub fn put_value<'a>(
    context: Context,
    node: NodeId,
    replaced: Option<(Class, u32)>,
    name: &str,
    value: &Value<'a>,
    out: &mut DerBuffer,
) -> Result<(), Stop<'a>>
    requires tagged { HasTag replaced }
    ensures said { OnOk result (Built (profile_of context.profile) name.now node replaced
        (value_view value.now) out.old out.new) }
    ensures refused { OnRefusal result
        (IsFaulty (profile_of context.profile) name.now node (value_view value.now)) }
{
    match kind(node) {
        Kind::Seq => put_sequence(context, node, replaced.unwrap_or(SEQUENCE), value, out),
        Kind::SeqOf => put_list(
            context,
            node,
            replaced.unwrap_or(SEQUENCE),
            name,
            value,
            out,
        ),
        Kind::Choice => match node {
            NodeId::TaggedExternal => put_row(context, row_at(node, 0), "", value, out),
            _ => put_choice(context, node, value, out),
        },
        Kind::Any => put_foreign(context, node, name, value, out),
        Kind::Leaf(_) | Kind::IllString => put_leaf(context, node, replaced, name, value, out),
    }
}

/// Appends the element of a row of this name.
#[cycle(put)]
pub fn put_row<'a>(
    context: Context,
    row: Row,
    name: &str,
    value: &Value<'a>,
    out: &mut DerBuffer,
) -> Result<(), Stop<'a>>
    requires drawn { (node : NodeId) × (i : ℕ) × (slice_get (rows_of node) i ≡ Some row) }
    ensures said { OnOk result (BuiltRow (profile_of context.profile) name.now row
        (value_view value.now) out.old out.new) }
    ensures refused { OnRefusal result
        (IsFaulty (profile_of context.profile) name.now row.node (value_view value.now)) }
{
    match wrapper(row) {
        Some(tag) => {
            let contents_start = open(tag, out)?;
            put_value(context, row.node, None, name, value, out)?;
            out.close(contents_start)?;
            Ok(())
        }
        None => put_value(context, row.node, replacement(row), name, value, out),
    }
}

/// Appends a SEQUENCE.
#[cycle(put)]
fn put_sequence<'a>(
    context: Context,
    node: NodeId,
    tag: (Class, u32),
    value: &Value<'a>,
    out: &mut DerBuffer,
) -> Result<(), Stop<'a>>
    requires tagged { HasIdentifier (tag_at tag) true }
    ensures said { OnOk result (BuiltSequence (profile_of context.profile) node (tag_at tag)
        (value_view value.now) out.old out.new) }
    ensures refused { OnRefusal result
        (IsSequenceRefused (profile_of context.profile) node (value_view value.now)) }
{
    let Some(members) = members_of(value) else {
        return Err(refused(context.alloc, BuildCause::WrongType));
    };
    if let Some((name, cause)) = Known::Rows(node).first_fault(members) {
        return Err(within(refused(context.alloc, cause), Step::Name(name)));
    }
    let contents_start = open(tag, out)?;
    put_rows(context, node, value, out)?;
    out.close(contents_start)?;
    Ok(())
}

/// Appends the elements of the rows of a type.
#[cycle(put)]
fn put_rows<'a>(
    context: Context,
    node: NodeId,
    value: &Value<'a>,
    out: &mut DerBuffer,
) -> Result<(), Stop<'a>>
    requires named { IsObjectOf (of_type node) (value_view value.now) }
    ensures said { OnOk result (BuiltEntries (profile_of context.profile) node 0 (rows_of node)
        (value_view value.now) out.old out.new) }
    ensures refused { OnRefusal result (AreRowsRefused (profile_of context.profile) node 0
        (rows_of node) (value_view value.now)) }
{
    for i in 0..rows_of(node).len() {
        put_entry(context, node, i, value, out)?;
    }
    Ok(())
}

/// Appends the element of row i, unless its entry is missing or the default.
#[cycle(put)]
fn put_entry<'a>(
    context: Context,
    node: NodeId,
    i: usize,
    value: &Value<'a>,
    out: &mut DerBuffer,
) -> Result<(), Stop<'a>>
    requires drawn { i < length (rows_of node) }
    requires named { IsObjectOf (of_type node) (value_view value.now) }
    ensures said { OnOk result ((row : RowOf) × (slice_get (rows_of node) i ≡ Some row)
        × BuiltEntries (profile_of context.profile) node i (row ∷ []) (value_view value.now)
        out.old out.new) }
    ensures refused { OnRefusal result
        (IsRowRefused (profile_of context.profile) node i (value_view value.now)) }
{
    let row = row_at(node, i);
    let name = row_name(node, i);
    match value.get(name) {
        None => match row.presence {
            Presence::Must => Err(within(
                refused(context.alloc, BuildCause::MissingMember),
                Step::Name(name),
            )),
            Presence::May | Presence::LeftOut => Ok(()),
            Presence::Default(_) => Ok(()),
        },
        Some(member) => match put_present(context, row, name, member, out) {
            Ok(()) => Ok(()),
            Err(stop) => Err(within(stop, Step::Name(name))),
        },
    }
}

/// Appends the element of a row of this name, unless the value is the row's default.
#[cycle(put)]
fn put_present<'a>(
    context: Context,
    row: Row,
    name: &str,
    value: &Value<'a>,
    out: &mut DerBuffer,
) -> Result<(), Stop<'a>>
    requires drawn { (node : NodeId) × (i : ℕ) × (slice_get (rows_of node) i ≡ Some row) }
    ensures said { OnOk result (BuiltPresent (profile_of context.profile) name.now row
        (value_view value.now) out.old out.new) }
    ensures refused { OnRefusal result
        (IsFaulty (profile_of context.profile) name.now row.node (value_view value.now)) }
{
    if says_default(row, name, value) {
        return Ok(());
    }
    put_row(context, row, name, value, out)
}

/// Appends a SEQUENCE OF in a row of this name.
#[cycle(put)]
fn put_list<'a>(
    context: Context,
    node: NodeId,
    tag: (Class, u32),
    name: &str,
    value: &Value<'a>,
    out: &mut DerBuffer,
) -> Result<(), Stop<'a>>
    requires list { kind_of node ≡ KindOf.SeqOf }
    requires tagged { HasIdentifier (tag_at tag) true }
    ensures said { OnOk result (BuiltList (profile_of context.profile) name.now node (tag_at tag)
        (value_view value.now) out.old out.new) }
    ensures refused { OnRefusal result
        (IsListRefused (profile_of context.profile) name.now node (value_view value.now)) }
{
    let Some(items) = items_of(value) else {
        return Err(refused(context.alloc, BuildCause::WrongType));
    };
    let contents_start = open(tag, out)?;
    put_items(context, node, name, items, out)?;
    out.close(contents_start)?;
    Ok(())
}

/// Appends the elements of a list's items, each in a row of this name.
#[cycle(put)]
fn put_items<'a>(
    context: Context,
    node: NodeId,
    name: &str,
    items: &[Value<'a>],
    out: &mut DerBuffer,
) -> Result<(), Stop<'a>>
    requires list { kind_of node ≡ KindOf.SeqOf }
    ensures said { OnOk result (BuiltItems (profile_of context.profile) name.now node
        (items_view items.now) out.old out.new) }
    ensures refused { OnRefusal result (AreItemsRefused (profile_of context.profile) name.now node
        0 (items_view items.now)) }
{
    let row = row_at(node, 0);
    for i in 0..items.len() {
        match put_row(context, row, name, &items[i], out) {
            Ok(()) => {}
            Err(stop) => return Err(within(stop, Step::Item(i))),
        }
    }
    Ok(())
}

/// Appends the element of a choice's alternative.
#[cycle(put)]
fn put_choice<'a>(
    context: Context,
    node: NodeId,
    value: &Value<'a>,
    out: &mut DerBuffer,
) -> Result<(), Stop<'a>>
    requires choice { kind_of node ≡ KindOf.Choice }
    requires named { node ≡ NodeId.TaggedExternal → ⊥ }
    ensures said { (name : List ℕ) (replaced : Option (ClassOf × ℕ)) → OnOk result (Built
        (profile_of context.profile) name node replaced (value_view value.now) out.old out.new) }
    ensures refused { OnRefusal result
        (IsChoiceRefused (profile_of context.profile) node (value_view value.now)) }
{
    let Some(members) = members_of(value) else {
        return Err(refused(context.alloc, BuildCause::WrongType));
    };
    if let Some((name, cause)) = Known::Rows(node).first_fault(members) {
        return Err(within(refused(context.alloc, cause), Step::Name(name)));
    }
    let Some(member) = only_member(members) else {
        return Err(refused(context.alloc, BuildCause::NotOneMember));
    };
    let Some(i) = place_of(node, member.0) else {
        unreachable!()
    };
    let row = row_at(node, i);
    match put_row(context, row, member.0, &member.1, out) {
        Ok(()) => Ok(()),
        Err(stop) => Err(within(stop, Step::Name(member.0))),
    }
}

/// A row of a type.
pub fn row_at(node: NodeId, i: usize) -> Row
    requires { i < length (rows_of node) }
    ensures { slice_get (rows_of node) i ≡ Some result }
{
    rows_of(node)[i]
}

/// Appends a leaf.
fn put_leaf<'a>(
    context: Context,
    node: NodeId,
    replaced: Option<(Class, u32)>,
    name: &str,
    value: &Value<'a>,
    out: &mut DerBuffer,
) -> Result<(), Stop<'a>>
    requires leaf { IsLeafKind (kind_of node) }
    requires tagged { HasTag replaced }
    ensures said { OnOk result (Built (profile_of context.profile) name.now node replaced
        (value_view value.now) out.old out.new) }
    ensures refused { OnRefusal result
        (IsFaulty (profile_of context.profile) name.now node (value_view value.now)) }
{
    let read = read_leaf(context, kind(node), name, value)?;
    let tag = replaced.unwrap_or((Class::Universal, read.number));
    put_primitive(tag, &read.octets, out)?;
    Ok(())
}

/// Appends a value of an open type, which is an element itself.
fn put_foreign<'a>(
    context: Context,
    node: NodeId,
    name: &str,
    value: &Value<'a>,
    out: &mut DerBuffer,
) -> Result<(), Stop<'a>>
    requires open { kind_of node ≡ KindOf.Any }
    ensures said { (replaced : Option (ClassOf × ℕ)) → OnOk result (Built
        (profile_of context.profile) name.now node replaced (value_view value.now) out.old
        out.new) }
    ensures refused { OnRefusal result
        (IsFaulty (profile_of context.profile) name.now node (value_view value.now)) }
{
    let octets = read_foreign(context, value)?;
    out.append(&octets)?;
    Ok(())
}
