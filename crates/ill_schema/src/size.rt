//! The sizes of normal forms, None where they pass the limit.
ghost use Rattle.std.specs.Prelude.{◌≡◌, ◌≤◌, Bool, Some, length, slice_get};
ghost use Rattle.ber_core.specs.Der.{size, sizes};
ghost use Rattle.ber_tree.specs.Identifier.{Tag, identifier};
ghost use Rattle.ber_tree.specs.Length.{short_length};
ghost use Rattle.ber_leaf.specs.Leaf.{normal_content};
ghost use Rattle.ber_leaf.specs.Profile.{profile_two};
ghost use Rattle.ber_leaf.specs.Strings.{string_value};
ghost use Rattle.ill_schema.specs.Content.{Content};
ghost use Rattle.ill_schema.specs.Elements.{element_tag, element_tree, row_tree, place_trees, item_trees};
ghost use Rattle.ill_schema.specs.Fits.{Fits};
ghost use Rattle.ill_schema.specs.Normal.{normal_trees, normal_items};
ghost use Rattle.ill_schema.specs.Sizes.{apdu_number_of, apdu_row_of, node_tree, node_form, IsSizeWithin, IsElementSize};
ghost use Rattle.ill_tables.specs.Table.{rows_of};
ghost use Rattle.ill_schema.specs.Value.{content_of, entries_content, items_content};
ghost use Rattle.ill_tables.specs.declared.node.Kind.{Kind};

use crate::entry::is_default;
use crate::tagging::{replacement, wrapper};
use crate::value::Value;
use ber_core::{Class, length_size};
use ber_leaf::{
    DateText, Flag, GeneralText, IllString, Leaf, PrintableText, TimeText, VisibleText, Whole,
};
use ill_tables::{NodeId, PartId, Row, row, rows_of};

/// The number of octets that a message may have, and its normal form.
pub const LIMIT: u32 = 1_048_576;

fn within_limit(size: usize) -> Option<usize>
    ensures { IsSizeWithin result size }
{
    if size > LIMIT as usize {
        None
    } else {
        Some(size)
    }
}

/// The number of octets that the identifier of an element takes, where this tag replaces its own:
/// that is universal, of a number below 31.
fn identifier_size(replaced: Option<(Class, u32)>) -> usize
    ensures value { (kind : Kind) (c : Content) (form : Bool)
        → length (identifier (element_tag replaced kind c) form) ≡ result }
    ensures small { result ≤ 5 }
{
    match replaced {
        Some((_, number)) => ber_core::identifier_size(number),
        None => 1,
    }
}

/// The number of octets that an element takes, from its contents.
fn element_size(replaced: Option<(Class, u32)>, contents: usize) -> Option<usize>
    ensures { IsElementSize replaced contents result }
{
    let contents = within_limit(contents)?;
    within_limit(identifier_size(replaced) + length_size(contents as u32) + contents)
}

/// The size of a row's element.
#[cycle(size)]
fn row_size(row: Row, value: &Value) -> Option<usize>
    ensures { IsSizeWithin result (size (row_tree row (content_of value.now))) }
{
    match wrapper(row) {
        Some(tag) => element_size(Some(tag), value_size(value, row.node, None)?),
        None => value_size(value, row.node, replacement(row)),
    }
}

/// The size of a value's element, where this tag replaces its own.
#[cycle(size)]
fn value_size(value: &Value, node: NodeId, replaced: Option<(Class, u32)>) -> Option<usize>
    ensures { IsSizeWithin result (size (element_tree replaced node (content_of value.now))) }
{
    match value {
        Value::Flag(flag) => element_size(replaced, Flag::normal_size(flag)),
        Value::Whole(number) => element_size(replaced, Whole::normal_size(number)),
        Value::Date(text) => element_size(replaced, DateText::normal_size(text)),
        Value::Time(text) => element_size(replaced, TimeText::normal_size(text)),
        Value::Print(text) => element_size(replaced, PrintableText::normal_size(text)),
        Value::Str(string) => element_size(replaced, string_size(string)),
        Value::Seq(entries) => element_size(replaced, entries_size(entries, node)?),
        Value::List(items) => element_size(replaced, items_size(items, node)?),
        Value::Alt(number, chosen) => match row(PartId { node, row: *number }) {
            Some(row) => row_size(row, chosen),
            None => element_size(replaced, 0),
        },
    }
}

/// The size of a string's contents.
fn string_size(string: &IllString) -> usize
    ensures { result ≡ length (normal_content (string_value string.now)) }
{
    match string {
        IllString::General(text) => GeneralText::normal_size(text),
        IllString::Visible(text) => VisibleText::normal_size(text),
    }
}

/// A row of a node, if there is one.
fn row_at(node: NodeId, i: usize) -> Option<Row>
    ensures { result ≡ slice_get (rows_of node) i }
{
    rows_of(node).get(i).copied()
}

/// The size of the elements of a sequence.
#[cycle(size)]
fn entries_size(entries: &Vec<Option<Value>>, node: NodeId) -> Option<usize>
    ensures { IsSizeWithin result
        (sizes (normal_trees (entries_content entries.now.items) (rows_of node))) }
{
    let mut sum = 0;
    for (i, entry) in entries.iter().enumerate() {
        if let Some(value) = entry {
            sum = within_limit(sum + present_size(row_at(node, i), value)?)?;
        }
    }
    Some(sum)
}

/// The size of an entry's element: none where it is its row's default.
#[cycle(size)]
fn present_size(row: Option<Row>, value: &Value) -> Option<usize>
    ensures { IsSizeWithin result (sizes (place_trees row (Some value.now))) }
{
    match row {
        Some(row) => {
            if is_default(row, value) {
                Some(0)
            } else {
                row_size(row, value)
            }
        }
        None => Some(0),
    }
}

/// The size of the elements of a list.
#[cycle(size)]
fn items_size(items: &Vec<Value>, node: NodeId) -> Option<usize>
    ensures { IsSizeWithin result
        (sizes (normal_items (items_content items.now.items) (rows_of node))) }
{
    let row = row_at(node, 0);
    let mut sum = 0;
    for item in items {
        sum = within_limit(sum + item_size(row, item)?)?;
    }
    Some(sum)
}

/// The size of an item's element.
#[cycle(size)]
fn item_size(row: Option<Row>, item: &Value) -> Option<usize>
    ensures { IsSizeWithin result (sizes (item_trees row item.now)) }
{
    match row {
        Some(row) => row_size(row, item),
        None => Some(0),
    }
}

/// The number of the APDU whose body a node is.
fn apdu_number(node: NodeId) -> Option<u8>
    ensures { result ≡ apdu_number_of node }
{
    match node {
        NodeId::IllRequest => Some(1),
        NodeId::Shipped => Some(3),
        NodeId::IllAnswer => Some(4),
        NodeId::ConditionalReply => Some(5),
        NodeId::Cancel => Some(6),
        NodeId::CancelReply => Some(7),
        NodeId::Received => Some(8),
        NodeId::Recall => Some(9),
        NodeId::Returned => Some(10),
        NodeId::CheckedIn => Some(11),
        NodeId::Overdue => Some(12),
        NodeId::Renew => Some(13),
        NodeId::RenewAnswer => Some(14),
        NodeId::Lost => Some(15),
        NodeId::Damaged => Some(16),
        NodeId::MessageApdu => Some(17),
        NodeId::StatusQuery => Some(18),
        NodeId::Expired => Some(20),
        _ => None,
    }
}

/// The row of ILL-APDU that carries a body of a node.
fn apdu_row(node: NodeId) -> Option<Row>
    ensures { result ≡ apdu_row_of node }
{
    let number = apdu_number(node)?;
    row(PartId {
        node: NodeId::ILL_APDU,
        row: number - 1,
    })
}

fn node_size(value: &Value, node: NodeId) -> Option<usize>
    ensures { IsSizeWithin result
        (size (node_tree (apdu_row_of node) node (content_of value.now))) }
{
    match apdu_row(node) {
        Some(row) => row_size(row, value),
        None => value_size(value, node, None),
    }
}

/// The size of a value's normal form as a node, in octets, None exactly where that passes
/// [`LIMIT`]. For an APDU's node the application element is counted, else the element is
/// without a row's tag.
pub fn normal_size(value: &Value, node: NodeId) -> Option<u32>
    requires { Fits profile_two (content_of value.now) node }
    ensures { IsSizeWithin result (length (node_form (content_of value.now) node)) }
{
    let size = node_size(value, node)?;
    Some(size as u32)
}
