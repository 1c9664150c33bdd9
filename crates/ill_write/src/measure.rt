//! The sizes of elements, of which those of constructed contents are pushed in the order of the headers.
ghost use Rattle.std.specs.Prelude.{◌≡◌, ◌≤◌, IfOk, IsTrue, Some, false};
ghost use Rattle.ber_core.specs.Der.{size, sizes};
ghost use Rattle.ber_tree.specs.Identifier.{HasIdentifier};
ghost use Rattle.ber_tree.specs.Tree.{primitive};
ghost use Rattle.ber_leaf.specs.Leaf.{normal_content};
ghost use Rattle.ber_leaf.specs.Profile.{profile_two};
ghost use Rattle.ber_leaf.specs.Strings.{string_value};
ghost use Rattle.ill_schema.specs.Elements.{tag_at, row_tree, element_tree, place_trees, item_trees};
ghost use Rattle.ill_schema.specs.Normal.{normal_trees, normal_items};
ghost use Rattle.ill_tables.specs.Table.{rows_of};
ghost use Rattle.ill_schema.specs.Value.{content_of, entries_content, items_content};
ghost use Rattle.ill_write.specs.code.Measured.{Measures, MeasuresOne};
ghost use Rattle.ill_write.specs.code.Valid.{is_valid, is_valid_tag, is_valid_place};

use crate::element::{element_size, element_tag, row_at};
use ber_core::Class;
use ber_leaf::{
    DateText, Flag, GeneralText, IllString, Leaf, PrintableText, TimeText, VisibleText, Whole,
};
use ill_schema::{NodeId, PartId, Row, Value, is_default, replacement, row, wrapper};
use std::alloc::AllocError;

/// The size of a row's element.
#[cycle(measure)]
pub fn measure_row(row: Row, value: &Value, out: &mut Vec<u32>) -> Result<u32, AllocError>
    requires valid { IsTrue (is_valid row) }
    requires small { size (row_tree row (content_of value.now)) ≤ profile_two.limit }
    ensures { IfOk result (λ n.
        MeasuresOne out.old.items out.new.items n (row_tree row (content_of value.now))) }
{
    match wrapper(row) {
        Some(tag) => {
            let place = out.len();
            out.push(0)?;
            let inside = measure_value(value, row.node, None, out)?;
            out[place] = inside;
            Ok(element_size(tag, true, inside))
        }
        None => measure_value(value, row.node, replacement(row), out),
    }
}

/// The size of a value's element, where this tag may replace its own.
#[cycle(measure)]
fn measure_value(
    value: &Value,
    node: NodeId,
    replaced: Option<(Class, u32)>,
    out: &mut Vec<u32>,
) -> Result<u32, AllocError>
    requires valid { IsTrue (is_valid_tag replaced) }
    requires small { size (element_tree replaced node (content_of value.now)) ≤ profile_two.limit }
    ensures { IfOk result (λ n.
        MeasuresOne out.old.items out.new.items n
        (element_tree replaced node (content_of value.now))) }
{
    let tag = element_tag(value, node, replaced);
    match value {
        Value::Flag(flag) => Ok(leaf_size::<Flag>(tag, flag)),
        Value::Whole(number) => Ok(leaf_size::<Whole>(tag, number)),
        Value::Date(text) => Ok(leaf_size::<DateText>(tag, text)),
        Value::Time(text) => Ok(leaf_size::<TimeText>(tag, text)),
        Value::Print(text) => Ok(leaf_size::<PrintableText>(tag, text)),
        Value::Str(text) => Ok(string_size(tag, text)),
        Value::Seq(entries) => {
            let place = out.len();
            out.push(0)?;
            let inside = measure_entries(entries, node, out)?;
            out[place] = inside;
            Ok(element_size(tag, true, inside))
        }
        Value::List(items) => {
            let place = out.len();
            out.push(0)?;
            let inside = measure_items(items, node, out)?;
            out[place] = inside;
            Ok(element_size(tag, true, inside))
        }
        Value::Alt(number, chosen) => match row(PartId { node, row: *number }) {
            Some(row) => measure_row(row, chosen, out),
            None => {
                out.push(0)?;
                Ok(element_size(tag, true, 0))
            }
        },
    }
}

/// The size of a leaf's element.
fn leaf_size<L: Leaf>(tag: (Class, u32), value: &L::Out) -> u32
    requires id { HasIdentifier (tag_at tag) false }
    requires small { size (primitive (tag_at tag) (normal_content (L.simple value.now)))
        ≤ profile_two.limit }
    ensures { result ≡ size (primitive (tag_at tag) (normal_content (L.simple value.now))) }
{
    element_size(tag, false, L::normal_size(value) as u32)
}

/// The size of a string's element.
fn string_size(tag: (Class, u32), string: &IllString) -> u32
    requires id { HasIdentifier (tag_at tag) false }
    requires small { size (primitive (tag_at tag) (normal_content (string_value string.now)))
        ≤ profile_two.limit }
    ensures { result ≡ size (primitive (tag_at tag) (normal_content (string_value string.now))) }
{
    match string {
        IllString::General(text) => leaf_size::<GeneralText>(tag, text),
        IllString::Visible(text) => leaf_size::<VisibleText>(tag, text),
    }
}

/// The size of the elements of a sequence.
#[cycle(measure)]
fn measure_entries(
    entries: &Vec<Option<Value>>,
    node: NodeId,
    out: &mut Vec<u32>,
) -> Result<u32, AllocError>
    requires { sizes (normal_trees (entries_content entries.now.items) (rows_of node))
        ≤ profile_two.limit }
    ensures { IfOk result (λ n.
        Measures out.old.items out.new.items n (normal_trees (entries_content entries.now.items)
        (rows_of node))) }
{
    let mut sum = 0;
    for (i, entry) in entries.iter().enumerate() {
        if let Some(value) = entry {
            sum += measure_present(row_at(node, i), value, out)?;
        }
    }
    Ok(sum)
}

/// The size of an entry's element: none where it is its row's default.
#[cycle(measure)]
fn measure_present(row: Option<Row>, value: &Value, out: &mut Vec<u32>) -> Result<u32, AllocError>
    requires valid { IsTrue (is_valid_place row) }
    requires small { sizes (place_trees row (Some value.now)) ≤ profile_two.limit }
    ensures { IfOk result (λ n.
        Measures out.old.items out.new.items n (place_trees row (Some value.now))) }
{
    match row {
        Some(row) => {
            if is_default(row, value) {
                Ok(0)
            } else {
                measure_row(row, value, out)
            }
        }
        None => Ok(0),
    }
}

/// The size of the elements of a list.
#[cycle(measure)]
fn measure_items(items: &Vec<Value>, node: NodeId, out: &mut Vec<u32>) -> Result<u32, AllocError>
    requires { sizes (normal_items (items_content items.now.items) (rows_of node))
        ≤ profile_two.limit }
    ensures { IfOk result (λ n.
        Measures out.old.items out.new.items n (normal_items (items_content items.now.items)
        (rows_of node))) }
{
    let row = row_at(node, 0);
    let mut sum = 0;
    for item in items {
        sum += measure_item(row, item, out)?;
    }
    Ok(sum)
}

/// The size of an item's element.
#[cycle(measure)]
fn measure_item(row: Option<Row>, item: &Value, out: &mut Vec<u32>) -> Result<u32, AllocError>
    requires valid { IsTrue (is_valid_place row) }
    requires small { sizes (item_trees row item.now) ≤ profile_two.limit }
    ensures { IfOk result (λ n. Measures out.old.items out.new.items n (item_trees row item.now)) }
{
    match row {
        Some(row) => measure_row(row, item, out),
        None => Ok(0),
    }
}
