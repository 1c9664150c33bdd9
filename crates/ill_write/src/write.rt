//! Elements, written with the content sizes that were measured.
ghost use Rattle.std.specs.Prelude.{◌≡◌, ◌+◌, ◌≤◌, length, IfOk, IsErr, IsTrue, Some};
ghost use Rattle.ber_core.specs.Der.{encoding, encodings, size, sizes};
ghost use Rattle.ber_leaf.specs.Profile.{profile_two};
ghost use Rattle.ill_schema.specs.Elements.{row_tree, element_tree, place_trees, item_trees};
ghost use Rattle.ill_schema.specs.Normal.{normal_trees, normal_items};
ghost use Rattle.ill_tables.specs.Table.{rows_of};
ghost use Rattle.ill_schema.specs.Value.{content_of, entries_content, items_content};
ghost use Rattle.ill_write.specs.code.NextAre.{NextAre};
ghost use Rattle.ill_write.specs.ContentSizes.{content_sizes, all_content_sizes};
ghost use Rattle.ill_write.specs.code.Puts.{Puts};
ghost use Rattle.ill_write.specs.code.Valid.{is_valid, is_valid_tag, is_valid_place};

use crate::buffered_sink::BufferedSink;
use crate::element::{element_tag, row_at};
use crate::pieces::{open_element, write_primitive, write_short_contents};
use ber_core::{Broken, Class, Sink};
use ber_leaf::{Flag, Whole};
use ill_schema::{NodeId, PartId, Row, Value, is_default, replacement, row, wrapper};

/// Writes a row's element.
#[cycle(write)]
pub fn write_row<W: Sink>(
    row: Row,
    value: &Value,
    contents: &[u32],
    progress: &mut BufferedSink,
    sink: &mut W,
) -> Result<(), Broken>
    requires valid { IsTrue (is_valid row) }
    requires small { size (row_tree row (content_of value.now)) ≤ profile_two.limit }
    requires coming { NextAre contents.now progress.old.next
        (content_sizes (row_tree row (content_of value.now))) }
    ensures puts { Puts result (encoding (row_tree row (content_of value.now)))
        (W.contents sink.old) progress.old (W.contents sink.new) progress.new }
    ensures next { IfOk result (λ _.
        progress.new.next ≡ progress.old.next + length
        (content_sizes (row_tree row (content_of value.now)))) }
    ensures breaks { IsErr result → IsTrue (W.is_broken sink.new) }
    ensures stays { IsTrue (W.is_broken sink.old) → IsTrue (W.is_broken sink.new) }
{
    match wrapper(row) {
        Some(tag) => {
            open_element(tag, contents, progress, sink)?;
            write_value(value, row.node, None, contents, progress, sink)
        }
        None => write_value(value, row.node, replacement(row), contents, progress, sink),
    }
}

/// Writes a value's element, where this tag may replace its own.
#[cycle(write)]
fn write_value<W: Sink>(
    value: &Value,
    node: NodeId,
    replaced: Option<(Class, u32)>,
    contents: &[u32],
    progress: &mut BufferedSink,
    sink: &mut W,
) -> Result<(), Broken>
    requires valid { IsTrue (is_valid_tag replaced) }
    requires small { size (element_tree replaced node (content_of value.now)) ≤ profile_two.limit }
    requires coming { NextAre contents.now progress.old.next
        (content_sizes (element_tree replaced node (content_of value.now))) }
    ensures puts { Puts result (encoding (element_tree replaced node (content_of value.now)))
        (W.contents sink.old) progress.old (W.contents sink.new) progress.new }
    ensures next { IfOk result (λ _.
        progress.new.next ≡ progress.old.next + length
        (content_sizes (element_tree replaced node (content_of value.now)))) }
    ensures breaks { IsErr result → IsTrue (W.is_broken sink.new) }
    ensures stays { IsTrue (W.is_broken sink.old) → IsTrue (W.is_broken sink.new) }
{
    let tag = element_tag(value, node, replaced);
    match value {
        Value::Flag(flag) => write_short_contents::<Flag, W>(tag, flag, progress, sink),
        Value::Whole(number) => write_short_contents::<Whole, W>(tag, number, progress, sink),
        Value::Date(text) => write_primitive(tag, text.octets(), progress, sink),
        Value::Time(text) => write_primitive(tag, text.octets(), progress, sink),
        Value::Print(text) => write_primitive(tag, text.octets(), progress, sink),
        Value::Str(text) => write_primitive(tag, text.octets(), progress, sink),
        Value::Seq(entries) => {
            open_element(tag, contents, progress, sink)?;
            write_entries(entries, node, contents, progress, sink)
        }
        Value::List(items) => {
            open_element(tag, contents, progress, sink)?;
            write_items(items, node, contents, progress, sink)
        }
        Value::Alt(number, chosen) => match row(PartId { node, row: *number }) {
            Some(row) => write_row(row, chosen, contents, progress, sink),
            None => open_element(tag, contents, progress, sink),
        },
    }
}

/// Writes the elements of a sequence.
#[cycle(write)]
fn write_entries<W: Sink>(
    entries: &Vec<Option<Value>>,
    node: NodeId,
    contents: &[u32],
    progress: &mut BufferedSink,
    sink: &mut W,
) -> Result<(), Broken>
    requires small { sizes (normal_trees (entries_content entries.now.items) (rows_of node))
        ≤ profile_two.limit }
    requires coming { NextAre contents.now progress.old.next
        (all_content_sizes (normal_trees (entries_content entries.now.items) (rows_of node))) }
    ensures puts { Puts result
        (encodings (normal_trees (entries_content entries.now.items) (rows_of node)))
        (W.contents sink.old) progress.old (W.contents sink.new) progress.new }
    ensures next { IfOk result (λ _.
        progress.new.next ≡ progress.old.next + length
        (all_content_sizes (normal_trees (entries_content entries.now.items) (rows_of node)))) }
    ensures breaks { IsErr result → IsTrue (W.is_broken sink.new) }
    ensures stays { IsTrue (W.is_broken sink.old) → IsTrue (W.is_broken sink.new) }
{
    for (i, entry) in entries.iter().enumerate() {
        if let Some(value) = entry {
            write_present(row_at(node, i), value, contents, progress, sink)?;
        }
    }
    Ok(())
}

/// Writes an entry's element, unless it is its row's default.
#[cycle(write)]
fn write_present<W: Sink>(
    row: Option<Row>,
    value: &Value,
    contents: &[u32],
    progress: &mut BufferedSink,
    sink: &mut W,
) -> Result<(), Broken>
    requires valid { IsTrue (is_valid_place row) }
    requires small { sizes (place_trees row (Some value.now)) ≤ profile_two.limit }
    requires coming { NextAre contents.now progress.old.next
        (all_content_sizes (place_trees row (Some value.now))) }
    ensures puts { Puts result (encodings (place_trees row (Some value.now)))
        (W.contents sink.old) progress.old (W.contents sink.new) progress.new }
    ensures next { IfOk result (λ _.
        progress.new.next ≡ progress.old.next + length
        (all_content_sizes (place_trees row (Some value.now)))) }
    ensures breaks { IsErr result → IsTrue (W.is_broken sink.new) }
    ensures stays { IsTrue (W.is_broken sink.old) → IsTrue (W.is_broken sink.new) }
{
    match row {
        Some(row) => {
            if is_default(row, value) {
                Ok(())
            } else {
                write_row(row, value, contents, progress, sink)
            }
        }
        None => Ok(()),
    }
}

/// Writes the elements of a list.
#[cycle(write)]
fn write_items<W: Sink>(
    items: &Vec<Value>,
    node: NodeId,
    contents: &[u32],
    progress: &mut BufferedSink,
    sink: &mut W,
) -> Result<(), Broken>
    requires small { sizes (normal_items (items_content items.now.items) (rows_of node))
        ≤ profile_two.limit }
    requires coming { NextAre contents.now progress.old.next
        (all_content_sizes (normal_items (items_content items.now.items) (rows_of node))) }
    ensures puts { Puts result
        (encodings (normal_items (items_content items.now.items) (rows_of node)))
        (W.contents sink.old) progress.old (W.contents sink.new) progress.new }
    ensures next { IfOk result (λ _.
        progress.new.next ≡ progress.old.next + length
        (all_content_sizes (normal_items (items_content items.now.items) (rows_of node)))) }
    ensures breaks { IsErr result → IsTrue (W.is_broken sink.new) }
    ensures stays { IsTrue (W.is_broken sink.old) → IsTrue (W.is_broken sink.new) }
{
    let row = row_at(node, 0);
    for item in items {
        write_item(row, item, contents, progress, sink)?;
    }
    Ok(())
}

/// Writes an item's element.
#[cycle(write)]
fn write_item<W: Sink>(
    row: Option<Row>,
    item: &Value,
    contents: &[u32],
    progress: &mut BufferedSink,
    sink: &mut W,
) -> Result<(), Broken>
    requires valid { IsTrue (is_valid_place row) }
    requires small { sizes (item_trees row item.now) ≤ profile_two.limit }
    requires coming { NextAre contents.now progress.old.next
        (all_content_sizes (item_trees row item.now)) }
    ensures puts { Puts result (encodings (item_trees row item.now))
        (W.contents sink.old) progress.old (W.contents sink.new) progress.new }
    ensures next { IfOk result (λ _.
        progress.new.next ≡ progress.old.next + length
        (all_content_sizes (item_trees row item.now))) }
    ensures breaks { IsErr result → IsTrue (W.is_broken sink.new) }
    ensures stays { IsTrue (W.is_broken sink.old) → IsTrue (W.is_broken sink.new) }
{
    match row {
        Some(row) => write_row(row, item, contents, progress, sink),
        None => Ok(()),
    }
}
