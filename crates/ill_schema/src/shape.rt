//! The shapes of nodes, and the values that have them.
ghost use Rattle.std.specs.Prelude.{◌≡◌, ◌↔◌, IsTrue, MatchOption};
ghost use Rattle.ber_leaf.specs.Profile.{profile_two};
ghost use Rattle.ber_leaf.specs.Simple.{flag, whole, date, time, printable};
ghost use Rattle.ber_leaf.specs.Strings.{string_value};
ghost use Rattle.ill_schema.specs.Fits.{FitsSimple, Fits};
ghost use Rattle.ill_schema.specs.Meaning.{IsAlternative};
ghost use Rattle.ill_tables.specs.Table.{kind_of};
ghost use Rattle.ill_schema.specs.Value.{content_of};
ghost use Rattle.ill_schema.specs.code.ValueFits.{IsNumeric, EntriesFit, ItemFits, ItemsFit};
ghost use Rattle.ill_tables.specs.declared.part.Row.{Row};

use crate::entry::{is_carried, may_lack};
use crate::value::Value;
use ber_leaf::{DateText, IllString, PrintableText, TimeText};
use ill_tables::{Kind, LeafKind, NodeId, PartId, Row, kind, row, rows_of};

/// The row that a choice may take under a number.
fn alternative(node: NodeId, number: u8) -> Option<Row>
    ensures { MatchOption result ((row : Row) → IsAlternative node number row → ⊥)
        (IsAlternative node number) }
{
    if kind(node) != Kind::Choice {
        return None;
    }
    let row = row(PartId { node, row: number })?;
    is_carried(row.presence).then_some(row)
}

fn has_kind(node: NodeId, wanted: Kind) -> bool
    ensures { IsTrue result ↔ (kind_of node ≡ wanted) }
{
    kind(node) == wanted
}

fn flag_fits(value: bool, node: NodeId) -> bool
    ensures { IsTrue result ↔ FitsSimple profile_two (flag value) node }
{
    let _ = value;
    has_kind(node, Kind::Leaf(LeafKind::Boolean))
}

fn is_numeric(node: NodeId) -> bool
    ensures { IsTrue result ↔ IsNumeric (kind_of node) }
{
    matches!(
        kind(node),
        Kind::Leaf(LeafKind::Integer | LeafKind::Enumerated)
    )
}

fn number_fits(number: i64, node: NodeId) -> bool
    ensures { IsTrue result ↔ FitsSimple profile_two (whole number) node }
{
    let _ = number;
    is_numeric(node)
}

// In the next four the call shows the proof that the octets are a content.

fn date_fits(text: &DateText, node: NodeId) -> bool
    ensures { IsTrue result ↔ FitsSimple profile_two (date text.now) node }
{
    text.octets();
    has_kind(node, Kind::Leaf(LeafKind::Date))
}

fn time_fits(text: &TimeText, node: NodeId) -> bool
    ensures { IsTrue result ↔ FitsSimple profile_two (time text.now) node }
{
    text.octets();
    has_kind(node, Kind::Leaf(LeafKind::Time))
}

fn printable_fits(text: &PrintableText, node: NodeId) -> bool
    ensures { IsTrue result ↔ FitsSimple profile_two (printable text.now) node }
{
    text.octets();
    has_kind(node, Kind::Leaf(LeafKind::Printable))
}

fn string_fits(string: &IllString, node: NodeId) -> bool
    ensures { IsTrue result ↔ FitsSimple profile_two (string_value string.now) node }
{
    string.octets();
    has_kind(node, Kind::IllString)
}

/// Tells whether a value has the shape of a node: one entry for each row of a sequence, where mandatory
/// rows and those with a default hold one and left out rows hold none, an alternative that is
/// carried, and leaves of the node's kind.
#[cycle(fits)]
pub fn fits(value: &Value, node: NodeId) -> bool
    ensures { IsTrue result ↔ Fits profile_two (content_of value.now) node }
{
    match value {
        Value::Flag(flag) => flag_fits(*flag, node),
        Value::Whole(number) => number_fits(*number, node),
        Value::Date(text) => date_fits(text, node),
        Value::Time(text) => time_fits(text, node),
        Value::Print(text) => printable_fits(text, node),
        Value::Str(string) => string_fits(string, node),
        Value::Seq(entries) => has_kind(node, Kind::Seq) && fit_rows(entries, rows_of(node)),
        Value::List(items) => has_kind(node, Kind::SeqOf) && fit_items(items, rows_of(node)),
        Value::Alt(number, chosen) => match alternative(node, *number) {
            Some(row) => fits(chosen, row.node),
            None => false,
        },
    }
}

#[cycle(fits)]
fn fit_rows(entries: &Vec<Option<Value>>, rows: &[Row]) -> bool
    ensures { IsTrue result ↔ EntriesFit entries.now.items rows.now }
{
    if entries.len() != rows.len() {
        return false;
    }
    for (i, entry) in entries.iter().enumerate() {
        let row = rows[i];
        let fit = match entry {
            Some(value) => is_carried(row.presence) && fits(value, row.node),
            None => may_lack(row.presence),
        };
        if !fit {
            return false;
        }
    }
    true
}

#[cycle(fits)]
fn fit_items(items: &Vec<Value>, rows: &[Row]) -> bool
    ensures { IsTrue result ↔ ItemsFit items.now.items rows.now }
{
    for item in items {
        if !fits_first(item, rows) {
            return false;
        }
    }
    true
}

/// Tells whether an item fits the row of a list.
#[cycle(fits)]
fn fits_first(item: &Value, rows: &[Row]) -> bool
    ensures { IsTrue result ↔ ItemFits item.now rows.now }
{
    match rows.first() {
        Some(row) => fits(item, row.node),
        None => false,
    }
}
