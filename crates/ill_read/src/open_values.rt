//! The values in the open elements, until those round them are whole.
ghost use Rattle.std.specs.Prelude.{◌≡◌, ◌++◌, [], ◌∷◌, Some, length, take, drop, option_map, IfOk, OnOk};
ghost use Rattle.ill_schema.specs.Content.{simple};
ghost use Rattle.ill_schema.specs.Presence.{default_value};
ghost use Rattle.ill_tables.specs.Table.{kind_of, rows_of};
ghost use Rattle.ill_schema.specs.Value.{content_of};
ghost use Rattle.ill_read.specs.code.OpenValues.{HasAddedAbsent, HasAdded, IsSequence, IsList, IsLast};
ghost use Rattle.ill_read.specs.code.Drafts.{rows_before, rows_left};
ghost use Rattle.ill_grammar.specs.Contents.{absent_content};

use ill_grammar::{Next, Slot};
use ill_schema::{Kind, LeafKind, NodeId, PartId, Presence, Row, Value, kind, row, rows, rows_of};
use std::alloc::{AllocError, Global};

/// The values in the open elements, those of the innermost last. A sequence has an entry for each row up to that of its last element.
#[derive(Drop)]
pub struct OpenValues {
    entries: Vec<Option<Value>>,
}

/// The entry of a row that has no element: its default, or none.
fn absent(row: Row) -> Option<Value>
    ensures { option_map content_of result ≡ absent_content row }
{
    match row.presence {
        Presence::Default(number) => Some(default_value(row.node, number)),
        _ => None,
    }
}

fn default_value(node: NodeId, number: i64) -> Value
    ensures { content_of result ≡ simple (default_value (kind_of node) number) }
{
    match kind(node) {
        Kind::Leaf(LeafKind::Boolean) => Value::Flag(number == 1),
        _ => Value::Whole(number),
    }
}

impl OpenValues {
    pub fn new(alloc: Global) -> OpenValues
        ensures { result.entries.items ≡ [] }
    {
        OpenValues {
            entries: Vec::new(alloc),
        }
    }

    pub fn len(&self) -> usize
        ensures { result ≡ length self.now.entries.items }
    {
        self.entries.len()
    }

    /// Adds the value of an element at the slot, where this may come next in the element round it.
    pub fn add(&mut self, next: Next, slot: Slot, value: Value) -> Result<(), AllocError>
        ensures { OnOk result (HasAdded (rows_before next slot) value self.old.entries.items
            self.new.entries.items) }
    {
        match (next, slot) {
            (Next::Rows(node, position), Slot::Row(row)) => self.add_absent(node, position, row)?,
            (Next::Either(wrapped), Slot::Row(row)) => self.add_absent(wrapped.node, 0, row)?,
            _ => {}
        }
        self.entries.push(Some(value))?;
        Ok(())
    }

    /// Passes the rows that are still to come.
    fn add_absent_rest(&mut self, next: Next) -> Result<(), AllocError>
        ensures { OnOk result (HasAddedAbsent (rows_left next) self.old.entries.items
            self.new.entries.items) }
    {
        match next {
            Next::Rows(node, position) => self.add_absent(node, position, rows(node)),
            Next::Either(wrapped) => self.add_absent(wrapped.node, 0, rows(wrapped.node)),
            _ => Ok(()),
        }
    }

    /// Passes rows that have no element.
    fn add_absent(&mut self, node: NodeId, from: u8, until: u8) -> Result<(), AllocError>
        ensures { OnOk result (HasAddedAbsent (drop from (take until (rows_of node)))
            self.old.entries.items self.new.entries.items) }
    {
        for number in from..until {
            if let Some(row) = row(PartId { node, row: number }) {
                self.entries.push(absent(row))?;
            }
        }
        Ok(())
    }

    /// The sequence whose entries are held from index `contents_start` on, where this may come next in it.
    pub fn sequence(&mut self, next: Next, contents_start: usize) -> Result<Value, AllocError>
        ensures { IfOk result (λ v. IsSequence (rows_left next) contents_start v
            self.old.entries.items self.new.entries.items) }
    {
        self.add_absent_rest(next)?;
        let contents_start = contents_start.min(self.len());
        Ok(Value::Seq(self.entries.split_off(contents_start)?))
    }

    /// The list whose items are held from index `contents_start` on.
    pub fn list(&mut self, alloc: Global, contents_start: usize) -> Result<Value, AllocError>
        ensures { IfOk result (λ v. IsList contents_start v self.old.entries.items
            self.new.entries.items) }
    {
        let contents_start = contents_start.min(self.len());
        let mut items = Vec::with_capacity(alloc, self.len() - contents_start)?;
        for held in self.entries.drain(contents_start..) {
            let Some(item) = held else {
                continue;
            };
            items.push(item)?;
        }
        Ok(Value::List(items))
    }

    /// The value that is held last.
    pub fn last(&mut self) -> Option<Value>
        ensures { IsLast result self.old.entries.items self.new.entries.items }
    {
        self.entries.pop().flatten()
    }
}
