//! Names of elements.
use crate::lines::LineBuffer;
use crate::universal::universal_type;
use ber_core::{Class, Id};
use ill_grammar::{Element, EntryRole, Found};
use ill_schema::{NodeId, PartId, part_name};
use std::alloc::AllocError;

/// The name of an element.
#[derive(Clone, Copy)]
pub enum Label {
    /// The name of its row, or of the alternative that it is.
    Row(PartId),
    /// The names of a row, and of the alternative of its choice.
    Alternative(PartId, PartId),
    /// The name of the row of a list, and the number of items before it.
    Item(PartId, usize),
    /// The name of its type, where the element round it has the name of the row.
    Type(&'static str),
    /// The class and number of an element of a foreign tree.
    Tag(Class, u32),
}

/// The name of what was found by this identifier in an element of this node, after `items` elements.
pub fn label_of(found: Found, id: Id, parent: NodeId, items: usize) -> Label {
    let part = found.part();
    match found.slot() {
        EntryRole::Row => match found.alternative() {
            Some(_) => {
                let row = found.row();
                Label::Alternative(PartId { node: parent, row }, part)
            }
            None => Label::Row(part),
        },
        EntryRole::Item => Label::Item(part, items),
        EntryRole::Inner if found.node() == NodeId::External => Label::Type("EXTERNAL"),
        EntryRole::Inner => match found.alternative() {
            Some(_) => Label::Row(part),
            None => Label::Type(type_name(found.element())),
        },
        EntryRole::Segment => Label::Type(type_name(found.element())),
        EntryRole::Root | EntryRole::Foreign => Label::Tag(id.class(), id.number()),
    }
}

/// The name of a type.
fn type_name(element: Element) -> &'static str {
    match element {
        Element::Leaf(leaf) => leaf.name(),
        Element::ModuleLeaf(leaf) => leaf.name(),
        Element::Segment => "OCTET STRING",
        Element::BitString | Element::BitSegment => "BIT STRING",
        Element::Foreign(_) => "ANY",
        Element::Sequence(_) | Element::List(_) | Element::Wrapper(_) | Element::LooseWrapper(_) =>
            "SEQUENCE",
    }
}

/// The name of a row.
fn row_name(part: PartId) -> &'static str {
    part_name(part).map_or("", |(_, row)| row)
}

impl Label {
    /// Tells whether the name is one of the tables.
    pub fn is_named(self) -> bool {
        !matches!(self, Label::Type(_) | Label::Tag(_, _))
    }

    pub fn put(self, lines: &mut LineBuffer) -> Result<(), AllocError> {
        match self {
            Label::Row(part) => lines.text(row_name(part)),
            Label::Alternative(row, part) => {
                lines.text(row_name(row))?;
                lines.text(".")?;
                lines.text(row_name(part))
            }
            Label::Item(part, index) => {
                let name = row_name(part);
                lines.text(if name.is_empty() { "item" } else { name })?;
                lines.text("[")?;
                lines.count(index)?;
                lines.text("]")
            }
            Label::Type(name) => lines.text(name),
            Label::Tag(class, number) => put_typed_tag(lines, class, number),
        }
    }
}

/// A tag, and the type that has it where it is a universal one.
pub fn put_typed_tag(lines: &mut LineBuffer, class: Class, number: u32) -> Result<(), AllocError> {
    put_tag(lines, class, number)?;
    match (class, universal_type(number)) {
        (Class::Universal, Some(name)) => {
            lines.text(" ")?;
            lines.text(name)
        }
        _ => Ok(()),
    }
}

/// A tag as it is written in ASN.1.
fn put_tag(lines: &mut LineBuffer, class: Class, number: u32) -> Result<(), AllocError> {
    lines.text(match class {
        Class::Universal => "[UNIVERSAL ",
        Class::Application => "[APPLICATION ",
        Class::Context => "[",
        Class::Private => "[PRIVATE ",
    })?;
    lines.number(i64::from(number))?;
    lines.text("]")
}
