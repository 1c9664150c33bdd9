//! The values of leaves.
use crate::lines::LineBuffer;
use ber_leaf::{BitString, Leaf};
use ill_grammar::{Element, ValueKind, add_identifier};
use ill_read::{LeafType, Mark};
use ill_schema::{NodeId, PartId, Profile, Value, is_default, number_name, row, row_name};
use std::alloc::{AllocError, Global};

/// The value of a leaf with this content, and whether it is the default of its row.
pub fn put_leaf(
    lines: &mut LineBuffer,
    alloc: Global,
    leaf: LeafType,
    part: PartId,
    content: &[u8],
) -> Result<bool, AllocError> {
    match leaf {
        LeafType::Boolean | LeafType::Integer | LeafType::Enumerated => {
            put_value(lines, alloc, leaf, part, content)
        }
        LeafType::Date | LeafType::Time => {
            lines.raw(content)?;
            Ok(false)
        }
        LeafType::General | LeafType::Visible | LeafType::Printable => {
            lines.quoted(content)?;
            Ok(false)
        }
    }
}

/// The value of a BOOLEAN or a number, and whether it is the default of its row.
fn put_value(
    lines: &mut LineBuffer,
    alloc: Global,
    leaf: LeafType,
    part: PartId,
    content: &[u8],
) -> Result<bool, AllocError> {
    if leaf.fault(Profile::Two, content).is_some() {
        lines.hex(content)?;
        return Ok(false);
    }
    let value = leaf.value(content.to_vec(alloc)?);
    put_value_text(lines, part, &value)?;
    Ok(row(part).is_some_and(|row| is_default(row, &value)))
}

fn put_value_text(lines: &mut LineBuffer, part: PartId, value: &Value) -> Result<(), AllocError> {
    match value {
        Value::Flag(true) => lines.text("TRUE"),
        Value::Flag(false) => lines.text("FALSE"),
        Value::Whole(number) => put_number(lines, part, *number),
        _ => Ok(()),
    }
}

/// A number, and in brackets its name in its row, if it has one.
fn put_number(lines: &mut LineBuffer, part: PartId, number: i64) -> Result<(), AllocError> {
    lines.number(number)?;
    let Some(name) = number_name(name_of_numbers(part), number) else {
        return Ok(());
    };
    lines.text(" (")?;
    lines.text(name)?;
    lines.text(")")
}

/// The name by which the numbers of a part have names: that of the row; of items the name of the row in which the list stands.
fn name_of_numbers(part: PartId) -> &'static str {
    match part.node {
        NodeId::IllServiceTypes => "ill-service-type",
        node => row_name(node, part.row as usize),
    }
}

/// The content of a primitive element that is no leaf of profile 2.
pub fn put_module_leaf(
    lines: &mut LineBuffer,
    alloc: Global,
    element: Element,
    content: &[u8],
) -> Result<(), AllocError> {
    match element {
        Element::ModuleLeaf(leaf) if leaf.fault(content).is_none() => {
            put_kind(lines, alloc, leaf.value_kind(), content)
        }
        Element::BitString | Element::BitSegment if BitString::check(content).is_none() => {
            put_bits(lines, content)
        }
        Element::ModuleLeaf(_) | Element::BitString | Element::BitSegment => lines.hex(content),
        Element::Foreign(_) => lines.content(content),
        Element::Segment
        | Element::Leaf(_)
        | Element::Sequence(_)
        | Element::List(_)
        | Element::Wrapper(_)
        | Element::LooseWrapper(_) => lines.quoted(content),
    }
}

/// The value that the content of a leaf of the module profile holds, by its kind.
fn put_kind(
    lines: &mut LineBuffer,
    alloc: Global,
    kind: ValueKind,
    content: &[u8],
) -> Result<(), AllocError> {
    match kind {
        ValueKind::Null => lines.text("NULL"),
        ValueKind::Identifier => put_identifier(lines, alloc, content),
        ValueKind::Octets => lines.content(content),
        ValueKind::Text => lines.quoted(content),
    }
}

/// An OBJECT IDENTIFIER, its numbers with dots between them.
fn put_identifier(lines: &mut LineBuffer, alloc: Global, content: &[u8]) -> Result<(), AllocError> {
    let mut marks = Vec::new(alloc);
    for octet in content {
        marks.push(Mark::Octet(*octet))?;
    }
    let mut text = String::new(alloc);
    add_identifier(&mut text, &marks)?;
    lines.text(&text)
}

/// The number of bits, and the octets that they fill.
fn put_bits(lines: &mut LineBuffer, content: &[u8]) -> Result<(), AllocError> {
    let Some((unused, filled)) = content.split_first() else {
        return Ok(());
    };
    lines.text("bits ")?;
    lines.count(
        filled
            .len()
            .saturating_mul(8)
            .saturating_sub(*unused as usize),
    )?;
    if filled.is_empty() {
        return Ok(());
    }
    lines.text(" ")?;
    for octet in filled {
        lines.octet(*octet)?;
    }
    Ok(())
}

/// Tells whether unused bits of a BIT STRING with this content are not 0.
pub fn has_unused_bits_set(content: &[u8]) -> bool {
    match content {
        [unused, .., last] if *unused < 8 => *last as u16 % (1 << *unused) != 0,
        _ => false,
    }
}
