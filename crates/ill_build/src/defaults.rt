//! Messages in which each row that has its default has an element.
ghost use Rattle.std.specs.Prelude.{◌≡◌, ◌<◌, ◌≤◌, ℕ, Bool, IfOk, OnOk, Some, false, length, slice_get, true};
ghost use Rattle.ber_tree.specs.Identifier.{HasIdentifier};
ghost use Rattle.ill_schema.specs.Apdu.{Apdu, SpellsApdu, normal_form_in};
ghost use Rattle.ill_schema.specs.Elements.{tag_at};
ghost use Rattle.ill_schema.specs.Profiles.{profile_of};
ghost use Rattle.ill_tables.specs.Table.{rows_of};
ghost use Rattle.ill_build.specs.code.Built.{HasTag};

use crate::element::{identifier_of, open, put_primitive};
use crate::leaf::whole_octets;
use crate::number::{is_boolean, is_one};
use crate::put::{SEQUENCE, row_at};
use ber_core::{Class, FromSlice, universal};
use der_buffer::DerBuffer;
use ill_grammar::{
    LeafType, Mark, ModuleLeaf, absent_row, after_leading_mark, has_default, is_at_end,
    leading_mark, leading_octets,
};
use ill_read::{Failure, OutlinedMessage, ReadFailure, decode_normal, read_outline};
use ill_schema::{
    Kind, LeafKind, NodeId, PartId, Presence, Profile, Row, kind, replacement, root_as, row,
    rows_of, wrapper,
};
use std::alloc::{AllocError, Global};

/// Spells a message with an element for each row that has its default, from its normal form. It is the normal form again if the elements have no
/// room within the limit of a message. Systems that read messages by the module of ISO 10161-1 may ask for defaults.
///
/// # Errors
///
/// Out of memory.
///
/// # Examples
///
/// ```text
/// let normal = build_line(alloc, Profile::Module, line)?;
/// sink.write_all(&write_defaults(alloc, Profile::Module, &normal)?)?;
/// ```
pub fn write_defaults(alloc: Global, profile: Profile, normal: &[u8]) -> Result<Vec<u8>, AllocError>
    ensures { (a : Apdu) → SpellsApdu (profile_of profile) a normal.now
        → normal.now ≡ normal_form_in (profile_of profile) a
        → IfOk result (λ octets. SpellsApdu (profile_of profile) a octets.items) }
{
    let outline = match read_outline(alloc, profile, &mut FromSlice::new(normal)) {
        Ok(Some(OutlinedMessage { outline, .. })) => outline,
        Err(ReadFailure::OutOfMemory) => return Err(AllocError),
        Ok(None) | Err(_) => return Vec::from_slice(alloc, normal),
    };
    let spelled = spelled(alloc, profile, outline.marks())?;
    match decode_normal(alloc, profile, &spelled) {
        Ok(read) if read.octets.as_slice() == normal => Ok(spelled),
        Err(Failure::OutOfMemory) => Err(AllocError),
        Ok(_) | Err(_) => Vec::from_slice(alloc, normal),
    }
}

/// The element of the message whose marks these are, in which each row that has its default has an element.
fn spelled(alloc: Global, profile: Profile, marks: &[Mark]) -> Result<Vec<u8>, AllocError> {
    let mut spelling = Spelling {
        alloc,
        marks,
        out: DerBuffer::new(alloc),
    };
    spelling.put_value(root_as(profile), None)?;
    let Spelling { out, .. } = spelling;
    Ok(out.into_octets())
}

/// The elements of a value, as far as its marks were read.
#[derive(Drop)]
struct Spelling<'m> {
    alloc: Global,
    /// The marks that are left.
    marks: &'m [Mark],
    out: DerBuffer,
}

impl<'m> Spelling<'m> {
    /// Appends the element of a row, whose value comes next.
    #[cycle(spell)]
    fn put_row(&mut self, row: Row) -> Result<(), AllocError>
        requires drawn { (node : NodeId) × (i : ℕ) × (slice_get (rows_of node) i ≡ Some row) }
        ensures shorter { OnOk result (0 < length self.old.marks.now
            → length self.new.marks.now < length self.old.marks.now) }
        ensures no_longer { OnOk result (length self.new.marks.now ≤ length self.old.marks.now) }
    {
        match wrapper(row) {
            Some(tag) => {
                let contents_start = open(tag, &mut self.out)?;
                self.put_value(row.node, None)?;
                self.out.close(contents_start)
            }
            None => self.put_value(row.node, replacement(row)),
        }
    }

    /// Appends the element of the value that comes next, where this tag is in place of its own.
    #[cycle(spell)]
    fn put_value(&mut self, node: NodeId, replaced: Option<(Class, u32)>) -> Result<(), AllocError>
        requires tagged { HasTag replaced }
        ensures shorter { OnOk result (0 < length self.old.marks.now
            → length self.new.marks.now < length self.old.marks.now) }
        ensures no_longer { OnOk result (length self.new.marks.now ≤ length self.old.marks.now) }
    {
        let Some(first) = leading_mark(self.marks) else {
            return Ok(());
        };
        self.marks = after_leading_mark(self.marks);
        match first {
            Mark::Absent(part) => self.put_default(part, replaced),
            Mark::Alternative(i) => self.put_alternative(node, i as usize),
            Mark::Sequence => self.put_entries(node, replaced.unwrap_or(SEQUENCE)),
            Mark::List => self.put_items(node, replaced.unwrap_or(SEQUENCE)),
            Mark::Leaf(_) | Mark::ModuleLeaf(_) | Mark::BitString => {
                self.put_leaf(replaced.unwrap_or((Class::Universal, leaf_number(first))))
            }
            Mark::Foreign => self.put_octets(),
            Mark::Octet(_) | Mark::End => Ok(()),
        }
    }

    /// Appends the element of an alternative, whose value comes next.
    #[cycle(spell)]
    fn put_alternative(&mut self, node: NodeId, i: usize) -> Result<(), AllocError>
        ensures no_longer { OnOk result (length self.new.marks.now ≤ length self.old.marks.now) }
    {
        match rows_of(node).get(i) {
            Some(row) => self.put_row(*row),
            None => Ok(()),
        }
    }

    /// Appends a SEQUENCE, whose entries come next.
    #[cycle(spell)]
    fn put_entries(&mut self, node: NodeId, tag: (Class, u32)) -> Result<(), AllocError>
        requires tagged { HasIdentifier (tag_at tag) true }
        ensures no_longer { OnOk result (length self.new.marks.now ≤ length self.old.marks.now) }
    {
        let contents_start = open(tag, &mut self.out)?;
        for i in 0..rows_of(node).len() {
            self.put_entry(row_at(node, i))?;
        }
        self.marks = after_leading_mark(self.marks);
        self.out.close(contents_start)
    }

    /// Appends the element of a row, unless the row has no value.
    #[cycle(spell)]
    fn put_entry(&mut self, row: Row) -> Result<(), AllocError>
        requires drawn { (node : NodeId) × (i : ℕ) × (slice_get (rows_of node) i ≡ Some row) }
        ensures no_longer { OnOk result (length self.new.marks.now ≤ length self.old.marks.now) }
    {
        match absent_row(self.marks) {
            Some(part) if !has_default(part) => {
                self.marks = after_leading_mark(self.marks);
                Ok(())
            }
            _ => self.put_row(row),
        }
    }

    /// Appends a SEQUENCE OF, whose items come next.
    #[cycle(spell)]
    fn put_items(&mut self, node: NodeId, tag: (Class, u32)) -> Result<(), AllocError>
        requires tagged { HasIdentifier (tag_at tag) true }
        ensures no_longer { OnOk result (length self.new.marks.now ≤ length self.old.marks.now) }
    {
        let contents_start = open(tag, &mut self.out)?;
        if let Some(row) = rows_of(node).first() {
            'items: while !is_at_end(self.marks) {
                self.put_row(*row)?;
            }
        }
        self.marks = after_leading_mark(self.marks);
        self.out.close(contents_start)
    }

    /// Appends a leaf, whose octets come next.
    fn put_leaf(&mut self, tag: (Class, u32)) -> Result<(), AllocError>
        requires tagged { HasIdentifier (tag_at tag) false }
        ensures no_longer { OnOk result (length self.new.marks.now ≤ length self.old.marks.now) }
    {
        let contents_start = self.out.open(identifier_of(tag, false))?;
        self.put_octets()?;
        self.out.close(contents_start)
    }

    /// Appends the octets that come next.
    fn put_octets(&mut self) -> Result<(), AllocError>
        ensures no_longer { OnOk result (length self.new.marks.now ≤ length self.old.marks.now) }
    {
        let count = leading_octets(self.marks);
        for mark in &self.marks[..count] {
            if let Mark::Octet(octet) = mark {
                self.out.append(&[*octet])?;
            }
        }
        self.marks = &self.marks[(count + 1).min(self.marks.len())..];
        Ok(())
    }

    /// Appends the default of a row that is absent, if it has one.
    fn put_default(
        &mut self,
        part: PartId,
        replaced: Option<(Class, u32)>,
    ) -> Result<(), AllocError>
        requires tagged { HasTag replaced }
        ensures no_longer { OnOk result (length self.new.marks.now ≤ length self.old.marks.now) }
    {
        let Some(row) = row(part) else {
            return Ok(());
        };
        let Presence::Default(number) = row.presence else {
            return Ok(());
        };
        let tag = replaced.unwrap_or((Class::Universal, default_number(row.node)));
        if is_boolean(row.node) {
            let octet = if is_one(number) { 0xFF } else { 0x00 };
            put_primitive(tag, &[octet], &mut self.out)
        } else {
            let octets = whole_octets(self.alloc, number)?;
            put_primitive(tag, &octets, &mut self.out)
        }
    }
}

/// The number of the universal tag of a type that has defaults.
fn default_number(node: NodeId) -> u32
    ensures { (form : Bool) → HasIdentifier (tag_at (Class.Universal, result)) form }
{
    match kind(node) {
        Kind::Leaf(LeafKind::Boolean) => universal::BOOLEAN,
        Kind::Leaf(LeafKind::Enumerated) => universal::ENUMERATED,
        _ => universal::INTEGER,
    }
}

/// The number of the universal tag of the leaf that a mark begins.
fn leaf_number(first: Mark) -> u32
    ensures { (form : Bool) → HasIdentifier (tag_at (Class.Universal, result)) form }
{
    match first {
        Mark::Leaf(LeafType::Boolean) => universal::BOOLEAN,
        Mark::Leaf(LeafType::Integer) => universal::INTEGER,
        Mark::Leaf(LeafType::Enumerated) => universal::ENUMERATED,
        Mark::Leaf(LeafType::General) => universal::GENERAL_STRING,
        Mark::Leaf(LeafType::Printable) => universal::PRINTABLE_STRING,
        Mark::ModuleLeaf(ModuleLeaf::Null) => universal::NULL,
        Mark::ModuleLeaf(ModuleLeaf::ObjectIdentifier) => universal::OBJECT_IDENTIFIER,
        Mark::ModuleLeaf(ModuleLeaf::OctetString) => universal::OCTET_STRING,
        Mark::ModuleLeaf(ModuleLeaf::ObjectDescriptor) => universal::OBJECT_DESCRIPTOR,
        Mark::BitString => universal::BIT_STRING,
        _ => universal::VISIBLE_STRING,
    }
}
