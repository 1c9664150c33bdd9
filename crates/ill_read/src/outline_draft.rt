//! The draft that is the outline of a message: marks that say what its value is, made while the message is read.
ghost use Rattle.ill_tables.specs.declared.profile.Profile.{Profile as Named};
ghost use Rattle.std.specs.Prelude.{◌≡◌, ◌++◌, [], ◌∷◌, ◌≤◌, length, map, take, drop, IsTrue, OnOk};
ghost use Rattle.ill_grammar.specs.Places.{alternative_of};
ghost use Rattle.ill_tables.specs.Table.{kind_of, rows_of};
ghost use Rattle.ill_grammar.specs.Due.{first_of, read_as, shape, slot_in};
ghost use Rattle.ill_grammar.specs.Outline.{octets_marks};
ghost use Rattle.ill_grammar.specs.Standing.{top_level};
ghost use Rattle.ill_read.specs.code.Drafts.{rows_before, rows_left};
ghost use Rattle.ill_grammar.specs.declared.outline.Mark.{Mark};
ghost use Rattle.ill_grammar.specs.Cells.{is_any};
ghost use Rattle.ill_read.specs.code.Outlines.{AreOutlined, HasPreceding, PassesNone, HasMarksAndForm, HasAbsent, HasEnding, alternative_marks, first_marks, held_marks, late_marks, start_marks};

use crate::draft::Draft;
use crate::failure::Failure;
use crate::normal_form_draft::NormalFormDraft;
use ill_grammar::{
    ConstructedElement, Element, EntryRole, Found, Frame, LeafType, Mark, Next, Outline, Place,
    PrimitiveElement, Slot,
};
use ill_schema::{NodeId, PartId, Profile, rows};
use std::alloc::{AllocError, Global};

/// The marks of the elements that have been read, beside the normal form, by which the limit is judged.
#[derive(Drop)]
pub struct OutlineDraft {
    octets: NormalFormDraft,
    marks: Vec<Mark>,
}

impl OutlineDraft {
    /// Holds nothing, in the memory of an outline and of a normal form, which are forgotten.
    pub fn new(alloc: Global, outline: Outline, normal: Vec<u8>) -> OutlineDraft
        ensures { (p : Named) → AreOutlined result (top_level p ∷ []) [] }
    {
        let mut marks = outline.into_marks();
        marks.clear();
        OutlineDraft {
            octets: NormalFormDraft::new(alloc, normal),
            marks,
        }
    }

    /// Marks the octets that only the draft of octets has when an element ends: the bits of a BIT STRING, and a foreign tree in its
    /// wrapper.
    #[inline(always)]
    fn mark_held(&mut self, frame: Frame) -> Result<(), AllocError>
        ensures octets { self.new.octets ≡ self.old.octets }
        ensures marks { OnOk result (self.new.marks.items ≡ self.old.marks.items ++ held_marks
            (read_as frame.found) self.old.octets frame.contents_start) }
    {
        match frame.found.element() {
            Element::BitString => mark_octets(&mut self.marks, self.octets.bit_string()),
            Element::Wrapper(wrapped) => {
                if !is_open_type(wrapped.node) {
                    return Ok(());
                }
                mark_foreign(
                    &mut self.marks,
                    self.octets.written_from(frame.contents_start),
                )
            }
            _ => Ok(()),
        }
    }

    /// The marks, and the normal form.
    pub fn into_parts(self) -> (Vec<Mark>, Vec<u8>)
        ensures marks { result.0 ≡ self.marks }
        ensures octets { result.1.items ≡ self.octets.octets }
    {
        let OutlineDraft { octets, marks } = self;
        (marks, octets.into_octets())
    }
}

/// Tells whether the type of a node is left open, so that what stands there is a foreign tree.
fn is_open_type(node: NodeId) -> bool
    ensures { result ≡ is_any (kind_of node) }
{
    matches!(&node, NodeId::Any)
}

/// Marks what comes before an element that was found at this place: the rows that it passes, and the alternative that it is.
#[inline(always)]
fn mark_preceding(marks: &mut Vec<Mark>, place: Place, found: Found) -> Result<(), AllocError>
    ensures { OnOk result (HasPreceding (shape place) (slot_in found) (alternative_of found)
        marks.old.items marks.new.items) }
{
    if !passes_none(place, found) {
        mark_absent_before(marks, Next::at(place), Slot::of(found))?;
    }
    mark_alternative(marks, found.alternative())
}

/// Tells whether an element that was found at this place is known to pass no row: most begin with the row that the place is at.
#[inline(always)]
fn passes_none(place: Place, found: Found) -> bool
    ensures { IsTrue result → PassesNone (shape place) (slot_in found) }
{
    match found.slot() {
        EntryRole::Row => place.position() > 0 && found.row() < place.position(),
        _ => true,
    }
}

/// Marks that an element begins. What comes in a loose wrapper says whether it is a sequence, and a foreign tree is marked when its
/// wrapper ends.
#[inline(always)]
fn mark_start(marks: &mut Vec<Mark>, element: Element) -> Result<(), AllocError>
    ensures { OnOk result (marks.new.items ≡ marks.old.items
        ++ first_marks (first_of element) element) }
{
    match element {
        Element::Leaf(leaf) => marks.push(Mark::Leaf(leaf))?,
        Element::ModuleLeaf(leaf) => marks.push(Mark::ModuleLeaf(leaf))?,
        Element::BitString => marks.push(Mark::BitString)?,
        Element::Sequence(_) => marks.push(Mark::Sequence)?,
        Element::List(_) => marks.push(Mark::List)?,
        _ => {}
    }
    Ok(())
}

/// Marks a choice's alternative.
#[inline(always)]
fn mark_alternative(marks: &mut Vec<Mark>, alternative: Option<u8>) -> Result<(), AllocError>
    ensures { OnOk result (marks.new.items ≡ marks.old.items ++ alternative_marks alternative) }
{
    if let Some(row) = alternative {
        marks.push(Mark::Alternative(row))?;
    }
    Ok(())
}

/// Marks octets.
fn mark_octets(marks: &mut Vec<Mark>, octets: &[u8]) -> Result<(), AllocError>
    ensures { OnOk result (marks.new.items ≡ marks.old.items ++ map Mark.Octet octets.now) }
{
    marks.reserve(octets.len())?;
    for octet in octets {
        marks.push_reserved(Mark::Octet(*octet));
    }
    Ok(())
}

/// Marks what has only octets, which begins with this mark. Room is made once.
#[inline(always)]
fn mark_content(marks: &mut Vec<Mark>, first: Mark, octets: &[u8]) -> Result<(), AllocError>
    ensures { OnOk result (marks.new.items ≡ marks.old.items ++ octets_marks first octets.now) }
{
    marks.reserve(octets.len() + 2)?;
    marks.push_reserved(first);
    for octet in octets {
        marks.push_reserved(Mark::Octet(*octet));
    }
    marks.push_reserved(Mark::End);
    Ok(())
}

/// Marks a foreign tree, which has these octets.
#[inline(never)]
fn mark_foreign(marks: &mut Vec<Mark>, octets: &[u8]) -> Result<(), AllocError>
    ensures { OnOk result (marks.new.items ≡ marks.old.items
        ++ octets_marks Mark.Foreign octets.now) }
{
    mark_content(marks, Mark::Foreign, octets)
}

/// Passes the rows before an element at the slot, where this may come next in the element round it. The first row in a loose wrapper
/// says that this is a sequence.
#[inline(never)]
fn mark_absent_before(marks: &mut Vec<Mark>, next: Next, slot: Slot) -> Result<(), AllocError>
    ensures { OnOk result (HasAbsent (start_marks next slot) (rows_before next slot) marks.old.items
        marks.new.items) }
{
    match (next, slot) {
        (Next::Rows(node, position), Slot::Row(row)) => {
            mark_absent(marks, node, position, row.min(rows(node)))
        }
        (Next::Either(wrapped), Slot::Row(row)) => {
            marks.push(Mark::Sequence)?;
            mark_absent(marks, wrapped.node, 0, row.min(rows(wrapped.node)))
        }
        _ => Ok(()),
    }
}

/// Passes the rows that are still to come.
fn mark_absent_rest(marks: &mut Vec<Mark>, next: Next) -> Result<(), AllocError>
    ensures { OnOk result (HasAbsent (late_marks next) (rows_left next) marks.old.items
        marks.new.items) }
{
    match next {
        Next::Rows(node, position) => mark_absent(marks, node, position, rows(node)),
        Next::Either(wrapped) => {
            marks.push(Mark::Sequence)?;
            mark_absent(marks, wrapped.node, 0, rows(wrapped.node))
        }
        _ => Ok(()),
    }
}

/// Ends the marks of an element, where this might still come in it.
fn mark_end(marks: &mut Vec<Mark>, next: Next) -> Result<(), AllocError>
    ensures { OnOk result (HasEnding next marks.old.items marks.new.items) }
{
    if let Next::Inner(_) | Next::Root(_) | Next::Foreigns(_) | Next::Nothing = next {
        return Ok(());
    }
    mark_absent_rest(marks, next)?;
    marks.push(Mark::End)?;
    Ok(())
}

/// Passes rows that have no element.
fn mark_absent(marks: &mut Vec<Mark>, node: NodeId, from: u8, until: u8) -> Result<(), AllocError>
    requires { until ≤ length (rows_of node) }
    ensures { OnOk result (HasAbsent [] (drop from (take until (rows_of node))) marks.old.items
        marks.new.items) }
{
    for row in from..until {
        marks.push(Mark::Absent(PartId { node, row }))?;
    }
    Ok(())
}

impl Draft for OutlineDraft {
    ghost takes = { λ p. Unit };

    ghost holds = { λ draft levels text. AreOutlined draft levels text };

    ghost has = { λ p draft a octets. HasMarksAndForm p draft a octets };

    #[inline(always)]
    fn open(
        &mut self,
        profile: Profile,
        place: Place,
        opening: ConstructedElement,
    ) -> Result<usize, AllocError> {
        let element = opening.found.element();
        match element {
            Element::Segment | Element::BitSegment => {}
            _ => {
                mark_preceding(&mut self.marks, place, opening.found)?;
                mark_start(&mut self.marks, element)?;
            }
        }
        self.octets.open(profile, place, opening)
    }

    #[inline(always)]
    fn open_usual(
        &mut self,
        profile: Profile,
        place: Place,
        opening: ConstructedElement,
    ) -> Result<usize, AllocError> {
        let element = opening.found.element();
        mark_preceding(&mut self.marks, place, opening.found)?;
        mark_start(&mut self.marks, element)?;
        self.octets.open_usual(profile, place, opening)
    }

    #[inline(always)]
    fn string_in_tag(
        &mut self,
        profile: Profile,
        place: Place,
        opening: ConstructedElement,
        leaf: LeafType,
        content: &[u8],
    ) -> Result<bool, AllocError> {
        let octets = &mut self.octets;
        if !octets.string_in_tag(profile, place, opening, leaf, content)? {
            return Ok(false);
        }
        let marks = &mut self.marks;
        mark_preceding(marks, place, opening.found)?;
        mark_content(marks, Mark::Leaf(leaf), content)?;
        Ok(true)
    }

    fn text(&mut self, octets: &[u8]) -> Result<(), AllocError> {
        self.octets.text(octets)?;
        mark_octets(&mut self.marks, octets)
    }

    fn bits(
        &mut self,
        profile: Profile,
        reading: PrimitiveElement,
        content: &[u8],
    ) -> Result<(), AllocError> {
        self.octets.bits(profile, reading, content)
    }

    #[inline(always)]
    fn leaf(
        &mut self,
        profile: Profile,
        place: Place,
        reading: PrimitiveElement,
        leaf: LeafType,
        content: &[u8],
    ) -> Result<(), AllocError> {
        self.octets.leaf(profile, place, reading, leaf, content)?;
        let marks = &mut self.marks;
        mark_preceding(marks, place, reading.found)?;
        mark_content(marks, Mark::Leaf(leaf), content)?;
        Ok(())
    }

    fn module_element(
        &mut self,
        profile: Profile,
        place: Place,
        reading: PrimitiveElement,
        content: &[u8],
    ) -> Result<(), AllocError> {
        self.octets
            .module_element(profile, place, reading, content)?;
        let element = reading.found.element();
        if let Element::Foreign(_) = element {
            return Ok(());
        }
        let marks = &mut self.marks;
        mark_preceding(marks, place, reading.found)?;
        mark_start(marks, element)?;
        mark_octets(marks, content)?;
        marks.push(Mark::End)?;
        Ok(())
    }

    #[inline(always)]
    fn close(&mut self, profile: Profile, frame: Frame, place: Place) -> Result<(), Failure> {
        self.mark_held(frame)?;
        self.octets.close(profile, frame, place)?;
        mark_end(&mut self.marks, frame.next())?;
        Ok(())
    }

    fn end(&mut self, octets: u32) -> bool {
        self.octets.end(octets)
    }
}
