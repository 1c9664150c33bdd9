//! The draft that is the message's normal form: each element is written as it is read.
ghost use Rattle.ill_tables.specs.declared.profile.Profile.{Profile as Named};
ghost use Rattle.std.specs.Prelude.{◌≡◌, ◌++◌, ℕ, List, [], ◌∷◌, length, drop, false, true, IfOk, IsTrue, OnOk};
ghost use Rattle.ber_core.specs.Id.{form_of_id, id_octets, tag_of_id};
ghost use Rattle.ber_tree.specs.Identifier.{HasIdentifier, identifier};
ghost use Rattle.ber_leaf.specs.Leaf.{normal_content, value};
ghost use Rattle.ill_schema.specs.Content.{simple};
ghost use Rattle.ill_schema.specs.Tagging.{leaf_tag};
ghost use Rattle.ill_grammar.specs.LeafTypes.{IsContentIn, leaf_is};
ghost use Rattle.ill_read.specs.code.Drafts.{is_ill_string};
ghost use Rattle.ill_grammar.specs.declared.element.Wrapped.{Wrapped};
ghost use Rattle.ill_grammar.specs.Places.{alternative_of};
ghost use Rattle.ill_grammar.specs.Due.{IsDueIn, behind, next_place, shape_at, slot_in};
ghost use Rattle.ill_grammar.specs.Due.{due_with};
ghost use Rattle.ill_grammar.specs.declared.element.Element.TheVariants.{Leaf as LeafElement};
ghost use Rattle.ber_tree.specs.Identifier.{Tag};
ghost use Rattle.ill_grammar.specs.Standing.{top_level};
ghost use Rattle.ill_grammar.specs.Contents.{with_alternative};
ghost use Rattle.ill_read.specs.code.OctetDrafts.{AreNormal, AreOctets, enclosed};
ghost use Rattle.ill_grammar.specs.Written.{left_away};

use crate::draft::Draft;
use crate::failure::Failure;
use ber_core::{Class, Id, universal};
use ber_leaf::{BitSegments, BitString, Leaf};
use der_buffer::DerBuffer;
use ill_grammar::{
    ConstructedElement, Element, EntryRole, Frame, LeafType, Next, Place, PrimitiveElement,
};
use ill_schema::{Cause, LIMIT, Profile};
use std::alloc::{AllocError, Global};

/// The normal form of a message, as far as it has been read. A string that is open has its octets at the end.
#[derive(Drop)]
pub struct NormalFormDraft {
    octets: DerBuffer,
    /// The content of the BIT STRING that is open, or of the last one.
    bits: BitSegments,
}

impl NormalFormDraft {
    ghost use Rattle.std.specs.Prelude.{IfErr};
    ghost use Rattle.ber_leaf.specs.Bits.{cleared_content};
    ghost use Rattle.ill_grammar.specs.Due.{read_as};
    ghost use Rattle.ill_grammar.specs.declared.element.Element.{Element as CodeElement};
    ghost use Rattle.ill_read.specs.code.Drafts.{HasOpened, IsRightText, IsTextFault};
    ghost use Rattle.ill_read.specs.code.OctetDrafts.{IsModuleString};

    /// Holds nothing, in the memory of `buffer`, whose octets are forgotten.
    pub fn new(alloc: Global, buffer: Vec<u8>) -> NormalFormDraft
        ensures { (p : Named) → AreOctets result (top_level p ∷ []) [] }
    {
        NormalFormDraft {
            octets: DerBuffer::with_memory(buffer),
            bits: BitSegments::new(alloc),
        }
    }

    /// The octets that were written.
    pub fn into_octets(self) -> Vec<u8>
        ensures { result.items ≡ self.octets }
    {
        let NormalFormDraft { octets, bits: _ } = self;
        octets.into_octets()
    }

    /// The octets that were written.
    pub fn octets(&self) -> &[u8]
        ensures { result.now ≡ self.now.octets }
    {
        self.octets.octets()
    }

    /// The content of the BIT STRING that is open, its segments joined.
    pub fn bit_string(&self) -> &[u8]
        ensures { result.now ≡ self.now.bits }
    {
        self.bits.content()
    }

    /// The octets that were written from an offset on.
    pub fn written_from(&self, contents_start: usize) -> &[u8]
        ensures { result.now ≡ drop contents_start self.now.octets }
    {
        let octets = self.octets.octets();
        &octets[contents_start.min(octets.len())..]
    }

    /// Opens a string that only the module profile has, or a segment of one.
    // What opens is copied for the call here, so that other elements do without the copy.
    #[inline(always)]
    fn open_module_string(&mut self, opening: ConstructedElement) -> Result<usize, AllocError>
        requires { IsModuleString (read_as opening.found) }
        ensures { (next : Next) → IfOk result (λ contents_start. HasOpened AreOctets self.old next
            opening contents_start self.new) }
    {
        self.open_out_of_line(opening)
    }

    /// Does the same out of line, so that most elements do without its memory.
    #[inline(never)]
    fn open_out_of_line(&mut self, opening: ConstructedElement) -> Result<usize, AllocError>
        requires { IsModuleString (read_as opening.found) }
        ensures { (next : Next) → IfOk result (λ contents_start. HasOpened AreOctets self.old next
            opening contents_start self.new) }
    {
        match opening.found.element() {
            Element::BitSegment => {
                self.bits.push(&[0])?;
                return Ok(self.octets.len());
            }
            Element::BitString => self.bits.begin()?,
            _ => {}
        }
        let contents_start = self.octets.open(string_id(opening.id))?;
        Ok(contents_start)
    }

    /// Puts the bits of the BIT STRING that is open, the unused ones 0 (X.690, 11.2.1).
    ///
    /// # Errors
    ///
    /// The fault of its content, at its start; or out of memory.
    #[inline(never)]
    fn put_bits(&mut self, start: u32) -> Result<(), Failure>
        ensures fault { IfErr result (λ failure. (p : Named)
            → IsTextFault p CodeElement.BitString start self.old.bits failure) }
        ensures right { OnOk result
            ((p : Named) → IsRightText p CodeElement.BitString self.old.bits) }
        ensures put { OnOk result (self.new.octets ≡ self.old.octets ++ cleared_content
            self.old.bits) }
    {
        if let Some(fault) = BitString::check(self.bits.content()) {
            return Err(Failure::refused(start, Cause::from(fault)));
        }
        self.bits.clear_unused();
        self.octets.append(self.bits.content())?;
        Ok(())
    }

    /// Puts a SEQUENCE round the contents of a loose wrapper that has none, where this would come next in it (X.690, 8.14).
    fn enclose(&mut self, next: Next, contents_start: usize) -> Result<(), AllocError>
        ensures { OnOk result ((w : Wrapped) (before contents : List ℕ)
            → self.old.octets ≡ before ++ contents → contents_start ≡ length before
            → self.new.octets ≡ before ++ enclosed (Element.LooseWrapper w) next contents) }
    {
        if let Next::Nothing = next {
            return Ok(());
        }
        let Some(sequence) = Id::new(Class::Universal, true, universal::SEQUENCE) else {
            unreachable!()
        };
        self.octets.enclose(contents_start, sequence)?;
        Ok(())
    }
}

impl Draft for NormalFormDraft {
    ghost takes = { λ p. Unit };

    ghost holds = { λ draft levels text. AreOctets draft levels text };

    ghost has = { λ p draft a octets. AreNormal p draft a octets };

    #[inline(always)]
    fn open(
        &mut self,
        _profile: Profile,
        _place: Place,
        opening: ConstructedElement,
    ) -> Result<usize, AllocError> {
        let contents_start = match opening.found.element() {
            Element::Segment => self.octets.len(),
            Element::Leaf(_) => self.octets.open(string_id(opening.id))?,
            Element::ModuleLeaf(_) | Element::BitString | Element::BitSegment => {
                self.open_module_string(opening)?
            }
            _ => self.octets.open(opening.id)?,
        };
        Ok(contents_start)
    }

    #[inline(always)]
    fn open_usual(
        &mut self,
        _profile: Profile,
        _place: Place,
        opening: ConstructedElement,
    ) -> Result<usize, AllocError> {
        let contents_start = self.octets.open(opening.id)?;
        Ok(contents_start)
    }

    #[inline(always)]
    fn string_in_tag(
        &mut self,
        _profile: Profile,
        _place: Place,
        opening: ConstructedElement,
        leaf: LeafType,
        content: &[u8],
    ) -> Result<bool, AllocError> {
        let start = self.octets.open(opening.id)?;
        self.octets.primitive(ill_string_id(leaf), content)?;
        self.octets.close(start)?;
        Ok(true)
    }

    fn text(&mut self, octets: &[u8]) -> Result<(), AllocError> {
        self.octets.append(octets)?;
        Ok(())
    }

    fn bits(
        &mut self,
        _profile: Profile,
        _reading: PrimitiveElement,
        content: &[u8],
    ) -> Result<(), AllocError> {
        self.bits.push(content)?;
        Ok(())
    }

    #[inline(always)]
    fn leaf(
        &mut self,
        _profile: Profile,
        _place: Place,
        reading: PrimitiveElement,
        leaf: LeafType,
        content: &[u8],
    ) -> Result<(), AllocError> {
        if is_default_value(reading, leaf, content) {
            return Ok(());
        }
        self.octets
            .primitive(reading.id, normal_content(leaf, content))?;
        Ok(())
    }

    fn module_element(
        &mut self,
        _profile: Profile,
        _place: Place,
        reading: PrimitiveElement,
        content: &[u8],
    ) -> Result<(), AllocError> {
        if let Element::BitString = reading.found.element() {
            self.bits.begin()?;
            self.bits.push(content)?;
            self.bits.clear_unused();
            self.octets.primitive(reading.id, self.bits.content())?;
            return Ok(());
        }
        self.octets.primitive(reading.id, content)?;
        Ok(())
    }

    #[inline(always)]
    fn close(&mut self, profile: Profile, frame: Frame, _place: Place) -> Result<(), Failure> {
        match frame.found.element() {
            Element::Segment | Element::BitSegment => return Ok(()),
            Element::ModuleLeaf(leaf) => {
                if let Some(fault) = leaf.fault(self.written_from(frame.contents_start)) {
                    return Err(Failure::refused(frame.start, Cause::from(fault)));
                }
            }
            Element::Leaf(leaf) => {
                if let Some(fault) = leaf.fault(profile, self.written_from(frame.contents_start)) {
                    return Err(Failure::refused(frame.start, Cause::from(fault)));
                }
            }
            Element::BitString => self.put_bits(frame.start)?,
            Element::LooseWrapper(_) => self.enclose(frame.next(), frame.contents_start)?,
            _ => {}
        }
        self.octets.close(frame.contents_start)?;
        Ok(())
    }

    fn end(&mut self, octets: u32) -> bool {
        let _ = octets;
        self.octets.len() <= LIMIT as usize
    }
}

/// The identifier of a string as DER has it: it is primitive (X.690, 10.2).
#[inline(always)]
fn string_id(id: Id) -> Id
    ensures { HasIdentifier (tag_of_id id) false
        → id_octets result ≡ identifier (tag_of_id id) false }
{
    Id::new(id.class(), false, id.number()).unwrap_or(id)
}

/// The identifier of a primitive string of an ILL-String.
#[inline(always)]
fn ill_string_id(leaf: LeafType) -> Id
    requires { IsTrue (is_ill_string leaf) }
    ensures tag { tag_of_id result ≡ leaf_tag (leaf_is leaf) }
    ensures primitive { form_of_id result ≡ false }
{
    let number = match leaf {
        LeafType::General => universal::GENERAL_STRING,
        _ => universal::VISIBLE_STRING,
    };
    let Some(id) = Id::new(Class::Universal, false, number) else {
        unreachable!()
    };
    id
}

/// The content of a leaf as DER has it: TRUE is FF (X.690, 11.1).
#[inline(always)]
fn normal_content(leaf: LeafType, content: &[u8]) -> &[u8]
    requires { (p : Named) × IsContentIn p (leaf_is leaf) content.now }
    ensures { result.now ≡ normal_content (value (leaf_is leaf) content.now) }
{
    if let LeafType::Boolean = leaf {
        if content != [0].as_slice() {
            return &[0xFF];
        }
    }
    content
}

/// Tells whether a leaf is the default of its row, by the default of what was found. Strings and the values of choices never are.
#[inline(always)]
fn is_default_value(reading: PrimitiveElement, leaf: LeafType, content: &[u8]) -> bool
    requires { (p : Named) × IsContentIn p (leaf_is leaf) content.now }
    ensures { (t : Tag) (n : Next)
        → IsDueIn t n (due_with (slot_in reading.found) (alternative_of reading.found)
        (LeafElement leaf))
        → shape_at (next_place reading.found) ≡ behind n (slot_in reading.found)
        → result ≡ left_away n (slot_in reading.found)
        (with_alternative (alternative_of reading.found)
        (simple (value (leaf_is leaf) content.now))) }
{
    let found = reading.found;
    let Some(number) = found.default_value() else {
        return false;
    };
    if found.alternative().is_some() {
        return false;
    }
    match found.slot() {
        EntryRole::Row => leaf.is_number(number, content),
        _ => false,
    }
}
