//! Steps of the path: an element opens, is read or ends.
ghost use Rattle.std.specs.Prelude.{◌≡◌, ◌+◌, ◌<◌, ◌≤◌, [], ◌∷◌, false, true, IfOk, IsTrue};
ghost use Rattle.ill_read.specs.Paths.{HoldsAt};
ghost use Rattle.ill_grammar.specs.Standing.{top_level};
ghost use Rattle.ill_grammar.specs.Due.{read_as, shape};
ghost use Rattle.ill_grammar.specs.Two.{is_found_of};
ghost use Rattle.ill_grammar.specs.code.Judging.{is_usual};
ghost use Rattle.ill_read.specs.code.Drafts.{HasOpened};

use crate::draft::Draft;
use crate::failure::Failure;
use crate::path::Path;
use ill_grammar::{ConstructedElement, Element, Frame, Frames, LeafType, Place, PrimitiveElement};
use ill_schema::{Cause, Profile};
use std::alloc::AllocError;

/// Opens an element in the draft; `usual` says that it is known to be usual. Returns where its contents begin.
#[inline(always)]
fn open_in<D: Draft>(
    draft: &mut D,
    profile: Profile,
    place: Place,
    opening: ConstructedElement,
    usual: bool,
) -> Result<usize, AllocError>
    requires takes { D.takes profile }
    requires is_of { IsTrue (is_found_of profile opening.found) }
    requires usual { IsTrue usual → IsTrue (is_usual (read_as opening.found) true) }
    ensures { IfOk result (λ contents_start. HasOpened D.holds draft.old (shape place) opening
        contents_start draft.new) }
{
    if usual {
        return draft.open_usual(profile, place, opening);
    }
    draft.open(profile, place, opening)
}

impl<D: Draft> Path<D> {
    ghost use Rattle.std.specs.Prelude.{Bool, Ok, None, Some};
    ghost use Rattle.ill_grammar.specs.LeafTypes.{IsContentIn, leaf_is};
    ghost use Rattle.ill_read.specs.code.Drafts.{IsModuleElement, IsNoLeaf, WrapsString};
    ghost use Rattle.ill_grammar.specs.Two.{is_place_of};
    ghost use Rattle.ill_grammar.specs.declared.element.Element.{Element as CodeElement};
    ghost use Rattle.ill_grammar.specs.Standing.{depth_of};
    ghost use Rattle.ill_read.specs.code.Stepping.{ClosesExactly, OpensExactly, ReadsExactly, GoesOn, TakesString};

    /// No open element, and a draft of nothing, of a message that is read in the profile.
    #[inline(always)]
    pub fn new(profile: Profile, draft: D) -> Path<D>
        ensures holds { D.holds draft (top_level profile ∷ []) []
            → HoldsAt profile D.holds result [] }
        ensures profile { result.frames.profile ≡ profile }
    {
        Path {
            frames: Frames::new(profile),
            draft,
        }
    }

    /// Forgets all open elements, and begins with a draft of nothing, of a message that is read in the profile.
    #[inline(always)]
    pub fn restart(&mut self, profile: Profile, draft: D)
        ensures holds { D.holds draft (top_level profile ∷ []) []
            → HoldsAt profile D.holds self.new [] }
        ensures profile { self.new.frames.profile ≡ profile }
    {
        self.frames.restart(profile);
        self.draft = draft;
    }

    /// Opens the element that is due and begins at `start`; `usual` says that it is known to be usual.
    #[inline(always)]
    pub fn open(
        &mut self,
        opening: ConstructedElement,
        start: u32,
        usual: bool,
    ) -> Result<(), AllocError>
        requires room { depth_of self.old.frames < 32 }
        requires takes { D.takes self.old.frames.profile }
        requires is_of { IsTrue (is_found_of self.old.frames.profile opening.found) }
        requires usual { IsTrue usual → IsTrue (is_usual (read_as opening.found) true) }
        ensures exact { IfOk result (λ _. OpensExactly D.holds self.old opening start self.new) }
        ensures depth { depth_of self.new.frames ≤ depth_of self.old.frames + 1 }
        ensures profile { self.new.frames.profile ≡ self.old.frames.profile }
    {
        let profile = self.frames.profile;
        let contents_start = open_in(
            &mut self.draft,
            profile,
            self.frames.place(),
            opening,
            usual,
        )?;
        let frame = Frame {
            found: opening.found,
            place: opening.found.first(),
            start,
            end: opening.end,
            bound: opening.end.unwrap_or(self.frames.bound()),
            contents_start,
        };
        self.frames.push(frame);
        Ok(())
    }

    /// Takes the content of a primitive element that is due and begins at `start`. `usual` says that it is known to be usual. Returns whether the message is whole.
    #[inline(always)]
    pub fn take(
        &mut self,
        reading: PrimitiveElement,
        start: u32,
        content: &[u8],
        usual: bool,
    ) -> Result<bool, Failure>
        requires takes { D.takes self.old.frames.profile }
        requires is_of { IsTrue (is_found_of self.old.frames.profile reading.found) }
        requires usual { IsTrue usual → IsTrue (is_usual (read_as reading.found) false) }
        ensures exact { ReadsExactly D.holds self.old reading start content.now self.new result }
        ensures depth { depth_of self.new.frames ≡ depth_of self.old.frames }
        ensures profile { self.new.frames.profile ≡ self.old.frames.profile }
    {
        let element = reading.found.element();
        if usual {
            let Element::Leaf(leaf) = element else {
                unreachable!()
            };
            return self.take_leaf(reading, leaf, start, content);
        }
        match element {
            Element::Leaf(leaf) => self.take_leaf(reading, leaf, start, content),
            _ => self.take_other_element(reading, start, content),
        }
    }

    /// Takes the content of an element that is no leaf of profile 2.
    // What is read is copied for the call here, so that a leaf does without the copy.
    #[inline(always)]
    fn take_other_element(
        &mut self,
        reading: PrimitiveElement,
        start: u32,
        content: &[u8],
    ) -> Result<bool, Failure>
        requires takes { D.takes self.old.frames.profile }
        requires is_of { IsTrue (is_found_of self.old.frames.profile reading.found) }
        requires rest { IsNoLeaf (read_as reading.found) }
        ensures exact { ReadsExactly D.holds self.old reading start content.now self.new result }
        ensures depth { depth_of self.new.frames ≡ depth_of self.old.frames }
        ensures profile { self.new.frames.profile ≡ self.old.frames.profile }
    {
        self.take_other_out_of_line(reading, start, content)
    }

    /// Does the same out of line, so that most elements do without its memory.
    #[inline(never)]
    fn take_other_out_of_line(
        &mut self,
        reading: PrimitiveElement,
        start: u32,
        content: &[u8],
    ) -> Result<bool, Failure>
        requires takes { D.takes self.old.frames.profile }
        requires is_of { IsTrue (is_found_of self.old.frames.profile reading.found) }
        requires rest { IsNoLeaf (read_as reading.found) }
        ensures exact { ReadsExactly D.holds self.old reading start content.now self.new result }
        ensures depth { depth_of self.new.frames ≡ depth_of self.old.frames }
        ensures profile { self.new.frames.profile ≡ self.old.frames.profile }
    {
        match reading.found.element() {
            Element::ModuleLeaf(_) | Element::BitString | Element::Foreign(_) => {
                self.take_module_element(reading, start, content)
            }
            Element::BitSegment => {
                let profile = self.frames.profile;
                self.draft.bits(profile, reading, content)?;
                Ok(false)
            }
            _ => {
                self.draft.text(content)?;
                Ok(false)
            }
        }
    }

    /// Takes the content of a leaf.
    #[inline(always)]
    fn take_leaf(
        &mut self,
        reading: PrimitiveElement,
        leaf: LeafType,
        start: u32,
        content: &[u8],
    ) -> Result<bool, Failure>
        requires takes { D.takes self.old.frames.profile }
        requires is_of { IsTrue (is_found_of self.old.frames.profile reading.found) }
        requires leaf { read_as reading.found ≡ CodeElement.Leaf leaf }
        ensures exact { ReadsExactly D.holds self.old reading start content.now self.new result }
        ensures depth { depth_of self.new.frames ≡ depth_of self.old.frames }
        ensures profile { self.new.frames.profile ≡ self.old.frames.profile }
    {
        let profile = self.frames.profile;
        if let Some(fault) = leaf.fault(profile, content) {
            return Err(Failure::refused(start, Cause::from(fault)));
        }
        self.draft
            .leaf(profile, self.frames.place(), reading, leaf, content)?;
        Ok(self.move_to(reading.found.after()))
    }

    /// Takes an explicit tag and the one primitive string in it, which are due. Returns whether the message is whole; None where the draft
    /// takes them one by one, and nothing changes then.
    #[inline(always)]
    pub fn take_string(
        &mut self,
        opening: ConstructedElement,
        leaf: LeafType,
        content: &[u8],
    ) -> Result<Option<bool>, AllocError>
        requires takes { D.takes self.old.frames.profile }
        requires is_of { IsTrue (is_found_of self.old.frames.profile opening.found) }
        requires string { WrapsString (read_as opening.found) leaf }
        requires content { IsContentIn self.old.frames.profile (leaf_is leaf) content.now }
        ensures left { result ≡ Ok None → self.new ≡ self.old }
        ensures exact { (whole : Bool) → result ≡ Ok (Some whole)
            → TakesString D.holds self.old opening leaf content.now self.new whole }
        ensures depth { depth_of self.new.frames ≡ depth_of self.old.frames }
        ensures profile { self.new.frames.profile ≡ self.old.frames.profile }
    {
        let profile = self.frames.profile;
        let place = self.frames.place();
        if !self
            .draft
            .string_in_tag(profile, place, opening, leaf, content)?
        {
            return Ok(None);
        }
        Ok(Some(self.move_to(opening.found.after())))
    }

    /// Takes the content of an element that only the module profile has.
    #[inline(always)]
    pub fn take_module_element(
        &mut self,
        reading: PrimitiveElement,
        start: u32,
        content: &[u8],
    ) -> Result<bool, Failure>
        requires takes { D.takes self.old.frames.profile }
        requires is_of { IsTrue (is_found_of self.old.frames.profile reading.found) }
        requires other { IsModuleElement (read_as reading.found) }
        ensures exact { ReadsExactly D.holds self.old reading start content.now self.new result }
        ensures depth { depth_of self.new.frames ≡ depth_of self.old.frames }
        ensures profile { self.new.frames.profile ≡ self.old.frames.profile }
    {
        let profile = self.frames.profile;
        if let Some(fault) = reading.found.element().fault(profile, content) {
            return Err(Failure::refused(start, Cause::from(fault)));
        }
        self.draft
            .module_element(profile, self.frames.place(), reading, content)?;
        Ok(self.move_to(reading.found.after()))
    }

    /// Closes the innermost element, in which nothing is missing. Returns whether the message is whole.
    #[inline(always)]
    pub fn close(&mut self) -> Result<bool, Failure>
        requires depth { 0 < depth_of self.old.frames }
        requires takes { D.takes self.old.frames.profile }
        ensures exact { ClosesExactly D.holds self.old self.new result }
        ensures depth { depth_of self.new.frames + 1 ≡ depth_of self.old.frames }
        ensures profile { self.new.frames.profile ≡ self.old.frames.profile }
    {
        let frame = self.frames.pop();
        if let Element::Segment | Element::BitSegment = frame.found.element() {
            return Ok(false);
        }
        let profile = self.frames.profile;
        self.draft.close(profile, frame, self.frames.place())?;
        Ok(self.move_to(frame.found.after()))
    }

    /// Goes on at the place after an element. Returns whether the message is whole.
    #[inline(always)]
    fn move_to(&mut self, after: Place) -> bool
        requires is_of { IsTrue (is_place_of self.old.frames.profile after) }
        ensures passed { GoesOn after self.old.frames.open.items self.new.frames.open.items result }
        ensures draft { self.new.draft ≡ self.old.draft }
        ensures profile { self.new.frames.profile ≡ self.old.frames.profile }
        ensures depth { depth_of self.new.frames ≡ depth_of self.old.frames }
    {
        if self.frames.depth() == 0 {
            return true;
        }
        self.frames.advance(after);
        false
    }
}
