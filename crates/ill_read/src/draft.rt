//! Drafts: results that are built while the elements of a message are read.
ghost use Rattle.std.specs.Prelude.{◌≡◌, ℕ, List, false, true, Ok, IfOk, IsTrue, OnOk};
ghost use Rattle.ill_schema.specs.Apdu.{Apdu};
ghost use Rattle.ill_tables.specs.declared.profile.Profile.{Profile as Named};
ghost use Rattle.ill_grammar.specs.Due.{read_as, shape};
ghost use Rattle.ill_grammar.specs.code.Judging.{is_usual};
ghost use Rattle.ill_grammar.specs.LeafTypes.{IsContentIn, leaf_is};
ghost use Rattle.ill_grammar.specs.Standing.{Level};
ghost use Rattle.ill_grammar.specs.Two.{is_found_of};
ghost use Rattle.ill_grammar.specs.declared.element.Element.{Element as CodeElement};
ghost use Rattle.ill_read.specs.code.Drafts.{ChecksText, HasBits, HasClosed, HasEnded, HasLeaf, HasModuleElement, HasOpened, HasString, HasText, HoldsApdu, IsModuleElement, IsRightContent, WrapsString};

use crate::failure::Failure;
use ill_grammar::{ConstructedElement, Frame, LeafType, Place, PrimitiveElement};
use ill_schema::Profile;
use std::alloc::AllocError;

/// A draft: the result that is built of a message while its elements are read.
pub trait Draft: Drop {
    // It can be made of messages of the profile.
    ghost takes: { Named → Type 0 };

    // It holds what the open elements have in them, innermost first, and the text of the string that is open.
    ghost holds: { Self → List Level → List ℕ → Type 0 };

    // It has this APDU of the profile, which was read of as many octets.
    ghost has: { Named → Self → Apdu → ℕ → Type 0 };

    /// An element opens, at this place. Returns where its contents begin.
    fn open(
        &mut self,
        profile: Profile,
        place: Place,
        opening: ConstructedElement,
    ) -> Result<usize, AllocError>
        requires takes { takes profile }
        requires is_of { IsTrue (is_found_of profile opening.found) }
        ensures { IfOk result (λ contents_start. HasOpened holds self.old (shape place) opening
            contents_start self.new) };

    /// A usual element opens, at this place: a SEQUENCE, a SEQUENCE OF, an explicit tag or an element of a foreign tree.
    fn open_usual(
        &mut self,
        profile: Profile,
        place: Place,
        opening: ConstructedElement,
    ) -> Result<usize, AllocError>
        requires takes { takes profile }
        requires is_of { IsTrue (is_found_of profile opening.found) }
        requires usual { IsTrue (is_usual (read_as opening.found) true) }
        ensures { IfOk result (λ contents_start. HasOpened holds self.old (shape place) opening
            contents_start self.new) };

    /// An explicit tag at this place, and in it one primitive string of an ILL-String. Returns false where the draft takes its parts one by
    /// one: nothing changes then.
    fn string_in_tag(
        &mut self,
        profile: Profile,
        place: Place,
        opening: ConstructedElement,
        leaf: LeafType,
        content: &[u8],
    ) -> Result<bool, AllocError>
        requires takes { takes profile }
        requires string { WrapsString (read_as opening.found) leaf }
        requires content { IsContentIn profile (leaf_is leaf) content.now }
        ensures left { result ≡ Ok false → self.new ≡ self.old }
        ensures added { result ≡ Ok true → HasString profile holds self.old (shape place) opening
            leaf content.now self.new };

    /// More octets of the string that is open.
    fn text(&mut self, octets: &[u8]) -> Result<(), AllocError>
        ensures { OnOk result (HasText holds self.old octets.now self.new) };

    /// A segment more of the BIT STRING that is open.
    fn bits(
        &mut self,
        profile: Profile,
        reading: PrimitiveElement,
        content: &[u8],
    ) -> Result<(), AllocError>
        requires takes { takes profile }
        requires is_of { IsTrue (is_found_of profile reading.found) }
        requires segment { read_as reading.found ≡ CodeElement.BitSegment }
        ensures { OnOk result (HasBits holds self.old content.now self.new) };

    /// A primitive element, at this place.
    fn leaf(
        &mut self,
        profile: Profile,
        place: Place,
        reading: PrimitiveElement,
        leaf: LeafType,
        content: &[u8],
    ) -> Result<(), AllocError>
        requires takes { takes profile }
        requires content { IsContentIn profile (leaf_is leaf) content.now }
        ensures { OnOk result (HasLeaf profile holds self.old (shape place) reading leaf content.now
            self.new) };

    /// A primitive element that only the module profile has, at this place.
    fn module_element(
        &mut self,
        profile: Profile,
        place: Place,
        reading: PrimitiveElement,
        content: &[u8],
    ) -> Result<(), AllocError>
        requires takes { takes profile }
        requires is_of { IsTrue (is_found_of profile reading.found) }
        requires other { IsModuleElement (read_as reading.found) }
        requires content { IsRightContent profile (read_as reading.found) content.now }
        ensures { OnOk result (HasModuleElement profile holds self.old (shape place) reading
            content.now self.new) };

    /// The innermost element ends, which began at this place.
    ///
    /// # Errors
    ///
    /// The fault of its text, at its start; or out of memory.
    fn close(&mut self, profile: Profile, frame: Frame, place: Place) -> Result<(), Failure>
        requires takes { takes profile }
        requires is_of { IsTrue (is_found_of profile frame.found) }
        ensures text { ChecksText profile holds self.old frame result }
        ensures closed { OnOk result (HasClosed profile holds self.old frame (shape place)
            self.new) };

    /// The message is whole, and has as many octets. Returns whether its normal form is within the limit.
    fn end(&mut self, octets: u32) -> bool
        ensures { (p : Named) (a : Apdu) (b : List ℕ) → takes p → HoldsApdu p holds self.old a b
            → HasEnded p has self.new a octets result };
}
