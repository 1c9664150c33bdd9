//! Goes through the elements of a message, one at a time.
ghost use Rattle.std.specs.Prelude.{◌≤◌, length, take, IfSome};
ghost use Rattle.ber_core.specs.Header.{IsHeader};

use crate::draft::Draft;
use crate::failure::Failure;
use crate::reader::{PassedElement, Reader};
use ill_grammar::{ConstructedElement, Frame, Frames, LeafType, Place, PrimitiveElement};
use ill_schema::Profile;
use std::alloc::{AllocError, Global};

/// Goes through the elements of a message one at a time, for callers that say something of each. It makes nothing of them.
///
/// It stops where the reader of normal forms does, except that it doesn't check the text of a string in segments, nor how long the normal form is.
///
/// ```
/// let mut reader = ElementReader::new(alloc, Profile::Two);
/// while let Some(len) = reader.step(rest) {
///     rest = &rest[len..];
///     // Now `reader.frames()` has the elements that are open before `rest`.
/// }
/// ```
#[derive(Drop)]
pub struct ElementReader {
    reader: Reader<EmptyDraft>,
}

impl ElementReader {
    /// Begins before a message, which is read in the profile.
    pub fn new(alloc: Global, profile: Profile) -> ElementReader {
        ElementReader {
            reader: Reader::new(alloc, profile, EmptyDraft),
        }
    }

    /// The elements that are open, innermost last.
    pub fn frames(&self) -> &Frames {
        self.reader.frames()
    }

    /// The number of octets that it has passed.
    pub fn offset(&self) -> u32 {
        self.reader.offset()
    }

    /// Goes on over one thing, of the octets from its offset on, and returns how many octets that has: a header, a primitive element, an end mark, or
    /// nothing where an element of definite length ends. None where the message is whole, or refused, or the octets don't reach that far.
    pub fn step(&mut self, rest: &[u8]) -> Option<usize>
        ensures { IfSome result (λ len. len ≤ length rest.now) }
    {
        self.reader.step(rest)
    }

    /// Goes on over one element as [`ElementReader::step`] does, and returns what was read of it. None where `step` returns None, at an end mark
    /// and where an element of definite length ends; `step` takes these.
    pub fn pass(&mut self, rest: &[u8]) -> Option<PassedElement>
        ensures within { IfSome result (λ passed. passed.header_size ≤ length rest.now) }
        ensures header { IfSome result (λ passed. IsHeader passed.header
            (take passed.header_size rest.now)) }
    {
        self.reader.pass(rest)
    }
}

/// A draft of nothing. It keeps nothing of what is read, and says nothing of it.
#[derive(Drop)]
struct EmptyDraft;

impl Draft for EmptyDraft {
    ghost takes = { λ p. Unit };

    ghost holds = { λ draft levels text. ⊥ };

    ghost has = { λ p draft a octets. ⊥ };

    fn open(
        &mut self,
        _profile: Profile,
        _place: Place,
        _opening: ConstructedElement,
    ) -> Result<usize, AllocError> {
        Ok(0)
    }

    fn open_usual(
        &mut self,
        _profile: Profile,
        _place: Place,
        _opening: ConstructedElement,
    ) -> Result<usize, AllocError> {
        Ok(0)
    }

    fn string_in_tag(
        &mut self,
        _profile: Profile,
        _place: Place,
        _opening: ConstructedElement,
        _leaf: LeafType,
        _content: &[u8],
    ) -> Result<bool, AllocError> {
        Ok(false)
    }

    fn text(&mut self, _octets: &[u8]) -> Result<(), AllocError> {
        Ok(())
    }

    fn bits(
        &mut self,
        _profile: Profile,
        _reading: PrimitiveElement,
        _content: &[u8],
    ) -> Result<(), AllocError> {
        Ok(())
    }

    fn leaf(
        &mut self,
        _profile: Profile,
        _place: Place,
        _reading: PrimitiveElement,
        _leaf: LeafType,
        _content: &[u8],
    ) -> Result<(), AllocError> {
        Ok(())
    }

    fn module_element(
        &mut self,
        _profile: Profile,
        _place: Place,
        _reading: PrimitiveElement,
        _content: &[u8],
    ) -> Result<(), AllocError> {
        Ok(())
    }

    fn close(&mut self, _profile: Profile, _frame: Frame, _place: Place) -> Result<(), Failure> {
        Ok(())
    }

    fn end(&mut self, _octets: u32) -> bool {
        true
    }
}
