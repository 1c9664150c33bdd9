//! The draft that is the message's value: the values of the elements that have been read, until those round them are whole.
ghost use Rattle.ill_tables.specs.declared.profile.Profile.TheVariants.{Two};
ghost use Rattle.std.specs.Prelude.{◌≡◌, ℕ, List, [], ◌∷◌, IfOk, IsTrue};
ghost use Rattle.ill_grammar.specs.Places.{is_two};
ghost use Rattle.ill_schema.specs.Content.{Content};
ghost use Rattle.ill_schema.specs.Value.{content_of};
ghost use Rattle.ill_read.specs.code.OpenValues.{EndsExactly, IsBodyOf};
ghost use Rattle.ill_schema.specs.Apdu.{Apdu};
ghost use Rattle.ill_read.specs.code.Drafts.{HoldsApdu};
ghost use Rattle.ill_read.specs.code.ReaderCode.{IsMessageOf};
ghost use Rattle.ill_read.specs.Paths.{AreMessage, AreValues};
ghost use Rattle.ill_grammar.specs.Standing.{top_level, whole_level};
ghost use Rattle.ill_grammar.specs.Contents.{with_alternative};

use crate::draft::Draft;
use crate::failure::Failure;
use crate::open_values::OpenValues;
use crate::whole::message_of;
use ill_grammar::{
    ConstructedElement, Element, Frame, LeafType, Next, Place, PrimitiveElement, Slot,
};
use ill_schema::{Cause, Message, Profile, Value};
use std::alloc::{AllocError, Global};
use std::mem;

/// The values in the open elements, and the text of the string that is open.
#[derive(Drop)]
pub struct ValueDraft {
    alloc: Global,
    held: OpenValues,
    text: Vec<u8>,
    /// Once it is whole.
    message: Option<Message>,
}

/// The value of a message, with the row of ILL-APDU that it is of.
#[derive(Drop)]
pub struct ApduValue {
    pub row: u8,
    pub value: Value,
}

impl ValueDraft {
    /// Holds nothing.
    pub fn new(alloc: Global) -> ValueDraft
        ensures { AreValues result (top_level Two ∷ []) [] }
    {
        ValueDraft {
            alloc,
            held: OpenValues::new(alloc),
            text: Vec::new(alloc),
            message: None,
        }
    }

    /// The message, once it is whole.
    pub fn into_message(self) -> Option<Message>
        ensures { result ≡ self.message }
    {
        let ValueDraft {
            alloc: _,
            held: _,
            text: _,
            message,
        } = self;
        message
    }

    /// The message that is held, of as many octets, unless its normal form passes the limit.
    fn message_of_draft(&mut self, octets: u32) -> Option<Message>
        ensures { (a : Apdu) (b : List ℕ) → HoldsApdu Two AreValues self.old a b
            → IsMessageOf a octets result }
    {
        message_of(self.body()?, octets)
    }

    /// The value of a message that is whole.
    fn body(&mut self) -> Option<ApduValue>
        ensures { (c : Content) → AreValues self.old (whole_level Two c ∷ []) []
            → IsBodyOf result c }
    {
        match self.held.last()? {
            Value::Alt(row, value) => Some(ApduValue {
                row,
                value: Box::into_inner(value),
            }),
            Value::Flag(_)
            | Value::Whole(_)
            | Value::Date(_)
            | Value::Time(_)
            | Value::Print(_)
            | Value::Str(_)
            | Value::Seq(_)
            | Value::List(_) => None,
        }
    }

    /// The value of an element that has ended.
    fn ended(&mut self, frame: Frame) -> Result<Option<Value>, Failure>
        requires { IsTrue (is_two frame.found) }
        ensures { EndsExactly self.old frame self.new result }
    {
        match frame.found.element() {
            Element::Segment => Ok(None),
            Element::Leaf(leaf) => {
                let text = mem::replace(&mut self.text, Vec::new(self.alloc));
                match leaf.fault(Profile::Two, &text) {
                    Some(fault) => Err(Failure::refused(frame.start, Cause::from(fault))),
                    None => Ok(Some(leaf.value(text))),
                }
            }
            Element::Sequence(_) => Ok(Some(
                self.held.sequence(frame.next(), frame.contents_start)?,
            )),
            Element::List(_) => Ok(Some(self.held.list(self.alloc, frame.contents_start)?)),
            Element::Wrapper(_) => Ok(self.held.last()),
            Element::LooseWrapper(_) => match frame.next() {
                Next::Nothing => Ok(self.held.last()),
                _ => Ok(Some(self.held.sequence(frame.next(), frame.contents_start)?)),
            },
            Element::ModuleLeaf(_)
            | Element::BitString
            | Element::BitSegment
            | Element::Foreign(_) => unreachable!(),
        }
    }
}

impl Draft for ValueDraft {
    ghost takes = { λ p. p ≡ Two };

    ghost holds = { λ values levels text. AreValues values levels text };

    ghost has = { λ p values a octets. AreMessage values a octets };

    fn open(
        &mut self,
        _profile: Profile,
        _place: Place,
        _opening: ConstructedElement,
    ) -> Result<usize, AllocError> {
        Ok(self.held.len())
    }

    fn open_usual(
        &mut self,
        profile: Profile,
        place: Place,
        opening: ConstructedElement,
    ) -> Result<usize, AllocError> {
        self.open(profile, place, opening)
    }

    fn string_in_tag(
        &mut self,
        _profile: Profile,
        _place: Place,
        _opening: ConstructedElement,
        _leaf: LeafType,
        _content: &[u8],
    ) -> Result<bool, AllocError> {
        Ok(false)
    }

    fn text(&mut self, octets: &[u8]) -> Result<(), AllocError> {
        self.text.extend_from_slice(octets)?;
        Ok(())
    }

    fn bits(
        &mut self,
        _profile: Profile,
        _reading: PrimitiveElement,
        _content: &[u8],
    ) -> Result<(), AllocError> {
        unreachable!()
    }

    fn leaf(
        &mut self,
        _profile: Profile,
        place: Place,
        reading: PrimitiveElement,
        leaf: LeafType,
        content: &[u8],
    ) -> Result<(), AllocError> {
        let value = leaf.value(Vec::from_slice(self.alloc, content)?);
        let value = chosen(self.alloc, reading.found.alternative(), value)?;
        self.held
            .add(Next::at(place), Slot::of(reading.found), value)?;
        Ok(())
    }

    fn module_element(
        &mut self,
        _profile: Profile,
        _place: Place,
        _reading: PrimitiveElement,
        _content: &[u8],
    ) -> Result<(), AllocError> {
        unreachable!()
    }

    fn close(&mut self, _profile: Profile, frame: Frame, place: Place) -> Result<(), Failure> {
        let Some(value) = self.ended(frame)? else {
            return Ok(());
        };
        let value = chosen(self.alloc, frame.found.alternative(), value)?;
        self.held
            .add(Next::at(place), Slot::of(frame.found), value)?;
        Ok(())
    }

    fn end(&mut self, octets: u32) -> bool {
        match self.message_of_draft(octets) {
            Some(message) => {
                self.message = Some(message);
                true
            }
            None => false,
        }
    }
}

/// The value as the alternative of a choice that it is.
fn chosen(alloc: Global, alternative: Option<u8>, value: Value) -> Result<Value, AllocError>
    ensures { IfOk result (λ v. content_of v ≡ with_alternative alternative (content_of value)) }
{
    match alternative {
        Some(row) => Ok(Value::Alt(row, Box::new(alloc, value)?)),
        None => Ok(value),
    }
}
