//! The text of a message, which is put into a sink part by part.
ghost use Rattle.std.specs.Prelude.{◌≡◌, ◌<◌, ◌≤◌, ◌^◌, ℕ, List, false, length, take, IfOk, IfErr, OnOk, IsErr, IsTrue};
ghost use Rattle.std.specs.Io.KnownBytes.{Appends};
ghost use Rattle.ber_leaf.specs.Profile.{profile_two};
ghost use Rattle.ill_schema.specs.Apdu.{Apdu, SpellsApdu, choice_of};
ghost use Rattle.ill_grammar.specs.Outline.{IsMarked, IsOutlineOf};
ghost use Rattle.ill_schema.specs.Profiles.{profile_of};
ghost use Rattle.ill_text.specs.Shown.{shown_text, shown_text_in};
ghost use Rattle.ill_text.specs.TextOf.{IsTextOf};
ghost use Rattle.ill_text.specs.code.Sending.{Adds, sending};
ghost use Rattle.ill_text.specs.code.FieldPaths.{head_line};

use crate::field_path::{FieldPath, FieldPlace};
use crate::show::put_value;
use crate::text_sink::TextSink;
use ber_core::{Sink, VecSink};
use ill_grammar::{after_leading_mark, alternative};
use ill_read::{Mark, Outline};
use ill_schema::{Profile, root_as, row_name, row_node};
use itoa::Buffer;
use std::alloc::{AllocError, Global};

/// The text of a message under a number: `message`, the number and the APDU's name, and then a line for each leaf, its path and its value.
#[derive(Drop)]
pub struct Text {
    profile: Profile,
    number: u32,
    outline: Outline,
}

impl Text {
    /// The text of the message that the outline is of, under this number.
    pub fn new(number: u32, outline: Outline) -> Text
        ensures { (a : Apdu) (octets : List ℕ) → SpellsApdu profile_two a octets
            → IsOutlineOf outline a → IsTextOf result (shown_text number a) }
    {
        Text::new_as(Profile::Two, number, outline)
    }

    /// The text of the message in the profile that the outline is of, under this number.
    ///
    /// # Examples
    ///
    /// ```
    /// let read = reader.read(Profile::Module, &mut source, memory)?;
    /// let text = Text::new_as(Profile::Module, 1, read.outline).octets(alloc)?;
    /// ```
    pub fn new_as(profile: Profile, number: u32, outline: Outline) -> Text
        ensures { (a : Apdu) (octets : List ℕ) → SpellsApdu (profile_of profile) a octets
            → IsOutlineOf outline a
            → IsTextOf result (shown_text_in (profile_of profile) number a) }
    {
        Text {
            profile,
            number,
            outline,
        }
    }

    /// The outline, whose memory can be used again.
    pub fn into_outline(self) -> Outline {
        let Text {
            profile: _,
            number: _,
            outline,
        } = self;
        outline
    }

    /// Its octets.
    ///
    /// # Errors
    ///
    /// Only out of memory.
    pub fn octets(&self, alloc: Global) -> Result<Vec<u8>, AllocError>
        ensures { (octets : List ℕ) → IsTextOf self.now octets
            → IfOk result (λ v. v.items ≡ octets) }
    {
        let mut sink = VecSink {
            octets: Vec::new(alloc),
            broken: false,
        };
        match self.put(&mut sink) {
            Ok(_) => Ok(sink.octets),
            Err(_) => Err(AllocError),
        }
    }

    /// Puts it into the sink, and returns how many octets it has. No memory is taken.
    ///
    /// # Errors
    ///
    /// The number of octets that the sink took, the first ones, where it breaks. They are not all.
    pub fn put<W: Sink>(&self, sink: &mut W) -> Result<usize, usize>
        ensures all { (octets : List ℕ) → IsTextOf self.now octets
            → OnOk result (Appends (W.contents sink.old) (W.contents sink.new) octets) }
        ensures count { (octets : List ℕ) → IsTextOf self.now octets
            → IfOk result (λ n. (n ≡ length octets) × (n ≤ 2 ^ 63)) }
        ensures some { (octets : List ℕ) → IsTextOf self.now octets
            → IfErr result (λ n. Appends (W.contents sink.old) (W.contents sink.new)
            (take n octets)) }
        ensures fewer { (octets : List ℕ) → IsTextOf self.now octets
            → IfErr result (λ n. n < length octets) }
        ensures breaks { (octets : List ℕ) → IsTextOf self.now octets → IsErr result
            → IsTrue (W.is_broken sink.new) }
        ensures stays { IsTrue (W.is_broken sink.old) → IsTrue (W.is_broken sink.new) }
    {
        let mut out = TextSink::new();
        put_text(self.profile, self.number, &self.outline, &mut out, sink);
        if out.is_broken() {
            return Err(out.written());
        }
        Ok(out.written())
    }
}

/// Puts the text of the message that the outline is of.
fn put_text<W: Sink>(
    profile: Profile,
    number: u32,
    outline: &Outline,
    out: &mut TextSink,
    sink: &mut W,
)
    ensures adds { (a : Apdu) → IsOutlineOf outline.now a
        → Adds (shown_text_in (profile_of profile) number a)
        (sending (W.contents sink.old) (W.is_broken sink.old) out.old)
        (sending (W.contents sink.new) (W.is_broken sink.new) out.new) }
    ensures empty { out.new.broken ≡ false → out.new.len ≡ 0 }
    ensures stays { IsTrue (W.is_broken sink.old) → IsTrue (W.is_broken sink.new) }
{
    put_marks(profile, number, outline.marks(), out, sink);
    out.flush(sink);
}

/// Puts the text of the message that the marks are of.
fn put_marks<W: Sink>(
    profile: Profile,
    number: u32,
    marks: &[Mark],
    out: &mut TextSink,
    sink: &mut W,
)
    ensures adds { (a : Apdu) → IsMarked (choice_of a) marks.now
        → Adds (shown_text_in (profile_of profile) number a)
        (sending (W.contents sink.old) (W.is_broken sink.old) out.old)
        (sending (W.contents sink.new) (W.is_broken sink.new) out.new) }
    ensures stays { IsTrue (W.is_broken sink.old) → IsTrue (W.is_broken sink.new) }
{
    match alternative(marks) {
        Some(row) => {
            let root = root_as(profile);
            put_head(number, row_name(root, row as usize), out, sink);
            let place = FieldPlace {
                path: &FieldPath::Start,
                name: "",
                node: row_node(root, row as usize),
            };
            let _ = put_value(after_leading_mark(marks), &place, out, sink);
        }
        None => {}
    }
}

/// Puts the first line.
fn put_head<W: Sink>(number: u32, name: &str, out: &mut TextSink, sink: &mut W)
    ensures adds { Adds (head_line number name.now)
        (sending (W.contents sink.old) (W.is_broken sink.old) out.old)
        (sending (W.contents sink.new) (W.is_broken sink.new) out.new) }
    ensures stays { IsTrue (W.is_broken sink.old) → IsTrue (W.is_broken sink.new) }
{
    let mut buffer = Buffer::new();
    out.put(sink, b"message ");
    out.put(sink, buffer.format(number).as_bytes());
    out.put(sink, b" ");
    out.put(sink, name.as_bytes());
    out.put(sink, b"\n");
}
