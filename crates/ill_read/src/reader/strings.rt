//! Strings that are alone in their explicit tags, as most are: tag and string are taken at once.
ghost use Rattle.std.specs.Prelude.{◌≤◌, ◌+◌, length, IfSome, IsTrue};
ghost use Rattle.ill_grammar.specs.Due.{read_as};
ghost use Rattle.ill_read.specs.code.Drafts.{WrapsString, is_ill_string};
ghost use Rattle.ill_read.specs.code.StringsInTags.{BeginsWithString, HasStringInTag};

use super::Reader;
use crate::draft::Draft;
use crate::failure::Failure;
use ber_core::{Id, Len, LengthRead, length_after};
use ill_grammar::{ConstructedElement, Element, Extent, Found, LeafType};
use ill_schema::NodeId;

/// A string of an ILL-String: its type, and the sizes of its header and its content.
#[derive(Clone, Copy)]
struct PlainString {
    leaf: LeafType,
    header: u32,
    size: u32,
}

/// Tells whether an element is an explicit tag round an ILL-String.
#[inline(always)]
fn wraps_string(found: Found) -> bool
    ensures { (leaf : LeafType) → IsTrue result → IsTrue (is_ill_string leaf)
        → WrapsString (read_as found) leaf }
{
    match found.element() {
        Element::Wrapper(wrapped) => matches!(wrapped.node, NodeId::IllString),
        _ => false,
    }
}

/// The primitive string that the octets begin with, if they have all of it.
#[inline(always)]
fn first_string(octets: &[u8]) -> Option<PlainString>
    requires { length octets.now ≤ 1_048_576 }
    ensures { IfSome result (λ string. BeginsWithString string.leaf string.header string.size
        octets.now) }
{
    let leaf = match *octets.first()? {
        26 => LeafType::Visible,
        27 => LeafType::General,
        _ => return None,
    };
    let Some(LengthRead::Whole(Len::Definite(size), header)) = length_after(octets, false) else {
        return None;
    };
    if octets.len() - (header as usize) < size as usize {
        return None;
    }
    Some(PlainString { leaf, header, size })
}

/// The string that is alone in an explicit tag, whose first octet is at this offset: its type and its content, with the number of octets of
/// both. None where the octets don't have all of it, or the tag has anything else in it.
#[inline(always)]
fn string_in(opening: ConstructedElement, at: u32, window: &[u8]) -> Option<(LeafType, &[u8], u32)>
    requires header { opening.header ≤ length window.now }
    requires fits { at + length window.now ≤ 1_048_576 }
    ensures { IfSome result (λ found. HasStringInTag at opening.header opening.end window.now
        found.0 found.1.now found.2) }
{
    let header = opening.header as usize;
    match opening.end {
        Some(end) => {
            let until = end.saturating_sub(at) as usize;
            if until < header || window.len() < until {
                return None;
            }
            let contents = &window[header..until];
            let string = first_string(contents)?;
            let held = string.header + string.size;
            if held as usize != contents.len() {
                return None;
            }
            let content = &contents[string.header as usize..held as usize];
            Some((string.leaf, content, opening.header + held))
        }
        None => {
            let contents = &window[header..];
            let string = first_string(contents)?;
            let held = string.header + string.size;
            let marks = &contents[held as usize..];
            if marks.len() < 2 || marks[0] != 0 || marks[1] != 0 {
                return None;
            }
            let content = &contents[string.header as usize..held as usize];
            Some((string.leaf, content, opening.header + held + 2))
        }
    }
}

impl<D: Draft> Reader<D> {
    ghost use Rattle.std.specs.Prelude.{◌≡◌, ℕ, ◌-◌, ◌<◌, List, take, true, Ok};
    ghost use Rattle.ill_schema.specs.Profiles.{profile_of};
    ghost use Rattle.ill_tables.specs.declared.profile.Profile.{Profile as Named};
    ghost use Rattle.ber_core.specs.Id.{form_of_id, tag_of_id};
    ghost use Rattle.ill_grammar.specs.Two.{is_found_of};
    ghost use Rattle.ill_grammar.specs.Standing.{StandsBefore, depth_of};
    ghost use Rattle.ill_grammar.specs.code.Judging.{Fits, IsBegin, IsExtent, is_usual};
    ghost use Rattle.ill_refusals.specs.Place.{bound};
    ghost use Rattle.ill_refusals.specs.code.Judge.{judge};
    ghost use Rattle.ill_read.specs.Paths.{HoldsAt};
    ghost use Rattle.ill_read.specs.code.ReaderCode.{CanStep, HasAdvanced, Progresses};
    ghost use Rattle.ill_read.specs.code.Progress.{Opens};
    ghost use Rattle.ill_read.specs.declared.reader.State.{State};
    ghost use Rattle.ill_grammar.specs.LeafTypes.{IsContentIn, leaf_is};

    /// Opens the element that was found if it is constructed, and takes it if it is primitive or a tag with nothing but a string in it. The
    /// element is usual.
    #[inline(always)]
    pub(super) fn open_or_take(
        &mut self,
        found: Found,
        id: Id,
        extent: Extent,
        window: &[u8],
    ) -> Option<usize>
        requires takes { D.takes self.old.path.frames.profile }
        requires open { self.old.state ≡ State.Open }
        requires room { depth_of self.old.path.frames < 32 }
        requires is_of { IsTrue (is_found_of self.old.path.frames.profile found) }
        requires usual { IsTrue (is_usual (read_as found) (form_of_id id)) }
        requires extent { Fits id (length window.now) extent }
        requires fits { self.old.at + length window.now ≤ 1_048_576 }
        ensures pending { self.new.pending ≡ self.old.pending }
        ensures progress { Progresses (length window.now) self.old.path.frames self.new.path.frames
            result }
        ensures goes { (p : Named) (s rest : List ℕ)
            (b : StandsBefore p (HoldsAt p D.holds self.old.path) self.old.at s rest)
            → window.now ≡ take (bound (profile_of p) b.place - self.old.at) rest
            → IsBegin self.old.path.frames b.place (tag_of_id id) found (form_of_id id)
            → IsExtent p found id self.old.at window.now (Ok extent)
            (judge (profile_of p) b.place self.old.at rest)
            → HasAdvanced p D.holds D.has self.new s rest result }
        ensures profile { self.new.path.frames.profile ≡ self.old.path.frames.profile }
    {
        let Extent::Opens(header, end) = extent else {
            return self.open_or_read(found, id, extent, window, true);
        };
        // The string in the tag is one level deeper.
        if !wraps_string(found) || self.path.frames.depth() > 30 {
            return self.open_or_read(found, id, extent, window, true);
        }
        let opening = ConstructedElement {
            found,
            id,
            header,
            end,
        };
        let Some((leaf, content, size)) = string_in(opening, self.at, window) else {
            return self.open_or_read(found, id, extent, window, true);
        };
        if leaf.fault(self.path.frames.profile, content).is_some() {
            return self.open_or_read(found, id, extent, window, true);
        }
        self.take_string(opening, leaf, content, size)
    }

    /// Takes an explicit tag and the string in it, which have this number of octets together.
    #[inline(always)]
    fn take_string(
        &mut self,
        opening: ConstructedElement,
        leaf: LeafType,
        content: &[u8],
        size: u32,
    ) -> Option<usize>
        requires takes { D.takes self.old.path.frames.profile }
        requires open { self.old.state ≡ State.Open }
        requires room { depth_of self.old.path.frames < 31 }
        requires is_of { IsTrue (is_found_of self.old.path.frames.profile opening.found) }
        requires usual { IsTrue (is_usual (read_as opening.found) true) }
        requires string { WrapsString (read_as opening.found) leaf }
        requires content { IsContentIn self.old.path.frames.profile (leaf_is leaf) content.now }
        requires header { (0 < opening.header) × (opening.header ≤ size) }
        requires fits { self.old.at + size ≤ 1_048_576 }
        ensures pending { self.new.pending ≡ self.old.pending }
        ensures progress { Progresses size self.old.path.frames self.new.path.frames result }
        ensures goes { (p : Named) (s rest window : List ℕ)
            (can : CanStep p D.holds self.old s rest (Opens opening))
            → window ≡ take (bound (profile_of p) can.0.place - self.old.at) rest
            → HasStringInTag self.old.at opening.header opening.end window leaf content.now size
            → HasAdvanced p D.holds D.has self.new s rest result }
        ensures profile { self.new.path.frames.profile ≡ self.old.path.frames.profile }
    {
        match self.path.take_string(opening, leaf, content) {
            Ok(Some(whole)) => self.move_on(size, whole),
            Ok(None) => self.open(opening, true),
            Err(error) => self.fail(Failure::from(error)),
        }
    }
}
