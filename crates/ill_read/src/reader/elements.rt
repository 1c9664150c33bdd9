//! The elements of a message, one step each: found, judged, and reported to the draft.
ghost use Rattle.std.specs.Prelude.{◌≤◌};

use super::{Reader, State};
use crate::draft::Draft;
use crate::failure::Failure;
use ber_core::{HeaderRead, Id, LengthRead, first_identifier, length_after, read_header};
use ill_grammar::{ConstructedElement, Extent, Found, PrimitiveElement};
use ill_schema::{Cause, Profile, Refusal};

impl<D: Draft> Reader<D> {
    ghost use Rattle.ill_schema.specs.Profiles.{profile_of};
    ghost use Rattle.ill_tables.specs.declared.profile.Profile.{Profile as Named};
    ghost use Rattle.ill_grammar.specs.Two.{is_found_of};
    ghost use Rattle.std.specs.Prelude.{◌≡◌, ℕ, ◌+◌, ◌-◌, ◌<◌, List, ◌++◌, length, drop, take, false, true, IsTrue, Ok, Err, Some, None};
    ghost use Rattle.ill_read.specs.Paths.{HoldsAt};
    ghost use Rattle.ill_grammar.specs.Standing.{StandsBefore};
    ghost use Rattle.ber_core.specs.HeaderRead.{IsHeaderRead};
    ghost use Rattle.ill_refusals.specs.code.Judge.{judge, judge_element, judge_end, judge_mark};
    ghost use Rattle.ill_read.specs.code.Judged.{IsJudgement};
    ghost use Rattle.ill_grammar.specs.code.Judging.{Fits, IsBegin, IsExtent, IsRoom, WhereItStands, is_usual, lacks_part};
    ghost use Rattle.ill_grammar.specs.Due.{read_as};
    ghost use Rattle.ill_grammar.specs.declared.element.Element.TheVariants.{Foreign};
    ghost use Rattle.ber_core.specs.Id.{form_of_id, tag_of_id};
    ghost use Rattle.ill_read.specs.code.Progress.{Closes, Opens, Reads};
    ghost use Rattle.ill_grammar.specs.Standing.{depth_of};
    ghost use Rattle.ill_read.specs.code.ReaderCode.{HasAdvanced, LeadsOn, Progresses, Steps};

    /// An element of a foreign tree, or another that isn't usual.
    #[inline(always)]
    pub(super) fn unusual_element(
        &mut self,
        window: &[u8],
        room: u32,
        available_len: usize,
    ) -> Option<usize>
        requires takes { D.takes self.old.path.frames.profile }
        requires open { self.old.state ≡ State.Open }
        requires fits { IsRoom self.old.at room window.now }
        ensures pending { self.new.pending ≡ self.old.pending }
        ensures progress { Progresses (length window.now) self.old.path.frames self.new.path.frames
            result }
        ensures goes { (p : Named)
            → LeadsOn p D.holds D.has self.old window.now room available_len self.new result
            (λ place cut. judge_element (profile_of p) place self.old.at cut window.now) }
        ensures profile { self.new.path.frames.profile ≡ self.old.path.frames.profile }
    {
        match self.path.frames.find_foreign() {
            Some(found) => self.foreign_element(found, window, room, available_len),
            None => self.element_with_any_header(window, room, available_len),
        }
    }

    /// An element of a foreign tree. Most have an identifier of one octet, and a length that is whole and right.
    #[inline(always)]
    fn foreign_element(
        &mut self,
        found: Found,
        window: &[u8],
        room: u32,
        available_len: usize,
    ) -> Option<usize>
        requires takes { D.takes self.old.path.frames.profile }
        requires open { self.old.state ≡ State.Open }
        requires fits { IsRoom self.old.at room window.now }
        requires begun { (id : Id) → WhereItStands self.old.path.frames
            (λ place. IsBegin self.old.path.frames place (tag_of_id id) found (form_of_id id)) }
        requires foreign { (levels : ℕ) × (read_as found ≡ Foreign levels) }
        requires room { depth_of self.old.path.frames < 32 }
        requires is_of { IsTrue (is_found_of self.old.path.frames.profile found) }
        ensures pending { self.new.pending ≡ self.old.pending }
        ensures progress { Progresses (length window.now) self.old.path.frames self.new.path.frames
            result }
        ensures goes { (p : Named)
            → LeadsOn p D.holds D.has self.old window.now room available_len self.new result
            (λ place cut. judge_element (profile_of p) place self.old.at cut window.now) }
        ensures profile { self.new.path.frames.profile ≡ self.old.path.frames.profile }
    {
        let Some(id) = first_identifier(window) else {
            return self.element_out_of_line(window, room, available_len);
        };
        let Some(length_read) = length_after(window, id.constructed()) else {
            return self.element_out_of_line(window, room, available_len);
        };
        let frames = &self.path.frames;
        let Some(extent) = frames.reach(self.at, id, length_read, window, room) else {
            return self.element_out_of_line(window, room, available_len);
        };
        self.open_or_read_foreign(found, id, extent, window)
    }

    /// Opens an element of a foreign tree if it is constructed, and takes it if it is primitive.
    #[inline(always)]
    fn open_or_read_foreign(
        &mut self,
        found: Found,
        id: Id,
        extent: Extent,
        window: &[u8],
    ) -> Option<usize>
        requires takes { D.takes self.old.path.frames.profile }
        requires open { self.old.state ≡ State.Open }
        requires room { depth_of self.old.path.frames < 32 }
        requires is_of { IsTrue (is_found_of self.old.path.frames.profile found) }
        requires foreign { (levels : ℕ) × (read_as found ≡ Foreign levels) }
        requires extent { Fits id (length window.now) extent }
        requires fits { self.old.at + length window.now ≤ 1_048_576 }
        ensures pending { self.new.pending ≡ self.old.pending }
        ensures progress { Progresses (length window.now) self.old.path.frames self.new.path.frames
            result }
        ensures goes { (p : Named) (s rest more : List ℕ)
            (b : StandsBefore p (HoldsAt p D.holds self.old.path) self.old.at s rest)
            → rest ≡ window.now ++ more
            → IsBegin self.old.path.frames b.place (tag_of_id id) found (form_of_id id)
            → IsExtent p found id self.old.at window.now (Ok extent)
            (judge (profile_of p) b.place self.old.at rest)
            → HasAdvanced p D.holds D.has self.new s rest result }
        ensures profile { self.new.path.frames.profile ≡ self.old.path.frames.profile }
    {
        match extent {
            Extent::Opens(header, end) => {
                let opening = ConstructedElement {
                    found,
                    id,
                    header,
                    end,
                };
                self.open(opening, true)
            }
            Extent::Reads(header, size) => {
                let reading = PrimitiveElement {
                    found,
                    id,
                    header,
                    size,
                };
                self.read_foreign(reading, window)
            }
        }
    }

    /// Takes a primitive element of a foreign tree, which begins the octets.
    #[inline(always)]
    fn read_foreign(&mut self, reading: PrimitiveElement, octets: &[u8]) -> Option<usize>
        requires takes { D.takes self.old.path.frames.profile }
        requires open { self.old.state ≡ State.Open }
        requires foreign { (levels : ℕ) × (read_as reading.found ≡ Foreign levels) }
        requires header { (0 < reading.header)
            × (reading.header + reading.size ≤ length octets.now) }
        requires is_of { IsTrue (is_found_of self.old.path.frames.profile reading.found) }
        requires fits { self.old.at + length octets.now ≤ 1_048_576 }
        ensures pending { self.new.pending ≡ self.old.pending }
        ensures progress { Progresses (length octets.now) self.old.path.frames self.new.path.frames
            result }
        ensures goes { (p : Named) (s rest more : List ℕ)
            (b : StandsBefore p (HoldsAt p D.holds self.old.path) self.old.at s rest)
            → rest ≡ octets.now ++ more
            → IsJudgement p self.old.path.frames b.place self.old.at octets.now (Reads reading)
            (judge (profile_of p) b.place self.old.at rest)
            → HasAdvanced p D.holds D.has self.new s rest result }
        ensures profile { self.new.path.frames.profile ≡ self.old.path.frames.profile }
    {
        let size = reading.header + reading.size;
        let content = &octets[reading.header as usize..size as usize];
        match self.path.take_module_element(reading, self.at, content) {
            Ok(whole) => self.move_on(size, whole),
            Err(failure) => self.fail(failure),
        }
    }

    /// An end mark, whose first octet is there.
    #[inline(always)]
    pub(super) fn end_mark(&mut self, window: &[u8], available_len: usize) -> Option<usize>
        requires takes { D.takes self.old.path.frames.profile }
        requires open { self.old.state ≡ State.Open }
        requires fits { self.old.at + length window.now ≤ 1_048_576 }
        requires depth { 0 < depth_of self.old.path.frames }
        ensures pending { self.new.pending ≡ self.old.pending }
        ensures progress { Progresses (length window.now) self.old.path.frames self.new.path.frames
            result }
        ensures goes { (p : Named) (room : ℕ)
            → LeadsOn p D.holds D.has self.old window.now room available_len self.new result
            (λ place cut. judge_mark (profile_of p) place self.old.at cut (drop 1 window.now)) }
        ensures profile { self.new.path.frames.profile ≡ self.old.path.frames.profile }
    {
        let Some(second) = window.get(1) else {
            return self.refuse_cut(available_len);
        };
        if *second == 0 {
            return self.end_element(2);
        }
        self.refuse(Refusal {
            at: self.at,
            cause: Cause::BadEnd,
        })
    }

    /// The innermost element ends, after this number of octets of an end mark.
    #[inline(always)]
    pub(super) fn end_element(&mut self, marks: u32) -> Option<usize>
        requires takes { D.takes self.old.path.frames.profile }
        requires open { self.old.state ≡ State.Open }
        requires depth { 0 < depth_of self.old.path.frames }
        requires fits { self.old.at + marks ≤ 1_048_576 }
        ensures pending { self.new.pending ≡ self.old.pending }
        ensures progress { Progresses marks self.old.path.frames self.new.path.frames result }
        ensures goes { (p : Named) (window : List ℕ) (room available_len : ℕ)
            → marks ≤ length window
            → LeadsOn p D.holds D.has self.old window room available_len self.new result
            (λ place cut. judge_end (profile_of p) place self.old.at marks) }
        ensures profile { self.new.path.frames.profile ≡ self.old.path.frames.profile }
    {
        if self.path.frames.lacks_part() {
            return self.refuse_missing();
        }
        self.close(marks)
    }

    /// Fails where the innermost element ends and a part of it is missing.
    #[inline(never)]
    fn refuse_missing(&mut self) -> Option<usize>
        requires open { self.old.state ≡ State.Open }
        requires depth { 0 < depth_of self.old.path.frames }
        requires missing { IsTrue (lacks_part self.old.path.frames) }
        ensures none { result ≡ None }
        ensures pending { self.new.pending ≡ self.old.pending }
        ensures goes { (p : Named) (window : List ℕ) (room available_len marks : ℕ)
            → LeadsOn p D.holds D.has self.old window room available_len self.new result
            (λ place cut. judge_end (profile_of p) place self.old.at marks) }
        ensures profile { self.new.path.frames.profile ≡ self.old.path.frames.profile }
    {
        let refusal = self.path.frames.missing_fault(self.at);
        self.refuse(refusal)
    }

    /// Does the same as [`Reader::element_with_any_header`], out of line.
    #[inline(never)]
    fn element_out_of_line(
        &mut self,
        window: &[u8],
        room: u32,
        available_len: usize,
    ) -> Option<usize>
        requires takes { D.takes self.old.path.frames.profile }
        requires open { self.old.state ≡ State.Open }
        requires fits { IsRoom self.old.at room window.now }
        ensures pending { self.new.pending ≡ self.old.pending }
        ensures progress { Progresses (length window.now) self.old.path.frames self.new.path.frames
            result }
        ensures goes { (p : Named)
            → LeadsOn p D.holds D.has self.old window.now room available_len self.new result
            (λ place cut. judge_element (profile_of p) place self.old.at cut window.now) }
        ensures profile { self.new.path.frames.profile ≡ self.old.path.frames.profile }
    {
        self.element_with_any_header(window, room, available_len)
    }

    /// An element whose identifier isn't of one octet, or whose length isn't whole.
    #[inline(always)]
    fn element_with_any_header(
        &mut self,
        window: &[u8],
        room: u32,
        available_len: usize,
    ) -> Option<usize>
        requires takes { D.takes self.old.path.frames.profile }
        requires open { self.old.state ≡ State.Open }
        requires fits { IsRoom self.old.at room window.now }
        ensures pending { self.new.pending ≡ self.old.pending }
        ensures progress { Progresses (length window.now) self.old.path.frames self.new.path.frames
            result }
        ensures goes { (p : Named)
            → LeadsOn p D.holds D.has self.old window.now room available_len self.new result
            (λ place cut. judge_element (profile_of p) place self.old.at cut window.now) }
        ensures profile { self.new.path.frames.profile ≡ self.old.path.frames.profile }
    {
        match read_header(window) {
            HeaderRead::PartIdentifier => self.refuse_cut(available_len),
            HeaderRead::NoIdentifier => self.refuse(Refusal {
                at: self.at,
                cause: Cause::BadTag,
            }),
            HeaderRead::Identified(id, length) => self.judge(
                id,
                length,
                window,
                room,
                available_len,
            ),
        }
    }

    /// An element whose identifier was read.
    #[inline(always)]
    fn judge(
        &mut self,
        id: Id,
        length_read: LengthRead,
        window: &[u8],
        room: u32,
        available_len: usize,
    ) -> Option<usize>
        requires takes { D.takes self.old.path.frames.profile }
        requires open { self.old.state ≡ State.Open }
        requires fits { IsRoom self.old.at room window.now }
        requires header { IsHeaderRead (HeaderRead.Identified id length_read) window.now }
        ensures pending { self.new.pending ≡ self.old.pending }
        ensures progress { Progresses (length window.now) self.old.path.frames self.new.path.frames
            result }
        ensures goes { (p : Named)
            → LeadsOn p D.holds D.has self.old window.now room available_len self.new result
            (λ place cut. judge_element (profile_of p) place self.old.at cut window.now) }
        ensures profile { self.new.path.frames.profile ≡ self.old.path.frames.profile }
    {
        let at = self.at;
        let found = match self.path.frames.judge_tag(at, id) {
            Ok(found) => found,
            Err(refusal) => return self.refuse(refusal),
        };
        let frames = &self.path.frames;
        let extent = match frames.judge_length(at, id, length_read, window, room, available_len) {
            Ok(extent) => extent,
            Err(refusal) => return self.refuse(refusal),
        };
        self.open_or_read(found, id, extent, window, false)
    }

    /// Opens the element that was found if it is constructed, and takes it if it is primitive. `usual` says that it is known to be usual.
    #[inline(always)]
    pub(super) fn open_or_read(
        &mut self,
        found: Found,
        id: Id,
        extent: Extent,
        window: &[u8],
        usual: bool,
    ) -> Option<usize>
        requires takes { D.takes self.old.path.frames.profile }
        requires open { self.old.state ≡ State.Open }
        requires room { depth_of self.old.path.frames < 32 }
        requires is_of { IsTrue (is_found_of self.old.path.frames.profile found) }
        requires usual { IsTrue usual → IsTrue (is_usual (read_as found) (form_of_id id)) }
        requires extent { Fits id (length window.now) extent }
        requires fits { self.old.at + length window.now ≤ 1_048_576 }
        ensures pending { self.new.pending ≡ self.old.pending }
        ensures progress { Progresses (length window.now) self.old.path.frames self.new.path.frames
            result }
        ensures goes { (p : Named) (s rest more : List ℕ)
            (b : StandsBefore p (HoldsAt p D.holds self.old.path) self.old.at s rest)
            → rest ≡ window.now ++ more
            → IsBegin self.old.path.frames b.place (tag_of_id id) found (form_of_id id)
            → IsExtent p found id self.old.at window.now (Ok extent)
            (judge (profile_of p) b.place self.old.at rest)
            → HasAdvanced p D.holds D.has self.new s rest result }
        ensures profile { self.new.path.frames.profile ≡ self.old.path.frames.profile }
    {
        match extent {
            Extent::Opens(header, end) => {
                let opening = ConstructedElement {
                    found,
                    id,
                    header,
                    end,
                };
                self.open(opening, usual)
            }
            Extent::Reads(header, size) => {
                let reading = PrimitiveElement {
                    found,
                    id,
                    header,
                    size,
                };
                self.read(reading, window, usual)
            }
        }
    }

    /// Opens an element.
    #[inline(always)]
    pub(super) fn open(&mut self, opening: ConstructedElement, usual: bool) -> Option<usize>
        requires takes { D.takes self.old.path.frames.profile }
        requires open { self.old.state ≡ State.Open }
        requires room { depth_of self.old.path.frames < 32 }
        requires usual { IsTrue usual → IsTrue (is_usual (read_as opening.found) true) }
        requires header { 0 < opening.header }
        requires is_of { IsTrue (is_found_of self.old.path.frames.profile opening.found) }
        requires fits { self.old.at + opening.header ≤ 1_048_576 }
        ensures pending { self.new.pending ≡ self.old.pending }
        ensures progress { Progresses opening.header self.old.path.frames self.new.path.frames
            result }
        ensures goes { (p : Named)
            → Steps p D.holds D.has self.old (Opens opening) self.new result }
        ensures profile { self.new.path.frames.profile ≡ self.old.path.frames.profile }
    {
        match self.path.open(opening, self.at, usual) {
            Ok(()) => self.move_on(opening.header, false),
            Err(error) => self.fail(Failure::from(error)),
        }
    }

    /// Takes a primitive element, which begins the octets.
    #[inline(always)]
    fn read(&mut self, reading: PrimitiveElement, octets: &[u8], usual: bool) -> Option<usize>
        requires takes { D.takes self.old.path.frames.profile }
        requires open { self.old.state ≡ State.Open }
        requires usual { IsTrue usual → IsTrue (is_usual (read_as reading.found) false) }
        requires header { (0 < reading.header)
            × (reading.header + reading.size ≤ length octets.now) }
        requires is_of { IsTrue (is_found_of self.old.path.frames.profile reading.found) }
        requires fits { self.old.at + length octets.now ≤ 1_048_576 }
        ensures pending { self.new.pending ≡ self.old.pending }
        ensures progress { Progresses (length octets.now) self.old.path.frames self.new.path.frames
            result }
        ensures goes { (p : Named) (s rest more : List ℕ)
            (b : StandsBefore p (HoldsAt p D.holds self.old.path) self.old.at s rest)
            → rest ≡ octets.now ++ more
            → IsJudgement p self.old.path.frames b.place self.old.at octets.now (Reads reading)
            (judge (profile_of p) b.place self.old.at rest)
            → HasAdvanced p D.holds D.has self.new s rest result }
        ensures profile { self.new.path.frames.profile ≡ self.old.path.frames.profile }
    {
        let size = reading.header + reading.size;
        let content = &octets[reading.header as usize..size as usize];
        match self.path.take(reading, self.at, content, usual) {
            Ok(whole) => self.move_on(size, whole),
            Err(failure) => self.fail(failure),
        }
    }

    /// Closes the innermost element, in which nothing is missing.
    #[inline(always)]
    fn close(&mut self, marks: u32) -> Option<usize>
        requires takes { D.takes self.old.path.frames.profile }
        requires open { self.old.state ≡ State.Open }
        requires depth { 0 < depth_of self.old.path.frames }
        requires fits { self.old.at + marks ≤ 1_048_576 }
        ensures pending { self.new.pending ≡ self.old.pending }
        ensures progress { Progresses marks self.old.path.frames self.new.path.frames result }
        ensures goes { (p : Named) → Steps p D.holds D.has self.old (Closes marks) self.new result }
        ensures profile { self.new.path.frames.profile ≡ self.old.path.frames.profile }
    {
        match self.path.close() {
            Ok(whole) => self.move_on(marks, whole),
            Err(failure) => self.fail(failure),
        }
    }
}
