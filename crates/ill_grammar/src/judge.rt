//! Judgements on an element at a place: its tag, form and length, and the parts that are missing where one ends.
ghost use Rattle.std.specs.Prelude.{◌≡◌, ◌≤◌, false, true, IfOk, IfSome, IsTrue, length};
ghost use Rattle.ber_core.specs.Id.{form_of_id};
ghost use Rattle.std.specs.Option.{ForSome};

use crate::due::Next;
use crate::form::{form_fault, is_usual};
use crate::frames::{Frames, MAX_DEPTH};
use crate::place::Found;
use ber_core::{Id, Len, LengthRead};
use ill_schema::{Cause, Refusal};

/// A constructed element: the size of its header, and its end.
#[derive(Clone, Copy)]
pub struct ConstructedElement {
    pub found: Found,
    pub id: Id,
    pub header: u32,
    pub end: Option<u32>,
    ghost within: { ForSome end (λ e. e ≤ 1_048_576) },
    ghost form: { form_of_id id ≡ true },
}

/// A primitive element: the sizes of its header and its content.
#[derive(Clone, Copy)]
pub struct PrimitiveElement {
    pub found: Found,
    pub id: Id,
    pub header: u32,
    pub size: u32,
    ghost form: { form_of_id id ≡ false },
}

/// The header and the end of an element that may begin at a place.
#[derive(Clone, Copy)]
pub enum Extent {
    /// A constructed one: the size of its header, and its end.
    Opens(u32, Option<u32>),
    /// A primitive one: the sizes of its header and its content.
    Reads(u32, u32),
}

impl Frames {
    ghost use Rattle.std.specs.Prelude.{◌+◌, ◌<◌, ℕ, List, ◌++◌, min, drop, Ok, Some, None};
    ghost use Rattle.ill_grammar.specs.Standing.{depth_of, next_at};
    ghost use Rattle.ill_grammar.specs.code.Judging.{HeaderIsIn, IsBegin, is_usual, lacks_part, unexpected};
    ghost use Rattle.ill_refusals.specs.Fault.{fault_of, cut_fault};
    ghost use Rattle.ill_refusals.specs.code.Judge.{judge_length, judge_size};
    ghost use Rattle.ill_grammar.specs.code.Judging.{WhereItStands, EndsAs, Fits, Reaches, IsIdentified, IsRoom};
    ghost use Rattle.ber_core.specs.Id.{tag_of_id};
    ghost use Rattle.ill_grammar.specs.Due.{read_as};
    ghost use Rattle.ill_grammar.specs.Elements.{element_is};
    ghost use Rattle.ber_core.specs.HeaderRead.{IsLengthRead};
    ghost use Rattle.ber_core.specs.Reading.{read_length};
    ghost use Rattle.ill_schema.specs.Profiles.{profile_of};
    ghost use Rattle.ill_grammar.specs.Two.{is_found_of};
    ghost use Rattle.ill_grammar.specs.declared.element.Element.TheVariants.{Foreign};

    /// The fault where an octet is missing: the bound comes first, or the input's end.
    #[cold]
    pub fn cut_fault(&self, at: u32, available_len: usize) -> Refusal
        ensures { (rest : List ℕ) → length rest ≡ available_len
            → WhereItStands self.now (λ place. fault_of result ≡ cut_fault
            (profile_of self.now.profile) place at rest) }
    {
        let room = self.bound().saturating_sub(at);
        if available_len >= room as usize {
            Refusal {
                at,
                cause: self.past_end(),
            }
        } else {
            Refusal {
                at: at.saturating_add(available_len as u32),
                cause: Cause::Truncated,
            }
        }
    }

    /// Tells whether a part of the innermost element is missing.
    #[inline(always)]
    pub fn lacks_part(&self) -> bool
        ensures exact { result ≡ lacks_part self.now }
        ensures complete { 0 < depth_of self.now → result ≡ false → (at : ℕ)
            → WhereItStands self.now (λ place. EndsAs self.now.profile place at None) }
    {
        self.place().is_missing()
    }

    /// The fault where the innermost element ends and a part of it is missing.
    #[cold]
    pub fn missing_fault(&self, at: u32) -> Refusal
        requires depth { 0 < depth_of self.now }
        requires missing { IsTrue (lacks_part self.now) }
        ensures { WhereItStands self.now (λ place. EndsAs self.now.profile place at (Some result)) }
    {
        let Some(part) = self.place().missing() else {
            unreachable!()
        };
        Refusal {
            at,
            cause: Cause::Missing(part),
        }
    }

    /// The element that is due with the identifier, where one may begin and is usual in this form. None otherwise.
    // Makes no refusal, so that most elements do without its memory.
    #[inline(always)]
    pub fn find_usual(&self, id: Id) -> Option<Found>
        ensures begun { IfSome result (λ found. WhereItStands self.now
            (λ place. IsBegin self.now place (tag_of_id id) found (form_of_id id))) }
        ensures usual { IfSome result (λ found. IsTrue (is_usual (read_as found) (form_of_id id))) }
        ensures room { IfSome result (λ _. depth_of self.now < 32) }
        ensures is_of { IfSome result (λ found. IsTrue (is_found_of self.now.profile found)) }
    {
        if self.depth() == MAX_DEPTH {
            return None;
        }
        let found = self.place().find_tag(id)?;
        if is_usual(found, id.constructed()) {
            return Some(found);
        }
        None
    }

    /// The element of a foreign tree that is due whatever its identifier, where one may begin. None otherwise.
    // Makes no refusal, either.
    #[inline(always)]
    pub fn find_foreign(&self) -> Option<Found>
        ensures begun { (id : Id) → IfSome result (λ found. WhereItStands self.now
            (λ place. IsBegin self.now place (tag_of_id id) found (form_of_id id))) }
        ensures foreign { IfSome result (λ found. (levels : ℕ) × (read_as found ≡ Foreign levels)) }
        ensures room { IfSome result (λ _. depth_of self.now < 32) }
        ensures is_of { IfSome result (λ found. IsTrue (is_found_of self.now.profile found)) }
    {
        if self.depth() == MAX_DEPTH {
            return None;
        }
        self.place().find_any()
    }

    /// The depth, tag and form of an element.
    #[inline(always)]
    pub fn judge_tag(&self, at: u32, id: Id) -> Result<Found, Refusal>
        ensures exact { WhereItStands self.now (λ place. IsIdentified self.now place at id result) }
        ensures room { IfOk result (λ _. depth_of self.now < 32) }
        ensures is_of { IfOk result (λ found. IsTrue (is_found_of self.now.profile found)) }
    {
        if self.depth() >= MAX_DEPTH {
            return Err(Refusal {
                at,
                cause: Cause::TooDeep,
            });
        }
        let Some(found) = self.place().find(id) else {
            return Err(Refusal {
                at,
                cause: self.unexpected(),
            });
        };
        match form_fault(found, id.constructed()) {
            Some(cause) => Err(Refusal { at, cause }),
            None => Ok(found),
        }
    }

    /// The reason why an element is not due: no more levels may follow in a foreign tree, or nothing has its tag.
    #[cold]
    fn unexpected(&self) -> Cause
        ensures { result ≡ unexpected (next_at self.now.profile self.now.open.items) }
    {
        match self.next() {
            Next::Foreigns(0) => Cause::TooDeep,
            _ => Cause::UnexpectedTag,
        }
    }

    /// The length of an element.
    #[inline(always)]
    pub fn judge_length(
        &self,
        at: u32,
        id: Id,
        length_read: LengthRead,
        window: &[u8],
        room: u32,
        available_len: usize,
    ) -> Result<Extent, Refusal>
        requires fits { IsRoom at room window.now }
        requires header { HeaderIsIn length_read (length window.now) }
        requires form { (header : ℕ) → length_read ≡ LengthRead.Whole Len.Indefinite header
            → form_of_id id ≡ true }
        ensures exact { (rest front behind : List ℕ) → length rest ≡ available_len
            → window.now ≡ front ++ behind
            → IsLengthRead length_read (read_length (form_of_id id) behind) window.now
            → Reaches self.now id at room window.now result
            (λ found place. judge_length (profile_of self.now.profile) place
            (element_is (read_as found)) (tag_of_id id) (form_of_id id) at (length front)
            (cut_fault (profile_of self.now.profile) place at rest) behind) }
        ensures fits { IfOk result (Fits id (length window.now)) }
    {
        match length_read {
            LengthRead::PartLength(_) => Err(self.cut_fault(at, available_len)),
            LengthRead::NoLength => Err(Refusal {
                at,
                cause: Cause::BadLength,
            }),
            LengthRead::Whole(Len::Indefinite, header) => Ok(Extent::Opens(header, None)),
            LengthRead::Whole(Len::Definite(size), header) => {
                self.judge_size(at, id, header, size, window, room, available_len)
            }
        }
    }

    /// The header and the end of an element, as `judge_length` finds them. None where its length is at fault, or not all of it is there.
    #[inline(always)]
    pub fn reach(
        &self,
        at: u32,
        id: Id,
        length_read: LengthRead,
        window: &[u8],
        room: u32,
    ) -> Option<Extent>
        requires fits { IsRoom at room window.now }
        requires header { HeaderIsIn length_read (length window.now) }
        requires form { (header : ℕ) → length_read ≡ LengthRead.Whole Len.Indefinite header
            → form_of_id id ≡ true }
        ensures exact { IfSome result (λ extent. (rest front behind : List ℕ)
            → window.now ≡ front ++ behind
            → IsLengthRead length_read (read_length (form_of_id id) behind) window.now
            → Reaches self.now id at room window.now (Ok extent)
            (λ found place. judge_length (profile_of self.now.profile) place
            (element_is (read_as found)) (tag_of_id id) (form_of_id id) at (length front)
            (cut_fault (profile_of self.now.profile) place at rest) behind)) }
        ensures fits { IfSome result (Fits id (length window.now)) }
    {
        match length_read {
            LengthRead::Whole(Len::Indefinite, header) => Some(Extent::Opens(header, None)),
            LengthRead::Whole(Len::Definite(size), header) => {
                self.reach_definite(at, id, header, size, window, room)
            }
            _ => None,
        }
    }

    /// The header and the end of an element of definite length. None where the end is past the bound, or not all of it is there.
    #[inline(always)]
    fn reach_definite(
        &self,
        at: u32,
        id: Id,
        header: u32,
        size: u32,
        window: &[u8],
        room: u32,
    ) -> Option<Extent>
        requires fits { IsRoom at room window.now }
        requires header { (0 < header) × (header ≤ length window.now) }
        ensures exact { IfSome result (λ extent. (rest : List ℕ) (n : ℕ)
            → size ≡ min n 4_294_967_295 → Reaches self.now id at room window.now (Ok extent)
            (λ found place. judge_size (profile_of self.now.profile) place
            (element_is (read_as found)) (tag_of_id id) (form_of_id id) at header
            (cut_fault (profile_of self.now.profile) place at rest) n
            (drop header window.now))) }
        ensures fits { IfSome result (Fits id (length window.now)) }
    {
        if size > room - header {
            return None;
        }
        if id.constructed() {
            return Some(Extent::Opens(header, Some(at + header + size)));
        }
        if window.len() - (header as usize) < size as usize {
            return None;
        }
        Some(Extent::Reads(header, size))
    }

    /// The end of an element of definite length.
    #[inline(always)]
    fn judge_size(
        &self,
        at: u32,
        id: Id,
        header: u32,
        size: u32,
        window: &[u8],
        room: u32,
        available_len: usize,
    ) -> Result<Extent, Refusal>
        requires fits { IsRoom at room window.now }
        requires header { (0 < header) × (header ≤ length window.now) }
        ensures exact { (rest : List ℕ) (n : ℕ) → length rest ≡ available_len
            → size ≡ min n 4_294_967_295 → Reaches self.now id at room window.now result
            (λ found place. judge_size (profile_of self.now.profile) place
            (element_is (read_as found)) (tag_of_id id) (form_of_id id) at header
            (cut_fault (profile_of self.now.profile) place at rest) n
            (drop header window.now)) }
        ensures fits { IfOk result (Fits id (length window.now)) }
    {
        if size > room - header {
            return Err(Refusal {
                at,
                cause: self.past_end(),
            });
        }
        if id.constructed() {
            return Ok(Extent::Opens(header, Some(at + header + size)));
        }
        if window.len() - (header as usize) < size as usize {
            return Err(self.cut_fault(at, available_len));
        }
        Ok(Extent::Reads(header, size))
    }
}
