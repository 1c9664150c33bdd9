//! Goes through a message that comes in pieces, and makes a draft of it.
ghost use Rattle.std.specs.Prelude.{◌≤◌};

mod elements;
mod pass;
mod strings;

use crate::draft::Draft;
use crate::failure::Failure;
use crate::path::Path;
use ber_core::{Id, LengthRead, first_identifier, length_after};
use ill_grammar::{Frames, need_at};
use ill_schema::{Cause, LIMIT, Profile, Refusal};
pub use pass::PassedElement;
use std::alloc::Global;
use std::mem;

/// Goes through a message that comes in pieces, and makes a draft of it.
#[derive(Drop)]
pub struct Reader<D: Drop> {
    alloc: Global,
    path: Path<D>,
    /// The offset of the place that it is at.
    at: u32,
    /// The octets that were read after that place.
    pending: Vec<u8>,
    state: State,
    ghost within: { at ≤ 1_048_576 },
}

/// The state of a message.
#[derive(Clone, Copy)]
pub enum State {
    Open,
    /// It ends where the reader is.
    Whole,
    Failed(Failure),
}

impl<D: Draft> Reader<D> {
    ghost use Rattle.ill_schema.specs.Profiles.{profile_of};
    ghost use Rattle.ill_tables.specs.declared.profile.Profile.{Profile as Named};
    ghost use Rattle.std.specs.Prelude.{◌≡◌, ◌≢◌, ℕ, ◌+◌, ◌-◌, ◌<◌, List, [], ◌∷◌, ◌++◌, length, drop, take, false, true, IsTrue, Ok, Err, Some, None};
    ghost use Rattle.ber_tree.specs.Octets.{are_octets};
    ghost use Rattle.ill_schema.specs.Apdu.{Apdu, Accepts};
    ghost use Rattle.ill_grammar.specs.Need.{NeedsAfterIn};
    ghost use Rattle.ill_read.specs.Feeding.{IsOpenAt};
    ghost use Rattle.ill_read.specs.Paths.{HoldsAt};
    ghost use Rattle.ill_grammar.specs.Standing.{StandsBefore, top_level};
    ghost use Rattle.ill_read.specs.Answers.{IsRefusedIn};
    ghost use Rattle.ill_refusals.specs.code.Judge.{faulty, judge, judge_octets};
    ghost use Rattle.ill_read.specs.code.Drafts.{HoldsApdu};
    ghost use Rattle.ill_read.specs.code.Filling.{HasLooked, NoneEndsWithin};
    ghost use Rattle.ill_grammar.specs.code.Judging.{IsRoom, WhereItStands};
    ghost use Rattle.ber_leaf.specs.Profile.{profile_two};
    ghost use Rattle.ill_refusals.specs.Fault.{ends_at};
    ghost use Rattle.ill_refusals.specs.Place.{bound};
    ghost use Rattle.ill_grammar.specs.Standing.{depth_of};
    ghost use Rattle.ill_read.specs.code.ReaderCode.{CanRefuse, HasAdvanced, HasClosed, HasOutcome, HasStopped, IsAfter, IsFed, IsRunning, LeadsOn, LeadsOnWithin, Progresses, ended};

    /// Begins with nothing, to read a message in the profile.
    #[inline(always)]
    pub fn new(alloc: Global, profile: Profile, draft: D) -> Reader<D>
        ensures open { D.holds draft (top_level profile ∷ []) []
            → IsOpenAt profile D.holds result [] }
        ensures profile { result.path.frames.profile ≡ profile }
    {
        Reader {
            alloc,
            path: Path::new(profile, draft),
            at: 0,
            pending: Vec::new(alloc),
            state: State::Open,
        }
    }

    /// Begins with nothing again, to read a message in the profile, whatever was read before.
    #[inline(always)]
    pub fn restart(&mut self, profile: Profile, draft: D)
        ensures open { D.holds draft (top_level profile ∷ []) []
            → IsOpenAt profile D.holds self.new [] }
        ensures profile { self.new.path.frames.profile ≡ profile }
    {
        self.path.restart(profile, draft);
        self.at = 0;
        self.pending.clear();
        self.state = State::Open;
    }

    /// The draft, in exchange for another one. The reader has to be restarted before it reads again.
    #[inline(always)]
    pub fn exchange_draft(&mut self, draft: D) -> D
        ensures draft { result ≡ self.old.path.draft }
        ensures profile { self.new.path.frames.profile ≡ self.old.path.frames.profile }
    {
        let path = &mut self.path;
        mem::replace(&mut path.draft, draft)
    }

    /// The result of the draft.
    pub fn into_draft(self) -> D
        ensures { result ≡ self.path.draft }
    {
        let Reader {
            alloc: _,
            path,
            at: _,
            pending: _,
            state: _,
        } = self;
        path.into_draft()
    }

    /// The elements that are open, innermost last.
    pub fn frames(&self) -> &Frames
        ensures { result.now ≡ self.now.path.frames }
    {
        &self.path.frames
    }

    /// The offset that it has reached.
    pub fn offset(&self) -> u32
        ensures { result ≡ self.now.at }
    {
        self.at
    }

    /// The number of octets that wait after that place.
    pub fn pending_len(&self) -> usize
        ensures { result ≡ length self.now.pending.items }
    {
        self.pending.len()
    }

    /// Tells whether a message is whole.
    pub fn state(&self) -> State
        ensures { result ≡ self.now.state }
    {
        self.state
    }

    /// The least number of octets that still belong to the message: 0 once it is whole, or has failed.
    #[inline(always)]
    pub fn need(&self) -> u32
        ensures exact { (p : Named) (fed : List ℕ) → IsOpenAt p D.holds self.now fed
            → NeedsAfterIn p fed result }
        ensures some { (p : Named) (fed : List ℕ) → IsOpenAt p D.holds self.now fed → 0 < result }
        ensures at_least { (p : Named) (fed more : List ℕ) (a : Apdu) (n : ℕ)
            → IsOpenAt p D.holds self.now fed → IsTrue (are_octets (fed ++ more))
            → Accepts (profile_of p) (fed ++ more) a n → length fed + result ≤ n }
        ensures closed { self.now.state ≢ State.Open → result ≡ 0 }
    {
        if !matches!(&self.state, State::Open) {
            return 0;
        }
        let room = self.pending.len().min(LIMIT as usize);
        need_at(&self.path.frames, self.at, &self.pending[..room])
    }

    /// The number of octets that a source is asked for: as many as are needed, and two where a header or an end mark begins, since neither has fewer.
    #[inline(always)]
    pub fn request_len(&self) -> u32
        ensures closed { self.now.state ≢ State.Open → result ≡ 0 }
        ensures some { (p : Named) (fed : List ℕ) → IsFed p D.holds D.has self.now fed
            → self.now.state ≡ State.Open → 0 < result }
        ensures at_least { (p : Named) (fed more : List ℕ) (a : Apdu) (n : ℕ)
            → IsFed p D.holds D.has self.now fed → IsTrue (are_octets (fed ++ more))
            → self.now.state ≡ State.Open
            → Accepts (profile_of p) (fed ++ more) a n → length fed + result ≤ n }
    {
        match self.need() {
            1 if self.pending.is_empty() => 2,
            need => need,
        }
    }

    /// Takes the next piece, and goes as far as the octets reach.
    #[inline(always)]
    pub fn read_piece(&mut self, piece: &[u8])
        requires takes { D.takes self.old.path.frames.profile }
        ensures fed { (p : Named) (fed : List ℕ) → IsFed p D.holds D.has self.old fed
            → IsFed p D.holds D.has self.new (fed ++ piece.now) }
        ensures stays { self.old.state ≢ State.Open → self.new ≡ self.old }
        ensures octets { IsTrue (are_octets piece.now) }
        ensures profile { self.new.path.frames.profile ≡ self.old.path.frames.profile }
    {
        if !matches!(&self.state, State::Open) {
            return;
        }
        if self.pending.is_empty() {
            let count = self.read_elements(piece);
            self.keep(&piece[count..]);
            return;
        }
        let mut octets = mem::replace(&mut self.pending, Vec::new(self.alloc));
        match octets.extend_from_slice(piece) {
            Ok(()) => {
                let count = self.read_elements(&octets);
                self.keep_after(octets, count);
            }
            Err(error) => self.state = State::Failed(Failure::from(error)),
        }
    }

    /// Goes as far as octets reach that a source has at hand, where none is kept, and returns how many of them were taken: those of
    /// elements that are passed; of a message, no octet after it; all, where they are refused.
    #[inline(always)]
    pub fn read_buffered(&mut self, octets: &[u8]) -> usize
        requires takes { D.takes self.old.path.frames.profile }
        ensures count { result ≤ length octets.now }
        ensures looked { (p : Named) (b : List ℕ) → IsFed p D.holds D.has self.old b
            → NoneEndsWithin p b → HasLooked p D.holds D.has self.new
            (b ++ take result octets.now) }
        ensures profile { self.new.path.frames.profile ≡ self.old.path.frames.profile }
    {
        if !matches!(&self.state, State::Open) || !self.pending.is_empty() {
            return 0;
        }
        let before = self.at;
        let count = self.read_elements(octets);
        match self.state {
            State::Open => count,
            State::Whole => octets.len().min(self.at.saturating_sub(before) as usize),
            State::Failed(Failure::Refused(_)) => octets.len(),
            State::Failed(Failure::OutOfMemory) => 0,
        }
    }

    /// Keeps the octets after those that were passed, in the memory that they have.
    fn keep_after(&mut self, mut octets: Vec<u8>, count: usize)
        requires within { count ≤ length octets.items }
        ensures fed { (p : Named) (fed : List ℕ)
            → HasStopped p D.holds D.has self.old fed (drop count octets.items)
            → IsFed p D.holds D.has self.new fed }
        ensures profile { self.new.path.frames.profile ≡ self.old.path.frames.profile }
    {
        // A large content that comes octet by octet stays where it is.
        if count == 0 {
            self.pending = octets;
            return;
        }
        let left = octets.len() - count;
        octets.copy_within(count.., 0);
        octets.truncate(left);
        self.pending = octets;
    }

    /// Keeps octets that the place needs more of.
    #[inline(always)]
    fn keep(&mut self, octets: &[u8])
        requires { self.old.pending.items ≡ [] }
        ensures fed { (p : Named) (fed : List ℕ)
            → HasStopped p D.holds D.has self.old fed octets.now
            → IsFed p D.holds D.has self.new fed }
        ensures profile { self.new.path.frames.profile ≡ self.old.path.frames.profile }
    {
        if !matches!(&self.state, State::Open) {
            return;
        }
        if let Err(error) = self.pending.extend_from_slice(octets) {
            self.state = State::Failed(Failure::from(error));
        }
    }

    /// Goes from place to place as far as the octets reach, and returns how many belong to the elements that were passed.
    pub fn read_elements(&mut self, octets: &[u8]) -> usize
        requires takes { D.takes self.old.path.frames.profile }
        ensures count { result ≤ length octets.now }
        ensures pending { self.new.pending ≡ self.old.pending }
        ensures stopped { (p : Named) (s : List ℕ) → IsRunning p D.holds D.has self.old s octets.now
            → HasStopped p D.holds D.has self.new s (drop result octets.now) }
        ensures profile { self.new.path.frames.profile ≡ self.old.path.frames.profile }
    {
        let mut rest = octets;
        while let Some(size) = self.step(rest) {
            rest = &rest[size..];
        }
        octets.len() - rest.len()
    }

    /// Goes on to the next place, and returns how many octets that took, or None where the rest doesn't reach it or nothing is open.
    pub fn step(&mut self, rest: &[u8]) -> Option<usize>
        requires takes { D.takes self.old.path.frames.profile }
        ensures pending { self.new.pending ≡ self.old.pending }
        ensures progress { Progresses (length rest.now) self.old.path.frames self.new.path.frames
            result }
        ensures goes { (p : Named) (s : List ℕ) → IsRunning p D.holds D.has self.old s rest.now
            → HasAdvanced p D.holds D.has self.new s rest.now result }
        ensures profile { self.new.path.frames.profile ≡ self.old.path.frames.profile }
    {
        if !matches!(&self.state, State::Open) {
            return None;
        }
        let room = self.path.frames.bound().saturating_sub(self.at);
        if self.ends_here(room) {
            return self.end_element(0);
        }
        let window = if rest.len() < room as usize {
            rest
        } else {
            &rest[..room as usize]
        };
        self.step_within(window, room, rest.len())
    }

    /// Tells whether the innermost element is of definite length and ends here, where this room is left before the bound.
    #[inline(always)]
    fn ends_here(&self, room: u32) -> bool
        ensures open { IsTrue result → 0 < depth_of self.now.path.frames }
        ensures exact { WhereItStands self.now.path.frames
            (λ place. room ≡ bound profile_two place - self.now.at
            → result ≡ ends_at place self.now.at) }
    {
        // None ends before the bound, so most places do without the second question.
        if room > 0 {
            return false;
        }
        self.path.frames.ends_at(self.at)
    }

    /// An end mark or an element, in the octets before the bound: at most `room`, of the `available_len` octets that follow.
    #[inline(always)]
    fn step_within(&mut self, window: &[u8], room: u32, available_len: usize) -> Option<usize>
        requires takes { D.takes self.old.path.frames.profile }
        requires open { self.old.state ≡ State.Open }
        requires fits { IsRoom self.old.at room window.now }
        ensures pending { self.new.pending ≡ self.old.pending }
        ensures progress { Progresses (length window.now) self.old.path.frames self.new.path.frames
            result }
        ensures goes { (p : Named)
            → LeadsOnWithin p D.holds D.has self.old window.now room available_len self.new result
            (λ place cut. judge_octets (profile_of p) place self.old.at cut window.now) }
        ensures profile { self.new.path.frames.profile ≡ self.old.path.frames.profile }
    {
        let Some(id) = first_identifier(window) else {
            return self.step_unusual(window, room, available_len);
        };
        let Some(length_read) = length_after(window, id.constructed()) else {
            return self.step_unusual(window, room, available_len);
        };
        let frames = &self.path.frames;
        let Some(found) = frames.find_usual(id) else {
            return self.step_unusual(window, room, available_len);
        };
        let Some(extent) = frames.reach(self.at, id, length_read, window, room) else {
            return self.step_unusual(window, room, available_len);
        };
        self.open_or_take(found, id, extent, window)
    }

    /// Takes an end mark or an element that `step_within` leaves: one that is not usual, whose identifier is of more octets, whose
    /// length isn't whole, or that is at fault.
    // Out of line, so that usual elements do without its registers. It begins again at the identifier: so nothing has to be kept for it.
    #[inline(never)]
    fn step_unusual(&mut self, window: &[u8], room: u32, available_len: usize) -> Option<usize>
        requires takes { D.takes self.old.path.frames.profile }
        requires open { self.old.state ≡ State.Open }
        requires fits { IsRoom self.old.at room window.now }
        ensures pending { self.new.pending ≡ self.old.pending }
        ensures progress { Progresses (length window.now) self.old.path.frames self.new.path.frames
            result }
        ensures goes { (p : Named)
            → LeadsOn p D.holds D.has self.old window.now room available_len self.new result
            (λ place cut. judge_octets (profile_of p) place self.old.at cut window.now) }
        ensures profile { self.new.path.frames.profile ≡ self.old.path.frames.profile }
    {
        let Some(first) = window.first() else {
            return self.refuse_cut(available_len);
        };
        if *first == 0 && self.path.frames.awaits_end_mark() {
            return self.end_mark(window, available_len);
        }
        self.unusual_element(window, room, available_len)
    }

    /// Moves on by the `size` octets of what was done, and ends the message where it is whole. Returns that size.
    #[inline(always)]
    fn move_on(&mut self, size: u32, whole: bool) -> Option<usize>
        requires open { self.old.state ≡ State.Open }
        requires fits { self.old.at + size ≤ 1_048_576 }
        ensures pending { self.new.pending ≡ self.old.pending }
        ensures frames { self.new.path.frames ≡ self.old.path.frames }
        ensures size { result ≡ Some size }
        ensures goes { (p : Named) (s rest : List ℕ) → D.takes p
            → IsAfter p D.holds self.old.path (self.old.at + size) s (drop size rest) whole
            → HasAdvanced p D.holds D.has self.new s rest result }
        ensures profile { self.new.path.frames.profile ≡ self.old.path.frames.profile }
    {
        self.at += size;
        if whole {
            self.end();
        }
        Some(size as usize)
    }

    /// Fails.
    #[cold]
    fn fail(&mut self, failure: Failure) -> Option<usize>
        ensures none { result ≡ None }
        ensures pending { self.new.pending ≡ self.old.pending }
        ensures goes { (p : Named) (s rest : List ℕ) → IsRefusedIn (profile_of p) s failure
            → HasAdvanced p D.holds D.has self.new s rest result }
        ensures profile { self.new.path.frames.profile ≡ self.old.path.frames.profile }
    {
        self.state = State::Failed(failure);
        None
    }

    /// Fails where an octet is missing before the bound, unless it is only that the octets end.
    #[cold]
    fn refuse_cut(&mut self, available_len: usize) -> Option<usize>
        requires open { self.old.state ≡ State.Open }
        ensures none { result ≡ None }
        ensures pending { self.new.pending ≡ self.old.pending }
        ensures goes { (p : Named) (window : List ℕ) (room : ℕ)
            → LeadsOn p D.holds D.has self.old window room available_len self.new result
            (λ place cut. faulty cut) }
        ensures profile { self.new.path.frames.profile ≡ self.old.path.frames.profile }
    {
        let refusal = self.path.frames.cut_fault(self.at, available_len);
        self.refuse(refusal)
    }

    /// Fails with a refusal, unless it is only that the octets end.
    #[cold]
    fn refuse(&mut self, refusal: Refusal) -> Option<usize>
        requires open { self.old.state ≡ State.Open }
        ensures none { result ≡ None }
        ensures pending { self.new.pending ≡ self.old.pending }
        ensures goes { (p : Named) (s rest : List ℕ) → CanRefuse p D.holds self.old s rest refusal
            → HasAdvanced p D.holds D.has self.new s rest result }
        ensures profile { self.new.path.frames.profile ≡ self.old.path.frames.profile }
    {
        if !matches!(&refusal.cause, Cause::Truncated) {
            self.state = State::Failed(Failure::Refused(refusal));
        }
        None
    }

    /// The message is whole.
    fn end(&mut self)
        ensures frames { self.new.path.frames ≡ self.old.path.frames }
        ensures pending { self.new.pending ≡ self.old.pending }
        ensures ended { (p : Named) (s : List ℕ) (a : Apdu) → D.takes p → self.old.at ≤ length s
            → HoldsApdu p D.holds self.old.path.draft a (take self.old.at s)
            → HasClosed p D.has self.new s }
        ensures profile { self.new.path.frames.profile ≡ self.old.path.frames.profile }
    {
        let path = &mut self.path;
        self.state = if path.draft.end(self.at) {
            State::Whole
        } else {
            State::Failed(Failure::refused(0, Cause::NormalTooLong))
        };
    }

    /// Tells whether the message is whole.
    ///
    /// # Errors
    ///
    /// The failure, once it has failed.
    pub fn outcome(&self) -> Result<bool, Failure>
        ensures { (p : Named) (s rest : List ℕ) → HasStopped p D.holds D.has self.now s rest
            → HasOutcome p D.has self.now s result }
    {
        match self.state {
            State::Whole => Ok(true),
            State::Failed(failure) => Err(failure),
            State::Open => Ok(false),
        }
    }

    /// Tells whether the message is whole, after the last octet; if not, nothing was fed.
    ///
    /// # Errors
    ///
    /// The failure, once it has failed; or, where some octets were fed and the message isn't whole, Truncated at their number.
    #[inline(always)]
    pub fn ended(&self) -> Result<bool, Failure>
        ensures open { (p : Named) (fed : List ℕ) → IsOpenAt p D.holds self.now fed
            → result ≡ ended fed }
        ensures whole { self.now.state ≡ State.Whole → result ≡ Ok true }
        ensures failed { (failure : Failure) → self.now.state ≡ State.Failed failure
            → result ≡ Err failure }
    {
        match self.state {
            State::Whole => Ok(true),
            State::Failed(failure) => Err(failure),
            State::Open => {
                let size = self
                    .at
                    .saturating_add(self.pending.len().min(LIMIT as usize) as u32);
                if size == 0 {
                    Ok(false)
                } else {
                    Err(Failure::refused(size, Cause::Truncated))
                }
            }
        }
    }
}
