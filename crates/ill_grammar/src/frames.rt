//! The open elements of a message, innermost last.
ghost use Rattle.std.specs.Prelude.{◌≤◌, length, IsTrue};
ghost use Rattle.ill_grammar.specs.Two.{are_of};

use crate::due::Next;
use crate::frame::Frame;
use crate::place::Place;
use arrayvec::ArrayVec;
use ill_schema::{Cause, LIMIT, Profile};

/// The number of elements that may be open at once.
pub const MAX_DEPTH: usize = 32;

/// The open elements, innermost last. They take no memory.
#[derive(Drop)]
pub struct Frames {
    pub open: ArrayVec<Frame, MAX_DEPTH>,
    /// The profile that the message is read in.
    pub profile: Profile,
    ghost few: { length open.items ≤ 32 },
    ghost are_of: { IsTrue (are_of profile open.items) },
}

impl Frames {
    ghost use Rattle.std.specs.Prelude.{◌≡◌, ◌+◌, ◌-◌, ◌<◌, ◌↔◌, ◌++◌, List, [], ◌∷◌, IfSome, IsNone, Some, slice_get, take};
    ghost use Rattle.ill_grammar.specs.Due.{shape};
    ghost use Rattle.ill_grammar.specs.Standing.{next_at};
    ghost use Rattle.ill_grammar.specs.declared.frame.Frame.{Frame};
    ghost use Rattle.ill_schema.specs.Profiles.{profile_of};
    ghost use Rattle.ill_grammar.specs.Two.{is_place_of};
    ghost use Rattle.ill_refusals.specs.Fault.{ends_at, is_indefinite, past_end};
    ghost use Rattle.ill_refusals.specs.Place.{bound};
    ghost use Rattle.ill_grammar.specs.code.Judging.{WhereItStands, outermost_end};
    ghost use Rattle.ill_grammar.specs.Standing.{depth_of};

    /// No open element, of a message that is read in the profile.
    #[inline(always)]
    pub fn new(profile: Profile) -> Frames
        ensures open { result.open.items ≡ [] }
        ensures profile { result.profile ≡ profile }
    {
        Frames {
            open: ArrayVec::new(),
            profile,
        }
    }

    /// Forgets all open elements, and begins a message that is read in the profile.
    #[inline(always)]
    pub fn restart(&mut self, profile: Profile)
        ensures open { self.new.open.items ≡ [] }
        ensures profile { self.new.profile ≡ profile }
    {
        self.open.clear();
        self.profile = profile;
    }

    /// Opens an element in the innermost one.
    #[inline(always)]
    pub fn push(&mut self, frame: Frame)
        requires room { depth_of self.old < 32 }
        requires is_of { IsTrue (are_of self.old.profile (frame ∷ [])) }
        ensures items { self.new.open.items ≡ self.old.open.items ++ frame ∷ [] }
        ensures depth { depth_of self.new ≡ depth_of self.old + 1 }
        ensures profile { self.new.profile ≡ self.old.profile }
    {
        self.open.push(frame);
    }

    /// Closes the innermost element.
    #[inline(always)]
    pub fn pop(&mut self) -> Frame
        requires { 0 < depth_of self.old }
        ensures rest { self.new.open.items ≡ take (depth_of self.old - 1) self.old.open.items }
        ensures last { slice_get self.old.open.items (depth_of self.old - 1) ≡ Some result }
        ensures depth { depth_of self.new + 1 ≡ depth_of self.old }
        ensures is_of { IsTrue (are_of self.old.profile (result ∷ [])) }
        ensures profile { self.new.profile ≡ self.old.profile }
    {
        self.open.pop().unwrap()
    }

    pub fn innermost(&self) -> Option<Frame>
        ensures none { IsNone result ↔ (depth_of self.now ≡ 0) }
        ensures last { result ≡ slice_get self.now.open.items (depth_of self.now - 1) }
        ensures is_of { IfSome result (λ frame. IsTrue (are_of self.now.profile (frame ∷ []))) }
    {
        self.open.as_slice().last().copied()
    }

    pub fn depth(&self) -> usize
        ensures { result ≡ depth_of self.now }
    {
        self.open.len()
    }

    /// The place that has been reached in the innermost element, or that of a message.
    pub fn place(&self) -> Place
        ensures shape { shape result ≡ next_at self.now.profile self.now.open.items }
        ensures is_of { IsTrue (is_place_of self.now.profile result) }
    {
        match self.innermost() {
            Some(frame) => frame.place,
            None => Place::top_of(self.profile),
        }
    }

    /// The elements that may come next.
    pub fn next(&self) -> Next
        ensures { result ≡ next_at self.now.profile self.now.open.items }
    {
        Next::at(self.place())
    }

    /// The offset that no octet may reach.
    pub fn bound(&self) -> u32
        ensures small { result ≤ 1_048_576 }
        ensures exact { WhereItStands self.now (λ place. result ≡ bound
            (profile_of self.now.profile) place) }
    {
        match self.innermost() {
            Some(frame) => frame.bound,
            None => LIMIT,
        }
    }

    /// The end of the outermost element of definite length.
    pub fn outermost_end(&self) -> Option<u32>
        ensures { result ≡ outermost_end self.now.open.items }
    {
        for frame in self.open.as_slice() {
            if let Some(end) = frame.end {
                return Some(end);
            }
        }
        None
    }

    /// The fault of an octet past the bound.
    pub fn past_end(&self) -> Cause
        ensures { WhereItStands self.now (λ place. result ≡ past_end place) }
    {
        match self.outermost_end() {
            Some(_) => Cause::Overrun,
            None => Cause::TooLong,
        }
    }

    /// Tells whether the length of the innermost element is indefinite.
    pub fn awaits_end_mark(&self) -> bool
        ensures open { IsTrue result → 0 < depth_of self.now }
        ensures exact { WhereItStands self.now (λ place. result ≡ is_indefinite place) }
    {
        match self.innermost() {
            Some(frame) => frame.end.is_none(),
            None => false,
        }
    }

    /// Tells whether the length of the innermost element is definite and it ends there.
    pub fn ends_at(&self, at: u32) -> bool
        ensures open { IsTrue result → 0 < depth_of self.now }
        ensures exact { WhereItStands self.now (λ place. result ≡ ends_at place at) }
    {
        match self.innermost() {
            Some(frame) => frame.ends_at(at),
            None => false,
        }
    }

    /// Goes to a place in the innermost element.
    pub fn advance(&mut self, place: Place)
        requires is_of { IsTrue (is_place_of self.old.profile place) }
        ensures frame { (outer : List Frame) (f : Frame) → self.old.open.items ≡ outer ++ f ∷ []
            → self.new.open.items ≡ outer ++ record f { place = place } ∷ [] }
        ensures depth { depth_of self.new ≡ depth_of self.old }
        ensures profile { self.new.profile ≡ self.old.profile }
    {
        let last = self.depth().saturating_sub(1);
        if let Some(frame) = self.open.get_mut(last) {
            frame.place = place;
        }
    }
}
