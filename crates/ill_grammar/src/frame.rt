//! The open elements of a message.
ghost use Rattle.std.specs.Prelude.{◌≡◌, ◌≤◌};

use crate::due::Next;
use crate::place::{Found, Place};

/// An open element: a constructed one whose header has been read.
#[derive(Clone, Copy)]
pub struct Frame {
    /// The element as it was found in the one round it.
    pub found: Found,
    /// The place that has been reached in it.
    pub place: Place,
    /// The offset of its first octet.
    pub start: u32,
    /// The offset of its end, where its length is definite.
    pub end: Option<u32>,
    /// The offset that no octet in it may reach: its own end, or that of the nearest element round it, or the limit.
    pub bound: u32,
    /// The number of values that are held for the elements round it.
    pub contents_start: usize,
    ghost within: { bound ≤ 1_048_576 },
}

impl Frame {
    ghost use Rattle.ill_grammar.specs.Due.{shape};
    ghost use Rattle.ill_grammar.specs.code.Judging.{end_at};

    /// The elements that may come next in it.
    pub fn next(&self) -> Next
        ensures { result ≡ shape self.now.place }
    {
        Next::at(self.place)
    }

    /// Tells whether its length is definite and it ends there.
    pub fn ends_at(&self, at: u32) -> bool
        ensures { result ≡ end_at self.now.end at }
    {
        self.end == Some(at)
    }
}

/// A frame for a place where no element is open.
impl Default for Frame {
    fn default() -> Frame {
        Frame {
            found: Found::default(),
            place: Place::default(),
            start: 0,
            end: None,
            bound: 0,
            contents_start: 0,
        }
    }
}
