//! The path of open elements, with the draft of what has been read.
ghost use Rattle.std.specs.Prelude.{◌≡◌};

use crate::draft::Draft;
use ill_grammar::Frames;

/// The open elements, innermost last, with the draft of what has been read in them.
#[derive(Drop)]
pub struct Path<D: Drop> {
    pub frames: Frames,
    pub draft: D,
}

impl<D: Draft> Path<D> {
    /// The draft of what has been read.
    pub fn into_draft(self) -> D
        ensures { result ≡ self.draft }
    {
        let Path { frames: _, draft } = self;
        draft
    }
}
