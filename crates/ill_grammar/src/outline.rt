//! The outline of a message, and the marks that it is made of.
ghost use Rattle.std.specs.Prelude.{◌≡◌, []};

use crate::leaf_type::{LeafType, ModuleLeaf};
use ill_schema::PartId;
use std::alloc::Global;

/// The outline of a message: marks that say what its value is, in reading order.
#[derive(Drop)]
pub struct Outline {
    marks: Vec<Mark>,
}

impl Outline {
    /// The outline of nothing, which takes no memory.
    pub fn new(alloc: Global) -> Outline
        ensures { result.marks.items ≡ [] }
    {
        Outline {
            marks: Vec::new(alloc),
        }
    }

    /// The outline of these marks.
    ///
    /// ```
    /// let outline = Outline::of_marks(marks);
    /// ```
    pub fn of_marks(marks: Vec<Mark>) -> Outline
        ensures { result.marks ≡ marks }
    {
        Outline { marks }
    }

    /// Its marks, whose memory can be used again.
    pub fn into_marks(self) -> Vec<Mark>
        ensures { result ≡ self.marks }
    {
        let Outline { marks } = self;
        marks
    }

    /// Its marks.
    pub fn marks(&self) -> &[Mark]
        ensures { result.now ≡ self.now.marks.items }
    {
        self.marks.as_slice()
    }
}

/// A mark in the outline of a value. Together they say what the value is, in reading order.
#[derive(Clone, Copy)]
pub enum Mark {
    /// A row without an element: nothing, or its default.
    Absent(PartId),
    /// The alternative of a choice that follows.
    Alternative(u8),
    /// A leaf: the octets of its content follow, and then [`Mark::End`].
    Leaf(LeafType),
    /// A leaf of a type that only the module profile has: likewise.
    ModuleLeaf(ModuleLeaf),
    /// A BIT STRING, whose segments are joined: likewise.
    BitString,
    /// A foreign tree: the octets of its encoding in DER follow, and then [`Mark::End`].
    Foreign,
    /// An octet of a leaf's content, or of a foreign tree.
    Octet(u8),
    /// A sequence: a part for each row follows, and then [`Mark::End`].
    Sequence,
    /// A list: its items follow, and then [`Mark::End`].
    List,
    /// A leaf, a foreign tree, a sequence or a list ends.
    End,
}
