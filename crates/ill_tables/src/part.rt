use crate::node::NodeId;
use ber_tree::Class;

/// The presence that the tables demand of a row.
#[derive(Clone, Copy, Debug, PartialEq, Eq)]
pub enum Presence {
    /// The entry is mandatory.
    Must,
    /// The entry is OPTIONAL.
    May,
    /// The entry has a DEFAULT: a number, for a BOOLEAN 0 or 1.
    Default(i64),
    /// The entry can't be carried.
    LeftOut,
}

/// The relation of a row's tag to the tag of its type.
#[derive(Clone, Copy, Debug, PartialEq, Eq)]
pub enum Mode {
    /// In place of the type's tag (X.690, 8.14.3).
    Implicit,
    /// Round the whole element (X.690, 8.14.2).
    Explicit,
    /// Round the SEQUENCE, or directly round its components.
    ExplicitOrBare,
    /// There is no tag but the type's.
    Untagged,
}

/// A row of a node, by its number from 0.
#[derive(Clone, Copy, Debug, PartialEq, Eq)]
pub struct PartId {
    pub node: NodeId,
    pub row: u8,
}

/// The row of a part in the tables.
#[derive(Clone, Copy, Debug, PartialEq, Eq)]
pub struct Row {
    /// The class and number, None where the row is untagged.
    pub tag: Option<(Class, u32)>,
    pub mode: Mode,
    pub presence: Presence,
    /// The node that is the row's type.
    pub node: NodeId,
}
