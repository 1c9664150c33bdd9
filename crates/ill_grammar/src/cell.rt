//! Cells: what one row of the tables says to a reader.
ghost use Rattle.std.specs.Prelude.{◌≡◌};
ghost use Rattle.ill_grammar.specs.Cells.{is_strict, levels_in};

use crate::leaf_type::{LeafType, ModuleLeaf};
use ber_core::Class;
use ill_schema::{NodeId, PartId};

/// The type of an element.
#[derive(Clone, Copy)]
pub enum ElementType {
    /// An explicit tag.
    Wrapper,
    /// An explicit tag, whose contents may also be the components of what it wraps.
    LooseWrapper,
    Sequence,
    List,
    Leaf(LeafType),
    /// An OCTET STRING in a string.
    Segment,
    ModuleLeaf(ModuleLeaf),
    BitString,
    /// A BIT STRING in a BIT STRING.
    BitSegment,
    /// An element of a foreign tree: the row of its part is the number of elements of the tree round it.
    Foreign,
    /// The element of a row that is not read.
    LeftOut,
}

/// The role of an element in the element around it.
#[derive(Clone, Copy, Debug, PartialEq, Eq)]
pub enum EntryRole {
    Inner,
    Row,
    Item,
    Segment,
    /// The root of a foreign tree, in an explicit tag.
    Root,
    /// An element in one of a foreign tree.
    Foreign,
}

/// An element that may begin at a place.
#[derive(Clone, Copy)]
pub struct Cell {
    pub number: u32,
    pub class: Class,
    pub element_type: ElementType,
    /// The row of the tables, or the alternative.
    pub part: PartId,
    /// The node of the row.
    pub node: NodeId,
    pub slot: EntryRole,
    /// The tags are those of the node's alternatives.
    pub nested: bool,
    /// True if nothing after this cell is due where the tag differs.
    pub is_mandatory: bool,
    /// This row or one after it is mandatory.
    pub mandatory_follows: bool,
    pub default: Option<u8>,
}

/// Tells whether the node is a sequence in an explicit tag that may not be bare. Every other sequence in one is an APDU or a result.
pub fn is_strict(node: NodeId) -> bool
    ensures { result ≡ is_strict node }
{
    matches!(node, NodeId::PostalAddress | NodeId::ElectronicDelivery)
}

/// The number of levels that may stand in an element of a foreign tree, which has this part.
pub fn levels_in(part: PartId) -> u8
    ensures { result ≡ levels_in part }
{
    19_u8.saturating_sub(part.row)
}
