//! Elements that may come next in an open element, and their roles in it.
ghost use Rattle.std.specs.Prelude.{◌≡◌};
ghost use Rattle.ill_grammar.specs.Due.{shape, slot_in};

use crate::cell::{EntryRole, is_strict, levels_in};
use crate::element::Wrapped;
use crate::place::{Found, Place};
use ill_schema::{Kind, LeafKind, NodeId, kind};

/// The elements that may come next in an open element.
#[derive(Clone, Copy)]
pub enum Next {
    /// The rows of a sequence, from a position on.
    Rows(NodeId, u8),
    /// The one part of an explicit tag.
    Inner(Wrapped),
    /// Any number of items of a list.
    Items(NodeId),
    /// In a loose wrapper without elements: what it wraps, or the rows of that.
    Either(Wrapped),
    /// OCTET STRINGs.
    Segments,
    /// BIT STRINGs, in a BIT STRING.
    BitSegments,
    /// In the explicit tag of an open type without elements: the root of a foreign tree.
    Root(Wrapped),
    /// In an element of a foreign tree: elements that so many levels may stand in, less one.
    Foreigns(u8),
    Nothing,
}

/// The role of an element in the element around it.
#[derive(Clone, Copy)]
pub enum Slot {
    Row(u8),
    Item,
    Inner,
    Segment,
    /// In an element of a foreign tree.
    Foreign,
}

impl Next {
    /// The elements that may come next at a place.
    #[inline(always)]
    pub fn at(place: Place) -> Next
        ensures { result ≡ shape place }
    {
        let node = place.node();
        let position = place.position();
        let wrapped = Wrapped {
            part: place.part(),
            node,
        };
        match kind(node) {
            Kind::Seq if position == 0 && !is_strict(node) => Next::Either(wrapped),
            Kind::Seq if position > 0 => Next::Rows(node, position - 1),
            Kind::Any if position == 0 => Next::Root(wrapped),
            _ if position == 0 => Next::Inner(wrapped),
            _ if position > 1 => Next::Nothing,
            Kind::SeqOf => Next::Items(node),
            Kind::Leaf(LeafKind::BitString) => Next::BitSegments,
            Kind::Leaf(_) | Kind::IllString => Next::Segments,
            Kind::Any => Next::Foreigns(levels_in(place.part())),
            Kind::Choice | Kind::Seq => Next::Nothing,
        }
    }
}

impl Slot {
    /// The role of what was found in the element around it.
    #[inline(always)]
    pub fn of(found: Found) -> Slot
        ensures { result ≡ slot_in found }
    {
        match found.slot() {
            EntryRole::Row => Slot::Row(found.row()),
            EntryRole::Inner | EntryRole::Root => Slot::Inner,
            EntryRole::Item => Slot::Item,
            EntryRole::Segment => Slot::Segment,
            EntryRole::Foreign => Slot::Foreign,
        }
    }
}
