//! The elements that an encoding may hold.
ghost use Rattle.std.specs.Prelude.{◌≡◌, IsTrue};
ghost use Rattle.ill_grammar.specs.Places.{is_two};

use crate::cell::{ElementType, levels_in};
use crate::leaf_type::{LeafType, ModuleLeaf};
use crate::place::Found;
use ber_leaf::{BitString, Leaf, LeafFault};
use ill_schema::{NodeId, PartId, Profile};

/// The way in which an element is read.
#[derive(Clone, Copy, Debug, PartialEq, Eq)]
pub enum Element {
    /// An explicit tag.
    Wrapper(Wrapped),
    /// An explicit tag, whose contents may also be the components of what it wraps.
    LooseWrapper(Wrapped),
    Sequence(NodeId),
    List(NodeId),
    Leaf(LeafType),
    /// An OCTET STRING in a string.
    Segment,
    ModuleLeaf(ModuleLeaf),
    BitString,
    /// A BIT STRING in a BIT STRING.
    BitSegment,
    /// An element of a foreign tree, in which so many levels may stand.
    Foreign(u8),
}

impl Found {
    ghost use Rattle.ill_grammar.specs.Due.{read_as};
    ghost use Rattle.ill_grammar.specs.Elements.{is_two_element};

    /// The element that it is, as code reads it. One that is left out never is read.
    #[inline(always)]
    pub fn element(self) -> Element
        ensures element { result ≡ read_as self }
        ensures two { IsTrue (is_two self) → IsTrue (is_two_element result) }
    {
        let node = self.node();
        let wrapped = Wrapped {
            part: self.part(),
            node,
        };
        match self.element_type() {
            ElementType::Leaf(leaf) => Element::Leaf(leaf),
            ElementType::ModuleLeaf(leaf) => Element::ModuleLeaf(leaf),
            ElementType::Sequence => Element::Sequence(node),
            ElementType::List | ElementType::LeftOut => Element::List(node),
            ElementType::Wrapper => Element::Wrapper(wrapped),
            ElementType::LooseWrapper => Element::LooseWrapper(wrapped),
            ElementType::Segment => Element::Segment,
            ElementType::BitString => Element::BitString,
            ElementType::BitSegment => Element::BitSegment,
            ElementType::Foreign => Element::Foreign(levels_in(self.part())),
        }
    }
}

impl Element {
    ghost use Rattle.ill_grammar.specs.Elements.{element_is};
    ghost use Rattle.ill_refusals.specs.Fault.{element_fault};
    ghost use Rattle.ill_schema.specs.Profiles.{profile_of};

    /// The reason why the octets are no content of it in the profile: None exactly where they are, or where it has none of its own.
    pub fn fault(self, profile: Profile, octets: &[u8]) -> Option<LeafFault>
        ensures { result ≡ element_fault (profile_of profile) (element_is self) octets.now }
    {
        match self {
            Element::Leaf(leaf) => leaf.fault(profile, octets),
            Element::ModuleLeaf(leaf) => leaf.fault(octets),
            Element::BitString => BitString::check(octets),
            _ => None,
        }
    }
}

/// The part and the node that an explicit tag wraps.
#[derive(Clone, Copy, Debug, PartialEq, Eq)]
pub struct Wrapped {
    pub part: PartId,
    pub node: NodeId,
}
