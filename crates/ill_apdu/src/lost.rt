//! LOST and DAMAGED.
use ber_leaf::IllString;
use ill_parts::{
    Head, Node, Part, Typed, entries, headed, optional, optional_value, part_of, read_head,
};
use ill_schema::{NodeId, Value};
use std::alloc::{AllocError, Global};

/// LOST: the item is lost (APDU 15).
///
/// `lost-extensions` (row 6) is left out.
#[derive(Debug, Drop, PartialEq, Eq)]
pub struct Lost {
    /// The rows that each APDU begins with (rows 0 to 4).
    pub head: Head,
    /// A note (row 5).
    pub note: Option<IllString>,
}

impl Node for Lost {
    ghost use Rattle.ill_tables.specs.declared.node.NodeId.TheVariants.{Lost as TheNode};
    ghost use Rattle.ill_apdu.specs.Views.{lost_rows};

    ghost NODE = { TheNode };

    ghost entries = { lost_rows };

    const NODE: NodeId = NodeId::Lost;
}

#[tactic(auto, unfolding(crate::specs::Views::lost))]
impl Part for Lost {
    ghost use Rattle.ill_tables.specs.declared.node.NodeId.TheVariants.{Lost as TheNode};
    ghost use Rattle.ill_parts.specs.Shape.{Is};
    ghost use Rattle.ill_apdu.specs.Views.{lost};

    ghost content = { lost };

    ghost accepts = { Is TheNode };

    fn to_value(&self, alloc: Global) -> Result<Value, AllocError> {
        let others = [optional_value(alloc, &self.note), Ok(None)];
        headed(alloc, self, &self.head, others)
    }

    fn read(alloc: Global, value: &Value) -> Result<Self, AllocError> {
        let entries = entries::<Self>(value);
        part_of!(Lost {
            head: read_head(alloc, entries),
            note: optional(alloc, entries, 5),
        })
    }
}

impl Typed for Lost {
    ghost use Rattle.ill_apdu.specs.code.Equality.{lost_exact};

    ghost is_node = { λ _. (λ fits. fits, λ fits. fits) };

    ghost is_exact = { lost_exact };
}

/// DAMAGED: the item is damaged (APDU 16).
///
/// `damaged-details` (row 5) and `damaged-extensions` (row 7) are left out.
#[derive(Debug, Drop, PartialEq, Eq)]
pub struct Damaged {
    /// The rows that each APDU begins with (rows 0 to 4).
    pub head: Head,
    /// A note (row 6).
    pub note: Option<IllString>,
}

impl Node for Damaged {
    ghost use Rattle.ill_tables.specs.declared.node.NodeId.TheVariants.{Damaged as TheNode};
    ghost use Rattle.ill_apdu.specs.Views.{damaged_rows};

    ghost NODE = { TheNode };

    ghost entries = { damaged_rows };

    const NODE: NodeId = NodeId::Damaged;
}

#[tactic(auto, unfolding(crate::specs::Views::damaged))]
impl Part for Damaged {
    ghost use Rattle.ill_tables.specs.declared.node.NodeId.TheVariants.{Damaged as TheNode};
    ghost use Rattle.ill_parts.specs.Shape.{Is};
    ghost use Rattle.ill_apdu.specs.Views.{damaged};

    ghost content = { damaged };

    ghost accepts = { Is TheNode };

    fn to_value(&self, alloc: Global) -> Result<Value, AllocError> {
        let others = [Ok(None), optional_value(alloc, &self.note), Ok(None)];
        headed(alloc, self, &self.head, others)
    }

    fn read(alloc: Global, value: &Value) -> Result<Self, AllocError> {
        let entries = entries::<Self>(value);
        part_of!(Damaged {
            head: read_head(alloc, entries),
            note: optional(alloc, entries, 6),
        })
    }
}

impl Typed for Damaged {
    ghost use Rattle.ill_apdu.specs.code.Equality.{damaged_exact};

    ghost is_node = { λ _. (λ fits. fits, λ fits. fits) };

    ghost is_exact = { damaged_exact };
}
