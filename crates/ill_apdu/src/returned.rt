//! RETURNED and CHECKED-IN.
use ber_leaf::{DateText, IllString};
use ill_parts::{
    Amount, Head, Node, Part, Typed, entries, headed, optional, optional_value, part_of, read_head,
    required, required_value,
};
use ill_schema::{NodeId, Value};
use std::alloc::{AllocError, Global};

/// RETURNED: the requester has sent the item back (APDU 10).
///
/// `supplemental-item-description` (row 5) and `returned-extensions` (row 10) are left out.
#[derive(Debug, Drop, PartialEq, Eq)]
pub struct Returned {
    /// The rows that each APDU begins with (rows 0 to 4).
    pub head: Head,
    /// The day on which it was sent back (row 6).
    pub date_returned: DateText,
    /// The service by which it was sent back (row 7).
    pub returned_via: Option<IllString>,
    /// For how much it is insured (row 8).
    pub insured_for: Option<Amount>,
    /// A note of the requester (row 9).
    pub requester_note: Option<IllString>,
}

impl Node for Returned {
    ghost use Rattle.ill_tables.specs.declared.node.NodeId.TheVariants.{Returned as TheNode};
    ghost use Rattle.ill_apdu.specs.Views.{returned_rows};

    ghost NODE = { TheNode };

    ghost entries = { returned_rows };

    const NODE: NodeId = NodeId::Returned;
}

#[tactic(auto, unfolding(crate::specs::Views::returned))]
impl Part for Returned {
    ghost use Rattle.ill_tables.specs.declared.node.NodeId.TheVariants.{Returned as TheNode};
    ghost use Rattle.ill_parts.specs.Shape.{Is};
    ghost use Rattle.ill_apdu.specs.Views.{returned};

    ghost content = { returned };

    ghost accepts = { Is TheNode };

    fn to_value(&self, alloc: Global) -> Result<Value, AllocError> {
        let others = [
            Ok(None),
            required_value(alloc, &self.date_returned),
            optional_value(alloc, &self.returned_via),
            optional_value(alloc, &self.insured_for),
            optional_value(alloc, &self.requester_note),
            Ok(None),
        ];
        headed(alloc, self, &self.head, others)
    }

    fn read(alloc: Global, value: &Value) -> Result<Self, AllocError> {
        let entries = entries::<Self>(value);
        part_of!(Returned {
            head: read_head(alloc, entries),
            date_returned: required(alloc, entries, 6),
            returned_via: optional(alloc, entries, 7),
            insured_for: optional(alloc, entries, 8),
            requester_note: optional(alloc, entries, 9),
        })
    }
}

impl Typed for Returned {
    ghost use Rattle.ill_apdu.specs.code.Equality.{returned_exact};

    ghost is_node = { λ _. (λ fits. fits, λ fits. fits) };

    ghost is_exact = { returned_exact };
}

/// CHECKED-IN: the responder has the item again (APDU 11).
///
/// `checked-in-extensions` (row 7) is left out.
#[derive(Debug, Drop, PartialEq, Eq)]
pub struct CheckedIn {
    /// The rows that each APDU begins with (rows 0 to 4).
    pub head: Head,
    /// The day on which it was checked in (row 5).
    pub date_checked_in: DateText,
    /// A note of the responder (row 6).
    pub responder_note: Option<IllString>,
}

impl Node for CheckedIn {
    ghost use Rattle.ill_tables.specs.declared.node.NodeId.TheVariants.{CheckedIn as TheNode};
    ghost use Rattle.ill_apdu.specs.Views.{checked_in_rows};

    ghost NODE = { TheNode };

    ghost entries = { checked_in_rows };

    const NODE: NodeId = NodeId::CheckedIn;
}

#[tactic(auto, unfolding(crate::specs::Views::checked_in))]
impl Part for CheckedIn {
    ghost use Rattle.ill_tables.specs.declared.node.NodeId.TheVariants.{CheckedIn as TheNode};
    ghost use Rattle.ill_parts.specs.Shape.{Is};
    ghost use Rattle.ill_apdu.specs.Views.{checked_in};

    ghost content = { checked_in };

    ghost accepts = { Is TheNode };

    fn to_value(&self, alloc: Global) -> Result<Value, AllocError> {
        let others = [
            required_value(alloc, &self.date_checked_in),
            optional_value(alloc, &self.responder_note),
            Ok(None),
        ];
        headed(alloc, self, &self.head, others)
    }

    fn read(alloc: Global, value: &Value) -> Result<Self, AllocError> {
        let entries = entries::<Self>(value);
        part_of!(CheckedIn {
            head: read_head(alloc, entries),
            date_checked_in: required(alloc, entries, 5),
            responder_note: optional(alloc, entries, 6),
        })
    }
}

impl Typed for CheckedIn {
    ghost use Rattle.ill_apdu.specs.code.Equality.{checked_in_exact};

    ghost is_node = { λ _. (λ fits. fits, λ fits. fits) };

    ghost is_exact = { checked_in_exact };
}
