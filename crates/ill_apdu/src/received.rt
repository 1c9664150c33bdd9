//! RECEIVED.
use ber_leaf::{DateText, IllString};
use ill_parts::{
    Head, Node, Part, SystemId, Typed, entries, headed, optional, optional_value, part_of,
    read_head, required, required_value,
};
use ill_schema::{NodeId, Value};
use std::alloc::{AllocError, Global};

/// RECEIVED: the requester has the item (APDU 8).
///
/// `supplemental-item-description` (row 6) and `received-extensions` (row 10) are left out.
#[derive(Debug, Drop, PartialEq, Eq)]
pub struct Received {
    /// The rows that each APDU begins with (rows 0 to 4).
    pub head: Head,
    /// The party that supplied the item (row 5).
    pub supplier_id: Option<SystemId>,
    /// The day on which it came (row 7).
    pub date_received: DateText,
    /// The service that was given: 1 loan, 2 copy that is not returned (row 8).
    pub shipped_service_type: i64,
    /// A note of the requester (row 9).
    pub requester_note: Option<IllString>,
}

impl Node for Received {
    ghost use Rattle.ill_tables.specs.declared.node.NodeId.TheVariants.{Received as TheNode};
    ghost use Rattle.ill_apdu.specs.Views.{received_rows};

    ghost NODE = { TheNode };

    ghost entries = { received_rows };

    const NODE: NodeId = NodeId::Received;
}

#[tactic(auto, unfolding(crate::specs::Views::received))]
impl Part for Received {
    ghost use Rattle.ill_tables.specs.declared.node.NodeId.TheVariants.{Received as TheNode};
    ghost use Rattle.ill_parts.specs.Shape.{Is};
    ghost use Rattle.ill_apdu.specs.Views.{received};

    ghost content = { received };

    ghost accepts = { Is TheNode };

    fn to_value(&self, alloc: Global) -> Result<Value, AllocError> {
        let others = [
            optional_value(alloc, &self.supplier_id),
            Ok(None),
            required_value(alloc, &self.date_received),
            required_value(alloc, &self.shipped_service_type),
            optional_value(alloc, &self.requester_note),
            Ok(None),
        ];
        headed(alloc, self, &self.head, others)
    }

    fn read(alloc: Global, value: &Value) -> Result<Self, AllocError> {
        let entries = entries::<Self>(value);
        part_of!(Received {
            head: read_head(alloc, entries),
            supplier_id: optional(alloc, entries, 5),
            date_received: required(alloc, entries, 7),
            shipped_service_type: required(alloc, entries, 8),
            requester_note: optional(alloc, entries, 9),
        })
    }
}

impl Typed for Received {
    ghost use Rattle.ill_apdu.specs.code.Equality.{received_exact};

    ghost is_node = { λ _. (λ fits. fits, λ fits. fits) };

    ghost is_exact = { received_exact };
}
