//! SHIPPED.
use ber_leaf::IllString;
use ill_parts::{
    ClientId, Head, Node, Part, PostalAddress, ResponderOptionalMessages, SupplyDetails,
    SystemAddress, SystemId, Typed, entries, headed, optional, optional_value, part_of, read_head,
    required, required_value,
};
use ill_schema::{NodeId, Value};
use std::alloc::{AllocError, Global};

/// SHIPPED: the responder has sent the item (APDU 3).
///
/// `supplemental-item-description` (row 10) and `shipped-extensions` (row 16) are left out.
#[derive(Debug, Drop, PartialEq, Eq)]
pub struct Shipped {
    /// The rows that each APDU begins with (rows 0 to 4).
    pub head: Head,
    /// The address of the responder (row 5).
    pub responder_address: Option<SystemAddress>,
    /// The intermediary (row 6).
    pub intermediary_id: Option<SystemId>,
    /// The party that supplied the item (row 7).
    pub supplier_id: Option<SystemId>,
    /// The person for whom it is (row 8).
    pub client_id: Option<ClientId>,
    /// The type of transaction: 1 simple, 2 chained, 3 partitioned (row 9, by default 1).
    pub transaction_type: i64,
    /// The service that was given: 1 loan, 2 copy that is not returned (row 11).
    pub shipped_service_type: i64,
    /// The optional messages that the responder can send or wants (row 12).
    pub responder_optional_messages: Option<ResponderOptionalMessages>,
    /// The details of the supply (row 13).
    pub supply_details: SupplyDetails,
    /// The address that the item has to be returned to (row 14).
    pub return_to_address: Option<PostalAddress>,
    /// A note of the responder (row 15).
    pub responder_note: Option<IllString>,
}

impl Node for Shipped {
    ghost use Rattle.ill_tables.specs.declared.node.NodeId.TheVariants.{Shipped as TheNode};
    ghost use Rattle.ill_apdu.specs.Views.{shipped_rows};

    ghost NODE = { TheNode };

    ghost entries = { shipped_rows };

    const NODE: NodeId = NodeId::Shipped;
}

#[tactic(auto, unfolding(crate::specs::Views::shipped))]
impl Part for Shipped {
    ghost use Rattle.ill_tables.specs.declared.node.NodeId.TheVariants.{Shipped as TheNode};
    ghost use Rattle.ill_parts.specs.Shape.{Is};
    ghost use Rattle.ill_apdu.specs.Views.{shipped};

    ghost content = { shipped };

    ghost accepts = { Is TheNode };

    fn to_value(&self, alloc: Global) -> Result<Value, AllocError> {
        let others = [
            optional_value(alloc, &self.responder_address),
            optional_value(alloc, &self.intermediary_id),
            optional_value(alloc, &self.supplier_id),
            optional_value(alloc, &self.client_id),
            required_value(alloc, &self.transaction_type),
            Ok(None),
            required_value(alloc, &self.shipped_service_type),
            optional_value(alloc, &self.responder_optional_messages),
            required_value(alloc, &self.supply_details),
            optional_value(alloc, &self.return_to_address),
            optional_value(alloc, &self.responder_note),
            Ok(None),
        ];
        headed(alloc, self, &self.head, others)
    }

    fn read(alloc: Global, value: &Value) -> Result<Self, AllocError> {
        let entries = entries::<Self>(value);
        part_of!(Shipped {
            head: read_head(alloc, entries),
            responder_address: optional(alloc, entries, 5),
            intermediary_id: optional(alloc, entries, 6),
            supplier_id: optional(alloc, entries, 7),
            client_id: optional(alloc, entries, 8),
            transaction_type: required(alloc, entries, 9);
            shipped_service_type: required(alloc, entries, 11),
            responder_optional_messages: optional(alloc, entries, 12),
            supply_details: required(alloc, entries, 13),
            return_to_address: optional(alloc, entries, 14),
            responder_note: optional(alloc, entries, 15),
        })
    }
}

impl Typed for Shipped {
    ghost use Rattle.ill_apdu.specs.code.Equality.{shipped_exact};

    ghost is_node = { λ _. (λ fits. fits, λ fits. fits) };

    ghost is_exact = { shipped_exact };
}
