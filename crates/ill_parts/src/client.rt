//! Clients of the requester.
use crate::part::{Node, Part, Typed, entries, optional, optional_value, sequence};
use crate::part_of;
use ber_leaf::IllString;
use ill_schema::{NodeId, Value};
use std::alloc::{AllocError, Global};

/// The person for whom the requester wants the item (Client-Id).
#[derive(Debug, Drop, PartialEq, Eq)]
pub struct ClientId {
    /// The client's name (row 0).
    pub client_name: Option<IllString>,
    /// The client's status, as student or staff (row 1).
    pub client_status: Option<IllString>,
    /// The identifier by which the requester knows the client (row 2).
    pub client_identifier: Option<IllString>,
}

impl Node for ClientId {
    ghost use Rattle.ill_tables.specs.declared.node.NodeId.TheVariants.{ClientId as TheNode};
    ghost use Rattle.ill_parts.specs.Views.{client_id_rows};

    ghost NODE = { TheNode };

    ghost entries = { client_id_rows };

    const NODE: NodeId = NodeId::ClientId;
}

#[tactic(auto, unfolding(crate::specs::Views::client_id))]
impl Part for ClientId {
    ghost use Rattle.ill_tables.specs.declared.node.NodeId.TheVariants.{ClientId as TheNode};
    ghost use Rattle.ill_parts.specs.Shape.{Is};
    ghost use Rattle.ill_parts.specs.Views.{client_id};

    ghost content = { client_id };

    ghost accepts = { Is TheNode };

    fn to_value(&self, alloc: Global) -> Result<Value, AllocError> {
        let entries = [
            optional_value(alloc, &self.client_name),
            optional_value(alloc, &self.client_status),
            optional_value(alloc, &self.client_identifier),
        ];
        sequence(alloc, self, entries)
    }

    fn read(alloc: Global, value: &Value) -> Result<Self, AllocError> {
        let entries = entries::<Self>(value);
        part_of!(ClientId {
            client_name: optional(alloc, entries, 0),
            client_status: optional(alloc, entries, 1),
            client_identifier: optional(alloc, entries, 2),
        })
    }
}

impl Typed for ClientId {
    ghost use Rattle.ill_parts.specs.code.Equality.{client_id_exact};

    ghost is_node = { λ _. (λ fits. fits, λ fits. fits) };

    ghost is_exact = { client_id_exact };
}
