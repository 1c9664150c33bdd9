//! The optional messages that the parties can send and want.
use crate::part::{Node, Part, Typed, entries, required, required_value, sequence};
use crate::part_of;
use ill_schema::{NodeId, Value};
use std::alloc::{AllocError, Global};

/// The optional messages that the requester can send, and those that it wants
/// (Requester-Optional-Messages).
#[derive(Debug, Drop, PartialEq, Eq)]
pub struct RequesterOptionalMessages {
    /// True if it can send RECEIVED (row 0).
    pub can_send_received: bool,
    /// True if it can send RETURNED (row 1).
    pub can_send_returned: bool,
    /// The wish for SHIPPED: 1 requires, 2 desires, 3 neither (row 2).
    pub requester_shipped: i64,
    /// The wish for CHECKED-IN: 1 requires, 2 desires, 3 neither (row 3).
    pub requester_checked_in: i64,
}

impl Node for RequesterOptionalMessages {
    ghost use Rattle.ill_tables.specs.declared.node.NodeId.TheVariants.{RequesterOptionalMessages as TheNode};
    ghost use Rattle.ill_parts.specs.Views.{requester_optional_messages_rows};

    ghost NODE = { TheNode };

    ghost entries = { requester_optional_messages_rows };

    const NODE: NodeId = NodeId::RequesterOptionalMessages;
}

#[tactic(auto, unfolding(crate::specs::Views::requester_optional_messages))]
impl Part for RequesterOptionalMessages {
    ghost use Rattle.ill_tables.specs.declared.node.NodeId.TheVariants.{RequesterOptionalMessages as TheNode};
    ghost use Rattle.ill_parts.specs.Shape.{Is};
    ghost use Rattle.ill_parts.specs.Views.{requester_optional_messages};

    ghost content = { requester_optional_messages };

    ghost accepts = { Is TheNode };

    fn to_value(&self, alloc: Global) -> Result<Value, AllocError> {
        let entries = [
            required_value(alloc, &self.can_send_received),
            required_value(alloc, &self.can_send_returned),
            required_value(alloc, &self.requester_shipped),
            required_value(alloc, &self.requester_checked_in),
        ];
        sequence(alloc, self, entries)
    }

    fn read(alloc: Global, value: &Value) -> Result<Self, AllocError> {
        let entries = entries::<Self>(value);
        part_of!(RequesterOptionalMessages {
            can_send_received: required(alloc, entries, 0),
            can_send_returned: required(alloc, entries, 1),
            requester_shipped: required(alloc, entries, 2),
            requester_checked_in: required(alloc, entries, 3),
        })
    }
}

impl Typed for RequesterOptionalMessages {
    ghost use Rattle.ill_parts.specs.code.Equality.{requester_optional_messages_exact};

    ghost is_node = { λ _. (λ fits. fits, λ fits. fits) };

    ghost is_exact = { requester_optional_messages_exact };
}

/// The optional messages that the responder can send, and those that it wants
/// (Responder-Optional-Messages).
#[derive(Debug, Drop, PartialEq, Eq)]
pub struct ResponderOptionalMessages {
    /// True if it can send SHIPPED (row 0).
    pub can_send_shipped: bool,
    /// True if it can send CHECKED-IN (row 1).
    pub can_send_checked_in: bool,
    /// The wish for RECEIVED: 1 requires, 2 desires, 3 neither (row 2).
    pub responder_received: i64,
    /// The wish for RETURNED: 1 requires, 2 desires, 3 neither (row 3).
    pub responder_returned: i64,
}

impl Node for ResponderOptionalMessages {
    ghost use Rattle.ill_tables.specs.declared.node.NodeId.TheVariants.{ResponderOptionalMessages as TheNode};
    ghost use Rattle.ill_parts.specs.Views.{responder_optional_messages_rows};

    ghost NODE = { TheNode };

    ghost entries = { responder_optional_messages_rows };

    const NODE: NodeId = NodeId::ResponderOptionalMessages;
}

#[tactic(auto, unfolding(crate::specs::Views::responder_optional_messages))]
impl Part for ResponderOptionalMessages {
    ghost use Rattle.ill_tables.specs.declared.node.NodeId.TheVariants.{ResponderOptionalMessages as TheNode};
    ghost use Rattle.ill_parts.specs.Shape.{Is};
    ghost use Rattle.ill_parts.specs.Views.{responder_optional_messages};

    ghost content = { responder_optional_messages };

    ghost accepts = { Is TheNode };

    fn to_value(&self, alloc: Global) -> Result<Value, AllocError> {
        let entries = [
            required_value(alloc, &self.can_send_shipped),
            required_value(alloc, &self.can_send_checked_in),
            required_value(alloc, &self.responder_received),
            required_value(alloc, &self.responder_returned),
        ];
        sequence(alloc, self, entries)
    }

    fn read(alloc: Global, value: &Value) -> Result<Self, AllocError> {
        let entries = entries::<Self>(value);
        part_of!(ResponderOptionalMessages {
            can_send_shipped: required(alloc, entries, 0),
            can_send_checked_in: required(alloc, entries, 1),
            responder_received: required(alloc, entries, 2),
            responder_returned: required(alloc, entries, 3),
        })
    }
}

impl Typed for ResponderOptionalMessages {
    ghost use Rattle.ill_parts.specs.code.Equality.{responder_optional_messages_exact};

    ghost is_node = { λ _. (λ fits. fits, λ fits. fits) };

    ghost is_exact = { responder_optional_messages_exact };
}
