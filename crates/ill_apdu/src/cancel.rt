//! CANCEL and CANCEL-REPLY.
use ber_leaf::IllString;
use ill_parts::{
    Head, Node, Part, Typed, entries, headed, optional, optional_value, part_of, read_head,
    required, required_value,
};
use ill_schema::{NodeId, Value};
use std::alloc::{AllocError, Global};

/// CANCEL: the requester wants the request cancelled (APDU 6).
///
/// `cancel-extensions` (row 6) is left out.
#[derive(Debug, Drop, PartialEq, Eq)]
pub struct Cancel {
    /// The rows that each APDU begins with (rows 0 to 4).
    pub head: Head,
    /// A note of the requester (row 5).
    pub requester_note: Option<IllString>,
}

impl Node for Cancel {
    ghost use Rattle.ill_tables.specs.declared.node.NodeId.TheVariants.{Cancel as TheNode};
    ghost use Rattle.ill_apdu.specs.Views.{cancel_rows};

    ghost NODE = { TheNode };

    ghost entries = { cancel_rows };

    const NODE: NodeId = NodeId::Cancel;
}

#[tactic(auto, unfolding(crate::specs::Views::cancel))]
impl Part for Cancel {
    ghost use Rattle.ill_tables.specs.declared.node.NodeId.TheVariants.{Cancel as TheNode};
    ghost use Rattle.ill_parts.specs.Shape.{Is};
    ghost use Rattle.ill_apdu.specs.Views.{cancel};

    ghost content = { cancel };

    ghost accepts = { Is TheNode };

    fn to_value(&self, alloc: Global) -> Result<Value, AllocError> {
        let others = [optional_value(alloc, &self.requester_note), Ok(None)];
        headed(alloc, self, &self.head, others)
    }

    fn read(alloc: Global, value: &Value) -> Result<Self, AllocError> {
        let entries = entries::<Self>(value);
        part_of!(Cancel {
            head: read_head(alloc, entries),
            requester_note: optional(alloc, entries, 5),
        })
    }
}

impl Typed for Cancel {
    ghost use Rattle.ill_apdu.specs.code.Equality.{cancel_exact};

    ghost is_node = { λ _. (λ fits. fits, λ fits. fits) };

    ghost is_exact = { cancel_exact };
}

/// CANCEL-REPLY: the responder agrees to the cancellation or declines it (APDU 7).
///
/// `cancel-reply-extensions` (row 7) is left out.
#[derive(Debug, Drop, PartialEq, Eq)]
pub struct CancelReply {
    /// The rows that each APDU begins with (rows 0 to 4).
    pub head: Head,
    /// True if the request is cancelled (row 5).
    pub answer: bool,
    /// A note of the responder (row 6).
    pub responder_note: Option<IllString>,
}

impl Node for CancelReply {
    ghost use Rattle.ill_tables.specs.declared.node.NodeId.TheVariants.{CancelReply as TheNode};
    ghost use Rattle.ill_apdu.specs.Views.{cancel_reply_rows};

    ghost NODE = { TheNode };

    ghost entries = { cancel_reply_rows };

    const NODE: NodeId = NodeId::CancelReply;
}

#[tactic(auto, unfolding(crate::specs::Views::cancel_reply))]
impl Part for CancelReply {
    ghost use Rattle.ill_tables.specs.declared.node.NodeId.TheVariants.{CancelReply as TheNode};
    ghost use Rattle.ill_parts.specs.Shape.{Is};
    ghost use Rattle.ill_apdu.specs.Views.{cancel_reply};

    ghost content = { cancel_reply };

    ghost accepts = { Is TheNode };

    fn to_value(&self, alloc: Global) -> Result<Value, AllocError> {
        let others = [
            required_value(alloc, &self.answer),
            optional_value(alloc, &self.responder_note),
            Ok(None),
        ];
        headed(alloc, self, &self.head, others)
    }

    fn read(alloc: Global, value: &Value) -> Result<Self, AllocError> {
        let entries = entries::<Self>(value);
        part_of!(CancelReply {
            head: read_head(alloc, entries),
            answer: required(alloc, entries, 5),
            responder_note: optional(alloc, entries, 6),
        })
    }
}

impl Typed for CancelReply {
    ghost use Rattle.ill_apdu.specs.code.Equality.{cancel_reply_exact};

    ghost is_node = { λ _. (λ fits. fits, λ fits. fits) };

    ghost is_exact = { cancel_reply_exact };
}
