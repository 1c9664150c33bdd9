//! CONDITIONAL-REPLY.
use ber_leaf::IllString;
use ill_parts::{
    Head, Node, Part, Typed, entries, headed, optional, optional_value, part_of, read_head,
    required, required_value,
};
use ill_schema::{NodeId, Value};
use std::alloc::{AllocError, Global};

/// CONDITIONAL-REPLY: the requester takes or declines the conditions (APDU 5).
///
/// `conditional-reply-extensions` (row 7) is left out.
#[derive(Debug, Drop, PartialEq, Eq)]
pub struct ConditionalReply {
    /// The rows that each APDU begins with (rows 0 to 4).
    pub head: Head,
    /// True if the conditions are accepted (row 5).
    pub answer: bool,
    /// A note of the requester (row 6).
    pub requester_note: Option<IllString>,
}

impl Node for ConditionalReply {
    ghost use Rattle.ill_tables.specs.declared.node.NodeId.TheVariants.{ConditionalReply as TheNode};
    ghost use Rattle.ill_apdu.specs.Views.{conditional_reply_rows};

    ghost NODE = { TheNode };

    ghost entries = { conditional_reply_rows };

    const NODE: NodeId = NodeId::ConditionalReply;
}

#[tactic(auto, unfolding(crate::specs::Views::conditional_reply))]
impl Part for ConditionalReply {
    ghost use Rattle.ill_tables.specs.declared.node.NodeId.TheVariants.{ConditionalReply as TheNode};
    ghost use Rattle.ill_parts.specs.Shape.{Is};
    ghost use Rattle.ill_apdu.specs.Views.{conditional_reply};

    ghost content = { conditional_reply };

    ghost accepts = { Is TheNode };

    fn to_value(&self, alloc: Global) -> Result<Value, AllocError> {
        let others = [
            required_value(alloc, &self.answer),
            optional_value(alloc, &self.requester_note),
            Ok(None),
        ];
        headed(alloc, self, &self.head, others)
    }

    fn read(alloc: Global, value: &Value) -> Result<Self, AllocError> {
        let entries = entries::<Self>(value);
        part_of!(ConditionalReply {
            head: read_head(alloc, entries),
            answer: required(alloc, entries, 5),
            requester_note: optional(alloc, entries, 6),
        })
    }
}

impl Typed for ConditionalReply {
    ghost use Rattle.ill_apdu.specs.code.Equality.{conditional_reply_exact};

    ghost is_node = { λ _. (λ fits. fits, λ fits. fits) };

    ghost is_exact = { conditional_reply_exact };
}
