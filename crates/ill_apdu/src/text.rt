//! MESSAGE.
use ber_leaf::IllString;
use ill_parts::{
    Head, Node, Part, Typed, entries, headed, part_of, read_head, required, required_value,
};
use ill_schema::{NodeId, Value};
use std::alloc::{AllocError, Global};

/// MESSAGE: a text for the other party (APDU 17).
///
/// `message-extensions` (row 6) is left out.
#[derive(Debug, Drop, PartialEq, Eq)]
pub struct MessageApdu {
    /// The rows that each APDU begins with (rows 0 to 4).
    pub head: Head,
    /// The text (row 5).
    pub note: IllString,
}

impl Node for MessageApdu {
    ghost use Rattle.ill_tables.specs.declared.node.NodeId.TheVariants.{MessageApdu as TheNode};
    ghost use Rattle.ill_apdu.specs.Views.{message_apdu_rows};

    ghost NODE = { TheNode };

    ghost entries = { message_apdu_rows };

    const NODE: NodeId = NodeId::MessageApdu;
}

#[tactic(auto, unfolding(crate::specs::Views::message_apdu))]
impl Part for MessageApdu {
    ghost use Rattle.ill_tables.specs.declared.node.NodeId.TheVariants.{MessageApdu as TheNode};
    ghost use Rattle.ill_parts.specs.Shape.{Is};
    ghost use Rattle.ill_apdu.specs.Views.{message_apdu};

    ghost content = { message_apdu };

    ghost accepts = { Is TheNode };

    fn to_value(&self, alloc: Global) -> Result<Value, AllocError> {
        let others = [required_value(alloc, &self.note), Ok(None)];
        headed(alloc, self, &self.head, others)
    }

    fn read(alloc: Global, value: &Value) -> Result<Self, AllocError> {
        let entries = entries::<Self>(value);
        part_of!(MessageApdu {
            head: read_head(alloc, entries),
            note: required(alloc, entries, 5),
        })
    }
}

impl Typed for MessageApdu {
    ghost use Rattle.ill_apdu.specs.code.Equality.{message_apdu_exact};

    ghost is_node = { λ _. (λ fits. fits, λ fits. fits) };

    ghost is_exact = { message_apdu_exact };
}
