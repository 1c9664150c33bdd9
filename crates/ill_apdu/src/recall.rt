//! RECALL.
use ber_leaf::IllString;
use ill_parts::{
    Head, Node, Part, Typed, entries, headed, optional, optional_value, part_of, read_head,
};
use ill_schema::{NodeId, Value};
use std::alloc::{AllocError, Global};

/// RECALL: the responder wants the item back (APDU 9).
///
/// `recall-extensions` (row 6) is left out.
#[derive(Debug, Drop, PartialEq, Eq)]
pub struct Recall {
    /// The rows that each APDU begins with (rows 0 to 4).
    pub head: Head,
    /// A note of the responder (row 5).
    pub responder_note: Option<IllString>,
}

impl Node for Recall {
    ghost use Rattle.ill_tables.specs.declared.node.NodeId.TheVariants.{Recall as TheNode};
    ghost use Rattle.ill_apdu.specs.Views.{recall_rows};

    ghost NODE = { TheNode };

    ghost entries = { recall_rows };

    const NODE: NodeId = NodeId::Recall;
}

#[tactic(auto, unfolding(crate::specs::Views::recall))]
impl Part for Recall {
    ghost use Rattle.ill_tables.specs.declared.node.NodeId.TheVariants.{Recall as TheNode};
    ghost use Rattle.ill_parts.specs.Shape.{Is};
    ghost use Rattle.ill_apdu.specs.Views.{recall};

    ghost content = { recall };

    ghost accepts = { Is TheNode };

    fn to_value(&self, alloc: Global) -> Result<Value, AllocError> {
        let others = [optional_value(alloc, &self.responder_note), Ok(None)];
        headed(alloc, self, &self.head, others)
    }

    fn read(alloc: Global, value: &Value) -> Result<Self, AllocError> {
        let entries = entries::<Self>(value);
        part_of!(Recall {
            head: read_head(alloc, entries),
            responder_note: optional(alloc, entries, 5),
        })
    }
}

impl Typed for Recall {
    ghost use Rattle.ill_apdu.specs.code.Equality.{recall_exact};

    ghost is_node = { λ _. (λ fits. fits, λ fits. fits) };

    ghost is_exact = { recall_exact };
}
