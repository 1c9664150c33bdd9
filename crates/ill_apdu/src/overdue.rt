//! OVERDUE.
use ber_leaf::IllString;
use ill_parts::{
    DateDue, Head, Node, Part, Typed, entries, headed, optional, optional_value, part_of,
    read_head, required, required_value,
};
use ill_schema::{NodeId, Value};
use std::alloc::{AllocError, Global};

/// OVERDUE: the item should have been returned (APDU 12).
///
/// `overdue-extensions` (row 7) is left out.
#[derive(Debug, Drop, PartialEq, Eq)]
pub struct Overdue {
    /// The rows that each APDU begins with (rows 0 to 4).
    pub head: Head,
    /// The date when it was due (row 5).
    pub date_due: DateDue,
    /// A note of the responder (row 6).
    pub responder_note: Option<IllString>,
}

impl Node for Overdue {
    ghost use Rattle.ill_tables.specs.declared.node.NodeId.TheVariants.{Overdue as TheNode};
    ghost use Rattle.ill_apdu.specs.Views.{overdue_rows};

    ghost NODE = { TheNode };

    ghost entries = { overdue_rows };

    const NODE: NodeId = NodeId::Overdue;
}

#[tactic(auto, unfolding(crate::specs::Views::overdue))]
impl Part for Overdue {
    ghost use Rattle.ill_tables.specs.declared.node.NodeId.TheVariants.{Overdue as TheNode};
    ghost use Rattle.ill_parts.specs.Shape.{Is};
    ghost use Rattle.ill_apdu.specs.Views.{overdue};

    ghost content = { overdue };

    ghost accepts = { Is TheNode };

    fn to_value(&self, alloc: Global) -> Result<Value, AllocError> {
        let others = [
            required_value(alloc, &self.date_due),
            optional_value(alloc, &self.responder_note),
            Ok(None),
        ];
        headed(alloc, self, &self.head, others)
    }

    fn read(alloc: Global, value: &Value) -> Result<Self, AllocError> {
        let entries = entries::<Self>(value);
        part_of!(Overdue {
            head: read_head(alloc, entries),
            date_due: required(alloc, entries, 5),
            responder_note: optional(alloc, entries, 6),
        })
    }
}

impl Typed for Overdue {
    ghost use Rattle.ill_apdu.specs.code.Equality.{overdue_exact};

    ghost is_node = { λ _. (λ fits. fits, λ fits. fits) };

    ghost is_exact = { overdue_exact };
}
