//! STATUS-QUERY.
use ber_leaf::IllString;
use ill_parts::{
    Head, Node, Part, Typed, entries, headed, optional, optional_value, part_of, read_head,
};
use ill_schema::{NodeId, Value};
use std::alloc::{AllocError, Global};

/// STATUS-QUERY: a party asks for the state of the transaction (APDU 18).
///
/// `status-query-extensions` (row 6) is left out.
#[derive(Debug, Drop, PartialEq, Eq)]
pub struct StatusQuery {
    /// The rows that each APDU begins with (rows 0 to 4).
    pub head: Head,
    /// A note (row 5).
    pub note: Option<IllString>,
}

impl Node for StatusQuery {
    ghost use Rattle.ill_tables.specs.declared.node.NodeId.TheVariants.{StatusQuery as TheNode};
    ghost use Rattle.ill_apdu.specs.Views.{status_query_rows};

    ghost NODE = { TheNode };

    ghost entries = { status_query_rows };

    const NODE: NodeId = NodeId::StatusQuery;
}

#[tactic(auto, unfolding(crate::specs::Views::status_query))]
impl Part for StatusQuery {
    ghost use Rattle.ill_tables.specs.declared.node.NodeId.TheVariants.{StatusQuery as TheNode};
    ghost use Rattle.ill_parts.specs.Shape.{Is};
    ghost use Rattle.ill_apdu.specs.Views.{status_query};

    ghost content = { status_query };

    ghost accepts = { Is TheNode };

    fn to_value(&self, alloc: Global) -> Result<Value, AllocError> {
        let others = [optional_value(alloc, &self.note), Ok(None)];
        headed(alloc, self, &self.head, others)
    }

    fn read(alloc: Global, value: &Value) -> Result<Self, AllocError> {
        let entries = entries::<Self>(value);
        part_of!(StatusQuery {
            head: read_head(alloc, entries),
            note: optional(alloc, entries, 5),
        })
    }
}

impl Typed for StatusQuery {
    ghost use Rattle.ill_apdu.specs.code.Equality.{status_query_exact};

    ghost is_node = { λ _. (λ fits. fits, λ fits. fits) };

    ghost is_exact = { status_query_exact };
}
