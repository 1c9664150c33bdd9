//! EXPIRED.
use ill_parts::{Head, Node, Part, Typed, entries, headed, read_head};
use ill_schema::{NodeId, Value};
use std::alloc::{AllocError, Global};

/// EXPIRED: the request has expired at the responder (APDU 20).
///
/// `expired-extensions` (row 5) is left out.
#[derive(Debug, Drop, PartialEq, Eq)]
pub struct Expired {
    /// The rows that each APDU begins with (rows 0 to 4).
    pub head: Head,
}

impl Node for Expired {
    ghost use Rattle.ill_tables.specs.declared.node.NodeId.TheVariants.{Expired as TheNode};
    ghost use Rattle.ill_apdu.specs.Views.{expired_rows};

    ghost NODE = { TheNode };

    ghost entries = { expired_rows };

    const NODE: NodeId = NodeId::Expired;
}

#[tactic(auto, unfolding(crate::specs::Views::expired))]
impl Part for Expired {
    ghost use Rattle.ill_tables.specs.declared.node.NodeId.TheVariants.{Expired as TheNode};
    ghost use Rattle.ill_parts.specs.Shape.{Is};
    ghost use Rattle.ill_apdu.specs.Views.{expired};

    ghost content = { expired };

    ghost accepts = { Is TheNode };

    fn to_value(&self, alloc: Global) -> Result<Value, AllocError> {
        let others = [Ok(None)];
        headed(alloc, self, &self.head, others)
    }

    fn read(alloc: Global, value: &Value) -> Result<Self, AllocError> {
        let entries = entries::<Self>(value);
        Ok(Expired {
            head: read_head(alloc, entries)?,
        })
    }
}

impl Typed for Expired {
    ghost use Rattle.ill_apdu.specs.code.Equality.{expired_exact};

    ghost is_node = { λ _. (λ fits. fits, λ fits. fits) };

    ghost is_exact = { expired_exact };
}
