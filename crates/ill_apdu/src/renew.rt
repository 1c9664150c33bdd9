//! RENEW and RENEW-ANSWER.
use ber_leaf::{DateText, IllString};
use ill_parts::{
    DateDue, Head, Node, Part, Typed, entries, headed, optional, optional_value, part_of,
    read_head, required, required_value,
};
use ill_schema::{NodeId, Value};
use std::alloc::{AllocError, Global};

/// RENEW: the requester wants to keep the item longer (APDU 13).
///
/// `renew-extensions` (row 7) is left out.
#[derive(Debug, Drop, PartialEq, Eq)]
pub struct Renew {
    /// The rows that each APDU begins with (rows 0 to 4).
    pub head: Head,
    /// Until when the requester would like to keep it (row 5).
    pub desired_due_date: Option<DateText>,
    /// A note of the requester (row 6).
    pub requester_note: Option<IllString>,
}

impl Node for Renew {
    ghost use Rattle.ill_tables.specs.declared.node.NodeId.TheVariants.{Renew as TheNode};
    ghost use Rattle.ill_apdu.specs.Views.{renew_rows};

    ghost NODE = { TheNode };

    ghost entries = { renew_rows };

    const NODE: NodeId = NodeId::Renew;
}

#[tactic(auto, unfolding(crate::specs::Views::renew))]
impl Part for Renew {
    ghost use Rattle.ill_tables.specs.declared.node.NodeId.TheVariants.{Renew as TheNode};
    ghost use Rattle.ill_parts.specs.Shape.{Is};
    ghost use Rattle.ill_apdu.specs.Views.{renew};

    ghost content = { renew };

    ghost accepts = { Is TheNode };

    fn to_value(&self, alloc: Global) -> Result<Value, AllocError> {
        let others = [
            optional_value(alloc, &self.desired_due_date),
            optional_value(alloc, &self.requester_note),
            Ok(None),
        ];
        headed(alloc, self, &self.head, others)
    }

    fn read(alloc: Global, value: &Value) -> Result<Self, AllocError> {
        let entries = entries::<Self>(value);
        part_of!(Renew {
            head: read_head(alloc, entries),
            desired_due_date: optional(alloc, entries, 5),
            requester_note: optional(alloc, entries, 6),
        })
    }
}

impl Typed for Renew {
    ghost use Rattle.ill_apdu.specs.code.Equality.{renew_exact};

    ghost is_node = { λ _. (λ fits. fits, λ fits. fits) };

    ghost is_exact = { renew_exact };
}

/// RENEW-ANSWER: the responder agrees to the renewal or declines it (APDU 14).
///
/// `renew-answer-extensions` (row 8) is left out.
#[derive(Debug, Drop, PartialEq, Eq)]
pub struct RenewAnswer {
    /// The rows that each APDU begins with (rows 0 to 4).
    pub head: Head,
    /// True if the loan is renewed (row 5).
    pub answer: bool,
    /// The date when it is due now (row 6).
    pub date_due: Option<DateDue>,
    /// A note of the responder (row 7).
    pub responder_note: Option<IllString>,
}

impl Node for RenewAnswer {
    ghost use Rattle.ill_tables.specs.declared.node.NodeId.TheVariants.{RenewAnswer as TheNode};
    ghost use Rattle.ill_apdu.specs.Views.{renew_answer_rows};

    ghost NODE = { TheNode };

    ghost entries = { renew_answer_rows };

    const NODE: NodeId = NodeId::RenewAnswer;
}

#[tactic(auto, unfolding(crate::specs::Views::renew_answer))]
impl Part for RenewAnswer {
    ghost use Rattle.ill_tables.specs.declared.node.NodeId.TheVariants.{RenewAnswer as TheNode};
    ghost use Rattle.ill_parts.specs.Shape.{Is};
    ghost use Rattle.ill_apdu.specs.Views.{renew_answer};

    ghost content = { renew_answer };

    ghost accepts = { Is TheNode };

    fn to_value(&self, alloc: Global) -> Result<Value, AllocError> {
        let others = [
            required_value(alloc, &self.answer),
            optional_value(alloc, &self.date_due),
            optional_value(alloc, &self.responder_note),
            Ok(None),
        ];
        headed(alloc, self, &self.head, others)
    }

    fn read(alloc: Global, value: &Value) -> Result<Self, AllocError> {
        let entries = entries::<Self>(value);
        part_of!(RenewAnswer {
            head: read_head(alloc, entries),
            answer: required(alloc, entries, 5),
            date_due: optional(alloc, entries, 6),
            responder_note: optional(alloc, entries, 7),
        })
    }
}

impl Typed for RenewAnswer {
    ghost use Rattle.ill_apdu.specs.code.Equality.{renew_answer_exact};

    ghost is_node = { λ _. (λ fits. fits, λ fits. fits) };

    ghost is_exact = { renew_answer_exact };
}
