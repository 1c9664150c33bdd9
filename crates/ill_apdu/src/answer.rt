//! ILL-ANSWER.
use crate::results::Results;
use ber_leaf::IllString;
use ill_parts::{
    Head, Node, Part, ResponderOptionalMessages, SendTo, SystemId, Typed, entries, headed,
    optional, optional_value, part_of, read_head, required, required_value,
};
use ill_schema::{NodeId, Value};
use std::alloc::{AllocError, Global};

/// ILL-ANSWER: the responder answers a request (APDU 4).
///
/// `responder-specific-results` (row 7), `supplemental-item-description` (row 8) and
/// `ill-answer-extensions` (row 13) are left out.
#[derive(Debug, Drop, PartialEq, Eq)]
pub struct IllAnswer {
    /// The rows that each APDU begins with (rows 0 to 4).
    pub head: Head,
    /// The result: 1 conditional, 2 retry, 3 unfilled, 4 locations provided, 5 will supply, 6
    /// hold placed, 7 estimate (row 5).
    pub transaction_results: i64,
    /// The meaning of the result here (row 6).
    pub results_explanation: Option<Results>,
    /// Whom else to ask (row 9).
    pub send_to_list: Option<Vec<SendTo>>,
    /// Who was asked before (row 10).
    pub already_tried_list: Option<Vec<SystemId>>,
    /// The optional messages that the responder can send or wants (row 11).
    pub responder_optional_messages: Option<ResponderOptionalMessages>,
    /// A note of the responder (row 12).
    pub responder_note: Option<IllString>,
}

impl Node for IllAnswer {
    ghost use Rattle.ill_tables.specs.declared.node.NodeId.TheVariants.{IllAnswer as TheNode};
    ghost use Rattle.ill_apdu.specs.Views.{ill_answer_rows};

    ghost NODE = { TheNode };

    ghost entries = { ill_answer_rows };

    const NODE: NodeId = NodeId::IllAnswer;
}

#[tactic(auto, unfolding(crate::specs::Views::ill_answer))]
impl Part for IllAnswer {
    ghost use Rattle.ill_tables.specs.declared.node.NodeId.TheVariants.{IllAnswer as TheNode};
    ghost use Rattle.ill_parts.specs.Shape.{Is};
    ghost use Rattle.ill_apdu.specs.Views.{ill_answer};

    ghost content = { ill_answer };

    ghost accepts = { Is TheNode };

    fn to_value(&self, alloc: Global) -> Result<Value, AllocError> {
        let others = [
            required_value(alloc, &self.transaction_results),
            optional_value(alloc, &self.results_explanation),
            Ok(None),
            Ok(None),
            optional_value(alloc, &self.send_to_list),
            optional_value(alloc, &self.already_tried_list),
            optional_value(alloc, &self.responder_optional_messages),
            optional_value(alloc, &self.responder_note),
            Ok(None),
        ];
        headed(alloc, self, &self.head, others)
    }

    fn read(alloc: Global, value: &Value) -> Result<Self, AllocError> {
        let entries = entries::<Self>(value);
        part_of!(IllAnswer {
            head: read_head(alloc, entries),
            transaction_results: required(alloc, entries, 5),
            results_explanation: optional(alloc, entries, 6),
            send_to_list: optional(alloc, entries, 9),
            already_tried_list: optional(alloc, entries, 10),
            responder_optional_messages: optional(alloc, entries, 11),
            responder_note: optional(alloc, entries, 12),
        })
    }
}

impl Typed for IllAnswer {
    ghost use Rattle.ill_apdu.specs.code.Equality.{ill_answer_exact};

    ghost is_node = { λ _. (λ fits. fits, λ fits. fits) };

    ghost is_exact = { ill_answer_exact };
}
