//! Money.
use crate::part::{
    Node, Part, Typed, entries, optional, optional_value, required, required_value, sequence,
};
use crate::part_of;
use ber_leaf::{IllString, PrintableText};
use ill_schema::{NodeId, Value};
use std::alloc::{AllocError, Global};

/// An amount of money (Amount).
#[derive(Debug, Drop, PartialEq, Eq)]
pub struct Amount {
    /// The currency, by its code (row 0).
    pub currency_code: Option<PrintableText>,
    /// The number of its units (row 1).
    pub monetary_value: PrintableText,
}

impl Node for Amount {
    ghost use Rattle.ill_tables.specs.declared.node.NodeId.TheVariants.{Amount as TheNode};
    ghost use Rattle.ill_parts.specs.Views.{amount_rows};

    ghost NODE = { TheNode };

    ghost entries = { amount_rows };

    const NODE: NodeId = NodeId::Amount;
}

#[tactic(auto, unfolding(crate::specs::Views::amount))]
impl Part for Amount {
    ghost use Rattle.ill_tables.specs.declared.node.NodeId.TheVariants.{Amount as TheNode};
    ghost use Rattle.ill_parts.specs.Shape.{Is};
    ghost use Rattle.ill_parts.specs.Views.{amount};

    ghost content = { amount };

    ghost accepts = { Is TheNode };

    fn to_value(&self, alloc: Global) -> Result<Value, AllocError> {
        let entries = [
            optional_value(alloc, &self.currency_code),
            required_value(alloc, &self.monetary_value),
        ];
        sequence(alloc, self, entries)
    }

    fn read(alloc: Global, value: &Value) -> Result<Self, AllocError> {
        let entries = entries::<Self>(value);
        part_of!(Amount {
            currency_code: optional(alloc, entries, 0),
            monetary_value: required(alloc, entries, 1),
        })
    }
}

impl Typed for Amount {
    ghost use Rattle.ill_parts.specs.code.Equality.{amount_exact};

    ghost is_node = { λ _. (λ fits. fits, λ fits. fits) };

    ghost is_exact = { amount_exact };
}

/// The sum that the requester will pay, and how (Cost-Info).
#[derive(Debug, Drop, PartialEq, Eq)]
pub struct CostInfo {
    /// The account to charge (row 0).
    pub account_number: Option<IllString>,
    /// The most that the requester will pay (row 1).
    pub maximum_cost: Option<Amount>,
    /// True if an agreement between the libraries covers the cost (row 2, by default false).
    pub reciprocal_agreement: bool,
    /// True if the requester will pay a fee (row 3, by default false).
    pub will_pay_fee: bool,
    /// True if the payment comes with the request (row 4, by default false).
    pub payment_provided: bool,
}

impl Node for CostInfo {
    ghost use Rattle.ill_tables.specs.declared.node.NodeId.TheVariants.{CostInfo as TheNode};
    ghost use Rattle.ill_parts.specs.Views.{cost_info_rows};

    ghost NODE = { TheNode };

    ghost entries = { cost_info_rows };

    const NODE: NodeId = NodeId::CostInfo;
}

#[tactic(auto, unfolding(crate::specs::Views::cost_info))]
impl Part for CostInfo {
    ghost use Rattle.ill_tables.specs.declared.node.NodeId.TheVariants.{CostInfo as TheNode};
    ghost use Rattle.ill_parts.specs.Shape.{Is};
    ghost use Rattle.ill_parts.specs.Views.{cost_info};

    ghost content = { cost_info };

    ghost accepts = { Is TheNode };

    fn to_value(&self, alloc: Global) -> Result<Value, AllocError> {
        let entries = [
            optional_value(alloc, &self.account_number),
            optional_value(alloc, &self.maximum_cost),
            required_value(alloc, &self.reciprocal_agreement),
            required_value(alloc, &self.will_pay_fee),
            required_value(alloc, &self.payment_provided),
        ];
        sequence(alloc, self, entries)
    }

    fn read(alloc: Global, value: &Value) -> Result<Self, AllocError> {
        let entries = entries::<Self>(value);
        part_of!(CostInfo {
            account_number: optional(alloc, entries, 0),
            maximum_cost: optional(alloc, entries, 1),
            reciprocal_agreement: required(alloc, entries, 2),
            will_pay_fee: required(alloc, entries, 3),
            payment_provided: required(alloc, entries, 4),
        })
    }
}

impl Typed for CostInfo {
    ghost use Rattle.ill_parts.specs.code.Equality.{cost_info_exact};

    ghost is_node = { λ _. (λ fits. fits, λ fits. fits) };

    ghost is_exact = { cost_info_exact };
}
