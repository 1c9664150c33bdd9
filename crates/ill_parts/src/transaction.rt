//! Transactions, and when their services are invoked.
use crate::part::{
    Node, Part, Typed, entries, optional, optional_value, required, required_value, sequence,
};
use crate::part_of;
use crate::party::SystemId;
use ber_leaf::{DateText, IllString, TimeText};
use ill_schema::{NodeId, Value};
use std::alloc::{AllocError, Global};

/// The transaction or subtransaction that a message belongs to (Transaction-Id).
#[derive(Debug, Drop, PartialEq, Eq)]
pub struct TransactionId {
    /// The party that began the transaction (row 0).
    pub initial_requester_id: Option<SystemId>,
    /// The group of transactions (row 1).
    pub transaction_group_qualifier: IllString,
    /// The transaction within its group (row 2).
    pub transaction_qualifier: IllString,
    /// The subtransaction of a chained or partitioned transaction (row 3).
    pub sub_transaction_qualifier: Option<IllString>,
}

impl Node for TransactionId {
    ghost use Rattle.ill_tables.specs.declared.node.NodeId.TheVariants.{TransactionId as TheNode};
    ghost use Rattle.ill_parts.specs.Views.{transaction_id_rows};

    ghost NODE = { TheNode };

    ghost entries = { transaction_id_rows };

    const NODE: NodeId = NodeId::TransactionId;
}

#[tactic(auto, unfolding(crate::specs::Views::transaction_id))]
impl Part for TransactionId {
    ghost use Rattle.ill_tables.specs.declared.node.NodeId.TheVariants.{TransactionId as TheNode};
    ghost use Rattle.ill_parts.specs.Shape.{Is};
    ghost use Rattle.ill_parts.specs.Views.{transaction_id};

    ghost content = { transaction_id };

    ghost accepts = { Is TheNode };

    fn to_value(&self, alloc: Global) -> Result<Value, AllocError> {
        let entries = [
            optional_value(alloc, &self.initial_requester_id),
            required_value(alloc, &self.transaction_group_qualifier),
            required_value(alloc, &self.transaction_qualifier),
            optional_value(alloc, &self.sub_transaction_qualifier),
        ];
        sequence(alloc, self, entries)
    }

    fn read(alloc: Global, value: &Value) -> Result<Self, AllocError> {
        let entries = entries::<Self>(value);
        part_of!(TransactionId {
            initial_requester_id: optional(alloc, entries, 0),
            transaction_group_qualifier: required(alloc, entries, 1),
            transaction_qualifier: required(alloc, entries, 2),
            sub_transaction_qualifier: optional(alloc, entries, 3),
        })
    }
}

impl Typed for TransactionId {
    ghost use Rattle.ill_parts.specs.code.Equality.{transaction_id_exact};

    ghost is_node = { λ _. (λ fits. fits, λ fits. fits) };

    ghost is_exact = { transaction_id_exact };
}

/// A day, and perhaps a time of that day (Date-Time).
#[derive(Debug, Drop, PartialEq, Eq)]
pub struct DateTime {
    /// The day (row 0).
    pub date: DateText,
    /// The time of the day (row 1).
    pub time: Option<TimeText>,
}

impl Node for DateTime {
    ghost use Rattle.ill_tables.specs.declared.node.NodeId.TheVariants.{DateTime as TheNode};
    ghost use Rattle.ill_parts.specs.Views.{date_time_rows};

    ghost NODE = { TheNode };

    ghost entries = { date_time_rows };

    const NODE: NodeId = NodeId::DateTime;
}

#[tactic(auto, unfolding(crate::specs::Views::date_time))]
impl Part for DateTime {
    ghost use Rattle.ill_tables.specs.declared.node.NodeId.TheVariants.{DateTime as TheNode};
    ghost use Rattle.ill_parts.specs.Shape.{Is};
    ghost use Rattle.ill_parts.specs.Views.{date_time};

    ghost content = { date_time };

    ghost accepts = { Is TheNode };

    fn to_value(&self, alloc: Global) -> Result<Value, AllocError> {
        let entries = [
            required_value(alloc, &self.date),
            optional_value(alloc, &self.time),
        ];
        sequence(alloc, self, entries)
    }

    fn read(alloc: Global, value: &Value) -> Result<Self, AllocError> {
        let entries = entries::<Self>(value);
        part_of!(DateTime {
            date: required(alloc, entries, 0),
            time: optional(alloc, entries, 1),
        })
    }
}

impl Typed for DateTime {
    ghost use Rattle.ill_parts.specs.code.Equality.{date_time_exact};

    ghost is_node = { λ _. (λ fits. fits, λ fits. fits) };

    ghost is_exact = { date_time_exact };
}

/// The time when a service was invoked, and when first, where it is repeated (Service-Date-Time).
#[derive(Debug, Drop, PartialEq, Eq)]
pub struct ServiceDateTime {
    /// The time when this service was invoked (row 0).
    pub date_time_of_this_service: DateTime,
    /// The time when the service that is repeated here was first invoked (row 1).
    pub date_time_of_original_service: Option<DateTime>,
}

impl Node for ServiceDateTime {
    ghost use Rattle.ill_tables.specs.declared.node.NodeId.TheVariants.{ServiceDateTime as TheNode};
    ghost use Rattle.ill_parts.specs.Views.{service_date_time_rows};

    ghost NODE = { TheNode };

    ghost entries = { service_date_time_rows };

    const NODE: NodeId = NodeId::ServiceDateTime;
}

#[tactic(auto, unfolding(crate::specs::Views::service_date_time))]
impl Part for ServiceDateTime {
    ghost use Rattle.ill_tables.specs.declared.node.NodeId.TheVariants.{ServiceDateTime as TheNode};
    ghost use Rattle.ill_parts.specs.Shape.{Is};
    ghost use Rattle.ill_parts.specs.Views.{service_date_time};

    ghost content = { service_date_time };

    ghost accepts = { Is TheNode };

    fn to_value(&self, alloc: Global) -> Result<Value, AllocError> {
        let entries = [
            required_value(alloc, &self.date_time_of_this_service),
            optional_value(alloc, &self.date_time_of_original_service),
        ];
        sequence(alloc, self, entries)
    }

    fn read(alloc: Global, value: &Value) -> Result<Self, AllocError> {
        let entries = entries::<Self>(value);
        part_of!(ServiceDateTime {
            date_time_of_this_service: required(alloc, entries, 0),
            date_time_of_original_service: optional(alloc, entries, 1),
        })
    }
}

impl Typed for ServiceDateTime {
    ghost use Rattle.ill_parts.specs.code.Equality.{service_date_time_exact};

    ghost is_node = { λ _. (λ fits. fits, λ fits. fits) };

    ghost is_exact = { service_date_time_exact };
}
