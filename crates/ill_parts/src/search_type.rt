//! Search-Type: the way in which a request is searched.
use crate::part::{
    Node, Part, Typed, entries, optional, optional_value, required, required_value, sequence,
};
use crate::part_of;
use ber_leaf::{DateText, IllString};
use ill_schema::{NodeId, Value};
use std::alloc::{AllocError, Global};

/// The extent of the search, and its end (Search-Type).
#[derive(Debug, Drop, PartialEq, Eq)]
pub struct SearchType {
    /// The level of service that is asked for (row 0).
    pub level_of_service: Option<IllString>,
    /// The day before which the item is needed (row 1).
    pub need_before_date: Option<DateText>,
    /// The time when the request expires: 1 with the day of need, 2 on another day, 3 never (row 2, by
    /// default 3).
    pub expiry_flag: i64,
    /// The day on which the request expires (row 3).
    pub expiry_date: Option<DateText>,
}

impl Node for SearchType {
    ghost use Rattle.ill_tables.specs.declared.node.NodeId.TheVariants.{SearchType as TheNode};
    ghost use Rattle.ill_parts.specs.Views.{search_type_rows};

    ghost NODE = { TheNode };

    ghost entries = { search_type_rows };

    const NODE: NodeId = NodeId::SearchType;
}

#[tactic(auto, unfolding(crate::specs::Views::search_type))]
impl Part for SearchType {
    ghost use Rattle.ill_tables.specs.declared.node.NodeId.TheVariants.{SearchType as TheNode};
    ghost use Rattle.ill_parts.specs.Shape.{Is};
    ghost use Rattle.ill_parts.specs.Views.{search_type};

    ghost content = { search_type };

    ghost accepts = { Is TheNode };

    fn to_value(&self, alloc: Global) -> Result<Value, AllocError> {
        let entries = [
            optional_value(alloc, &self.level_of_service),
            optional_value(alloc, &self.need_before_date),
            required_value(alloc, &self.expiry_flag),
            optional_value(alloc, &self.expiry_date),
        ];
        sequence(alloc, self, entries)
    }

    fn read(alloc: Global, value: &Value) -> Result<Self, AllocError> {
        let entries = entries::<Self>(value);
        part_of!(SearchType {
            level_of_service: optional(alloc, entries, 0),
            need_before_date: optional(alloc, entries, 1),
            expiry_flag: required(alloc, entries, 2),
            expiry_date: optional(alloc, entries, 3),
        })
    }
}

impl Typed for SearchType {
    ghost use Rattle.ill_parts.specs.code.Equality.{search_type_exact};

    ghost is_node = { λ _. (λ fits. fits, λ fits. fits) };

    ghost is_exact = { search_type_exact };
}
