//! Media.
use crate::part::{
    Node, Part, Typed, entries, optional, optional_value, required, required_value, sequence,
};
use crate::part_of;
use ber_leaf::IllString;
use ill_schema::{NodeId, Value};
use std::alloc::{AllocError, Global};

/// A medium in which the requester accepts the item (Supply-Medium-Info).
#[derive(Debug, Drop, PartialEq, Eq)]
pub struct SupplyMediumInfo {
    /// The medium: 1 printed, 2 photocopy, 3 microform, 4 film or video, 5 audio, 6
    /// machine-readable, 7 other (row 0).
    pub supply_medium_type: i64,
    /// The demands on the medium (row 1).
    pub medium_characteristics: Option<IllString>,
}

impl Node for SupplyMediumInfo {
    ghost use Rattle.ill_tables.specs.declared.node.NodeId.TheVariants.{SupplyMediumInfo as TheNode};
    ghost use Rattle.ill_parts.specs.Views.{supply_medium_info_rows};

    ghost NODE = { TheNode };

    ghost entries = { supply_medium_info_rows };

    const NODE: NodeId = NodeId::SupplyMediumInfo;
}

#[tactic(auto, unfolding(crate::specs::Views::supply_medium_info))]
impl Part for SupplyMediumInfo {
    ghost use Rattle.ill_tables.specs.declared.node.NodeId.TheVariants.{SupplyMediumInfo as TheNode};
    ghost use Rattle.ill_parts.specs.Shape.{Is};
    ghost use Rattle.ill_parts.specs.Views.{supply_medium_info};

    ghost content = { supply_medium_info };

    ghost accepts = { Is TheNode };

    fn to_value(&self, alloc: Global) -> Result<Value, AllocError> {
        let entries = [
            required_value(alloc, &self.supply_medium_type),
            optional_value(alloc, &self.medium_characteristics),
        ];
        sequence(alloc, self, entries)
    }

    fn read(alloc: Global, value: &Value) -> Result<Self, AllocError> {
        let entries = entries::<Self>(value);
        part_of!(SupplyMediumInfo {
            supply_medium_type: required(alloc, entries, 0),
            medium_characteristics: optional(alloc, entries, 1),
        })
    }
}

impl Typed for SupplyMediumInfo {
    ghost use Rattle.ill_parts.specs.code.Equality.{supply_medium_info_exact};

    ghost is_node = { λ _. (λ fits. fits, λ fits. fits) };

    ghost is_exact = { supply_medium_info_exact };
}

/// The number of units that were supplied in a medium (Units-Per-Medium).
#[derive(Debug, Drop, PartialEq, Eq)]
pub struct UnitsPerMedium {
    /// The medium: 1 printed, 2 photocopy, 3 microform, 4 film or video, 5 audio, 6
    /// machine-readable, 7 other (row 0).
    pub medium: i64,
    /// The number of units (row 1).
    pub no_of_units: i64,
}

impl Node for UnitsPerMedium {
    ghost use Rattle.ill_tables.specs.declared.node.NodeId.TheVariants.{UnitsPerMedium as TheNode};
    ghost use Rattle.ill_parts.specs.Views.{units_per_medium_rows};

    ghost NODE = { TheNode };

    ghost entries = { units_per_medium_rows };

    const NODE: NodeId = NodeId::UnitsPerMedium;
}

#[tactic(auto, unfolding(crate::specs::Views::units_per_medium))]
impl Part for UnitsPerMedium {
    ghost use Rattle.ill_tables.specs.declared.node.NodeId.TheVariants.{UnitsPerMedium as TheNode};
    ghost use Rattle.ill_parts.specs.Shape.{Is};
    ghost use Rattle.ill_parts.specs.Views.{units_per_medium};

    ghost content = { units_per_medium };

    ghost accepts = { Is TheNode };

    fn to_value(&self, alloc: Global) -> Result<Value, AllocError> {
        let entries = [
            required_value(alloc, &self.medium),
            required_value(alloc, &self.no_of_units),
        ];
        sequence(alloc, self, entries)
    }

    fn read(alloc: Global, value: &Value) -> Result<Self, AllocError> {
        let entries = entries::<Self>(value);
        part_of!(UnitsPerMedium {
            medium: required(alloc, entries, 0),
            no_of_units: required(alloc, entries, 1),
        })
    }
}

impl Typed for UnitsPerMedium {
    ghost use Rattle.ill_parts.specs.code.Equality.{units_per_medium_exact};

    ghost is_node = { λ _. (λ fits. fits, λ fits. fits) };

    ghost is_exact = { units_per_medium_exact };
}
