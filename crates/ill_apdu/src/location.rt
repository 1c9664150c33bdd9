//! Places where an item may be had.
use ber_leaf::IllString;
use ill_parts::{
    Node, Part, SystemAddress, SystemId, Typed, entries, optional, optional_value, part_of,
    required, required_value, sequence,
};
use ill_schema::{NodeId, Value};
use std::alloc::{AllocError, Global};

/// A place where the item may be had (Location-Info).
#[derive(Debug, Drop, PartialEq, Eq)]
pub struct LocationInfo {
    /// The library (row 0).
    pub location_id: SystemId,
    /// Its address (row 1).
    pub location_address: Option<SystemAddress>,
    /// A note on the place (row 2).
    pub location_note: Option<IllString>,
}

impl Node for LocationInfo {
    ghost use Rattle.ill_tables.specs.declared.node.NodeId.TheVariants.{LocationInfo as TheNode};
    ghost use Rattle.ill_apdu.specs.Views.{location_info_rows};

    ghost NODE = { TheNode };

    ghost entries = { location_info_rows };

    const NODE: NodeId = NodeId::LocationInfo;
}

#[tactic(auto, unfolding(crate::specs::Views::location_info))]
impl Part for LocationInfo {
    ghost use Rattle.ill_tables.specs.declared.node.NodeId.TheVariants.{LocationInfo as TheNode};
    ghost use Rattle.ill_parts.specs.Shape.{Is};
    ghost use Rattle.ill_apdu.specs.Views.{location_info};

    ghost content = { location_info };

    ghost accepts = { Is TheNode };

    fn to_value(&self, alloc: Global) -> Result<Value, AllocError> {
        let entries = [
            required_value(alloc, &self.location_id),
            optional_value(alloc, &self.location_address),
            optional_value(alloc, &self.location_note),
        ];
        sequence(alloc, self, entries)
    }

    fn read(alloc: Global, value: &Value) -> Result<Self, AllocError> {
        let entries = entries::<Self>(value);
        part_of!(LocationInfo {
            location_id: required(alloc, entries, 0),
            location_address: optional(alloc, entries, 1),
            location_note: optional(alloc, entries, 2),
        })
    }
}

impl Typed for LocationInfo {
    ghost use Rattle.ill_apdu.specs.code.Equality.{location_info_exact};

    ghost is_node = { λ _. (λ fits. fits, λ fits. fits) };

    ghost is_exact = { location_info_exact };
}

/// The responder names places where the item may be had (Locations).
#[derive(Debug, Drop, PartialEq, Eq)]
pub struct Locations {
    /// The reason why only places are given, by the number of the reason (row 0).
    pub reason_locs_provided: Option<i64>,
    /// The places (row 1).
    pub location_list: Vec<LocationInfo>,
}

impl Node for Locations {
    ghost use Rattle.ill_tables.specs.declared.node.NodeId.TheVariants.{Locations as TheNode};
    ghost use Rattle.ill_apdu.specs.Views.{locations_rows};

    ghost NODE = { TheNode };

    ghost entries = { locations_rows };

    const NODE: NodeId = NodeId::Locations;
}

#[tactic(auto, unfolding(crate::specs::Views::locations))]
impl Part for Locations {
    ghost use Rattle.ill_tables.specs.declared.node.NodeId.TheVariants.{Locations as TheNode};
    ghost use Rattle.ill_parts.specs.Shape.{Is};
    ghost use Rattle.ill_apdu.specs.Views.{locations};

    ghost content = { locations };

    ghost accepts = { Is TheNode };

    fn to_value(&self, alloc: Global) -> Result<Value, AllocError> {
        let entries = [
            optional_value(alloc, &self.reason_locs_provided),
            required_value(alloc, &self.location_list),
        ];
        sequence(alloc, self, entries)
    }

    fn read(alloc: Global, value: &Value) -> Result<Self, AllocError> {
        let entries = entries::<Self>(value);
        part_of!(Locations {
            reason_locs_provided: optional(alloc, entries, 0),
            location_list: required(alloc, entries, 1),
        })
    }
}

impl Typed for Locations {
    ghost use Rattle.ill_apdu.specs.code.Equality.{locations_exact};

    ghost is_node = { λ _. (λ fits. fits, λ fits. fits) };

    ghost is_exact = { locations_exact };
}
