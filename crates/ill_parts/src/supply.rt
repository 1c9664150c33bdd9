//! Parts about the supply of an item.
use crate::cost::Amount;
use crate::delivery::ShippedVia;
use crate::medium::UnitsPerMedium;
use crate::part::{
    Node, Part, Typed, entries, optional, optional_value, required, required_value, sequence,
};
use crate::part_of;
use ber_leaf::DateText;
use ill_schema::{NodeId, Value};
use std::alloc::{AllocError, Global};

/// The date when an item is due back (Date-Due).
#[derive(Debug, Drop, PartialEq, Eq)]
pub struct DateDue {
    /// The day (row 0).
    pub date_due_field: DateText,
    /// True if the loan can be renewed (row 1, by default true).
    pub renewable: bool,
}

impl Node for DateDue {
    ghost use Rattle.ill_tables.specs.declared.node.NodeId.TheVariants.{DateDue as TheNode};
    ghost use Rattle.ill_parts.specs.Views.{date_due_rows};

    ghost NODE = { TheNode };

    ghost entries = { date_due_rows };

    const NODE: NodeId = NodeId::DateDue;
}

#[tactic(auto, unfolding(crate::specs::Views::date_due))]
impl Part for DateDue {
    ghost use Rattle.ill_tables.specs.declared.node.NodeId.TheVariants.{DateDue as TheNode};
    ghost use Rattle.ill_parts.specs.Shape.{Is};
    ghost use Rattle.ill_parts.specs.Views.{date_due};

    ghost content = { date_due };

    ghost accepts = { Is TheNode };

    fn to_value(&self, alloc: Global) -> Result<Value, AllocError> {
        let entries = [
            required_value(alloc, &self.date_due_field),
            required_value(alloc, &self.renewable),
        ];
        sequence(alloc, self, entries)
    }

    fn read(alloc: Global, value: &Value) -> Result<Self, AllocError> {
        let entries = entries::<Self>(value);
        part_of!(DateDue {
            date_due_field: required(alloc, entries, 0),
            renewable: required(alloc, entries, 1),
        })
    }
}

impl Typed for DateDue {
    ghost use Rattle.ill_parts.specs.code.Equality.{date_due_exact};

    ghost is_node = { λ _. (λ fits. fits, λ fits. fits) };

    ghost is_exact = { date_due_exact };
}

/// The details of what was supplied, how, at what cost and until when (Supply-Details).
#[derive(Debug, Drop, PartialEq, Eq)]
pub struct SupplyDetails {
    /// The day on which it was sent (row 0).
    pub date_shipped: Option<DateText>,
    /// The date when it is due back (row 1).
    pub date_due: Option<DateDue>,
    /// The number of units that are charged (row 2).
    pub chargeable_units: Option<i64>,
    /// The cost (row 3).
    pub cost: Option<Amount>,
    /// The condition of use, by its number (row 4).
    pub shipped_conditions: Option<i64>,
    /// The service by which it was sent (row 5).
    pub shipped_via: Option<ShippedVia>,
    /// For how much it is insured (row 6).
    pub insured_for: Option<Amount>,
    /// For how much it has to be insured on its way back (row 7).
    pub return_insurance_require: Option<Amount>,
    /// The number of units of each medium that were sent (row 8).
    pub no_of_units_per_medium: Option<Vec<UnitsPerMedium>>,
}

impl Node for SupplyDetails {
    ghost use Rattle.ill_tables.specs.declared.node.NodeId.TheVariants.{SupplyDetails as TheNode};
    ghost use Rattle.ill_parts.specs.Views.{supply_details_rows};

    ghost NODE = { TheNode };

    ghost entries = { supply_details_rows };

    const NODE: NodeId = NodeId::SupplyDetails;
}

#[tactic(auto, unfolding(crate::specs::Views::supply_details))]
impl Part for SupplyDetails {
    ghost use Rattle.ill_tables.specs.declared.node.NodeId.TheVariants.{SupplyDetails as TheNode};
    ghost use Rattle.ill_parts.specs.Shape.{Is};
    ghost use Rattle.ill_parts.specs.Views.{supply_details};

    ghost content = { supply_details };

    ghost accepts = { Is TheNode };

    fn to_value(&self, alloc: Global) -> Result<Value, AllocError> {
        let entries = [
            optional_value(alloc, &self.date_shipped),
            optional_value(alloc, &self.date_due),
            optional_value(alloc, &self.chargeable_units),
            optional_value(alloc, &self.cost),
            optional_value(alloc, &self.shipped_conditions),
            optional_value(alloc, &self.shipped_via),
            optional_value(alloc, &self.insured_for),
            optional_value(alloc, &self.return_insurance_require),
            optional_value(alloc, &self.no_of_units_per_medium),
        ];
        sequence(alloc, self, entries)
    }

    fn read(alloc: Global, value: &Value) -> Result<Self, AllocError> {
        let entries = entries::<Self>(value);
        part_of!(SupplyDetails {
            date_shipped: optional(alloc, entries, 0),
            date_due: optional(alloc, entries, 1),
            chargeable_units: optional(alloc, entries, 2),
            cost: optional(alloc, entries, 3),
            shipped_conditions: optional(alloc, entries, 4),
            shipped_via: optional(alloc, entries, 5),
            insured_for: optional(alloc, entries, 6),
            return_insurance_require: optional(alloc, entries, 7),
            no_of_units_per_medium: optional(alloc, entries, 8),
        })
    }
}

impl Typed for SupplyDetails {
    ghost use Rattle.ill_parts.specs.code.Equality.{supply_details_exact};

    ghost is_node = { λ _. (λ fits. fits, λ fits. fits) };

    ghost is_exact = { supply_details_exact };
}
