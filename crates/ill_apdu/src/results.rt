//! Results of an answer.
use crate::location::{LocationInfo, Locations};
use ber_leaf::{DateText, IllString};
use ill_parts::{
    Node, Part, PostalAddress, Typed, alternative, chosen, entries, optional, optional_value,
    part_of, required, required_value, sequence,
};
use ill_schema::{NodeId, Value};
use std::alloc::{AllocError, Global};

/// The responder would supply the item under conditions (Conditional).
#[derive(Debug, Drop, PartialEq, Eq)]
pub struct Conditional {
    /// The condition, by its number (row 0).
    pub conditions: i64,
    /// The day by which the requester has to answer (row 1).
    pub date_for_reply: Option<DateText>,
    /// Other places where it may be had (row 2).
    pub location_list: Option<Vec<LocationInfo>>,
}

impl Node for Conditional {
    ghost use Rattle.ill_tables.specs.declared.node.NodeId.TheVariants.{Conditional as TheNode};
    ghost use Rattle.ill_apdu.specs.Views.{conditional_rows};

    ghost NODE = { TheNode };

    ghost entries = { conditional_rows };

    const NODE: NodeId = NodeId::Conditional;
}

#[tactic(auto, unfolding(crate::specs::Views::conditional))]
impl Part for Conditional {
    ghost use Rattle.ill_tables.specs.declared.node.NodeId.TheVariants.{Conditional as TheNode};
    ghost use Rattle.ill_parts.specs.Shape.{Is};
    ghost use Rattle.ill_apdu.specs.Views.{conditional};

    ghost content = { conditional };

    ghost accepts = { Is TheNode };

    fn to_value(&self, alloc: Global) -> Result<Value, AllocError> {
        let entries = [
            required_value(alloc, &self.conditions),
            optional_value(alloc, &self.date_for_reply),
            optional_value(alloc, &self.location_list),
        ];
        sequence(alloc, self, entries)
    }

    fn read(alloc: Global, value: &Value) -> Result<Self, AllocError> {
        let entries = entries::<Self>(value);
        part_of!(Conditional {
            conditions: required(alloc, entries, 0),
            date_for_reply: optional(alloc, entries, 1),
            location_list: optional(alloc, entries, 2),
        })
    }
}

impl Typed for Conditional {
    ghost use Rattle.ill_apdu.specs.code.Equality.{conditional_exact};

    ghost is_node = { λ _. (λ fits. fits, λ fits. fits) };

    ghost is_exact = { conditional_exact };
}

/// The responder may supply the item later (Retry).
#[derive(Debug, Drop, PartialEq, Eq)]
pub struct Retry {
    /// The reason why it isn't at hand, by the number of the reason (row 0).
    pub reason_not_available: Option<i64>,
    /// The day from which to ask again (row 1).
    pub retry_date: Option<DateText>,
    /// Other places where it may be had (row 2).
    pub location_list: Option<Vec<LocationInfo>>,
}

impl Node for Retry {
    ghost use Rattle.ill_tables.specs.declared.node.NodeId.TheVariants.{Retry as TheNode};
    ghost use Rattle.ill_apdu.specs.Views.{retry_rows};

    ghost NODE = { TheNode };

    ghost entries = { retry_rows };

    const NODE: NodeId = NodeId::Retry;
}

#[tactic(auto, unfolding(crate::specs::Views::retry))]
impl Part for Retry {
    ghost use Rattle.ill_tables.specs.declared.node.NodeId.TheVariants.{Retry as TheNode};
    ghost use Rattle.ill_parts.specs.Shape.{Is};
    ghost use Rattle.ill_apdu.specs.Views.{retry};

    ghost content = { retry };

    ghost accepts = { Is TheNode };

    fn to_value(&self, alloc: Global) -> Result<Value, AllocError> {
        let entries = [
            optional_value(alloc, &self.reason_not_available),
            optional_value(alloc, &self.retry_date),
            optional_value(alloc, &self.location_list),
        ];
        sequence(alloc, self, entries)
    }

    fn read(alloc: Global, value: &Value) -> Result<Self, AllocError> {
        let entries = entries::<Self>(value);
        part_of!(Retry {
            reason_not_available: optional(alloc, entries, 0),
            retry_date: optional(alloc, entries, 1),
            location_list: optional(alloc, entries, 2),
        })
    }
}

impl Typed for Retry {
    ghost use Rattle.ill_apdu.specs.code.Equality.{retry_exact};

    ghost is_node = { λ _. (λ fits. fits, λ fits. fits) };

    ghost is_exact = { retry_exact };
}

/// The responder can't supply the item (Unfilled).
#[derive(Debug, Drop, PartialEq, Eq)]
pub struct Unfilled {
    /// The number of the reason (row 0).
    pub reason_unfilled: i64,
    /// Other places where it may be had (row 1).
    pub location_list: Option<Vec<LocationInfo>>,
}

impl Node for Unfilled {
    ghost use Rattle.ill_tables.specs.declared.node.NodeId.TheVariants.{Unfilled as TheNode};
    ghost use Rattle.ill_apdu.specs.Views.{unfilled_rows};

    ghost NODE = { TheNode };

    ghost entries = { unfilled_rows };

    const NODE: NodeId = NodeId::Unfilled;
}

#[tactic(auto, unfolding(crate::specs::Views::unfilled))]
impl Part for Unfilled {
    ghost use Rattle.ill_tables.specs.declared.node.NodeId.TheVariants.{Unfilled as TheNode};
    ghost use Rattle.ill_parts.specs.Shape.{Is};
    ghost use Rattle.ill_apdu.specs.Views.{unfilled};

    ghost content = { unfilled };

    ghost accepts = { Is TheNode };

    fn to_value(&self, alloc: Global) -> Result<Value, AllocError> {
        let entries = [
            required_value(alloc, &self.reason_unfilled),
            optional_value(alloc, &self.location_list),
        ];
        sequence(alloc, self, entries)
    }

    fn read(alloc: Global, value: &Value) -> Result<Self, AllocError> {
        let entries = entries::<Self>(value);
        part_of!(Unfilled {
            reason_unfilled: required(alloc, entries, 0),
            location_list: optional(alloc, entries, 1),
        })
    }
}

impl Typed for Unfilled {
    ghost use Rattle.ill_apdu.specs.code.Equality.{unfilled_exact};

    ghost is_node = { λ _. (λ fits. fits, λ fits. fits) };

    ghost is_exact = { unfilled_exact };
}

/// The responder will supply the item later (Will-Supply).
///
/// `electronic-delivery-service` (row 4) is left out.
#[derive(Debug, Drop, PartialEq, Eq)]
pub struct WillSupply {
    /// The reason why not now, by the number of the reason (row 0).
    pub reason_will_supply: i64,
    /// The day on which it will be sent (row 1).
    pub supply_date: Option<DateText>,
    /// The address that the item has to be returned to (row 2).
    pub return_to_address: Option<PostalAddress>,
    /// Other places where it may be had (row 3).
    pub location_list: Option<Vec<LocationInfo>>,
}

impl Node for WillSupply {
    ghost use Rattle.ill_tables.specs.declared.node.NodeId.TheVariants.{WillSupply as TheNode};
    ghost use Rattle.ill_apdu.specs.Views.{will_supply_rows};

    ghost NODE = { TheNode };

    ghost entries = { will_supply_rows };

    const NODE: NodeId = NodeId::WillSupply;
}

#[tactic(auto, unfolding(crate::specs::Views::will_supply))]
impl Part for WillSupply {
    ghost use Rattle.ill_tables.specs.declared.node.NodeId.TheVariants.{WillSupply as TheNode};
    ghost use Rattle.ill_parts.specs.Shape.{Is};
    ghost use Rattle.ill_apdu.specs.Views.{will_supply};

    ghost content = { will_supply };

    ghost accepts = { Is TheNode };

    fn to_value(&self, alloc: Global) -> Result<Value, AllocError> {
        let entries = [
            required_value(alloc, &self.reason_will_supply),
            optional_value(alloc, &self.supply_date),
            optional_value(alloc, &self.return_to_address),
            optional_value(alloc, &self.location_list),
            Ok(None),
        ];
        sequence(alloc, self, entries)
    }

    fn read(alloc: Global, value: &Value) -> Result<Self, AllocError> {
        let entries = entries::<Self>(value);
        part_of!(WillSupply {
            reason_will_supply: required(alloc, entries, 0),
            supply_date: optional(alloc, entries, 1),
            return_to_address: optional(alloc, entries, 2),
            location_list: optional(alloc, entries, 3),
        })
    }
}

impl Typed for WillSupply {
    ghost use Rattle.ill_apdu.specs.code.Equality.{will_supply_exact};

    ghost is_node = { λ _. (λ fits. fits, λ fits. fits) };

    ghost is_exact = { will_supply_exact };
}

/// The responder has placed a hold on the item (Hold-Placed).
#[derive(Debug, Drop, PartialEq, Eq)]
pub struct HoldPlaced {
    /// The day from which it is expected to be at hand (row 0).
    pub estimated_date_available: DateText,
    /// The medium of what is held: 1 printed, 3 microform, 4 film or video, 5 audio, 6
    /// machine-readable, 7 other (row 1).
    pub hold_placed_medium_type: Option<i64>,
    /// Other places where it may be had (row 2).
    pub location_list: Option<Vec<LocationInfo>>,
}

impl Node for HoldPlaced {
    ghost use Rattle.ill_tables.specs.declared.node.NodeId.TheVariants.{HoldPlaced as TheNode};
    ghost use Rattle.ill_apdu.specs.Views.{hold_placed_rows};

    ghost NODE = { TheNode };

    ghost entries = { hold_placed_rows };

    const NODE: NodeId = NodeId::HoldPlaced;
}

#[tactic(auto, unfolding(crate::specs::Views::hold_placed))]
impl Part for HoldPlaced {
    ghost use Rattle.ill_tables.specs.declared.node.NodeId.TheVariants.{HoldPlaced as TheNode};
    ghost use Rattle.ill_parts.specs.Shape.{Is};
    ghost use Rattle.ill_apdu.specs.Views.{hold_placed};

    ghost content = { hold_placed };

    ghost accepts = { Is TheNode };

    fn to_value(&self, alloc: Global) -> Result<Value, AllocError> {
        let entries = [
            required_value(alloc, &self.estimated_date_available),
            optional_value(alloc, &self.hold_placed_medium_type),
            optional_value(alloc, &self.location_list),
        ];
        sequence(alloc, self, entries)
    }

    fn read(alloc: Global, value: &Value) -> Result<Self, AllocError> {
        let entries = entries::<Self>(value);
        part_of!(HoldPlaced {
            estimated_date_available: required(alloc, entries, 0),
            hold_placed_medium_type: optional(alloc, entries, 1),
            location_list: optional(alloc, entries, 2),
        })
    }
}

impl Typed for HoldPlaced {
    ghost use Rattle.ill_apdu.specs.code.Equality.{hold_placed_exact};

    ghost is_node = { λ _. (λ fits. fits, λ fits. fits) };

    ghost is_exact = { hold_placed_exact };
}

/// The estimated cost of supplying the item (Estimate).
#[derive(Debug, Drop, PartialEq, Eq)]
pub struct Estimate {
    /// The cost (row 0).
    pub cost_estimate: IllString,
    /// Other places where it may be had (row 1).
    pub location_list: Option<Vec<LocationInfo>>,
}

impl Node for Estimate {
    ghost use Rattle.ill_tables.specs.declared.node.NodeId.TheVariants.{Estimate as TheNode};
    ghost use Rattle.ill_apdu.specs.Views.{estimate_rows};

    ghost NODE = { TheNode };

    ghost entries = { estimate_rows };

    const NODE: NodeId = NodeId::Estimate;
}

#[tactic(auto, unfolding(crate::specs::Views::estimate))]
impl Part for Estimate {
    ghost use Rattle.ill_tables.specs.declared.node.NodeId.TheVariants.{Estimate as TheNode};
    ghost use Rattle.ill_parts.specs.Shape.{Is};
    ghost use Rattle.ill_apdu.specs.Views.{estimate};

    ghost content = { estimate };

    ghost accepts = { Is TheNode };

    fn to_value(&self, alloc: Global) -> Result<Value, AllocError> {
        let entries = [
            required_value(alloc, &self.cost_estimate),
            optional_value(alloc, &self.location_list),
        ];
        sequence(alloc, self, entries)
    }

    fn read(alloc: Global, value: &Value) -> Result<Self, AllocError> {
        let entries = entries::<Self>(value);
        part_of!(Estimate {
            cost_estimate: required(alloc, entries, 0),
            location_list: optional(alloc, entries, 1),
        })
    }
}

impl Typed for Estimate {
    ghost use Rattle.ill_apdu.specs.code.Equality.{estimate_exact};

    ghost is_node = { λ _. (λ fits. fits, λ fits. fits) };

    ghost is_exact = { estimate_exact };
}

/// The responder's explanation, by the result of its answer (Results).
#[derive(Debug, Drop, PartialEq, Eq)]
pub enum Results {
    /// With result 1 (row 0).
    ConditionalResults(Conditional),
    /// With result 2 (row 1).
    RetryResults(Retry),
    /// With result 3 (row 2).
    UnfilledResults(Unfilled),
    /// With result 4 (row 3).
    LocationsResults(Locations),
    /// With result 5 (row 4).
    WillSupplyResults(WillSupply),
    /// With result 6 (row 5).
    HoldPlacedResults(HoldPlaced),
    /// With result 7 (row 6).
    EstimateResults(Estimate),
}

impl Node for Results {
    ghost use Rattle.ill_tables.specs.declared.node.NodeId.TheVariants.{Results as TheNode};

    ghost NODE = { TheNode };

    const NODE: NodeId = NodeId::Results;
}

#[tactic(auto, unfolding(crate::specs::Views::results))]
impl Part for Results {
    ghost use Rattle.ill_tables.specs.declared.node.NodeId.TheVariants.{Results as TheNode};
    ghost use Rattle.ill_parts.specs.Shape.{Is};
    ghost use Rattle.ill_apdu.specs.Views.{results};

    ghost content = { results };

    ghost accepts = { Is TheNode };

    fn to_value(&self, alloc: Global) -> Result<Value, AllocError> {
        let (row, value) = match self {
            Results::ConditionalResults(part) => (0, part.to_value(alloc)),
            Results::RetryResults(part) => (1, part.to_value(alloc)),
            Results::UnfilledResults(part) => (2, part.to_value(alloc)),
            Results::LocationsResults(part) => (3, part.to_value(alloc)),
            Results::WillSupplyResults(part) => (4, part.to_value(alloc)),
            Results::HoldPlacedResults(part) => (5, part.to_value(alloc)),
            Results::EstimateResults(part) => (6, part.to_value(alloc)),
        };
        alternative::<Self>(alloc, row, value?)
    }

    fn read(alloc: Global, value: &Value) -> Result<Self, AllocError> {
        Ok(match chosen::<Self>(value) {
            (0, part) => Results::ConditionalResults(Part::read(alloc, part)?),
            (1, part) => Results::RetryResults(Part::read(alloc, part)?),
            (2, part) => Results::UnfilledResults(Part::read(alloc, part)?),
            (3, part) => Results::LocationsResults(Part::read(alloc, part)?),
            (4, part) => Results::WillSupplyResults(Part::read(alloc, part)?),
            (5, part) => Results::HoldPlacedResults(Part::read(alloc, part)?),
            (6, part) => Results::EstimateResults(Part::read(alloc, part)?),
            _ => unreachable!(),
        })
    }
}

impl Typed for Results {
    ghost use Rattle.ill_apdu.specs.code.Equality.{results_exact};

    ghost is_node = { λ _. (λ fits. fits, λ fits. fits) };

    ghost is_exact = { results_exact };
}
