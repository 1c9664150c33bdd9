//! Means of delivery.
use crate::part::{Node, Part, Typed, alternative, chosen};
use ber_leaf::IllString;
use ill_schema::{NodeId, Value};
use std::alloc::{AllocError, Global};

/// The service by which the item is to be delivered (Delivery-Service).
///
/// `electronic-delivery` (row 1) is left out.
#[derive(Debug, Drop, PartialEq, Eq)]
pub enum DeliveryService {
    /// By this means of transport (row 0).
    PhysicalDelivery(IllString),
}

impl Node for DeliveryService {
    ghost use Rattle.ill_tables.specs.declared.node.NodeId.TheVariants.{DeliveryService as TheNode};

    ghost NODE = { TheNode };

    const NODE: NodeId = NodeId::DeliveryService;
}

#[tactic(auto, unfolding(crate::specs::Views::delivery_service))]
impl Part for DeliveryService {
    ghost use Rattle.ill_tables.specs.declared.node.NodeId.TheVariants.{DeliveryService as TheNode};
    ghost use Rattle.ill_parts.specs.Shape.{Is};
    ghost use Rattle.ill_parts.specs.Views.{delivery_service};

    ghost content = { delivery_service };

    ghost accepts = { Is TheNode };

    fn to_value(&self, alloc: Global) -> Result<Value, AllocError> {
        let DeliveryService::PhysicalDelivery(part) = self;
        alternative::<Self>(alloc, 0, part.to_value(alloc)?)
    }

    fn read(alloc: Global, value: &Value) -> Result<Self, AllocError> {
        let (_, part) = chosen::<Self>(value);
        Ok(DeliveryService::PhysicalDelivery(Part::read(alloc, part)?))
    }
}

impl Typed for DeliveryService {
    ghost use Rattle.ill_parts.specs.code.Equality.{delivery_service_exact};

    ghost is_node = { λ _. (λ fits. fits, λ fits. fits) };

    ghost is_exact = { delivery_service_exact };
}

/// The service by which the item was sent (Shipped-Via).
///
/// `electronic-delivery` (row 1) is left out.
#[derive(Debug, Drop, PartialEq, Eq)]
pub enum ShippedVia {
    /// By this means of transport (row 0).
    PhysicalDelivery(IllString),
}

impl Node for ShippedVia {
    ghost use Rattle.ill_tables.specs.declared.node.NodeId.TheVariants.{ShippedVia as TheNode};

    ghost NODE = { TheNode };

    const NODE: NodeId = NodeId::ShippedVia;
}

#[tactic(auto, unfolding(crate::specs::Views::shipped_via))]
impl Part for ShippedVia {
    ghost use Rattle.ill_tables.specs.declared.node.NodeId.TheVariants.{ShippedVia as TheNode};
    ghost use Rattle.ill_parts.specs.Shape.{Is};
    ghost use Rattle.ill_parts.specs.Views.{shipped_via};

    ghost content = { shipped_via };

    ghost accepts = { Is TheNode };

    fn to_value(&self, alloc: Global) -> Result<Value, AllocError> {
        let ShippedVia::PhysicalDelivery(part) = self;
        alternative::<Self>(alloc, 0, part.to_value(alloc)?)
    }

    fn read(alloc: Global, value: &Value) -> Result<Self, AllocError> {
        let (_, part) = chosen::<Self>(value);
        Ok(ShippedVia::PhysicalDelivery(Part::read(alloc, part)?))
    }
}

impl Typed for ShippedVia {
    ghost use Rattle.ill_parts.specs.code.Equality.{shipped_via_exact};

    ghost is_node = { λ _. (λ fits. fits, λ fits. fits) };

    ghost is_exact = { shipped_via_exact };
}
