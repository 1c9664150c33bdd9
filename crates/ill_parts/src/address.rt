//! Addresses.
use crate::part::{Node, Part, Typed, entries, optional, optional_value, sequence};
use crate::part_of;
use crate::party::Name;
use ber_leaf::IllString;
use ill_schema::{NodeId, Value};
use std::alloc::{AllocError, Global};

/// An address for mail (Postal-Address).
#[derive(Debug, Drop, PartialEq, Eq)]
pub struct PostalAddress {
    /// Whom the address is for (row 0).
    pub name_of_person_or_institution: Option<Name>,
    /// Further lines, as a department or a floor (row 1).
    pub extended_postal_delivery_address: Option<IllString>,
    /// The street, and the number in it (row 2).
    pub street_and_number: Option<IllString>,
    /// The post office box (row 3).
    pub post_office_box: Option<IllString>,
    /// The city (row 4).
    pub city: Option<IllString>,
    /// The region (row 5).
    pub region: Option<IllString>,
    /// The country (row 6).
    pub country: Option<IllString>,
    /// The postal code (row 7).
    pub postal_code: Option<IllString>,
}

impl Node for PostalAddress {
    ghost use Rattle.ill_tables.specs.declared.node.NodeId.TheVariants.{PostalAddress as TheNode};
    ghost use Rattle.ill_parts.specs.Views.{postal_address_rows};

    ghost NODE = { TheNode };

    ghost entries = { postal_address_rows };

    const NODE: NodeId = NodeId::PostalAddress;
}

#[tactic(auto, unfolding(crate::specs::Views::postal_address))]
impl Part for PostalAddress {
    ghost use Rattle.ill_tables.specs.declared.node.NodeId.TheVariants.{PostalAddress as TheNode};
    ghost use Rattle.ill_parts.specs.Shape.{Is};
    ghost use Rattle.ill_parts.specs.Views.{postal_address};

    ghost content = { postal_address };

    ghost accepts = { Is TheNode };

    fn to_value(&self, alloc: Global) -> Result<Value, AllocError> {
        let entries = [
            optional_value(alloc, &self.name_of_person_or_institution),
            optional_value(alloc, &self.extended_postal_delivery_address),
            optional_value(alloc, &self.street_and_number),
            optional_value(alloc, &self.post_office_box),
            optional_value(alloc, &self.city),
            optional_value(alloc, &self.region),
            optional_value(alloc, &self.country),
            optional_value(alloc, &self.postal_code),
        ];
        sequence(alloc, self, entries)
    }

    fn read(alloc: Global, value: &Value) -> Result<Self, AllocError> {
        let entries = entries::<Self>(value);
        part_of!(PostalAddress {
            name_of_person_or_institution: optional(alloc, entries, 0),
            extended_postal_delivery_address: optional(alloc, entries, 1),
            street_and_number: optional(alloc, entries, 2),
            post_office_box: optional(alloc, entries, 3),
            city: optional(alloc, entries, 4),
            region: optional(alloc, entries, 5),
            country: optional(alloc, entries, 6),
            postal_code: optional(alloc, entries, 7),
        })
    }
}

impl Typed for PostalAddress {
    ghost use Rattle.ill_parts.specs.code.Equality.{postal_address_exact};

    ghost is_node = { λ _. (λ fits. fits, λ fits. fits) };

    ghost is_exact = { postal_address_exact };
}

/// An address in a telecommunication service (System-Address).
#[derive(Debug, Drop, PartialEq, Eq)]
pub struct SystemAddress {
    /// The telecommunication service (row 0).
    pub telecom_service_identifier: Option<IllString>,
    /// The address within the service (row 1).
    pub telecom_service_address: Option<IllString>,
}

impl Node for SystemAddress {
    ghost use Rattle.ill_tables.specs.declared.node.NodeId.TheVariants.{SystemAddress as TheNode};
    ghost use Rattle.ill_parts.specs.Views.{system_address_rows};

    ghost NODE = { TheNode };

    ghost entries = { system_address_rows };

    const NODE: NodeId = NodeId::SystemAddress;
}

#[tactic(auto, unfolding(crate::specs::Views::system_address))]
impl Part for SystemAddress {
    ghost use Rattle.ill_tables.specs.declared.node.NodeId.TheVariants.{SystemAddress as TheNode};
    ghost use Rattle.ill_parts.specs.Shape.{Is};
    ghost use Rattle.ill_parts.specs.Views.{system_address};

    ghost content = { system_address };

    ghost accepts = { Is TheNode };

    fn to_value(&self, alloc: Global) -> Result<Value, AllocError> {
        let entries = [
            optional_value(alloc, &self.telecom_service_identifier),
            optional_value(alloc, &self.telecom_service_address),
        ];
        sequence(alloc, self, entries)
    }

    fn read(alloc: Global, value: &Value) -> Result<Self, AllocError> {
        let entries = entries::<Self>(value);
        part_of!(SystemAddress {
            telecom_service_identifier: optional(alloc, entries, 0),
            telecom_service_address: optional(alloc, entries, 1),
        })
    }
}

impl Typed for SystemAddress {
    ghost use Rattle.ill_parts.specs.code.Equality.{system_address_exact};

    ghost is_node = { λ _. (λ fits. fits, λ fits. fits) };

    ghost is_exact = { system_address_exact };
}

/// The address where something is delivered: one for mail, an electronic one or both
/// (Delivery-Address).
#[derive(Debug, Drop, PartialEq, Eq)]
pub struct DeliveryAddress {
    /// The address for mail (row 0).
    pub postal_address: Option<PostalAddress>,
    /// The address for electronic mail or files (row 1).
    pub electronic_address: Option<SystemAddress>,
}

impl Node for DeliveryAddress {
    ghost use Rattle.ill_tables.specs.declared.node.NodeId.TheVariants.{DeliveryAddress as TheNode};
    ghost use Rattle.ill_parts.specs.Views.{delivery_address_rows};

    ghost NODE = { TheNode };

    ghost entries = { delivery_address_rows };

    const NODE: NodeId = NodeId::DeliveryAddress;
}

#[tactic(auto, unfolding(crate::specs::Views::delivery_address))]
impl Part for DeliveryAddress {
    ghost use Rattle.ill_tables.specs.declared.node.NodeId.TheVariants.{DeliveryAddress as TheNode};
    ghost use Rattle.ill_parts.specs.Shape.{Is};
    ghost use Rattle.ill_parts.specs.Views.{delivery_address};

    ghost content = { delivery_address };

    ghost accepts = { Is TheNode };

    fn to_value(&self, alloc: Global) -> Result<Value, AllocError> {
        let entries = [
            optional_value(alloc, &self.postal_address),
            optional_value(alloc, &self.electronic_address),
        ];
        sequence(alloc, self, entries)
    }

    fn read(alloc: Global, value: &Value) -> Result<Self, AllocError> {
        let entries = entries::<Self>(value);
        part_of!(DeliveryAddress {
            postal_address: optional(alloc, entries, 0),
            electronic_address: optional(alloc, entries, 1),
        })
    }
}

impl Typed for DeliveryAddress {
    ghost use Rattle.ill_parts.specs.code.Equality.{delivery_address_exact};

    ghost is_node = { λ _. (λ fits. fits, λ fits. fits) };

    ghost is_exact = { delivery_address_exact };
}
