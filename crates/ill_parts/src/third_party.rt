//! Third-Party-Info-Type: the rights of third parties.
use crate::address::SystemAddress;
use crate::part::{
    Node, Part, Typed, entries, optional, optional_value, required, required_value, sequence,
};
use crate::part_of;
use crate::party::SystemId;
use ber_leaf::IllString;
use ill_schema::{NodeId, Value};
use std::alloc::{AllocError, Global};

/// A library to which the request may go (Send-To).
#[derive(Debug, Drop, PartialEq, Eq)]
pub struct SendTo {
    /// The library (row 0).
    pub system_id: SystemId,
    /// The account that the requester has there (row 1).
    pub account_number: Option<IllString>,
    /// Its address (row 2).
    pub system_address: Option<SystemAddress>,
}

impl Node for SendTo {
    ghost use Rattle.ill_tables.specs.declared.node.NodeId.TheVariants.{SendTo as TheNode};
    ghost use Rattle.ill_parts.specs.Views.{send_to_rows};

    ghost NODE = { TheNode };

    ghost entries = { send_to_rows };

    const NODE: NodeId = NodeId::SendTo;
}

#[tactic(auto, unfolding(crate::specs::Views::send_to))]
impl Part for SendTo {
    ghost use Rattle.ill_tables.specs.declared.node.NodeId.TheVariants.{SendTo as TheNode};
    ghost use Rattle.ill_parts.specs.Shape.{Is};
    ghost use Rattle.ill_parts.specs.Views.{send_to};

    ghost content = { send_to };

    ghost accepts = { Is TheNode };

    fn to_value(&self, alloc: Global) -> Result<Value, AllocError> {
        let entries = [
            required_value(alloc, &self.system_id),
            optional_value(alloc, &self.account_number),
            optional_value(alloc, &self.system_address),
        ];
        sequence(alloc, self, entries)
    }

    fn read(alloc: Global, value: &Value) -> Result<Self, AllocError> {
        let entries = entries::<Self>(value);
        part_of!(SendTo {
            system_id: required(alloc, entries, 0),
            account_number: optional(alloc, entries, 1),
            system_address: optional(alloc, entries, 2),
        })
    }
}

impl Typed for SendTo {
    ghost use Rattle.ill_parts.specs.code.Equality.{send_to_exact};

    ghost is_node = { λ _. (λ fits. fits, λ fits. fits) };

    ghost is_exact = { send_to_exact };
}

/// The things that an intermediary may do with the request, and the parties that it may ask (Third-Party-Info).
#[derive(Debug, Drop, PartialEq, Eq)]
pub struct ThirdPartyInfo {
    /// True if the request may be forwarded (row 0, by default false).
    pub permission_to_forward: bool,
    /// True if it may be chained (row 1, by default false).
    pub permission_to_chain: bool,
    /// True if it may be partitioned (row 2, by default false).
    pub permission_to_partition: bool,
    /// True if the list of those to ask may be changed (row 3, by default false).
    pub permission_to_change_send_to_list: bool,
    /// The address of the party that began the transaction (row 4).
    pub initial_requester_address: Option<SystemAddress>,
    /// The order of those to ask: 1 ordered, 2 unordered (row 5, by default 2).
    pub preference: i64,
    /// Those to ask (row 6).
    pub send_to_list: Option<Vec<SendTo>>,
    /// Who was asked before (row 7).
    pub already_tried_list: Option<Vec<SystemId>>,
}

impl Node for ThirdPartyInfo {
    ghost use Rattle.ill_tables.specs.declared.node.NodeId.TheVariants.{ThirdPartyInfo as TheNode};
    ghost use Rattle.ill_parts.specs.Views.{third_party_info_rows};

    ghost NODE = { TheNode };

    ghost entries = { third_party_info_rows };

    const NODE: NodeId = NodeId::ThirdPartyInfo;
}

#[tactic(auto, unfolding(crate::specs::Views::third_party_info))]
impl Part for ThirdPartyInfo {
    ghost use Rattle.ill_tables.specs.declared.node.NodeId.TheVariants.{ThirdPartyInfo as TheNode};
    ghost use Rattle.ill_parts.specs.Shape.{Is};
    ghost use Rattle.ill_parts.specs.Views.{third_party_info};

    ghost content = { third_party_info };

    ghost accepts = { Is TheNode };

    fn to_value(&self, alloc: Global) -> Result<Value, AllocError> {
        let entries = [
            required_value(alloc, &self.permission_to_forward),
            required_value(alloc, &self.permission_to_chain),
            required_value(alloc, &self.permission_to_partition),
            required_value(alloc, &self.permission_to_change_send_to_list),
            optional_value(alloc, &self.initial_requester_address),
            required_value(alloc, &self.preference),
            optional_value(alloc, &self.send_to_list),
            optional_value(alloc, &self.already_tried_list),
        ];
        sequence(alloc, self, entries)
    }

    fn read(alloc: Global, value: &Value) -> Result<Self, AllocError> {
        let entries = entries::<Self>(value);
        part_of!(ThirdPartyInfo {
            permission_to_forward: required(alloc, entries, 0),
            permission_to_chain: required(alloc, entries, 1),
            permission_to_partition: required(alloc, entries, 2),
            permission_to_change_send_to_list: required(alloc, entries, 3),
            initial_requester_address: optional(alloc, entries, 4),
            preference: required(alloc, entries, 5),
            send_to_list: optional(alloc, entries, 6),
            already_tried_list: optional(alloc, entries, 7),
        })
    }
}

impl Typed for ThirdPartyInfo {
    ghost use Rattle.ill_parts.specs.code.Equality.{third_party_info_exact};

    ghost is_node = { λ _. (λ fits. fits, λ fits. fits) };

    ghost is_exact = { third_party_info_exact };
}
