//! ILL-REQUEST.
use ber_leaf::IllString;
use ill_parts::{
    ClientId, CostInfo, DeliveryAddress, DeliveryService, Head, ItemId, Node, Part,
    RequesterOptionalMessages, SearchType, SupplyMediumInfo, ThirdPartyInfo, Typed, entries,
    headed, optional, optional_value, part_of, read_head, required, required_value,
};
use ill_schema::{NodeId, Value};
use std::alloc::{AllocError, Global};

/// ILL-REQUEST: the requester asks for an item or its locations (APDU 1).
///
/// `responder-specific-service` (row 10), `supplemental-item-description` (row 17) and
/// `ill-request-extensions` (row 25) are left out.
#[derive(Debug, Drop, PartialEq, Eq)]
pub struct IllRequest {
    /// The rows that each APDU begins with (rows 0 to 4).
    pub head: Head,
    /// The type of transaction: 1 simple, 2 chained, 3 partitioned (row 5, by default 1).
    pub transaction_type: i64,
    /// The address that the item goes to (row 6).
    pub delivery_address: Option<DeliveryAddress>,
    /// The service by which it is to be delivered (row 7).
    pub delivery_service: Option<DeliveryService>,
    /// The address that the bill goes to (row 8).
    pub billing_address: Option<DeliveryAddress>,
    /// The services that are asked for, the first choice first: 1 loan, 2 copy that is not
    /// returned, 3 locations, 4 estimate, 5 specific to the responder (row 9).
    pub ill_service_type: Vec<i64>,
    /// The optional messages that the requester can send or wants (row 11).
    pub requester_optional_messages: RequesterOptionalMessages,
    /// The extent of the search, and its end (row 12).
    pub search_type: Option<SearchType>,
    /// The media that are accepted (row 13).
    pub supply_medium_info_type: Option<Vec<SupplyMediumInfo>>,
    /// The wish for a hold: 1 yes, 2 no, 3 by the policy of the responder (row 14, by
    /// default 3).
    pub place_on_hold: i64,
    /// The person for whom it is (row 15).
    pub client_id: Option<ClientId>,
    /// The item that is asked for (row 16).
    pub item_id: ItemId,
    /// The sum that the requester will pay (row 18).
    pub cost_info_type: Option<CostInfo>,
    /// The rule of copyright that the request keeps (row 19).
    pub copyright_compliance: Option<IllString>,
    /// The things that an intermediary may do (row 20).
    pub third_party_info_type: Option<ThirdPartyInfo>,
    /// True if it is sent again after RETRY (row 21, by default false).
    pub retry_flag: bool,
    /// True if it was forwarded (row 22, by default false).
    pub forward_flag: bool,
    /// A note of the requester (row 23).
    pub requester_note: Option<IllString>,
    /// A note of the one who forwards it (row 24).
    pub forward_note: Option<IllString>,
}

impl Node for IllRequest {
    ghost use Rattle.ill_tables.specs.declared.node.NodeId.TheVariants.{IllRequest as TheNode};
    ghost use Rattle.ill_apdu.specs.Views.{ill_request_rows};

    ghost NODE = { TheNode };

    ghost entries = { ill_request_rows };

    const NODE: NodeId = NodeId::IllRequest;
}

#[tactic(auto, unfolding(crate::specs::Views::ill_request))]
impl Part for IllRequest {
    ghost use Rattle.ill_tables.specs.declared.node.NodeId.TheVariants.{IllRequest as TheNode};
    ghost use Rattle.ill_parts.specs.Shape.{Is};
    ghost use Rattle.ill_apdu.specs.Views.{ill_request};

    ghost content = { ill_request };

    ghost accepts = { Is TheNode };

    fn to_value(&self, alloc: Global) -> Result<Value, AllocError> {
        let others = [
            required_value(alloc, &self.transaction_type),
            optional_value(alloc, &self.delivery_address),
            optional_value(alloc, &self.delivery_service),
            optional_value(alloc, &self.billing_address),
            required_value(alloc, &self.ill_service_type),
            Ok(None),
            required_value(alloc, &self.requester_optional_messages),
            optional_value(alloc, &self.search_type),
            optional_value(alloc, &self.supply_medium_info_type),
            required_value(alloc, &self.place_on_hold),
            optional_value(alloc, &self.client_id),
            required_value(alloc, &self.item_id),
            Ok(None),
            optional_value(alloc, &self.cost_info_type),
            optional_value(alloc, &self.copyright_compliance),
            optional_value(alloc, &self.third_party_info_type),
            required_value(alloc, &self.retry_flag),
            required_value(alloc, &self.forward_flag),
            optional_value(alloc, &self.requester_note),
            optional_value(alloc, &self.forward_note),
            Ok(None),
        ];
        headed(alloc, self, &self.head, others)
    }

    fn read(alloc: Global, value: &Value) -> Result<Self, AllocError> {
        let entries = entries::<Self>(value);
        part_of!(IllRequest {
            head: read_head(alloc, entries),
            transaction_type: required(alloc, entries, 5),
            delivery_address: optional(alloc, entries, 6),
            delivery_service: optional(alloc, entries, 7),
            billing_address: optional(alloc, entries, 8),
            ill_service_type: required(alloc, entries, 9),
            requester_optional_messages: required(alloc, entries, 11);
            search_type: optional(alloc, entries, 12),
            supply_medium_info_type: optional(alloc, entries, 13),
            place_on_hold: required(alloc, entries, 14),
            client_id: optional(alloc, entries, 15),
            item_id: required(alloc, entries, 16),
            cost_info_type: optional(alloc, entries, 18),
            copyright_compliance: optional(alloc, entries, 19);
            third_party_info_type: optional(alloc, entries, 20),
            retry_flag: required(alloc, entries, 21),
            forward_flag: required(alloc, entries, 22),
            requester_note: optional(alloc, entries, 23),
            forward_note: optional(alloc, entries, 24),
        })
    }
}

impl Typed for IllRequest {
    ghost use Rattle.ill_apdu.specs.code.Equality.{ill_request_exact};

    ghost is_node = { λ _. (λ fits. fits, λ fits. fits) };

    ghost is_exact = { ill_request_exact };
}
