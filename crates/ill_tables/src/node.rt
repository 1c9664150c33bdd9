/// The kind of a leaf.
#[derive(Clone, Copy, Debug, PartialEq, Eq)]
pub enum LeafKind {
    Boolean,
    Integer,
    Enumerated,
    Date,
    Time,
    Printable,
    /// NULL. This kind and the four below stand in the module's rows alone.
    Null,
    ObjectIdentifier,
    OctetString,
    BitString,
    ObjectDescriptor,
}

/// Gives the nodes that are leaves to a macro, after what stands in brackets: of each its node, and after `/` the kind of leaf.
#[macro_export]
macro_rules! leaves {
    ($with:ident $given:tt) => {
        $with! { $given
            Boolean / Boolean, Integer / Integer, Enumerated / Enumerated, IsoDate / Date, IsoTime / Time,
            PrintableString / Printable, Null / Null, ObjectIdentifier / ObjectIdentifier,
            OctetString / OctetString, BitString / BitString, ObjectDescriptor / ObjectDescriptor
        }
    };
}

/// The kind of a node.
#[derive(Clone, Copy, Debug, PartialEq, Eq)]
pub enum Kind {
    Seq,
    SeqOf,
    Choice,
    Leaf(LeafKind),
    IllString,
    /// An open type: any one element (X.690, 8.15).
    Any,
}

/// A node of the schema. Its rows name only nodes of lower levels. What the module profile reads in another way than
/// profile 2 is a node of its own, whose name begins with `Module`.
#[derive(Clone, Copy, Debug, PartialEq, Eq)]
pub enum NodeId {
    Boolean,
    Integer,
    Enumerated,
    IsoDate,
    IsoTime,
    PrintableString,
    IllString,
    /// The open type.
    Any,
    LeftOut,
    Symbol,
    Name,
    SystemId,
    TransactionId,
    DateTime,
    ServiceDateTime,
    PostalAddress,
    SystemAddress,
    DeliveryAddress,
    ClientId,
    DeliveryService,
    RequesterOptionalMessages,
    ResponderOptionalMessages,
    SearchType,
    SupplyMediumInfo,
    ItemId,
    Amount,
    CostInfo,
    SendTo,
    SendToList,
    AlreadyTriedList,
    ThirdPartyInfo,
    UnitsPerMedium,
    UnitsPerMediumList,
    DateDue,
    ShippedVia,
    SupplyDetails,
    IllServiceTypes,
    SupplyMediumInfos,
    IllRequest,
    Shipped,
    LocationInfo,
    Locs,
    Conditional,
    Retry,
    Unfilled,
    Locations,
    WillSupply,
    HoldPlaced,
    Estimate,
    Results,
    IllAnswer,
    ConditionalReply,
    Cancel,
    CancelReply,
    Received,
    Recall,
    Returned,
    CheckedIn,
    Overdue,
    Renew,
    RenewAnswer,
    Lost,
    Damaged,
    MessageApdu,
    StatusQuery,
    Expired,
    IllApdu,
    Null,
    ObjectIdentifier,
    OctetString,
    BitString,
    ObjectDescriptor,
    Encoding,
    External,
    TaggedExternal,
    Externals,
    Extension,
    Extensions,
    EDeliveryService,
    DocumentType,
    EDeliveryDetails,
    ElectronicDelivery,
    ElectronicDeliveries,
    SpecificUnits,
    DamagedPortion,
    DamagedDetails,
    HistoryReport,
    StatusReport,
    AlreadyForwarded,
    UserErrorReport,
    StateTransition,
    ProviderErrorReport,
    ErrorReport,
    ForwardNotification,
    StatusOrErrorReport,
    ModuleDeliveryService,
    ModuleShippedVia,
    ModuleItemId,
    ModuleUnitsPerMedium,
    ModuleUnitsPerMediumList,
    ModuleSupplyDetails,
    ModuleIllRequest,
    ModuleShipped,
    ModuleConditional,
    ModuleWillSupply,
    ModuleResults,
    ModuleIllAnswer,
    ModuleConditionalReply,
    ModuleCancel,
    ModuleCancelReply,
    ModuleReceived,
    ModuleRecall,
    ModuleReturned,
    ModuleCheckedIn,
    ModuleOverdue,
    ModuleRenew,
    ModuleRenewAnswer,
    ModuleLost,
    ModuleDamaged,
    ModuleMessageApdu,
    ModuleStatusQuery,
    ModuleExpired,
    ModuleIllApdu,
}

impl NodeId {
    pub const BOOLEAN: NodeId = NodeId::Boolean;

    pub const INTEGER: NodeId = NodeId::Integer;

    pub const ENUMERATED: NodeId = NodeId::Enumerated;

    pub const ISO_DATE: NodeId = NodeId::IsoDate;

    pub const ISO_TIME: NodeId = NodeId::IsoTime;

    pub const PRINTABLE_STRING: NodeId = NodeId::PrintableString;

    pub const ILL_STRING: NodeId = NodeId::IllString;

    pub const LEFT_OUT: NodeId = NodeId::LeftOut;

    pub const SYMBOL: NodeId = NodeId::Symbol;

    pub const NAME: NodeId = NodeId::Name;

    pub const SYSTEM_ID: NodeId = NodeId::SystemId;

    pub const TRANSACTION_ID: NodeId = NodeId::TransactionId;

    pub const DATE_TIME: NodeId = NodeId::DateTime;

    pub const SERVICE_DATE_TIME: NodeId = NodeId::ServiceDateTime;

    pub const POSTAL_ADDRESS: NodeId = NodeId::PostalAddress;

    pub const SYSTEM_ADDRESS: NodeId = NodeId::SystemAddress;

    pub const DELIVERY_ADDRESS: NodeId = NodeId::DeliveryAddress;

    pub const CLIENT_ID: NodeId = NodeId::ClientId;

    pub const DELIVERY_SERVICE: NodeId = NodeId::DeliveryService;

    pub const REQUESTER_OPTIONAL_MESSAGES: NodeId = NodeId::RequesterOptionalMessages;

    pub const RESPONDER_OPTIONAL_MESSAGES: NodeId = NodeId::ResponderOptionalMessages;

    pub const SEARCH_TYPE: NodeId = NodeId::SearchType;

    pub const SUPPLY_MEDIUM_INFO: NodeId = NodeId::SupplyMediumInfo;

    pub const ITEM_ID: NodeId = NodeId::ItemId;

    pub const AMOUNT: NodeId = NodeId::Amount;

    pub const COST_INFO: NodeId = NodeId::CostInfo;

    pub const SEND_TO: NodeId = NodeId::SendTo;

    pub const SEND_TO_LIST: NodeId = NodeId::SendToList;

    pub const ALREADY_TRIED_LIST: NodeId = NodeId::AlreadyTriedList;

    pub const THIRD_PARTY_INFO: NodeId = NodeId::ThirdPartyInfo;

    pub const UNITS_PER_MEDIUM: NodeId = NodeId::UnitsPerMedium;

    pub const UNITS_PER_MEDIUM_LIST: NodeId = NodeId::UnitsPerMediumList;

    pub const DATE_DUE: NodeId = NodeId::DateDue;

    pub const SHIPPED_VIA: NodeId = NodeId::ShippedVia;

    pub const SUPPLY_DETAILS: NodeId = NodeId::SupplyDetails;

    pub const ILL_SERVICE_TYPES: NodeId = NodeId::IllServiceTypes;

    pub const SUPPLY_MEDIUM_INFOS: NodeId = NodeId::SupplyMediumInfos;

    pub const ILL_REQUEST: NodeId = NodeId::IllRequest;

    pub const SHIPPED: NodeId = NodeId::Shipped;

    pub const LOCATION_INFO: NodeId = NodeId::LocationInfo;

    pub const LOCS: NodeId = NodeId::Locs;

    pub const CONDITIONAL: NodeId = NodeId::Conditional;

    pub const RETRY: NodeId = NodeId::Retry;

    pub const UNFILLED: NodeId = NodeId::Unfilled;

    pub const LOCATIONS: NodeId = NodeId::Locations;

    pub const WILL_SUPPLY: NodeId = NodeId::WillSupply;

    pub const HOLD_PLACED: NodeId = NodeId::HoldPlaced;

    pub const ESTIMATE: NodeId = NodeId::Estimate;

    pub const RESULTS: NodeId = NodeId::Results;

    pub const ILL_ANSWER: NodeId = NodeId::IllAnswer;

    pub const CONDITIONAL_REPLY: NodeId = NodeId::ConditionalReply;

    pub const CANCEL: NodeId = NodeId::Cancel;

    pub const CANCEL_REPLY: NodeId = NodeId::CancelReply;

    pub const RECEIVED: NodeId = NodeId::Received;

    pub const RECALL: NodeId = NodeId::Recall;

    pub const RETURNED: NodeId = NodeId::Returned;

    pub const CHECKED_IN: NodeId = NodeId::CheckedIn;

    pub const OVERDUE: NodeId = NodeId::Overdue;

    pub const RENEW: NodeId = NodeId::Renew;

    pub const RENEW_ANSWER: NodeId = NodeId::RenewAnswer;

    pub const LOST: NodeId = NodeId::Lost;

    pub const DAMAGED: NodeId = NodeId::Damaged;

    pub const MESSAGE_APDU: NodeId = NodeId::MessageApdu;

    pub const STATUS_QUERY: NodeId = NodeId::StatusQuery;

    pub const EXPIRED: NodeId = NodeId::Expired;

    pub const ILL_APDU: NodeId = NodeId::IllApdu;

    pub const ANY: NodeId = NodeId::Any;
}
