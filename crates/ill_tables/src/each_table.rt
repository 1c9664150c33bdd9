//! What is made of each table.

/// Gives the types that have a table to a macro of this crate, after what stands in brackets: of each its node, and after `/` its twin
/// of the module profile, where the profiles differ in a row.
#[macro_export]
macro_rules! types {
    ($with:ident $given:tt) => {
        $crate::$with! { $given
            Symbol, Name, SystemId, TransactionId, DateTime, ServiceDateTime, PostalAddress, SystemAddress,
            DeliveryAddress, ClientId, DeliveryService / ModuleDeliveryService, RequesterOptionalMessages,
            ResponderOptionalMessages, SearchType, SupplyMediumInfo, ItemId / ModuleItemId, Amount, CostInfo,
            SendTo, SendToList, AlreadyTriedList, ThirdPartyInfo, UnitsPerMedium / ModuleUnitsPerMedium,
            UnitsPerMediumList / ModuleUnitsPerMediumList, DateDue, ShippedVia / ModuleShippedVia,
            SupplyDetails / ModuleSupplyDetails, IllServiceTypes, SupplyMediumInfos,
            IllRequest / ModuleIllRequest, Shipped / ModuleShipped, LocationInfo, Locs,
            Conditional / ModuleConditional, Retry, Unfilled, Locations, WillSupply / ModuleWillSupply,
            HoldPlaced, Estimate, Results / ModuleResults, IllAnswer / ModuleIllAnswer,
            ConditionalReply / ModuleConditionalReply, Cancel / ModuleCancel,
            CancelReply / ModuleCancelReply, Received / ModuleReceived, Recall / ModuleRecall,
            Returned / ModuleReturned, CheckedIn / ModuleCheckedIn, Overdue / ModuleOverdue,
            Renew / ModuleRenew, RenewAnswer / ModuleRenewAnswer, Lost / ModuleLost, Damaged / ModuleDamaged,
            MessageApdu / ModuleMessageApdu, StatusQuery / ModuleStatusQuery, Expired / ModuleExpired,
            IllApdu / ModuleIllApdu, Encoding, External, TaggedExternal, Externals, Extension, Extensions,
            EDeliveryService, DocumentType, EDeliveryDetails, ElectronicDelivery, ElectronicDeliveries,
            SpecificUnits, DamagedPortion, DamagedDetails, HistoryReport, StatusReport, AlreadyForwarded,
            UserErrorReport, StateTransition, ProviderErrorReport, ErrorReport, ForwardNotification,
            StatusOrErrorReport
        }
    };
}

/// A `match` of a node, with an arm for each node that has a table: what the macro that is named makes of the kind, the node, its
/// name, the class of its tags and its rows in the node's profile. The arms of the other nodes follow.
#[macro_export]
macro_rules! each_table {
    ($node:expr, $made:ident, $($others:tt)*) => {
        $crate::types!(match_tables [$node, $made, $($others)*])
    };
}

/// The `match` of `each_table`, given the types.
#[macro_export]
macro_rules! match_tables {
    ([$value:expr, $made:ident, $($others:tt)*] $($node:ident $(/ $twin:ident)?),*) => {
        match $value {
            $(
                NodeId::$node => $crate::table!($node [two $node $made]),
                $(NodeId::$twin => $crate::table!($node [module $twin $made]),)?
            )*
            $($others)*
        }
    };
}

/// The twin of a node in the module profile, or the node itself where it has none.
#[macro_export]
macro_rules! match_twins {
    ([$value:expr] $($node:ident $(/ $twin:ident)?),*) => {
        match $value {
            $($(NodeId::$node => NodeId::$twin,)?)*
            node => node,
        }
    };
}

/// What the macro that is named makes of a type in a profile, `two` or `module`, where it has this node.
#[macro_export]
macro_rules! rows_of_type {
    ([$profile:ident $node:ident $made:ident] Apdu, $name:literal, $class:ident; $($rows:tt)*) => {
        $crate::rows_in!($profile [$made [Seq $node, $name, $class] [
            ("protocol-version-num", Must, 0, Implicit, Integer)
            ("transaction-id", Must, 1, Implicit, TransactionId)
            ("service-date-time", Must, 2, Implicit, ServiceDateTime)
            ("requester-id", May, 3, Implicit, SystemId)
            ("responder-id", May, 4, Implicit, SystemId)
        ]] $($rows)*)
    };
    ([$profile:ident $node:ident $made:ident] $kind:ident, $name:literal, $class:ident; $($rows:tt)*) => {
        $crate::rows_in!($profile [$made [$kind $node, $name, $class] []] $($rows)*)
    };
}

/// The same, where the rows in brackets are already those of the profile, and the others follow.
#[macro_export]
macro_rules! rows_in {
    (two $done:tt only ($name:literal, $presence:ident, $number:literal, $mode:ident, $node:ident) $($rows:tt)*) => {
        $crate::rows_in!(two $done ($name, LeftOut, $number, Implicit, LeftOut) $($rows)*)
    };
    (two $done:tt added $row:tt $($rows:tt)*) => {
        $crate::rows_in!(two $done $($rows)*)
    };
    (module $done:tt strict ($name:literal, $presence:ident, $number:literal, Implicit, $node:ident) $($rows:tt)*) => {
        $crate::rows_in!(module $done ($name, $presence, $number, Explicit, $node) $($rows)*)
    };
    (module $done:tt twin $twin:ident ($name:literal, $presence:ident, untagged, $node:ident) $($rows:tt)*) => {
        $crate::rows_in!(module $done ($name, $presence, untagged, $twin) $($rows)*)
    };
    (
        module $done:tt
        twin $twin:ident ($name:literal, $presence:ident, $number:literal, $mode:ident, $node:ident) $($rows:tt)*
    ) => {
        $crate::rows_in!(module $done ($name, $presence, $number, $mode, $twin) $($rows)*)
    };
    ($profile:ident $done:tt $word:ident $($rows:tt)*) => {
        $crate::rows_in!($profile $done $($rows)*)
    };
    ($profile:ident [$made:ident $head:tt [$($row:tt)*]] $next:tt $($rows:tt)*) => {
        $crate::rows_in!($profile [$made $head [$($row)* $next]] $($rows)*)
    };
    ($profile:ident [$made:ident [$($head:tt)*] [$($row:tt)*]]) => {
        $made!($($head)*: $($row),*)
    };
}
