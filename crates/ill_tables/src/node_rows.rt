//! The tables: the rows of each type. All that the code says of them is made from here.

/// Gives a table to `rows_of_type`, after what stands in brackets. Of each type it says:
///
/// - the kind of its node, where `Apdu` is a sequence that begins with the rows of each APDU;
/// - its name, which is empty for a list inside a row, and the class of its tags;
/// - its rows: the name, presence, tag, mode and node of each, or the name, presence, `untagged` and node.
///
/// A word before a row says in what the profiles differ:
///
/// - `only`: profile 2 leaves the row out.
/// - `added`: profile 2 does not have the row at all.
/// - `strict`: the tag is explicit in the module profile.
/// - `twin` and a node: the row has that node in the module profile.
#[macro_export]
macro_rules! table {
    (Symbol $to:tt) => { $crate::rows_of_type! { $to Choice, "Symbol", Context;
        ("person-symbol", Must, 0, Explicit, IllString)
        ("institution-symbol", Must, 1, Explicit, IllString)
    } };
    (Name $to:tt) => { $crate::rows_of_type! { $to Choice, "Name", Context;
        ("name-of-person", Must, 0, Explicit, IllString)
        ("name-of-institution", Must, 1, Explicit, IllString)
    } };
    (SystemId $to:tt) => { $crate::rows_of_type! { $to Seq, "System-Id", Context;
        ("person-or-institution-symbol", May, 0, Explicit, Symbol)
        ("name-of-person-or-institution", May, 1, Explicit, Name)
    } };
    (TransactionId $to:tt) => { $crate::rows_of_type! { $to Seq, "Transaction-Id", Context;
        ("initial-requester-id", May, 0, Implicit, SystemId)
        ("transaction-group-qualifier", Must, 1, Explicit, IllString)
        ("transaction-qualifier", Must, 2, Explicit, IllString)
        ("sub-transaction-qualifier", May, 3, Explicit, IllString)
    } };
    (DateTime $to:tt) => { $crate::rows_of_type! { $to Seq, "Date-Time", Context;
        ("date", Must, 0, Implicit, IsoDate)
        ("time", May, 1, Implicit, IsoTime)
    } };
    (ServiceDateTime $to:tt) => { $crate::rows_of_type! { $to Seq, "Service-Date-Time", Context;
        ("date-time-of-this-service", Must, 0, Implicit, DateTime)
        ("date-time-of-original-service", May, 1, Implicit, DateTime)
    } };
    (PostalAddress $to:tt) => { $crate::rows_of_type! { $to Seq, "Postal-Address", Context;
        ("name-of-person-or-institution", May, 0, Explicit, Name)
        ("extended-postal-delivery-address", May, 1, Explicit, IllString)
        ("street-and-number", May, 2, Explicit, IllString)
        ("post-office-box", May, 3, Explicit, IllString)
        ("city", May, 4, Explicit, IllString)
        ("region", May, 5, Explicit, IllString)
        ("country", May, 6, Explicit, IllString)
        ("postal-code", May, 7, Explicit, IllString)
    } };
    (SystemAddress $to:tt) => { $crate::rows_of_type! { $to Seq, "System-Address", Context;
        ("telecom-service-identifier", May, 0, Explicit, IllString)
        ("telecom-service-address", May, 1, Explicit, IllString)
    } };
    (DeliveryAddress $to:tt) => { $crate::rows_of_type! { $to Seq, "Delivery-Address", Context;
        ("postal-address", May, 0, Implicit, PostalAddress)
        ("electronic-address", May, 1, Implicit, SystemAddress)
    } };
    (ClientId $to:tt) => { $crate::rows_of_type! { $to Seq, "Client-Id", Context;
        ("client-name", May, 0, Explicit, IllString)
        ("client-status", May, 1, Explicit, IllString)
        ("client-identifier", May, 2, Explicit, IllString)
    } };
    (DeliveryService $to:tt) => { $crate::rows_of_type! { $to Choice, "Delivery-Service", Context;
        ("physical-delivery", Must, 7, Explicit, IllString)
        only ("electronic-delivery", Must, 50, Implicit, ElectronicDeliveries)
    } };
    (RequesterOptionalMessages $to:tt) => { $crate::rows_of_type! { $to Seq, "Requester-Optional-Messages", Context;
        ("can-send-received", Must, 0, Implicit, Boolean)
        ("can-send-returned", Must, 1, Implicit, Boolean)
        ("requester-shipped", Must, 2, Implicit, Enumerated)
        ("requester-checked-in", Must, 3, Implicit, Enumerated)
    } };
    (ResponderOptionalMessages $to:tt) => { $crate::rows_of_type! { $to Seq, "Responder-Optional-Messages", Context;
        ("can-send-shipped", Must, 0, Implicit, Boolean)
        ("can-send-checked-in", Must, 1, Implicit, Boolean)
        ("responder-received", Must, 2, Implicit, Enumerated)
        ("responder-returned", Must, 3, Implicit, Enumerated)
    } };
    (SearchType $to:tt) => { $crate::rows_of_type! { $to Seq, "Search-Type", Context;
        ("level-of-service", May, 0, Explicit, IllString)
        ("need-before-date", May, 1, Implicit, IsoDate)
        ("expiry-flag", Default(3), 2, Implicit, Enumerated)
        ("expiry-date", May, 3, Implicit, IsoDate)
    } };
    (SupplyMediumInfo $to:tt) => { $crate::rows_of_type! { $to Seq, "Supply-Medium-Info", Context;
        ("supply-medium-type", Must, 0, Implicit, Enumerated)
        ("medium-characteristics", May, 1, Explicit, IllString)
    } };
    (ItemId $to:tt) => { $crate::rows_of_type! { $to Seq, "Item-Id", Context;
        ("item-type", May, 0, Implicit, Enumerated)
        ("held-medium-type", May, 1, Implicit, Enumerated)
        ("call-number", May, 2, Explicit, IllString)
        ("author", May, 3, Explicit, IllString)
        ("title", May, 4, Explicit, IllString)
        ("sub-title", May, 5, Explicit, IllString)
        ("sponsoring-body", May, 6, Explicit, IllString)
        ("place-of-publication", May, 7, Explicit, IllString)
        ("publisher", May, 8, Explicit, IllString)
        ("series-title-number", May, 9, Explicit, IllString)
        ("volume-issue", May, 10, Explicit, IllString)
        ("edition", May, 11, Explicit, IllString)
        ("publication-date", May, 12, Explicit, IllString)
        ("publication-date-of-component", May, 13, Explicit, IllString)
        ("author-of-article", May, 14, Explicit, IllString)
        ("title-of-article", May, 15, Explicit, IllString)
        ("pagination", May, 16, Explicit, IllString)
        only ("national-bibliography-no", May, 17, Explicit, TaggedExternal)
        ("isbn", May, 18, Explicit, IllString)
        ("issn", May, 19, Explicit, IllString)
        only ("system-no", May, 20, Explicit, TaggedExternal)
        ("additional-no-letters", May, 21, Explicit, IllString)
        ("verification-reference-source", May, 22, Explicit, IllString)
    } };
    (Amount $to:tt) => { $crate::rows_of_type! { $to Seq, "Amount", Context;
        ("currency-code", May, 0, Implicit, PrintableString)
        ("monetary-value", Must, 1, Implicit, PrintableString)
    } };
    (CostInfo $to:tt) => { $crate::rows_of_type! { $to Seq, "Cost-Info", Context;
        ("account-number", May, 0, Explicit, IllString)
        ("maximum-cost", May, 1, Implicit, Amount)
        ("reciprocal-agreement", Default(0), 2, Implicit, Boolean)
        ("will-pay-fee", Default(0), 3, Implicit, Boolean)
        ("payment-provided", Default(0), 4, Implicit, Boolean)
    } };
    (SendTo $to:tt) => { $crate::rows_of_type! { $to Seq, "Send-To", Context;
        ("system-id", Must, 0, Implicit, SystemId)
        ("account-number", May, 1, Explicit, IllString)
        ("system-address", May, 2, Implicit, SystemAddress)
    } };
    (SendToList $to:tt) => { $crate::rows_of_type! { $to SeqOf, "Send-To-List", Context;
        ("item", Must, untagged, SendTo)
    } };
    (AlreadyTriedList $to:tt) => { $crate::rows_of_type! { $to SeqOf, "Already-Tried-List", Context;
        ("item", Must, untagged, SystemId)
    } };
    (ThirdPartyInfo $to:tt) => { $crate::rows_of_type! { $to Seq, "Third-Party-Info", Context;
        ("permission-to-forward", Default(0), 0, Implicit, Boolean)
        ("permission-to-chain", Default(0), 1, Implicit, Boolean)
        ("permission-to-partition", Default(0), 2, Implicit, Boolean)
        ("permission-to-change-send-to-list", Default(0), 3, Implicit, Boolean)
        ("initial-requester-address", May, 4, Implicit, SystemAddress)
        ("preference", Default(2), 5, Implicit, Enumerated)
        ("send-to-list", May, 6, Implicit, SendToList)
        ("already-tried-list", May, 7, Implicit, AlreadyTriedList)
    } };
    (UnitsPerMedium $to:tt) => { $crate::rows_of_type! { $to Seq, "Units-Per-Medium", Context;
        strict ("medium", Must, 0, Implicit, Enumerated)
        strict ("no-of-units", Must, 1, Implicit, Integer)
    } };
    (UnitsPerMediumList $to:tt) => { $crate::rows_of_type! { $to SeqOf, "", Context;
        twin ModuleUnitsPerMedium ("item", Must, untagged, UnitsPerMedium)
    } };
    (DateDue $to:tt) => { $crate::rows_of_type! { $to Seq, "Date-Due", Context;
        ("date-due-field", Must, 0, Implicit, IsoDate)
        ("renewable", Default(1), 1, Implicit, Boolean)
    } };
    (ShippedVia $to:tt) => { $crate::rows_of_type! { $to Choice, "Shipped-Via", Context;
        ("physical-delivery", Must, 5, Explicit, IllString)
        only ("electronic-delivery", Must, 50, Implicit, ElectronicDelivery)
    } };
    (SupplyDetails $to:tt) => { $crate::rows_of_type! { $to Seq, "Supply-Details", Context;
        ("date-shipped", May, 0, Implicit, IsoDate)
        ("date-due", May, 1, Implicit, DateDue)
        ("chargeable-units", May, 2, Implicit, Integer)
        ("cost", May, 3, Implicit, Amount)
        ("shipped-conditions", May, 4, Implicit, Enumerated)
        twin ModuleShippedVia ("shipped-via", May, untagged, ShippedVia)
        ("insured-for", May, 6, Implicit, Amount)
        ("return-insurance-require", May, 7, Implicit, Amount)
        twin ModuleUnitsPerMediumList ("no-of-units-per-medium", May, 8, Implicit, UnitsPerMediumList)
    } };
    (IllServiceTypes $to:tt) => { $crate::rows_of_type! { $to SeqOf, "", Context;
        ("item", Must, untagged, Enumerated)
    } };
    (SupplyMediumInfos $to:tt) => { $crate::rows_of_type! { $to SeqOf, "", Context;
        ("item", Must, untagged, SupplyMediumInfo)
    } };
    (IllRequest $to:tt) => { $crate::rows_of_type! { $to Apdu, "ILL-Request", Context;
        ("transaction-type", Default(1), 5, Implicit, Enumerated)
        ("delivery-address", May, 6, Implicit, DeliveryAddress)
        twin ModuleDeliveryService ("delivery-service", May, untagged, DeliveryService)
        ("billing-address", May, 8, Implicit, DeliveryAddress)
        ("ill-service-type", Must, 9, Implicit, IllServiceTypes)
        only ("responder-specific-service", May, 10, Explicit, TaggedExternal)
        ("requester-optional-messages", Must, 11, Implicit, RequesterOptionalMessages)
        ("search-type", May, 12, Implicit, SearchType)
        ("supply-medium-info-type", May, 13, Implicit, SupplyMediumInfos)
        ("place-on-hold", Default(3), 14, Implicit, Enumerated)
        ("client-id", May, 15, Implicit, ClientId)
        twin ModuleItemId ("item-id", Must, 16, Implicit, ItemId)
        only ("supplemental-item-description", May, 17, Implicit, Externals)
        ("cost-info-type", May, 18, Implicit, CostInfo)
        ("copyright-compliance", May, 19, Explicit, IllString)
        ("third-party-info-type", May, 20, Implicit, ThirdPartyInfo)
        ("retry-flag", Default(0), 21, Implicit, Boolean)
        ("forward-flag", Default(0), 22, Implicit, Boolean)
        ("requester-note", May, 46, Explicit, IllString)
        ("forward-note", May, 47, Explicit, IllString)
        only ("ill-request-extensions", May, 49, Implicit, Extensions)
    } };
    (Shipped $to:tt) => { $crate::rows_of_type! { $to Apdu, "Shipped", Context;
        ("responder-address", May, 24, Implicit, SystemAddress)
        ("intermediary-id", May, 25, Implicit, SystemId)
        ("supplier-id", May, 26, Implicit, SystemId)
        ("client-id", May, 15, Implicit, ClientId)
        ("transaction-type", Default(1), 5, Implicit, Enumerated)
        only ("supplemental-item-description", May, 17, Implicit, Externals)
        ("shipped-service-type", Must, 27, Implicit, Enumerated)
        ("responder-optional-messages", May, 28, Implicit, ResponderOptionalMessages)
        twin ModuleSupplyDetails ("supply-details", Must, 29, Implicit, SupplyDetails)
        ("return-to-address", May, 30, Implicit, PostalAddress)
        ("responder-note", May, 46, Explicit, IllString)
        only ("shipped-extensions", May, 49, Implicit, Extensions)
    } };
    (LocationInfo $to:tt) => { $crate::rows_of_type! { $to Seq, "Location-Info", Context;
        ("location-id", Must, 0, Implicit, SystemId)
        ("location-address", May, 1, Implicit, SystemAddress)
        ("location-note", May, 2, Explicit, IllString)
    } };
    (Locs $to:tt) => { $crate::rows_of_type! { $to SeqOf, "Locs", Context; ("item", Must, untagged, LocationInfo) } };
    (Conditional $to:tt) => { $crate::rows_of_type! { $to Seq, "Conditional", Context;
        ("conditions", Must, 0, Implicit, Enumerated)
        ("date-for-reply", May, 1, Implicit, IsoDate)
        ("location-list", May, 2, Implicit, Locs)
        added ("proposed-delivery-service", May, untagged, ModuleDeliveryService)
    } };
    (Retry $to:tt) => { $crate::rows_of_type! { $to Seq, "Retry", Context;
        ("reason-not-available", May, 0, Implicit, Enumerated)
        ("retry-date", May, 1, Implicit, IsoDate)
        ("location-list", May, 2, Implicit, Locs)
    } };
    (Unfilled $to:tt) => { $crate::rows_of_type! { $to Seq, "Unfilled", Context;
        ("reason-unfilled", Must, 0, Implicit, Enumerated)
        ("location-list", May, 1, Implicit, Locs)
    } };
    (Locations $to:tt) => { $crate::rows_of_type! { $to Seq, "Locations", Context;
        ("reason-locs-provided", May, 0, Implicit, Enumerated)
        ("location-list", Must, 1, Implicit, Locs)
    } };
    (WillSupply $to:tt) => { $crate::rows_of_type! { $to Seq, "Will-Supply", Context;
        strict ("reason-will-supply", Must, 0, Implicit, Enumerated)
        strict ("supply-date", May, 1, Implicit, IsoDate)
        strict ("return-to-address", May, 2, Implicit, PostalAddress)
        ("location-list", May, 3, Implicit, Locs)
        only ("electronic-delivery-service", May, 4, Explicit, ElectronicDelivery)
    } };
    (HoldPlaced $to:tt) => { $crate::rows_of_type! { $to Seq, "Hold-Placed", Context;
        ("estimated-date-available", Must, 0, Implicit, IsoDate)
        ("hold-placed-medium-type", May, 1, Implicit, Enumerated)
        ("location-list", May, 2, Implicit, Locs)
    } };
    (Estimate $to:tt) => { $crate::rows_of_type! { $to Seq, "Estimate", Context;
        ("cost-estimate", Must, 0, Explicit, IllString)
        ("location-list", May, 1, Implicit, Locs)
    } };
    (Results $to:tt) => { $crate::rows_of_type! { $to Choice, "Results", Context;
        twin ModuleConditional ("conditional-results", Must, 1, ExplicitOrBare, Conditional)
        ("retry-results", Must, 2, ExplicitOrBare, Retry)
        ("unfilled-results", Must, 3, ExplicitOrBare, Unfilled)
        ("locations-results", Must, 4, ExplicitOrBare, Locations)
        twin ModuleWillSupply ("will-supply-results", Must, 5, ExplicitOrBare, WillSupply)
        ("hold-placed-results", Must, 6, ExplicitOrBare, HoldPlaced)
        ("estimate-results", Must, 7, ExplicitOrBare, Estimate)
    } };
    (IllAnswer $to:tt) => { $crate::rows_of_type! { $to Apdu, "ILL-Answer", Context;
        ("transaction-results", Must, 31, Implicit, Enumerated)
        twin ModuleResults ("results-explanation", May, 32, Explicit, Results)
        only ("responder-specific-results", May, 33, Explicit, TaggedExternal)
        only ("supplemental-item-description", May, 17, Implicit, Externals)
        ("send-to-list", May, 23, Implicit, SendToList)
        ("already-tried-list", May, 34, Implicit, AlreadyTriedList)
        ("responder-optional-messages", May, 28, Implicit, ResponderOptionalMessages)
        ("responder-note", May, 46, Explicit, IllString)
        only ("ill-answer-extensions", May, 49, Implicit, Extensions)
    } };
    (ConditionalReply $to:tt) => { $crate::rows_of_type! { $to Apdu, "Conditional-Reply", Context;
        ("answer", Must, 35, Implicit, Boolean)
        ("requester-note", May, 46, Explicit, IllString)
        only ("conditional-reply-extensions", May, 49, Implicit, Extensions)
    } };
    (Cancel $to:tt) => { $crate::rows_of_type! { $to Apdu, "Cancel", Context;
        ("requester-note", May, 46, Explicit, IllString)
        only ("cancel-extensions", May, 49, Implicit, Extensions)
    } };
    (CancelReply $to:tt) => { $crate::rows_of_type! { $to Apdu, "Cancel-Reply", Context;
        ("answer", Must, 35, Implicit, Boolean)
        ("responder-note", May, 46, Explicit, IllString)
        only ("cancel-reply-extensions", May, 49, Implicit, Extensions)
    } };
    (Received $to:tt) => { $crate::rows_of_type! { $to Apdu, "Received", Context;
        ("supplier-id", May, 26, Implicit, SystemId)
        only ("supplemental-item-description", May, 17, Implicit, Externals)
        ("date-received", Must, 36, Implicit, IsoDate)
        ("shipped-service-type", Must, 27, Implicit, Enumerated)
        ("requester-note", May, 46, Explicit, IllString)
        only ("received-extensions", May, 49, Implicit, Extensions)
    } };
    (Recall $to:tt) => { $crate::rows_of_type! { $to Apdu, "Recall", Context;
        ("responder-note", May, 46, Explicit, IllString)
        only ("recall-extensions", May, 49, Implicit, Extensions)
    } };
    (Returned $to:tt) => { $crate::rows_of_type! { $to Apdu, "Returned", Context;
        only ("supplemental-item-description", May, 17, Implicit, Externals)
        ("date-returned", Must, 37, Implicit, IsoDate)
        ("returned-via", May, 38, Explicit, IllString)
        ("insured-for", May, 39, Implicit, Amount)
        ("requester-note", May, 46, Explicit, IllString)
        only ("returned-extensions", May, 49, Implicit, Extensions)
    } };
    (CheckedIn $to:tt) => { $crate::rows_of_type! { $to Apdu, "Checked-In", Context;
        ("date-checked-in", Must, 40, Implicit, IsoDate)
        ("responder-note", May, 46, Explicit, IllString)
        only ("checked-in-extensions", May, 49, Implicit, Extensions)
    } };
    (Overdue $to:tt) => { $crate::rows_of_type! { $to Apdu, "Overdue", Context;
        ("date-due", Must, 41, Implicit, DateDue)
        ("responder-note", May, 46, Explicit, IllString)
        only ("overdue-extensions", May, 49, Explicit, Extensions)
    } };
    (Renew $to:tt) => { $crate::rows_of_type! { $to Apdu, "Renew", Context;
        ("desired-due-date", May, 42, Implicit, IsoDate)
        ("requester-note", May, 46, Explicit, IllString)
        only ("renew-extensions", May, 49, Implicit, Extensions)
    } };
    (RenewAnswer $to:tt) => { $crate::rows_of_type! { $to Apdu, "Renew-Answer", Context;
        ("answer", Must, 35, Implicit, Boolean)
        ("date-due", May, 41, Implicit, DateDue)
        ("responder-note", May, 46, Explicit, IllString)
        only ("renew-answer-extensions", May, 49, Implicit, Extensions)
    } };
    (Lost $to:tt) => { $crate::rows_of_type! { $to Apdu, "Lost", Context;
        ("note", May, 46, Explicit, IllString)
        only ("lost-extensions", May, 49, Implicit, Extensions)
    } };
    (Damaged $to:tt) => { $crate::rows_of_type! { $to Apdu, "Damaged", Context;
        only ("damaged-details", May, 5, Implicit, DamagedDetails)
        ("note", May, 46, Explicit, IllString)
        only ("damaged-extensions", May, 49, Implicit, Extensions)
    } };
    (MessageApdu $to:tt) => { $crate::rows_of_type! { $to Apdu, "Message", Context;
        ("note", Must, 46, Explicit, IllString)
        only ("message-extensions", May, 49, Implicit, Extensions)
    } };
    (StatusQuery $to:tt) => { $crate::rows_of_type! { $to Apdu, "Status-Query", Context;
        ("note", May, 46, Explicit, IllString)
        only ("status-query-extensions", May, 49, Implicit, Extensions)
    } };
    (Expired $to:tt) => { $crate::rows_of_type! { $to Apdu, "Expired", Context;
        only ("expired-extensions", May, 49, Implicit, Extensions)
    } };
    (IllApdu $to:tt) => { $crate::rows_of_type! { $to Choice, "ILL-APDU", Application;
        twin ModuleIllRequest ("ILL-Request", Must, 1, ExplicitOrBare, IllRequest)
        only ("Forward-Notification", Must, 2, ExplicitOrBare, ForwardNotification)
        twin ModuleShipped ("Shipped", Must, 3, ExplicitOrBare, Shipped)
        twin ModuleIllAnswer ("ILL-Answer", Must, 4, ExplicitOrBare, IllAnswer)
        twin ModuleConditionalReply ("Conditional-Reply", Must, 5, ExplicitOrBare, ConditionalReply)
        twin ModuleCancel ("Cancel", Must, 6, ExplicitOrBare, Cancel)
        twin ModuleCancelReply ("Cancel-Reply", Must, 7, ExplicitOrBare, CancelReply)
        twin ModuleReceived ("Received", Must, 8, ExplicitOrBare, Received)
        twin ModuleRecall ("Recall", Must, 9, ExplicitOrBare, Recall)
        twin ModuleReturned ("Returned", Must, 10, ExplicitOrBare, Returned)
        twin ModuleCheckedIn ("Checked-In", Must, 11, ExplicitOrBare, CheckedIn)
        twin ModuleOverdue ("Overdue", Must, 12, ExplicitOrBare, Overdue)
        twin ModuleRenew ("Renew", Must, 13, ExplicitOrBare, Renew)
        twin ModuleRenewAnswer ("Renew-Answer", Must, 14, ExplicitOrBare, RenewAnswer)
        twin ModuleLost ("Lost", Must, 15, ExplicitOrBare, Lost)
        twin ModuleDamaged ("Damaged", Must, 16, ExplicitOrBare, Damaged)
        twin ModuleMessageApdu ("Message", Must, 17, ExplicitOrBare, MessageApdu)
        twin ModuleStatusQuery ("Status-Query", Must, 18, ExplicitOrBare, StatusQuery)
        only ("Status-Or-Error-Report", Must, 19, ExplicitOrBare, StatusOrErrorReport)
        twin ModuleExpired ("Expired", Must, 20, ExplicitOrBare, Expired)
    } };
    // Only the module profile reaches these.
    (Encoding $to:tt) => { $crate::rows_of_type! { $to Choice, "Encoding", Context;
        ("single-asn1-type", Must, 0, Explicit, Any)
        ("octet-aligned", Must, 1, Implicit, OctetString)
        ("arbitrary", Must, 2, Implicit, BitString)
    } };
    (External $to:tt) => { $crate::rows_of_type! { $to Seq, "External", Context;
        ("direct-reference", May, untagged, ObjectIdentifier)
        ("indirect-reference", May, untagged, Integer)
        ("data-value-descriptor", May, untagged, ObjectDescriptor)
        ("encoding", Must, untagged, Encoding)
    } };
    (TaggedExternal $to:tt) => { $crate::rows_of_type! { $to Choice, "External", Universal;
        ("", Must, 8, Implicit, External)
    } };
    (Externals $to:tt) => { $crate::rows_of_type! { $to SeqOf, "", Context;
        ("item", Must, untagged, TaggedExternal)
    } };
    (Extension $to:tt) => { $crate::rows_of_type! { $to Seq, "Extension", Context;
        ("identifier", Must, 0, Implicit, Integer)
        ("critical", Default(0), 1, Implicit, Boolean)
        ("item", Must, 2, Explicit, Any)
    } };
    (Extensions $to:tt) => { $crate::rows_of_type! { $to SeqOf, "", Context; ("item", Must, untagged, Extension) } };
    (EDeliveryService $to:tt) => { $crate::rows_of_type! { $to Seq, "E-Delivery-Service", Context;
        ("e-delivery-mode", Must, 0, Implicit, ObjectIdentifier)
        ("e-delivery-parameters", Must, 1, Explicit, Any)
    } };
    (DocumentType $to:tt) => { $crate::rows_of_type! { $to Seq, "Document-Type", Context;
        ("document-type-id", Must, 2, Implicit, ObjectIdentifier)
        ("document-type-parameters", Must, 3, Explicit, Any)
    } };
    (EDeliveryDetails $to:tt) => { $crate::rows_of_type! { $to Choice, "E-Delivery-Details", Context;
        ("e-delivery-address", Must, 0, Implicit, SystemAddress)
        ("e-delivery-id", Must, 1, Implicit, SystemId)
    } };
    (ElectronicDelivery $to:tt) => { $crate::rows_of_type! { $to Seq, "Electronic-Delivery", Context;
        ("e-delivery-service", May, 0, Implicit, EDeliveryService)
        ("document-type", May, 1, Implicit, DocumentType)
        ("e-delivery-description", May, 4, Explicit, IllString)
        ("e-delivery-details", Must, 5, Explicit, EDeliveryDetails)
        ("name-or-code", May, 6, Explicit, IllString)
        ("delivery-time", May, 7, Implicit, IsoTime)
    } };
    (ElectronicDeliveries $to:tt) => { $crate::rows_of_type! { $to SeqOf, "", Context;
        ("item", Must, untagged, ElectronicDelivery)
    } };
    (SpecificUnits $to:tt) => { $crate::rows_of_type! { $to SeqOf, "", Context; ("item", Must, untagged, Integer) } };
    (DamagedPortion $to:tt) => { $crate::rows_of_type! { $to Choice, "Damaged-Portion", Context;
        ("complete-document", Must, 1, Implicit, Null)
        ("specific-units", Must, 2, Implicit, SpecificUnits)
    } };
    (DamagedDetails $to:tt) => { $crate::rows_of_type! { $to Seq, "Damaged-Details", Context;
        ("document-type-id", May, 0, Implicit, ObjectIdentifier)
        ("damaged-portion", Must, untagged, DamagedPortion)
    } };
    (HistoryReport $to:tt) => { $crate::rows_of_type! { $to Seq, "History-Report", Context;
        ("date-requested", May, 0, Implicit, IsoDate)
        ("author", May, 1, Explicit, IllString)
        ("title", May, 2, Explicit, IllString)
        ("author-of-article", May, 3, Explicit, IllString)
        ("title-of-article", May, 4, Explicit, IllString)
        ("date-of-last-transition", Must, 5, Implicit, IsoDate)
        ("most-recent-service", Must, 6, Implicit, Enumerated)
        ("date-of-most-recent-service", Must, 7, Implicit, IsoDate)
        ("initiator-of-most-recent-service", Must, 8, Implicit, SystemId)
        ("shipped-service-type", May, 9, Implicit, Enumerated)
        ("transaction-results", May, 10, Implicit, Enumerated)
        ("most-recent-service-note", May, 11, Explicit, IllString)
    } };
    (StatusReport $to:tt) => { $crate::rows_of_type! { $to Seq, "Status-Report", Context;
        ("user-status-report", Must, 0, Implicit, HistoryReport)
        ("provider-status-report", Must, 1, Implicit, Enumerated)
    } };
    (AlreadyForwarded $to:tt) => { $crate::rows_of_type! { $to Seq, "Already-Forwarded", Context;
        ("responder-id", Must, 0, Implicit, SystemId)
        ("responder-address", May, 1, Implicit, SystemAddress)
    } };
    (UserErrorReport $to:tt) => { $crate::rows_of_type! { $to Choice, "User-Error-Report", Context;
        ("already-forwarded", Must, 0, Implicit, AlreadyForwarded)
        ("intermediary-problem", Must, 1, Implicit, Enumerated)
        ("security-problem", Must, 2, Explicit, IllString)
        ("unable-to-perform", Must, 3, Implicit, Enumerated)
    } };
    (StateTransition $to:tt) => { $crate::rows_of_type! { $to Seq, "State-Transition", Context;
        ("apdu-type", Must, 0, Implicit, Enumerated)
        ("current-state", Must, 1, Implicit, Enumerated)
    } };
    (ProviderErrorReport $to:tt) => { $crate::rows_of_type! { $to Choice, "Provider-Error-Report", Context;
        ("general-problem", Must, 0, Implicit, Enumerated)
        ("transaction-id-problem", Must, 1, Implicit, Enumerated)
        ("state-transition-prohibited", Must, 2, Implicit, StateTransition)
    } };
    (ErrorReport $to:tt) => { $crate::rows_of_type! { $to Seq, "Error-Report", Context;
        ("correlation-information", Must, 0, Explicit, IllString)
        ("report-source", Must, 1, Implicit, Enumerated)
        ("user-error-report", May, 2, Explicit, UserErrorReport)
        ("provider-error-report", May, 3, Explicit, ProviderErrorReport)
    } };
    (ForwardNotification $to:tt) => { $crate::rows_of_type! { $to Seq, "Forward-Notification", Context;
        ("protocol-version-num", Must, 0, Implicit, Integer)
        ("transaction-id", Must, 1, Implicit, TransactionId)
        ("service-date-time", Must, 2, Implicit, ServiceDateTime)
        ("requester-id", May, 3, Implicit, SystemId)
        ("responder-id", Must, 4, Implicit, SystemId)
        ("responder-address", May, 24, Implicit, SystemAddress)
        ("intermediary-id", Must, 25, Implicit, SystemId)
        ("notification-note", May, 48, Explicit, IllString)
        ("forward-notification-extensions", May, 49, Implicit, Extensions)
    } };
    (StatusOrErrorReport $to:tt) => { $crate::rows_of_type! { $to Apdu, "Status-Or-Error-Report", Context;
        ("reason-no-report", May, 43, Implicit, Enumerated)
        ("status-report", May, 44, Implicit, StatusReport)
        ("error-report", May, 45, Implicit, ErrorReport)
        ("note", May, 46, Explicit, IllString)
        ("status-or-error-report-extensions", May, 49, Implicit, Extensions)
    } };
}
