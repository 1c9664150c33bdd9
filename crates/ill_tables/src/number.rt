//! The names of numbers.
ghost use Rattle.std.specs.Prelude.{◌≡◌, ℕ, ℤ, List, map, MatchOption, Some, None};
ghost use Rattle.ill_tables.specs.Numbers.{enumeration_of, number_names, number_name, numbers_of};
ghost use Rattle.ill_tables.specs.code.Numbers.{named};

/// An ENUMERATED type, by the name that the module of ISO 10161-1 gives it, or by the row that it is written in.
#[derive(Clone, Copy)]
pub enum Enumeration {
    Conditions,
    CurrentState,
    GeneralProblem,
    MostRecentService,
    IllApduType,
    IllServiceType,
    IntermediaryProblem,
    ItemType,
    MediumType,
    PlaceOnHoldType,
    ReasonLocsProvided,
    ReasonNoReport,
    ReasonUnfilled,
    ReportSource,
    OptionalMessages,
    ReasonNotAvailable,
    ExpiryFlag,
    ShippedConditions,
    SupplyMediumType,
    Preference,
    TransactionIdProblem,
    TransactionResults,
    TransactionType,
    UnableToPerform,
    ReasonWillSupply,
}

/// The type of the numbers of a row of this name, if they have names. Items of a list inside a row have the row's name.
///
/// # Examples
///
/// ```
/// // Some(Enumeration::MediumType)
/// let medium = enumeration_of("held-medium-type");
/// ```
#[tactic(auto, unfolding(crate::specs::Numbers::enumeration_of))]
pub fn enumeration_of(row: &str) -> Option<Enumeration>
    ensures { result ≡ enumeration_of row.now }
{
    match row {
        "conditions" => Some(Enumeration::Conditions),
        "provider-status-report" | "current-state" => Some(Enumeration::CurrentState),
        "general-problem" => Some(Enumeration::GeneralProblem),
        "most-recent-service" => Some(Enumeration::MostRecentService),
        "apdu-type" => Some(Enumeration::IllApduType),
        "ill-service-type" | "shipped-service-type" => Some(Enumeration::IllServiceType),
        "intermediary-problem" => Some(Enumeration::IntermediaryProblem),
        "item-type" => Some(Enumeration::ItemType),
        "held-medium-type" | "hold-placed-medium-type" => Some(Enumeration::MediumType),
        "place-on-hold" => Some(Enumeration::PlaceOnHoldType),
        "reason-locs-provided" => Some(Enumeration::ReasonLocsProvided),
        "reason-no-report" => Some(Enumeration::ReasonNoReport),
        "reason-unfilled" => Some(Enumeration::ReasonUnfilled),
        "report-source" => Some(Enumeration::ReportSource),
        "requester-shipped"
        | "requester-checked-in"
        | "responder-received"
        | "responder-returned" => Some(Enumeration::OptionalMessages),
        "reason-not-available" => Some(Enumeration::ReasonNotAvailable),
        "expiry-flag" => Some(Enumeration::ExpiryFlag),
        "shipped-conditions" => Some(Enumeration::ShippedConditions),
        "supply-medium-type" | "medium" => Some(Enumeration::SupplyMediumType),
        "preference" => Some(Enumeration::Preference),
        "transaction-id-problem" => Some(Enumeration::TransactionIdProblem),
        "transaction-results" => Some(Enumeration::TransactionResults),
        "transaction-type" => Some(Enumeration::TransactionType),
        "unable-to-perform" => Some(Enumeration::UnableToPerform),
        "reason-will-supply" => Some(Enumeration::ReasonWillSupply),
        _ => None,
    }
}

/// The numbers of a type, with their names.
///
/// # Examples
///
/// ```
/// // (1, "ordered") and (2, "unordered")
/// let preferences = numbers(Enumeration::Preference);
/// ```
pub fn numbers(enumeration: Enumeration) -> &'static [(i64, &'static str)]
    ensures { map named result.now ≡ numbers_of enumeration }
{
    match enumeration {
        Enumeration::Conditions => &[
            (13, "cost-exceeds-limit"),
            (14, "charges"),
            (15, "prepayment-required"),
            (16, "lacks-copyright-compliance"),
            (22, "library-use-only"),
            (23, "no-reproduction"),
            (24, "client-signature-required"),
            (25, "special-collections-supervision-required"),
            (27, "other"),
            (28, "responder-specific"),
            (30, "proposed-delivery-service"),
        ],
        Enumeration::CurrentState => &[
            (1, "nOT-SUPPLIED"),
            (2, "pENDING"),
            (3, "iN-PROCESS"),
            (4, "fORWARD"),
            (5, "cONDITIONAL"),
            (6, "cANCEL-PENDING"),
            (7, "cANCELLED"),
            (8, "sHIPPED"),
            (9, "rECEIVED"),
            (10, "rENEW-PENDING"),
            (11, "nOT-RECEIVED-OVERDUE"),
            (12, "rENEW-OVERDUE"),
            (13, "oVERDUE"),
            (14, "rETURNED"),
            (15, "cHECKED-IN"),
            (16, "rECALL"),
            (17, "lOST"),
            (18, "uNKNOWN"),
        ],
        Enumeration::GeneralProblem => &[
            (1, "unrecognized-APDU"),
            (2, "mistyped-APDU"),
            (3, "badly-structured-APDU"),
            (4, "protocol-version-not-supported"),
            (5, "other"),
        ],
        Enumeration::MostRecentService => &[
            (1, "iLL-REQUEST"),
            (2, "fORWARD-NOTIFICATION"),
            (3, "sHIPPED"),
            (4, "iLL-ANSWER"),
            (5, "cONDITIONAL-REPLY"),
            (6, "cANCEL"),
            (7, "cANCEL-REPLY"),
            (8, "rECEIVED"),
            (9, "rECALL"),
            (10, "rETURNED"),
            (11, "cHECKED-IN"),
            (14, "rENEW-ANSWER"),
            (15, "lOST"),
            (16, "dAMAGED"),
            (17, "mESSAGE"),
            (18, "sTATUS-QUERY"),
            (19, "sTATUS-OR-ERROR-REPORT"),
            (20, "eXPIRED"),
            (21, "fORWARD"),
        ],
        Enumeration::IllApduType => &[
            (1, "iLL-REQUEST"),
            (2, "fORWARD-NOTIFICATION"),
            (3, "sHIPPED"),
            (4, "iLL-ANSWER"),
            (5, "cONDITIONAL-REPLY"),
            (6, "cANCEL"),
            (7, "cANCEL-REPLY"),
            (8, "rECEIVED"),
            (9, "rECALL"),
            (10, "rETURNED"),
            (11, "cHECKED-IN"),
            (12, "oVERDUE"),
            (13, "rENEW"),
            (14, "rENEW-ANSWER"),
            (15, "lOST"),
            (16, "dAMAGED"),
            (17, "mESSAGE"),
            (18, "sTATUS-QUERY"),
            (19, "sTATUS-OR-ERROR-REPORT"),
            (20, "eXPIRED"),
        ],
        Enumeration::IllServiceType => &[
            (1, "loan"),
            (2, "copy-non-returnable"),
            (3, "locations"),
            (4, "estimate"),
            (5, "responder-specific"),
        ],
        Enumeration::IntermediaryProblem => &[(1, "cannot-send-onward")],
        Enumeration::ItemType => &[(1, "monograph"), (2, "serial"), (3, "other")],
        Enumeration::MediumType => &[
            (1, "printed"),
            (3, "microform"),
            (4, "film-or-video-recording"),
            (5, "audio-recording"),
            (6, "machine-readable"),
            (7, "other"),
        ],
        Enumeration::PlaceOnHoldType => &[
            (1, "yes"),
            (2, "no"),
            (3, "according-to-responder-policy"),
        ],
        Enumeration::ReasonLocsProvided => &[
            (1, "in-use-on-loan"),
            (2, "in-process"),
            (3, "lost"),
            (4, "non-circulating"),
            (5, "not-owned"),
            (6, "on-order"),
            (7, "volume-issue-not-yet-available"),
            (8, "at-bindery"),
            (9, "lacking"),
            (10, "not-on-shelf"),
            (11, "on-reserve"),
            (12, "poor-condition"),
            (13, "cost-exceeds-limit"),
            (19, "on-hold"),
            (27, "other"),
            (28, "responder-specific"),
        ],
        Enumeration::ReasonNoReport => &[(1, "temporary"), (2, "permanent")],
        Enumeration::ReasonUnfilled => &[
            (1, "in-use-on-loan"),
            (2, "in-process"),
            (3, "lost"),
            (4, "non-circulating"),
            (5, "not-owned"),
            (6, "on-order"),
            (7, "volume-issue-not-yet-available"),
            (8, "at-bindery"),
            (9, "lacking"),
            (10, "not-on-shelf"),
            (11, "on-reserve"),
            (12, "poor-condition"),
            (13, "cost-exceeds-limit"),
            (14, "charges"),
            (15, "prepayment-required"),
            (16, "lacks-copyright-compliance"),
            (17, "not-found-as-cited"),
            (18, "locations-not-found"),
            (19, "on-hold"),
            (20, "policy-problem"),
            (21, "mandatory-messaging-not-supported"),
            (22, "expiry-not-supported"),
            (23, "requested-delivery-services-not-supported"),
            (24, "preferred-delivery-time-not-possible"),
            (27, "other"),
            (28, "responder-specific"),
        ],
        Enumeration::ReportSource => &[(1, "user"), (2, "provider")],
        Enumeration::OptionalMessages => &[(1, "requires"), (2, "desires"), (3, "neither")],
        Enumeration::ReasonNotAvailable => &[
            (1, "in-use-on-loan"),
            (2, "in-process"),
            (6, "on-order"),
            (7, "volume-issue-not-yet-available"),
            (8, "at-bindery"),
            (13, "cost-exceeds-limit"),
            (14, "charges"),
            (15, "prepayment-required"),
            (16, "lacks-copyright-compliance"),
            (17, "not-found-as-cited"),
            (19, "on-hold"),
            (27, "other"),
            (28, "responder-specific"),
        ],
        Enumeration::ExpiryFlag => &[(1, "need-Before-Date"), (2, "other-Date"), (3, "no-Expiry")],
        Enumeration::ShippedConditions => &[
            (22, "library-use-only"),
            (23, "no-reproduction"),
            (24, "client-signature-required"),
            (25, "special-collections-supervision-required"),
            (27, "other"),
        ],
        Enumeration::SupplyMediumType => &[
            (1, "printed"),
            (2, "photocopy"),
            (3, "microform"),
            (4, "film-or-video-recording"),
            (5, "audio-recording"),
            (6, "machine-readable"),
            (7, "other"),
        ],
        Enumeration::Preference => &[(1, "ordered"), (2, "unordered")],
        Enumeration::TransactionIdProblem => &[
            (1, "duplicate-transaction-id"),
            (2, "invalid-transaction-id"),
            (3, "unknown-transaction-id"),
        ],
        Enumeration::TransactionResults => &[
            (1, "conditional"),
            (2, "retry"),
            (3, "unfilled"),
            (4, "locations-provided"),
            (5, "will-supply"),
            (6, "hold-placed"),
            (7, "estimate"),
        ],
        Enumeration::TransactionType => &[(1, "simple"), (2, "chained"), (3, "partitioned")],
        Enumeration::UnableToPerform => &[
            (1, "not-available"),
            (2, "resource-limitation"),
            (3, "other"),
        ],
        Enumeration::ReasonWillSupply => &[
            (1, "in-use-on-loan"),
            (2, "in-process"),
            (6, "on-order"),
            (8, "at-bindery"),
            (19, "on-hold"),
            (26, "being-processed-for-supply"),
            (27, "other"),
            (28, "responder-specific"),
            (30, "electronic-delivery"),
        ],
    }
}

/// The numbers that have a name in a row of this name, with those names.
///
/// # Examples
///
/// ```
/// // (1, "temporary") and (2, "permanent")
/// let reasons = number_names("reason-no-report");
/// ```
#[tactic(auto, unfolding(crate::specs::Numbers::number_names))]
pub fn number_names(row: &str) -> &'static [(i64, &'static str)]
    ensures { map named result.now ≡ number_names row.now }
{
    match enumeration_of(row) {
        Some(enumeration) => numbers(enumeration),
        None => &[],
    }
}

/// The name of a number in a row of this name, if it has one.
///
/// # Examples
///
/// ```
/// // Some("printed"), and None
/// let names = (number_name("held-medium-type", 1), number_name("held-medium-type", 2));
/// ```
#[tactic(auto, unfolding(crate::specs::Numbers::number_name))]
pub fn number_name(row: &str, number: i64) -> Option<&'static str>
    ensures { MatchOption result (number_name row.now number ≡ None)
        (λ name. number_name row.now number ≡ Some name.now) }
{
    for (own, name) in number_names(row) {
        if *own == number {
            return Some(*name);
        }
    }
    None
}
