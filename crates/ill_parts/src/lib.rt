//! Typed parts of ILL messages: a struct for each sequence of the tables and an enum for each choice.
//!
//! [`Part::to_value`] gives the value that a part stands for, and [`Typed::from_value`] the part that stands for a
//! value.
//!
//! ```
//! let value = transaction.to_value(alloc)?;
//! // None where the value doesn't fit
//! let again = TransactionId::from_value(alloc, &value)?;
//! ```
#![tactic(auto)]

mod address;
mod client;
mod cost;
mod delivery;
mod head;
mod item;
mod leaves;
mod list;
mod medium;
mod optional_messages;
mod part;
mod party;
mod reading;
mod search_type;
mod supply;
mod third_party;
mod transaction;

pub use address::{DeliveryAddress, PostalAddress, SystemAddress};
pub use client::ClientId;
pub use cost::{Amount, CostInfo};
pub use delivery::{DeliveryService, ShippedVia};
pub use head::{Head, headed, read_head};
pub use item::ItemId;
pub use medium::{SupplyMediumInfo, UnitsPerMedium};
pub use optional_messages::{RequesterOptionalMessages, ResponderOptionalMessages};
pub use part::{
    Node, Part, Typed, alternative, chosen, entries, optional, optional_value, required,
    required_value, sequence,
};
pub use party::{Name, Symbol, SystemId};
pub use search_type::SearchType;
pub use supply::{DateDue, SupplyDetails};
pub use third_party::{SendTo, ThirdPartyInfo};
pub use transaction::{DateTime, ServiceDateTime, TransactionId};
