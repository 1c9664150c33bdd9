//! Typed ILL APDUs: a struct for each of the 18 carried ones and for each result of an ILL-ANSWER; [`Apdu`], the choice of
//! them; and messages of them.
//!
//! ```
//! let message = Apdu::Expired(Expired { head }).to_message(alloc)?;
//! let apdu = Apdu::from_message(alloc, &message)?;
//! ```
#![tactic(auto)]

mod answer;
mod apdu;
mod cancel;
mod conditional_reply;
mod expired;
mod fault;
mod location;
mod lost;
mod overdue;
mod recall;
mod received;
mod renew;
mod request;
mod results;
mod returned;
mod shipped;
mod status_query;
mod text;

pub use answer::IllAnswer;
pub use apdu::Apdu;
pub use cancel::{Cancel, CancelReply};
pub use conditional_reply::ConditionalReply;
pub use expired::Expired;
pub use fault::MessageFault;
pub use ill_parts::{Head, Part, Typed};
pub use location::{LocationInfo, Locations};
pub use lost::{Damaged, Lost};
pub use overdue::Overdue;
pub use recall::Recall;
pub use received::Received;
pub use renew::{Renew, RenewAnswer};
pub use request::IllRequest;
pub use results::{Conditional, Estimate, HoldPlaced, Results, Retry, Unfilled, WillSupply};
pub use returned::{CheckedIn, Returned};
pub use shipped::Shipped;
pub use status_query::StatusQuery;
pub use text::MessageApdu;
