//! The tables of ILL messages: the types of ISO 10161-1, their components in order, and their names. Use it to go through the tables;
//! `ill_schema` re-exports its calls, and says what octets mean.
//!
//! ```
//! let part = PartId { node: NodeId::EXPIRED, row: 2 };
//! // Some(("Expired", "service-date-time"))
//! let names = part_name(part);
//! ```
#![tactic(auto)]

mod each_table;
mod lookup;
mod names;
mod node;
mod node_rows;
mod number;
mod part;
mod profile;
mod table;

pub use lookup::{kind, row, row_name, row_node, rows, twin};
pub use names::{node_name, part_name, row_names};
pub use node::{Kind, LeafKind, NodeId};
pub use number::{Enumeration, enumeration_of, number_name, number_names, numbers};
pub use part::{Mode, PartId, Presence, Row};
pub use profile::Profile;
pub use table::rows_of;
