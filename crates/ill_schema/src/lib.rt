//! The profiles of the tables, the values of ILL messages, what octets mean by them, the normal form, and the causes of refusals. Use it for
//! messages as values, and to look up names and rows, which it passes on from `ill_tables`.
//!
//! A part of a message has the names of the tables:
//!
//! ```
//! let part = PartId { node: NodeId::EXPIRED, row: 2 };
//! // Some(("Expired", "service-date-time"))
//! let names = part_name(part);
//! ```
#![tactic(auto)]

mod begun;
mod entry;
mod equality;
mod hexadecimal;
mod laws;
mod lookup;
mod message;
mod names;
mod profile;
mod refusal;
mod shape;
mod size;
mod tagging;
mod unfit;
mod value;

pub use begun::apdu_begun;
pub use entry::{is_carried, is_default, may_lack};
pub use equality::equal;
pub use hexadecimal::hexadecimal_digits;
pub use ill_tables::{
    Kind, LeafKind, Mode, NodeId, PartId, Presence, Profile, Row, kind, number_name, number_names,
    part_name, row, row_name, row_names, row_node, rows, rows_of,
};
pub use laws::{
    named_profiles, no_octets_change_their_meaning, normal_form_is_a_spelling,
    normal_form_is_no_longer, normal_form_is_one_to_one, normal_tree_means_the_value, one_meaning,
    one_value, profile_two_extends_profile_one, tables_are_well_formed,
    the_module_reads_profile_two, what_is_meant_fits, worked_messages,
};
pub use lookup::{kind_as, row_as, rows_as};
pub use message::Message;
pub use names::{apdu_name, apdu_name_as, apdu_node, apdu_node_as, part_name_as};
pub use profile::{node_as, root_as};
pub use refusal::{Cause, Refusal};
pub use shape::fits;
pub use size::{LIMIT, normal_size};
pub use tagging::{replacement, wrapper};
pub use unfit::Unfit;
pub use value::Value;
