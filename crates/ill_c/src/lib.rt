//! The calls for C, over messages in memory. `bindings/c/illcanon.h` declares them, and says what a caller owes.
//!
//! A slice is a pointer and a length there. Each call returns the number of a [`Status`]. What it leaves in the caller's memory is
//! exactly what its contract says: a buffer is written only where the call is done, and nothing after the octets.
#![tactic(auto)]

mod build;
mod build_cause;
mod cause;
mod dump;
mod frame;
mod front;
mod json;
mod laws;
mod next;
mod octets;
mod profile;
mod put;
mod refusal;
mod status;
mod verdict;
mod version;
mod whole;

pub use build::{illcanon_build, illcanon_build_as, illcanon_build_with_defaults};
pub use build_cause::illcanon_build_cause_name;
pub use cause::{illcanon_cause_clause, illcanon_cause_name};
pub use dump::{illcanon_dump, illcanon_dump_as};
pub use frame::illcanon_frame;
pub use json::{illcanon_json, illcanon_json_as};
pub use laws::{calls_have_one_result, parts_are_short};
pub use next::{
    illcanon_next, illcanon_next_as, illcanon_normalise_next, illcanon_normalise_next_as,
};
pub use octets::{
    illcanon_digest, illcanon_digest_as, illcanon_normalise, illcanon_normalise_as, illcanon_show,
    illcanon_show_as,
};
pub use refusal::IllcanonRefusal;
pub use status::Status;
pub use verdict::{illcanon_check, illcanon_check_as, illcanon_same, illcanon_same_as};
pub use version::illcanon_version;
