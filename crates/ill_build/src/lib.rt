//! Messages from lines of JSON. A line says an APDU, as `show --json` writes it, and is built into its normal form:
//!
//! ```
//! let line = br#"{"apdu":"Expired","value":{"protocol-version-num":2,"transaction-id":{"transaction-group-qualifier":{"general":"G"},
//!     "transaction-qualifier":{"general":"Q"}},"service-date-time":{"date-time-of-this-service":{"date":"20240229"}}}}"#;
//! let octets = build_line(alloc, Profile::Two, line)?;
//! ```
//!
//! Members come in any order. A member that has its default may be left out. A number that has a name is given by its number, by its name,
//! or by an object of both. Each other line has one fault: a [`BuildCause`] at one place.
#![tactic(auto)]

mod cause;
mod column;
mod defaults;
mod element;
mod fault_laws;
mod laws;
mod leaf;
mod line;
mod members;
mod number;
mod put;
mod stop;

pub use cause::BuildCause;
pub use column::column_of;
pub use defaults::write_defaults;
pub use fault_laws::{a_faulty_line_says_nothing, a_line_has_one_fault};
pub use laws::{
    lines_are_one_to_one, one_apdu_is_said, one_value_is_said, shown_lines_are_said,
    shown_values_are_said, what_is_shown_is_said,
};
pub use line::{BuildFailure, BuildRefusal, LINE_LIMIT, build_line};
