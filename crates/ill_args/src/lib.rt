//! The command line of the program `illcanon`: which order its words give, or why they give none. A caller needs it only to read the same
//! command line.
//!
//! ```
//! match order(alloc, &words) {
//!     Ok(order) => println!(rt; "{order:?}"),
//!     Err(fault) => println!(rt; "{fault}"),
//! }
//! ```
#![tactic(auto)]

mod argument;
mod build_help;
mod commands;
mod fault;
mod files;
mod flags;
mod help;
mod line;
mod matches;
mod orders;
mod program;
mod topics;

pub use fault::LineFault;
pub use line::order;
pub use orders::{
    BuildResults, Building, Elements, FileJob, FormJob, FormVerb, Inputs, KeepGoing, Limit,
    LineResults, Messages, Order, Reading, Report, Target, Verb, Work,
};
