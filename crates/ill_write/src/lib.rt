//! The normal forms of messages that are built in code: measured first, and then written forward in one pass to any sink. Use it to send
//! a message.
//!
//! ```
//! let octets = normal_bytes(alloc, &message)?;
//! ```
#![tactic(auto)]

mod buffered_sink;
mod element;
mod failure;
mod laws;
mod measure;
mod normal;
mod pieces;
mod put;
mod sizes;
mod write;

pub use failure::WriteFailure;
pub use laws::normal_size_counts_normal_forms;
pub use normal::{normal_bytes, write_normal};
pub use sizes::Sizes;
