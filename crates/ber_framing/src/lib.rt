//! The end of one element of BER, found by identifiers and lengths alone (X.690, 8.1). Use it to cut elements out of a stream without
//! reading them.
//!
//! ```
//! let mut framer = Framer::new();
//! let count = framer.feed(octets);
//! if framer.framing() == Framing::Whole {
//!     return Some(&octets[..count]);
//! }
//! ```
#![tactic(auto)]

mod framer;
mod laws;

pub use framer::{Framer, Framing};
pub use laws::{one_frame, spellings_are_framed};
