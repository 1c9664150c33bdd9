//! Shared helpers of the test crates: octets, texts, messages and values from words, all memory that there is, and outcomes of calls.
#![tactic(auto)]

mod memory_hog;
mod octets;
mod outcome;
mod texts;
mod words;

pub use memory_hog::MemoryHog;
pub use octets::octets_of;
pub use outcome::Outcome;
pub use texts::{date_text, general_string, general_text};
pub use words::{message, value};
