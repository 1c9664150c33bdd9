//! Texts read back into octets and numbers: the octets whose characters or hexadecimal digits a text is, and the
//! whole number whose decimals it is. Use it to read what `ill_schema` and `ill_json` say texts are written as.
//!
//! Each text is of one list of octets, or of one number, and a text that is of none is told apart:
//!
//! ```
//! // Some([0x2A, 0x86, 0x48])
//! let octets = octets_of_hexadecimal(alloc, "2a8648")?;
//! // Err(NumberFault::NotWhole)
//! let number = whole_number("4.0");
//! ```
#![tactic(auto)]

mod characters;
mod hexadecimal;
mod number;
#[cfg(test)]
mod tests;

pub use characters::octets_of_characters;
pub use hexadecimal::octets_of_hexadecimal;
pub use number::{NumberFault, whole_number};
