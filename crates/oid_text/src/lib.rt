//! The text of an OBJECT IDENTIFIER (X.690, 8.19): decimals with dots between them, or hexadecimal digits where a number takes more than 63
//! bits. It reads the octets of such a text.
#![tactic(auto)]

mod components;
mod hexadecimal;
mod identifier;
mod number;
mod octets;
#[cfg(test)]
mod tests;

pub use identifier::octets_of_oid;
