//! Foreign trees: what stands where the type is open (X.690, 8.15). It tells whether octets are the encoding in DER of one such tree.
#![tactic(auto)]

mod element;
mod foreign;
mod shortest;
#[cfg(test)]
mod tests;

pub use foreign::is_foreign_encoding;
