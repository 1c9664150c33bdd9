//! The elements that octets in BER encode (X.690): their tags, identifier octets, length octets and contents octets. It has the definitions that
//! every other crate stands on, and one type; `ber_core` re-exports it, and reads and writes.
#![tactic(auto)]

mod class;

pub use class::Class;
