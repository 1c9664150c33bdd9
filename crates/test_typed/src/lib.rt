//! Tests alone, of the typed parts and APDUs: a crate of their own, so that what they test is proved once and not once more
//! with them.
#![tactic(auto)]

#[cfg(test)]
mod tests;
