//! Tests of `ill_cli`, the program between its words and its files, over a runtime of words, streams, files and faults. Tests are in
//! crates of their own, so that what they test is proved once and not a second time with them.
#![tactic(auto)]

#[cfg(test)]
mod tests;
