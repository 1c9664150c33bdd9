//! Tests alone: of the program's jobs, of dumps, and of the calls of all libraries where no memory is left. They are in a crate of their own,
//! so that what they test is proved once and not once more with them.
//!
//! `rt try` can't run those of memory: what it watches memory with needs memory itself.
#![tactic(auto)]

#[cfg(test)]
mod dump;
#[cfg(test)]
mod jobs;
#[cfg(test)]
mod memory;
