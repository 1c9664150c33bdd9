//! Tests alone: of tables and sizes, of inputs that are read, of normal forms that are written, and of streams.
#![tactic(auto)]

#[cfg(test)]
mod cells;
#[cfg(test)]
mod normal;
#[cfg(test)]
mod read;
#[cfg(test)]
mod schema;
#[cfg(test)]
mod write;
