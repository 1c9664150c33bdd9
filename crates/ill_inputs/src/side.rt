//! The sides of a comparison.

/// One of two messages.
#[derive(Clone, Copy, Debug, PartialEq, Eq)]
pub enum Side {
    First,
    Second,
}
