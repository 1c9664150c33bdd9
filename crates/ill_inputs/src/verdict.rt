//! Verdicts of jobs.

/// The verdict of a job that was done.
#[derive(Clone, Copy, Debug, PartialEq, Eq)]
pub enum Verdict {
    /// All messages are as they should be.
    Good,
    /// `Check` met a message that isn't its normal form, or two messages are different.
    NotGood,
}
