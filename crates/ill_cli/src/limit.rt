//! The greatest number of refused messages or lines that a command reports.
ghost use Rattle.std.specs.Prelude.{◌≡◌, ◌↔◌, IsTrue};
ghost use Rattle.ill_cli.specs.Limit.{error_at, is_stopped, limit_at, line_error_at, with_one};

use ill_files::{ProgramError, RefusedCount};
use ill_inputs::Verdict;

/// The number of refused messages, or of refused lines, that a command reports before its work ends.
#[derive(Clone, Copy)]
pub struct RefusalLimit {
    most: Option<u32>,
    /// The number of those that were reported.
    count: u32,
}

impl RefusalLimit {
    /// The work ends with the refused message or line of the number `most`, or is not limited.
    pub fn new(most: Option<u32>) -> RefusalLimit
        ensures { result ≡ limit_at most }
    {
        RefusalLimit { most, count: 0 }
    }

    /// Counts one that is refused, and tells whether the work ends with it.
    pub fn ends_with_next(&mut self) -> bool
        ensures counts { self.new ≡ with_one self.old }
        ensures ends { IsTrue result ↔ self.old.most ≡ Some self.new.count }
    {
        self.count = self.count.saturating_add(1);
        self.most == Some(self.count)
    }

    /// The error of work on messages that ended so.
    pub fn error(&self) -> ProgramError
        ensures { result ≡ error_at self.now }
    {
        ProgramError::RefusedEnough(RefusedCount::Messages(self.count))
    }

    /// The error of work on lines that ended so.
    pub fn line_error(&self) -> ProgramError
        ensures { result ≡ line_error_at self.now }
    {
        ProgramError::RefusedEnough(RefusedCount::Lines(self.count))
    }
}

/// Tells whether the work on all files ends.
pub fn is_stopped(done: &Result<Verdict, ProgramError>) -> bool
    ensures { result ≡ is_stopped done.now }
{
    matches!(done, Err(ProgramError::RefusedEnough(_)))
}
