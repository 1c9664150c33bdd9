//! The outcome of a call.
ghost use Rattle.std.specs.Prelude.{◌≡◌, if◌then◌else◌};

use std::alloc::AllocError;

/// The outcome of a call: what its test vector says, or out of memory with the state that is promised then, or neither.
#[derive(Clone, Copy, Debug, PartialEq, Eq)]
pub enum Outcome {
    Right,
    OutOfMemory,
    /// The arguments of the call couldn't be built.
    NotBegun,
    Wrong,
}

impl Outcome {
    /// Of a call that has no other error than out of memory.
    pub fn of<T: Drop>(made: Result<T, AllocError>) -> Outcome {
        match made {
            Ok(_) => Outcome::Right,
            Err(AllocError) => Outcome::OutOfMemory,
        }
    }

    /// The word that the script reads.
    pub fn words(self) -> &'static str {
        match self {
            Outcome::Right => "right",
            Outcome::OutOfMemory => "out of memory",
            Outcome::NotBegun => "not begun",
            Outcome::Wrong => "wrong",
        }
    }

    /// Right, if that holds.
    pub fn right(holds: bool) -> Outcome
        ensures { result ≡ (if holds then Outcome.Right else Outcome.Wrong) }
    {
        if holds {
            Outcome::Right
        } else {
            Outcome::Wrong
        }
    }

    /// Out of memory with the state that is promised then, if that holds.
    pub fn out_of_memory(holds: bool) -> Outcome
        ensures { result ≡ (if holds then Outcome.OutOfMemory else Outcome.Wrong) }
    {
        if holds {
            Outcome::OutOfMemory
        } else {
            Outcome::Wrong
        }
    }
}
