//! The status that a call returns.
ghost use Rattle.std.specs.Prelude.{◌≡◌};
ghost use Rattle.ill_c.specs.Status.{status_number};

/// The status of a call. In C it is a number.
#[derive(Clone, Copy)]
pub enum Status {
    /// The call has done what it was asked for.
    Done,
    /// The octets are not what the call reads, and the refusal says why.
    Refused,
    /// Of two messages the first is one, and the second is refused.
    SecondRefused,
    /// The octets may be the beginning of a message: at least one more is needed.
    NeedsMore,
    /// The buffer is too short, and the size says how many octets it needs.
    NoRoom,
    /// Out of memory.
    OutOfMemory,
    /// The number that was given names no profile.
    UnknownProfile,
    /// The number that was given names no cause.
    UnknownCause,
}

impl Status {
    /// The number that C gets.
    pub fn number(self) -> u32
        ensures { result ≡ status_number self }
    {
        match self {
            Status::Done => 0,
            Status::Refused => 1,
            Status::SecondRefused => 2,
            Status::NeedsMore => 3,
            Status::NoRoom => 4,
            Status::OutOfMemory => 5,
            Status::UnknownProfile => 6,
            Status::UnknownCause => 7,
        }
    }
}
