//! The reasons why a message or a stream was not normalised.
ghost use Rattle.std.specs.Prelude.{◌≡◌};
ghost use Rattle.ill_normal.specs.Failures.{of_read};

use ill_read::ReadFailure;
use ill_schema::Refusal;

/// The reason why a message was not normalised.
#[derive(Clone, Copy, Debug, PartialEq, Eq)]
pub enum NormalFailure {
    /// The input begins with no message. Nothing was written.
    Refused(Refusal),
    /// Out of memory. Nothing was written.
    OutOfMemory,
    /// The source is broken. Nothing was written.
    ReadFault,
    /// The sink is broken: exactly the first n octets of the normal form were written.
    WriteFault(u32),
}

impl From<ReadFailure> for NormalFailure {
    ghost from_gives = { λ read failure. failure ≡ of_read read };

    fn from(read: ReadFailure) -> NormalFailure {
        match read {
            ReadFailure::Refused(refusal) => NormalFailure::Refused(refusal),
            ReadFailure::OutOfMemory => NormalFailure::OutOfMemory,
            ReadFailure::ReadFault => NormalFailure::ReadFault,
        }
    }
}

/// The reason why no further message of a stream was normalised.
#[derive(Clone, Copy, Debug, PartialEq, Eq)]
pub enum StreamCause {
    /// The next message was not normalised; a refusal's offset counts from that message's first octet.
    Normal(NormalFailure),
    /// 1,000,000 messages were normalised, and the input goes on.
    TooManyMessages,
}

/// The end of a stream that was not normalised to its end: how far it was, and the reason.
#[derive(Clone, Copy, Debug, PartialEq, Eq)]
pub struct StreamFailure {
    /// The number of messages that were read, and their normal forms written.
    pub whole: u32,
    /// The number of octets that those messages had in the input.
    pub before: u64,
    pub why: StreamCause,
}
