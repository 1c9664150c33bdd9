//! The reasons why a job was not done.
ghost use Rattle.std.specs.Prelude.{◌≡◌};
ghost use Rattle.ill_inputs.specs.declared.run_fault.RunFault.{RunFault};

use crate::side::Side;
use ill_schema::Refusal;
use std::alloc::AllocError;

/// The reason why a job was not done. Messages are numbered from 1, and a refusal's offset counts from the
/// first octet of its message.
#[derive(Clone, Copy, Debug, PartialEq, Eq)]
pub enum RunFault {
    /// A message is refused. The output of those before it was written.
    Refused { message: u32, refusal: Refusal },
    /// One of two inputs that were to be compared isn't one message. Nothing was written.
    RefusedSide(Side, Refusal),
    /// The hexadecimal digits are odd in number. Nothing was written.
    OddHex,
    /// The octet at this place isn't a hexadecimal digit; places are counted from 0, without
    /// spaces, tabs and line ends. Nothing was written.
    BadHex(u64),
    /// The hexadecimal text has more than 4,194,304 octets. Nothing was written.
    HexTooLong,
    /// The input goes on after 1,000,000 messages. Their output was written.
    TooManyMessages,
    /// A message is refused, and the receiver of its report stopped the work. The output of the messages before was written.
    NotReported,
    /// Out of memory. The output of the messages before was written.
    OutOfMemory,
    /// The source is broken. The output of the messages before was written.
    ReadFault,
    /// The sink is broken: exactly the first n octets of the output were written.
    WriteFault(u128),
}

impl From<AllocError> for RunFault {
    ghost from_gives = { λ _ fault. fault ≡ RunFault.OutOfMemory };

    fn from(_error: AllocError) -> RunFault {
        RunFault::OutOfMemory
    }
}
