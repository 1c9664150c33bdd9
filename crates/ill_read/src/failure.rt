ghost use Rattle.std.specs.Prelude.{◌≡◌};
ghost use Rattle.ill_read.specs.declared.failure.Failure.{Failure};
ghost use Rattle.ill_read.specs.declared.failure.ReadFailure.{ReadFailure};
ghost use Rattle.ill_read.specs.Failures.{read_failure};

use ill_schema::{Cause, Refusal};
use std::alloc::{AllocError, AllocFailed};

/// The reason why octets come to no message.
#[derive(Clone, Copy, Debug, PartialEq, Eq)]
pub enum Failure {
    Refused(Refusal),
    OutOfMemory,
}

impl Failure {
    pub(crate) fn refused(at: u32, cause: Cause) -> Failure
        ensures { result ≡ Failure.Refused (record { at = at; cause = cause }) }
    {
        Failure::Refused(Refusal { at, cause })
    }
}

impl From<AllocError> for Failure {
    ghost from_gives = { λ _ failure. failure ≡ Failure.OutOfMemory };

    fn from(_error: AllocError) -> Failure {
        Failure::OutOfMemory
    }
}

impl<T: Drop> From<AllocFailed<T>> for Failure {
    ghost from_gives = { λ _ failure. failure ≡ Failure.OutOfMemory };

    fn from(_error: AllocFailed<T>) -> Failure {
        Failure::OutOfMemory
    }
}

/// The reason why no message is read from a source.
#[derive(Clone, Copy, Debug, PartialEq, Eq)]
pub enum ReadFailure {
    Refused(Refusal),
    OutOfMemory,
    /// The source is broken.
    ReadFault,
}

impl From<Failure> for ReadFailure {
    ghost from_gives = { λ failure read. read ≡ read_failure failure };

    fn from(failure: Failure) -> ReadFailure {
        match failure {
            Failure::Refused(refusal) => ReadFailure::Refused(refusal),
            Failure::OutOfMemory => ReadFailure::OutOfMemory,
        }
    }
}
