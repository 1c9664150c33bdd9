//! The reasons why a command line gives no order.
use clap::Error as LineError;
use std::alloc::AllocError;
use thiserror::Error;

/// The reason why a command line gives no order.
#[derive(Debug, Drop, Error)]
pub enum LineFault {
    /// A report of `clap`: a mistake, help that was asked for, or that memory ran out.
    #[error("{0}")]
    Line(LineError),
    /// The two files of `same` are `-`, or IN and OUT are the same word other than `-`.
    #[error("the same word twice")]
    SameWord,
    /// Standard input would be read twice by a command other than `same`.
    #[error("standard input is named twice")]
    InputTwice,
    /// OUT of `-o OUT` is a word among the files that are read, or their list.
    #[error("OUT is one of the files that are read")]
    OutputIsRead,
    /// A file is missing. The text is that of clap for an argument that is required.
    #[error("{0}")]
    Missing(LineError),
    /// There are more words than IN and OUT. The text is that of clap for an argument that is unknown.
    #[error("{0}")]
    Unexpected(LineError),
    /// Lines are texts of their own.
    #[error("--lines excludes --hex")]
    LinesAndHex,
    /// Each line has its result, and none is passed over.
    #[error("--lines excludes --keep-going")]
    LinesAndKeepGoing,
    /// Each line has its result, and is not counted.
    #[error("--lines excludes --summary")]
    LinesAndSummary,
    /// Each line has its result in words.
    #[error("--lines excludes --json")]
    LinesAndJson,
    /// The lines of none or of several files.
    #[error("--lines reads one FILE")]
    NotOneFile,
    /// The first refused message ends the work.
    #[error("--refused needs --keep-going")]
    RefusedNeedsKeepGoing,
    /// The first refused message ends the work.
    #[error("--max-refused needs --keep-going")]
    MaxRefusedNeedsKeepGoing,
    /// The file of refused messages is standard output, or another file of the command.
    #[error("--refused needs a file of its own")]
    RefusedIsShared,
    /// Standard output can't be replaced.
    #[error("--whole needs a file for OUT")]
    WholeNeedsFile,
}

impl From<AllocError> for LineFault {
    ghost use Rattle.ill_args.specs.Refused.{IsOutOfMemory};

    ghost from_gives = { λ _ fault. IsOutOfMemory fault };

    fn from(error: AllocError) -> LineFault {
        LineFault::Line(LineError::from(error))
    }
}
