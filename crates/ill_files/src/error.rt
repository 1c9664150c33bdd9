//! The line that the program prints where it fails, and the status that it ends with.
ghost use Rattle.std.specs.Prelude.{◌≡◌, [], ◌∷◌, true, IsTrue};
ghost use Rattle.ill_files.specs.Status.{is_output_lost, is_read_fault, keeps_output, keeps_refused, line_status_is, loses_output, run_status_is, status_is, worst};

use crate::count::Count;
use crate::names::{FileName, FileNameRef};
use crate::opening::{NAME_NOT_TEXT, why_not_opened};
use crate::replacement::ReplaceObstacle;
use clap::Error as LineError;
use clap::error::ErrorKind;
use ill_args::LineFault;
use ill_inputs::{RunFault, Side, Verdict};
use ill_schema::{Cause, Refusal};
use std::alloc::Global;
use std::rt::Files;
use std::{fmt, fs, io, str};
use thiserror::Error;

/// An error that ends the work on a file, or all work. Each is printed as one line.
#[derive(Debug, Drop, Error)]
pub enum ProgramError {
    /// The words give no order.
    #[error("{0}")]
    Line(LineFault),
    /// The words give no order, and have hidden characters, so that they are not printed.
    #[error("the words are no command line, and have hidden characters")]
    HiddenCharacters,
    /// The job was not done to the end of its input.
    #[error("{0}")]
    Run(RunLine),
    /// The input has no message of the number that is asked for. Nothing was written.
    #[error("{0}")]
    NoMessage(MissingMessage),
    /// The input and the output are one regular file. Nothing was written.
    #[error("IN and OUT are the same file")]
    SameFile,
    /// The file of refused messages is another regular file of the command. Nothing was written.
    #[error("--refused needs a file of its own")]
    RefusedIsShared,
    /// The list of names is empty, and the words name no file. Nothing was written.
    #[error("the list names no file")]
    EmptyList,
    /// This number of messages or lines is refused, and no more of them were asked for.
    #[error("stopped after {0}")]
    RefusedEnough(RefusedCount),
    /// A file with this name can't be opened for reading or writing, since the system's call failed so.
    #[error("cannot open {0}")]
    CannotOpen(FileName, io::ErrorKind),
    /// No new file can be written or given this name, for this reason. The file with this name is as it was.
    #[error("cannot replace {0}: {1}")]
    CannotReplace(FileName, ReplaceObstacle),
    /// The output was to be written to a new file beside the file with this name, but all names for it are taken. Nothing was written.
    #[error("cannot write {0}: all names from {0}.part to {0}.part99 are taken")]
    NamesAreTaken(FileName),
    /// The end of the output could not be written. A file that was to be replaced is as it was.
    #[error("flush fault")]
    Flush,
    /// Nobody reads the output any more. This is printed as no line.
    #[error("the output is closed")]
    Closed,
}

impl ProgramError {
    /// Memory ran out outside a job.
    pub fn out_of_memory() -> ProgramError {
        ProgramError::from(RunFault::OutOfMemory)
    }

    /// The end of the output could not be written, for this reason.
    pub fn of_output(error: &io::Error) -> ProgramError
        ensures { is_output_lost (Err result) ≡ true }
    {
        match error.kind() {
            io::ErrorKind::BrokenPipe => ProgramError::Closed,
            _ => ProgramError::Flush,
        }
    }

    /// The file with this name can't be opened for reading or writing, since the system's call failed so.
    pub fn cannot_open(alloc: Global, name: &str, kind: io::ErrorKind) -> ProgramError {
        // A word of the command line that is no UTF-8 text begins so.
        let kind = if name.starts_with('\0') {
            NAME_NOT_TEXT
        } else {
            kind
        };
        match FileName::of(alloc, name) {
            Ok(name) => ProgramError::CannotOpen(name, kind),
            Err(_) => ProgramError::out_of_memory(),
        }
    }

    /// The file with this name can't be replaced, for this reason.
    pub fn cannot_replace(alloc: Global, name: &str, obstacle: ReplaceObstacle) -> ProgramError {
        match FileName::of(alloc, name) {
            Ok(name) => ProgramError::CannotReplace(name, obstacle),
            Err(_) => ProgramError::out_of_memory(),
        }
    }

    /// All names for a new file beside the one with this name are taken.
    pub fn names_are_taken(alloc: Global, name: &str) -> ProgramError {
        match FileName::of(alloc, name) {
            Ok(name) => ProgramError::NamesAreTaken(name),
            Err(_) => ProgramError::out_of_memory(),
        }
    }
}

impl From<LineFault> for ProgramError {
    ghost use Rattle.std.specs.Prelude.{◌≡◌};
    ghost use Rattle.ill_files.specs.declared.error.ProgramError.{ProgramError};

    ghost from_gives = { λ fault result. result ≡ ProgramError.Line fault };

    fn from(fault: LineFault) -> ProgramError {
        ProgramError::Line(fault)
    }
}

impl From<RunFault> for ProgramError {
    ghost use Rattle.std.specs.Prelude.{◌≡◌};
    ghost use Rattle.ill_files.specs.declared.error.ProgramError.{ProgramError};

    ghost from_gives = { λ fault result. result ≡ ProgramError.Run (record { 0 = fault }) };

    fn from(fault: RunFault) -> ProgramError {
        ProgramError::Run(RunLine(fault))
    }
}

/// The number of a message that an input doesn't have, and how many messages it has, as a line.
#[derive(Clone, Copy, Debug, PartialEq, Eq)]
pub struct MissingMessage {
    pub number: u32,
    pub count: u32,
}

impl fmt::Display for MissingMessage {
    fn fmt<W: fmt::Write>(&self, f: &mut fmt::Formatter<W>) -> fmt::Result {
        let count = Count(u64::from(self.count), "message");
        write!(f, "no message {}: the input has {count}", self.number)
    }
}

/// The number of messages or lines that are refused.
#[derive(Clone, Copy, Debug, PartialEq, Eq)]
pub enum RefusedCount {
    Messages(u32),
    Lines(u32),
}

impl fmt::Display for RefusedCount {
    fn fmt<W: fmt::Write>(&self, f: &mut fmt::Formatter<W>) -> fmt::Result {
        let count = match *self {
            RefusedCount::Messages(count) => Count(u64::from(count), "refused message"),
            RefusedCount::Lines(count) => Count(u64::from(count), "refused line"),
        };
        write!(f, "{count}")
    }
}

/// A fault of a job as one line.
#[derive(Clone, Copy, Debug, PartialEq, Eq)]
pub struct RunLine(pub RunFault);

impl fmt::Display for RunLine {
    fn fmt<W: fmt::Write>(&self, f: &mut fmt::Formatter<W>) -> fmt::Result {
        match self.0 {
            RunFault::Refused {
                message,
                refusal: Refusal { at, cause },
            } => {
                let cause = CauseName(cause);
                write!(f, "refused at {at} in message {message}: {cause}")
            }
            RunFault::RefusedSide(side, Refusal { at, cause }) => {
                let file = match side {
                    Side::First => "first",
                    Side::Second => "second",
                };
                let cause = CauseName(cause);
                write!(f, "refused at {at} in the {file} file: {cause}")
            }
            RunFault::OddHex => f.write_str("hex: odd number of digits"),
            RunFault::BadHex(place) => write!(f, "hex: bad digit at {place}"),
            RunFault::HexTooLong => f.write_str("hex: too long"),
            RunFault::TooManyMessages => f.write_str("more than 1000000 messages"),
            RunFault::NotReported => f.write_str("stopped after a refused message"),
            RunFault::OutOfMemory => f.write_str("out of memory"),
            RunFault::ReadFault => f.write_str("read fault"),
            RunFault::WriteFault(written) => write!(f, "write fault after {written} octets"),
        }
    }
}

/// A cause by its name, with the part that it is about.
#[derive(Clone, Copy, Debug, PartialEq, Eq)]
pub struct CauseName(pub Cause);

impl fmt::Display for CauseName {
    fn fmt<W: fmt::Write>(&self, f: &mut fmt::Formatter<W>) -> fmt::Result {
        let name = self.0.name();
        match self.0.part_name() {
            Some((node, row)) => write!(f, "{name} {node}.{row}"),
            None => f.write_str(name),
        }
    }
}

/// The exit status: 0 where all is well, or help was asked for; 1 for what is wrong with the messages; 2 for the command
/// line; 3 for memory, files and pipes.
pub fn status_of(done: &Result<Verdict, ProgramError>) -> u8
    ensures { result ≡ status_is done.now }
{
    match done {
        Ok(Verdict::Good) => 0,
        Ok(Verdict::NotGood) => 1,
        Err(ProgramError::Line(LineFault::Line(error))) => line_status(error),
        Err(
            ProgramError::Line(_)
            | ProgramError::HiddenCharacters
            | ProgramError::SameFile
            | ProgramError::RefusedIsShared
            | ProgramError::EmptyList,
        ) => 2,
        Err(ProgramError::Run(RunLine(fault))) => run_status(fault),
        Err(ProgramError::NoMessage(_) | ProgramError::RefusedEnough(_)) => 1,
        Err(
            ProgramError::CannotOpen(..)
            | ProgramError::CannotReplace(..)
            | ProgramError::NamesAreTaken(_)
            | ProgramError::Flush
            | ProgramError::Closed,
        ) => 3,
    }
}

fn run_status(fault: &RunFault) -> u8
    ensures { result ≡ run_status_is fault.now }
{
    match fault {
        RunFault::Refused { .. } | RunFault::RefusedSide(..) | RunFault::TooManyMessages => 1,
        RunFault::NotReported => 1,
        RunFault::OddHex | RunFault::BadHex(_) | RunFault::HexTooLong => 1,
        RunFault::OutOfMemory | RunFault::ReadFault | RunFault::WriteFault(_) => 3,
    }
}

/// The exit status of clap's error. Out of memory is 3, since the command line is not at fault.
fn line_status(error: &LineError) -> u8
    ensures { result ≡ line_status_is error.now }
{
    if error.kind() == ErrorKind::OutOfMemory {
        3
    } else if error.use_stderr() {
        2
    } else {
        0
    }
}

/// Combines the exit status of the files before with that of the next file: 3 comes before 1, and 1 before 0.
///
/// ```
/// let status = combined_status(1, 0);
/// assert!(status == 1);
/// ```
pub fn combined_status(before: u8, next: u8) -> u8
    ensures { result ≡ worst (before ∷ next ∷ []) }
{
    if before == 3 || next == 3 {
        3
    } else if before == 1 || next == 1 {
        1
    } else {
        0
    }
}

/// Tells whether some of the output was not written.
pub fn is_output_lost(done: &Result<Verdict, ProgramError>) -> bool
    ensures { result ≡ is_output_lost done.now }
{
    matches!(
        done,
        Err(
            ProgramError::Flush
                | ProgramError::Closed
                | ProgramError::Run(RunLine(RunFault::WriteFault(_)))
        )
    )
}

/// Tells whether an output that is a file stays as it was: some of the output was not written, the input could not be read, or memory ran out.
/// One that is replaced only as a `whole` stays as it was after any error, and where a message is refused.
pub fn keeps_output(whole: bool, done: &Result<Verdict, ProgramError>) -> bool
    ensures { result ≡ keeps_output whole done.now }
{
    match done {
        Ok(Verdict::Good) => false,
        Ok(Verdict::NotGood) => whole,
        Err(error) => whole || loses_output(error),
    }
}

fn loses_output(error: &ProgramError) -> bool
    ensures { result ≡ loses_output error.now }
{
    matches!(
        error,
        ProgramError::Flush
            | ProgramError::Closed
            | ProgramError::Run(RunLine(
                RunFault::OutOfMemory | RunFault::ReadFault | RunFault::WriteFault(_)
            ))
    )
}

/// Tells whether the file of refused messages stays as it was: an output stays so, or can't be replaced.
pub fn keeps_refused(done: &Result<Verdict, ProgramError>) -> bool
    ensures { result ≡ keeps_refused done.now }
{
    match done {
        Err(ProgramError::CannotReplace(..) | ProgramError::NamesAreTaken(_)) => true,
        done => keeps_output(false, done),
    }
}

/// Prints the error of one of several files as one line, which names the file, and says why it can't be opened.
pub fn print_error_of<R: Print + Eprint + Files>(
    rt: &R,
    name: &[u8],
    error: &ProgramError,
) -> io::Result<()> {
    match error {
        ProgramError::CannotOpen(name, kind) => print_unopened(rt, name, *kind),
        ProgramError::Closed => Ok(()),
        // These name the file themselves.
        ProgramError::CannotReplace(..) | ProgramError::NamesAreTaken(_) => {
            eprintln!(rt; "illcanon: {error}")
        }
        error if is_of_folder(rt, name, error) => {
            print_unopened(rt, &FileNameRef(name), io::ErrorKind::IsADirectory)
        }
        error => eprintln!(rt; "illcanon: {}: {error}", FileNameRef(name)),
    }
}

/// Prints that a file can't be opened, and why, where that is known.
fn print_unopened<R: Eprint, N: fmt::Display>(
    rt: &R,
    name: &N,
    kind: io::ErrorKind,
) -> io::Result<()> {
    match why_not_opened(kind) {
        Some(why) => eprintln!(rt; "illcanon: cannot open {name}: {why}"),
        None => eprintln!(rt; "illcanon: cannot open {name}"),
    }
}

/// Tells whether an error is that a folder was read: a folder can be opened, but not read.
pub fn is_of_folder<R: Files>(rt: &R, name: &[u8], error: &ProgramError) -> bool
    ensures { IsTrue result → is_read_fault error.now ≡ true }
{
    if !matches!(error, ProgramError::Run(RunLine(RunFault::ReadFault))) {
        return false;
    }
    let Ok(name) = str::from_utf8(name) else {
        return false;
    };
    fs::metadata(rt, name).is_ok_and(|found| found.is_dir())
}

/// Prints clap's text as it is, and any other error as one line on standard error.
pub fn print_error<R: Print + Eprint>(rt: &R, error: &ProgramError) -> io::Result<()> {
    match error {
        ProgramError::Line(
            LineFault::Line(error) | LineFault::Missing(error) | LineFault::Unexpected(error),
        ) => error.print(rt),
        ProgramError::Closed => Ok(()),
        _ => eprintln!(rt; "illcanon: {error}"),
    }
}
