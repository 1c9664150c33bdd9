//! Two inputs, compared.
ghost use Rattle.std.specs.Prelude.{◌≡◌, IfErr, IfOk};
ghost use Rattle.ill_schema.specs.Profiles.{profile_of};
ghost use Rattle.ill_normal.specs.Calls.{putting, taking};
ghost use Rattle.ill_commands.specs.Compared.{SameDone, SameFails};

use crate::plan::ReadOptions;
use ber_core::{Sink, Source, ToWrite};
use ill_commands::{RunFault, Verdict, run_same_as};
use ill_files::{FileId, ProgramError, open_alone};
use std::alloc::Global;
use std::io::{self, BufWriter, Write};
use std::rt::Files;

/// Compares two inputs, and prints whether they hold the same message. Both are opened before either is read. Standard output must be neither
/// of them.
pub fn compare<R: Print + Input + Files + AllocGlobal>(
    rt: &R,
    reading: ReadOptions,
    first: &str,
    second: &str,
) -> Result<Verdict, ProgramError> {
    let alloc = rt.alloc();
    let written = FileId::of_standard_output(rt);
    let is_read = FileId::of_input(rt, first) == written || FileId::of_input(rt, second) == written;
    if written.is_some() && is_read {
        return Err(ProgramError::SameFile);
    }
    let mut first = open_alone(rt, first)?;
    let mut second = open_alone(rt, second)?;
    let mut writer = BufWriter::new(alloc, io::writer(rt)).map_err(
        |_| ProgramError::out_of_memory(),
    )?;
    let mut sink = ToWrite::new(&mut writer);
    let done = put_comparison(alloc, reading, &mut first, &mut second, &mut sink);
    flushed(done, &mut writer)
}

/// Writes whether two inputs hold the same message, each read as `reading` says.
fn put_comparison<R: Source, S: Source, W: Sink>(
    alloc: Global,
    reading: ReadOptions,
    first: &mut R,
    second: &mut S,
    sink: &mut W,
) -> Result<Verdict, RunFault>
    ensures done { IfOk result (SameDone (profile_of reading.profile) reading.hex
        (R.left first.old) (R.left first.new) (S.left second.old) (S.left second.new)
        (W.contents sink.old) (W.contents sink.new)) }
    ensures fails { IfErr result (SameFails (profile_of reading.profile) reading.hex
        (taking (R.left first.old) (R.left first.new) (R.is_broken first.new))
        (taking (S.left second.old) (S.left second.new) (S.is_broken second.new))
        (putting (W.contents sink.old) (W.contents sink.new) (W.is_broken sink.new))) }
{
    let ReadOptions { profile, hex, .. } = reading;
    run_same_as(alloc, profile, hex, first, second, sink)
}

/// Writes what is still in the buffer. A write error counts the octets that left the buffer, and is [`ProgramError::Closed`] where nobody reads the
/// output any more.
fn flushed<W: Write + Drop>(
    done: Result<Verdict, RunFault>,
    writer: &mut BufWriter<W>,
) -> Result<Verdict, ProgramError> {
    let flushed = writer
        .flush()
        .map_err(|error| ProgramError::of_output(&error));
    let kept = writer.buffer().len() as u128;
    match (done, flushed) {
        (_, Err(ProgramError::Closed)) => Err(ProgramError::Closed),
        (Err(RunFault::WriteFault(count)), _) => {
            Err(ProgramError::from(RunFault::WriteFault(count.saturating_sub(kept))))
        }
        (_, Err(error)) => Err(error),
        (Ok(verdict), Ok(())) => Ok(verdict),
        (Err(error), Ok(())) => Err(ProgramError::from(error)),
    }
}
