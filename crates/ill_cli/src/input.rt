//! Results of a source, written to an output.
ghost use Rattle.std.specs.Prelude.{◌≡◌};
ghost use Rattle.ill_normal.specs.Calls.{taking};
ghost use Rattle.ill_cli.specs.code.Puts.{AreElementsPut, AreResultLinesPut, IsJobPut, dump_verdict, job_verdict, lines_verdict};

use crate::report_lines::PrintReports;
use crate::tally::Tally;
use ber_core::{Sink, Source};
use ill_commands::{
    Job, JobOptions, LineOptions, RunFault, Verdict, run_job, run_lines_as, verdict_of,
};
use ill_dump::{DumpOptions, run_dump};
use ill_files::{MissingMessage, ProgramError};
use ill_normal::Counts;
use std::alloc::Global;
use std::io::Write;

/// Does a job with the messages of a source. A line is printed for each refused one that the work goes on after.
pub(crate) fn put_messages<R: Eprint + AllocGlobal, S: Source, W: Sink, P, Q>(
    work: JobOptions<'_>,
    source: &mut S,
    sink: &mut W,
    mut reports: PrintReports<'_, R, P, Q>,
    tally: &mut Tally<'_>,
) -> Result<Verdict, ProgramError>
where
    P: Write + Drop,
    Q: Write + Drop,
    ensures { IsJobPut work.entry
        (taking (S.left source.old) (S.left source.new) (S.is_broken source.new))
        tally.old.summary tally.new result }
{
    let end = run_job(reports.rt.alloc(), work, source, sink, &mut reports);
    let last = reports.kept.end(tally);
    tally.summary.add_kinds(reports.kinds);
    job_verdict(work.job, tally.add_input(end, work.on_refusal, last))
}

/// The verdict of a job on an input that is counted so.
pub(crate) fn job_verdict(
    job: Job,
    counted: Result<Counts, ProgramError>,
) -> Result<Verdict, ProgramError>
    ensures { result ≡ job_verdict job counted }
{
    match counted {
        Ok(counts) => Ok(verdict_of(job, counts)),
        Err(error) => Err(error),
    }
}

/// Writes the elements of the messages of a source. A line is printed for each refused one that the work goes on after.
pub(crate) fn put_elements<R: Eprint + AllocGlobal, S: Source, W: Sink, P, Q>(
    dump: DumpOptions<'_>,
    source: &mut S,
    sink: &mut W,
    mut reports: PrintReports<'_, R, P, Q>,
    tally: &mut Tally<'_>,
) -> Result<Verdict, ProgramError>
where
    P: Write + Drop,
    Q: Write + Drop,
    ensures { AreElementsPut dump.entry
        (taking (S.left source.old) (S.left source.new) (S.is_broken source.new))
        tally.old.summary tally.new result }
{
    let end = run_dump(reports.rt.alloc(), dump, source, sink, &mut reports);
    let last = reports.kept.end(tally);
    tally.summary.add_kinds(reports.kinds);
    dump_verdict(dump.only, tally.add_input(end, dump.on_refusal, last))
}

/// The verdict of a dump of an input that is counted so, where the message of the number `only` is asked for, or each.
fn dump_verdict(
    only: Option<u32>,
    counted: Result<Counts, ProgramError>,
) -> Result<Verdict, ProgramError>
    ensures { result ≡ dump_verdict only counted }
{
    match (only, counted) {
        (_, Err(error)) => Err(error),
        (Some(number), Ok(counts)) if counts.messages < number => {
            let count = counts.messages;
            Err(ProgramError::NoMessage(MissingMessage { number, count }))
        }
        (_, Ok(counts)) if counts.refused == 0 => Ok(Verdict::Good),
        (_, Ok(_)) => Ok(Verdict::NotGood),
    }
}

/// Writes the result of each line.
pub(crate) fn put_lines<S: Source, W: Sink>(
    alloc: Global,
    work: LineOptions,
    source: &mut S,
    sink: &mut W,
) -> Result<Verdict, ProgramError>
    ensures { AreResultLinesPut work
        (taking (S.left source.old) (S.left source.new) (S.is_broken source.new)) result }
{
    lines_verdict(run_lines_as(alloc, work.profile, work.job, source, sink))
}

/// The verdict of work on lines that ended so.
fn lines_verdict(answer: Result<bool, RunFault>) -> Result<Verdict, ProgramError>
    ensures { result ≡ lines_verdict answer }
{
    match answer {
        Ok(true) => Ok(Verdict::Good),
        Ok(false) => Ok(Verdict::NotGood),
        Err(RunFault::WriteFault(_)) => Err(ProgramError::Flush),
        Err(fault) => Err(ProgramError::from(fault)),
    }
}
