//! Results as lines of JSON, those of refused messages among them.
ghost use Rattle.std.specs.Prelude.{◌≡◌, IfOk};
ghost use Rattle.ill_normal.specs.Calls.{taking};
ghost use Rattle.ill_inputs.specs.declared.place.RefusalPlace.{RefusalPlace};
ghost use Rattle.ill_commands.specs.Output.{is_counted_good};
ghost use Rattle.ill_commands.specs.Refusals.{IsRefusedLine};
ghost use Rattle.ill_commands.specs.code.Rendering.{needs_of};
ghost use Rattle.ill_cli.specs.code.Puts.{AreLinesPut};
ghost use Rattle.ill_cli.specs.code.Results.{BreaksResult, WritesResult};
ghost use Rattle.ill_cli.specs.Plans.{is_json_result};

use crate::input::job_verdict;
use crate::report_lines::KeepReports;
use crate::summary::KindCounts;
use crate::tally::Tally;
use ber_core::{Sink, Source, put_all};
use ill_commands::{Job, JobOptions, RefusalReport, RefusedLine, Verdict, WriteJob, refused_json};
use ill_dump::place_of_refusal;
use ill_files::ProgramError;
use ill_normal::{
    MessagePlace, PutError, ReadMessage, Reading, Wants, WriteItems, Written, read_input,
};
use ill_schema::Profile;
use std::alloc::{AllocError, Global};
use std::io::Write;
use std::mem;

/// Tells whether the results of a job are lines of JSON.
pub(crate) fn has_json_result(job: Job) -> bool
    ensures { result ≡ is_json_result job }
{
    matches!(job, Job::CheckJson | Job::DigestJson)
}

/// Writes a line of JSON for each message of an input, accepted or refused.
#[derive(Drop)]
pub(crate) struct WriteResults<'a> {
    alloc: Global,
    /// Writes the lines of accepted messages.
    job: WriteJob<'a>,
    /// Memory for the line of a refused message.
    buffer: Vec<u8>,
    /// The kinds of the refused messages.
    kinds: KindCounts,
}

impl<'a> WriteResults<'a> {
    /// A writer for this work.
    pub(crate) fn new(alloc: Global, work: JobOptions<'a>) -> WriteResults<'a>
        ensures { result.job.work ≡ work.entry }
    {
        WriteResults {
            alloc,
            job: WriteJob::new(alloc, work),
            buffer: Vec::new(alloc),
            kinds: KindCounts::NONE,
        }
    }
}

impl<'a> WriteItems for WriteResults<'a> {
    type Options = JobOptions<'a>;

    ghost options = { λ writer. writer.job.work };

    ghost is_ready = { λ _. Unit {0} };

    ghost reads = { λ work. work.profile };

    ghost needs = { λ work. needs_of work.job work.compares };

    ghost writes = { λ work. WritesResult work };

    ghost fails = { λ work. BreaksResult work };

    ghost is_good = { λ work. is_counted_good work };

    fn alloc(&self) -> Global {
        self.alloc
    }

    fn profile(&self) -> Profile {
        self.job.profile()
    }

    fn wants(&self) -> Wants {
        self.job.wants()
    }

    fn accepted<W: Sink>(
        &mut self,
        place: MessagePlace,
        message: &mut ReadMessage,
        sink: &mut W,
    ) -> Result<Written, PutError> {
        self.job.accepted(place, message, sink)
    }

    fn refused<W: Sink>(
        &mut self,
        report: RefusalReport,
        octets: &[u8],
        sink: &mut W,
    ) -> Result<u64, PutError> {
        let buffer = mem::replace(&mut self.buffer, Vec::new(self.alloc));
        let RefusedLine { line, kind } = match line_of(
            self.alloc,
            self.job.work,
            report,
            octets,
            buffer,
        ) {
            Ok(refused) => refused,
            Err(AllocError) => return Err(PutError::OutOfMemory),
        };
        self.kinds.add(kind);
        let put = put_all(sink, &line);
        let len = line.len() as u64;
        self.buffer = line;
        match put {
            Ok(()) => Ok(len),
            Err(count) => Err(PutError::Broken(count as u64)),
        }
    }
}

/// The line of a message that is refused, in the memory of `buffer`, with its place in words.
fn line_of(
    alloc: Global,
    work: JobOptions<'_>,
    report: RefusalReport,
    octets: &[u8],
    buffer: Vec<u8>,
) -> Result<RefusedLine, AllocError>
    ensures { IfOk result (λ refused. (place : RefusalPlace)
        × IsRefusedLine work.entry report octets.now place refused.kind refused.line.items) }
{
    let place = place_of_refusal(alloc, work.profile, octets, report.refusal)?;
    refused_json(alloc, work, report, octets, &place, buffer)
}

/// Writes the result of each message of a source, of refused ones too.
pub(crate) fn put_results<S: Source, W: Sink, P, Q>(
    mut writer: WriteResults<'_>,
    source: &mut S,
    sink: &mut W,
    mut reports: KeepReports<'_, P, Q>,
    tally: &mut Tally<'_>,
) -> Result<Verdict, ProgramError>
where
    P: Write + Drop,
    Q: Write + Drop,
    ensures { AreLinesPut writer.entry.job.work
        (taking (S.left source.old) (S.left source.new) (S.is_broken source.new))
        tally.old.summary tally.new result }
{
    let work = writer.job.work;
    let reading = Reading {
        hex: work.hex,
        on_refusal: work.on_refusal,
        only: None,
    };
    let end = read_input(reading, &mut writer, source, sink, &mut reports);
    let last = reports.end(tally);
    tally.summary.add_kinds(writer.kinds);
    job_verdict(work.job, tally.add_input(end, work.on_refusal, last))
}
