//! Jobs on the messages of one input.
ghost use Rattle.std.specs.Prelude.{IfErr, IfOk, IfSome, IsTrue};
ghost use Rattle.ber_leaf.specs.Profile.{profile_two};
ghost use Rattle.ill_schema.specs.Profiles.{profile_of};
ghost use Rattle.ill_tables.specs.declared.profile.Profile.{Profile as Named};
ghost use Rattle.ill_normal.specs.Calls.{putting, taking};
ghost use Rattle.ill_normal.specs.Reading.{reporting};
ghost use Rattle.ill_commands.specs.Runs.{DoesMessages, JobDone, JobFails, RefusesFirst, RefusesMore, RefusesText, RunDone, RunFails, RunsJob};

use crate::job::{Job, JobOptions, answer_of};
use crate::write_job::WriteJob;
use ber_core::{Sink, Source};
use ill_normal::{
    NoReports, OnRefusal, Reading, ReportRefusals, RunFault, StreamEnd, Verdict, read_input,
};
use ill_schema::Profile;
use std::alloc::Global;

/// Does a job with the messages of an input that no line names, one after another up to its end. With
/// `hex` the input is hexadecimal text, which is read whole first; otherwise one message is held at a
/// time. All memory that a message's output needs is taken before any of it is written. Whatever the
/// result, at most 4,194,305 octets are taken of a text; of other input at most 1,048,576 octets are taken
/// after the last message that was done, and at most one after 1,000,000 messages.
///
/// # Errors
///
/// The reason why the job was not done to the end of the input, see [`RunFault`].
///
/// # Examples
///
/// ```
/// let verdict = run(alloc, Job::Check, false, &mut source, &mut sink)?;
/// ```
pub fn run<R: Source, W: Sink>(
    alloc: Global,
    job: Job,
    hex: bool,
    source: &mut R,
    sink: &mut W,
) -> Result<Verdict, RunFault>
    // The input was messages to its end, and their output was written.
    ensures done { IfOk result (JobDone Named.Two job hex
        (taking (R.left source.old) (R.left source.new) (R.is_broken source.new))
        (putting (W.contents sink.old) (W.contents sink.new) (W.is_broken sink.new))) }
    ensures fails { IfErr result (JobFails Named.Two job hex
        (taking (R.left source.old) (R.left source.new) (R.is_broken source.new))
        (putting (W.contents sink.old) (W.contents sink.new) (W.is_broken sink.new))) }
    // Each input has one result, unless memory, the source or the sink fails.
    ensures does { IfSome (R.left source.old) (λ s. DoesMessages profile_two job hex s result) }
    ensures refuses { IfSome (R.left source.old) (λ s. RefusesFirst profile_two hex s result) }
    ensures too_many { IfSome (R.left source.old) (λ s. RefusesMore profile_two hex s result) }
    ensures no_hex { IfSome (R.left source.old) (λ s. RefusesText hex s result) }
    ensures source_stays { IsTrue (R.is_broken source.old) → IsTrue (R.is_broken source.new) }
    ensures sink_stays { IsTrue (W.is_broken sink.old) → IsTrue (W.is_broken sink.new) }
{
    run_as(alloc, Profile::Two, job, hex, source, sink)
}

/// Does a job as [`run`] does, with messages of the profile.
///
/// # Errors
///
/// Those of [`run`], in the profile.
///
/// # Examples
///
/// ```
/// let verdict = run_as(alloc, Profile::Module, Job::Check, false, &mut source, &mut sink)?;
/// ```
pub fn run_as<R: Source, W: Sink>(
    alloc: Global,
    profile: Profile,
    job: Job,
    hex: bool,
    source: &mut R,
    sink: &mut W,
) -> Result<Verdict, RunFault>
    // The input was messages to its end, and their output was written.
    ensures done { IfOk result (JobDone profile job hex
        (taking (R.left source.old) (R.left source.new) (R.is_broken source.new))
        (putting (W.contents sink.old) (W.contents sink.new) (W.is_broken sink.new))) }
    ensures fails { IfErr result (JobFails profile job hex
        (taking (R.left source.old) (R.left source.new) (R.is_broken source.new))
        (putting (W.contents sink.old) (W.contents sink.new) (W.is_broken sink.new))) }
    // Each input has one result, unless memory, the source or the sink fails.
    ensures does { IfSome (R.left source.old)
        (λ s. DoesMessages (profile_of profile) job hex s result) }
    ensures refuses { IfSome (R.left source.old)
        (λ s. RefusesFirst (profile_of profile) hex s result) }
    ensures too_many { IfSome (R.left source.old)
        (λ s. RefusesMore (profile_of profile) hex s result) }
    ensures no_hex { IfSome (R.left source.old) (λ s. RefusesText hex s result) }
    ensures source_stays { IsTrue (R.is_broken source.old) → IsTrue (R.is_broken source.new) }
    ensures sink_stays { IsTrue (W.is_broken sink.old) → IsTrue (W.is_broken sink.new) }
{
    let work = JobOptions {
        profile,
        ..JobOptions::new(job, hex)
    };
    run_with(alloc, work, source, sink)
}

/// Does a job as [`run`] does, on an input whose lines may name it. The work stops at a refused message, whatever its options say.
///
/// # Errors
///
/// Those of [`run`].
///
/// # Examples
///
/// ```
/// let options = JobOptions { name: "messages.ber", names_input: true, ..JobOptions::new(Job::Check, false) };
/// let verdict = run_with(alloc, options, &mut source, &mut sink)?;
/// ```
pub fn run_with<R: Source, W: Sink>(
    alloc: Global,
    work: JobOptions<'_>,
    source: &mut R,
    sink: &mut W,
) -> Result<Verdict, RunFault>
    // The input was messages to its end, and their output was written.
    ensures done { IfOk result (RunDone work.entry.hex work.entry
        (R.left source.old) (R.left source.new) (W.contents sink.old) (W.contents sink.new)) }
    ensures fails { IfErr result (RunFails work.entry.hex work.entry
        (taking (R.left source.old) (R.left source.new) (R.is_broken source.new))
        (putting (W.contents sink.old) (W.contents sink.new) (W.is_broken sink.new))) }
    // Each input has one result, unless memory, the source or the sink fails.
    ensures does { IfSome (R.left source.old)
        (λ s. DoesMessages (profile_of work.entry.profile) work.entry.job work.entry.hex s result) }
    ensures refuses { IfSome (R.left source.old)
        (λ s. RefusesFirst (profile_of work.entry.profile) work.entry.hex s result) }
    ensures too_many { IfSome (R.left source.old)
        (λ s. RefusesMore (profile_of work.entry.profile) work.entry.hex s result) }
    ensures no_hex { IfSome (R.left source.old) (λ s. RefusesText work.entry.hex s result) }
    ensures source_stays { IsTrue (R.is_broken source.old) → IsTrue (R.is_broken source.new) }
    ensures sink_stays { IsTrue (W.is_broken sink.old) → IsTrue (W.is_broken sink.new) }
{
    let stopping = JobOptions {
        on_refusal: OnRefusal::Stop,
        ..work
    };
    let end = run_job(alloc, stopping, source, sink, &mut NoReports);
    answer_of(work.job, end)
}

/// Does a job with the messages of an input. Where its work goes on after a refused message, that is reported. Those that
/// `work` doesn't compare with their normal forms all count as good.
///
/// ```
/// let end = run_job(alloc, work, source, sink, reports);
/// ```
pub fn run_job<R: Source, W: Sink, T: ReportRefusals>(
    alloc: Global,
    work: JobOptions<'_>,
    source: &mut R,
    sink: &mut W,
    reports: &mut T,
) -> StreamEnd
    ensures reads { RunsJob work.entry
        (taking (R.left source.old) (R.left source.new) (R.is_broken source.new))
        (putting (W.contents sink.old) (W.contents sink.new) (W.is_broken sink.new))
        (reporting (T.reported reports.old) (T.reported reports.new)) result }
    ensures source_stays { IsTrue (R.is_broken source.old) → IsTrue (R.is_broken source.new) }
    ensures sink_stays { IsTrue (W.is_broken sink.old) → IsTrue (W.is_broken sink.new) }
{
    let reading = Reading {
        hex: work.hex,
        on_refusal: work.on_refusal,
        only: None,
    };
    let mut writer = WriteJob::new(alloc, work);
    read_input(reading, &mut writer, source, sink, reports)
}
