//! Lines of JSON that are built, and what is done with those that are refused.
ghost use Rattle.std.specs.Prelude.{◌≡◌, ◌++◌, List, ℕ, codes, IfOk, OnErr, OnOk};
ghost use Rattle.ill_schema.specs.Apdu.{Apdu};
ghost use Rattle.ill_normal.specs.Calls.{taking};
ghost use Rattle.ill_commands.specs.declared.lines.answer.LineVerdict.{LineVerdict as VerdictOf};
ghost use Rattle.ill_cli.specs.Builds.{IsBuiltResult, IsUnbuiltResult, IsUnbuiltVerdict};
ghost use Rattle.ill_cli.specs.code.Messages.{IsNormalFormOf};
ghost use Rattle.ill_cli.specs.code.Puts.{AreLinesBuilt, built_verdict};

use crate::build_report::{BuildReport, WhyUnbuilt};
use crate::limit::RefusalLimit;
use crate::refused::KeepRefused;
use crate::tally::Tally;
use ber_core::{Sink, Source};
use ill_build::{BuildFailure, BuildRefusal, LINE_LIMIT, build_line, write_defaults};
use ill_commands::{AnswerLines, LineVerdict, RunFault, Verdict, answer_lines};
use ill_files::{ProgramError, ProgressLine};
use ill_json::{LinePlace, built_line, unbuilt_line};
use ill_normal::{apdu_name_or_empty, apdu_number};
use ill_schema::Profile;
use std::alloc::{AllocError, Global};
use std::io::Write;

/// The form of the results of lines that are built.
#[derive(Clone, Copy, Debug, PartialEq, Eq)]
pub enum BuildForm {
    /// The octets of the messages. A line that is refused is reported.
    Octets,
    /// A line of hexadecimal digits for each message. A line that is refused is reported.
    Digits,
    /// For each line a line: the message in hexadecimal digits, or the reason why the line is refused.
    Lines,
    /// For each line a line of JSON.
    Json,
}

/// The options of building: the results, the profile, and how reports name the input.
#[derive(Clone, Copy, PartialEq, Eq)]
pub struct BuildOptions<'a> {
    pub form: BuildForm,
    /// True if each row that has its default has an element, so that messages are no normal forms.
    pub writes_defaults: bool,
    pub profile: Profile,
    /// The name of the input.
    pub name: &'a str,
    /// True if reports and lines of JSON have the name.
    pub names_input: bool,
    /// True if the line after one that is refused is built, too.
    pub goes_on: bool,
}

/// The counts of the lines of an input.
#[derive(Clone, Copy)]
pub struct BuildCounts {
    /// Lines of which a message was built.
    pub built: u64,
    /// Lines that are refused.
    pub refused: u64,
    /// Octets of the messages.
    pub octets: u64,
}

impl BuildCounts {
    /// No line was read yet.
    pub const NONE: BuildCounts = BuildCounts {
        built: 0,
        refused: 0,
        octets: 0,
    };

    /// The number of the line that comes next, from 1.
    fn next_line(self) -> u64 {
        self.built.saturating_add(self.refused).saturating_add(1)
    }

    /// Counts a line of which a message with this number of octets was built.
    fn add_built(&mut self, octets: usize) {
        self.built = self.built.saturating_add(1);
        self.octets = self.octets.saturating_add(octets as u64);
    }

    /// Counts a line that is refused.
    fn add_refused(&mut self) {
        self.refused = self.refused.saturating_add(1);
    }
}

/// Builds the lines of an input. A line that is refused is kept, and is reported unless the reason is its result.
#[derive(Drop)]
pub(crate) struct BuildLines<'a, R, P: Write + Drop, Q: Write + Drop> {
    pub(crate) rt: &'a R,
    pub(crate) work: BuildOptions<'a>,
    pub(crate) progress: &'a ProgressLine,
    /// Gets the lines that are refused.
    pub(crate) kept: KeepRefused<'a, P, Q>,
    /// The number of refused lines that the work goes on to.
    pub(crate) limit: RefusalLimit,
    pub(crate) counts: BuildCounts,
}

impl<'a, R: Eprint + AllocGlobal, P: Write + Drop, Q: Write + Drop> BuildLines<'a, R, P, Q> {
    /// Adds what was counted and kept to the counts of the command.
    fn end(&self, tally: &mut Tally<'_>) {
        self.kept.add_to(tally);
        tally.limit = self.limit;
        tally.summary.add_lines(self.counts);
    }

    /// The place of the line that is answered.
    fn place(&self) -> LinePlace<'a> {
        LinePlace {
            file: self.work.names_input.then_some(self.work.name),
            number: self.counts.next_line(),
        }
    }

    /// Answers a line of which this message was built.
    fn answer_built(
        &mut self,
        message: BuiltMessage<'_>,
        results: &mut Vec<u8>,
    ) -> Result<LineVerdict, AllocError>
        ensures built { (a : Apdu) → IsNormalFormOf self.old.work a message.entry.normal.now
            → OnOk result ((own : List ℕ) × (results.new.items ≡ results.old.items ++ own)
            × IsBuiltResult self.old.work a message.entry.octets.now own) }
        ensures good { IfOk result (λ verdict. verdict ≡ VerdictOf.Good) }
        ensures none { OnErr result (results.new.items ≡ results.old.items) }
        ensures same { self.new.work ≡ self.old.work }
    {
        put_built(self.rt.alloc(), self.work, self.place(), message, results)?;
        self.counts.add_built(message.octets.len());
        Ok(LineVerdict::Good)
    }

    /// Answers a line that is refused.
    fn answer_refused(
        &mut self,
        text: &[u8],
        refusal: &BuildRefusal,
        results: &mut Vec<u8>,
    ) -> Result<LineVerdict, AllocError>
        ensures refused { OnOk result ((own : List ℕ)
            × (results.new.items ≡ results.old.items ++ own)
            × IsUnbuiltResult self.old.work.form refusal.now.cause own) }
        ensures verdict { IfOk result (IsUnbuiltVerdict self.old.work.goes_on) }
        ensures none { OnErr result (results.new.items ≡ results.old.items) }
        ensures same { self.new.work ≡ self.old.work }
    {
        let alloc = self.rt.alloc();
        let place = self.place();
        let why = WhyUnbuilt::of(alloc, text, refusal)?;
        put_unbuilt(alloc, self.work.form, place, why, results)?;
        if is_reported(self.work.form) {
            self.progress.clear(self.rt);
            // A line that can't be written changes nothing of the work.
            let _ = eprintln!(self.rt; "illcanon: {}", BuildReport { place, why });
        }
        self.kept.keep_line(text);
        self.counts.add_refused();
        let is_last = self.limit.ends_with_next() || !self.work.goes_on;
        Ok(if is_last {
            LineVerdict::Last
        } else {
            LineVerdict::NotGood
        })
    }
}

impl<'a, R: Eprint + AllocGlobal, P: Write + Drop, Q: Write + Drop> AnswerLines
    for BuildLines<'a, R, P, Q> {
    type Options = BuildOptions<'a>;

    ghost use Rattle.ill_cli.specs.Builds.{BuildAnswers};
    ghost use Rattle.ill_cli.specs.code.Kept.{kept_some};

    ghost options = { λ lines. lines.work };

    ghost answers = { BuildAnswers };

    ghost kept_len = { λ _. 16_777_217 };

    ghost keeps_some = { λ _. kept_some };

    fn kept_len(&self) -> usize {
        LINE_LIMIT + 1
    }

    fn answer(&mut self, kept: &[u8], results: &mut Vec<u8>) -> Result<LineVerdict, AllocError> {
        match build_line(self.rt.alloc(), self.work.profile, kept) {
            Ok(normal) if self.work.writes_defaults => {
                let octets = write_defaults(self.rt.alloc(), self.work.profile, &normal)?;
                self.answer_built(
                    BuiltMessage {
                        normal: &normal,
                        octets: &octets,
                    },
                    results,
                )
            }
            Ok(normal) => self.answer_built(
                BuiltMessage {
                    normal: &normal,
                    octets: &normal,
                },
                results,
            ),
            Err(BuildFailure::Refused(refusal)) => self.answer_refused(kept, &refusal, results),
            Err(BuildFailure::OutOfMemory) => Err(AllocError),
        }
    }
}

/// A message that was built of a line.
#[derive(Clone, Copy)]
struct BuiltMessage<'a> {
    /// Its normal form.
    normal: &'a [u8],
    /// The spelling that is written.
    octets: &'a [u8],
}

/// Tells whether a line that is refused is reported on standard error.
fn is_reported(form: BuildForm) -> bool {
    matches!(form, BuildForm::Octets | BuildForm::Digits)
}

/// Appends the result of a line of which this message was built.
fn put_built(
    alloc: Global,
    work: BuildOptions<'_>,
    place: LinePlace<'_>,
    message: BuiltMessage<'_>,
    results: &mut Vec<u8>,
) -> Result<(), AllocError>
    ensures built { (a : Apdu) → IsNormalFormOf work.entry a message.entry.normal.now
        → OnOk result ((own : List ℕ) × (results.new.items ≡ results.old.items ++ own)
        × IsBuiltResult work.entry a message.entry.octets.now own) }
    ensures none { OnErr result (results.new.items ≡ results.old.items) }
{
    match work.form {
        BuildForm::Octets => results.extend_from_slice(message.octets),
        BuildForm::Digits | BuildForm::Lines => {
            let digits = hex::encode(alloc, message.octets)?;
            put_line(results, digits.as_bytes())
        }
        BuildForm::Json => {
            let name = apdu_name_or_empty(work.profile, apdu_number(message.normal));
            let line = built_line(alloc, place, name, message.octets)?;
            results.extend_from_slice(&line)
        }
    }
}

/// Appends the result of a line that is refused: nothing, where it is reported.
fn put_unbuilt(
    alloc: Global,
    form: BuildForm,
    place: LinePlace<'_>,
    why: WhyUnbuilt<'_>,
    results: &mut Vec<u8>,
) -> Result<(), AllocError>
    ensures refused { OnOk result ((own : List ℕ)
        × (results.new.items ≡ results.old.items ++ own)
        × IsUnbuiltResult form why.entry.cause own) }
    ensures none { OnErr result (results.new.items ≡ results.old.items) }
{
    match form {
        BuildForm::Octets | BuildForm::Digits => Ok(()),
        BuildForm::Lines => {
            let words = format!(in alloc; "{why}")?;
            put_line(results, words.as_bytes())
        }
        BuildForm::Json => {
            let line = unbuilt_line(alloc, place, why.in_json())?;
            results.extend_from_slice(&line)
        }
    }
}

/// Appends words and a line feed.
fn put_line(results: &mut Vec<u8>, words: &[u8]) -> Result<(), AllocError>
    ensures all { OnOk result (results.new.items ≡ results.old.items ++ (words.now ++ codes "\n")) }
    ensures none { OnErr result (results.new.items ≡ results.old.items) }
{
    let before = results.len();
    results.extend_from_slice(words)?;
    if results.push(b'\n').is_err() {
        results.truncate(before);
        return Err(AllocError);
    }
    Ok(())
}

/// Builds the lines of a source, and writes the results to an output.
pub(crate) fn put_lines_built<R: Eprint + AllocGlobal, S: Source, W: Sink, P, Q>(
    mut lines: BuildLines<'_, R, P, Q>,
    source: &mut S,
    sink: &mut W,
    tally: &mut Tally<'_>,
) -> Result<Verdict, ProgramError>
where
    P: Write + Drop,
    Q: Write + Drop,
    ensures { AreLinesBuilt lines.entry.work
        (taking (S.left source.old) (S.left source.new) (S.is_broken source.new)) result }
{
    let goes_on = lines.work.goes_on;
    let answer = answer_lines(lines.rt.alloc(), &mut lines, source, sink);
    lines.end(tally);
    if leaves_lines(&answer) {
        tally.summary.add_left();
    }
    built_verdict(goes_on, tally.limit, answer)
}

/// Tells whether lines of an input were left, where the work on it ended so.
fn leaves_lines(answer: &Result<bool, RunFault>) -> bool {
    !matches!(answer, Ok(_) | Err(RunFault::WriteFault(_)))
}

/// The verdict of work on lines that ended so. Where it goes on after lines that are refused, it ends with one only if no more are asked for.
fn built_verdict(
    goes_on: bool,
    limit: RefusalLimit,
    answer: Result<bool, RunFault>,
) -> Result<Verdict, ProgramError>
    ensures { result ≡ built_verdict goes_on limit answer }
{
    match answer {
        Ok(true) => Ok(Verdict::Good),
        Ok(false) => Ok(Verdict::NotGood),
        Err(RunFault::NotReported) if goes_on => Err(limit.line_error()),
        Err(RunFault::NotReported) => Ok(Verdict::NotGood),
        Err(fault) => Err(ProgramError::from(fault)),
    }
}
