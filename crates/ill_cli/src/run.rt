//! The work of a command on its inputs.
ghost use Rattle.std.specs.Prelude.{◌≡◌};
ghost use Rattle.ill_normal.specs.Calls.{Taking, taking};
ghost use Rattle.ill_cli.specs.Counts.{with_file};
ghost use Rattle.ill_cli.specs.code.Puts.{AreResultsPut, IsPut, after_first};

use crate::build::{BuildCounts, BuildLines, put_lines_built};
use crate::input::{put_elements, put_lines, put_messages};
use crate::limit::RefusalLimit;
use crate::plan::{Action, InputAction};
use crate::refused::RefusedFile;
use crate::report_lines::{KeepReports, PrintReports};
use crate::results::{WriteResults, has_json_result, put_results};
use crate::summary::KindCounts;
use crate::tally::Tally;
use ber_core::{Source, ToWrite};
use ill_commands::{JobOptions, OnRefusal, Verdict};
use ill_files::{Output, ProgramError, Shared, ToOutput};
use std::io::{Read, Write};
use std::rt::Files;

/// The work of a command on its inputs: what is done with each, what is counted, and where the octets of refused messages go.
#[derive(Drop)]
pub struct Run<'a, 'r, 'p, R: Print + Files> {
    pub rt: &'r R,
    pub action: Action,
    pub tally: Tally<'p>,
    pub refused: RefusedFile<'a, 'r, R>,
}

impl<'a, 'r, 'p, R: Print + Eprint + Files + AllocGlobal> Run<'a, 'r, 'p, R> {
    /// Does this with each input. The octets of refused messages go to the file named `refused`, if there is one.
    ///
    /// ```
    /// let status = Run::new(rt, action, Some("refused.ber"), tally).print_each(&inputs);
    /// ```
    pub fn new(
        rt: &'r R,
        action: Action,
        refused: Option<&'a str>,
        tally: Tally<'p>,
    ) -> Run<'a, 'r, 'p, R> {
        Run {
            rt,
            action,
            tally,
            refused: RefusedFile::named(rt, refused, action.counts_lines()),
        }
    }

    /// Writes the results of an input that was opened, and counts it and its messages.
    ///
    /// # Errors
    ///
    /// The reason why the input was not read to its end, or not all results were written.
    pub fn put<'o, I: Read, J: Read, S: Write + Drop, F: Write + Drop>(
        &mut self,
        task: InputAction<'_>,
        source: &mut Shared<'o, I, J, S, F>,
        output: &'o Output<S, F>,
    ) -> Result<Verdict, ProgramError>
        ensures { (from : Taking) × IsPut task.entry from (with_file self.old.tally.summary)
            self.new.tally result }
    {
        self.tally.add_file();
        self.put_source(task, source, output)
    }

    /// Writes the results of a source, and counts its messages.
    fn put_source<B: Source, S: Write + Drop, F: Write + Drop>(
        &mut self,
        task: InputAction<'_>,
        source: &mut B,
        output: &Output<S, F>,
    ) -> Result<Verdict, ProgramError>
        ensures { IsPut task.entry
            (taking (B.left source.old) (B.left source.new) (B.is_broken source.new))
            self.old.tally.summary self.new.tally result }
    {
        match task {
            InputAction::Messages(work) if has_json_result(work.job) => {
                self.put_json_lines(work, source, output)
            }
            InputAction::Messages(work) => {
                let reports = PrintReports {
                    rt: self.rt,
                    name: work.names_input.then_some(work.name),
                    is_raw: work.job.is_json(),
                    progress: self.tally.progress,
                    kept: KeepReports::new(self.refused.keeper(), self.tally.limit),
                    profile: work.profile,
                    is_counted: self.tally.is_counted,
                    kinds: KindCounts::NONE,
                };
                let sink = &mut sink_to(output);
                put_messages(work, source, sink, reports, &mut self.tally)
            }
            InputAction::Elements(dump) => {
                let reports = PrintReports {
                    rt: self.rt,
                    name: dump.names_input.then_some(dump.name),
                    is_raw: false,
                    progress: self.tally.progress,
                    kept: KeepReports::new(self.refused.keeper(), self.tally.limit),
                    profile: dump.profile,
                    is_counted: self.tally.is_counted,
                    kinds: KindCounts::NONE,
                };
                let sink = &mut sink_to(output);
                put_elements(dump, source, sink, reports, &mut self.tally)
            }
            InputAction::Lines(work) => {
                // The results of lines are there before more input is waited for.
                let mut sink = ToWrite::new(ToOutput {
                    output,
                    is_direct: true,
                });
                put_lines(self.rt.alloc(), work, source, &mut sink)
            }
            InputAction::Build(work) => {
                let lines = BuildLines {
                    rt: self.rt,
                    work,
                    progress: self.tally.progress,
                    kept: self.refused.keeper(),
                    limit: self.tally.limit,
                    counts: BuildCounts::NONE,
                };
                put_lines_built(lines, source, &mut sink_to(output), &mut self.tally)
            }
        }
    }

    /// Does a job with the messages of a source, whose results are lines of JSON: of refused messages, too. Unless the work goes on after
    /// them, it ends with the first.
    fn put_json_lines<B: Source, S: Write + Drop, F: Write + Drop>(
        &mut self,
        work: JobOptions<'_>,
        source: &mut B,
        output: &Output<S, F>,
    ) -> Result<Verdict, ProgramError>
        ensures { AreResultsPut work.entry
            (taking (B.left source.old) (B.left source.new) (B.is_broken source.new))
            self.old.tally.summary self.new.tally result }
    {
        let limit = match work.on_refusal {
            OnRefusal::GoOn => self.tally.limit,
            OnRefusal::Stop | OnRefusal::EndWith => RefusalLimit::new(Some(1)),
        };
        let each = JobOptions {
            on_refusal: OnRefusal::GoOn,
            ..work
        };
        let writer = WriteResults::new(self.rt.alloc(), each);
        let reports = KeepReports::new(self.refused.keeper(), limit);
        let sink = &mut sink_to(output);
        let done = put_results(writer, source, sink, reports, &mut self.tally);
        after_first(work.on_refusal, done)
    }
}

/// The verdict of work that ends with the first refused message, which has its line, or goes on after it.
fn after_first(
    on_refusal: OnRefusal,
    done: Result<Verdict, ProgramError>,
) -> Result<Verdict, ProgramError>
    ensures { result ≡ after_first on_refusal done }
{
    match (on_refusal, done) {
        (OnRefusal::Stop | OnRefusal::EndWith, Err(ProgramError::RefusedEnough(_))) => {
            Ok(Verdict::NotGood)
        }
        (_, done) => done,
    }
}

/// A sink to the output.
fn sink_to<'o, S: Write + Drop, F: Write + Drop>(
    output: &'o Output<S, F>,
) -> ToWrite<ToOutput<'o, S, F>> {
    ToWrite::new(ToOutput {
        output,
        is_direct: false,
    })
}
