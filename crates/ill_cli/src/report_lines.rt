//! Lines for refused messages, where the work goes on after them.
ghost use Rattle.std.specs.Prelude.{◌≡◌};

use crate::limit::RefusalLimit;
use crate::refused::KeepRefused;
use crate::summary::KindCounts;
use crate::tally::Tally;
use ill_commands::refusal_kind;
use ill_files::{FileNameRef, ProgressLine, RunLine};
use ill_inputs::RunFault;
use ill_normal::{RefusalReport, ReportRefusals};
use ill_schema::{Profile, Refusal};
use std::fmt;
use std::io::Write;

/// A refused message, as one line.
#[derive(Clone, Copy)]
pub struct ReportLine(pub RefusalReport);

impl fmt::Display for ReportLine {
    fn fmt<W: fmt::Write>(&self, f: &mut fmt::Formatter<W>) -> fmt::Result {
        let ReportLine(
            RefusalReport {
                message,
                refusal,
                octets,
                ..
            },
        ) = *self;
        let line = RunLine(RunFault::Refused { message, refusal });
        if octets.is_some() {
            write!(f, "{line}")
        } else {
            write!(f, "{line}; its end is unknown")
        }
    }
}

/// Keeps the octets of refused messages, and counts the messages up to the limit.
#[derive(Drop)]
pub struct KeepReports<'a, P: Write + Drop, Q: Write + Drop> {
    /// Gets the octets of the messages.
    kept: KeepRefused<'a, P, Q>,
    /// The number of refused messages that the work goes on to.
    limit: RefusalLimit,
    /// The refused message with which the work ended, if it is the last one that the limit allows.
    last: Option<RefusalReport>,
}

impl<'a, P: Write + Drop, Q: Write + Drop> KeepReports<'a, P, Q> {
    /// No message was refused yet.
    pub fn new(kept: KeepRefused<'a, P, Q>, limit: RefusalLimit) -> KeepReports<'a, P, Q> {
        KeepReports {
            kept,
            limit,
            last: None,
        }
    }

    /// Adds its counts to those of the command, and returns the refused message with which the work ended, if there is one.
    pub fn end(self, tally: &mut Tally<'_>) -> Option<RefusalReport>
        ensures { tally.new.summary ≡ tally.old.summary }
    {
        self.kept.add_to(tally);
        tally.limit = self.limit;
        self.last
    }
}

impl<P: Write + Drop, Q: Write + Drop> ReportRefusals for KeepReports<'_, P, Q> {
    ghost use Rattle.std.specs.Prelude.{None};

    ghost reported = { λ _. None };

    fn report(&mut self, report: RefusalReport, octets: &[u8]) -> Result<(), RunFault> {
        self.kept.keep(report, octets);
        if self.limit.ends_with_next() {
            self.last = Some(report);
            return Err(RunFault::NotReported);
        }
        Ok(())
    }
}

/// Prints a line for each refused message, with the name of its file where there are several, keeps the messages, and counts their kinds.
#[derive(Drop)]
pub struct PrintReports<'a, R, P: Write + Drop, Q: Write + Drop> {
    pub rt: &'a R,
    pub name: Option<&'a str>,
    /// True if the name is the file's own, not yet escaped for printing.
    pub is_raw: bool,
    pub progress: &'a ProgressLine,
    pub kept: KeepReports<'a, P, Q>,
    /// The profile in which messages are read.
    pub profile: Profile,
    /// True if the kinds of the refusals are counted.
    pub is_counted: bool,
    pub kinds: KindCounts,
}

impl<R: AllocGlobal, P: Write + Drop, Q: Write + Drop> PrintReports<'_, R, P, Q> {
    /// Counts the kind of a refusal of these octets, if kinds are counted. Where memory runs out, it is in no count: then the kinds are fewer
    /// than the refusals, and aren't said.
    fn count(&mut self, refusal: Refusal, octets: &[u8]) {
        if !self.is_counted {
            return;
        }
        if let Ok(kind) = refusal_kind(self.rt.alloc(), self.profile, octets, refusal) {
            self.kinds.add(kind);
        }
    }
}

impl<R: Eprint + AllocGlobal, P: Write + Drop, Q: Write + Drop> ReportRefusals
    for PrintReports<'_, R, P, Q> {
    ghost use Rattle.std.specs.Prelude.{None};

    ghost reported = { λ _. None };

    fn report(&mut self, report: RefusalReport, octets: &[u8]) -> Result<(), RunFault> {
        let line = ReportLine(report);
        self.progress.clear(self.rt);
        // A line that can't be written changes nothing of the work.
        let _ = match self.name {
            Some(name) if self.is_raw => {
                eprintln!(self.rt; "illcanon: {}: {line}", FileNameRef(name.as_bytes()))
            }
            Some(name) => eprintln!(self.rt; "illcanon: {name}: {line}"),
            None => eprintln!(self.rt; "illcanon: {line}"),
        };
        self.count(report.refusal, octets);
        self.kept.report(report, octets)
    }
}
