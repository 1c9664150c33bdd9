//! Counts that a command keeps while it works.
ghost use Rattle.std.specs.Prelude.{◌≡◌, ◌||◌, Bool, None};
ghost use Rattle.ill_files.specs.Status.{keeps_refused as keeps, status_is};
ghost use Rattle.ill_files.specs.declared.error.ProgramError.{ProgramError as Failed};
ghost use Rattle.ill_cli.specs.Counts.{with_file};
ghost use Rattle.ill_cli.specs.Limit.{error_at, limit_at};
ghost use Rattle.ill_cli.specs.code.Tallied.{AddsEnd, answer_by, after_error, after_input, after_left, is_name_of, is_unopened, left_by, stopped_at};

use crate::limit::RefusalLimit;
use crate::summary::{LeftAt, Summary};
use ill_files::{
    FileName, FileNameRef, ProgramError, ProgressLine, is_of_folder, keeps_refused, print_error,
    print_error_of, status_of,
};
use ill_inputs::{RunFault, Verdict};
use ill_normal::{Counts, OnRefusal, RefusalReport, StreamEnd};
use std::rt::Files;

/// The counts of a command, and its progress line.
#[derive(Clone, Copy)]
pub struct Tally<'p> {
    pub summary: Summary,
    /// True if the numbers are wanted.
    pub is_counted: bool,
    /// The message at which the work on the last file ended, where it ended before the end of the file.
    pub left_at: Option<LeftAt>,
    /// The number of refused messages whose octets were to be kept, and were not.
    pub not_kept: u64,
    /// True if octets of refused messages were not written.
    pub is_refused_lost: bool,
    /// True if the file of refused messages stays as it was.
    pub keeps_refused: bool,
    /// The number of refused messages that the work goes on to.
    pub limit: RefusalLimit,
    pub progress: &'p ProgressLine,
}

impl<'p> Tally<'p> {
    /// Nothing was counted yet. The work ends with the refused message of the number `max_refused`, if there is such a number.
    pub fn new(is_counted: bool, max_refused: Option<u32>, progress: &'p ProgressLine) -> Tally<'p>
        ensures none { result.summary ≡ Summary.NONE }
        ensures limit { result.limit ≡ limit_at max_refused }
        ensures at_start { result.left_at ≡ None }
    {
        Tally {
            summary: Summary::NONE,
            is_counted,
            left_at: None,
            not_kept: 0,
            is_refused_lost: false,
            keeps_refused: false,
            limit: RefusalLimit::new(max_refused),
            progress,
        }
    }

    /// Counts a file that was opened.
    pub fn add_file(&mut self)
        ensures { self.new ≡ record self.old { summary = with_file self.old.summary } }
    {
        self.summary.add_file();
        self.progress.add_file();
    }

    /// Counts the messages of an input whose work ended so, with the refused message `last` if no more are asked for, and returns their counts.
    ///
    /// # Errors
    ///
    /// The reason why the input was not read as far as was asked.
    pub fn add_input(
        &mut self,
        end: StreamEnd,
        on_refusal: OnRefusal,
        last: Option<RefusalReport>,
    ) -> Result<Counts, ProgramError>
        ensures answer { result ≡ answer_by self.old.limit on_refusal end.counts end.fault last }
        ensures counts { self.new ≡ after_input end.counts end.fault last self.old }
    {
        let Some(fault) = end.fault else {
            self.summary.add(end.counts);
            return Ok(end.counts);
        };
        match (fault, on_refusal, last) {
            (RunFault::NotReported, _, Some(last)) => Err(self.stop(end.counts, last)),
            (RunFault::Refused { .. }, OnRefusal::GoOn, _) => {
                self.leave(end.counts, fault);
                Ok(end.counts)
            }
            _ => Err(self.fail(end.counts, fault)),
        }
    }

    /// Counts the messages of an input before this fault, and returns its error.
    pub fn fail(&mut self, counts: Counts, fault: RunFault) -> ProgramError
        ensures error { result ≡ Failed.Run (record { 0 = fault }) }
        ensures counts { self.new ≡ left_by counts fault self.old }
    {
        self.leave(counts, fault);
        ProgramError::from(fault)
    }

    /// Counts the messages of an input before this fault.
    fn leave(&mut self, counts: Counts, fault: RunFault)
        ensures { self.new ≡ left_by counts fault self.old }
    {
        self.summary.add(counts);
        self.left_at = LeftAt::after(counts, fault);
    }

    /// Counts the messages before a refused one, and this one, with which the work ends, and returns the error that says so.
    fn stop(&mut self, before: Counts, last: RefusalReport) -> ProgramError
        ensures error { result ≡ error_at self.old.limit }
        ensures counts { self.new ≡ stopped_at before last self.old }
    {
        self.summary.add(before);
        self.summary.add_refused(last);
        self.left_at = Some(LeftAt::of(last));
        self.limit.error()
    }

    /// Counts the file with this name if it can't be opened, or was left before its end.
    pub fn add_end<R: Files>(&mut self, rt: &R, name: &[u8], done: &Result<Verdict, ProgramError>)
        ensures { AddsEnd name.now done.now self.old self.new }
    {
        self.keeps_refused = self.keeps_refused | keeps_refused(done);
        if let Err(error) = done {
            self.add_error(rt, name, error);
        }
        self.add_left();
    }

    /// Counts the file with this name if this error says that it can't be opened, or is a folder.
    fn add_error<R: Files>(&mut self, rt: &R, name: &[u8], error: &ProgramError)
        ensures { (folder : Bool) × (self.new ≡ after_error name.now folder error.now self.old) }
    {
        if is_unopened(error, name) {
            self.summary.add_unopened();
            return;
        }
        if is_of_folder(rt, name, error) {
            self.left_at = None;
            self.summary.remove_file();
            self.summary.add_unopened();
        }
    }

    /// Counts a file that was left before its end, if it was.
    fn add_left(&mut self)
        ensures { self.new ≡ after_left self.old }
    {
        if self.left_at.is_some() {
            self.summary.add_left();
        }
    }

    /// Prints the line of an error, and returns the exit status.
    pub fn end<R: Print + Eprint>(&mut self, rt: &R, done: &Result<Verdict, ProgramError>) -> u8
        ensures status { result ≡ status_is done.now }
        ensures rest { self.new ≡ record self.old { keeps_refused = self.old.keeps_refused || keeps done.now; left_at = None } }
    {
        self.keeps_refused = self.keeps_refused | keeps_refused(done);
        self.progress.clear(rt);
        let status = end(rt, done);
        self.print_left(rt, None);
        status
    }

    /// Prints the line of the error of one of several files.
    pub fn print_of<R: Print + Eprint + Files>(
        &mut self,
        rt: &R,
        name: &[u8],
        done: &Result<Verdict, ProgramError>,
    )
        ensures { self.new ≡ record self.old { left_at = None } }
    {
        if let Err(error) = done {
            self.progress.clear(rt);
            // A line that can't be written changes nothing of the work.
            let _ = print_error_of(rt, name, error);
        }
        self.print_left(rt, Some(name));
    }

    /// Prints where the last file was left, if numbers are wanted, and forgets it.
    fn print_left<R: Eprint>(&mut self, rt: &R, name: Option<&[u8]>)
        ensures { self.new ≡ record self.old { left_at = None } }
    {
        let Some(left) = self.left_at else {
            return;
        };
        self.left_at = None;
        if !self.is_counted {
            return;
        }
        self.progress.clear(rt);
        let _ = match name {
            Some(name) => eprintln!(rt; "illcanon: {}: {left}", FileNameRef(name)),
            None => eprintln!(rt; "illcanon: {left}"),
        };
    }
}

/// Tells whether an error is that the file with this name can't be opened.
fn is_unopened(error: &ProgramError, name: &[u8]) -> bool
    ensures { result ≡ is_unopened name.now error.now }
{
    match error {
        ProgramError::CannotOpen(unopened, _) => is_name(unopened, name),
        _ => false,
    }
}

/// Tells whether a file that can't be opened has this name. The text of a word that isn't UTF-8 counts, too: it names no file that can be
/// opened.
fn is_name(unopened: &FileName, name: &[u8]) -> bool
    ensures { result ≡ is_name_of unopened.now name.now }
{
    unopened.0.as_slice() == name || name.starts_with(b"\0")
}

/// Prints the line of an error, and returns the exit status.
pub fn end<R: Print + Eprint>(rt: &R, done: &Result<Verdict, ProgramError>) -> u8
    ensures { result ≡ status_is done.now }
{
    if let Err(error) = done {
        // Where standard error is closed, the status alone reports it.
        let _ = print_error(rt, error);
    }
    status_of(done)
}
