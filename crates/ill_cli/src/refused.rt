//! The file that gets the octets of refused messages.
ghost use Rattle.std.specs.Prelude.{◌≡◌};
ghost use Rattle.ill_cli.specs.Ends.{IsClosedStatus};

use crate::tally::Tally;
use ber_core::{ToWrite, put_all};
use ill_build::LINE_LIMIT;
use ill_files::{
    Count, FileId, FileNameRef, Host, Output, OutputDestination, OutputOf, ProgramError, ToOutput,
    are_one_target, close_output, open_output, print_error_of,
};
use ill_inputs::Verdict;
use ill_normal::RefusalReport;
use ill_schema::apdu_begun;
use std::io::{Printer, Write};
use std::rt::Files;
use std::{fs, str};

/// The file of refused messages, if there is one: its name, and once it is open its output, until it is closed.
#[derive(Drop)]
pub struct RefusedFile<'a, 'r, R: Print + Files> {
    rt: &'r R,
    name: Option<&'a str>,
    /// True if lines are written to it, and not messages.
    is_of_lines: bool,
    destination: Option<OutputDestination<'a>>,
    output: OutputOf<'r, R>,
}

impl<'a, 'r, R: Print + Eprint + Files + AllocGlobal> RefusedFile<'a, 'r, R> {
    /// The file with this name, if there is one, for messages or lines. It is not open yet.
    pub fn named(rt: &'r R, name: Option<&'a str>, is_of_lines: bool) -> RefusedFile<'a, 'r, R> {
        RefusedFile {
            rt,
            name,
            is_of_lines,
            destination: None,
            output: Output::new(),
        }
    }

    /// What keeps the octets of refused messages: this file, if it is open.
    pub fn keeper(&self) -> KeepRefused<'_, Printer<'r, R>, R::File> {
        KeepRefused::new(self.destination.is_some().then_some(&self.output))
    }
}

impl<'a, 'r, R: Print + Eprint + Files + AllocGlobal + Host> RefusedFile<'a, 'r, R> {
    /// Opens the file, if there is one, in the same way as OUT.
    ///
    /// # Errors
    ///
    /// It is one of the other files, or can't be opened.
    pub fn open(&mut self, others: OtherFiles<'_>) -> Result<(), ProgramError> {
        let rt = self.rt;
        let Some(name) = self.name else {
            return Ok(());
        };
        if others.contain(rt, name) {
            return Err(ProgramError::RefusedIsShared);
        }
        let destination = open_output(rt, &self.output, name, false)?;
        if let Some(part) = &destination.part {
            // The output would take the name of the new file.
            if are_one_target(rt, part.as_str(), others.output) {
                let _ = fs::remove_file(rt, part.as_str());
                return Err(ProgramError::RefusedIsShared);
            }
        }
        self.destination = Some(destination);
        Ok(())
    }

    /// Ends the file, if it is open: it gets its name, unless no input could be opened, an input could not be read, an output could not be
    /// written, or memory ran out. Returns the exit status, which was `status` before.
    pub fn close(&mut self, tally: &Tally<'_>, status: u8) -> u8
        ensures { IsClosedStatus status result }
    {
        let rt = self.rt;
        let Some(destination) = self.destination.take() else {
            return status;
        };
        let name = destination.name;
        let written = if tally.is_refused_lost {
            Err(ProgramError::Flush)
        } else {
            Ok(Verdict::Good)
        };
        let keep = tally.summary.files == 0 || tally.keeps_refused;
        tally.progress.clear(rt);
        if let Err(error) = close_output(rt, &self.output, destination, keep, written) {
            // A line that can't be written changes nothing of the work.
            let _ = print_error_of(rt, name.as_bytes(), &error);
            return 3;
        }
        if tally.not_kept > 0 && !keep {
            let name = FileNameRef(name.as_bytes());
            let _ = if self.is_of_lines {
                let count = Count(tally.not_kept, "refused line");
                eprintln!(rt; "illcanon: {name} is without {count}: too long")
            } else {
                let count = Count(tally.not_kept, "refused message");
                eprintln!(rt; "illcanon: {name} is without {count}: too long, or of an unknown end")
            };
        }
        status
    }
}

/// The other files of a command: the inputs, by name, their list, and the output.
#[derive(Clone, Copy)]
pub struct OtherFiles<'a> {
    pub inputs: &'a [&'a [u8]],
    pub list: Option<FileId>,
    pub output: &'a str,
}

impl OtherFiles<'_> {
    /// Tells whether one of the files has this name.
    fn contain<R: Files + AllocGlobal>(&self, rt: &R, name: &str) -> bool {
        let file = FileId::of_output(rt, name);
        let is_read = file.is_some() && (file == self.list || is_one_of(rt, self.inputs, file));
        is_read || are_one_target(rt, name, self.output)
    }
}

/// Tells whether one of the files is this one.
pub fn is_one_of<R: Files>(rt: &R, names: &[&[u8]], file: Option<FileId>) -> bool {
    for name in names {
        if let Ok(name) = str::from_utf8(name) {
            if FileId::of_input(rt, name) == file {
                return true;
            }
        }
    }
    false
}

/// Writes the octets of refused messages to their file, if there is one.
#[derive(Drop)]
pub struct KeepRefused<'o, P: Write + Drop, Q: Write + Drop> {
    output: Option<&'o Output<P, Q>>,
    /// The number of messages that were not written.
    not_kept: u64,
    /// True if a write failed.
    is_lost: bool,
}

impl<'o, P: Write + Drop, Q: Write + Drop> KeepRefused<'o, P, Q> {
    /// Writes to this output.
    pub fn new(output: Option<&'o Output<P, Q>>) -> KeepRefused<'o, P, Q> {
        KeepRefused {
            output,
            not_kept: 0,
            is_lost: false,
        }
    }

    /// Writes the octets of a message if they are complete and its end is known, so that the next one begins after it. Octets that begin
    /// no message are not kept.
    pub fn keep(&mut self, report: RefusalReport, octets: &[u8]) {
        if apdu_begun(octets).is_none() {
            return;
        }
        if report.octets == Some(octets.len() as u64) {
            self.write(octets);
        } else {
            self.leave_out();
        }
    }

    /// Writes a line and its end, unless it is too long, so that not all of it is here.
    pub fn keep_line(&mut self, text: &[u8]) {
        if text.len() <= LINE_LIMIT {
            self.write(text);
            self.write(b"\n");
        } else {
            self.leave_out();
        }
    }

    /// Counts what is not written, if there is a file.
    fn leave_out(&mut self) {
        if self.output.is_some() {
            self.not_kept = self.not_kept.saturating_add(1);
        }
    }

    /// Writes octets, if there is a file.
    fn write(&mut self, octets: &[u8]) {
        let Some(output) = self.output else {
            return;
        };
        let mut sink = ToWrite::new(ToOutput {
            output,
            is_direct: false,
        });
        if put_all(&mut sink, octets).is_err() {
            self.is_lost = true;
        }
    }

    /// Adds its counts to those of the command.
    pub fn add_to(&self, tally: &mut Tally<'_>)
        ensures { tally.new.summary ≡ tally.old.summary }
    {
        tally.not_kept = tally.not_kept.saturating_add(self.not_kept);
        tally.is_refused_lost = tally.is_refused_lost | self.is_lost;
    }
}
