//! Results of several inputs, written to one file.
ghost use Rattle.std.specs.Prelude.{map, IfOk};
ghost use Rattle.ill_cli.specs.Ends.{IsCollectStatus, IsStatusOfAll, IsStatusOfCommand, IsStatusOfFirst, IsStatusOfInputs};

use crate::in_turn::ends_all;
use crate::plan::InputAction;
use crate::refused::{OtherFiles, is_one_of};
use crate::run::Run;
use crate::write::may_be_input;
use ill_args::Inputs;
use ill_commands::Verdict;
use ill_files::{
    FileId, Host, Output, OutputDestination, OutputOf, ProgramError, close_output, combined_status,
    input_names, is_output_lost, keeps_output, list_of, open_input, open_output, printed,
    status_of, text_of,
};
use std::rt::Files;

impl<'r, R: Print + Eprint + Input + Files + AllocGlobal + Host> Run<'_, 'r, '_, R> {
    /// Writes the results of all files to one output, prints a line for each error, and returns the exit status. The output is opened after
    /// the first of the files, and only if it is not one of them. It stays as it was if [`keeps_output`] says so of one of the files.
    ///
    /// ```
    /// let status = Run::new(rt, action, None, tally).collect(&inputs, "all.der", true);
    /// ```
    pub fn collect(&mut self, inputs: &Inputs<'_>, output: &str, whole: bool) -> u8
        ensures { IsStatusOfCommand IsCollectStatus result }
    {
        match self.collect_inputs(inputs, output, whole) {
            Ok(status) => status,
            Err(error) => self.tally.end(self.rt, &Err(error)),
        }
    }

    /// Writes the results of the inputs, including those in a list, to one output.
    fn collect_inputs(
        &mut self,
        inputs: &Inputs<'_>,
        output: &str,
        whole: bool,
    ) -> Result<u8, ProgramError>
        ensures { IfOk result (λ status. IsStatusOfInputs IsCollectStatus status) }
    {
        let rt = self.rt;
        let written = FileId::of_output(rt, output);
        let (list, read) = list_of(rt, inputs.list)?;
        let names = input_names(rt.alloc(), &inputs.files, inputs.list, &list)?;
        if names.is_empty() {
            return Err(ProgramError::EmptyList);
        }
        if written.is_some() && (read == written || is_one_of(rt, &names, written)) {
            return Err(ProgramError::SameFile);
        }
        let files = OtherFiles {
            inputs: &names,
            list: read,
            output,
        };
        self.refused.open(files)?;
        self.tally.progress.expect(rt, files.inputs);
        let status = self.collect_files(files.inputs, output, whole);
        Ok(self.refused.close(&self.tally, status))
    }

    /// Writes the results of the files with these names, prints a line for each error, and returns the exit status.
    fn collect_files(&mut self, names: &[&[u8]], output: &str, whole: bool) -> u8
        ensures { IsCollectStatus (map (λ name. name.now) names.now) result }
    {
        match names {
            [name] => {
                let done = self.collect_one(name, output, whole);
                self.tally.add_end(self.rt, name, &done);
                self.tally.end(self.rt, &done)
            }
            names => self.collect_all(names, output, whole),
        }
    }

    /// Writes the results of the one file that is named.
    fn collect_one(
        &mut self,
        name: &[u8],
        output: &str,
        whole: bool,
    ) -> Result<Verdict, ProgramError> {
        let file = text_of(self.rt.alloc(), name)?;
        self.write_input(file, output, whole)
    }

    /// Writes the results of several files.
    fn collect_all(&mut self, names: &[&[u8]], name: &str, whole: bool) -> u8
        ensures { IsStatusOfAll (map (λ name. name.now) names.now) result }
    {
        let output = Output::new();
        let mut to = OneOutput {
            output: &output,
            name,
            whole,
            is_beside: whole || may_be_input(self.rt, names, name),
            destination: None,
            keep: false,
        };
        let (status, done) = self.append_files(names, &mut to);
        let ended = to.close(self.rt, done);
        combined_status(status, self.tally.end(self.rt, &ended))
    }

    /// Writes the results of each file, and prints a line if it has an error. Returns the exit status of the files, and the error where the
    /// output can't be opened or written.
    fn append_files(
        &mut self,
        names: &[&[u8]],
        to: &mut OneOutput<'_, '_, 'r, R>,
    ) -> (u8, Result<Verdict, ProgramError>)
        ensures { IsStatusOfFirst (map (λ name. name.now) names.now) result.1 result.0 }
    {
        let mut status = 0;
        for name in names {
            let done = match self.append_file(name, names.len(), to) {
                Ok(done) => done,
                Err(error) => return (status, Err(error)),
            };
            self.tally.add_end(self.rt, name, &done);
            self.tally.print_of(self.rt, name, &done);
            to.add(&done);
            status = combined_status(status, status_of(&done));
            if ends_all(&done) {
                return (status, Ok(Verdict::Good));
            }
        }
        (status, Ok(Verdict::Good))
    }

    /// Writes the results of the next file, one of `count`.
    ///
    /// # Errors
    ///
    /// The output can't be opened or written.
    fn append_file(
        &mut self,
        name: &[u8],
        count: usize,
        to: &mut OneOutput<'_, '_, 'r, R>,
    ) -> Result<Result<Verdict, ProgramError>, ProgramError> {
        let alloc = self.rt.alloc();
        let file = match text_of(alloc, name) {
            Ok(file) => file,
            Err(error) => return Ok(Err(error)),
        };
        if self.action.escapes_names() {
            return self.append_input(InputAction::new(self.action, file, count), file, to);
        }
        match printed(alloc, file) {
            Ok(name) => self.append_input(InputAction::new(self.action, &name, count), file, to),
            Err(_) => Ok(Err(ProgramError::out_of_memory())),
        }
    }

    /// Opens an input, and then the output, and writes the results of the input.
    ///
    /// # Errors
    ///
    /// The output can't be opened or written.
    fn append_input(
        &mut self,
        task: InputAction<'_>,
        file: &str,
        to: &mut OneOutput<'_, '_, 'r, R>,
    ) -> Result<Result<Verdict, ProgramError>, ProgramError> {
        let mut source = match open_input(self.rt, file, to.output, self.tally.progress) {
            Ok(source) => source,
            Err(error) => return Ok(Err(error)),
        };
        to.open(self.rt)?;
        fail_if_lost(self.put(task, &mut source, to.output))
    }
}

/// Fails if the output is lost. Any other error concerns the input alone.
fn fail_if_lost(
    done: Result<Verdict, ProgramError>,
) -> Result<Result<Verdict, ProgramError>, ProgramError> {
    if is_output_lost(&done) {
        done.map(Ok)
    } else {
        Ok(done)
    }
}

/// The output of several files.
#[derive(Drop)]
struct OneOutput<'o, 'n, 'r, R: Print + Files> {
    output: &'o OutputOf<'r, R>,
    name: &'n str,
    /// True if it is replaced only where each file was good.
    whole: bool,
    /// True if it must not be written directly.
    is_beside: bool,
    /// The place that it is written to, once it is open.
    destination: Option<OutputDestination<'n>>,
    /// True if it stays as it was.
    keep: bool,
}

impl<'r, R: Print + Eprint + AllocGlobal + Host> OneOutput<'_, '_, 'r, R> {
    /// Opens the output, if it is not open yet.
    fn open(&mut self, rt: &'r R) -> Result<(), ProgramError> {
        if self.destination.is_none() {
            self.destination = Some(open_output(rt, self.output, self.name, self.is_beside)?);
        }
        Ok(())
    }

    /// Adds the end of a file.
    fn add(&mut self, done: &Result<Verdict, ProgramError>) {
        self.keep = self.keep | keeps_output(self.whole, done);
    }

    /// Closes the output, if it is open, with this result of the work.
    fn close(
        self,
        rt: &'r R,
        done: Result<Verdict, ProgramError>,
    ) -> Result<Verdict, ProgramError> {
        let OneOutput {
            output,
            destination,
            keep,
            ..
        } = self;
        match destination {
            Some(destination) => close_output(rt, output, destination, keep, done),
            None => done,
        }
    }
}
