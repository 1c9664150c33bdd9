//! Results of several inputs, printed in turn.
ghost use Rattle.std.specs.Prelude.{◌≡◌, ◌⊎◌, map, IfOk};
ghost use Rattle.ill_cli.specs.Ends.{IsPrintStatus, IsStatusOfCommand, IsStatusOfFiles, IsStatusOfInputs};

use crate::in_turn::{DoFile, do_in_turn};
use crate::plan::InputAction;
use crate::refused::{OtherFiles, is_one_of};
use crate::run::Run;
use ill_args::Inputs;
use ill_commands::Verdict;
use ill_dump::{HTML_BEGIN, HTML_END};
use ill_files::{
    FileId, Host, Output, OutputOf, ProgramError, input_names, list_of, open_and_identify,
    open_standard_output, printed, text_of,
};
use std::rt::Files;

impl<'r, R: Print + Eprint + Input + Files + AllocGlobal + Host> Run<'_, 'r, '_, R> {
    /// Prints the results of each input and a line for each error, and returns the exit status. The lines name their file where there are
    /// several files, or where the action asks for it.
    ///
    /// ```
    /// let status = Run::new(rt, action, None, tally).print_each(&inputs);
    /// ```
    pub fn print_each(&mut self, inputs: &Inputs<'_>) -> u8
        ensures { IsStatusOfCommand IsPrintStatus result }
    {
        match self.print_inputs(inputs) {
            Ok(status) => status,
            Err(error) => self.tally.end(self.rt, &Err(error)),
        }
    }

    /// Prints the results of the inputs, including those in a list. Standard output must be none of the files that are read.
    fn print_inputs(&mut self, inputs: &Inputs<'_>) -> Result<u8, ProgramError>
        ensures { IfOk result (λ status. IsStatusOfInputs IsPrintStatus status) }
    {
        let rt = self.rt;
        let written = FileId::of_standard_output(rt);
        let (list, read) = list_of(rt, inputs.list)?;
        let names = input_names(rt.alloc(), &inputs.files, inputs.list, &list)?;
        if names.is_empty() {
            return Err(ProgramError::EmptyList);
        }
        if written.is_some() && (read == written || is_one_of(rt, &names, written)) {
            return Err(ProgramError::SameFile);
        }
        let files = OtherFiles {
            inputs: &names,
            list: read,
            output: "-",
        };
        self.refused.open(files)?;
        self.tally.progress.expect(rt, files.inputs);
        let status = self.print_files(files.inputs);
        Ok(self.refused.close(&self.tally, status))
    }

    /// Prints the results of the files with these names and a line for each error, and returns the exit status.
    fn print_files(&mut self, names: &[&[u8]]) -> u8
        ensures { IsPrintStatus (map (λ name. name.now) names.now) result }
    {
        match names {
            [name] if !self.action.names_inputs() => {
                let done = self.print_file(name, 1);
                self.tally.end(self.rt, &done)
            }
            names if self.action.is_document() => self.print_document(names),
            names => do_in_turn(self, names),
        }
    }

    /// Prints the results of all files as one document and a line for each error, and returns the exit status.
    fn print_document(&mut self, names: &[&[u8]]) -> u8
        ensures { IsStatusOfFiles (map (λ name. name.now) names.now) result ⊎ (result ≡ 3) }
    {
        let rt = self.rt;
        if let Err(error) = print!(rt; "{HTML_BEGIN}") {
            return self.tally.end(rt, &Err(ProgramError::of_output(&error)));
        }
        let status = do_in_turn(self, names);
        match print!(rt; "{HTML_END}") {
            Ok(()) => status,
            // An output that was lost before was reported then.
            Err(_) if status == 3 => status,
            Err(error) => self.tally.end(rt, &Err(ProgramError::of_output(&error))),
        }
    }

    /// Prints the results of the file with this name, one of `count`, and counts it.
    fn print_file(&mut self, name: &[u8], count: usize) -> Result<Verdict, ProgramError> {
        let done = self.print_named(name, count);
        self.tally.add_end(self.rt, name, &done);
        done
    }

    /// Prints the results of the file with this name, one of `count`.
    fn print_named(&mut self, name: &[u8], count: usize) -> Result<Verdict, ProgramError> {
        let alloc = self.rt.alloc();
        let file = text_of(alloc, name)?;
        if self.action.escapes_names() {
            return self.print_input(InputAction::new(self.action, file, count), file);
        }
        let name = printed(alloc, file).map_err(|_| ProgramError::out_of_memory())?;
        self.print_input(InputAction::new(self.action, &name, count), file)
    }

    /// Prints the results of an input, the file with this name.
    fn print_input(&mut self, task: InputAction<'_>, file: &str) -> Result<Verdict, ProgramError> {
        let output = Output::new();
        let done = self.put_input(task, file, &output);
        output.finish(done)
    }

    /// Opens an input, and then standard output, and writes the results. They must not go to the file that is read.
    fn put_input(
        &mut self,
        task: InputAction<'_>,
        file: &str,
        output: &OutputOf<'r, R>,
    ) -> Result<Verdict, ProgramError> {
        let (mut source, read) = open_and_identify(self.rt, file, output, self.tally.progress)?;
        if read.is_some() && read == FileId::of_standard_output(self.rt) {
            return Err(ProgramError::SameFile);
        }
        open_standard_output(self.rt, output)?;
        self.put(task, &mut source, output)
    }
}

impl<R: Print + Eprint + Input + Files + AllocGlobal + Host> DoFile for Run<'_, '_, '_, R> {
    ghost use Rattle.std.specs.Prelude.{None};

    ghost ends = { λ _. None };

    fn do_file(&mut self, name: &[u8], count: usize) -> Result<Verdict, ProgramError> {
        let done = self.print_file(name, count);
        self.tally.print_of(self.rt, name, &done);
        done
    }
}
