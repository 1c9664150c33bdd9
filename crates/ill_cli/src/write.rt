//! Results of one input, written to a file.
ghost use Rattle.ill_cli.specs.Ends.{IsStatusOfOne};

use crate::build::BuildForm;
use crate::plan::{Action, InputAction};
use crate::refused::OtherFiles;
use crate::run::Run;
use ill_commands::Verdict;
use ill_files::{
    FileId, FileNameRef, Host, Output, ProgramError, close_output, keeps_output, open_and_identify,
    open_output,
};
use std::rt::Files;

impl<'r, R: Print + Eprint + Input + Files + AllocGlobal + Host> Run<'_, 'r, '_, R> {
    /// Writes the results of one input to a file, prints a line if there is an error, and returns the exit status.
    ///
    /// ```
    /// let status = Run::new(rt, action, None, tally).write_one("message.ber", "message.der", false);
    /// ```
    pub fn write_one(&mut self, input: &str, output: &str, whole: bool) -> u8
        ensures { IsStatusOfOne result }
    {
        let others = OtherFiles {
            inputs: &[input.as_bytes()],
            list: None,
            output,
        };
        if let Err(error) = self.refused.open(others) {
            return self.tally.end(self.rt, &Err(error));
        }
        self.tally.progress.expect(self.rt, others.inputs);
        let done = self.write_input(input, output, whole);
        self.tally.add_end(self.rt, input.as_bytes(), &done);
        let status = self.tally.end(self.rt, &done);
        self.refused.close(&self.tally, status)
    }

    /// Writes the results of the one input to an output. The output is opened after the input, and only if it isn't the same file. It is
    /// replaced as [`keeps_output`] says.
    pub fn write_input(
        &mut self,
        file: &str,
        name: &str,
        whole: bool,
    ) -> Result<Verdict, ProgramError> {
        let rt = self.rt;
        let written = FileId::of_output(rt, name);
        let output = Output::new();
        let (mut source, read) = open_and_identify(rt, file, &output, self.tally.progress)?;
        if read.is_some() && read == written {
            return Err(ProgramError::SameFile);
        }
        let is_beside = whole || may_be_input(rt, &[file.as_bytes()], name);
        let destination = open_output(rt, &output, name, is_beside)?;
        let task = InputAction::new(self.action, file, 1);
        let done = self.put(task, &mut source, &output);
        let keep = keeps_output(whole, &done);
        let done = close_output(rt, &output, destination, keep, done);
        if keep && is_by_lines(self.action) && matches!(done, Ok(Verdict::NotGood)) {
            // A line that can't be written changes nothing of the work.
            let _ = eprintln!(rt;
                "illcanon: {} stays as it was: not every line is a message",
                FileNameRef(name.as_bytes())
            );
        }
        done
    }
}

/// Tells whether each line of the input has its result, so that no line is reported.
fn is_by_lines(action: Action) -> bool {
    matches!(
        action,
        Action::Lines(_)
            | Action::Build {
                form: BuildForm::Lines | BuildForm::Json,
                ..
            }
    )
}

/// Tells whether an output may be the file that standard input is read from, where the system doesn't say which that is.
pub fn may_be_input<R: Files>(rt: &R, names: &[&[u8]], output: &str) -> bool {
    names.contains(&b"-".as_slice())
        && FileId::of_output(rt, output).is_some()
        && !FileId::knows_standard_input(rt)
}
