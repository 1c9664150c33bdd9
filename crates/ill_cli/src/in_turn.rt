//! Work on files, one after another.
ghost use Rattle.std.specs.Prelude.{◌≡◌, List, map};
ghost use Rattle.ill_cli.specs.Ends.{AddsEnds, DoneInTurn, FileEnd, ends_all, status_of_ends};

use crate::limit::is_stopped;
use ill_files::{ProgramError, combined_status, is_output_lost, status_of};
use ill_inputs::Verdict;

/// Work on files.
pub trait DoFile {
    ghost use Rattle.std.specs.Prelude.{List, [], ◌∷◌, Option};
    ghost use Rattle.ill_cli.specs.Ends.{AddsEnds, FileEnd, end_of};

    // The ends of the files so far, in order, where they are known.
    ghost ends: { Self → Option (List FileEnd) };

    /// Does the work on the file with this name, one of `count`, and reports how it ended.
    ///
    /// # Errors
    ///
    /// The reason why the file was not read to its end, or not all of the output was written.
    fn do_file(&mut self, name: &[u8], count: usize) -> Result<Verdict, ProgramError>
        ensures { AddsEnds (ends self.old) (ends self.new) (end_of name.now result ∷ []) };
}

/// Does the work on the file of each name in turn, and returns the exit status of those that were done. Once output is lost, or no more refused
/// messages are asked for, no file more is done.
pub fn do_in_turn<T: DoFile>(work: &mut T, names: &[&[u8]]) -> u8
    ensures { (ends : List FileEnd) × AddsEnds (T.ends work.old) (T.ends work.new) ends
        × DoneInTurn (map (λ name. name.now) names.now) ends × (result ≡ status_of_ends ends) }
{
    let mut status = 0;
    for name in names {
        let done = work.do_file(name, names.len());
        status = combined_status(status, status_of(&done));
        if ends_all(&done) {
            return status;
        }
    }
    status
}

/// Tells whether no file more is done: output is lost, or no more refused messages are asked for.
pub fn ends_all(done: &Result<Verdict, ProgramError>) -> bool
    ensures { result ≡ ends_all done.now }
{
    is_output_lost(done) || is_stopped(done)
}
