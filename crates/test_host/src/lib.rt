//! A runtime for tests of the program, and runs of it in a folder with files. They are in a crate of their own, so that they are proved
//! beside the program and not after it.
#![tactic(auto)]

mod fake;
mod file_outputs;
mod folders;
mod runs;

pub use fake::{Ended, Fake, FakeFile, Faults, NO_FAULTS, Start, Watch};
pub use file_outputs::first_wrong_output;
pub use folders::folder;
pub use runs::{
    BEFORE, EXPIRED, INDEFINITE, Octets, Program, QUIET, Row, comes_true, enter, fail_with, holds,
    leave, run, run_line, run_with_faults, test_rows,
};
