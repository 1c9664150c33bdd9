//! The program that is tested.
use ill_cli::run_program;
use test_host::{Fake, Program};

/// The program illcanon.
pub struct Illcanon;

impl Program for Illcanon {
    fn status(fake: &Fake<'_>) -> u8 {
        run_program(fake)
    }
}
