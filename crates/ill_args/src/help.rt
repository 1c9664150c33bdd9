//! Texts of the program as a whole.

pub const PROGRAM: &str = "\
`-` in place of a file is standard input, or standard output for OUT.

Example: illcanon check messages.ber

`illcanon help causes` explains why messages are refused, and `illcanon help profile`
says what is read of a message in each profile.

Status: 0 done, and all is well; 1 a message is refused or not normal, messages are
different, or the hexadecimal text is invalid; 2 usage; 3 memory, files or pipes.";

/// The line for what is missing, as clap says it.
pub const NO_FILE: &str =
    "the following required arguments were not provided:\n  <FILE>..., or --files-from <LIST>";

pub const NO_IN: &str = "the following required arguments were not provided:\n  <IN>\n  <OUT>";

pub const NO_OUT: &str = "the following required arguments were not provided:\n  <OUT>";

pub const NO_OUTPUT: &str = "the following required arguments were not provided:\n  -o <OUT>";
