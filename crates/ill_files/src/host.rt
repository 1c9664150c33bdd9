//! The traits of a runtime that the program needs beside its streams, its words and the names of files.
use std::fs::File;
use std::io::{self, IsTerminal};
use std::os::fd::AsFd;
use std::os::unix::fs::fchown;
use std::rt::Files;
use std::time::Clock;

/// A runtime with files that have owners, and with a standard error that may be a terminal.
pub trait Host: Files + Clock {
    /// Tells whether standard error is a terminal.
    fn is_terminal(&self) -> bool;

    /// Gives a file that is open this owner and group, whatever its name stands for by now.
    ///
    /// # Errors
    ///
    /// The system doesn't allow it.
    fn change_owner(&self, file: &Self::File, owner: u32, group: u32) -> io::Result<()>;
}

impl Host for HostRuntime {
    fn is_terminal(&self) -> bool {
        self.stderr().is_terminal()
    }

    fn change_owner(&self, file: &File, owner: u32, group: u32) -> io::Result<()> {
        fchown(file.as_fd(), Some(owner), Some(group))
    }
}
