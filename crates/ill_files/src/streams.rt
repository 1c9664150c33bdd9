//! Standard streams that are closed when the program starts.
use std::fs::{File, OpenOptions};
use std::os::fd::AsRawFd;

/// The null device.
const NULL: &str = "/dev/null";

/// Opens the null device as each of the standard streams that is closed, so that no other file gets its number, and what is
/// written to that stream goes into no file. A read or a write of it fails, as it does where the stream is closed.
///
/// They are closed again where the result is dropped.
///
/// ```
/// let streams = open_closed_streams(&rt);
/// let status = run_program(&rt);
/// drop(streams);
/// ```
pub fn open_closed_streams(rt: &HostRuntime) -> [Option<File>; 3] {
    let mut streams = [None, None, None];
    for stream in &mut streams {
        *stream = open_next(rt);
        if stream.is_none() {
            break;
        }
    }
    streams
}

/// Opens the null device, if it gets the number of a standard stream: the system gives the least one that is free.
fn open_next(rt: &HostRuntime) -> Option<File> {
    // Standard input is written, and the others are read, so that what the program does with them fails.
    let file = open_null(rt, OpenOptions::new().write(true))?;
    match file.as_raw_fd() {
        0 => Some(file),
        1 | 2 => {
            drop(file);
            open_null(rt, OpenOptions::new().read(true))
        }
        _ => None,
    }
}

/// Opens the null device. If the system has no such device, opens a folder for reading, which can't be written either.
fn open_null(rt: &HostRuntime, options: &OpenOptions) -> Option<File> {
    let null = options.open(rt, NULL);
    null.or_else(|_| OpenOptions::new().read(true).open(rt, "/"))
        .ok()
}
