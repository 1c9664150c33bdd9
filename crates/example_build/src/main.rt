//! A program that answers each line of JSON on standard input by a line on standard output: the octets of the message that the line says,
//! in hexadecimal digits, or where the line is refused and why. A line says by its member `profile` that it is of the module profile.
#![tactic(auto)]

use ill_build::{BuildCause, BuildFailure, BuildRefusal, build_line};
use ill_schema::Profile;
use std::alloc::{AllocError, Global};
use std::io::{self, BufRead, BufReader, BufWriter, Write};
use std::process::ExitCode;

fn main(rt: HostRuntime) -> ExitCode {
    match answer_lines(&rt) {
        Ok(()) => ExitCode::SUCCESS,
        Err(_) => ExitCode::FAILURE,
    }
}

/// Answers each line of standard input.
fn answer_lines(rt: &HostRuntime) -> io::Result<()> {
    let alloc = rt.alloc();
    let mut output = BufWriter::new(alloc, io::writer(rt))?;
    for line in BufReader::new(alloc, rt.reader())?.lines(alloc) {
        answer(alloc, line?.as_bytes(), &mut output)?;
    }
    output.flush()
}

/// Writes the line that answers a line.
fn answer<W: Write>(alloc: Global, line: &[u8], output: &mut W) -> io::Result<()> {
    match build(alloc, line) {
        Ok(octets) => output.write_all(hex::encode(alloc, octets)?.as_bytes())?,
        Err(BuildFailure::Refused(refusal)) => {
            let (pointer, cause) = (refusal.pointer.escape_ascii(), refusal.cause.name());
            write!(output, "refused at \"{pointer}\": {cause}")?;
        }
        Err(BuildFailure::OutOfMemory) => return Err(AllocError.into()),
    }
    output.write_all(b"\n")
}

/// Builds a line of profile 2, or of the module profile where it says so.
fn build(alloc: Global, line: &[u8]) -> Result<Vec<u8>, BuildFailure> {
    match build_line(alloc, Profile::Two, line) {
        Err(
            BuildFailure::Refused(
                BuildRefusal {
                    cause: BuildCause::OtherProfile,
                    ..
                },
            ),
        ) => build_line(alloc, Profile::Module, line),
        built => built,
    }
}
