//! A program that writes the normal form of each message of standard input to standard output. It is the library with nothing around
//! it: the program `illcanon` has files, flags and texts.
#![tactic(auto)]

use ber_core::{FromBuffer, ToWrite};
use ill_normal::normalise_stream;
use std::io::{self, BufWriter, Write};
use std::process::ExitCode;

fn main(rt: HostRuntime) -> ExitCode {
    let alloc = rt.alloc();
    let Ok(mut source) = FromBuffer::new(alloc, rt.reader()) else {
        return ExitCode::FAILURE;
    };
    let Ok(mut writer) = BufWriter::new(alloc, io::writer(&rt)) else {
        return ExitCode::FAILURE;
    };
    let normalised = normalise_stream(alloc, &mut source, &mut ToWrite::new(&mut writer));
    let flushed = writer.flush();
    let printed = match normalised {
        Ok(count) => eprintln!(rt; "{count} messages were normalised"),
        Err(failure) => eprintln!(rt;
            "{} messages were normalised; then {:?}",
            failure.whole, failure.why
        ),
    };
    if normalised.is_ok() && flushed.is_ok() && printed.is_ok() {
        ExitCode::SUCCESS
    } else {
        ExitCode::FAILURE
    }
}
