//! The canonical form of ILL messages, for files and pipes.
#![tactic(auto)]

use ill_cli::run_program;
use ill_files::open_closed_streams;
use std::process::ExitCode;

fn main(rt: HostRuntime) -> ExitCode {
    let streams = open_closed_streams(&rt);
    let status = run_program(&rt);
    drop(streams);
    ExitCode::from(status)
}
