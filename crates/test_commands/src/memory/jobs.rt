//! The program's jobs, on octets and on hexadecimal text. Nothing is written where there is no memory.
use super::Row;
use super::given::EXPIRED;
use ber_core::{Pieces, Room};
use ill_commands::{Job, RunFault, Verdict, run, run_same};
use std::alloc::Global;
use test_support::Outcome;

/// The EXPIRED as hexadecimal text.
const EXPIRED_HEX: &[u8] = b"741f301d800102a10aa1031b0147a2031b0151a20ca00a80083230323430323239";

/// The result of each call of this file.
pub fn calls(alloc: Global) -> [Row; 8] {
    [
        ("run show", run_job(alloc, Job::Show, false)),
        ("run check", run_job(alloc, Job::Check, false)),
        ("run canonicalise", run_job(alloc, Job::Canonicalise, false)),
        ("run show of text", run_job(alloc, Job::Show, true)),
        ("run check of text", run_job(alloc, Job::Check, true)),
        (
            "run canonicalise of text",
            run_job(alloc, Job::Canonicalise, true),
        ),
        ("run_same", compare(alloc, false)),
        ("run_same of text", compare(alloc, true)),
    ]
}

/// The EXPIRED as a source gives it.
fn input(hex: bool) -> Pieces<'static> {
    Pieces::new(if hex { EXPIRED_HEX } else { EXPIRED }, 64, None)
}

fn of_job(done: Result<Verdict, RunFault>, written: &[u8]) -> Outcome {
    match done {
        Ok(verdict) => Outcome::right(verdict == Verdict::Good && !written.is_empty()),
        Err(fault) => Outcome::out_of_memory(fault == RunFault::OutOfMemory && written.is_empty()),
    }
}

fn run_job(alloc: Global, job: Job, hex: bool) -> Outcome {
    let mut sink: Room<512> = Room::new(64, None);
    let done = run(alloc, job, hex, &mut input(hex), &mut sink);
    of_job(done, sink.octets())
}

fn compare(alloc: Global, hex: bool) -> Outcome {
    let mut sink: Room<64> = Room::new(64, None);
    let done = run_same(alloc, hex, &mut input(hex), &mut input(hex), &mut sink);
    of_job(done, sink.octets())
}
