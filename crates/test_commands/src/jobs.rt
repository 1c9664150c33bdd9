//! The jobs, on rows of inputs and where sources and sinks break.
mod breaks;
mod contracts;
mod json;
mod profiles;
mod refused;
mod runs;
mod sames;
mod shows;
mod skipping;

use ber_core::{Pieces, ToWrite};
use ill_commands::{JobOptions, RunFault, Verdict, run_with};
use std::alloc::Global;

/// Tells whether a job with the messages of a source has this result and writes this.
fn gives(
    alloc: Global,
    work: JobOptions<'_>,
    source: &mut Pieces<'_>,
    (answer, output): (Result<Verdict, RunFault>, &[u8]),
) -> bool {
    let mut written = Vec::new(alloc);
    let found = run_with(alloc, work, source, &mut ToWrite::new(&mut written));
    found == answer && written.as_slice() == output
}
