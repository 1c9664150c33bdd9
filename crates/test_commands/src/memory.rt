//! Each public call that takes memory, once while there is memory and once while every allocation fails; but for those on typed parts
//! and APDUs, which `test_typed` makes so.
mod given;
mod jobs;
pub mod module;
mod octets;
mod writing;

use given::Given;
use std::alloc::Global;
use std::process::Abort;
use std::test::Fail;
use test_support::{MemoryHog, Outcome};

/// A call's name and its outcome.
type Row = (&'static str, Outcome);

/// The result of each call.
#[derive(Drop)]
struct All {
    octets: [Row; 15],
    writing: [Row; 6],
    jobs: [Row; 8],
    module: [Row; 12],
}

fn call_all(alloc: Global, given: &Given) -> All {
    All {
        octets: octets::calls(alloc, given),
        writing: writing::calls(alloc, given),
        jobs: jobs::calls(alloc),
        module: module::calls(alloc),
    }
}

/// Stops where one of these calls has another outcome.
fn want(rt: &impl Abort, rows: &[Row], wanted: Outcome) {
    for (name, outcome) in rows {
        assert!(rt;
            *outcome == wanted,
            "{name}: {outcome:?}, and not {wanted:?}"
        );
    }
}

/// Stops where one of all calls has another outcome.
fn want_all(rt: &impl Abort, all: &All, wanted: Outcome) {
    want(rt, &all.octets, wanted);
    want(rt, &all.writing, wanted);
    want(rt, &all.jobs, wanted);
    want(rt, &all.module, wanted);
}

#[test]
fn always_out_of_memory(rt: HostRuntime) -> Result<(), Fail> {
    let given = Given::new(rt.alloc())?;
    let with_memory = call_all(rt.alloc(), &given);
    let hoard = MemoryHog::of_all(rt.alloc())?;
    let is_empty_before = hoard.has_all();
    let without_memory = call_all(rt.alloc(), &given);
    let is_empty_after = hoard.has_all();
    // An assertion may want memory for its text.
    drop(hoard);
    assert!(rt; is_empty_before && is_empty_after, "memory was left");
    want_all(&rt, &with_memory, Outcome::Right);
    want_all(&rt, &without_memory, Outcome::OutOfMemory);
    Ok(())
}
