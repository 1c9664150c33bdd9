//! Calls in the module profile. Nothing is written where there is no memory. `tests/memory/allocations.sh` makes these calls, too, in a program of its own.
use super::Row;
use ber_core::{Pieces, Room};
use ill_commands::{Job, LineJob, RunFault, Verdict, run_as, run_lines_as, run_same_as};
use ill_normal::{
    Failure, NormalFailure, ReadFailure, StreamCause, check_one_as, is_normal_as, normalise_as,
    normalise_stream_as, same_message_as,
};
use ill_schema::Profile;
use std::alloc::Global;
use test_support::Outcome;

/// A RETURNED in indefinite form, with an extension and two EXTERNALs: a BIT STRING in segments, and a value of an open type.
pub const SPELLED: &[u8] =
    b"\x6a\x80\x30\x80\x80\x01\x02\xa1\x0a\xa1\x03\x1b\x01\x47\xa2\x03\x1b\x01\x51\xa2\x0c\xa0\x0a\x80\x0820240229\xb1\x80\x28\x15\xa2\x80\x23\x80\x03\x01\x00\x03\x02\x00\xa5\x00\x00\x23\x00\x03\x02\x07\xff\x00\x00\x28\x0d\x06\x01\x2a\xa0\x80\x30\x80\x05\x00\x00\x00\x00\x00\x00\x00\x9f\x25\x0820240229\xbf\x31\x80\x30\x07\x80\x01\x01\xa2\x02\x05\x00\x00\x00\x00\x00\x00\x00";

/// The normal form of the message.
pub const NORMAL: &[u8] =
    b"\x6a\x4a\x30\x48\x80\x01\x02\xa1\x0a\xa1\x03\x1b\x01\x47\xa2\x03\x1b\x01\x51\xa2\x0c\xa0\x0a\x80\x0820240229\xb1\x12\x28\x05\x82\x03\x07\xa5\x80\x28\x09\x06\x01\x2a\xa0\x04\x30\x02\x05\x00\x9f\x25\x0820240229\xbf\x31\x09\x30\x07\x80\x01\x01\xa2\x02\x05\x00";

/// The first one as a line of hexadecimal text.
const LINE: &[u8] =
    b"6a803080800102a10aa1031b0147a2031b0151a20ca00a80083230323430323239b1802815a2802380030100030200a500002300030207ff0000280d06012aa080308005000000000000009f25083230323430323239bf31803007800101a2020500000000000000\n";

/// The result of each call of this file.
pub fn calls(alloc: Global) -> [Row; 12] {
    [
        row(alloc, "normalise_as"),
        row(alloc, "normalise_stream_as"),
        row(alloc, "check_one_as"),
        row(alloc, "same_message_as"),
        row(alloc, "is_normal_as"),
        row(alloc, "run_as(Show)"),
        row(alloc, "run_as(Json)"),
        row(alloc, "run_as(Check)"),
        row(alloc, "run_as(Digest)"),
        row(alloc, "run_as(Canonicalise)"),
        row(alloc, "run_same_as"),
        row(alloc, "run_lines_as"),
    ]
}

fn row(alloc: Global, name: &'static str) -> Row {
    (name, call(alloc, name))
}

/// The result of the call of this name; Wrong where no call has it.
pub fn call(alloc: Global, name: &str) -> Outcome {
    match name {
        "normalise_as" => normalise_one(alloc),
        "normalise_stream_as" => normalise_all(alloc),
        "check_one_as" => check(alloc),
        "same_message_as" => same(alloc),
        "is_normal_as" => is_normal(alloc),
        "run_as(Show)" => run_job(alloc, Job::Show),
        "run_as(Json)" => run_job(alloc, Job::Json),
        "run_as(Check)" => run_job(alloc, Job::Check),
        "run_as(Digest)" => run_job(alloc, Job::Digest),
        "run_as(Canonicalise)" => run_job(alloc, Job::Canonicalise),
        "run_same_as" => compare(alloc),
        "run_lines_as" => run_lines(alloc),
        _ => Outcome::Wrong,
    }
}

/// The octets of a message as a source gives them.
fn input() -> Pieces<'static> {
    Pieces::new(SPELLED, 64, None)
}

fn normalise_one(alloc: Global) -> Outcome {
    let mut sink: Room<128> = Room::new(64, None);
    match normalise_as(alloc, Profile::Module, &mut input(), &mut sink) {
        Ok(_) => Outcome::right(sink.octets() == NORMAL),
        Err(failure) => Outcome::out_of_memory(
            failure == NormalFailure::OutOfMemory && sink.octets().is_empty(),
        ),
    }
}

fn normalise_all(alloc: Global) -> Outcome {
    let mut sink: Room<128> = Room::new(64, None);
    match normalise_stream_as(alloc, Profile::Module, &mut input(), &mut sink) {
        Ok(_) => Outcome::right(sink.octets() == NORMAL),
        Err(failure) => Outcome::out_of_memory(
            failure.why == StreamCause::Normal(NormalFailure::OutOfMemory)
                && sink.octets().is_empty(),
        ),
    }
}

fn check(alloc: Global) -> Outcome {
    match check_one_as(alloc, Profile::Module, &mut input()) {
        Ok(Some(checked)) => Outcome::right(checked.normal == 76 && !checked.is_normal),
        Ok(None) => Outcome::Wrong,
        Err(failure) => Outcome::out_of_memory(failure == ReadFailure::OutOfMemory),
    }
}

fn same(alloc: Global) -> Outcome {
    match same_message_as(alloc, Profile::Module, SPELLED, NORMAL) {
        Ok(same) => Outcome::right(same),
        Err((_, failure)) => Outcome::out_of_memory(failure == Failure::OutOfMemory),
    }
}

fn is_normal(alloc: Global) -> Outcome {
    match is_normal_as(alloc, Profile::Module, NORMAL) {
        Ok(is_normal) => Outcome::right(is_normal),
        Err(failure) => Outcome::out_of_memory(failure == Failure::OutOfMemory),
    }
}

/// Of a job that is to end with this verdict.
fn of_job(done: Result<Verdict, RunFault>, written: &[u8], wanted: Verdict) -> Outcome {
    match done {
        Ok(verdict) => Outcome::right(verdict == wanted && !written.is_empty()),
        Err(fault) => Outcome::out_of_memory(fault == RunFault::OutOfMemory && written.is_empty()),
    }
}

/// Does a job with the message, which `check` finds not normal.
fn run_job(alloc: Global, job: Job) -> Outcome {
    let mut sink: Room<1024> = Room::new(64, None);
    let done = run_as(alloc, Profile::Module, job, false, &mut input(), &mut sink);
    let wanted = match job {
        Job::Check => Verdict::NotGood,
        _ => Verdict::Good,
    };
    of_job(done, sink.octets(), wanted)
}

fn compare(alloc: Global) -> Outcome {
    let mut normal = Pieces::new(NORMAL, 64, None);
    let mut sink: Room<64> = Room::new(64, None);
    let done = run_same_as(
        alloc,
        Profile::Module,
        false,
        &mut input(),
        &mut normal,
        &mut sink,
    );
    of_job(done, sink.octets(), Verdict::Good)
}

fn run_lines(alloc: Global) -> Outcome {
    let mut source = Pieces::new(LINE, 64, None);
    let mut sink: Room<128> = Room::new(64, None);
    let done = run_lines_as(
        alloc,
        Profile::Module,
        LineJob::Digest,
        &mut source,
        &mut sink,
    );
    match done {
        Ok(all) => Outcome::right(all && sink.octets().len() == 65),
        Err(fault) => {
            Outcome::out_of_memory(fault == RunFault::OutOfMemory && sink.octets().is_empty())
        }
    }
}
