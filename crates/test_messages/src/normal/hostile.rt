//! Inputs that end early, and sources and sinks that break: at each octet of each message of up to 200.
use super::rows::{ROWS, octets_of_row};
use ill_normal::{
    Cause, Failure, NormalFailure, Pieces, ReadFailure, Refusal, Room, decode, normalise,
    read_message,
};
use std::alloc::Global;
use std::test::Fail;
use test_support::octets_of;

fn number(octets: usize) -> u32 {
    u32::try_from(octets).unwrap_or(u32::MAX)
}

/// Tells whether the octets, which are the front of a message, are refused as cut short after the last, as a slice and from a source. A source
/// without an octet has no message.
fn is_truncated(alloc: Global, octets: &[u8]) -> bool {
    let refusal = Refusal {
        at: number(octets.len()),
        cause: Cause::Truncated,
    };
    let decoded = decode(alloc, octets).err() == Some(Failure::Refused(refusal));
    let mut source = Pieces::new(octets, 64, None);
    decoded
        && match read_message(alloc, &mut source) {
            Ok(found) => octets.is_empty() && found.is_none(),
            Err(failure) => !octets.is_empty() && failure == ReadFailure::Refused(refusal),
        }
}

/// The result for a message from a source that breaks after a number of octets, into a sink that breaks so, and how many octets
/// the sink has, None where they are not the first of the normal form.
fn broken(
    alloc: Global,
    octets: &[u8],
    normal: &[u8],
    (source_breaks, sink_breaks): (Option<usize>, Option<usize>),
) -> (Result<Option<u32>, NormalFailure>, Option<usize>) {
    let mut source = Pieces::new(octets, 64, source_breaks);
    let mut sink: Room<256> = Room::new(64, sink_breaks);
    let result = normalise(alloc, &mut source, &mut sink);
    let written = sink.octets();
    let count = normal.starts_with(written).then_some(written.len());
    (result, count)
}

/// Tells whether a source that breaks in the message leaves nothing in the sink. One that breaks after it is not noticed.
fn breaks_at_each_read(alloc: Global, octets: &[u8], normal: &[u8]) -> bool {
    for n in 0..octets.len() {
        let found = broken(alloc, octets, normal, (Some(n), None));
        if found != (Err(NormalFailure::ReadFault), Some(0)) {
            return false;
        }
    }
    let found = broken(alloc, octets, normal, (Some(octets.len()), None));
    found == (Ok(Some(number(normal.len()))), Some(normal.len()))
}

/// Tells whether a sink that breaks has the first octets of the normal form.
fn breaks_at_each_write(alloc: Global, octets: &[u8], normal: &[u8]) -> bool {
    for n in 0..normal.len() {
        let fault = NormalFailure::WriteFault(number(n));
        if broken(alloc, octets, normal, (None, Some(n))) != (Err(fault), Some(n)) {
            return false;
        }
    }
    true
}

fn ends_at_each_octet(alloc: Global, octets: &[u8]) -> bool {
    for n in 0..octets.len() {
        if !is_truncated(alloc, &octets[..n]) {
            return false;
        }
    }
    true
}

/// Tells whether a row comes true where its message ends early, and where a source or a sink breaks. One of more than 200 octets isn't tried.
fn comes_true(alloc: Global, row: &str) -> Result<bool, Fail> {
    let (octets, normal) = octets_of_row(alloc, row)?;
    Ok(
        octets.len() > 200
            || (ends_at_each_octet(alloc, &octets)
                && breaks_at_each_read(alloc, &octets, &normal)
                && breaks_at_each_write(alloc, &octets, &normal)),
    )
}

#[test]
fn messages_that_break_off_leave_what_they_must(rt: HostRuntime) -> Result<(), Fail> {
    for row in ROWS.lines() {
        assert!(rt; comes_true(rt.alloc(), row)?, "{row}");
    }
    Ok(())
}

/// A message of the greatest size, whose note is in segments of one octet, nested to depth 32.
const NESTED: &str =
    "71803080800102a10aa1031b0147a2031b0151a20ca00a80083230323430323239bf2e803b80 2480*27 040141*349474 00*62";

/// Tells whether the note is joined, with as many octets a call.
fn is_joined(alloc: Global, octets: &[u8], per_call: usize) -> bool {
    let mut source = Pieces::new(octets, per_call.max(1), None);
    let mut sink: Room<350_000> = Room::new(4096, None);
    normalise(alloc, &mut source, &mut sink) == Ok(Some(349_524))
        && sink.octets().ends_with(b"AAAA")
}

#[test]
fn a_note_of_nested_segments_is_joined(rt: HostRuntime) -> Result<(), Fail> {
    let octets = octets_of(rt.alloc(), NESTED)?;
    assert!(rt; octets.len() == 1_048_576);
    assert!(rt; is_joined(rt.alloc(), &octets, 1) && is_joined(rt.alloc(), &octets, 4096));
    Ok(())
}
