//! Sources and sinks that break.
use super::gives;
use crate::memory::module::{NORMAL, SPELLED};
use ber_core::{Pieces, Room};
use ill_commands::{Job, JobOptions, RunFault, Verdict, run, run_same};
use ill_normal::{NormalFailure, normalise_as};
use ill_schema::Profile;
use std::alloc::Global;
use std::test::Fail;
use test_support::octets_of;

/// An EXPIRED in normal form, twice.
const TWICE: &str =
    "741f301d800102a10aa1031b0147a2031b0151a20ca00a80083230323430323239741f301d800102a10aa1031b0147a2031b0151a20ca00a80083230323430323239";

/// The output of `check` for both.
const LINES: &str =
    "message 1: Expired, 33 octets, normal\nmessage 2: Expired, 33 octets, normal\n";

/// The result of `check` where a sink takes as many octets a call and breaks after a number, and how many octets it has, None where
/// they are not the first of the lines.
fn checked(
    alloc: Global,
    octets: &[u8],
    per_call: usize,
    breaks: Option<usize>,
) -> (Result<Verdict, RunFault>, Option<usize>) {
    let mut source = Pieces::new(octets, 64, None);
    let mut sink: Room<128> = Room::new(per_call.max(1), breaks);
    let answer = run(alloc, Job::Check, false, &mut source, &mut sink);
    let written = sink.octets();
    let count = LINES
        .as_bytes()
        .starts_with(written)
        .then_some(written.len());
    (answer, count)
}

#[test]
fn a_broken_sink_has_the_first_octets(rt: HostRuntime) -> Result<(), Fail> {
    let octets = octets_of(rt.alloc(), TWICE)?;
    for n in 0..LINES.len() {
        let fault = Err(RunFault::WriteFault(n as u128));
        assert!(rt;
            checked(rt.alloc(), &octets, 64, Some(n)) == (fault, Some(n)),
            "{n}"
        );
    }
    assert!(rt; checked(rt.alloc(), &octets, 7, None) == (Ok(Verdict::Good), Some(LINES.len())));
    Ok(())
}

#[test]
fn a_broken_source_leaves_the_output_of_whole_messages(rt: HostRuntime) -> Result<(), Fail> {
    let octets = octets_of(rt.alloc(), TWICE)?;
    let work = JobOptions::new(Job::Canonicalise, false);
    for n in 0..66 {
        let mut source = Pieces::new(&octets, 64, Some(n));
        let whole = &octets[..if n < 33 { 0 } else { octets.len().min(33) }];
        assert!(rt;
            gives(
                rt.alloc(),
                work,
                &mut source,
                (Err(RunFault::ReadFault), whole)
            ),
            "{n}"
        );
    }
    Ok(())
}

#[test]
fn nothing_is_written_where_a_text_breaks(rt: HostRuntime) {
    let mut source = Pieces::new(TWICE.as_bytes(), 64, Some(100));
    let work = JobOptions::new(Job::Show, true);
    assert!(rt;
        gives(
            rt.alloc(),
            work,
            &mut source,
            (Err(RunFault::ReadFault), b"")
        )
    );
}

/// Tells whether a comparison of a message with itself breaks after n octets of its line.
fn breaks_after(alloc: Global, message: &[u8], n: usize) -> bool {
    let mut first = Pieces::new(message, 64, None);
    let mut second = Pieces::new(message, 64, None);
    let mut sink: Room<8> = Room::new(8, Some(n));
    let answer = run_same(alloc, false, &mut first, &mut second, &mut sink);
    answer == Err(RunFault::WriteFault(n as u128)) && b"same\n".get(..n) == Some(sink.octets())
}

#[test]
fn a_comparison_breaks_within_its_line(rt: HostRuntime) -> Result<(), Fail> {
    let octets = octets_of(rt.alloc(), TWICE)?;
    let message = &octets[..octets.len().min(33)];
    for n in 0..5 {
        assert!(rt; breaks_after(rt.alloc(), message, n), "{n}");
    }
    Ok(())
}

/// The result for a message of the module profile in a source and a sink that break after a number of octets, and what the sink has.
fn normalised(
    alloc: Global,
    source: Option<usize>,
    sink: Option<usize>,
    wanted: NormalFailure,
    written: &[u8],
) -> bool {
    let mut source = Pieces::new(SPELLED, 64, source);
    let mut sink: Room<128> = Room::new(64, sink);
    normalise_as(alloc, Profile::Module, &mut source, &mut sink) == Err(wanted)
        && sink.octets() == written
}

#[test]
fn a_message_of_the_module_breaks_as_others(rt: HostRuntime) {
    for n in 0..SPELLED.len() {
        let fault = NormalFailure::ReadFault;
        assert!(rt; normalised(rt.alloc(), Some(n), None, fault, b""), "{n}");
    }
    for n in 0..NORMAL.len() {
        let fault = NormalFailure::WriteFault(n as u32);
        assert!(rt;
            normalised(rt.alloc(), None, Some(n), fault, &NORMAL[..n]),
            "{n}"
        );
    }
}
