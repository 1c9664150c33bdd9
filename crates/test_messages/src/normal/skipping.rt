//! Messages one after another, where some are refused.
use super::{EXPIRED, EXPIRED_HEX, INDEFINITE_HEX};
use ber_core::{FromSlice, Sink};
use ill_normal::{
    Broken, Cause, Counts, NodeId, NormalFailure, OnRefusal, PartId, Pieces, Profile, Reading,
    Refusal, RefusalReport, ReportRefusals, Room, RunFault, Source, StreamCause, StreamEnd,
    ToWrite, WriteNormalForms, normalise_stream, read_input,
};
use std::alloc::Global;
use std::test::Fail;
use test_support::octets_of;

/// The reports, and the octets of the messages whose ends are known.
#[derive(Drop)]
struct Reported {
    reports: Vec<RefusalReport>,
    octets: Vec<u8>,
}

impl ReportRefusals for Reported {
    ghost use Rattle.std.specs.Prelude.{None};

    ghost reported = { λ _. None };

    fn report(&mut self, report: RefusalReport, octets: &[u8]) -> Result<(), RunFault> {
        let _ = self.reports.push(report);
        if report.octets.is_some() {
            let _ = self.octets.extend_from_slice(octets);
        }
        Ok(())
    }
}

/// Messages and other octets in hexadecimal, how many of them are messages that are written, what is reported, and how many there are.
struct Row {
    name: &'static str,
    input: &'static [&'static str],
    written: usize,
    reports: &'static [Refused],
    messages: u32,
    /// The number of octets that those have whose ends are known.
    octets: u64,
}

/// A refused message: its number, how many octets come before it, the offset in it, the cause, and how many octets it has, where its end is known.
type Refused = (u32, u64, u32, Cause, Option<u64>);

/// Tells whether these were reported of an input.
fn are_reported(reported: &Reported, input: &[u8], wanted: &[Refused]) -> bool {
    if reported.reports.len() != wanted.len() {
        return false;
    }
    let mut left = reported.octets.as_slice();
    for (report, want) in reported.reports.iter().zip(wanted) {
        let RefusalReport {
            message,
            offset,
            refusal: Refusal { at, cause },
            octets,
        } = *report;
        if (message, offset, at, cause, octets) != *want {
            return false;
        }
        let message = octets_in(input, offset, octets);
        match left.strip_prefix(message) {
            Some(rest) => left = rest,
            None => return false,
        }
    }
    left.is_empty()
}

/// The octets of a message whose end is known, at most 1,048,576.
fn octets_in(input: &[u8], offset: u64, octets: Option<u64>) -> &[u8] {
    let Some(size) = octets else {
        return &[];
    };
    let rest = input.get(offset as usize..).unwrap_or(&[]);
    rest.get(..size.min(1_048_576) as usize).unwrap_or(&[])
}

const MISSING_TIME: Cause = Cause::Missing(PartId {
    node: NodeId::EXPIRED,
    row: 2,
});

static ROWS: [Row; 12] = [
    Row {
        name: "nothing",
        input: &[],
        written: 0,
        reports: &[],
        messages: 0,
        octets: 0,
    },
    Row {
        name: "good ones",
        input: &[EXPIRED_HEX, INDEFINITE_HEX],
        written: 2,
        reports: &[],
        messages: 2,
        octets: 80,
    },
    Row {
        name: "a NULL between",
        input: &[EXPIRED_HEX, "0500", INDEFINITE_HEX],
        written: 2,
        reports: &[(2, 33, 0, Cause::UnexpectedTag, Some(2))],
        messages: 3,
        octets: 82,
    },
    Row {
        name: "without its time, and a sequence of indefinite form in which another is",
        input: &[
            "7411300f800102a10aa1031b0147a2031b0151",
            EXPIRED_HEX,
            "3080308005000000040200000000",
            EXPIRED_HEX,
        ],
        written: 2,
        reports: &[
            (1, 0, 19, MISSING_TIME, Some(19)),
            (3, 52, 0, Cause::UnexpectedTag, Some(14)),
        ],
        messages: 4,
        octets: 99,
    },
    Row {
        name: "refused within, where its end mark is far off",
        input: &["74803080050000000401000000", EXPIRED_HEX],
        written: 1,
        reports: &[(1, 0, 4, Cause::UnexpectedTag, Some(13))],
        messages: 2,
        octets: 46,
    },
    Row {
        name: "an element passes the end of the one round it",
        input: &["740430038001", EXPIRED_HEX],
        written: 1,
        reports: &[(1, 0, 2, Cause::Overrun, Some(6))],
        messages: 2,
        octets: 39,
    },
    Row {
        name: "an end mark where a message is due",
        input: &[EXPIRED_HEX, "0000", EXPIRED_HEX],
        written: 1,
        reports: &[(2, 33, 0, Cause::BadTag, None)],
        messages: 2,
        octets: 33,
    },
    Row {
        name: "a reserved length octet",
        input: &["74ff", EXPIRED_HEX],
        written: 0,
        reports: &[(1, 0, 0, Cause::BadLength, None)],
        messages: 1,
        octets: 0,
    },
    Row {
        name: "a length of 4,294,967,296 in five octets",
        input: &["74850100000000", EXPIRED_HEX],
        written: 0,
        reports: &[(1, 0, 0, Cause::TooLong, None)],
        messages: 1,
        octets: 0,
    },
    Row {
        name: "cut short in a length that is too great",
        input: &[EXPIRED_HEX, "7489010000"],
        written: 1,
        reports: &[(2, 33, 5, Cause::Truncated, None)],
        messages: 2,
        octets: 33,
    },
    Row {
        name: "half an end mark",
        input: &["74800001", EXPIRED_HEX],
        written: 0,
        reports: &[(1, 0, 2, Cause::BadEnd, None)],
        messages: 1,
        octets: 0,
    },
    Row {
        name: "cut short",
        input: &[EXPIRED_HEX, "741f301d8001"],
        written: 1,
        reports: &[(2, 33, 6, Cause::Truncated, None)],
        messages: 2,
        octets: 33,
    },
];

/// Tells whether the octets are EXPIRED, `count` times.
fn are_expireds(octets: &[u8], count: usize) -> bool {
    let mut found = 0usize;
    for message in octets.chunks(EXPIRED.len()) {
        if message != EXPIRED {
            return false;
        }
        found = found.saturating_add(1);
    }
    found == count
}

/// The octets that words in hexadecimal say, joined.
fn joined(alloc: Global, words: &[&str]) -> Result<Vec<u8>, Fail> {
    let mut octets = Vec::new(alloc);
    for word in words {
        octets.extend_from_slice(&octets_of(alloc, word)?)?;
    }
    Ok(octets)
}

/// The result for messages, some of which are skipped.
#[derive(Clone, Copy)]
struct Want<'a> {
    result: StreamEnd,
    /// The number of times that EXPIRED is written.
    written: usize,
    input: &'a [u8],
    reports: &'a [Refused],
}

/// The reading of octets, where the work goes on after a refused message.
const GOING_ON: Reading = Reading {
    hex: false,
    on_refusal: OnRefusal::GoOn,
    only: None,
};

/// Makes the call. Its contract is long, and the tests look at results alone.
fn pass_over<R: Source, W: Sink, T: ReportRefusals>(
    alloc: Global,
    source: &mut R,
    sink: &mut W,
    reports: &mut T,
) -> StreamEnd {
    let mut writer = WriteNormalForms {
        alloc,
        profile: Profile::Two,
    };
    read_input(GOING_ON, &mut writer, source, sink, reports)
}

/// Tells whether that comes of the messages of a source.
fn comes_of<R: Source>(alloc: Global, source: &mut R, want: &Want<'_>) -> bool {
    let mut octets = Vec::new(alloc);
    let mut reported = Reported {
        reports: Vec::new(alloc),
        octets: Vec::new(alloc),
    };
    let result = pass_over(alloc, source, &mut ToWrite::new(&mut octets), &mut reported);
    result == want.result
        && are_expireds(&octets, want.written)
        && are_reported(&reported, want.input, want.reports)
}

/// Tells whether a call that stops at the first message that is refused stops at the first of these.
fn stops_at_the_first(alloc: Global, octets: &[u8], refused: &[Refused]) -> bool {
    let mut source = FromSlice::new(octets);
    let mut sink: Room<128> = Room::new(128, None);
    let result = normalise_stream(alloc, &mut source, &mut sink);
    match (result, refused) {
        (Ok(_), []) => true,
        (Err(failure), [(message, _, at, cause, _), ..]) => {
            let refusal = Refusal {
                at: *at,
                cause: *cause,
            };
            failure.whole.saturating_add(1) == *message
                && failure.why == StreamCause::Normal(NormalFailure::Refused(refusal))
        }
        _ => false,
    }
}

/// The fault of an input whose last message has no known end; None where each end is known.
fn fault_after(reports: &[Refused]) -> Option<RunFault> {
    match reports {
        [.., (message, _, at, cause, None)] => Some(RunFault::Refused {
            message: *message,
            refusal: Refusal {
                at: *at,
                cause: *cause,
            },
        }),
        _ => None,
    }
}

/// Tells whether a row comes true, of octets in pieces and of octets at hand.
fn comes_true(alloc: Global, row: &Row, octets: &[u8]) -> bool {
    let want = Want {
        result: StreamEnd {
            counts: Counts {
                messages: row.messages,
                refused: u32::try_from(row.reports.len()).unwrap_or(u32::MAX),
                good: u32::try_from(row.written).unwrap_or(u32::MAX),
                octets: row.octets,
                written: (row.written as u128).saturating_mul(33),
            },
            fault: fault_after(row.reports),
        },
        written: row.written,
        input: octets,
        reports: row.reports,
    };
    for per_call in [1, 5, 64] {
        let mut source = Pieces::new(octets, per_call, None);
        if !comes_of(alloc, &mut source, &want) {
            return false;
        }
    }
    comes_of(alloc, &mut FromSlice::new(octets), &want)
}

#[test]
fn refused_messages_are_passed_over(rt: HostRuntime) -> Result<(), Fail> {
    for row in &ROWS {
        let octets = joined(rt.alloc(), row.input)?;
        assert!(rt;
            comes_true(rt.alloc(), row, &octets)
                && stops_at_the_first(rt.alloc(), &octets, row.reports),
            "{}",
            row.name
        );
    }
    Ok(())
}

/// EXPIRED, a REFUSED, and EXPIRED.
const BETWEEN: &[&str] = &[EXPIRED_HEX, "0500", EXPIRED_HEX];

/// The reports of these.
const REFUSED: &[Refused] = &[(2, 33, 0, Cause::UnexpectedTag, Some(2))];

/// Tells whether a sink that breaks after n octets, of the 66 that are to be written, has these.
fn has_the_first(alloc: Global, octets: &[u8], n: usize) -> bool {
    let mut source = FromSlice::new(octets);
    let mut sink: Room<128> = Room::new(64, Some(n));
    let mut reported = Reported {
        reports: Vec::new(alloc),
        octets: Vec::new(alloc),
    };
    let result = pass_over(alloc, &mut source, &mut sink, &mut reported);
    let (messages, good, before, reports, written) = if n < 33 {
        (0, 0, 0, [].as_slice(), 0)
    } else {
        (2, 1, 35, REFUSED, 33)
    };
    let end = StreamEnd {
        counts: Counts {
            messages,
            refused: reports.len() as u32,
            good,
            octets: before,
            written,
        },
        fault: Some(RunFault::WriteFault(n as u128)),
    };
    let (first, second) = sink.octets().split_at(n.min(33).min(sink.octets().len()));
    result == end
        && sink.octets().len() == n
        && EXPIRED.starts_with(first)
        && EXPIRED.starts_with(second)
        && are_reported(&reported, octets, reports)
}

#[test]
fn a_broken_sink_has_the_first_octets(rt: HostRuntime) -> Result<(), Fail> {
    let octets = joined(rt.alloc(), BETWEEN)?;
    for n in 0..66 {
        assert!(rt; has_the_first(rt.alloc(), &octets, n), "{n}");
    }
    Ok(())
}

/// Tells whether a source that breaks after n octets leaves the normal forms of the messages that are whole in these.
fn leaves_what_was_whole(alloc: Global, octets: &[u8], n: usize) -> bool {
    let (messages, written, before, reports) = match n {
        0..=32 => (0, 0, 0, [].as_slice()),
        33..=34 => (1, 1, 33, [].as_slice()),
        35..=67 => (2, 1, 35, REFUSED),
        _ => (3, 2, 68, REFUSED),
    };
    let end = StreamEnd {
        counts: Counts {
            messages,
            refused: reports.len() as u32,
            good: written as u32,
            octets: before,
            written: 33 * written as u128,
        },
        fault: Some(RunFault::ReadFault),
    };
    let want = Want {
        result: end,
        written,
        input: octets,
        reports,
    };
    let mut source = Pieces::new(octets, 64, Some(n));
    comes_of(alloc, &mut source, &want)
}

#[test]
fn a_broken_source_leaves_what_was_whole(rt: HostRuntime) -> Result<(), Fail> {
    let octets = joined(rt.alloc(), BETWEEN)?;
    for n in 0..69 {
        assert!(rt; leaves_what_was_whole(rt.alloc(), &octets, n), "{n}");
    }
    Ok(())
}

/// A message of 2,097,152 octets in definite form, which is twice as many as a message may have, and EXPIRED.
const PAST_THE_LIMIT: &[&str] = &["748400200000 00*2097152", EXPIRED_HEX];

#[test]
fn a_message_past_the_limit_is_passed_over(rt: HostRuntime) -> Result<(), Fail> {
    let octets = joined(rt.alloc(), PAST_THE_LIMIT)?;
    let want = Want {
        result: StreamEnd {
            counts: Counts {
                messages: 2,
                refused: 1,
                good: 1,
                octets: 2_097_191,
                written: 33,
            },
            fault: None,
        },
        written: 1,
        input: &octets,
        reports: &[(1, 0, 0, Cause::TooLong, Some(2_097_158))],
    };
    let mut source = FromSlice::new(&octets);
    assert!(rt; comes_of(rt.alloc(), &mut source, &want));
    Ok(())
}

/// NULLs without an end.
#[derive(Drop)]
struct Nulls {
    at: bool,
}

impl Source for Nulls {
    ghost use Rattle.std.specs.Prelude.{None, false};

    ghost left = { λ _. None };

    ghost is_broken = { λ _. false };

    fn take(&mut self, buffer: &mut [u8]) -> Result<usize, Broken> {
        if let Some(room) = buffer.first_mut() {
            *room = if self.at { 0x00 } else { 0x05 };
            self.at = !self.at;
            return Ok(1);
        }
        Ok(0)
    }

    fn broken(&self) -> bool {
        false
    }
}

/// The number of reports.
#[derive(Drop)]
struct Count {
    reports: u32,
}

impl ReportRefusals for Count {
    ghost use Rattle.std.specs.Prelude.{None};

    ghost reported = { λ _. None };

    fn report(&mut self, report: RefusalReport, octets: &[u8]) -> Result<(), RunFault> {
        let _ = report;
        let _ = octets;
        self.reports = self.reports.saturating_add(1);
        Ok(())
    }
}

/// A receiver that takes no report.
#[derive(Drop)]
struct TakesNone;

impl ReportRefusals for TakesNone {
    ghost use Rattle.std.specs.Prelude.{None};

    ghost reported = { λ _. None };

    fn report(&mut self, report: RefusalReport, octets: &[u8]) -> Result<(), RunFault> {
        let _ = report;
        let _ = octets;
        Err(RunFault::NotReported)
    }
}

#[test]
fn a_report_that_is_not_taken_ends_the_work(rt: HostRuntime) -> Result<(), Fail> {
    let octets = joined(rt.alloc(), BETWEEN)?;
    let mut source = FromSlice::new(&octets);
    let mut sink: Room<128> = Room::new(128, None);
    let result = pass_over(rt.alloc(), &mut source, &mut sink, &mut TakesNone);
    let end = StreamEnd {
        counts: Counts {
            messages: 1,
            refused: 0,
            good: 1,
            octets: 33,
            written: 33,
        },
        fault: Some(RunFault::NotReported),
    };
    assert!(rt; result == end && sink.octets() == EXPIRED);
    Ok(())
}

#[test]
fn a_million_refused_messages_are_enough(rt: HostRuntime) {
    let mut source = Nulls { at: false };
    let mut sink: Room<1> = Room::new(1, None);
    let mut count = Count { reports: 0 };
    let result = pass_over(rt.alloc(), &mut source, &mut sink, &mut count);
    let end = StreamEnd {
        counts: Counts {
            messages: 1_000_000,
            refused: 1_000_000,
            good: 0,
            octets: 2_000_000,
            written: 0,
        },
        fault: Some(RunFault::TooManyMessages),
    };
    assert!(rt; result == end && count.reports == 1_000_000);
}
