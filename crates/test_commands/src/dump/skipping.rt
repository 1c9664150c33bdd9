//! Dumps that go on after a message that is refused, or are of one message alone.
use super::{PLAIN, SPELLED, result_of};
use ber_core::{Pieces, Room};
use ill_dump::{DumpOptions, run_dump};
use ill_normal::{
    Cause, Counts, OnRefusal, Refusal, RefusalReport, ReportRefusals, RunFault, StreamEnd,
};
use std::alloc::{AllocError, Global};
use std::test::Fail;
use test_support::octets_of;

/// The reports.
#[derive(Drop)]
struct Reported {
    reports: Vec<RefusalReport>,
}

impl ReportRefusals for Reported {
    ghost use Rattle.std.specs.Prelude.{None};

    ghost reported = { λ _. None };

    fn report(&mut self, report: RefusalReport, octets: &[u8]) -> Result<(), RunFault> {
        let _ = octets;
        self.reports.push(report).map_err(|_| RunFault::NotReported)
    }
}

/// A NULL, an EXPIRED whose second row comes first and has an element more, an EXPIRED in normal form, and octets that begin nothing.
const MIXED: &str =
    "0500740ea20c800102a007810141ff858182741f301d800102a10aa1031b0147a2031b0151a20ca00a8008323032343032323900";

const FIRST: &str = "message 1: refused
refused at 0: UnexpectedTag
    this tag is not expected here
    no ILL message begins here
    clause X.690, 8.9.2, 8.10.2, 8.13 and 8.14, with the types of ISO 10161-1
    found [UNIVERSAL 5] NULL primitive: 05
";

const SECOND: &str = "message 2: refused
      0  74 0e  Expired
refused at 2: UnexpectedTag
    this tag is not expected here
    no ILL message begins here
    clause X.690, 8.9.2, 8.10.2, 8.13 and 8.14, with the types of ISO 10161-1
    found [2] constructed: a2
";

const REST: &str = "      2    a2 0c  [2]  (not judged)
      4      80 01  [0] = 02  (not judged)
      7      a0 07  [0]  (not judged)
      9        81 01  [1] = \"A\"  (not judged)
     12        ff 85 81 82  octets  (not judged)
";

const THIRD: &str = "message 3: Expired, 33 octets, normal
      0  74 1f  Expired
";

const FOURTH: &str = "message 4: refused
refused at 0: BadTag
    no identifier begins so, or the tag number has more than four octets
    no ILL message begins here
    clause X.690, 8.1.2
    found 00
      0  00  octets  (not judged)
";

/// The text that was written, the reports and the end.
#[derive(Drop)]
struct Dumped {
    text: Vec<u8>,
    reports: Vec<RefusalReport>,
    end: StreamEnd,
}

/// A dump that goes on.
fn dump_of(alloc: Global, dump: DumpOptions<'_>, octets: &[u8]) -> Result<Dumped, AllocError> {
    let mut source = Pieces::new(octets, 7, None);
    let mut sink: Room<4096> = Room::new(4096, None);
    let mut reported = Reported {
        reports: Vec::new(alloc),
    };
    let dump = DumpOptions {
        on_refusal: OnRefusal::GoOn,
        ..dump
    };
    let end = run_dump(alloc, dump, &mut source, &mut sink, &mut reported);
    Ok(Dumped {
        text: sink.octets().to_vec(alloc)?,
        reports: reported.reports,
        end,
    })
}

/// The offset in `text` after a part of it, which begins at this offset or later.
fn after(text: &[u8], from: usize, part: &str) -> Option<usize> {
    for start in from..text.len() {
        if let Some(rest) = text.get(start..) {
            if rest.starts_with(part.as_bytes()) {
                return Some(start.saturating_add(part.len()));
            }
        }
    }
    None
}

/// Tells whether the parts come in this order.
fn come_in_order(text: &[u8], parts: &[&str]) -> bool {
    let mut from = 0;
    for part in parts {
        match after(text, from, part) {
            Some(end) => from = end,
            None => return false,
        }
    }
    true
}

/// The report of a message that begins at `offset` in the input and is refused at `at` in the message. `octets` is its size, if its end is known.
const fn report(
    message: u32,
    offset: u64,
    at: u32,
    cause: Cause,
    octets: Option<u64>,
) -> RefusalReport {
    RefusalReport {
        message,
        offset,
        refusal: Refusal { at, cause },
        octets,
    }
}

#[test]
fn each_message_has_its_lines(rt: HostRuntime) -> Result<(), Fail> {
    let octets = octets_of(rt.alloc(), MIXED)?;
    let found = dump_of(rt.alloc(), PLAIN, &octets)?;
    let parts = [FIRST, SECOND, REST, THIRD, FOURTH];
    assert!(rt; come_in_order(&found.text, &parts));
    assert!(rt;
        found.text.starts_with(FIRST.as_bytes()) && found.text.ends_with(FOURTH.as_bytes())
    );
    let reports = [
        report(1, 0, 0, Cause::UnexpectedTag, Some(2)),
        report(2, 2, 2, Cause::UnexpectedTag, Some(16)),
        report(4, 51, 0, Cause::BadTag, None),
    ];
    assert!(rt; found.reports.as_slice() == reports.as_slice());
    let Counts {
        messages,
        refused,
        good,
        octets,
        ..
    } = found.end.counts;
    assert!(rt; (messages, refused, good, octets) == (4, 3, 1, 51));
    // The end of the last message is unknown.
    let refusal = Refusal {
        at: 0,
        cause: Cause::BadTag,
    };
    let last = RunFault::Refused {
        message: 4,
        refusal,
    };
    assert!(rt; found.end.fault == Some(last));
    Ok(())
}

#[test]
fn hexadecimal_text_is_dumped(rt: HostRuntime) -> Result<(), Fail> {
    let octets = octets_of(rt.alloc(), MIXED)?;
    let dump = DumpOptions { hex: true, ..PLAIN };
    let found = dump_of(rt.alloc(), dump, MIXED.as_bytes())?;
    let other = dump_of(rt.alloc(), PLAIN, &octets)?;
    assert!(rt; found.text.as_slice() == other.text.as_slice() && found.end == other.end);
    Ok(())
}

/// An INTEGER that isn't due, with a length of 33 octets that is too great, and then other octets.
const GREAT_LENGTH: &str =
    "7480308002a10a0102030405060708090a0b0c0d0e0f101112131415161718191a1b1c1d1e1f207400";

const GREAT_LENGTH_LINE: &str =
    "      4      02 a1 0a 01 02 03 04 05 06 07 08 09 0a 0b 0c 0d 0e 0f 10 11 12 13 14 15 16 17 18 19 1a 1b 1c 1d 1e 1f 20  [UNIVERSAL 2] INTEGER = \"\"  (cut short, not judged)
";

#[test]
fn a_length_that_is_too_great_is_listed_whole(rt: HostRuntime) -> Result<(), Fail> {
    let octets = octets_of(rt.alloc(), GREAT_LENGTH)?;
    let found = dump_of(rt.alloc(), PLAIN, &octets)?;
    assert!(rt; found.text.ends_with(GREAT_LENGTH_LINE.as_bytes()));
    let reports = [report(1, 0, 4, Cause::UnexpectedTag, None)];
    assert!(rt; found.reports.as_slice() == reports.as_slice());
    Ok(())
}

/// The dump of one message.
fn one(alloc: Global, number: u32, octets: &[u8]) -> Result<Dumped, AllocError> {
    let only = Some(number);
    dump_of(alloc, DumpOptions { only, ..PLAIN }, octets)
}

#[test]
fn one_message_is_written_alone(rt: HostRuntime) -> Result<(), Fail> {
    let octets = octets_of(rt.alloc(), MIXED)?;
    for (number, first) in [(1, FIRST), (2, SECOND), (3, THIRD), (4, FOURTH)] {
        let found = one(rt.alloc(), number, &octets)?;
        assert!(rt; found.text.starts_with(first.as_bytes()), "{number}");
        assert!(rt; found.end.counts.messages == number, "{number}");
        assert!(rt; found.end.fault.is_some() == (number == 4), "{number}");
    }
    let found = one(rt.alloc(), 5, &octets)?;
    assert!(rt; found.text.is_empty());
    Ok(())
}

#[test]
fn nothing_after_one_message_is_read(rt: HostRuntime) -> Result<(), Fail> {
    let octets = octets_of(rt.alloc(), SPELLED)?;
    for (number, count) in [(1, 1), (2, 1)] {
        let mut source = Pieces::new(&octets, 64, None);
        let mut sink: Room<2048> = Room::new(2048, None);
        let dump = DumpOptions {
            only: Some(number),
            ..PLAIN
        };
        let result = result_of(rt.alloc(), dump, &mut source, &mut sink);
        assert!(rt; result == Ok(count), "{number}");
        assert!(rt; sink.octets().is_empty() == (number == 2), "{number}");
    }
    Ok(())
}
