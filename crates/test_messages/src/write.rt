//! Worked messages, built by hand, with their normal forms from outside.
mod contracts;

ghost use Rattle.std.specs.Prelude.{None, false};

use ber_core::{Broken, Room, Sink};
use ill_schema::Message;
use ill_write::{Sizes, WriteFailure, normal_bytes, normal_size_counts_normal_forms, write_normal};
use std::alloc::{AllocError, Global};
use std::test::Fail;
use test_support::{message, octets_of};

/// A row a line: its name, the APDU's number, the normal form in hexadecimal, and the parts of the
/// body, as [`test_support::message`] reads them. `..*n` in place of octets is `41`, n times.
const ROWS: &str = "\
expired-normal-form 20 741f301d800102a10aa1031b0147a2031b0151a20ca00a80083230323430323239 head - seq:6
group-qualifier-visible 20 741f301d800102a10aa1031a0147a2031b0151a20ca00a80083230323430323239 2 - visible:G general:Q - seq:4 date:20240229 - seq:2 - seq:2 - - - seq:6
empty-group-qualifier 20 741e301c800102a109a1021b00a2031b0151a20ca00a80083230323430323239 2 - general: general:Q - seq:4 date:20240229 - seq:2 - seq:2 - - - seq:6
accent-octet-accepted 20 741f301d800102a10aa1031b01e9a2031b0151a20ca00a80083230323430323239 2 - hex:e9 general:Q - seq:4 date:20240229 - seq:2 - seq:2 - - - seq:6
jones-primitive 20 74233021800102a10ea1071a054a6f6e6573a2031b0151a20ca00a80083230323430323239 2 - visible:Jones general:Q - seq:4 date:20240229 - seq:2 - seq:2 - - - seq:6
time-leap-second 20 74273025800102a10aa1031b0147a2031b0151a214a012800832303234303232398106323335393630 2 - general:G general:Q - seq:4 date:20240229 time:235960 seq:2 - seq:2 - - - seq:6
time-end-of-day 20 74273025800102a10aa1031b0147a2031b0151a214a012800832303234303232398106323430303030 2 - general:G general:Q - seq:4 date:20240229 time:240000 seq:2 - seq:2 - - - seq:6
time-start-of-day 20 74273025800102a10aa1031b0147a2031b0151a214a012800832303234303232398106303030303030 2 - general:G general:Q - seq:4 date:20240229 time:000000 seq:2 - seq:2 - - - seq:6
requester-id-institution-symbol 20 74283026800102a10aa1031b0147a2031b0151a20ca00a80083230323430323239a307a005a1031b014c 2 - general:G general:Q - seq:4 date:20240229 - seq:2 - seq:2 general:L alt:1 - seq:2 - - seq:6
requester-id-empty 20 7421301f800102a10aa1031b0147a2031b0151a20ca00a80083230323430323239a300 2 - general:G general:Q - seq:4 date:20240229 - seq:2 - seq:2 - - seq:2 - - seq:6
request-normal-form 1 61343032800102a10aa1031b0147a2031b0151a20ca00a80083230323430323239a9030a0101ab0c800100810100820101830101b000 head 1 none:3 1 list:1 - false false 1 1 seq:4 none:2 3 - none:23 seq:23 none:4 false false none:3 seq:26
request-with-physical-delivery 1 613c303a800102a10aa1031b0147a2031b0151a20ca00a80083230323430323239a7061b046d61696ca9030a0101ab0c800100810100820101830101b000 head 1 - general:mail alt:0 - 1 list:1 - false false 1 1 seq:4 none:2 3 - none:23 seq:23 none:4 false false none:3 seq:26
request-with-empty-client-id 1 61363034800102a10aa1031b0147a2031b0151a20ca00a80083230323430323239a9030a0101ab0c800100810100820101830101af00b000 head 1 none:3 1 list:1 - false false 1 1 seq:4 none:2 3 none:3 seq:3 none:23 seq:23 none:4 false false none:3 seq:26
request-with-empty-service-types 1 6131302f800102a10aa1031b0147a2031b0151a20ca00a80083230323430323239a900ab0c800100810100820101830101b000 head 1 none:3 list:0 - false false 1 1 seq:4 none:2 3 - none:23 seq:23 none:4 false false none:3 seq:26
third-party-defaults-written 1 61363034800102a10aa1031b0147a2031b0151a20ca00a80083230323430323239a9030a0101ab0c800100810100820101830101b000b400 head 1 none:3 1 list:1 - false false 1 1 seq:4 none:2 3 - none:23 seq:23 none:3 false false false false - 2 none:2 seq:8 false false none:3 seq:26
shipped-transaction-type-written 3 63243022800102a10aa1031b0147a2031b0151a20ca00a800832303234303232399b0101bd00 head none:4 1 - 1 - none:9 seq:9 none:3 seq:17
answer-of-depth-eleven 4 643a3038800102a10aa1031b0147a2031b0151a20ca00a800832303234303232399f1f0103bf2014a3123010800101a10b3009a007a005a1031b014c head 3 1 general:L alt:1 - seq:2 none:2 seq:3 list:1 seq:2 alt:2 none:7 seq:14
answer-normal-form 4 64333031800102a10aa1031b0147a2031b0151a20ca00a800832303234303232399f1f0107bf200da70b3009a0071b0531322e3530 head 7 general:12.50 - seq:2 alt:6 none:7 seq:14
bare-empty-result 4 642a3028800102a10aa1031b0147a2031b0151a20ca00a800832303234303232399f1f0102bf2004a2023000 head 2 none:3 seq:3 alt:1 none:7 seq:14
true-written-as-01 7 67233021800102a10aa1031b0147a2031b0151a20ca00a800832303234303232399f2301ff head true none:2 seq:8
received-in-order 8 682d302b800102a10aa1031b0147a2031b0151a20ca00a800832303234303232399f240832303234303331359b0101 head none:2 date:20240315 1 none:2 seq:11
returned-with-amount 10 6a393037800102a10aa1031b0147a2031b0151a20ca00a800832303234303232399f25083230323430323239bf270c8003555344810531322e3530 head - date:20240229 - print:USD print:12.50 seq:2 none:2 seq:11
overdue-normal-form 12 6c2c302a800102a10aa1031b0147a2031b0151a20ca00a80083230323430323239bf290a80083230323430323239 head date:20240229 true seq:2 none:2 seq:8
overdue-not-renewable 12 6c2f302d800102a10aa1031b0147a2031b0151a20ca00a80083230323430323239bf290d80083230323430323239810100 head date:20240229 false seq:2 none:2 seq:8
renew-with-date 13 6d2a3028800102a10aa1031b0147a2031b0151a20ca00a800832303234303232399f2a083230323430333331 head date:20240331 none:2 seq:8
message-of-the-largest-first-size 17 7182fffb3082fff7800102a10aa1031b0147a2031b0151a20ca00a80083230323430323239bf2e82ffd51b82ffd1..*65489 head letters:65489 - seq:7
normal-form-of-the-largest-size 17 71830ffffb30830ffff6800102a10aa1031b0147a2031b0151a20ca00a80083230323430323239bf2e830fffd31b830fffce..*1048526 head letters:1048526 - seq:7";

/// A name, the total that the worked rows give, the APDU's number, and the parts of the body.
static TOTALS: [(&str, u32, &str, &str); 4] = [
    ("sizes-total-of-expired", 33, "20", "head - seq:6"),
    (
        "sizes-total-of-request",
        54,
        "1",
        "head 1 none:3 1 list:1 - false false 1 1 seq:4 none:2 3 - none:23 seq:23 none:4 false false none:3 seq:26",
    ),
    (
        "sizes-total-of-request-with-delivery",
        62,
        "1",
        "head 1 - general:mail alt:0 - 1 list:1 - false false 1 1 seq:4 none:2 3 - none:23 seq:23 none:4 false false none:3 seq:26",
    ),
    (
        "sizes-total-of-deep-answer",
        60,
        "4",
        "head 3 1 general:L alt:1 - seq:2 none:2 seq:3 list:1 seq:2 alt:2 none:7 seq:14",
    ),
];

const EXPIRED: &str = "head - seq:6";

const EXPIRED_NORMAL_FORM: &str =
    "741f301d800102a10aa1031b0147a2031b0151a20ca00a80083230323430323239";

/// The octets of `HEX` or `HEX..*n`.
fn octets(alloc: Global, text: &str) -> Result<Vec<u8>, Fail> {
    let (hex, count) = text.split_once("..*").unwrap_or((text, "0"));
    let mut octets = octets_of(alloc, hex)?;
    let letters = vec![in alloc; b'A'; count.parse::<usize>()?]?;
    octets.extend_from_slice(&letters)?;
    Ok(octets)
}

/// A sink that counts the octets, and takes a fixed number of them in a call.
#[derive(Drop)]
struct Counter {
    octets: u64,
    per_call: usize,
}

impl Sink for Counter {
    ghost contents = { λ _. None };

    ghost is_broken = { λ _. false };

    fn put(&mut self, octets: &[u8]) -> Result<usize, Broken> {
        let count = octets.len().min(self.per_call.max(1));
        self.octets = self.octets.saturating_add(count as u64);
        Ok(count)
    }

    fn broken(&self) -> bool {
        false
    }
}

/// Tells whether a message has this normal form, as octets and in a sink.
fn has_normal_form(alloc: Global, message: &Message, normal: &[u8]) -> Result<bool, AllocError> {
    let found = normal_bytes(alloc, message)?;
    let mut counter = Counter {
        octets: 0,
        per_call: 4096,
    };
    let written = write_normal(alloc, message, &mut counter);
    Ok(
        found.as_slice() == normal
            && written == Ok(message.octets())
            && counter.octets == normal.len() as u64,
    )
}

fn comes_true(alloc: Global, row: &str) -> Result<bool, Fail> {
    let (_, rest) = row.split_once(' ').ok_or("a name")?;
    let (apdu, rest) = rest.split_once(' ').ok_or("a number")?;
    let (normal, parts) = rest.split_once(' ').ok_or("octets")?;
    let normal = octets(alloc, normal)?;
    let message = message(alloc, apdu, parts)?;
    Ok(has_normal_form(alloc, &message, &normal)?)
}

#[test]
fn each_row_has_its_normal_form(rt: HostRuntime) -> Result<(), Fail> {
    for row in ROWS.lines() {
        assert!(rt; comes_true(rt.alloc(), row)?, "{row}");
    }
    Ok(())
}

/// The total that is measured of a message.
fn measured(alloc: Global, apdu: &str, parts: &str) -> Result<u32, Fail> {
    let message = message(alloc, apdu, parts)?;
    Ok(Sizes::measure(alloc, &message)?.total())
}

#[test]
fn totals_are_the_sizes_of_normal_forms(rt: HostRuntime) -> Result<(), Fail> {
    for (name, total, apdu, parts) in &TOTALS {
        assert!(rt; measured(rt.alloc(), apdu, parts)? == *total, "{name}");
    }
    normal_size_counts_normal_forms();
    Ok(())
}

#[test]
fn sizes_are_in_the_order_of_their_headers(rt: HostRuntime) -> Result<(), Fail> {
    let message = message(rt.alloc(), "20", EXPIRED)?;
    let sizes = Sizes::measure(rt.alloc(), &message)?;
    let text = format!(in rt.alloc(); "{sizes:?}")?;
    assert!(rt; text.as_str() == "Sizes { contents: [31, 29, 10, 3, 3, 12, 10], total: 33 }");
    Ok(())
}

/// The result for a message in a sink that takes a number of octets in a call and breaks after a number, whether the sink is
/// broken, and how many octets it has, None where they are not the first of the normal form.
fn written(
    alloc: Global,
    message: &Message,
    normal: &[u8],
    (per_call, breaks_after): (usize, usize),
) -> (Result<u32, WriteFailure>, bool, Option<usize>) {
    let mut sink = Room::<64>::new(per_call.max(1), Some(breaks_after));
    let result = write_normal(alloc, message, &mut sink);
    let octets = sink.octets();
    let count = normal.starts_with(octets).then_some(octets.len());
    (result, sink.broken(), count)
}

/// Tells whether a sink has the first octets wherever it breaks, and all where it doesn't.
fn has_the_first(alloc: Global, message: &Message, normal: &[u8], per_call: usize) -> bool {
    for n in 0..33u32 {
        let breaks_after = n as usize;
        let fault = Err(WriteFailure::WriteFault(n));
        if written(alloc, message, normal, (per_call, breaks_after))
            != (fault, true, Some(breaks_after))
        {
            return false;
        }
    }
    written(alloc, message, normal, (per_call, 33)) == (Ok(33), false, Some(33))
}

/// The rows `sink-broken-after-0` to `sink-broken-after-32`, and `sink-of-seven-octets-per-call`.
#[test]
fn a_broken_sink_has_the_first_octets(rt: HostRuntime) -> Result<(), Fail> {
    let message = message(rt.alloc(), "20", EXPIRED)?;
    let normal = octets_of(rt.alloc(), EXPIRED_NORMAL_FORM)?;
    for per_call in [1, 7, 64] {
        assert!(rt;
            has_the_first(rt.alloc(), &message, &normal, per_call),
            "{per_call}"
        );
    }
    Ok(())
}

/// The row `largest-message-one-octet-sink`.
#[test]
fn the_largest_message_goes_octet_by_octet(rt: HostRuntime) -> Result<(), Fail> {
    let message = message(rt.alloc(), "17", "head letters:65489 - seq:7")?;
    let expected = octets(
        rt.alloc(),
        "7182fffb3082fff7800102a10aa1031b0147a2031b0151a20ca00a80083230323430323239bf2e82ffd51b82ffd1..*65489",
    )?;
    let mut sink = Room::<65_535>::new(1, None);
    assert!(rt;
        write_normal(rt.alloc(), &message, &mut sink) == Ok(65_535)
            && sink.octets() == expected.as_slice()
    );
    Ok(())
}

/// An answer with 32,744 empty system ids, whose list takes most of the octets.
#[test]
fn a_list_of_empty_system_ids(rt: HostRuntime) -> Result<(), Fail> {
    let message = message(rt.alloc(), "4", "head 2 none:4 empties:32744 none:3 seq:14")?;
    let expected = octets_of(
        rt.alloc(),
        "6482fffa3082fff6800102a10aa1031b0147a2031b0151a20ca00a800832303234303232399f1f0102bf2282ffd0 3000*32744",
    )?;
    let found = normal_bytes(rt.alloc(), &message)?;
    assert!(rt; found.as_slice() == expected.as_slice());
    Ok(())
}
