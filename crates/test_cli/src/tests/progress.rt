//! The line on a terminal that says how far the work is.
use super::program::Illcanon;
use std::test::Fail;
use test_host::Octets::{Repeated, Text};
use test_host::{EXPIRED, QUIET, Row, test_rows};

/// Each file is read twice, its octets and then its end. A second goes by between two readings of the clock, so the first line is due
/// at the second reading after the work begins. A has 33 octets, `first` 82. Shares, rates and times are rounded down.
static ROWS: [Row; 9] = [
    Row {
        words: "check --summary --keep-going A first",
        terminal: Some(1000),
        status: 1,
        output: Text(
            b"A: message 1: Expired, 33 octets, normal\nfirst: message 2: Expired, 33 octets, normal\nfirst: message 3: Expired, 47 octets, not normal, normal form 33 octets\n",
        ),
        errors: "\r\x1b[Killcanon: 1 file, 33 octets, 28 %, 16 octets/s, 4 s left\r\x1b[Killcanon: 2 files, 33 octets, 28 %, 8 octets/s, 9 s left\r\x1b[Killcanon: first: refused at 2 in message 1: Missing Expired.protocol-version-num\n\r\x1b[Killcanon: 2 files, 115 octets, 100 %, 19 octets/s, 0 s left\r\x1b[Killcanon: 2 files, 4 messages, 2 normal, 1 not normal, 1 refused (0 not read, 1 invalid), 115 octets\n",
        ..QUIET
    },
    // A fault has its own line. The size of all files isn't known.
    Row {
        words: "check --summary A O",
        terminal: Some(1000),
        status: 3,
        output: Text(b"A: message 1: Expired, 33 octets, normal\n"),
        errors: "\r\x1b[Killcanon: 1 file, 33 octets\r\x1b[Killcanon: cannot open O: no such file\nillcanon: 1 file, 1 message, 1 normal, 0 not normal, 0 refused, 33 octets, 1 not opened\n",
        ..QUIET
    },
    // Work of less than two seconds has no line.
    Row {
        words: "check --summary A",
        terminal: Some(999),
        output: Text(b"message 1: Expired, 33 octets, normal\n"),
        errors: "illcanon: 1 file, 1 message, 1 normal, 0 not normal, 0 refused, 33 octets\n",
        ..QUIET
    },
    // A line stays for 200 milliseconds: the one that is due when the sixth file is read first is still there when its end is read.
    Row {
        words: "check --summary A A A A A A",
        terminal: Some(199),
        output: Repeated(b"A: message 1: Expired, 33 octets, normal\n", 246),
        errors: "\r\x1b[Killcanon: 6 files, 165 octets, 83 %, 75 octets/s, 0 s left\r\x1b[Killcanon: 6 files, 6 messages, 6 normal, 0 not normal, 0 refused, 198 octets\n",
        ..QUIET
    },
    // The line of a file of refused messages comes after the one that is shown.
    Row {
        words: "check --summary --keep-going --refused R endless A",
        terminal: Some(1000),
        status: 1,
        output: Text(
            b"endless: message 1: Expired, 33 octets, normal\nA: message 1: Expired, 33 octets, normal\n",
        ),
        errors: "\r\x1b[Killcanon: 1 file, 75 octets, 69 %, 37 octets/s, 0 s left\r\x1b[Killcanon: endless: refused at 7 in message 2: Missing Expired.transaction-id; its end is unknown\nillcanon: endless: stopped at message 2 (octet 33)\n\r\x1b[Killcanon: 2 files, 75 octets, 69 %, 18 octets/s, 1 s left\r\x1b[Killcanon: 2 files, 108 octets, 100 %, 18 octets/s, 0 s left\r\x1b[Killcanon: R is without 1 refused message: too long, or of an unknown end\nillcanon: 2 files, 3 messages, 2 normal, 0 not normal, 1 refused (0 not read, 1 invalid), 66 octets, 1 left before the end\n",
        ..QUIET
    },
    // One file that is written.
    Row {
        words: "canonicalise --summary A OUT",
        terminal: Some(1000),
        errors: "\r\x1b[Killcanon: 1 file, 33 octets, 100 %, 16 octets/s, 0 s left\r\x1b[Killcanon: 1 file, 1 message, 1 normal, 0 not normal, 0 refused, 33 octets\n",
        out: Repeated(EXPIRED, 33),
        ..QUIET
    },
    // Standard input that is a file.
    Row {
        words: "canonicalise --summary - OUT",
        input: EXPIRED,
        standard: Some("A"),
        terminal: Some(1000),
        errors: "\r\x1b[Killcanon: 1 file, 33 octets, 100 %, 16 octets/s, 0 s left\r\x1b[Killcanon: 1 file, 1 message, 1 normal, 0 not normal, 0 refused, 33 octets\n",
        out: Repeated(EXPIRED, 33),
        ..QUIET
    },
    // The line of a fault of the one file comes in the place of the one that is shown.
    Row {
        words: "check --summary two",
        terminal: Some(2000),
        status: 1,
        output: Text(b"message 1: Expired, 47 octets, not normal, normal form 33 octets\n"),
        errors: "\r\x1b[Killcanon: 1 file, 0 octets\r\x1b[Killcanon: refused at 0 in message 2: UnexpectedTag\nillcanon: stopped at message 2 (octet 47)\nillcanon: 1 file, 2 messages, 0 normal, 1 not normal, 1 refused, 47 octets, 1 left before the end\n",
        ..QUIET
    },
    // Only with --summary.
    Row {
        words: "check A",
        terminal: Some(1000),
        output: Text(b"message 1: Expired, 33 octets, normal\n"),
        ..QUIET
    },
];

#[test]
fn a_terminal_shows_how_far_the_work_is(rt: HostRuntime) -> Result<(), Fail> {
    test_rows::<Illcanon>(&rt, &ROWS)
}
