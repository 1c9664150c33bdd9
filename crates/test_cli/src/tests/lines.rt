//! A result for each line.
use super::program::Illcanon;
use std::test::Fail;
use test_host::Octets::Text;
use test_host::{Faults, NO_FAULTS, QUIET, Row, run_line, test_rows};

/// Lines: a message three times, in other spellings, two blank lines, and what is refused.
const LINES: &[u8] = b"\
741f301d800102a10aa1031b0147a2031b0151a20ca00a80083230323430323239\n\
74803080800102A180A1801B01470000A2801B015100000000A280A080800832303234303232390000000000000000\n\
74 1f30\x091d80 0102a10aa1031b0147a2031b0151a20ca00a80083230323430323239 \x0d\n\
\n\
\x20\x09\x0d\n\
741f301d800102a2\n\
7411300f800102a10aa1031b0147a2031b0151\n\
741f301d800102a10aa1031b0147a2031b0151a20ca00a8008323032343032323974\n\
741f301d800102a10aa1031b0147a2031b0151a20ca00a8008323032343032323\n\
74 1g\n\
\xef\xbb\xbf741f\n\
7g7\n\
";

/// The output of `canonicalise` for them.
const FORMS: &[u8] = b"\
741f301d800102a10aa1031b0147a2031b0151a20ca00a80083230323430323239\n\
741f301d800102a10aa1031b0147a2031b0151a20ca00a80083230323430323239\n\
741f301d800102a10aa1031b0147a2031b0151a20ca00a80083230323430323239\n\
refused at 0: Truncated\n\
refused at 0: Truncated\n\
refused at 7: UnexpectedTag\n\
refused at 19: Missing Expired.service-date-time\n\
refused at 33: TrailingBytes\n\
hex: odd number of digits\n\
hex: bad digit at 3\n\
hex: odd number of digits\n\
hex: odd number of digits\n\
";

/// The output of `check` for them.
const CHECKS: &[u8] = b"\
Expired, 33 octets, normal\n\
Expired, 47 octets, not normal, normal form 33 octets\n\
Expired, 33 octets, normal\n\
refused at 0: Truncated\n\
refused at 0: Truncated\n\
refused at 7: UnexpectedTag\n\
refused at 19: Missing Expired.service-date-time\n\
refused at 33: TrailingBytes\n\
hex: odd number of digits\n\
hex: bad digit at 3\n\
hex: odd number of digits\n\
hex: odd number of digits\n\
";

/// The output of `digest` for them.
const DIGESTS: &[u8] = b"\
41b0dca84b6db1db587880995cae8f2ae640c5af026d4d9745a5bc56ba11a782\n\
41b0dca84b6db1db587880995cae8f2ae640c5af026d4d9745a5bc56ba11a782\n\
41b0dca84b6db1db587880995cae8f2ae640c5af026d4d9745a5bc56ba11a782\n\
refused at 0: Truncated\n\
refused at 0: Truncated\n\
refused at 7: UnexpectedTag\n\
refused at 19: Missing Expired.service-date-time\n\
refused at 33: TrailingBytes\n\
hex: odd number of digits\n\
hex: bad digit at 3\n\
hex: odd number of digits\n\
hex: odd number of digits\n\
";

/// Runs with `--lines`.
static ROWS: [Row; 12] = [
    Row {
        words: "canonicalise --lines - -",
        input: LINES,
        status: 1,
        output: Text(FORMS),
        ..QUIET
    },
    Row {
        words: "check --lines -",
        input: LINES,
        status: 1,
        output: Text(CHECKS),
        ..QUIET
    },
    Row {
        words: "digest --lines -",
        input: LINES,
        status: 1,
        output: Text(DIGESTS),
        ..QUIET
    },
    // The last line needs no end.
    Row {
        words: "check --lines -",
        input: b"741f301d800102a10aa1031b0147a2031b0151a20ca00a80083230323430323239",
        output: Text(b"Expired, 33 octets, normal\n"),
        ..QUIET
    },
    Row {
        words: "check --lines -",
        ..QUIET
    },
    Row {
        words: "check --lines -",
        input: b"\n\n",
        status: 1,
        output: Text(b"refused at 0: Truncated\nrefused at 0: Truncated\n"),
        ..QUIET
    },
    // Results go to a file.
    Row {
        words: "canonicalise --lines line OUT",
        status: 1,
        out: Text(b"hex: bad digit at 1\n"),
        ..QUIET
    },
    Row {
        words: "canonicalise --lines -o OUT line",
        status: 1,
        out: Text(b"hex: bad digit at 1\n"),
        ..QUIET
    },
    Row {
        words: "canonicalise --lines line OUT",
        faults: Faults {
            room: Some(3),
            ..NO_FAULTS
        },
        status: 3,
        errors: "illcanon: flush fault\n",
        ..QUIET
    },
    // A file that grows is read to its end, but where it may be standard output, as far as it was.
    Row {
        words: "check --lines line",
        faults: Faults {
            grows: 2,
            ..NO_FAULTS
        },
        status: 1,
        output: Text(b"hex: bad digit at 1\nrefused at 0: Truncated\nrefused at 0: Truncated\n"),
        ..QUIET
    },
    Row {
        words: "check --lines line",
        faults: Faults {
            grows: 2,
            nameless: true,
            ..NO_FAULTS
        },
        status: 1,
        output: Text(b"hex: bad digit at 1\n"),
        ..QUIET
    },
    Row {
        words: "canonicalise --lines line -",
        faults: Faults {
            readable: Some(3),
            ..NO_FAULTS
        },
        status: 3,
        output: Text(b"hex: bad digit at 1\n"),
        errors: "illcanon: read fault\n",
        ..QUIET
    },
];

#[test]
fn each_line_has_its_result(rt: HostRuntime) -> Result<(), Fail> {
    test_rows::<Illcanon>(&rt, &ROWS)
}

/// Tells whether a line of this many blanks has this result, and the line after it its own.
fn has_result(rt: &HostRuntime, blanks: usize, want: &str) -> Result<bool, Fail> {
    let mut input = vec![in rt.alloc(); b' '; blanks]?;
    input.extend_from_slice(
        b"\n741f301d800102a10aa1031b0147a2031b0151a20ca00a80083230323430323239\n",
    )?;
    let ended = run_line::<Illcanon>(rt, "check --lines -", &input)?;
    Ok(
        ended.status == 1
            && ended.errors.is_empty()
            && ended.output.starts_with(want.as_bytes())
            && ended.output.ends_with(b"\nExpired, 33 octets, normal\n"),
    )
}

#[test]
fn a_line_has_a_limit(rt: HostRuntime) -> Result<(), Fail> {
    for (blanks, want) in [
        (4_194_304, "refused at 0: Truncated\nExpired,"),
        (4_194_305, "hex: too long\nExpired,"),
        (5_000_000, "hex: too long\nExpired,"),
    ] {
        assert!(rt; has_result(&rt, blanks, want)?, "{blanks}");
    }
    Ok(())
}
