//! Messages that are built from lines of JSON.
use super::program::Illcanon;
use std::test::Fail;
use test_host::Octets::Text;
use test_host::{EXPIRED, Faults, NO_FAULTS, QUIET, Row, run_line, test_rows};

/// The line of an EXPIRED.
const LINE: &[u8] =
    br#"{"apdu":"Expired","value":{"protocol-version-num":2,"transaction-id":{"transaction-group-qualifier":{"general":"G"},"transaction-qualifier":{"general":"Q"}},"service-date-time":{"date-time-of-this-service":{"date":"20240229"}}}}
"#;

/// The line of an EXPIRED in other words, lines that are refused, and again the line of an EXPIRED, without an end.
const LINES: &[u8] =
    br#" { "value":{"service-date-time":{"date-time-of-this-service":{"date":"\u00320240229"}},"transaction-id":{"transaction-qualifier":{"general":"Q"},"transaction-group-qualifier":{"general":"G"}},"protocol-version-num":2},"apdu":"Expired","normal":false,"octets":[] }
{"apdu":"Expired","value":{"protocol-version-num":2}}

{"apdu" "Expired"}
{"apdu":"Expired","value":{"protocol-version-num":2,"transaction-id":{"transaction-group-qualifier":{"general":"G"},"transaction-qualifier":{"general":"Q"}},"service-date-time":{"date-time-of-this-service":{"date":"20240229"}}}}"#;

/// The lines of [`LINES`] that are refused.
const REFUSED: &[u8] = br#"{"apdu":"Expired","value":{"protocol-version-num":2}}

{"apdu" "Expired"}
"#;

/// A message of [`LINE`] in digits.
const DIGITS: &[u8] = b"741f301d800102a10aa1031b0147a2031b0151a20ca00a80083230323430323239\n";

/// The line of an ILL-REQUEST without its defaults.
const REQUEST: &[u8] =
    br#"{"apdu":"ILL-Request","value":{"protocol-version-num":2,"transaction-id":{"transaction-group-qualifier":{"general":"G"},"transaction-qualifier":{"general":"Q"}},"service-date-time":{"date-time-of-this-service":{"date":"20240229"}},"ill-service-type":["loan"],"requester-optional-messages":{"can-send-received":false,"can-send-returned":false,"requester-shipped":1,"requester-checked-in":1},"item-id":{}}}
"#;

/// Its message with the defaults, which are the elements 85, 8e, 95 and 96, in digits.
const WITH_DEFAULTS: &[u8] =
    b"6140303e800102a10aa1031b0147a2031b0151a20ca00a80083230323430323239850101a9030a0101ab0c8001008101008201018301018e0103b000950100960100\n";

/// The results of `--lines` for [`LINES`].
const RESULTS: &[u8] = b"\
741f301d800102a10aa1031b0147a2031b0151a20ca00a80083230323430323239\n\
refused at /value/transaction-id: MissingMember\n\
refused at column 1: NotJson\n\
refused at column 9: NotJson\n\
741f301d800102a10aa1031b0147a2031b0151a20ca00a80083230323430323239\n\
";

/// Those of `--json --keep-going`.
const OBJECTS: &[u8] =
    br#"{"line":1,"apdu":"Expired","octets":33,"message":"741f301d800102a10aa1031b0147a2031b0151a20ca00a80083230323430323239"}
{"line":2,"refused":{"cause":"MissingMember","pointer":"/value/transaction-id"}}
{"line":3,"refused":{"cause":"NotJson","column":1}}
{"line":4,"refused":{"cause":"NotJson","column":9}}
{"line":5,"apdu":"Expired","octets":33,"message":"741f301d800102a10aa1031b0147a2031b0151a20ca00a80083230323430323239"}
"#;

/// The reports on [`LINES`].
const REPORTS: &str = "\
illcanon: refused at /value/transaction-id in line 2: MissingMember\n\
illcanon: refused at column 1 in line 3: NotJson\n\
illcanon: refused at column 9 in line 4: NotJson\n\
";

/// An EXPIRED twice.
const TWICE: &[u8] =
    b"\x74\x1f\x30\x1d\x80\x01\x02\xa1\x0a\xa1\x03\x1b\x01\x47\xa2\x03\x1b\x01\x51\xa2\x0c\xa0\x0a\x80\x0820240229\x74\x1f\x30\x1d\x80\x01\x02\xa1\x0a\xa1\x03\x1b\x01\x47\xa2\x03\x1b\x01\x51\xa2\x0c\xa0\x0a\x80\x0820240229";

/// Runs of `build`.
static ROWS: [Row; 22] = [
    Row {
        words: "build - -",
        input: LINE,
        output: Text(EXPIRED),
        ..QUIET
    },
    Row {
        words: "build - OUT",
        input: LINE,
        out: Text(EXPIRED),
        ..QUIET
    },
    Row {
        words: "build --hex - -",
        input: LINE,
        output: Text(DIGITS),
        ..QUIET
    },
    Row {
        words: "build - OUT",
        out: Text(b""),
        ..QUIET
    },
    // The first line that is refused ends the work.
    Row {
        words: "build - OUT",
        input: LINES,
        status: 1,
        errors: "illcanon: refused at /value/transaction-id in line 2: MissingMember\n",
        out: Text(EXPIRED),
        ..QUIET
    },
    Row {
        words: "build --summary - OUT",
        input: LINES,
        status: 1,
        errors: "illcanon: refused at /value/transaction-id in line 2: MissingMember\nillcanon: 1 file, 2 lines, 1 built, 1 refused, 33 octets, 1 left before the end\n",
        out: Text(EXPIRED),
        ..QUIET
    },
    Row {
        words: "build --keep-going - OUT",
        input: LINES,
        status: 1,
        errors: REPORTS,
        out: Text(TWICE),
        ..QUIET
    },
    Row {
        words: "build --keep-going --whole - OUT",
        input: LINES,
        status: 1,
        errors: REPORTS,
        ..QUIET
    },
    Row {
        words: "build --keep-going --refused OUT - -",
        input: LINES,
        status: 1,
        output: Text(TWICE),
        errors: REPORTS,
        out: Text(REFUSED),
        ..QUIET
    },
    Row {
        words: "build --keep-going --max-refused 2 - -",
        input: LINES,
        status: 1,
        output: Text(EXPIRED),
        errors: "illcanon: refused at /value/transaction-id in line 2: MissingMember\nillcanon: refused at column 1 in line 3: NotJson\nillcanon: stopped after 2 refused lines\n",
        ..QUIET
    },
    Row {
        words: "build --lines - -",
        input: LINES,
        status: 1,
        output: Text(RESULTS),
        ..QUIET
    },
    Row {
        words: "build --lines --whole - OUT",
        input: LINES,
        status: 1,
        errors: "illcanon: OUT stays as it was: not every line is a message\n",
        ..QUIET
    },
    Row {
        words: "build --json --keep-going - -",
        input: LINES,
        status: 1,
        output: Text(OBJECTS),
        ..QUIET
    },
    Row {
        words: "build --json - -",
        input: LINES,
        status: 1,
        output: Text(
            b"{\"line\":1,\"apdu\":\"Expired\",\"octets\":33,\"message\":\"741f301d800102a10aa1031b0147a2031b0151a20ca00a80083230323430323239\"}\n{\"line\":2,\"refused\":{\"cause\":\"MissingMember\",\"pointer\":\"/value/transaction-id\"}}\n",
        ),
        ..QUIET
    },
    // A file is named where there are several, or where that is asked for.
    Row {
        words: "build -H - -",
        input: b"1\n",
        status: 1,
        errors: "illcanon: -: refused in line 1: WrongType\n",
        ..QUIET
    },
    Row {
        words: "build -o OUT none - A",
        input: LINE,
        status: 1,
        errors: "illcanon: A: refused at column 5 in line 1: NotJson\n",
        out: Text(EXPIRED),
        ..QUIET
    },
    // A line says its profile.
    Row {
        words: "build - -",
        input: b"{\"profile\":\"module\"}\n",
        status: 1,
        errors: "illcanon: refused at /profile in line 1: OtherProfile\n",
        ..QUIET
    },
    Row {
        words: "build --profile module - -",
        input: b"{\"profile\":\"module\",\"apdu\":\"Status-Or-Error-Report\"}\n",
        status: 1,
        errors: "illcanon: refused at /value in line 1: MissingMember (`check` and `digest` write no value; `show --json` does)\n",
        ..QUIET
    },
    // A line of another command.
    Row {
        words: "build - -",
        input: b"{\"number\":1,\"offset\":0,\"octets\":33,\"apdu\":\"Expired\",\"normal\":true,\"digest\":\"00\"}\n",
        status: 1,
        errors: "illcanon: refused at /digest in line 1: UnknownMember (`check` and `digest` write no value; `show --json` does)\n",
        ..QUIET
    },
    Row {
        words: "build --lines - -",
        input: b"{\"apdu\":\"Expired\"}\n",
        status: 1,
        output: Text(b"refused at /value: MissingMember\n"),
        ..QUIET
    },
    // Nothing is lost where something fails.
    Row {
        words: "build - OUT",
        input: LINE,
        faults: Faults {
            room: Some(3),
            ..NO_FAULTS
        },
        status: 3,
        errors: "illcanon: flush fault\n",
        ..QUIET
    },
    Row {
        words: "build A OUT",
        faults: Faults {
            readable: Some(3),
            ..NO_FAULTS
        },
        status: 3,
        errors: "illcanon: read fault\n",
        ..QUIET
    },
];

/// Runs without `--write-defaults`, and with it.
static DEFAULTS: [Row; 5] = [
    Row {
        words: "build --hex - -",
        input: REQUEST,
        output: Text(
            b"61343032800102a10aa1031b0147a2031b0151a20ca00a80083230323430323239a9030a0101ab0c800100810100820101830101b000\n",
        ),
        ..QUIET
    },
    Row {
        words: "build --write-defaults --hex - -",
        input: REQUEST,
        output: Text(WITH_DEFAULTS),
        ..QUIET
    },
    Row {
        words: "build --write-defaults --profile module --lines - -",
        input: REQUEST,
        output: Text(WITH_DEFAULTS),
        ..QUIET
    },
    Row {
        words: "build --write-defaults --json --summary - -",
        input: REQUEST,
        output: Text(
            b"{\"line\":1,\"apdu\":\"ILL-Request\",\"octets\":66,\"message\":\"6140303e800102a10aa1031b0147a2031b0151a20ca00a80083230323430323239850101a9030a0101ab0c8001008101008201018301018e0103b000950100960100\"}\n",
        ),
        errors: "illcanon: 1 file, 1 line, 1 built, 0 refused, 66 octets\n",
        ..QUIET
    },
    Row {
        words: "build --write-defaults --keep-going - OUT",
        input: LINES,
        status: 1,
        errors: REPORTS,
        out: Text(TWICE),
        ..QUIET
    },
];

#[test]
fn lines_are_built(rt: HostRuntime) -> Result<(), Fail> {
    test_rows::<Illcanon>(&rt, &ROWS)
}

#[test]
fn defaults_are_written_where_that_is_asked_for(rt: HostRuntime) -> Result<(), Fail> {
    test_rows::<Illcanon>(&rt, &DEFAULTS)
}

#[test]
fn a_line_that_is_too_long_is_refused(rt: HostRuntime) -> Result<(), Fail> {
    let mut input = vec![in rt.alloc(); b' '; 16_777_217]?;
    input.push(b'\n')?;
    input.extend_from_slice(LINE)?;
    let ended = run_line::<Illcanon>(&rt, "build --keep-going --refused OUT - -", &input)?;
    assert!(rt; ended.status == 1);
    assert!(rt; ended.output.as_slice() == EXPIRED);
    let errors =
        b"illcanon: refused in line 1: LineTooLong\nillcanon: OUT is without 1 refused line: too long\n";
    assert!(rt; ended.errors.as_slice() == errors.as_slice());
    Ok(())
}
