//! Commands in the module profile, and in profile 2 on the same messages.
use super::program::Illcanon;
use std::test::Fail;
use test_host::Octets::Text;
use test_host::{QUIET, Row, test_rows};

/// The file E: an EXPIRED with an extension, in normal form.
const EXTENDED: &[u8] =
    b"\x74\x2d\x30\x2b\x80\x01\x02\xa1\x0a\xa1\x03\x1b\x01\x47\xa2\x03\x1b\x01\x51\xa2\x0c\xa0\x0a\x80\x08\x32\x30\x32\x34\x30\x32\x32\x39\xbf\x31\x0b\x30\x09\x80\x01\x01\xa2\x04\x30\x02\x05\x00";

/// Checks each command on messages that only the module profile reads.
static ROWS: [Row; 18] = [
    Row {
        words: "check --profile module E",
        output: Text(b"message 1: Expired, 47 octets, normal\n"),
        ..QUIET
    },
    Row {
        words: "check F --profile=module",
        status: 1,
        output: Text(b"message 1: Expired, 54 octets, not normal, normal form 47 octets\n"),
        ..QUIET
    },
    Row {
        words: "check E",
        status: 1,
        errors: "illcanon: refused at 33 in message 1: LeftOut Expired.expired-extensions\n",
        ..QUIET
    },
    Row {
        words: "check --profile 2 E A",
        status: 1,
        output: Text(b"A: message 1: Expired, 33 octets, normal\n"),
        errors: "illcanon: E: refused at 33 in message 1: LeftOut Expired.expired-extensions\n",
        ..QUIET
    },
    Row {
        words: "check --profile module E A",
        output: Text(
            b"E: message 1: Expired, 47 octets, normal\nA: message 1: Expired, 33 octets, normal\n",
        ),
        ..QUIET
    },
    Row {
        words: "check --keep-going --profile module G",
        status: 1,
        output: Text(b"message 2: Expired, 47 octets, normal\n"),
        errors: "illcanon: refused at 2 in message 1: Missing Expired.protocol-version-num\n",
        ..QUIET
    },
    Row {
        words: "check --keep-going G",
        status: 1,
        errors: "illcanon: refused at 2 in message 1: Missing Expired.protocol-version-num\nillcanon: refused at 33 in message 2: LeftOut Expired.expired-extensions\n",
        ..QUIET
    },
    Row {
        words: "show --profile module E",
        output: Text(
            b"message 1 Expired\nprotocol-version-num = 2\ntransaction-id.transaction-group-qualifier = general \"G\"\ntransaction-id.transaction-qualifier = general \"Q\"\nservice-date-time.date-time-of-this-service.date = 20240229\nexpired-extensions[0].identifier = 1\nexpired-extensions[0].critical = FALSE\nexpired-extensions[0].item = foreign 30{05:\"\"}\n",
        ),
        ..QUIET
    },
    Row {
        words: "digest --profile module F",
        output: Text(b"c0416c93c1329ed289703e161abcb058afde1a5b1b015fd2c63ddcea55f2b107  F:1\n"),
        ..QUIET
    },
    Row {
        words: "check --lines --profile module extended",
        output: Text(b"Expired, 47 octets, normal\n"),
        ..QUIET
    },
    Row {
        words: "same --hex --profile module extended extended",
        output: Text(b"same\n"),
        ..QUIET
    },
    Row {
        words: "same --profile module E F",
        output: Text(b"same\n"),
        ..QUIET
    },
    Row {
        words: "same --profile module E A",
        status: 1,
        output: Text(b"different\n"),
        ..QUIET
    },
    Row {
        words: "same E F",
        status: 1,
        errors: "illcanon: refused at 33 in the first file: LeftOut Expired.expired-extensions\n",
        ..QUIET
    },
    Row {
        words: "canonicalise --profile module F OUT",
        out: Text(EXTENDED),
        ..QUIET
    },
    Row {
        words: "canonicalise --profile module --whole F OUT",
        out: Text(EXTENDED),
        ..QUIET
    },
    Row {
        words: "canonicalise --profile module -o OUT F",
        out: Text(EXTENDED),
        ..QUIET
    },
    Row {
        words: "canonicalise F OUT",
        status: 1,
        errors: "illcanon: refused at 33 in message 1: LeftOut Expired.expired-extensions\n",
        out: Text(b""),
        ..QUIET
    },
];

#[test]
fn each_command_reads_the_profile_that_is_named(rt: HostRuntime) -> Result<(), Fail> {
    test_rows::<Illcanon>(&rt, &ROWS)
}
