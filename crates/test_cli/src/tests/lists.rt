//! Files that a list names.
use super::program::Illcanon;
use std::test::Fail;
use test_host::Octets::{Repeated, Text};
use test_host::{INDEFINITE, QUIET, Row, test_rows};

/// Lists by the names of their files. O is absent.
static ROWS: [Row; 15] = [
    Row {
        words: "check --files-from no-name",
        status: 2,
        errors: "illcanon: the list names no file\n",
        ..QUIET
    },
    Row {
        words: "check --files-from one-name",
        output: Text(b"message 1: Expired, 33 octets, normal\n"),
        ..QUIET
    },
    Row {
        words: "check --files-from no-last-end",
        output: Text(b"message 1: Expired, 33 octets, normal\n"),
        ..QUIET
    },
    Row {
        words: "check --files-from name-twice",
        output: Text(
            b"A: message 1: Expired, 33 octets, normal\nA: message 1: Expired, 33 octets, normal\n",
        ),
        ..QUIET
    },
    Row {
        words: "check --files-from absent-name",
        status: 3,
        output: Text(b"A: message 1: Expired, 33 octets, normal\n"),
        errors: "illcanon: cannot open O: no such file\n",
        ..QUIET
    },
    Row {
        words: "check --files-from empty-name",
        status: 3,
        output: Text(b"A: message 1: Expired, 33 octets, normal\n"),
        errors: "illcanon: cannot open : no such file\n",
        ..QUIET
    },
    Row {
        words: "check --files-from absent-line-end",
        status: 3,
        output: Text(b"A: message 1: Expired, 33 octets, normal\n"),
        errors: "illcanon: cannot open $'x\\ny': no such file\n",
        ..QUIET
    },
    Row {
        words: "check --files-from no-text",
        status: 3,
        output: Text(b"A: message 1: Expired, 33 octets, normal\n"),
        errors: "illcanon: cannot open $'caf\\351': name is not UTF-8 text\n",
        ..QUIET
    },
    Row {
        words: "check --files-from line-end",
        output: Text(
            b"A: message 1: Expired, 33 octets, normal\n$'n\\nm': message 1: Expired, 33 octets, normal\n",
        ),
        ..QUIET
    },
    Row {
        words: "check --files-from dashes",
        status: 2,
        errors: "illcanon: standard input is named twice\n",
        ..QUIET
    },
    Row {
        words: "digest --files-from O A",
        status: 3,
        errors: "illcanon: cannot open O\n",
        ..QUIET
    },
    // The files of the words come first.
    Row {
        words: "check --files-from - B",
        input: b"A\0",
        status: 1,
        output: Text(
            b"B: message 1: Expired, 47 octets, not normal, normal form 33 octets\nA: message 1: Expired, 33 octets, normal\n",
        ),
        ..QUIET
    },
    Row {
        words: "check --files-from -",
        input: b"A\0-\0",
        status: 2,
        errors: "illcanon: standard input is named twice\n",
        ..QUIET
    },
    Row {
        words: "digest --files-from one-dash",
        input: INDEFINITE,
        output: Text(
            b"41b0dca84b6db1db587880995cae8f2ae640c5af026d4d9745a5bc56ba11a782  A:1\n41b0dca84b6db1db587880995cae8f2ae640c5af026d4d9745a5bc56ba11a782  -:1\n",
        ),
        ..QUIET
    },
    // A thousand files, one after another.
    Row {
        words: "check --files-from thousand",
        output: Repeated(b"A: message 1: Expired, 33 octets, normal\n", 41_000),
        ..QUIET
    },
];

#[test]
fn lists_name_files(rt: HostRuntime) -> Result<(), Fail> {
    test_rows::<Illcanon>(&rt, &ROWS)
}
