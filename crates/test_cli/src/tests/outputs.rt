//! Outputs of normal forms: each is whole, or as it was.
use super::program::Illcanon;
use std::io::ErrorKind;
use std::test::Fail;
use test_host::Octets::{Repeated, Text};
use test_host::{BEFORE, EXPIRED, Faults, INDEFINITE, NO_FAULTS, QUIET, Row, test_rows};

/// Commands with an output. O is absent, and `none` is no folder.
static ROWS: [Row; 64] = [
    Row {
        words: "canonicalise B OUT",
        out: Repeated(EXPIRED, 33),
        ..QUIET
    },
    Row {
        words: "canonicalise B -",
        output: Repeated(EXPIRED, 33),
        ..QUIET
    },
    Row {
        words: "canonicalise - -",
        input: INDEFINITE,
        output: Repeated(EXPIRED, 33),
        ..QUIET
    },
    Row {
        words: "canonicalise - OUT",
        input: INDEFINITE,
        standard: Some("B"),
        out: Repeated(EXPIRED, 33),
        ..QUIET
    },
    // Devices are no files.
    Row {
        words: "canonicalise /dev/null //dev/null",
        ..QUIET
    },
    // What is not opened leaves OUT as it was.
    Row {
        words: "canonicalise O OUT",
        status: 3,
        errors: "illcanon: cannot open O\n",
        ..QUIET
    },
    Row {
        words: "canonicalise B ",
        status: 3,
        errors: "illcanon: cannot open \n",
        ..QUIET
    },
    Row {
        words: "canonicalise B none/",
        status: 3,
        errors: "illcanon: cannot open none/\n",
        ..QUIET
    },
    Row {
        words: "canonicalise B none/OUT",
        status: 3,
        errors: "illcanon: cannot open none/OUT\n",
        ..QUIET
    },
    // A refusal leaves the messages before it, and a read fault what was there.
    Row {
        words: "canonicalise two OUT",
        status: 1,
        errors: "illcanon: refused at 0 in message 2: UnexpectedTag\n",
        out: Repeated(EXPIRED, 33),
        ..QUIET
    },
    Row {
        words: "canonicalise two OUT",
        faults: Faults {
            readable: Some(47),
            ..NO_FAULTS
        },
        status: 3,
        errors: "illcanon: read fault\n",
        ..QUIET
    },
    // As a whole, OUT is replaced only where every message is good.
    Row {
        words: "canonicalise --whole B OUT",
        out: Repeated(EXPIRED, 33),
        ..QUIET
    },
    Row {
        words: "canonicalise --whole two OUT",
        status: 1,
        errors: "illcanon: refused at 0 in message 2: UnexpectedTag\n",
        ..QUIET
    },
    Row {
        words: "canonicalise --whole --keep-going first OUT",
        status: 1,
        errors: "illcanon: refused at 2 in message 1: Missing Expired.protocol-version-num\n",
        ..QUIET
    },
    Row {
        words: "canonicalise --whole -o OUT A B",
        out: Repeated(EXPIRED, 66),
        ..QUIET
    },
    Row {
        words: "canonicalise --whole -o OUT A middle B",
        status: 1,
        errors: "illcanon: middle: refused at 2 in message 2: Missing Expired.protocol-version-num\n",
        ..QUIET
    },
    Row {
        words: "canonicalise --whole -o OUT A O",
        status: 3,
        errors: "illcanon: cannot open O: no such file\n",
        ..QUIET
    },
    Row {
        words: "canonicalise --whole B /dev/null",
        status: 3,
        errors: "illcanon: cannot replace /dev/null: it is no regular file\n",
        ..QUIET
    },
    Row {
        words: "canonicalise --whole B /dev/stdout",
        status: 3,
        errors: "illcanon: cannot replace /dev/stdout: it is no regular file\n",
        ..QUIET
    },
    Row {
        words: "canonicalise --whole B -",
        status: 2,
        errors: "illcanon: --whole needs a file for OUT\n",
        ..QUIET
    },
    Row {
        words: "canonicalise --whole -o - A B",
        status: 2,
        errors: "illcanon: --whole needs a file for OUT\n",
        ..QUIET
    },
    // The system's name of standard output.
    Row {
        words: "canonicalise B /dev/stdout",
        output: Repeated(EXPIRED, 33),
        ..QUIET
    },
    Row {
        words: "canonicalise bad OUT",
        status: 1,
        errors: "illcanon: refused at 0 in message 1: UnexpectedTag\n",
        out: Repeated(EXPIRED, 0),
        ..QUIET
    },
    // A fault of the output leaves what was there.
    Row {
        words: "canonicalise many OUT",
        faults: Faults {
            room: Some(10),
            ..NO_FAULTS
        },
        status: 3,
        errors: "illcanon: write fault after 10 octets\n",
        ..QUIET
    },
    Row {
        words: "canonicalise many OUT",
        faults: Faults {
            room: Some(65_540),
            ..NO_FAULTS
        },
        status: 3,
        errors: "illcanon: flush fault\n",
        ..QUIET
    },
    Row {
        words: "canonicalise many OUT",
        faults: Faults {
            sync: true,
            ..NO_FAULTS
        },
        status: 3,
        errors: "illcanon: flush fault\n",
        ..QUIET
    },
    Row {
        words: "canonicalise many OUT",
        faults: Faults {
            rename: Some(ErrorKind::ResourceBusy),
            ..NO_FAULTS
        },
        status: 3,
        errors: "illcanon: cannot replace OUT: resource busy\n",
        ..QUIET
    },
    // Standard output has the first octets.
    Row {
        words: "canonicalise many -",
        faults: Faults {
            room: Some(10),
            ..NO_FAULTS
        },
        status: 3,
        output: Repeated(EXPIRED, 10),
        errors: "illcanon: write fault after 10 octets\n",
        ..QUIET
    },
    Row {
        words: "canonicalise many -",
        faults: Faults {
            room: Some(20_000),
            ..NO_FAULTS
        },
        status: 3,
        output: Repeated(EXPIRED, 20000),
        errors: "illcanon: write fault after 20000 octets\n",
        ..QUIET
    },
    // Where no new file can be made, OUT is written directly, but not as a whole.
    Row {
        words: "canonicalise B OUT",
        faults: Faults {
            create_new: Some(ErrorKind::PermissionDenied),
            ..NO_FAULTS
        },
        errors: "illcanon: OUT is written directly: no new file can be made beside it\n",
        out: Repeated(EXPIRED, 33),
        ..QUIET
    },
    Row {
        words: "canonicalise --whole B OUT",
        faults: Faults {
            create_new: Some(ErrorKind::PermissionDenied),
            ..NO_FAULTS
        },
        status: 3,
        errors: "illcanon: cannot replace OUT: no new file can be made beside it\n",
        ..QUIET
    },
    // Where the disk is full for now, it stays as it was.
    Row {
        words: "canonicalise B OUT",
        faults: Faults {
            create_new: Some(ErrorKind::StorageFull),
            ..NO_FAULTS
        },
        status: 3,
        errors: "illcanon: cannot replace OUT: no storage space\n",
        ..QUIET
    },
    Row {
        words: "canonicalise B new",
        faults: Faults {
            create_new: Some(ErrorKind::StorageFull),
            ..NO_FAULTS
        },
        status: 3,
        errors: "illcanon: cannot replace new: no storage space\n",
        ..QUIET
    },
    // Nobody reads the output any more.
    Row {
        words: "canonicalise many -",
        faults: Faults {
            room: Some(10),
            closed: true,
            ..NO_FAULTS
        },
        status: 3,
        output: Repeated(EXPIRED, 10),
        ..QUIET
    },
    // OUT is no input that can't be opened.
    Row {
        words: "canonicalise --summary A none/OUT",
        status: 3,
        errors: "illcanon: cannot open none/OUT\nillcanon: 0 files, 0 messages, 0 normal, 0 not normal, 0 refused, 0 octets\n",
        ..QUIET
    },
    // A list that names no file.
    Row {
        words: "canonicalise --files-from no-name -o OUT",
        status: 2,
        errors: "illcanon: the list names no file\n",
        ..QUIET
    },
    // Standard output is a file that is read.
    Row {
        words: "canonicalise -o - A B",
        standard: Some("B"),
        status: 2,
        errors: "illcanon: IN and OUT are the same file\n",
        ..QUIET
    },
    Row {
        words: "check A OUT",
        standard: Some("OUT"),
        status: 2,
        errors: "illcanon: IN and OUT are the same file\n",
        ..QUIET
    },
    Row {
        words: "dump --keep-going OUT",
        standard: Some("OUT"),
        status: 2,
        errors: "illcanon: IN and OUT are the same file\n",
        ..QUIET
    },
    Row {
        words: "check --json --keep-going --files-from list",
        standard: Some("list"),
        status: 2,
        errors: "illcanon: IN and OUT are the same file\n",
        ..QUIET
    },
    // One file under two names is refused.
    Row {
        words: "canonicalise A A",
        status: 2,
        errors: "illcanon: the same word twice\n",
        ..QUIET
    },
    Row {
        words: "canonicalise OUT ./OUT",
        status: 2,
        errors: "illcanon: IN and OUT are the same file\n",
        ..QUIET
    },
    Row {
        words: "canonicalise - OUT",
        input: BEFORE,
        standard: Some("OUT"),
        status: 2,
        errors: "illcanon: IN and OUT are the same file\n",
        ..QUIET
    },
    Row {
        words: "canonicalise OUT -",
        standard: Some("OUT"),
        status: 2,
        errors: "illcanon: IN and OUT are the same file\n",
        ..QUIET
    },
    Row {
        words: "canonicalise - -",
        input: BEFORE,
        standard: Some("OUT"),
        status: 2,
        errors: "illcanon: IN and OUT are the same file\n",
        ..QUIET
    },
    // The normal forms of many files.
    Row {
        words: "canonicalise -o OUT A B",
        out: Repeated(EXPIRED, 66),
        ..QUIET
    },
    Row {
        words: "canonicalise -o OUT A",
        out: Repeated(EXPIRED, 33),
        ..QUIET
    },
    Row {
        words: "canonicalise -o - A B",
        output: Repeated(EXPIRED, 66),
        ..QUIET
    },
    Row {
        words: "canonicalise -o OUT D",
        status: 1,
        errors: "illcanon: refused at 7 in message 1: UnexpectedTag\n",
        out: Repeated(EXPIRED, 0),
        ..QUIET
    },
    Row {
        words: "canonicalise -o OUT middle O A",
        status: 3,
        errors: "illcanon: middle: refused at 2 in message 2: Missing Expired.protocol-version-num\nillcanon: cannot open O: no such file\n",
        out: Repeated(EXPIRED, 66),
        ..QUIET
    },
    Row {
        words: "canonicalise --keep-going -o OUT first middle none last endless B",
        status: 1,
        errors: "illcanon: first: refused at 2 in message 1: Missing Expired.protocol-version-num\nillcanon: middle: refused at 2 in message 2: Missing Expired.protocol-version-num\nillcanon: last: refused at 2 in message 3: Missing Expired.protocol-version-num\nillcanon: endless: refused at 7 in message 2: Missing Expired.transaction-id; its end is unknown\n",
        out: Repeated(EXPIRED, 264),
        ..QUIET
    },
    Row {
        words: "canonicalise --keep-going first OUT",
        status: 1,
        errors: "illcanon: refused at 2 in message 1: Missing Expired.protocol-version-num\n",
        out: Repeated(EXPIRED, 66),
        ..QUIET
    },
    Row {
        words: "canonicalise --files-from list -o OUT A",
        out: Repeated(EXPIRED, 99),
        ..QUIET
    },
    Row {
        words: "canonicalise -o OUT none none",
        out: Repeated(EXPIRED, 0),
        ..QUIET
    },
    // OUT is not lost.
    Row {
        words: "canonicalise -o OUT O none/O",
        status: 3,
        errors: "illcanon: cannot open O: no such file\nillcanon: cannot open none/O: not a directory\n",
        ..QUIET
    },
    Row {
        words: "canonicalise -o OUT A ./OUT",
        status: 2,
        errors: "illcanon: IN and OUT are the same file\n",
        ..QUIET
    },
    Row {
        words: "canonicalise -o OUT OUT",
        status: 2,
        errors: "illcanon: OUT is one of the files that are read\n",
        ..QUIET
    },
    Row {
        words: "canonicalise -o OUT --files-from OUT A",
        status: 2,
        errors: "illcanon: OUT is one of the files that are read\n",
        ..QUIET
    },
    Row {
        words: "canonicalise -o ./OUT --files-from OUT A",
        status: 2,
        errors: "illcanon: IN and OUT are the same file\n",
        ..QUIET
    },
    Row {
        words: "canonicalise -o OUT --files-from dashes",
        status: 2,
        errors: "illcanon: standard input is named twice\n",
        ..QUIET
    },
    Row {
        words: "canonicalise -o OUT - -",
        status: 2,
        errors: "illcanon: standard input is named twice\n",
        ..QUIET
    },
    Row {
        words: "canonicalise -o none/OUT A B",
        status: 3,
        errors: "illcanon: cannot open none/OUT\n",
        ..QUIET
    },
    Row {
        words: "canonicalise -o OUT A B A",
        faults: Faults {
            room: Some(40),
            ..NO_FAULTS
        },
        status: 3,
        errors: "illcanon: write fault after 40 octets\n",
        ..QUIET
    },
    Row {
        words: "canonicalise -o OUT A B A",
        faults: Faults {
            rename: Some(ErrorKind::ResourceBusy),
            ..NO_FAULTS
        },
        status: 3,
        errors: "illcanon: cannot replace OUT: resource busy\n",
        ..QUIET
    },
];

#[test]
fn outputs_are_whole_or_as_they_were(rt: HostRuntime) -> Result<(), Fail> {
    test_rows::<Illcanon>(&rt, &ROWS)
}
