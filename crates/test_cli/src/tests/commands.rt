//! Output and status of each command.
use super::program::Illcanon;
use std::test::Fail;
use test_host::Octets::Text;
use test_host::{Faults, INDEFINITE, NO_FAULTS, QUIET, Row, test_rows};

/// Commands with no output of their own. O is absent.
static ROWS: [Row; 39] = [
    Row {
        words: "show A",
        output: Text(
            b"message 1 Expired\nprotocol-version-num = 2\ntransaction-id.transaction-group-qualifier = general \"G\"\ntransaction-id.transaction-qualifier = general \"Q\"\nservice-date-time.date-time-of-this-service.date = 20240229\n",
        ),
        ..QUIET
    },
    Row {
        words: "check A",
        output: Text(b"message 1: Expired, 33 octets, normal\n"),
        ..QUIET
    },
    Row {
        words: "check B",
        status: 1,
        output: Text(b"message 1: Expired, 47 octets, not normal, normal form 33 octets\n"),
        ..QUIET
    },
    Row {
        words: "same A B",
        output: Text(b"same\n"),
        ..QUIET
    },
    Row {
        words: "same A C",
        status: 1,
        output: Text(b"different\n"),
        ..QUIET
    },
    Row {
        words: "same C A",
        status: 1,
        output: Text(b"different\n"),
        ..QUIET
    },
    Row {
        words: "show D",
        status: 1,
        errors: "illcanon: refused at 7 in message 1: UnexpectedTag\n",
        ..QUIET
    },
    Row {
        words: "same A D",
        status: 1,
        errors: "illcanon: refused at 7 in the second file: UnexpectedTag\n",
        ..QUIET
    },
    Row {
        words: "same D A",
        status: 1,
        errors: "illcanon: refused at 7 in the first file: UnexpectedTag\n",
        ..QUIET
    },
    Row {
        words: "check O",
        status: 3,
        errors: "illcanon: cannot open O\n",
        ..QUIET
    },
    // A folder can be opened, but not read.
    Row {
        words: "check A folder",
        status: 3,
        output: Text(b"A: message 1: Expired, 33 octets, normal\n"),
        errors: "illcanon: cannot open folder: is a directory\n",
        ..QUIET
    },
    Row {
        words: "check --summary folder A",
        status: 3,
        output: Text(b"A: message 1: Expired, 33 octets, normal\n"),
        errors: "illcanon: cannot open folder: is a directory\nillcanon: 1 file, 1 message, 1 normal, 0 not normal, 0 refused, 33 octets, 1 not opened\n",
        ..QUIET
    },
    Row {
        words: "--version",
        output: Text(b"illcanon 0.2.0\n"),
        ..QUIET
    },
    // What is asked for can't be printed.
    Row {
        words: "--version",
        faults: Faults {
            room: Some(3),
            ..NO_FAULTS
        },
        status: 3,
        output: Text(b"ill"),
        errors: "illcanon: flush fault\n",
        ..QUIET
    },
    // The answer would go to one of the files.
    Row {
        words: "same A B",
        standard: Some("A"),
        status: 2,
        errors: "illcanon: IN and OUT are the same file\n",
        ..QUIET
    },
    Row {
        words: "same A B",
        standard: Some("B"),
        status: 2,
        errors: "illcanon: IN and OUT are the same file\n",
        ..QUIET
    },
    Row {
        words: "same A O",
        status: 3,
        errors: "illcanon: cannot open O\n",
        ..QUIET
    },
    Row {
        words: "same - -",
        status: 2,
        errors: "illcanon: the same word twice\n",
        ..QUIET
    },
    Row {
        words: "digest A",
        output: Text(b"41b0dca84b6db1db587880995cae8f2ae640c5af026d4d9745a5bc56ba11a782  A:1\n"),
        ..QUIET
    },
    Row {
        words: "digest B A",
        output: Text(
            b"41b0dca84b6db1db587880995cae8f2ae640c5af026d4d9745a5bc56ba11a782  B:1\n41b0dca84b6db1db587880995cae8f2ae640c5af026d4d9745a5bc56ba11a782  A:1\n",
        ),
        ..QUIET
    },
    Row {
        words: "check A A",
        output: Text(
            b"A: message 1: Expired, 33 octets, normal\nA: message 1: Expired, 33 octets, normal\n",
        ),
        ..QUIET
    },
    Row {
        words: "check A B",
        status: 1,
        output: Text(
            b"A: message 1: Expired, 33 octets, normal\nB: message 1: Expired, 47 octets, not normal, normal form 33 octets\n",
        ),
        ..QUIET
    },
    Row {
        words: "show D A",
        status: 1,
        output: Text(
            b"A: message 1 Expired\nprotocol-version-num = 2\ntransaction-id.transaction-group-qualifier = general \"G\"\ntransaction-id.transaction-qualifier = general \"Q\"\nservice-date-time.date-time-of-this-service.date = 20240229\n",
        ),
        errors: "illcanon: D: refused at 7 in message 1: UnexpectedTag\n",
        ..QUIET
    },
    Row {
        words: "check B O D A",
        status: 3,
        output: Text(
            b"B: message 1: Expired, 47 octets, not normal, normal form 33 octets\nA: message 1: Expired, 33 octets, normal\n",
        ),
        errors: "illcanon: cannot open O: no such file\nillcanon: D: refused at 7 in message 1: UnexpectedTag\n",
        ..QUIET
    },
    Row {
        words: "check - A -",
        status: 2,
        errors: "illcanon: standard input is named twice\n",
        ..QUIET
    },
    Row {
        words: "digest --hex",
        status: 2,
        errors: "error: the following required arguments were not provided:\n  <FILE>..., or --files-from <LIST>\n\nUsage: illcanon digest [OPTIONS] [FILE]...\n\nFor more information, try '--help'.\n",
        ..QUIET
    },
    Row {
        words: "dump",
        status: 2,
        errors: "error: the following required arguments were not provided:\n  <FILE>..., or --files-from <LIST>\n\nUsage: illcanon dump [OPTIONS] [FILE]...\n\nFor more information, try '--help'.\n",
        ..QUIET
    },
    Row {
        words: "check --hex A",
        status: 1,
        errors: "illcanon: hex: odd number of digits\n",
        ..QUIET
    },
    Row {
        words: "check --lines --hex A",
        status: 2,
        errors: "illcanon: --lines excludes --hex\n",
        ..QUIET
    },
    Row {
        words: "check --lines --keep-going A",
        status: 2,
        errors: "illcanon: --lines excludes --keep-going\n",
        ..QUIET
    },
    Row {
        words: "check --lines --summary A",
        status: 2,
        errors: "illcanon: --lines excludes --summary\n",
        ..QUIET
    },
    Row {
        words: "digest --lines A B",
        status: 2,
        errors: "illcanon: --lines reads one FILE\n",
        ..QUIET
    },
    // Standard input.
    Row {
        words: "same - A",
        input: INDEFINITE,
        output: Text(b"same\n"),
        ..QUIET
    },
    Row {
        words: "same C -",
        input: INDEFINITE,
        status: 1,
        output: Text(b"different\n"),
        ..QUIET
    },
    Row {
        words: "check A -",
        input: INDEFINITE,
        status: 1,
        output: Text(
            b"A: message 1: Expired, 33 octets, normal\n-: message 1: Expired, 47 octets, not normal, normal form 33 octets\n",
        ),
        ..QUIET
    },
    // Standard output that breaks.
    Row {
        words: "check A",
        faults: Faults {
            room: Some(5),
            ..NO_FAULTS
        },
        status: 3,
        output: Text(b"messa"),
        errors: "illcanon: flush fault\n",
        ..QUIET
    },
    // The output of the first message is lost, though the second is refused.
    Row {
        words: "check refused",
        faults: Faults {
            room: Some(5),
            ..NO_FAULTS
        },
        status: 3,
        output: Text(b"messa"),
        errors: "illcanon: flush fault\n",
        ..QUIET
    },
    // No file is read once output is lost.
    Row {
        words: "check A B D",
        faults: Faults {
            room: Some(5),
            ..NO_FAULTS
        },
        status: 3,
        output: Text(b"A: me"),
        errors: "illcanon: A: flush fault\n",
        ..QUIET
    },
    // Files that break.
    Row {
        words: "check A B",
        faults: Faults {
            readable: Some(5),
            ..NO_FAULTS
        },
        status: 3,
        errors: "illcanon: A: read fault\nillcanon: B: read fault\n",
        ..QUIET
    },
];

#[test]
fn each_command_ends_as_it_must(rt: HostRuntime) -> Result<(), Fail> {
    test_rows::<Illcanon>(&rt, &ROWS)
}
