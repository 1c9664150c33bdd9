//! The file of refused messages.
use super::program::Illcanon;
use std::fs;
use std::io::ErrorKind;
use std::os::unix::fs::symlink;
use std::test::Fail;
use test_host::Octets::Text;
use test_host::{
    BEFORE, EXPIRED, Faults, NO_FAULTS, Octets, QUIET, Row, comes_true, enter, fail_with, holds,
    leave, run_line,
};

/// The content of R before each run.
const OLD: &[u8] = b"old";

/// A run of the program, and what R holds after it.
struct Kept {
    row: Row,
    kept: &'static [u8],
}

/// An EXPIRED with nothing in it.
const EMPTY: &[u8] = b"\x74\x00";

static ROWS: [Kept; 28] = [
    Kept {
        row: Row {
            words: "check --keep-going --refused R middle",
            status: 1,
            output: Text(
                b"message 1: Expired, 33 octets, normal\nmessage 3: Expired, 33 octets, normal\n",
            ),
            errors: "illcanon: refused at 2 in message 2: Missing Expired.protocol-version-num\n",
            ..QUIET
        },
        kept: EMPTY,
    },
    // one after the other, of several files; an end that isn't known has its line
    Kept {
        row: Row {
            words: "digest --keep-going --refused R first endless last",
            status: 1,
            output: Text(
                b"41b0dca84b6db1db587880995cae8f2ae640c5af026d4d9745a5bc56ba11a782  first:2\n41b0dca84b6db1db587880995cae8f2ae640c5af026d4d9745a5bc56ba11a782  first:3\n41b0dca84b6db1db587880995cae8f2ae640c5af026d4d9745a5bc56ba11a782  endless:1\n41b0dca84b6db1db587880995cae8f2ae640c5af026d4d9745a5bc56ba11a782  last:1\n41b0dca84b6db1db587880995cae8f2ae640c5af026d4d9745a5bc56ba11a782  last:2\n",
            ),
            errors: "illcanon: first: refused at 2 in message 1: Missing Expired.protocol-version-num\nillcanon: endless: refused at 7 in message 2: Missing Expired.transaction-id; its end is unknown\nillcanon: last: refused at 2 in message 3: Missing Expired.protocol-version-num\nillcanon: R is without 1 refused message: too long, or of an unknown end\n",
            ..QUIET
        },
        kept: b"\x74\x00\x74\x00",
    },
    // octets, also of hexadecimal text
    Kept {
        row: Row {
            words: "canonicalise --keep-going --hex --refused R hex OUT",
            status: 1,
            errors: "illcanon: refused at 2 in message 2: Missing Expired.protocol-version-num\n",
            out: Text(
                b"741f301d800102a10aa1031b0147a2031b0151a20ca00a80083230323430323239\n741f301d800102a10aa1031b0147a2031b0151a20ca00a80083230323430323239\n",
            ),
            ..QUIET
        },
        kept: EMPTY,
    },
    Kept {
        row: Row {
            words: "canonicalise --keep-going --refused R -o OUT middle last",
            status: 1,
            errors: "illcanon: middle: refused at 2 in message 2: Missing Expired.protocol-version-num\nillcanon: last: refused at 2 in message 3: Missing Expired.protocol-version-num\n",
            out: Octets::Repeated(EXPIRED, 132),
            ..QUIET
        },
        kept: b"\x74\x00\x74\x00",
    },
    Kept {
        row: Row {
            words: "check --json --keep-going --refused R E",
            status: 1,
            output: Text(
                b"{\"number\":1,\"offset\":0,\"octets\":47,\"apdu\":\"Expired\",\"refused\":{\"cause\":\"LeftOut\",\"offset\":33,\"kind\":\"not read\",\"clause\":\"limit of illcanon\",\"part\":\"Expired.expired-extensions\",\"path\":\"Expired.expired-extensions\",\"found\":\"[49] constructed: bf 31\"}}\n",
            ),
            ..QUIET
        },
        kept: b"\x74\x2d\x30\x2b\x80\x01\x02\xa1\x0a\xa1\x03\x1b\x01\x47\xa2\x03\x1b\x01\x51\xa2\x0c\xa0\x0a\x80\x0820240229\xbf\x31\x0b\x30\x09\x80\x01\x01\xa2\x04\x30\x02\x05\x00",
    },
    // octets with which no message begins aren't kept
    Kept {
        row: Row {
            words: "check --keep-going --summary --refused R mail",
            status: 1,
            output: Text(b"message 2: Expired, 33 octets, normal\n"),
            errors: "illcanon: refused at 0 in message 1: UnexpectedTag\nillcanon: refused at 2 in message 3: Missing Expired.protocol-version-num\nillcanon: refused at 0 in message 4: WrongForm; its end is unknown\nillcanon: stopped at message 4 (octet 37)\nillcanon: 1 file, 2 messages, 1 normal, 0 not normal, 1 refused (0 not read, 1 invalid), 37 octets, 2 places without a message, 1 left before the end\n",
            ..QUIET
        },
        kept: EMPTY,
    },
    // nothing is refused
    Kept {
        row: Row {
            words: "show --json --keep-going --refused R none",
            ..QUIET
        },
        kept: b"",
    },
    // R stays as it was
    Kept {
        row: Row {
            words: "check --keep-going --refused R O",
            status: 3,
            errors: "illcanon: cannot open O\n",
            ..QUIET
        },
        kept: OLD,
    },
    Kept {
        row: Row {
            words: "check --refused R middle",
            status: 2,
            errors: "illcanon: --refused needs --keep-going\n",
            ..QUIET
        },
        kept: OLD,
    },
    Kept {
        row: Row {
            words: "check --keep-going --refused R A R",
            status: 2,
            errors: "illcanon: --refused needs a file of its own\n",
            ..QUIET
        },
        kept: OLD,
    },
    Kept {
        row: Row {
            words: "check --keep-going --refused - A",
            status: 2,
            errors: "illcanon: --refused needs a file of its own\n",
            ..QUIET
        },
        kept: OLD,
    },
    // a message of more octets than a message may have isn't kept in part
    Kept {
        row: Row {
            words: "check --keep-going --refused R long",
            status: 1,
            output: Text(
                b"message 1: Expired, 33 octets, normal\nmessage 3: Expired, 33 octets, normal\n",
            ),
            errors: "illcanon: refused at 0 in message 2: TooLong\nillcanon: R is without 1 refused message: too long, or of an unknown end\n",
            ..QUIET
        },
        kept: b"",
    },
    Kept {
        row: Row {
            words: "check --json --keep-going --refused R endless",
            status: 1,
            output: Octets::Begins(b"{\"number\":1,\"offset\":0,\"octets\":33,"),
            errors: "illcanon: R is without 1 refused message: too long, or of an unknown end\n",
            ..QUIET
        },
        kept: b"",
    },
    // R stays as it was where the input can't be read,
    Kept {
        row: Row {
            words: "check --keep-going --refused R first",
            faults: Faults {
                readable: Some(20),
                ..NO_FAULTS
            },
            status: 3,
            errors: "illcanon: refused at 2 in message 1: Missing Expired.protocol-version-num\nillcanon: read fault\n",
            ..QUIET
        },
        kept: OLD,
    },
    Kept {
        row: Row {
            words: "check --json --keep-going --refused R first middle",
            faults: Faults {
                readable: Some(40),
                ..NO_FAULTS
            },
            status: 3,
            output: Octets::Begins(b"{\"file\":\"first\",\"number\":1,\"offset\":0,\"octets\":2,"),
            errors: "illcanon: first: read fault\nillcanon: middle: read fault\n",
            ..QUIET
        },
        kept: OLD,
    },
    // an output can't be written or replaced,
    Kept {
        row: Row {
            words: "canonicalise --keep-going --refused R middle OUT",
            faults: Faults {
                room: Some(40),
                ..NO_FAULTS
            },
            status: 3,
            errors: "illcanon: refused at 2 in message 2: Missing Expired.protocol-version-num\nillcanon: flush fault\n",
            ..QUIET
        },
        kept: OLD,
    },
    Kept {
        row: Row {
            words: "digest --keep-going --refused R middle",
            faults: Faults {
                room: Some(0),
                file_room: Some(1000),
                ..NO_FAULTS
            },
            status: 3,
            errors: "illcanon: refused at 2 in message 2: Missing Expired.protocol-version-num\nillcanon: flush fault\n",
            ..QUIET
        },
        kept: OLD,
    },
    Kept {
        row: Row {
            words: "canonicalise --keep-going --refused R middle OUT",
            faults: Faults {
                rename: Some(ErrorKind::ResourceBusy),
                ..NO_FAULTS
            },
            status: 3,
            errors: "illcanon: refused at 2 in message 2: Missing Expired.protocol-version-num\nillcanon: cannot replace OUT: resource busy\n",
            ..QUIET
        },
        kept: OLD,
    },
    // and R itself can't be written or replaced
    Kept {
        row: Row {
            words: "check --keep-going --refused R middle",
            faults: Faults {
                rename: Some(ErrorKind::ResourceBusy),
                ..NO_FAULTS
            },
            status: 3,
            output: Text(
                b"message 1: Expired, 33 octets, normal\nmessage 3: Expired, 33 octets, normal\n",
            ),
            errors: "illcanon: refused at 2 in message 2: Missing Expired.protocol-version-num\nillcanon: cannot replace R: resource busy\n",
            ..QUIET
        },
        kept: OLD,
    },
    Kept {
        row: Row {
            words: "check --keep-going --refused R large",
            faults: Faults {
                file_room: Some(0),
                once: true,
                ..NO_FAULTS
            },
            status: 3,
            errors: "illcanon: refused at 11 in message 1: UnexpectedTag\nillcanon: R: flush fault\n",
            ..QUIET
        },
        kept: OLD,
    },
    // a list that names no file
    Kept {
        row: Row {
            words: "check --keep-going --refused R --files-from no-name",
            status: 2,
            errors: "illcanon: the list names no file\n",
            ..QUIET
        },
        kept: OLD,
    },
    // the work ends after a number of refused messages
    Kept {
        row: Row {
            words: "check --keep-going --max-refused 2 --refused R first middle last",
            status: 1,
            output: Text(
                b"first: message 2: Expired, 33 octets, normal\nfirst: message 3: Expired, 47 octets, not normal, normal form 33 octets\nmiddle: message 1: Expired, 33 octets, normal\n",
            ),
            errors: "illcanon: first: refused at 2 in message 1: Missing Expired.protocol-version-num\nillcanon: middle: refused at 2 in message 2: Missing Expired.protocol-version-num\nillcanon: middle: stopped after 2 refused messages\n",
            ..QUIET
        },
        kept: b"\x74\x00\x74\x00",
    },
    Kept {
        row: Row {
            words: "canonicalise --summary --keep-going --max-refused 1 --refused R -o OUT A middle B",
            status: 1,
            errors: "illcanon: middle: refused at 2 in message 2: Missing Expired.protocol-version-num\nillcanon: middle: stopped after 1 refused message\nillcanon: middle: stopped at message 2 (octet 33)\nillcanon: 2 files, 3 messages, 2 normal, 0 not normal, 1 refused (0 not read, 1 invalid), 68 octets, 1 left before the end\n",
            out: Octets::Repeated(EXPIRED, 66),
            ..QUIET
        },
        kept: EMPTY,
    },
    Kept {
        row: Row {
            words: "check --max-refused 1 middle",
            status: 2,
            errors: "illcanon: --max-refused needs --keep-going\n",
            ..QUIET
        },
        kept: OLD,
    },
    // the list under another name, and another folder's file of this name
    Kept {
        row: Row {
            words: "check --keep-going --refused ./list --files-from list",
            status: 2,
            errors: "illcanon: --refused needs a file of its own\n",
            ..QUIET
        },
        kept: OLD,
    },
    Kept {
        row: Row {
            words: "canonicalise --keep-going --refused folder/new A new",
            ..QUIET
        },
        kept: OLD,
    },
    // two words for one file
    Kept {
        row: Row {
            words: "check --keep-going --refused ./R A R",
            status: 2,
            errors: "illcanon: --refused needs a file of its own\n",
            ..QUIET
        },
        kept: OLD,
    },
    Kept {
        row: Row {
            words: "canonicalise --keep-going --refused ./new A new",
            status: 2,
            errors: "illcanon: --refused needs a file of its own\n",
            out: Text(BEFORE),
            ..QUIET
        },
        kept: OLD,
    },
];

/// The words of the first row that doesn't come true, in the folder where this is.
fn first_wrong_here(rt: &HostRuntime) -> Result<Option<&'static str>, Fail> {
    for kept in &ROWS {
        fs::write(rt, "R", OLD)?;
        if !comes_true::<Illcanon>(rt, &kept.row)? || !holds(rt, "R", Text(kept.kept))? {
            return Ok(Some(kept.row.words));
        }
        if fs::exists(rt, "R.part")? {
            return Ok(Some(kept.row.words));
        }
    }
    Ok(None)
}

#[test]
fn refused_messages_go_to_their_file(rt: HostRuntime) -> Result<(), Fail> {
    let folder = enter(&rt)?;
    let wrong = first_wrong_here(&rt)?;
    leave(&rt, folder.as_str())?;
    fail_with(wrong)
}

/// Tells whether a command is refused, since its file of refused messages is another of its files.
fn is_shared(rt: &HostRuntime, words: &'static str) -> Result<bool, Fail> {
    let ended = run_line::<Illcanon>(rt, words, b"")?;
    Ok(
        ended.status == 2
            && ended.errors.as_slice()
                == b"illcanon: --refused needs a file of its own\n".as_slice(),
    )
}

/// Tells whether the file of refused messages is known under other names: another name of OUT, a link to an absent OUT, and the file
/// that becomes the file of refused messages.
fn other_names_are_known(rt: &HostRuntime) -> Result<bool, Fail> {
    fs::write(rt, "OUT", BEFORE)?;
    fs::hard_link(rt, "OUT", "HARD")?;
    symlink(rt, "absent", "soft")?;
    symlink(rt, "soft", "softer")?;
    Ok(
        is_shared(rt, "canonicalise --keep-going --refused HARD middle OUT")?
            && is_shared(
                rt,
                "canonicalise --keep-going --refused softer middle absent",
            )?
            && is_shared(
                rt,
                "canonicalise --keep-going --refused absent middle ./softer",
            )?
            && is_shared(rt, "canonicalise --keep-going --refused R middle R.part")?
            && holds(rt, "HARD", Text(BEFORE))?
            && !fs::exists(rt, "absent")?
            && !fs::exists(rt, "R.part")?,
    )
}

#[test]
fn the_file_of_refused_messages_is_no_other(rt: HostRuntime) -> Result<(), Fail> {
    let folder = enter(&rt)?;
    let are_known = other_names_are_known(&rt)?;
    leave(&rt, folder.as_str())?;
    assert!(&rt; are_known);
    Ok(())
}
