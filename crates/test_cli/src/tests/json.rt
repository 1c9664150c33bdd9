//! Results as lines of JSON.
use super::program::Illcanon;
use std::test::Fail;
use test_host::Octets::Text;
use test_host::{Ended, Faults, NO_FAULTS, QUIET, Row, enter, leave, run_with_faults, test_rows};

/// Results of messages, refused ones among them.
static ROWS: [Row; 19] = [
    Row {
        words: "check --json A",
        output: Text(
            b"{\"number\":1,\"offset\":0,\"octets\":33,\"apdu\":\"Expired\",\"normal\":true}\n",
        ),
        ..QUIET
    },
    Row {
        words: "check --json A B",
        status: 1,
        output: Text(
            b"{\"file\":\"A\",\"number\":1,\"offset\":0,\"octets\":33,\"apdu\":\"Expired\",\"normal\":true}\n{\"file\":\"B\",\"number\":1,\"offset\":0,\"octets\":47,\"apdu\":\"Expired\",\"normal\":false}\n",
        ),
        ..QUIET
    },
    Row {
        words: "check --json -H A",
        output: Text(
            b"{\"file\":\"A\",\"number\":1,\"offset\":0,\"octets\":33,\"apdu\":\"Expired\",\"normal\":true}\n",
        ),
        ..QUIET
    },
    Row {
        words: "digest --json B",
        output: Text(
            b"{\"number\":1,\"offset\":0,\"octets\":47,\"apdu\":\"Expired\",\"normal\":false,\"digest\":\"41b0dca84b6db1db587880995cae8f2ae640c5af026d4d9745a5bc56ba11a782\"}\n",
        ),
        ..QUIET
    },
    Row {
        words: "check --json middle",
        status: 1,
        output: Text(
            b"{\"number\":1,\"offset\":0,\"octets\":33,\"apdu\":\"Expired\",\"normal\":true}\n{\"number\":2,\"offset\":33,\"octets\":2,\"apdu\":\"Expired\",\"refused\":{\"cause\":\"Missing\",\"offset\":2,\"kind\":\"invalid\",\"clause\":\"X.690, 8.9.3 and 8.14, with the types of ISO 10161-1\",\"part\":\"Expired.protocol-version-num\",\"path\":\"Expired\",\"found\":\"the end of the element\",\"due\":[\"[UNIVERSAL 16] SEQUENCE\",\"[0] protocol-version-num\"]}}\n",
        ),
        ..QUIET
    },
    Row {
        words: "check --json --keep-going middle",
        status: 1,
        output: Text(
            b"{\"number\":1,\"offset\":0,\"octets\":33,\"apdu\":\"Expired\",\"normal\":true}\n{\"number\":2,\"offset\":33,\"octets\":2,\"apdu\":\"Expired\",\"refused\":{\"cause\":\"Missing\",\"offset\":2,\"kind\":\"invalid\",\"clause\":\"X.690, 8.9.3 and 8.14, with the types of ISO 10161-1\",\"part\":\"Expired.protocol-version-num\",\"path\":\"Expired\",\"found\":\"the end of the element\",\"due\":[\"[UNIVERSAL 16] SEQUENCE\",\"[0] protocol-version-num\"]}}\n{\"number\":3,\"offset\":35,\"octets\":33,\"apdu\":\"Expired\",\"normal\":true}\n",
        ),
        ..QUIET
    },
    // The numbers of what was read before a fault.
    Row {
        words: "check --summary --json --keep-going middle",
        faults: Faults {
            readable: Some(40),
            ..NO_FAULTS
        },
        status: 3,
        output: Text(
            b"{\"number\":1,\"offset\":0,\"octets\":33,\"apdu\":\"Expired\",\"normal\":true}\n{\"number\":2,\"offset\":33,\"octets\":2,\"apdu\":\"Expired\",\"refused\":{\"cause\":\"Missing\",\"offset\":2,\"kind\":\"invalid\",\"clause\":\"X.690, 8.9.3 and 8.14, with the types of ISO 10161-1\",\"part\":\"Expired.protocol-version-num\",\"path\":\"Expired\",\"found\":\"the end of the element\",\"due\":[\"[UNIVERSAL 16] SEQUENCE\",\"[0] protocol-version-num\"]}}\n{\"summary\":{\"files\":1,\"messages\":2,\"normal\":1,\"not_normal\":0,\"refused\":1,\"not_read\":0,\"invalid\":1,\"no_message\":0,\"octets\":35,\"not_opened\":0,\"left\":1}}\n",
        ),
        errors: "illcanon: read fault\nillcanon: stopped at message 3 (octet 35)\n",
        ..QUIET
    },
    Row {
        words: "check --keep-going --json endless",
        status: 1,
        output: Text(
            b"{\"number\":1,\"offset\":0,\"octets\":33,\"apdu\":\"Expired\",\"normal\":true}\n{\"number\":2,\"offset\":33,\"apdu\":\"Expired\",\"refused\":{\"cause\":\"Missing\",\"offset\":7,\"kind\":\"invalid\",\"clause\":\"X.690, 8.9.3 and 8.14, with the types of ISO 10161-1\",\"part\":\"Expired.transaction-id\",\"path\":\"Expired\",\"found\":\"the end of the element\",\"due\":[\"[1] transaction-id\"]}}\n",
        ),
        ..QUIET
    },
    Row {
        words: "check --json endless",
        status: 1,
        output: Text(
            b"{\"number\":1,\"offset\":0,\"octets\":33,\"apdu\":\"Expired\",\"normal\":true}\n{\"number\":2,\"offset\":33,\"apdu\":\"Expired\",\"refused\":{\"cause\":\"Missing\",\"offset\":7,\"kind\":\"invalid\",\"clause\":\"X.690, 8.9.3 and 8.14, with the types of ISO 10161-1\",\"part\":\"Expired.transaction-id\",\"path\":\"Expired\",\"found\":\"the end of the element\",\"due\":[\"[1] transaction-id\"]}}\n",
        ),
        ..QUIET
    },
    Row {
        words: "digest --json O middle A",
        status: 3,
        output: Text(
            b"{\"file\":\"middle\",\"number\":1,\"offset\":0,\"octets\":33,\"apdu\":\"Expired\",\"normal\":true,\"digest\":\"41b0dca84b6db1db587880995cae8f2ae640c5af026d4d9745a5bc56ba11a782\"}\n{\"file\":\"middle\",\"number\":2,\"offset\":33,\"octets\":2,\"apdu\":\"Expired\",\"refused\":{\"cause\":\"Missing\",\"offset\":2,\"kind\":\"invalid\",\"clause\":\"X.690, 8.9.3 and 8.14, with the types of ISO 10161-1\",\"part\":\"Expired.protocol-version-num\",\"path\":\"Expired\",\"found\":\"the end of the element\",\"due\":[\"[UNIVERSAL 16] SEQUENCE\",\"[0] protocol-version-num\"]}}\n{\"file\":\"A\",\"number\":1,\"offset\":0,\"octets\":33,\"apdu\":\"Expired\",\"normal\":true,\"digest\":\"41b0dca84b6db1db587880995cae8f2ae640c5af026d4d9745a5bc56ba11a782\"}\n",
        ),
        errors: "illcanon: cannot open O: no such file\n",
        ..QUIET
    },
    Row {
        words: "check --json --summary E middle",
        status: 1,
        output: Text(
            b"{\"file\":\"E\",\"number\":1,\"offset\":0,\"octets\":47,\"apdu\":\"Expired\",\"refused\":{\"cause\":\"LeftOut\",\"offset\":33,\"kind\":\"not read\",\"clause\":\"limit of illcanon\",\"part\":\"Expired.expired-extensions\",\"path\":\"Expired.expired-extensions\",\"found\":\"[49] constructed: bf 31\"}}\n{\"file\":\"middle\",\"number\":1,\"offset\":0,\"octets\":33,\"apdu\":\"Expired\",\"normal\":true}\n{\"file\":\"middle\",\"number\":2,\"offset\":33,\"octets\":2,\"apdu\":\"Expired\",\"refused\":{\"cause\":\"Missing\",\"offset\":2,\"kind\":\"invalid\",\"clause\":\"X.690, 8.9.3 and 8.14, with the types of ISO 10161-1\",\"part\":\"Expired.protocol-version-num\",\"path\":\"Expired\",\"found\":\"the end of the element\",\"due\":[\"[UNIVERSAL 16] SEQUENCE\",\"[0] protocol-version-num\"]}}\n{\"summary\":{\"files\":2,\"messages\":3,\"normal\":1,\"not_normal\":0,\"refused\":2,\"not_read\":1,\"invalid\":1,\"no_message\":0,\"octets\":82,\"not_opened\":0,\"left\":2}}\n",
        ),
        errors: "illcanon: E: stopped at message 1 (octet 0)\nillcanon: middle: stopped at message 2 (octet 33)\n",
        ..QUIET
    },
    Row {
        words: "check --json --summary --keep-going B first",
        status: 1,
        output: Text(
            b"{\"file\":\"B\",\"number\":1,\"offset\":0,\"octets\":47,\"apdu\":\"Expired\",\"normal\":false}\n{\"file\":\"first\",\"number\":1,\"offset\":0,\"octets\":2,\"apdu\":\"Expired\",\"refused\":{\"cause\":\"Missing\",\"offset\":2,\"kind\":\"invalid\",\"clause\":\"X.690, 8.9.3 and 8.14, with the types of ISO 10161-1\",\"part\":\"Expired.protocol-version-num\",\"path\":\"Expired\",\"found\":\"the end of the element\",\"due\":[\"[UNIVERSAL 16] SEQUENCE\",\"[0] protocol-version-num\"]}}\n{\"file\":\"first\",\"number\":2,\"offset\":2,\"octets\":33,\"apdu\":\"Expired\",\"normal\":true}\n{\"file\":\"first\",\"number\":3,\"offset\":35,\"octets\":47,\"apdu\":\"Expired\",\"normal\":false}\n{\"summary\":{\"files\":2,\"messages\":4,\"normal\":1,\"not_normal\":2,\"refused\":1,\"not_read\":0,\"invalid\":1,\"no_message\":0,\"octets\":129,\"not_opened\":0,\"left\":0}}\n",
        ),
        ..QUIET
    },
    Row {
        words: "check --json --summary none",
        output: Text(
            b"{\"summary\":{\"files\":1,\"messages\":0,\"normal\":0,\"not_normal\":0,\"refused\":0,\"not_read\":0,\"invalid\":0,\"no_message\":0,\"octets\":0,\"not_opened\":0,\"left\":0}}\n",
        ),
        ..QUIET
    },
    Row {
        words: "check --json --profile module E",
        output: Text(
            b"{\"number\":1,\"offset\":0,\"octets\":47,\"apdu\":\"Expired\",\"normal\":true}\n",
        ),
        ..QUIET
    },
    Row {
        words: "check --json --hex hex",
        status: 1,
        output: Text(
            b"{\"number\":1,\"offset\":0,\"octets\":33,\"apdu\":\"Expired\",\"normal\":true}\n{\"number\":2,\"offset\":33,\"octets\":2,\"apdu\":\"Expired\",\"refused\":{\"cause\":\"Missing\",\"offset\":2,\"kind\":\"invalid\",\"clause\":\"X.690, 8.9.3 and 8.14, with the types of ISO 10161-1\",\"part\":\"Expired.protocol-version-num\",\"path\":\"Expired\",\"found\":\"the end of the element\",\"due\":[\"[UNIVERSAL 16] SEQUENCE\",\"[0] protocol-version-num\"]}}\n",
        ),
        ..QUIET
    },
    Row {
        words: "check --json --hex --keep-going hex",
        status: 1,
        output: Text(
            b"{\"number\":1,\"offset\":0,\"octets\":33,\"apdu\":\"Expired\",\"normal\":true}\n{\"number\":2,\"offset\":33,\"octets\":2,\"apdu\":\"Expired\",\"refused\":{\"cause\":\"Missing\",\"offset\":2,\"kind\":\"invalid\",\"clause\":\"X.690, 8.9.3 and 8.14, with the types of ISO 10161-1\",\"part\":\"Expired.protocol-version-num\",\"path\":\"Expired\",\"found\":\"the end of the element\",\"due\":[\"[UNIVERSAL 16] SEQUENCE\",\"[0] protocol-version-num\"]}}\n{\"number\":3,\"offset\":35,\"octets\":33,\"apdu\":\"Expired\",\"normal\":true}\n",
        ),
        ..QUIET
    },
    Row {
        words: "check --json --hex A",
        status: 1,
        errors: "illcanon: hex: odd number of digits\n",
        ..QUIET
    },
    Row {
        words: "check --json --files-from line-end",
        output: Text(
            b"{\"file\":\"A\",\"number\":1,\"offset\":0,\"octets\":33,\"apdu\":\"Expired\",\"normal\":true}\n{\"file\":\"n\\nm\",\"number\":1,\"offset\":0,\"octets\":33,\"apdu\":\"Expired\",\"normal\":true}\n",
        ),
        ..QUIET
    },
    Row {
        words: "check --json --lines A",
        status: 2,
        errors: "illcanon: --lines excludes --json\n",
        ..QUIET
    },
];

#[test]
fn results_are_lines_of_json(rt: HostRuntime) -> Result<(), Fail> {
    test_rows::<Illcanon>(&rt, &ROWS)
}

/// Tells whether a command ends with status 3 and a line where standard output has no room for its last octet.
fn needs_its_last_octet(rt: &HostRuntime, words: &'static str) -> Result<bool, Fail> {
    let whole = run_with_faults::<Illcanon>(rt, words, NO_FAULTS)?;
    let faults = Faults {
        room: Some(whole.output.len().saturating_sub(1)),
        ..NO_FAULTS
    };
    let ended = run_with_faults::<Illcanon>(rt, words, faults)?;
    Ok(
        whole.status == 0
            && ended.status == 3
            && ended.errors.as_slice() == b"illcanon: flush fault\n".as_slice(),
    )
}

#[test]
fn the_end_of_the_output_is_not_lost_in_silence(rt: HostRuntime) -> Result<(), Fail> {
    let folder = enter(&rt)?;
    let html = needs_its_last_octet(&rt, "dump --html A")?;
    let summary = needs_its_last_octet(&rt, "check --json --summary A")?;
    leave(&rt, folder.as_str())?;
    assert!(&rt; html && summary);
    Ok(())
}

/// A check of twenty thousand refused messages, whose lines of JSON go to an output with no room, and whose file can't be read to its end.
fn check_without_room(rt: &HostRuntime, once: bool, closed: bool) -> Result<Ended, Fail> {
    let faults = Faults {
        room: Some(0),
        readable: Some(39_000),
        once,
        closed,
        ..NO_FAULTS
    };
    run_with_faults::<Illcanon>(rt, "check --json --keep-going refusals", faults)
}

/// Tells whether a check ended at the write that failed, and not where its file can't be read.
fn ended_at_the_write(ended: &Ended) -> bool {
    ended.status == 3 && ended.errors.starts_with(b"illcanon: write fault after ")
}

#[test]
fn a_line_that_is_not_written_ends_the_work(rt: HostRuntime) -> Result<(), Fail> {
    let folder = enter(&rt)?;
    let full = check_without_room(&rt, false, false)?;
    let once = check_without_room(&rt, true, false)?;
    let closed = check_without_room(&rt, false, true)?;
    leave(&rt, folder.as_str())?;
    assert!(&rt; ended_at_the_write(&full) && ended_at_the_write(&once));
    assert!(&rt; closed.status == 3 && closed.errors.is_empty());
    Ok(())
}
