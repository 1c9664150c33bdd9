//! Work that goes on after a message that is refused.
use super::program::Illcanon;
use std::test::Fail;
use test_host::Octets::{Begins, Text};
use test_host::{EXPIRED, Faults, NO_FAULTS, QUIET, Row, test_rows};

/// Files with messages that are refused, and others.
static ROWS: [Row; 25] = [
    Row {
        words: "check --keep-going middle",
        status: 1,
        output: Text(
            b"message 1: Expired, 33 octets, normal\nmessage 3: Expired, 33 octets, normal\n",
        ),
        errors: "illcanon: refused at 2 in message 2: Missing Expired.protocol-version-num\n",
        ..QUIET
    },
    Row {
        words: "check --keep-going first",
        status: 1,
        output: Text(
            b"message 2: Expired, 33 octets, normal\nmessage 3: Expired, 47 octets, not normal, normal form 33 octets\n",
        ),
        errors: "illcanon: refused at 2 in message 1: Missing Expired.protocol-version-num\n",
        ..QUIET
    },
    Row {
        words: "check last --keep-going",
        status: 1,
        output: Text(
            b"message 1: Expired, 33 octets, normal\nmessage 2: Expired, 33 octets, normal\n",
        ),
        errors: "illcanon: refused at 2 in message 3: Missing Expired.protocol-version-num\n",
        ..QUIET
    },
    Row {
        words: "check --keep-going endless",
        status: 1,
        output: Text(b"message 1: Expired, 33 octets, normal\n"),
        errors: "illcanon: refused at 7 in message 2: Missing Expired.transaction-id; its end is unknown\n",
        ..QUIET
    },
    // The numbers of what was read before a fault.
    Row {
        words: "check --summary --keep-going middle",
        faults: Faults {
            readable: Some(40),
            ..NO_FAULTS
        },
        status: 3,
        output: Text(b"message 1: Expired, 33 octets, normal\n"),
        errors: "illcanon: refused at 2 in message 2: Missing Expired.protocol-version-num\nillcanon: read fault\nillcanon: stopped at message 3 (octet 35)\nillcanon: 1 file, 2 messages, 1 normal, 0 not normal, 1 refused (0 not read, 1 invalid), 35 octets, 1 left before the end\n",
        ..QUIET
    },
    // The work ends with the second refused message.
    Row {
        words: "dump --keep-going --max-refused 2 bad first A",
        status: 1,
        output: Begins(b"bad: message 1: refused\n"),
        errors: "illcanon: bad: refused at 0 in message 1: UnexpectedTag; its end is unknown\nillcanon: first: refused at 2 in message 1: Missing Expired.protocol-version-num\nillcanon: first: stopped after 2 refused messages\n",
        ..QUIET
    },
    Row {
        words: "check --keep-going none",
        ..QUIET
    },
    Row {
        words: "check --keep-going A",
        output: Text(b"message 1: Expired, 33 octets, normal\n"),
        ..QUIET
    },
    Row {
        words: "digest --keep-going endless O middle D A",
        status: 3,
        output: Text(
            b"41b0dca84b6db1db587880995cae8f2ae640c5af026d4d9745a5bc56ba11a782  endless:1\n41b0dca84b6db1db587880995cae8f2ae640c5af026d4d9745a5bc56ba11a782  middle:1\n41b0dca84b6db1db587880995cae8f2ae640c5af026d4d9745a5bc56ba11a782  middle:3\n41b0dca84b6db1db587880995cae8f2ae640c5af026d4d9745a5bc56ba11a782  A:1\n",
        ),
        errors: "illcanon: endless: refused at 7 in message 2: Missing Expired.transaction-id; its end is unknown\nillcanon: cannot open O: no such file\nillcanon: middle: refused at 2 in message 2: Missing Expired.protocol-version-num\nillcanon: D: refused at 7 in message 1: UnexpectedTag; its end is unknown\n",
        ..QUIET
    },
    Row {
        words: "show --keep-going first none",
        status: 1,
        output: Text(
            b"first: message 2 Expired\nprotocol-version-num = 2\ntransaction-id.transaction-group-qualifier = general \"G\"\ntransaction-id.transaction-qualifier = general \"Q\"\nservice-date-time.date-time-of-this-service.date = 20240229\nfirst: message 3 Expired\nprotocol-version-num = 2\ntransaction-id.transaction-group-qualifier = general \"G\"\ntransaction-id.transaction-qualifier = general \"Q\"\nservice-date-time.date-time-of-this-service.date = 20240229\n",
        ),
        errors: "illcanon: first: refused at 2 in message 1: Missing Expired.protocol-version-num\n",
        ..QUIET
    },
    Row {
        words: "check first",
        status: 1,
        errors: "illcanon: refused at 2 in message 1: Missing Expired.protocol-version-num\n",
        ..QUIET
    },
    Row {
        words: "check -H --keep-going middle",
        status: 1,
        output: Text(
            b"middle: message 1: Expired, 33 octets, normal\nmiddle: message 3: Expired, 33 octets, normal\n",
        ),
        errors: "illcanon: middle: refused at 2 in message 2: Missing Expired.protocol-version-num\n",
        ..QUIET
    },
    Row {
        words: "check -H first",
        status: 1,
        errors: "illcanon: first: refused at 2 in message 1: Missing Expired.protocol-version-num\n",
        ..QUIET
    },
    Row {
        words: "check --with-filename A",
        output: Text(b"A: message 1: Expired, 33 octets, normal\n"),
        ..QUIET
    },
    Row {
        words: "check --keep-going --hex hex",
        status: 1,
        output: Text(
            b"message 1: Expired, 33 octets, normal\nmessage 3: Expired, 33 octets, normal\n",
        ),
        errors: "illcanon: refused at 2 in message 2: Missing Expired.protocol-version-num\n",
        ..QUIET
    },
    Row {
        words: "canonicalise --keep-going --hex hex -",
        status: 1,
        output: Text(
            b"741f301d800102a10aa1031b0147a2031b0151a20ca00a80083230323430323239\n741f301d800102a10aa1031b0147a2031b0151a20ca00a80083230323430323239\n",
        ),
        errors: "illcanon: refused at 2 in message 2: Missing Expired.protocol-version-num\n",
        ..QUIET
    },
    Row {
        words: "check --keep-going --hex A",
        status: 1,
        errors: "illcanon: hex: odd number of digits\n",
        ..QUIET
    },
    // `first` has 2, 33 and 47 octets; of `endless` those of its first message are known.
    Row {
        words: "check --keep-going --summary first O endless",
        status: 3,
        output: Text(
            b"first: message 2: Expired, 33 octets, normal\nfirst: message 3: Expired, 47 octets, not normal, normal form 33 octets\nendless: message 1: Expired, 33 octets, normal\n",
        ),
        errors: "illcanon: first: refused at 2 in message 1: Missing Expired.protocol-version-num\nillcanon: cannot open O: no such file\nillcanon: endless: refused at 7 in message 2: Missing Expired.transaction-id; its end is unknown\nillcanon: endless: stopped at message 2 (octet 33)\nillcanon: 2 files, 5 messages, 2 normal, 1 not normal, 2 refused (0 not read, 2 invalid), 115 octets, 1 not opened, 1 left before the end\n",
        ..QUIET
    },
    Row {
        words: "canonicalise --summary middle -",
        status: 1,
        output: Text(EXPIRED),
        errors: "illcanon: refused at 2 in message 2: Missing Expired.protocol-version-num\nillcanon: stopped at message 2 (octet 33)\nillcanon: 1 file, 2 messages, 1 normal, 0 not normal, 1 refused, 33 octets, 1 left before the end\n",
        ..QUIET
    },
    Row {
        words: "show --json --keep-going first",
        status: 1,
        output: Text(
            b"{\"number\":2,\"offset\":2,\"octets\":33,\"apdu\":\"Expired\",\"normal\":true,\"value\":{\"protocol-version-num\":2,\"transaction-id\":{\"transaction-group-qualifier\":{\"general\":\"G\"},\"transaction-qualifier\":{\"general\":\"Q\"}},\"service-date-time\":{\"date-time-of-this-service\":{\"date\":\"20240229\"}}}}\n{\"number\":3,\"offset\":35,\"octets\":47,\"apdu\":\"Expired\",\"normal\":false,\"value\":{\"protocol-version-num\":2,\"transaction-id\":{\"transaction-group-qualifier\":{\"general\":\"G\"},\"transaction-qualifier\":{\"general\":\"Q\"}},\"service-date-time\":{\"date-time-of-this-service\":{\"date\":\"20240229\"}}}}\n",
        ),
        errors: "illcanon: refused at 2 in message 1: Missing Expired.protocol-version-num\n",
        ..QUIET
    },
    Row {
        words: "dump --keep-going --message 2 first",
        status: 1,
        output: Text(
            b"message 2: Expired, 33 octets, normal\n      0  74 1f  Expired\n      2    30 1d  SEQUENCE\n      4      80 01  protocol-version-num = 2\n      7      a1 0a  transaction-id\n      9        a1 03  transaction-group-qualifier\n     11          1b 01  GeneralString = \"G\"\n     14        a2 03  transaction-qualifier\n     16          1b 01  GeneralString = \"Q\"\n     19      a2 0c  service-date-time\n     21        a0 0a  date-time-of-this-service\n     23          80 08  date = 20240229\n",
        ),
        errors: "illcanon: refused at 2 in message 1: Missing Expired.protocol-version-num\n",
        ..QUIET
    },
    Row {
        words: "dump --keep-going first",
        status: 1,
        output: Begins(
            b"message 1: refused\n      0  74 00  Expired  (without inner SEQUENCE)\nrefused at 2: Missing Expired.protocol-version-num\n",
        ),
        errors: "illcanon: refused at 2 in message 1: Missing Expired.protocol-version-num\n",
        ..QUIET
    },
    Row {
        words: "dump --html --keep-going A first",
        status: 1,
        output: Begins(b"<!DOCTYPE html>\n<html lang=\"en\">\n"),
        errors: "illcanon: first: refused at 2 in message 1: Missing Expired.protocol-version-num\n",
        ..QUIET
    },
    Row {
        words: "dump --message 2 A",
        status: 1,
        errors: "illcanon: no message 2: the input has 1 message\n",
        ..QUIET
    },
    Row {
        words: "show --json A",
        output: Text(
            b"{\"number\":1,\"offset\":0,\"octets\":33,\"apdu\":\"Expired\",\"normal\":true,\"value\":{\"protocol-version-num\":2,\"transaction-id\":{\"transaction-group-qualifier\":{\"general\":\"G\"},\"transaction-qualifier\":{\"general\":\"Q\"}},\"service-date-time\":{\"date-time-of-this-service\":{\"date\":\"20240229\"}}}}\n",
        ),
        ..QUIET
    },
];

#[test]
fn work_goes_on_after_a_refused_message(rt: HostRuntime) -> Result<(), Fail> {
    test_rows::<Illcanon>(&rt, &ROWS)
}
