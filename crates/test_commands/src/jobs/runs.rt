//! Output and results of `run`, row by row.
use super::gives;
use ber_core::{Pieces, Room, ToWrite};
use ill_commands::{Counts, Job, JobOptions, OnRefusal, RunFault, Verdict, run_job, run_with};
use ill_normal::{Cause, NoReports, Profile, Refusal};
use std::alloc::{AllocError, Global};
use std::test::Fail;
use test_support::octets_of;

/// A run. The input is text where `work.hex` says so, and otherwise octets, here in hexadecimal.
struct Row {
    name: &'static str,
    work: JobOptions<'static>,
    input: &'static str,
    output: &'static [u8],
    answer: Result<Verdict, RunFault>,
}

/// A job with octets of standard input, whose name no line begins with.
const SHOW: JobOptions<'static> = JobOptions {
    job: Job::Show,
    profile: Profile::Two,
    hex: false,
    name: "-",
    names_input: false,
    compares: false,
    on_refusal: OnRefusal::Stop,
};

const CHECK: JobOptions<'static> = JobOptions {
    job: Job::Check,
    ..SHOW
};

const DIGEST: JobOptions<'static> = JobOptions {
    job: Job::Digest,
    ..SHOW
};

const CANONICALISE: JobOptions<'static> = JobOptions {
    job: Job::Canonicalise,
    ..SHOW
};

const REFUSED_SECOND: RunFault = RunFault::Refused {
    message: 2,
    refusal: Refusal {
        at: 0,
        cause: Cause::UnexpectedTag,
    },
};

/// An EXPIRED in its normal form, and then in indefinite lengths.
const TWICE: &str =
    "741f301d800102a10aa1031b0147a2031b0151a20ca00a8008323032343032323974803080800102a180a1801b01470000a2801b015100000000a280a080800832303234303232390000000000000000";

/// An OVERDUE.
const OVERDUE: &str =
    "6c2c302a800102a10aa1031b0147a2031b0151a20ca00a80083230323430323239bf290a80083230323430323239";

/// The text that shows it.
const OVERDUE_SHOWN: &[u8] =
    b"message 1 Overdue\nprotocol-version-num = 2\ntransaction-id.transaction-group-qualifier = general \"G\"\ntransaction-id.transaction-qualifier = general \"Q\"\nservice-date-time.date-time-of-this-service.date = 20240229\ndate-due.date-due-field = 20240229\ndate-due.renewable = TRUE\n";

/// The digests are by `sha256sum`.
static ROWS: [Row; 15] = [
    Row {
        name: "check-line-not-normal",
        work: CHECK,
        input: "74803080800102a180a1801b01470000a2801b015100000000a280a080800832303234303232390000000000000000",
        output: b"message 1: Expired, 47 octets, not normal, normal form 33 octets\n",
        answer: Ok(Verdict::NotGood),
    },
    Row {
        name: "check-line-normal",
        work: CHECK,
        input: "741f301d800102a10aa1031b0147a2031b0151a20ca00a80083230323430323239",
        output: b"message 1: Expired, 33 octets, normal\n",
        answer: Ok(Verdict::Good),
    },
    Row {
        name: "show-overdue-as-given",
        work: SHOW,
        input: "6c2f302d800102a10aa1031b0147a2031b0151a20ca00a80083230323430323239bf290d80083230323430323239810107",
        output: OVERDUE_SHOWN,
        answer: Ok(Verdict::Good),
    },
    Row {
        name: "show-overdue-normal-form",
        work: SHOW,
        input: OVERDUE,
        output: OVERDUE_SHOWN,
        answer: Ok(Verdict::Good),
    },
    Row {
        name: "hex-odd-number-of-digits",
        work: JobOptions {
            hex: true,
            ..CANONICALISE
        },
        input: "74 1",
        output: b"",
        answer: Err(RunFault::OddHex),
    },
    Row {
        name: "hex-bad-digit",
        work: JobOptions {
            hex: true,
            ..CANONICALISE
        },
        input: "7G",
        output: b"",
        answer: Err(RunFault::BadHex(1)),
    },
    Row {
        name: "hex-upper-case-with-blanks",
        work: JobOptions {
            hex: true,
            ..CANONICALISE
        },
        input: "74 1F 30 1D 80 01 02\tA1 0A A1 03 1B 01 47\r\nA2 03 1B 01 51 A2 0C A0 0A 80 08 32 30 32 34 30 32 32 39\n",
        output: b"741f301d800102a10aa1031b0147a2031b0151a20ca00a80083230323430323239\n",
        answer: Ok(Verdict::Good),
    },
    Row {
        name: "check-stream-of-two",
        work: CHECK,
        input: "741f301d800102a10aa1031b0147a2031b0151a20ca00a80083230323430323239741f301d800102a10aa1031b0147a2031b0151a20ca00a80083230323430323239",
        output: b"message 1: Expired, 33 octets, normal\nmessage 2: Expired, 33 octets, normal\n",
        answer: Ok(Verdict::Good),
    },
    Row {
        name: "check-stream-with-bad-second",
        work: CHECK,
        input: "741f301d800102a10aa1031b0147a2031b0151a20ca00a8008323032343032323975",
        output: b"message 1: Expired, 33 octets, normal\n",
        answer: Err(REFUSED_SECOND),
    },
    Row {
        name: "hex-stream-of-two",
        work: JobOptions {
            hex: true,
            ..CANONICALISE
        },
        input: "741F301D800102A10AA1031B0147A2031B0151A20CA00A80083230323430323239741F301D800102A10AA1031B0147A2031B0151A20CA00A80083230323430323239",
        output: b"741f301d800102a10aa1031b0147a2031b0151a20ca00a80083230323430323239\n741f301d800102a10aa1031b0147a2031b0151a20ca00a80083230323430323239\n",
        answer: Ok(Verdict::Good),
    },
    Row {
        name: "digests-of-standard-input",
        work: DIGEST,
        input: TWICE,
        output: b"41b0dca84b6db1db587880995cae8f2ae640c5af026d4d9745a5bc56ba11a782  -:1\n41b0dca84b6db1db587880995cae8f2ae640c5af026d4d9745a5bc56ba11a782  -:2\n",
        answer: Ok(Verdict::Good),
    },
    Row {
        name: "digests-name-the-input",
        work: JobOptions {
            name: "a b.ber",
            ..DIGEST
        },
        input: TWICE,
        output: b"41b0dca84b6db1db587880995cae8f2ae640c5af026d4d9745a5bc56ba11a782  a b.ber:1\n41b0dca84b6db1db587880995cae8f2ae640c5af026d4d9745a5bc56ba11a782  a b.ber:2\n",
        answer: Ok(Verdict::Good),
    },
    Row {
        name: "digests-name-the-input-once",
        work: JobOptions {
            name: "a b.ber",
            names_input: true,
            ..DIGEST
        },
        input: TWICE,
        output: b"41b0dca84b6db1db587880995cae8f2ae640c5af026d4d9745a5bc56ba11a782  a b.ber:1\n41b0dca84b6db1db587880995cae8f2ae640c5af026d4d9745a5bc56ba11a782  a b.ber:2\n",
        answer: Ok(Verdict::Good),
    },
    Row {
        name: "lines-begin-with-the-name",
        work: JobOptions {
            name: "a b.ber",
            names_input: true,
            ..CHECK
        },
        input: TWICE,
        output: b"a b.ber: message 1: Expired, 33 octets, normal\na b.ber: message 2: Expired, 47 octets, not normal, normal form 33 octets\n",
        answer: Ok(Verdict::NotGood),
    },
    Row {
        name: "normal-forms-have-no-name",
        work: JobOptions {
            name: "a b.ber",
            names_input: true,
            ..CANONICALISE
        },
        input: TWICE,
        output: b"\x74\x1f\x30\x1d\x80\x01\x02\xa1\x0a\xa1\x03\x1b\x01\x47\xa2\x03\x1b\x01\x51\xa2\x0c\xa0\x0a\x80\x0820240229\x74\x1f\x30\x1d\x80\x01\x02\xa1\x0a\xa1\x03\x1b\x01\x47\xa2\x03\x1b\x01\x51\xa2\x0c\xa0\x0a\x80\x0820240229",
        answer: Ok(Verdict::Good),
    },
];

/// Tells whether a row comes true, with as many octets a call.
fn comes_true(alloc: Global, row: &Row) -> Result<bool, AllocError> {
    let input = if row.work.hex {
        row.input.as_bytes().to_vec(alloc)?
    } else {
        octets_of(alloc, row.input)?
    };
    for per_call in [1, 7, 4096] {
        let mut source = Pieces::new(&input, per_call, None);
        if !gives(alloc, row.work, &mut source, (row.answer, row.output)) {
            return Ok(false);
        }
    }
    Ok(true)
}

#[test]
fn each_run_writes_and_answers_what_it_must(rt: HostRuntime) -> Result<(), Fail> {
    for row in &ROWS {
        assert!(rt; comes_true(rt.alloc(), row)?, "{}", row.name);
    }
    Ok(())
}

/// A job that shows messages of a file, whose name is in their first lines.
const SHOW_NAMED: JobOptions<'static> = JobOptions {
    name: "a.ber",
    names_input: true,
    ..SHOW
};

/// The text of two OVERDUEs, up to their second first line.
const SHOWN: &[u8] =
    b"a.ber: message 1 Overdue\nprotocol-version-num = 2\ntransaction-id.transaction-group-qualifier = general \"G\"\ntransaction-id.transaction-qualifier = general \"Q\"\nservice-date-time.date-time-of-this-service.date = 20240229\ndate-due.date-due-field = 20240229\ndate-due.renewable = TRUE\na.ber: message 2 Overdue\n";

/// Tells whether a sink that breaks after n octets has these.
fn has_the_first(alloc: Global, octets: &[u8], n: usize) -> bool {
    let mut source = Pieces::new(octets, 4096, None);
    let mut sink: Room<512> = Room::new(512, Some(n));
    run_with(alloc, SHOW_NAMED, &mut source, &mut sink) == Err(RunFault::WriteFault(n as u128))
        && SHOWN.get(..n) == Some(sink.octets())
}

#[test]
fn a_sink_that_breaks_has_the_front_of_the_lines(rt: HostRuntime) -> Result<(), Fail> {
    let mut octets = octets_of(rt.alloc(), OVERDUE)?;
    octets.extend_from_slice(&octets_of(rt.alloc(), OVERDUE)?)?;
    for n in 0..=SHOWN.len() {
        assert!(rt; has_the_first(rt.alloc(), &octets, n), "{n}");
    }
    Ok(())
}

const MAX_HEX_TEXT: usize = 4_194_304;

/// Tells whether hexadecimal text of this many blanks has this result, and nothing is written.
fn answers(
    alloc: Global,
    blanks: usize,
    answer: Result<Verdict, RunFault>,
) -> Result<bool, AllocError> {
    let text = vec![in alloc; b' '; blanks]?;
    let work = JobOptions {
        hex: true,
        ..CANONICALISE
    };
    Ok(gives(
        alloc,
        work,
        &mut Pieces::new(&text, 65_536, None),
        (answer, b""),
    ))
}

#[test]
fn hexadecimal_text_has_a_limit(rt: HostRuntime) -> Result<(), Fail> {
    assert!(rt;
        answers(rt.alloc(), MAX_HEX_TEXT, Ok(Verdict::Good))?,
        "hex-text-of-blanks"
    );
    assert!(rt;
        answers(rt.alloc(), MAX_HEX_TEXT + 1, Err(RunFault::HexTooLong))?,
        "hex-text-too-long"
    );
    Ok(())
}

/// Jobs on TWICE, whose messages have 33 octets in normal form and 47 that are not, and how many of them count as good.
static COUNTED: [(JobOptions<'static>, u32); 8] = [
    (SHOW, 2),
    (
        JobOptions {
            compares: true,
            ..SHOW
        },
        1,
    ),
    (CHECK, 1),
    (DIGEST, 2),
    (
        JobOptions {
            compares: true,
            ..DIGEST
        },
        1,
    ),
    (CANONICALISE, 2),
    (
        JobOptions {
            compares: true,
            ..CANONICALISE
        },
        1,
    ),
    (
        JobOptions {
            job: Job::Json,
            ..SHOW
        },
        1,
    ),
];

/// Tells whether the messages are counted so.
fn counts(alloc: Global, octets: &[u8], work: JobOptions<'_>, good: u32) -> bool {
    let mut source = Pieces::new(octets, 4096, None);
    let mut written = Vec::new(alloc);
    let mut sink = ToWrite::new(&mut written);
    let end = run_job(alloc, work, &mut source, &mut sink, &mut NoReports);
    let counts = Counts {
        messages: 2,
        refused: 0,
        good,
        octets: 80,
        written: written.len() as u128,
    };
    end.counts == counts && end.fault.is_none()
}

#[test]
fn messages_are_counted(rt: HostRuntime) -> Result<(), Fail> {
    let octets = octets_of(rt.alloc(), TWICE)?;
    for (work, good) in &COUNTED {
        assert!(rt; counts(rt.alloc(), &octets, *work, *good), "{:?}", work.job);
    }
    Ok(())
}
