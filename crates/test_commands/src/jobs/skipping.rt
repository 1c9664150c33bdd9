//! Output and reports of jobs that go on after a refused message, row by row.
use ber_core::{Pieces, ToWrite};
use ill_commands::{
    Counts, Job, JobOptions, OnRefusal, RefusalReport, ReportRefusals, RunFault, run_job,
};
use ill_normal::{Cause, Refusal};
use std::alloc::Global;
use std::test::Fail;
use test_support::octets_of;

/// The report.
#[derive(Drop)]
struct Reported {
    reports: Vec<RefusalReport>,
}

impl ReportRefusals for Reported {
    ghost use Rattle.std.specs.Prelude.{None};

    ghost reported = { λ _. None };

    fn report(&mut self, report: RefusalReport, octets: &[u8]) -> Result<(), RunFault> {
        let _ = octets;
        self.reports.push(report).map_err(|_| RunFault::NotReported)
    }
}

/// A run. The input is text where `hex` says so, and otherwise octets, here in hexadecimal. In it the second message is a NULL, if it is
/// read.
struct Row {
    name: &'static str,
    job: Job,
    hex: bool,
    input: &'static str,
    output: &'static str,
    answer: Result<Counts, RunFault>,
}

/// An EXPIRED in normal form, a NULL, and the EXPIRED with indefinite lengths.
const BETWEEN: &str =
    "741f301d800102a10aa1031b0147a2031b0151a20ca00a80083230323430323239050074803080800102a180a1801b01470000a2801b015100000000a280a080800832303234303232390000000000000000";

static ROWS: [Row; 8] = [
    Row {
        name: "check",
        job: Job::Check,
        hex: false,
        input: BETWEEN,
        output: "message 1: Expired, 33 octets, normal\nmessage 3: Expired, 47 octets, not normal, normal form 33 octets\n",
        answer: Ok(Counts {
            messages: 3,
            refused: 1,
            good: 1,
            octets: 82,
            written: 103,
        }),
    },
    Row {
        name: "check-text",
        job: Job::Check,
        hex: true,
        input: BETWEEN,
        output: "message 1: Expired, 33 octets, normal\nmessage 3: Expired, 47 octets, not normal, normal form 33 octets\n",
        answer: Ok(Counts {
            messages: 3,
            refused: 1,
            good: 1,
            octets: 82,
            written: 103,
        }),
    },
    Row {
        name: "canonicalise-text",
        job: Job::Canonicalise,
        hex: true,
        input: BETWEEN,
        output: "741f301d800102a10aa1031b0147a2031b0151a20ca00a80083230323430323239\n741f301d800102a10aa1031b0147a2031b0151a20ca00a80083230323430323239\n",
        answer: Ok(Counts {
            messages: 3,
            refused: 1,
            good: 2,
            octets: 82,
            written: 134,
        }),
    },
    Row {
        name: "show",
        job: Job::Show,
        hex: false,
        input: BETWEEN,
        output: "message 1 Expired\nprotocol-version-num = 2\ntransaction-id.transaction-group-qualifier = general \"G\"\ntransaction-id.transaction-qualifier = general \"Q\"\nservice-date-time.date-time-of-this-service.date = 20240229\nmessage 3 Expired\nprotocol-version-num = 2\ntransaction-id.transaction-group-qualifier = general \"G\"\ntransaction-id.transaction-qualifier = general \"Q\"\nservice-date-time.date-time-of-this-service.date = 20240229\n",
        answer: Ok(Counts {
            messages: 3,
            refused: 1,
            good: 2,
            octets: 82,
            written: 422,
        }),
    },
    Row {
        name: "check-json",
        job: Job::CheckJson,
        hex: false,
        input: BETWEEN,
        output: "{\"number\":1,\"offset\":0,\"octets\":33,\"apdu\":\"Expired\",\"normal\":true}\n{\"number\":3,\"offset\":35,\"octets\":47,\"apdu\":\"Expired\",\"normal\":false}\n",
        answer: Ok(Counts {
            messages: 3,
            refused: 1,
            good: 1,
            octets: 82,
            written: 136,
        }),
    },
    Row {
        name: "digest-json-text",
        job: Job::DigestJson,
        hex: true,
        input: BETWEEN,
        output: "{\"number\":1,\"offset\":0,\"octets\":33,\"apdu\":\"Expired\",\"normal\":true,\"digest\":\"41b0dca84b6db1db587880995cae8f2ae640c5af026d4d9745a5bc56ba11a782\"}\n{\"number\":3,\"offset\":35,\"octets\":47,\"apdu\":\"Expired\",\"normal\":false,\"digest\":\"41b0dca84b6db1db587880995cae8f2ae640c5af026d4d9745a5bc56ba11a782\"}\n",
        answer: Ok(Counts {
            messages: 3,
            refused: 1,
            good: 1,
            octets: 82,
            written: 288,
        }),
    },
    Row {
        name: "odd-text",
        job: Job::Check,
        hex: true,
        input: "05 0",
        output: "",
        answer: Err(RunFault::OddHex),
    },
    Row {
        name: "bad-digit",
        job: Job::Check,
        hex: true,
        input: "05 0G",
        output: "",
        answer: Err(RunFault::BadHex(3)),
    },
];

/// The report of the second message.
const NULL: RefusalReport = RefusalReport {
    message: 2,
    offset: 33,
    refusal: Refusal {
        at: 0,
        cause: Cause::UnexpectedTag,
    },
    octets: Some(2),
};

/// Tells whether a row comes true of these octets. The second message is reported, if all are read.
fn comes_true(alloc: Global, row: &Row, octets: &[u8]) -> bool {
    let mut source = Pieces::new(octets, 64, None);
    let mut written = Vec::new(alloc);
    let mut reported = Reported {
        reports: Vec::new(alloc),
    };
    let work = JobOptions {
        on_refusal: OnRefusal::GoOn,
        ..JobOptions::new(row.job, row.hex)
    };
    let end = run_job(
        alloc,
        work,
        &mut source,
        &mut ToWrite::new(&mut written),
        &mut reported,
    );
    let answer = match end.fault {
        None => Ok(end.counts),
        Some(fault) => Err(fault),
    };
    answer == row.answer
        && written.as_slice() == row.output.as_bytes()
        && match answer {
            Ok(_) => reported.reports.as_slice() == [NULL].as_slice(),
            Err(_) => reported.reports.is_empty(),
        }
}

#[test]
fn refused_messages_are_reported_and_passed_over(rt: HostRuntime) -> Result<(), Fail> {
    for row in &ROWS {
        let octets = if row.hex {
            row.input.as_bytes().to_vec(rt.alloc())?
        } else {
            octets_of(rt.alloc(), row.input)?
        };
        assert!(rt; comes_true(rt.alloc(), row, &octets), "{}", row.name);
    }
    Ok(())
}
