//! Jobs with messages of the module profile, row by row, and of the same messages in profile 2. The digests are by `sha256sum`.
use super::gives;
use ber_core::{Pieces, ToWrite};
use ill_commands::{
    Job, JobOptions, LineJob, RunFault, Verdict, run_as, run_lines_as, run_same_as,
};
use ill_normal::{Cause, NodeId, PartId, Profile, Refusal};
use std::alloc::{AllocError, Global};
use std::test::Fail;
use test_support::octets_of;

/// An EXPIRED with an extension in indefinite lengths, whose default is written.
const SPELLED: &str =
    "74343032800102a10aa1031b0147a2031b0151a20ca00a80083230323430323239bf31123010800101810100a2803080050000000000";

/// Its normal form.
const EXTENDED: &str =
    "742d302b800102a10aa1031b0147a2031b0151a20ca00a80083230323430323239bf310b3009800101a20430020500";

/// A FORWARD-NOTIFICATION.
const FORWARDED: &str =
    "622e302c800102a10aa1031b0147a2031b0151a20ca00a80083230323430323239a400b800b900bf30031b014ebf3100";

/// A RETURNED with an EXTERNAL of five bits, and the same with unused bits that are not 0.
const BITS: &str =
    "6a353033800102a10aa1031b0147a2031b0151a20ca00a80083230323430323239b1092807020105820203f89f25083230323430323239";

const UNUSED_BITS: &str =
    "6a353033800102a10aa1031b0147a2031b0151a20ca00a80083230323430323239b1092807020105820203ff9f25083230323430323239";

/// An EXPIRED with a foreign tree of 21 levels.
const DEEP: &str =
    "74533051800102a10aa1031b0147a2031b0151a20ca00a80083230323430323239bf3131302f800101a22a30283026302430223020301e301c301a30183016301430123010300e300c300a30083006300430020500";

/// A job in a profile, its input, its output, and its result.
struct Row {
    name: &'static str,
    job: Job,
    profile: Profile,
    input: &'static str,
    output: &'static str,
    answer: Result<Verdict, RunFault>,
}

static ROWS: [Row; 9] = [
    Row {
        name: "extension-indefinite",
        job: Job::Check,
        profile: Profile::Module,
        input: SPELLED,
        output: "message 1: Expired, 54 octets, not normal, normal form 47 octets\n",
        answer: Ok(Verdict::NotGood),
    },
    Row {
        name: "extension-with-sequence",
        job: Job::Check,
        profile: Profile::Module,
        input: EXTENDED,
        output: "message 1: Expired, 47 octets, normal\n",
        answer: Ok(Verdict::Good),
    },
    Row {
        name: "extension-with-sequence-in-profile-2",
        job: Job::Check,
        profile: Profile::Two,
        input: EXTENDED,
        output: "",
        answer: Err(RunFault::Refused {
            message: 1,
            refusal: Refusal {
                at: 33,
                cause: Cause::LeftOut(EXTENSIONS),
            },
        }),
    },
    Row {
        name: "forward-notification",
        job: Job::Check,
        profile: Profile::Module,
        input: FORWARDED,
        output: "message 1: Forward-Notification, 48 octets, normal\n",
        answer: Ok(Verdict::Good),
    },
    Row {
        name: "forward-notification-in-profile-2",
        job: Job::Check,
        profile: Profile::Two,
        input: FORWARDED,
        output: "",
        answer: Err(RunFault::Refused {
            message: 1,
            refusal: Refusal {
                at: 0,
                cause: Cause::LeftOut(FORWARD_NOTIFICATION),
            },
        }),
    },
    Row {
        name: "foreign-21-levels",
        job: Job::Canonicalise,
        profile: Profile::Module,
        input: DEEP,
        output: "",
        answer: Err(RunFault::Refused {
            message: 1,
            refusal: Refusal {
                at: 83,
                cause: Cause::TooDeep,
            },
        }),
    },
    Row {
        name: "digest-of-an-extension",
        job: Job::Digest,
        profile: Profile::Module,
        input: SPELLED,
        output: "c0416c93c1329ed289703e161abcb058afde1a5b1b015fd2c63ddcea55f2b107  -:1\n",
        answer: Ok(Verdict::Good),
    },
    Row {
        name: "extension-shown",
        job: Job::Show,
        profile: Profile::Module,
        input: SPELLED,
        output: "message 1 Expired\nprotocol-version-num = 2\ntransaction-id.transaction-group-qualifier = general \"G\"\ntransaction-id.transaction-qualifier = general \"Q\"\nservice-date-time.date-time-of-this-service.date = 20240229\nexpired-extensions[0].identifier = 1\nexpired-extensions[0].critical = FALSE\nexpired-extensions[0].item = foreign 30{05:\"\"}\n",
        answer: Ok(Verdict::Good),
    },
    Row {
        name: "extension-as-json",
        job: Job::Json,
        profile: Profile::Module,
        input: EXTENDED,
        output: "{\"number\":1,\"offset\":0,\"octets\":47,\"apdu\":\"Expired\",\"profile\":\"module\",\"normal\":true,\"value\":{\"protocol-version-num\":2,\"transaction-id\":{\"transaction-group-qualifier\":{\"general\":\"G\"},\"transaction-qualifier\":{\"general\":\"Q\"}},\"service-date-time\":{\"date-time-of-this-service\":{\"date\":\"20240229\"}},\"expired-extensions\":[{\"identifier\":1,\"critical\":false,\"item\":{\"foreign\":\"30020500\"}}]}}\n",
        answer: Ok(Verdict::Good),
    },
];

const EXTENSIONS: PartId = PartId {
    node: NodeId::EXPIRED,
    row: 5,
};

const FORWARD_NOTIFICATION: PartId = PartId {
    node: NodeId::ILL_APDU,
    row: 1,
};

/// Tells whether a row comes true, with as many octets a call.
fn comes_true(alloc: Global, row: &Row) -> Result<bool, AllocError> {
    let input = octets_of(alloc, row.input)?;
    let work = JobOptions {
        profile: row.profile,
        ..JobOptions::new(row.job, false)
    };
    for per_call in [1, 7, 4096] {
        let mut source = Pieces::new(&input, per_call, None);
        if !gives(
            alloc,
            work,
            &mut source,
            (row.answer, row.output.as_bytes()),
        ) {
            return Ok(false);
        }
    }
    Ok(true)
}

#[test]
fn each_profile_has_its_results(rt: HostRuntime) -> Result<(), Fail> {
    for row in &ROWS {
        assert!(rt; comes_true(rt.alloc(), row)?, "{}", row.name);
    }
    Ok(())
}

#[test]
fn normal_forms_are_those_of_the_module(rt: HostRuntime) -> Result<(), Fail> {
    let alloc = rt.alloc();
    for (spelled, normal) in [(SPELLED, EXTENDED), (UNUSED_BITS, BITS)] {
        let (input, wanted) = (octets_of(alloc, spelled)?, octets_of(alloc, normal)?);
        let mut source = Pieces::new(&input, 3, None);
        let mut written = Vec::new(alloc);
        let mut sink = ToWrite::new(&mut written);
        let (profile, job) = (Profile::Module, Job::Canonicalise);
        let found = run_as(alloc, profile, job, false, &mut source, &mut sink);
        assert!(rt; found == Ok(Verdict::Good), "{spelled}");
        assert!(rt; written == wanted, "{spelled}");
    }
    Ok(())
}

#[test]
fn spellings_of_the_module_are_the_same(rt: HostRuntime) -> Result<(), Fail> {
    let alloc = rt.alloc();
    for (first, second, verdict) in [
        (SPELLED, EXTENDED, Verdict::Good),
        (UNUSED_BITS, BITS, Verdict::Good),
        (EXTENDED, BITS, Verdict::NotGood),
    ] {
        let (first, second) = (octets_of(alloc, first)?, octets_of(alloc, second)?);
        let mut one = Pieces::new(&first, 64, None);
        let mut other = Pieces::new(&second, 64, None);
        let mut written = Vec::new(alloc);
        let mut sink = ToWrite::new(&mut written);
        let profile = Profile::Module;
        let found = run_same_as(alloc, profile, false, &mut one, &mut other, &mut sink);
        assert!(rt; found == Ok(verdict), "{verdict:?}");
    }
    Ok(())
}

/// A line in a profile, and its result.
struct LineRow {
    profile: Profile,
    job: LineJob,
    input: &'static str,
    result: &'static str,
}

static LINES: [LineRow; 3] = [
    LineRow {
        profile: Profile::Module,
        job: LineJob::Canonicalise,
        input: SPELLED,
        result: EXTENDED,
    },
    LineRow {
        profile: Profile::Module,
        job: LineJob::Check,
        input: FORWARDED,
        result: "Forward-Notification, 48 octets, normal",
    },
    LineRow {
        profile: Profile::Two,
        job: LineJob::Check,
        input: EXTENDED,
        result: "refused at 33: LeftOut Expired.expired-extensions",
    },
];

/// Tells whether a line has its result, and is good in the module profile alone.
fn has_result(alloc: Global, row: &LineRow) -> Result<bool, AllocError> {
    let mut source = Pieces::new(row.input.as_bytes(), 64, None);
    let mut written = Vec::new(alloc);
    let mut sink = ToWrite::new(&mut written);
    let found = run_lines_as(alloc, row.profile, row.job, &mut source, &mut sink);
    let mut wanted = row.result.as_bytes().to_vec(alloc)?;
    wanted.push(b'\n')?;
    Ok(found == Ok(row.profile == Profile::Module) && written == wanted)
}

#[test]
fn lines_are_read_in_a_profile(rt: HostRuntime) -> Result<(), Fail> {
    for row in &LINES {
        assert!(rt; has_result(rt.alloc(), row)?, "{}", row.result);
    }
    Ok(())
}
