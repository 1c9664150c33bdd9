//! Lines of `refused_json` with the place in words, row by row.
use ill_commands::{Job, JobOptions, RefusalReport, refused_json};
use ill_dump::place_of_refusal;
use ill_normal::{Cause, Failure, Refusal, decode_normal};
use ill_schema::Profile;
use std::alloc::Global;
use std::test::Fail;
use test_support::octets_of;

/// The octets of a message that is refused, its profile, the name of its file, how many octets it has, where that is known, and the line of it
/// as message 7 after 100 octets.
const ROWS: [(&str, Profile, Option<&str>, Option<u64>, &str); 15] = [
    // nothing in it
    (
        "7400",
        Profile::Two,
        None,
        Some(2),
        "{\"number\":7,\"offset\":100,\"octets\":2,\"apdu\":\"Expired\",\"refused\":{\"cause\":\"Missing\",\"offset\":2,\"kind\":\"invalid\",\"clause\":\"X.690, 8.9.3 and 8.14, with the types of ISO 10161-1\",\"part\":\"Expired.protocol-version-num\",\"path\":\"Expired\",\"found\":\"the end of the element\",\"due\":[\"[UNIVERSAL 16] SEQUENCE\",\"[0] protocol-version-num\"]}}\n",
    ),
    // an end that isn't known, and a name with a line end and a letter beyond ASCII
    (
        "7401",
        Profile::Two,
        Some("a\n\u{e9}"),
        None,
        "{\"file\":\"a\\n\\u00e9\",\"number\":7,\"offset\":100,\"apdu\":\"Expired\",\"refused\":{\"cause\":\"Truncated\",\"offset\":2,\"kind\":\"invalid\",\"clause\":\"X.690, 8.1.1\",\"path\":\"Expired\",\"found\":\"the end of the input\"}}\n",
    ),
    // an extension, which the module has
    (
        "742d302b800102a10aa1031b0147a2031b0151a20ca00a80083230323430323239bf310b3009800101a20430020500",
        Profile::Two,
        None,
        Some(47),
        "{\"number\":7,\"offset\":100,\"octets\":47,\"apdu\":\"Expired\",\"refused\":{\"cause\":\"LeftOut\",\"offset\":33,\"kind\":\"not read\",\"clause\":\"limit of illcanon\",\"part\":\"Expired.expired-extensions\",\"path\":\"Expired.expired-extensions\",\"found\":\"[49] constructed: bf 31\"}}\n",
    ),
    // the extension is primitive, which it isn't in the module
    (
        "7422 3020 800102 a10aa1031b0147a2031b0151 a20ca00a80083230323430323239 9f3100",
        Profile::Two,
        None,
        Some(36),
        "{\"number\":7,\"offset\":100,\"octets\":36,\"apdu\":\"Expired\",\"refused\":{\"cause\":\"LeftOut\",\"offset\":33,\"kind\":\"not read\",\"clause\":\"limit of illcanon\",\"part\":\"Expired.expired-extensions\",\"path\":\"Expired.expired-extensions\",\"found\":\"[49] primitive: 9f 31\"}}\n",
    ),
    // an APDU that the module has, with nothing in it
    (
        "6200",
        Profile::Two,
        None,
        Some(2),
        "{\"number\":7,\"offset\":100,\"octets\":2,\"apdu\":\"Forward-Notification\",\"refused\":{\"cause\":\"LeftOut\",\"offset\":0,\"kind\":\"not read\",\"clause\":\"limit of illcanon\",\"part\":\"ILL-APDU.Forward-Notification\",\"path\":\"Forward-Notification\",\"found\":\"[APPLICATION 2] constructed: 62\"}}\n",
    ),
    // the same in the module profile
    (
        "6200",
        Profile::Module,
        None,
        Some(2),
        "{\"number\":7,\"offset\":100,\"octets\":2,\"apdu\":\"Forward-Notification\",\"refused\":{\"cause\":\"Missing\",\"offset\":2,\"kind\":\"invalid\",\"clause\":\"X.690, 8.9.3 and 8.14, with the types of ISO 10161-1\",\"part\":\"Forward-Notification.protocol-version-num\",\"path\":\"Forward-Notification\",\"found\":\"the end of the element\",\"due\":[\"[UNIVERSAL 16] SEQUENCE\",\"[0] protocol-version-num\"]}}\n",
    ),
    // a number of nine octets, which neither profile reads
    (
        "740d300b8009010000000000000000",
        Profile::Two,
        None,
        Some(15),
        "{\"number\":7,\"offset\":100,\"octets\":15,\"apdu\":\"Expired\",\"refused\":{\"cause\":\"IntegerTooLong\",\"offset\":4,\"kind\":\"not read\",\"clause\":\"limit of illcanon\",\"path\":\"Expired.protocol-version-num\",\"found\":\"[0] primitive: 80 09 01 00 00 00 00 00 00 00 00\"}}\n",
    ),
    (
        "740d300b8009010000000000000000",
        Profile::Module,
        None,
        Some(15),
        "{\"number\":7,\"offset\":100,\"octets\":15,\"apdu\":\"Expired\",\"refused\":{\"cause\":\"IntegerTooLong\",\"offset\":4,\"kind\":\"not read\",\"clause\":\"limit of illcanon\",\"path\":\"Expired.protocol-version-num\",\"found\":\"[0] primitive: 80 09 01 00 00 00 00 00 00 00 00\"}}\n",
    ),
    // an escape sequence in a GeneralString
    (
        "7420 301e 800102 a10ba1041b021b47a2031b0151 a20ca00a80083230323430323239",
        Profile::Two,
        None,
        Some(34),
        "{\"number\":7,\"offset\":100,\"octets\":34,\"apdu\":\"Expired\",\"refused\":{\"cause\":\"BadText\",\"offset\":11,\"kind\":\"not read\",\"clause\":\"X.690, 8.23, and X.680, 41\",\"path\":\"Expired.transaction-id.transaction-group-qualifier\",\"found\":\"[UNIVERSAL 27] GeneralString primitive: 1b 02 1b 47\"}}\n",
    ),
    // a number that is constructed
    (
        "7402a000",
        Profile::Two,
        None,
        Some(4),
        "{\"number\":7,\"offset\":100,\"octets\":4,\"apdu\":\"Expired\",\"refused\":{\"cause\":\"WrongForm\",\"offset\":2,\"kind\":\"invalid\",\"clause\":\"X.690, 8.2.1, 8.3.1, 8.8.1, 8.9.1, 8.10.1, 8.14 and 8.19.1\",\"path\":\"Expired.protocol-version-num\",\"found\":\"[0] constructed: a0\",\"due\":[\"[0] primitive: 80\"]}}\n",
    ),
    // a tag that is due nowhere, and one of no APDU
    (
        "0500",
        Profile::Two,
        None,
        Some(2),
        "{\"number\":7,\"offset\":100,\"octets\":2,\"refused\":{\"cause\":\"UnexpectedTag\",\"offset\":0,\"kind\":\"no message\",\"clause\":\"X.690, 8.9.2, 8.10.2, 8.13 and 8.14, with the types of ISO 10161-1\",\"found\":\"[UNIVERSAL 5] NULL primitive: 05\"}}\n",
    ),
    (
        "7f1f00",
        Profile::Two,
        None,
        Some(3),
        "{\"number\":7,\"offset\":100,\"octets\":3,\"refused\":{\"cause\":\"UnexpectedTag\",\"offset\":0,\"kind\":\"no message\",\"clause\":\"X.690, 8.9.2, 8.10.2, 8.13 and 8.14, with the types of ISO 10161-1\",\"found\":\"[APPLICATION 31] constructed: 7f 1f\"}}\n",
    ),
    // `From:`, which begins with the primitive form of [APPLICATION 6], and `hello`, which begins with [APPLICATION 8]
    (
        "46726f6d3a",
        Profile::Two,
        None,
        None,
        "{\"number\":7,\"offset\":100,\"refused\":{\"cause\":\"WrongForm\",\"offset\":0,\"kind\":\"no message\",\"clause\":\"X.690, 8.2.1, 8.3.1, 8.8.1, 8.9.1, 8.10.1, 8.14 and 8.19.1\",\"found\":\"[APPLICATION 6] primitive: 46\"}}\n",
    ),
    (
        "68656c6c6f",
        Profile::Module,
        None,
        None,
        "{\"number\":7,\"offset\":100,\"refused\":{\"cause\":\"UnexpectedTag\",\"offset\":2,\"kind\":\"no message\",\"clause\":\"X.690, 8.9.2, 8.10.2, 8.13 and 8.14, with the types of ISO 10161-1\",\"found\":\"[APPLICATION 12] constructed: 6c\"}}\n",
    ),
    // in the module profile, where a delivery service has two forms
    (
        "642f302d 800102 a10aa1031b0147a2031b0151 a20ca00a80083230323430323239 9f1f0101 bf2009a1073005 800101 0500",
        Profile::Module,
        None,
        Some(49),
        "{\"number\":7,\"offset\":100,\"octets\":49,\"apdu\":\"ILL-Answer\",\"refused\":{\"cause\":\"UnexpectedTag\",\"offset\":47,\"kind\":\"invalid\",\"clause\":\"X.690, 8.9.2, 8.10.2, 8.13 and 8.14, with the types of ISO 10161-1\",\"path\":\"ILL-Answer.results-explanation.conditional-results\",\"found\":\"[UNIVERSAL 5] NULL primitive: 05\",\"due\":[\"[1] date-for-reply\",\"[2] location-list\",\"[7] proposed-delivery-service.physical-delivery\",\"[50] proposed-delivery-service.electronic-delivery\",\"the end of the element\"]}}\n",
    ),
];

/// An EXPIRED, and its line were its normal form too long: the refusal is of the whole message, and has no place in words.
const EXPIRED: &str = "741f301d800102a10aa1031b0147a2031b0151a20ca00a80083230323430323239";

const TOO_LONG: &str =
    "{\"number\":7,\"offset\":100,\"octets\":33,\"apdu\":\"Expired\",\"refused\":{\"cause\":\"NormalTooLong\",\"offset\":0,\"kind\":\"not read\",\"clause\":\"limit of illcanon\"}}\n";

/// The refusal of the message that the octets are.
fn refusal_of(alloc: Global, profile: Profile, octets: &[u8]) -> Result<Refusal, Fail> {
    match decode_normal(alloc, profile, octets) {
        Err(Failure::Refused(refusal)) => Ok(refusal),
        _ => Err(Fail::from("not refused")),
    }
}

/// Tells whether a message of these octets that is refused so, in a file of this name, has this line.
fn has_line(
    alloc: Global,
    profile: Profile,
    file: Option<&str>,
    octets: &[u8],
    (refusal, count): (Refusal, Option<u64>),
    wanted: &str,
) -> Result<bool, Fail> {
    let report = RefusalReport {
        message: 7,
        offset: 100,
        refusal,
        octets: count,
    };
    let work = JobOptions {
        profile,
        name: file.unwrap_or("-"),
        names_input: file.is_some(),
        ..JobOptions::new(Job::CheckJson, false)
    };
    let place = place_of_refusal(alloc, profile, octets, refusal)?;
    let refused = refused_json(alloc, work, report, octets, &place, Vec::new(alloc))?;
    Ok(refused.line.as_slice() == wanted.as_bytes())
}

#[test]
fn each_line_of_a_refused_message(rt: HostRuntime) -> Result<(), Fail> {
    let alloc = rt.alloc();
    for (input, profile, file, count, wanted) in &ROWS {
        let octets = octets_of(alloc, input)?;
        let refusal = refusal_of(alloc, *profile, &octets)?;
        let found = has_line(alloc, *profile, *file, &octets, (refusal, *count), wanted)?;
        assert!(rt; found, "{input}");
    }
    Ok(())
}

#[test]
fn a_normal_form_that_is_too_long_has_no_place(rt: HostRuntime) -> Result<(), Fail> {
    let alloc = rt.alloc();
    let octets = octets_of(alloc, EXPIRED)?;
    let refusal = Refusal {
        at: 0,
        cause: Cause::NormalTooLong,
    };
    let found = has_line(
        alloc,
        Profile::Two,
        None,
        &octets,
        (refusal, Some(33)),
        TOO_LONG,
    )?;
    assert!(rt; found);
    Ok(())
}
