//! Texts of `show_text`.
use ber_core::Pieces;
use ill_normal::decode;
use ill_read::{Outline, read_outline};
use ill_schema::Profile;
use ill_text::{Text, show_text};
use std::alloc::Global;
use std::test::Fail;
use test_support::{message, octets_of};

/// The whole text, or one of its lines.
enum Wanted {
    Text(&'static str),
    Line(&'static str),
}

static ROWS: [(&str, &str, Wanted); 7] = [
    (
        "expired-shown-value",
        "741f301d800102a10aa1031b0147a2031b0151a20ca00a80083230323430323239",
        Wanted::Text(
            "message 1 Expired\nprotocol-version-num = 2\ntransaction-id.transaction-group-qualifier = general \"G\"\ntransaction-id.transaction-qualifier = general \"Q\"\nservice-date-time.date-time-of-this-service.date = 20240229\n",
        ),
    ),
    (
        "requester-id-institution-symbol-shown",
        "74283026800102a10aa1031b0147a2031b0151a20ca00a80083230323430323239a307a005a1031b014c",
        Wanted::Text(
            "message 1 Expired\nprotocol-version-num = 2\ntransaction-id.transaction-group-qualifier = general \"G\"\ntransaction-id.transaction-qualifier = general \"Q\"\nservice-date-time.date-time-of-this-service.date = 20240229\nrequester-id.person-or-institution-symbol.institution-symbol = general \"L\"\n",
        ),
    ),
    (
        "show-empty-list",
        "6131302f800102a10aa1031b0147a2031b0151a20ca00a80083230323430323239a900ab0c800100810100820101830101b000",
        Wanted::Line("ill-service-type = []"),
    ),
    (
        "show-accent-octet",
        "741f301d800102a10aa1031b01e9a2031b0151a20ca00a80083230323430323239",
        Wanted::Line("transaction-id.transaction-group-qualifier = general \"\\xe9\""),
    ),
    (
        "show-request",
        "61343032800102a10aa1031b0147a2031b0151a20ca00a80083230323430323239a9030a0101ab0c800100810100820101830101b000",
        Wanted::Text(
            "message 1 ILL-Request\nprotocol-version-num = 2\ntransaction-id.transaction-group-qualifier = general \"G\"\ntransaction-id.transaction-qualifier = general \"Q\"\nservice-date-time.date-time-of-this-service.date = 20240229\ntransaction-type = 1 (simple)\nill-service-type[0] = 1 (loan)\nrequester-optional-messages.can-send-received = FALSE\nrequester-optional-messages.can-send-returned = FALSE\nrequester-optional-messages.requester-shipped = 1\nrequester-optional-messages.requester-checked-in = 1\nplace-on-hold = 3 (according-to-responder-policy)\nitem-id = {}\nretry-flag = FALSE\nforward-flag = FALSE\n",
        ),
    ),
    (
        "show-answer",
        "64333031800102a10aa1031b0147a2031b0151a20ca00a800832303234303232399f1f0107bf200da70b3009a0071b0531322e3530",
        Wanted::Text(
            "message 1 ILL-Answer\nprotocol-version-num = 2\ntransaction-id.transaction-group-qualifier = general \"G\"\ntransaction-id.transaction-qualifier = general \"Q\"\nservice-date-time.date-time-of-this-service.date = 20240229\ntransaction-results = 7 (estimate)\nresults-explanation.estimate-results.cost-estimate = general \"12.50\"\n",
        ),
    ),
    (
        "answer-unfilled-with-location",
        "643a3038800102a10aa1031b0147a2031b0151a20ca00a800832303234303232399f1f0103bf2014a3123010800101a10b3009a007a005a1031b014c",
        Wanted::Text(
            "message 1 ILL-Answer\nprotocol-version-num = 2\ntransaction-id.transaction-group-qualifier = general \"G\"\ntransaction-id.transaction-qualifier = general \"Q\"\nservice-date-time.date-time-of-this-service.date = 20240229\ntransaction-results = 3 (unfilled)\nresults-explanation.unfilled-results.reason-unfilled = 1\nresults-explanation.unfilled-results.location-list[0].location-id.person-or-institution-symbol.institution-symbol = general \"L\"\n",
        ),
    ),
];

/// Messages of the module profile.
static MODULE_ROWS: [(&str, &str, Wanted); 3] = [
    (
        "externals-shown",
        "6a6f306d800102a10aa1031b0147a2031b0151a20ca00a80083230323430323239b143281a06072a8648ce13050a02010507044d41524381065831323334352812a010300e0201051b03612262a002050031002811060b69ffffffffffffffffff7f820203f89f25083230323430323239",
        Wanted::Text(
            "message 1 Returned\nprotocol-version-num = 2\ntransaction-id.transaction-group-qualifier = general \"G\"\ntransaction-id.transaction-qualifier = general \"Q\"\nservice-date-time.date-time-of-this-service.date = 20240229\nsupplemental-item-description[0].direct-reference = 1.2.840.10003.5.10\nsupplemental-item-description[0].indirect-reference = 5\nsupplemental-item-description[0].data-value-descriptor = descriptor \"MARC\"\nsupplemental-item-description[0].encoding.octet-aligned = octets \"X12345\"\nsupplemental-item-description[1].encoding.single-asn1-type = foreign 30{02:05 1b:\"a\\\"b\" a0{05:\"\"} 31{}}\nsupplemental-item-description[2].direct-reference = oid 69ffffffffffffffffff7f\nsupplemental-item-description[2].encoding.arbitrary = bits 5 f8\ndate-returned = 20240229\n",
        ),
    ),
    (
        "damaged-whole-shown",
        "70233021800102a10aa1031b0147a2031b0151a20ca00a80083230323430323239a5028100",
        Wanted::Text(
            "message 1 Damaged\nprotocol-version-num = 2\ntransaction-id.transaction-group-qualifier = general \"G\"\ntransaction-id.transaction-qualifier = general \"Q\"\nservice-date-time.date-time-of-this-service.date = 20240229\ndamaged-details.damaged-portion.complete-document = NULL\n",
        ),
    ),
    (
        "extension-shown",
        "742d302b800102a10aa1031b0147a2031b0151a20ca00a80083230323430323239bf310b3009800101a20430020500",
        Wanted::Text(
            "message 1 Expired\nprotocol-version-num = 2\ntransaction-id.transaction-group-qualifier = general \"G\"\ntransaction-id.transaction-qualifier = general \"Q\"\nservice-date-time.date-time-of-this-service.date = 20240229\nexpired-extensions[0].identifier = 1\nexpired-extensions[0].critical = FALSE\nexpired-extensions[0].item = foreign 30{05:\"\"}\n",
        ),
    ),
];

/// Tells whether a text is the whole, or has the line.
fn is_shown(text: &[u8], wanted: &Wanted) -> bool {
    match wanted {
        Wanted::Text(all) => text == all.as_bytes(),
        Wanted::Line(line) => {
            for found in text.split(|octet| *octet == b'\n') {
                if found == line.as_bytes() {
                    return true;
                }
            }
            false
        }
    }
}

fn comes_true(alloc: Global, input: &str, wanted: &Wanted) -> Result<bool, Fail> {
    let octets = octets_of(alloc, input)?;
    let Ok(message) = decode(alloc, &octets) else {
        return Err("not decoded")?;
    };
    let text = show_text(alloc, 1, &message)?;
    Ok(is_shown(&text, wanted))
}

#[test]
fn each_message_has_its_text(rt: HostRuntime) -> Result<(), Fail> {
    for (name, input, wanted) in &ROWS {
        assert!(rt; comes_true(rt.alloc(), input, wanted)?, "{name}");
    }
    Ok(())
}

/// The text of the message that comes in pieces of one octet.
fn text_in(alloc: Global, profile: Profile, octets: &[u8]) -> Result<Vec<u8>, Fail> {
    let mut source = Pieces::new(octets, 1, None);
    match read_outline(alloc, profile, &mut source) {
        Ok(Some(read)) => Ok(Text::new_as(profile, 1, read.outline).octets(alloc)?),
        _ => Err(Fail::from("not read")),
    }
}

#[test]
fn each_message_of_the_module_has_its_text(rt: HostRuntime) -> Result<(), Fail> {
    let alloc = rt.alloc();
    for (name, input, wanted) in &MODULE_ROWS {
        let octets = octets_of(alloc, input)?;
        assert!(rt;
            is_shown(&text_in(alloc, Profile::Module, &octets)?, wanted),
            "{name}"
        );
    }
    Ok(())
}

#[test]
fn each_message_of_profile_2_has_its_text_as_an_outline(rt: HostRuntime) -> Result<(), Fail> {
    let alloc = rt.alloc();
    for (name, input, wanted) in &ROWS {
        let octets = octets_of(alloc, input)?;
        assert!(rt;
            is_shown(&text_in(alloc, Profile::Two, &octets)?, wanted),
            "{name}"
        );
    }
    Ok(())
}

/// The text of a message that is made of its values.
const MADE: &str = r#"message 7 Expired
protocol-version-num = -5
transaction-id.transaction-group-qualifier = general "a\"b\\c\x7f\x00 ~"
transaction-id.transaction-qualifier = visible ""
service-date-time.date-time-of-this-service.date = 20240229
requester-id = {}
"#;

#[test]
fn a_message_is_shown_leaf_by_leaf(rt: HostRuntime) -> Result<(), Fail> {
    let parts =
        "-5 - hex:6122625c637f00207e visible: - seq:4 date:20240229 - seq:2 - seq:2 none:2 seq:2 none:2 seq:6";
    let message = message(rt.alloc(), "20", parts)?;
    let text = show_text(rt.alloc(), 7, &message)?;
    assert!(rt; text.as_slice() == MADE.as_bytes());
    Ok(())
}
