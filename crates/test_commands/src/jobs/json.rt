//! Lines of `json_line`, row by row.
use ber_core::FromSlice;
use ill_json::{LineHead, json_line};
use ill_read::{Outline, read_outline};
use ill_schema::Profile;
use std::alloc::Global;
use std::test::Fail;
use test_support::octets_of;

/// The octets of a message; the name of its file; its number, its offset, how many octets it has and whether it is in normal form;
/// its line.
const ROWS: [(&str, Option<&str>, u32, u64, u32, bool, &str); 4] = [
    (
        "741f301d800102a10aa1031b0147a2031b0151a20ca00a80083230323430323239",
        None,
        1,
        0,
        33,
        true,
        "{\"number\":1,\"offset\":0,\"octets\":33,\"apdu\":\"Expired\",\"normal\":true,\"value\":{\"protocol-version-num\":2,\"transaction-id\":{\"transaction-group-qualifier\":{\"general\":\"G\"},\"transaction-qualifier\":{\"general\":\"Q\"}},\"service-date-time\":{\"date-time-of-this-service\":{\"date\":\"20240229\"}}}}\n",
    ),
    // each octet of a text is a character, and a number of 63 bits is written in full
    (
        "743f303d80087fffffffffffffffa119a007a005a1031a014ca10a1b08e9225c0a007f80ffa2021a00a214a012800832303234303232398106323335393630a300",
        Some("a \"b\""),
        4_294_967_295,
        18_446_744_073_709_551_615,
        65,
        false,
        "{\"file\":\"a \\\"b\\\"\",\"number\":4294967295,\"offset\":18446744073709551615,\"octets\":65,\"apdu\":\"Expired\",\"normal\":false,\"value\":{\"protocol-version-num\":9223372036854775807,\"transaction-id\":{\"initial-requester-id\":{\"person-or-institution-symbol\":{\"institution-symbol\":{\"visible\":\"L\"}}},\"transaction-group-qualifier\":{\"general\":\"\\u00e9\\\"\\\\\\n\\u0000\\u007f\\u0080\\u00ff\"},\"transaction-qualifier\":{\"visible\":\"\"}},\"service-date-time\":{\"date-time-of-this-service\":{\"date\":\"20240229\",\"time\":\"235960\"}},\"requester-id\":{}}}\n",
    ),
    // defaults, lists, choices, numbers with names, and one beyond the names
    (
        "616e306c8001ffa10aa1031b0147a2031b0151a20ca00a80083230323430323239850103a7061b04706f7374a9090a01010a01020a0106ab0c8001ff810100820101830102ac0a81083230323430333031ad008e0101b003800102b20ea10c8003455552810531322e3530b4038001ff",
        Some(""),
        3,
        12,
        112,
        true,
        "{\"file\":\"\",\"number\":3,\"offset\":12,\"octets\":112,\"apdu\":\"ILL-Request\",\"normal\":true,\"value\":{\"protocol-version-num\":-1,\"transaction-id\":{\"transaction-group-qualifier\":{\"general\":\"G\"},\"transaction-qualifier\":{\"general\":\"Q\"}},\"service-date-time\":{\"date-time-of-this-service\":{\"date\":\"20240229\"}},\"transaction-type\":{\"number\":3,\"name\":\"partitioned\"},\"delivery-service\":{\"physical-delivery\":{\"general\":\"post\"}},\"ill-service-type\":[{\"number\":1,\"name\":\"loan\"},{\"number\":2,\"name\":\"copy-non-returnable\"},6],\"requester-optional-messages\":{\"can-send-received\":true,\"can-send-returned\":false,\"requester-shipped\":{\"number\":1,\"name\":\"requires\"},\"requester-checked-in\":{\"number\":2,\"name\":\"desires\"}},\"search-type\":{\"need-before-date\":\"20240301\",\"expiry-flag\":{\"number\":3,\"name\":\"no-Expiry\"}},\"supply-medium-info-type\":[],\"place-on-hold\":{\"number\":1,\"name\":\"yes\"},\"item-id\":{\"item-type\":{\"number\":2,\"name\":\"serial\"}},\"cost-info-type\":{\"maximum-cost\":{\"currency-code\":\"EUR\",\"monetary-value\":\"12.50\"},\"reciprocal-agreement\":false,\"will-pay-fee\":false,\"payment-provided\":false},\"third-party-info-type\":{\"permission-to-forward\":true,\"permission-to-chain\":false,\"permission-to-partition\":false,\"permission-to-change-send-to-list\":false,\"preference\":{\"number\":2,\"name\":\"unordered\"}},\"retry-flag\":false,\"forward-flag\":false}}\n",
    ),
    (
        "643a3038800102a10aa1031b0147a2031b0151a20ca00a800832303234303232399f1f0103bf2014a3123010800101a10b3009a007a005a1031b014c",
        None,
        1,
        0,
        60,
        true,
        "{\"number\":1,\"offset\":0,\"octets\":60,\"apdu\":\"ILL-Answer\",\"normal\":true,\"value\":{\"protocol-version-num\":2,\"transaction-id\":{\"transaction-group-qualifier\":{\"general\":\"G\"},\"transaction-qualifier\":{\"general\":\"Q\"}},\"service-date-time\":{\"date-time-of-this-service\":{\"date\":\"20240229\"}},\"transaction-results\":{\"number\":3,\"name\":\"unfilled\"},\"results-explanation\":{\"unfilled-results\":{\"reason-unfilled\":{\"number\":1,\"name\":\"in-use-on-loan\"},\"location-list\":[{\"location-id\":{\"person-or-institution-symbol\":{\"institution-symbol\":{\"general\":\"L\"}}}}]}}}}\n",
    ),
];

/// Messages of the module profile that are in normal form: their octets, how many there are, and the line of each.
const MODULE_ROWS: [(&str, u32, &str); 3] = [
    (
        "742d302b800102a10aa1031b0147a2031b0151a20ca00a80083230323430323239bf310b3009800101a20430020500",
        47,
        "{\"number\":1,\"offset\":0,\"octets\":47,\"apdu\":\"Expired\",\"profile\":\"module\",\"normal\":true,\"value\":{\"protocol-version-num\":2,\"transaction-id\":{\"transaction-group-qualifier\":{\"general\":\"G\"},\"transaction-qualifier\":{\"general\":\"Q\"}},\"service-date-time\":{\"date-time-of-this-service\":{\"date\":\"20240229\"}},\"expired-extensions\":[{\"identifier\":1,\"critical\":false,\"item\":{\"foreign\":\"30020500\"}}]}}\n",
    ),
    (
        "70233021800102a10aa1031b0147a2031b0151a20ca00a80083230323430323239a5028100",
        37,
        "{\"number\":1,\"offset\":0,\"octets\":37,\"apdu\":\"Damaged\",\"profile\":\"module\",\"normal\":true,\"value\":{\"protocol-version-num\":2,\"transaction-id\":{\"transaction-group-qualifier\":{\"general\":\"G\"},\"transaction-qualifier\":{\"general\":\"Q\"}},\"service-date-time\":{\"date-time-of-this-service\":{\"date\":\"20240229\"}},\"damaged-details\":{\"damaged-portion\":{\"complete-document\":null}}}}\n",
    ),
    (
        "6a6f306d800102a10aa1031b0147a2031b0151a20ca00a80083230323430323239b143281a06072a8648ce13050a02010507044d41524381065831323334352812a010300e0201051b03612262a002050031002811060b69ffffffffffffffffff7f820203f89f25083230323430323239",
        113,
        "{\"number\":1,\"offset\":0,\"octets\":113,\"apdu\":\"Returned\",\"profile\":\"module\",\"normal\":true,\"value\":{\"protocol-version-num\":2,\"transaction-id\":{\"transaction-group-qualifier\":{\"general\":\"G\"},\"transaction-qualifier\":{\"general\":\"Q\"}},\"service-date-time\":{\"date-time-of-this-service\":{\"date\":\"20240229\"}},\"supplemental-item-description\":[{\"direct-reference\":\"1.2.840.10003.5.10\",\"indirect-reference\":5,\"data-value-descriptor\":\"MARC\",\"encoding\":{\"octet-aligned\":{\"octets\":\"583132333435\"}}},{\"encoding\":{\"single-asn1-type\":{\"foreign\":\"300e0201051b03612262a00205003100\"}}},{\"direct-reference\":\"oid 69ffffffffffffffffff7f\",\"encoding\":{\"arbitrary\":{\"bits\":5,\"octets\":\"f8\"}}}],\"date-returned\":\"20240229\"}}\n",
    ),
];

/// The outline of the message that the octets are.
fn outline(alloc: Global, profile: Profile, octets: &[u8]) -> Result<Outline, Fail> {
    let mut source = FromSlice::new(octets);
    let buffer = Outline::new(alloc);
    match read_outline(alloc, profile, &mut source) {
        Ok(Some(read)) => Ok(read.outline),
        _ => Err(Fail::from("not read")),
    }
}

#[test]
fn each_line_of_json(rt: HostRuntime) -> Result<(), Fail> {
    let alloc = rt.alloc();
    for (input, file, number, offset, count, is_normal, wanted) in &ROWS {
        let octets = octets_of(alloc, input)?;
        let outline = outline(alloc, Profile::Two, &octets)?;
        let head = LineHead {
            number: *number,
            offset: *offset,
            octets: *count,
            is_normal: *is_normal,
        };
        let line = json_line(alloc, Profile::Two, octets, *file, head, &outline)?;
        assert!(rt; line.as_slice() == wanted.as_bytes(), "{input}");
    }
    Ok(())
}

#[test]
fn each_line_of_json_of_the_module(rt: HostRuntime) -> Result<(), Fail> {
    let alloc = rt.alloc();
    for (input, count, wanted) in &MODULE_ROWS {
        let octets = octets_of(alloc, input)?;
        let outline = outline(alloc, Profile::Module, &octets)?;
        let head = LineHead {
            number: 1,
            offset: 0,
            octets: *count,
            is_normal: true,
        };
        let line = json_line(alloc, Profile::Module, octets, None, head, &outline)?;
        assert!(rt; line.as_slice() == wanted.as_bytes(), "{input}");
    }
    Ok(())
}
