//! Messages that are compared.
use super::{EXPIRED_HEX, INDEFINITE_HEX, TYPED_SEGMENT_HEX};
use ill_normal::{Cause, Failure, Refusal, Side, is_normal, same_message};
use std::alloc::{AllocError, Global};
use std::test::Fail;
use test_support::octets_of;

/// The result for two messages: whether they are of one APDU, or which of them is refused.
type Compared = Result<bool, (Side, Failure)>;

/// A name, two messages, and what comes of them.
static PAIRS: [(&str, &str, &str, Compared); 9] = [
    (
        "indefinite-same-as-definite",
        "74803080800102a180a1801b01470000a2801b015100000000a280a080800832303234303232390000000000000000",
        "741f301d800102a10aa1031b0147a2031b0151a20ca00a80083230323430323239",
        Ok(true),
    ),
    (
        "visible-differs-from-general",
        "741f301d800102a10aa1031a0147a2031b0151a20ca00a80083230323430323239",
        "741f301d800102a10aa1031b0147a2031b0151a20ca00a80083230323430323239",
        Ok(false),
    ),
    (
        "empty-sequence-differs-from-absent",
        "61363034800102a10aa1031b0147a2031b0151a20ca00a80083230323430323239a9030a0101ab0c800100810100820101830101af00b000",
        "61343032800102a10aa1031b0147a2031b0151a20ca00a80083230323430323239a9030a0101ab0c800100810100820101830101b000",
        Ok(false),
    ),
    (
        "leap-second-differs-from-end-of-day",
        "74273025800102a10aa1031b0147a2031b0151a214a012800832303234303232398106323335393630",
        "74273025800102a10aa1031b0147a2031b0151a214a012800832303234303232398106323430303030",
        Ok(false),
    ),
    (
        "end-of-day-differs-from-start-of-day",
        "74273025800102a10aa1031b0147a2031b0151a214a012800832303234303232398106323430303030",
        "74273025800102a10aa1031b0147a2031b0151a214a012800832303234303232398106303030303030",
        Ok(false),
    ),
    (
        "leap-second-differs-from-start-of-day",
        "74273025800102a10aa1031b0147a2031b0151a214a012800832303234303232398106323335393630",
        "74273025800102a10aa1031b0147a2031b0151a214a012800832303234303232398106303030303030",
        Ok(false),
    ),
    (
        "same-message-second-refused",
        EXPIRED_HEX,
        TYPED_SEGMENT_HEX,
        Err((
            Side::Second,
            Failure::Refused(Refusal {
                at: 13,
                cause: Cause::UnexpectedTag,
            }),
        )),
    ),
    (
        "same-with-empty-first",
        "",
        EXPIRED_HEX,
        Err((
            Side::First,
            Failure::Refused(Refusal {
                at: 0,
                cause: Cause::Truncated,
            }),
        )),
    ),
    (
        "same-with-trailing-second",
        EXPIRED_HEX,
        "741f301d800102a10aa1031b0147a2031b0151a20ca00a80083230323430323239 74",
        Err((
            Side::Second,
            Failure::Refused(Refusal {
                at: 33,
                cause: Cause::TrailingBytes,
            }),
        )),
    ),
];

fn compared(alloc: Global, first: &str, second: &str) -> Result<Compared, AllocError> {
    let first = octets_of(alloc, first)?;
    let second = octets_of(alloc, second)?;
    Ok(same_message(alloc, &first, &second))
}

#[test]
fn messages_are_the_same_or_not(rt: HostRuntime) -> Result<(), Fail> {
    for (name, first, second, want) in &PAIRS {
        assert!(rt; compared(rt.alloc(), first, second)? == *want, "{name}");
    }
    Ok(())
}

/// A name, octets, and whether they are a normal form.
static FORMS: [(&str, &str, Result<bool, Failure>); 3] = [
    ("is-normal-of-normal-form", EXPIRED_HEX, Ok(true)),
    ("is-normal-of-indefinite", INDEFINITE_HEX, Ok(false)),
    (
        "is-normal-of-refused",
        TYPED_SEGMENT_HEX,
        Err(Failure::Refused(Refusal {
            at: 13,
            cause: Cause::UnexpectedTag,
        })),
    ),
];

#[test]
fn octets_are_normal_or_not(rt: HostRuntime) -> Result<(), Fail> {
    for (name, hex, want) in &FORMS {
        let octets = octets_of(rt.alloc(), hex)?;
        assert!(rt; is_normal(rt.alloc(), &octets) == *want, "{name}");
    }
    Ok(())
}
