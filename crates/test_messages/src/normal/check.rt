//! The facts of a message.
use super::{EXPIRED_HEX, INDEFINITE_HEX, TYPED_SEGMENT_HEX};
use ill_normal::{Cause, Checked, Pieces, ReadFailure, Refusal, check_one};
use std::alloc::Global;
use std::test::Fail;
use test_support::octets_of;

/// A name, a message, and what there is to say of it.
static ROWS: [(&str, &str, Checked); 3] = [
    (
        "check-line-normal",
        EXPIRED_HEX,
        Checked {
            apdu: 20,
            octets: 33,
            normal: 33,
            is_normal: true,
        },
    ),
    (
        "check-line-not-normal",
        INDEFINITE_HEX,
        Checked {
            apdu: 20,
            octets: 47,
            normal: 33,
            is_normal: false,
        },
    ),
    // TRUE written as 01 makes it no longer.
    (
        "true-written-as-01",
        "67233021800102a10aa1031b0147a2031b0151a20ca00a800832303234303232399f230101",
        Checked {
            apdu: 7,
            octets: 37,
            normal: 37,
            is_normal: false,
        },
    ),
];

/// Tells whether this is said of the message, and then that no other follows, however many octets a call gives.
fn is_checked(alloc: Global, octets: &[u8], want: Checked) -> bool {
    for per_call in [1, 7, 4096] {
        let mut source = Pieces::new(octets, per_call, None);
        let first = check_one(alloc, &mut source);
        if first != Ok(Some(want)) || check_one(alloc, &mut source) != Ok(None) {
            return false;
        }
    }
    true
}

#[test]
fn messages_are_checked(rt: HostRuntime) -> Result<(), Fail> {
    for (name, hex, want) in &ROWS {
        let octets = octets_of(rt.alloc(), hex)?;
        assert!(rt; is_checked(rt.alloc(), &octets, *want), "{name}");
    }
    Ok(())
}

#[test]
fn what_is_no_message_is_refused(rt: HostRuntime) -> Result<(), Fail> {
    let octets = octets_of(rt.alloc(), TYPED_SEGMENT_HEX)?;
    let mut source = Pieces::new(&octets, 64, None);
    let refusal = Refusal {
        at: 13,
        cause: Cause::UnexpectedTag,
    };
    assert!(rt; check_one(rt.alloc(), &mut source) == Err(ReadFailure::Refused(refusal)));
    Ok(())
}
