//! Single messages to their normal form.
use super::rows::{ROWS, octets_of_row};
use super::sips::ShortWriter;
use super::{EXPIRED, INDEFINITE_HEX, LONG_FORM};
use ill_normal::{
    Cause, FromSlice, Message, NodeId, NormalFailure, PartId, Pieces, Refusal, Room, Source,
    apdu_name, decode, normal_form_is_accepted, normal_form_is_its_own,
    normal_forms_are_equal_exactly_if_apdus_are, normalise, one_prefix_is_accepted,
    one_refusal_of_a_slice, read_message,
};
use std::alloc::{AllocError, Global};
use std::test::Fail;
use test_support::octets_of;

/// Tells whether the message has this normal form, with as many octets a call at most, read and written.
fn has_normal_form(alloc: Global, octets: &[u8], normal: &[u8], per_call: usize) -> bool {
    let mut source = Pieces::new(octets, per_call.max(1), None);
    let mut sink = ShortWriter {
        octets: Vec::new(alloc),
        per_call,
        broken: false,
    };
    let result = normalise(alloc, &mut source, &mut sink);
    matches!(result, Ok(Some(size)) if size as usize == normal.len())
        && sink.octets.as_slice() == normal
}

/// Tells whether there is a message, and then this number of octets is at hand.
fn leaves(alloc: Global, source: &mut FromSlice<'_>, count: usize) -> bool {
    let read = read_message(alloc, source);
    matches!(read, Ok(Some(_))) && source.buffered().len() == count
}

/// Tells whether a message that is there twice is taken twice, and then none.
fn is_taken_twice(alloc: Global, octets: &[u8]) -> Result<bool, AllocError> {
    let mut twice = octets.to_vec(alloc)?;
    twice.extend_from_slice(octets)?;
    let mut source = FromSlice::new(&twice);
    Ok(
        leaves(alloc, &mut source, octets.len())
            && leaves(alloc, &mut source, 0)
            && matches!(read_message(alloc, &mut source), Ok(None)),
    )
}

/// Tells whether the message of a row has its normal form, and is taken whole where it is at hand.
fn row_comes_true(alloc: Global, row: &str) -> Result<bool, Fail> {
    let (octets, normal) = octets_of_row(alloc, row)?;
    Ok(
        has_normal_form(alloc, &octets, &normal, 1)
            && has_normal_form(alloc, &octets, &normal, 7)
            && has_normal_form(alloc, &octets, &normal, 4096)
            && is_taken_twice(alloc, &octets)?,
    )
}

#[test]
fn each_row_has_its_normal_form(rt: HostRuntime) -> Result<(), Fail> {
    for row in ROWS.lines() {
        assert!(rt; row_comes_true(rt.alloc(), row)?, "{row}");
    }
    Ok(())
}

/// A name, octets, and why they are refused.
static REFUSED: [(&str, &[u8], Refusal); 4] = [
    (
        "expired-without-service-date-time",
        b"\x74\x11\x30\x0f\x80\x01\x02\xa1\x0a\xa1\x03\x1b\x01\x47\xa2\x03\x1b\x01\x51",
        Refusal {
            at: 19,
            cause: Cause::Missing(PartId {
                node: NodeId::EXPIRED,
                row: 2,
            }),
        },
    ),
    (
        "thirtieth-of-february",
        b"\x74\x1f\x30\x1d\x80\x01\x02\xa1\x0a\xa1\x03\x1b\x01\x47\xa2\x03\x1b\x01\x51\xa2\x0c\xa0\x0a\x80\x0820240230",
        Refusal {
            at: 23,
            cause: Cause::BadDate,
        },
    ),
    (
        "forward-notification-left-out",
        b"\x62",
        Refusal {
            at: 0,
            cause: Cause::LeftOut(PartId {
                node: NodeId::ILL_APDU,
                row: 1,
            }),
        },
    ),
    (
        "no-such-application-number",
        b"\x75",
        Refusal {
            at: 0,
            cause: Cause::UnexpectedTag,
        },
    ),
];

#[test]
fn nothing_is_written_of_what_is_refused(rt: HostRuntime) {
    for (name, octets, refusal) in &REFUSED {
        let mut source = Pieces::new(octets, 3, None);
        let mut sink: Room<64> = Room::new(64, None);
        let result = normalise(rt.alloc(), &mut source, &mut sink);
        assert!(rt;
            result == Err(NormalFailure::Refused(*refusal)) && sink.octets().is_empty(),
            "{name}"
        );
    }
}

#[test]
fn an_empty_input_is_no_message(rt: HostRuntime) {
    let mut source = Pieces::new(&[], 1, None);
    let mut sink: Room<64> = Room::new(64, None);
    assert!(rt;
        normalise(rt.alloc(), &mut source, &mut sink) == Ok(None) && sink.octets().is_empty()
    );
}

#[test]
fn octets_after_the_message_are_not_read(rt: HostRuntime) {
    let octets: &[u8] =
        b"\x74\x1f\x30\x1d\x80\x01\x02\xa1\x0a\xa1\x03\x1b\x01\x47\xa2\x03\x1b\x01\x51\xa2\x0c\xa0\x0a\x80\x0820240229\x75";
    let mut source = Pieces::new(octets, 64, None);
    let mut sink: Room<64> = Room::new(64, None);
    let mut rest = [0; 4];
    assert!(rt;
        normalise(rt.alloc(), &mut source, &mut sink) == Ok(Some(33)) && sink.octets() == EXPIRED
    );
    assert!(rt; source.take(&mut rest) == Ok(1) && rest[0] == 0x75);
}

/// Tells whether the message leaves nothing where the source breaks after five octets.
fn leaves_nothing(alloc: Global, octets: &[u8]) -> bool {
    let mut source = Pieces::new(octets, 64, Some(5));
    let mut sink: Room<64> = Room::new(64, None);
    normalise(alloc, &mut source, &mut sink) == Err(NormalFailure::ReadFault)
        && source.broken()
        && sink.octets().is_empty()
}

/// The result for a message, whose normal form is EXPIRED, in a sink that takes as many octets a call and breaks after a number,
/// and how many octets the sink has, None where they are not the first.
fn written(
    alloc: Global,
    octets: &[u8],
    per_call: usize,
    breaks_after: Option<usize>,
) -> (Result<Option<u32>, NormalFailure>, Option<usize>) {
    let mut source = Pieces::new(octets, 64, None);
    let mut sink: Room<64> = Room::new(per_call.max(1), breaks_after);
    let result = normalise(alloc, &mut source, &mut sink);
    let written = sink.octets();
    let count = EXPIRED.starts_with(written).then_some(written.len());
    (result, count)
}

#[test]
fn a_fault_leaves_nothing_or_the_first_octets(rt: HostRuntime) -> Result<(), Fail> {
    let alloc = rt.alloc();
    let octets = octets_of(alloc, INDEFINITE_HEX)?;
    assert!(rt;
        leaves_nothing(alloc, &octets) && leaves_nothing(alloc, LONG_FORM),
        "source-broken-after-five"
    );
    for n in 0..33u32 {
        let fault = Err(NormalFailure::WriteFault(n));
        let want = (fault, Some(n as usize));
        assert!(rt;
            written(alloc, &octets, 64, Some(n as usize)) == want
                && written(alloc, LONG_FORM, 64, Some(n as usize)) == want,
            "sink-broken-after-{n}"
        );
    }
    assert!(rt;
        written(alloc, LONG_FORM, 7, None) == (Ok(Some(33)), Some(33)),
        "sink-of-seven-octets-per-call"
    );
    Ok(())
}

fn are_of_expired(read: &Message, decoded: &Message) -> bool {
    read.octets() == 47
        && decoded.octets() == 33
        && read.same_apdu(decoded)
        && apdu_name(read.apdu()) == Some("Expired")
}

/// Tells whether a message that is read is the APDU that a slice is decoded to, by another spelling.
fn is_one_apdu(alloc: Global, read: &[u8], decoded: &[u8]) -> bool {
    let mut source = Pieces::new(read, 5, None);
    match (read_message(alloc, &mut source), decode(alloc, decoded)) {
        (Ok(Some(read)), Ok(decoded)) => are_of_expired(&read, &decoded),
        _ => false,
    }
}

#[test]
fn a_message_is_read_and_decoded(rt: HostRuntime) -> Result<(), Fail> {
    let indefinite = octets_of(rt.alloc(), INDEFINITE_HEX)?;
    assert!(rt; is_one_apdu(rt.alloc(), &indefinite, EXPIRED));
    Ok(())
}

#[test]
fn the_laws_are_calls() {
    normal_forms_are_equal_exactly_if_apdus_are();
    normal_form_is_accepted();
    normal_form_is_its_own();
    one_prefix_is_accepted();
    one_refusal_of_a_slice();
}
