//! Worked messages through the typed APDUs and back.
use super::parts::head;
use ber_leaf::IllString;
use ill_apdu::{Apdu, MessageApdu, MessageFault, Part, Typed};
use ill_parts::ItemId;
use ill_read::decode;
use ill_schema::{Message, Value, equal};
use ill_write::normal_bytes;
use std::alloc::{AllocError, Global};
use std::test::Fail;
use test_support::{general_text, message, value};

/// A message a line, of each APDU and with each result, in which every part is there: the APDU's number, and the
/// parts of the body, as [`test_support::message`] reads them.
const WHOLE_MESSAGES: &str = "\
1 whole 21 general:g22 alt:0 general:g23 visible:v24 general:g25 general:g26 visible:v27 general:g28 general:g29 seq:8 visible:v30 general:g31 seq:2 seq:2 general:g32 alt:0 visible:v33 alt:0 general:g34 general:g35 visible:v36 general:g37 general:g38 visible:v39 general:g40 seq:8 general:g41 visible:v42 seq:2 seq:2 43 44 list:2 - true false 47 48 seq:4 general:g49 date:20240323 51 date:20240525 seq:4 53 visible:v54 seq:2 55 general:g56 seq:2 list:2 57 general:g58 general:g59 visible:v60 seq:3 61 62 visible:v63 general:g64 general:g65 visible:v66 general:g67 general:g68 visible:v69 general:g70 general:g71 visible:v72 general:g73 general:g74 visible:v75 general:g76 general:g77 - visible:v78 general:g79 - general:g80 visible:v81 seq:23 - general:g82 print:83.5 print:84.5 seq:2 true false true seq:5 general:g88 true false true false visible:v93 general:g94 seq:2 95 visible:v96 alt:0 general:g97 alt:0 seq:2 general:g98 visible:v99 general:g100 seq:2 seq:3 list:1 general:g101 alt:0 visible:v102 alt:0 seq:2 list:1 seq:8 true false visible:v105 general:g106 - seq:26
3 whole visible:v21 general:g22 seq:2 general:g23 alt:0 visible:v24 alt:0 seq:2 general:g25 alt:0 general:g26 alt:0 seq:2 visible:v27 general:g28 general:g29 seq:3 30 - 31 false true 34 35 seq:4 date:20240109 date:20240210 false seq:2 39 print:40.5 print:41.5 seq:2 42 general:g43 alt:0 print:44.5 print:45.5 seq:2 print:46.5 print:47.5 seq:2 48 49 seq:2 50 51 seq:2 list:2 seq:9 general:g52 alt:0 general:g53 visible:v54 general:g55 general:g56 visible:v57 general:g58 general:g59 seq:8 visible:v60 - seq:17
4 whole 21 22 date:20241224 visible:v24 alt:0 general:g25 alt:0 seq:2 general:g26 visible:v27 seq:2 general:g28 seq:3 list:1 seq:3 alt:0 - - general:g29 alt:0 visible:v30 alt:0 seq:2 general:g31 general:g32 visible:v33 seq:2 seq:3 list:1 general:g34 alt:0 general:g35 alt:0 seq:2 list:1 false true 38 39 seq:4 general:g40 - seq:14
5 whole true general:g22 - seq:8
6 whole visible:v21 - seq:7
7 whole true general:g22 - seq:8
8 whole visible:v21 alt:0 general:g22 alt:0 seq:2 - date:20241224 24 general:g25 - seq:11
9 whole visible:v21 - seq:7
10 whole - date:20241022 general:g22 print:23.5 print:24.5 seq:2 general:g25 - seq:11
11 whole date:20241022 general:g22 - seq:8
12 whole date:20241022 false seq:2 general:g23 - seq:8
13 whole date:20241022 general:g22 - seq:8
14 whole true date:20241123 true seq:2 visible:v24 - seq:9
15 whole visible:v21 - seq:7
16 whole - visible:v21 - seq:8
17 whole visible:v21 - seq:7
18 whole visible:v21 - seq:7
20 whole - seq:6
4 whole 21 22 date:20241224 visible:v24 alt:0 general:g25 alt:0 seq:2 general:g26 visible:v27 seq:2 general:g28 seq:3 list:1 seq:3 alt:1 - - general:g29 alt:0 visible:v30 alt:0 seq:2 general:g31 general:g32 visible:v33 seq:2 seq:3 list:1 general:g34 alt:0 general:g35 alt:0 seq:2 list:1 false true 38 39 seq:4 general:g40 - seq:14
4 whole 21 22 general:g23 alt:0 visible:v24 alt:0 seq:2 general:g25 general:g26 seq:2 visible:v27 seq:3 list:1 seq:2 alt:2 - - general:g28 alt:0 general:g29 alt:0 seq:2 visible:v30 general:g31 general:g32 seq:2 seq:3 list:1 visible:v33 alt:0 general:g34 alt:0 seq:2 list:1 true false 37 38 seq:4 visible:v39 - seq:14
4 whole 21 22 general:g23 alt:0 visible:v24 alt:0 seq:2 general:g25 general:g26 seq:2 visible:v27 seq:3 list:1 seq:2 alt:3 - - general:g28 alt:0 general:g29 alt:0 seq:2 visible:v30 general:g31 general:g32 seq:2 seq:3 list:1 visible:v33 alt:0 general:g34 alt:0 seq:2 list:1 true false 37 38 seq:4 visible:v39 - seq:14
4 whole 21 22 date:20241224 visible:v24 alt:0 general:g25 general:g26 visible:v27 general:g28 general:g29 visible:v30 general:g31 seq:8 general:g32 alt:0 visible:v33 alt:0 seq:2 general:g34 general:g35 seq:2 visible:v36 seq:3 list:1 - seq:5 alt:4 - - general:g37 alt:0 general:g38 alt:0 seq:2 visible:v39 general:g40 general:g41 seq:2 seq:3 list:1 visible:v42 alt:0 general:g43 alt:0 seq:2 list:1 false true 46 47 seq:4 visible:v48 - seq:14
4 whole 21 date:20241123 23 visible:v24 alt:0 general:g25 alt:0 seq:2 general:g26 visible:v27 seq:2 general:g28 seq:3 list:1 seq:3 alt:5 - - general:g29 alt:0 visible:v30 alt:0 seq:2 general:g31 general:g32 visible:v33 seq:2 seq:3 list:1 general:g34 alt:0 general:g35 alt:0 seq:2 list:1 false true 38 39 seq:4 general:g40 - seq:14
4 whole 21 general:g22 general:g23 alt:0 visible:v24 alt:0 seq:2 general:g25 general:g26 seq:2 visible:v27 seq:3 list:1 seq:2 alt:6 - - general:g28 alt:0 general:g29 alt:0 seq:2 visible:v30 general:g31 general:g32 seq:2 seq:3 list:1 visible:v33 alt:0 general:g34 alt:0 seq:2 list:1 true false 37 38 seq:4 visible:v39 - seq:14";

/// The message of an APDU.
fn sent(alloc: Global, apdu: &Apdu) -> Result<Message, Fail> {
    match apdu.to_message(alloc) {
        Ok(message) => Ok(message),
        Err(_) => Err("no message")?,
    }
}

/// A MESSAGE whose note has this number of letters.
fn note(alloc: Global, letters: usize) -> Result<Apdu, Fail> {
    let text = general_text(vec![in alloc; b'A'; letters]?)?;
    Ok(Apdu::MessageApdu(MessageApdu {
        head: head(alloc)?,
        note: IllString::General(text),
    }))
}

/// The octets of a message whose note has this number of letters, None where it is too long.
fn size_of_note(alloc: Global, letters: usize) -> Result<Option<u32>, Fail> {
    let apdu = note(alloc, letters)?;
    match apdu.to_message(alloc) {
        Ok(message) => Ok(Some(message.octets())),
        Err(MessageFault::TooLong) => Ok(None),
        Err(MessageFault::OutOfMemory) => Err("out of memory")?,
    }
}

#[test]
fn notes_are_within_the_limit(rt: HostRuntime) -> Result<(), Fail> {
    for (letters, octets) in [
        (65_490, Some(65_536)),
        (1_048_526, Some(1_048_576)),
        (1_048_527, None),
    ] {
        assert!(rt; size_of_note(rt.alloc(), letters)? == octets, "{letters}");
    }
    Ok(())
}

/// The body of ILL-Request `request-normal-form`, after its number.
const REQUEST: &str =
    "head 1 none:3 1 list:1 - false false 1 1 seq:4 none:2 3 - none:23 seq:23 none:4 false false none:3 seq:26";

/// Tells whether an APDU is that ILL-Request, with this item.
fn is_the_least(apdu: &Apdu, item: &Option<ItemId>) -> bool {
    match (apdu, item) {
        (Apdu::IllRequest(request), Some(item)) => {
            request.transaction_type == 1
                && request.ill_service_type.as_slice() == [1].as_slice()
                && request.place_on_hold == 3
                && !request.retry_flag
                && !request.forward_flag
                && request.client_id.is_none()
                && request.item_id == *item
        }
        _ => false,
    }
}

/// Tells whether the least ILL-Request is read from its message. Its item has nothing in it.
fn has_the_least(alloc: Global, message: &Message) -> Result<bool, Fail> {
    let nothing = value(alloc, "none:23 seq:23")?;
    let item = ItemId::from_value(alloc, &nothing)?;
    let apdu = Apdu::from_message(alloc, message)?;
    Ok(is_the_least(&apdu, &item))
}

#[test]
fn requests_have_their_parts(rt: HostRuntime) -> Result<(), Fail> {
    let message = message(rt.alloc(), "1", REQUEST)?;
    assert!(rt; has_the_least(rt.alloc(), &message)?);
    Ok(())
}

fn decoded(alloc: Global, octets: &[u8]) -> Result<Message, Fail> {
    match decode(alloc, octets) {
        Ok(message) => Ok(message),
        Err(_) => Err("not decoded")?,
    }
}

/// The APDU that a message's octets are read as.
fn read_back(alloc: Global, message: &Message) -> Result<Apdu, Fail> {
    let octets = normal_bytes(alloc, message)?;
    let read = decoded(alloc, &octets)?;
    Ok(Apdu::from_message(alloc, &read)?)
}

/// Tells whether the APDU is sent as the message, and read back from its octets.
fn is_sent_as(alloc: Global, apdu: &Apdu, message: &Message) -> Result<bool, Fail> {
    let made = sent(alloc, apdu)?;
    let again = read_back(alloc, &made)?;
    Ok(
        made.same_apdu(message)
            && made.octets() == message.octets()
            && apdu.number() == message.apdu()
            && again == *apdu,
    )
}

/// Tells whether the message comes back from the APDU that is read from it.
fn comes_back(alloc: Global, message: &Message) -> Result<bool, Fail> {
    let apdu = Apdu::from_message(alloc, message)?;
    is_sent_as(alloc, &apdu, message)
}

fn row_comes_back(alloc: Global, row: &str) -> Result<bool, Fail> {
    let (number, parts) = row.split_once(' ').ok_or("a number")?;
    comes_back(alloc, &message(alloc, number, parts)?)
}

#[test]
fn whole_messages_come_back(rt: HostRuntime) -> Result<(), Fail> {
    for row in WHOLE_MESSAGES.lines() {
        assert!(rt; row_comes_back(rt.alloc(), row)?, "{row}");
    }
    Ok(())
}

#[test]
fn debug_text_of_a_fault(rt: HostRuntime) -> Result<(), AllocError> {
    let text = format!(in rt.alloc(); "{:?}", MessageFault::TooLong)?;
    assert!(rt; text.as_str() == "TooLong");
    Ok(())
}

/// `expired-normal-form`.
const EXPIRED: &[u8] =
    b"\x74\x1f\x30\x1d\x80\x01\x02\xa1\x0a\xa1\x03\x1b\x01\x47\xa2\x03\x1b\x01\x51\xa2\x0c\xa0\x0a\x80\x0820240229";

/// Tells whether the transaction-id of the EXPIRED that is read from a message is written as the entry of its row.
fn has_its_transaction_id(alloc: Global, message: &Message) -> Result<bool, Fail> {
    let apdu = Apdu::from_message(alloc, message)?;
    let Apdu::Expired(expired) = &apdu else {
        return Ok(false);
    };
    let id = expired.head.transaction_id.to_value(alloc)?;
    let Value::Seq(entries) = message.body() else {
        return Ok(false);
    };
    match entries.get(1) {
        Some(Some(entry)) => Ok(equal(entry, &id)),
        _ => Ok(false),
    }
}

#[test]
fn a_message_that_was_read_comes_back(rt: HostRuntime) -> Result<(), Fail> {
    let message = decoded(rt.alloc(), EXPIRED)?;
    assert!(rt; message.octets() == 33);
    assert!(rt; comes_back(rt.alloc(), &message)?);
    assert!(rt; has_its_transaction_id(rt.alloc(), &message)?);
    Ok(())
}
