//! Worked messages, with their sizes from outside.

mod contracts;
mod module;

use ber_core::Class;
use ill_schema::{
    Kind, LIMIT, LeafKind, Message, Mode, NodeId, PartId, Presence, Row, Unfit, Value, apdu_name,
    apdu_node, equal, fits, is_carried, is_default, kind, may_lack, no_octets_change_their_meaning,
    normal_form_is_a_spelling, normal_form_is_no_longer, normal_form_is_one_to_one, normal_size,
    normal_tree_means_the_value, one_meaning, one_value, part_name,
    profile_two_extends_profile_one, replacement, row, rows, rows_of, tables_are_well_formed,
    the_module_reads_profile_two, what_is_meant_fits, worked_messages, wrapper,
};
use std::alloc::Global;
use std::test::Fail;
use test_support::value;

/// A row a line: its name, the APDU's number, the size of the normal form or why there is no message, and the parts of the body,
/// as [`test_support::message`] reads them.
const ROWS: &str = "\
message-new-of-expired 20 33 head - seq:6
message-new-of-no-such-apdu 21 NotCarried head - seq:6
apdu-that-is-left-out 2 NotCarried head - seq:6
apdu-zero 0 NotCarried head - seq:6
too-few-entries 20 DoesNotFit head seq:5
note-within-the-second-limit 17 65536 head letters:65490 - seq:7
note-of-the-limit 17 1048576 head letters:1048526 - seq:7
message-new-past-second-limit 17 TooLong head letters:1048527 - seq:7
request-normal-form 1 54 head 1 none:3 1 list:1 - false false 1 1 seq:4 none:2 3 - none:23 seq:23 none:4 false false none:3 seq:26
sizes-total-of-request-with-delivery 1 62 head 1 - general:mail alt:0 - 1 list:1 - false false 1 1 seq:4 none:2 3 - none:23 seq:23 none:4 false false none:3 seq:26
request-with-empty-client-id 1 56 head 1 none:3 1 list:1 - false false 1 1 seq:4 none:2 3 none:3 seq:3 none:23 seq:23 none:4 false false none:3 seq:26
overdue-normal-form 12 46 head date:20240229 true seq:2 none:2 seq:8
overdue-not-renewable 12 49 head date:20240229 false seq:2 none:2 seq:8
sizes-total-of-deep-answer 4 60 head 3 1 general:L alt:1 - seq:2 none:2 seq:3 list:1 seq:2 alt:2 none:7 seq:14";

/// The body of the Expired that row `expired-normal-form` spells.
fn expired(alloc: Global) -> Result<Value, Fail> {
    value(alloc, "head - seq:6")
}

fn expectation(word: &str) -> Result<Result<u32, Unfit>, Fail> {
    match word {
        "NotCarried" => Ok(Err(Unfit::NotCarried)),
        "DoesNotFit" => Ok(Err(Unfit::DoesNotFit)),
        "TooLong" => Ok(Err(Unfit::TooLong)),
        _ => Ok(Ok(word.parse::<u32>()?)),
    }
}

/// The octets of the normal form, or why there is no message.
fn new_size(apdu: u8, body: Value) -> Result<u32, Unfit> {
    match Message::new(apdu, body) {
        Ok(message) => Ok(message.octets()),
        Err((_body, unfit)) => Err(unfit),
    }
}

fn message(apdu: u8, body: Value) -> Result<Message, Fail> {
    match Message::new(apdu, body) {
        Ok(message) => Ok(message),
        Err((_body, _unfit)) => Err("no message")?,
    }
}

fn refused(apdu: u8, body: Value) -> Result<Value, Fail> {
    match Message::new(apdu, body) {
        Ok(_message) => Err("a message")?,
        Err((body, _unfit)) => Ok(body),
    }
}

/// Tells whether the body of a row is a message of its size, or none for its reason.
fn comes_true(alloc: Global, row: &str) -> Result<bool, Fail> {
    let (_, rest) = row.split_once(' ').ok_or("a name")?;
    let (apdu, rest) = rest.split_once(' ').ok_or("a number")?;
    let (expected, parts) = rest.split_once(' ').ok_or("an outcome")?;
    let apdu = apdu.parse::<u8>()?;
    let expected = expectation(expected)?;
    Ok(new_size(apdu, value(alloc, parts)?) == expected)
}

#[test]
fn messages_are_made_of_bodies_that_fit(rt: HostRuntime) -> Result<(), Fail> {
    for row in ROWS.lines() {
        assert!(rt; comes_true(rt.alloc(), row)?, "{row}");
    }
    assert!(rt; new_size(20, Value::Flag(true)) == Err(Unfit::DoesNotFit));
    assert!(rt; LIMIT == 1_048_576);
    Ok(())
}

#[test]
fn a_refused_body_comes_back(rt: HostRuntime) -> Result<(), Fail> {
    let body = refused(21, expired(rt.alloc())?)?;
    let same = expired(rt.alloc())?;
    assert!(rt; equal(&body, &same));
    Ok(())
}

#[test]
fn values_fit_their_nodes(rt: HostRuntime) -> Result<(), Fail> {
    let flag = Value::Flag(true);
    let least = Value::Whole(-9_223_372_036_854_775_808);
    assert!(rt; !fits(&flag, NodeId::SYSTEM_ID) && fits(&least, NodeId::ENUMERATED));
    assert!(rt; fits(&flag, NodeId::BOOLEAN) && normal_size(&flag, NodeId::BOOLEAN) == Some(3));
    assert!(rt; fits(&least, NodeId::INTEGER) && normal_size(&least, NodeId::INTEGER) == Some(10));
    let due = value(rt.alloc(), "date:20240229 seq:1")?;
    assert!(rt; !fits(&due, NodeId::DATE_DUE));
    Ok(())
}

/// An EXPIRED whose transaction has a group qualifier that is a VisibleString.
const VISIBLE: &str = "2 - visible:G general:Q - seq:4 date:20240229 - seq:2 - seq:2 - - - seq:6";

#[test]
fn visible_differs_from_general(rt: HostRuntime) -> Result<(), Fail> {
    let general = message(20, expired(rt.alloc())?)?;
    let visible = message(20, value(rt.alloc(), VISIBLE)?)?;
    assert!(rt;
        general.same_apdu(&general) && !general.same_apdu(&visible) && visible.octets() == 33,
        "group-qualifier-visible"
    );
    Ok(())
}

#[test]
fn a_message_keeps_its_parts(rt: HostRuntime) -> Result<(), Fail> {
    let made = message(20, expired(rt.alloc())?)?;
    let body = expired(rt.alloc())?;
    assert!(rt; made.apdu() == 20 && equal(made.body(), &body));
    let read = Message::of(20, made.into_body(), 47);
    assert!(rt; read.octets() == 47);
    Ok(())
}

#[test]
fn nodes_have_a_kind_and_rows(rt: HostRuntime) {
    assert!(rt;
        kind(NodeId::SYMBOL) == Kind::Choice
            && kind(NodeId::PRINTABLE_STRING) == Kind::Leaf(LeafKind::Printable)
            && kind(NodeId::LOCS) == Kind::SeqOf
    );
    assert!(rt;
        rows(NodeId::ITEM_ID) == 23
            && rows(NodeId::ILL_REQUEST) == 26
            && rows(NodeId::ILL_STRING) == 0
            && rows_of(NodeId::ILL_APDU).len() == 20
    );
    let past_end = PartId {
        node: NodeId::CANCEL,
        row: 7,
    };
    assert!(rt; row(past_end).is_none() && part_name(past_end).is_none());
}

/// Tells whether this is the row of the flag `renewable`.
fn is_renewable(row: Row) -> bool {
    row.tag == Some((Class::Context, 1))
        && row.mode == Mode::Implicit
        && row.presence == Presence::Default(1)
        && row.node == NodeId::BOOLEAN
}

/// Tells whether its flag may be left out where it is TRUE, and its tag stands for that of the flag.
fn holds_true_by_default(row: Row) -> bool {
    is_default(row, &Value::Flag(true))
        && !is_default(row, &Value::Flag(false))
        && is_carried(row.presence)
        && !may_lack(row.presence)
        && wrapper(row).is_none()
        && replacement(row) == Some((Class::Context, 1))
}

#[test]
fn rows_of_a_date_due(rt: HostRuntime) {
    let renewable = row(PartId {
        node: NodeId::DATE_DUE,
        row: 1,
    });
    assert!(rt; matches!(renewable, Some(row) if is_renewable(row) && holds_true_by_default(row)));
}

/// Parts by their node and row, and their names.
static NAMES: [(NodeId, u8, &str, &str); 6] = [
    (NodeId::EXPIRED, 1, "Expired", "transaction-id"),
    (NodeId::CANCEL, 6, "Cancel", "cancel-extensions"),
    (NodeId::ILL_APDU, 1, "ILL-APDU", "Forward-Notification"),
    (NodeId::ILL_APDU, 18, "ILL-APDU", "Status-Or-Error-Report"),
    (NodeId::ESTIMATE, 0, "Estimate", "cost-estimate"),
    (NodeId::ILL_SERVICE_TYPES, 0, "", "item"),
];

#[test]
fn parts_and_apdus_have_names(rt: HostRuntime) {
    for (node, row, name, entry) in &NAMES {
        let part = PartId {
            node: *node,
            row: *row,
        };
        assert!(rt; part_name(part) == Some((*name, *entry)), "{name}.{entry}");
    }
    assert!(rt;
        apdu_name(17) == Some("Message")
            && apdu_name(19).is_none()
            && apdu_node(17) == Some(NodeId::MESSAGE_APDU)
            && apdu_node(2).is_none()
            && apdu_node(0).is_none()
    );
}

#[test]
fn laws() {
    tables_are_well_formed();
    one_value();
    what_is_meant_fits();
    one_meaning();
    normal_tree_means_the_value();
    normal_form_is_a_spelling();
    normal_form_is_one_to_one();
    normal_form_is_no_longer();
    profile_two_extends_profile_one();
    the_module_reads_profile_two();
    no_octets_change_their_meaning();
    worked_messages();
}
