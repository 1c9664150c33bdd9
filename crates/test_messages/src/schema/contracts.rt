//! Contracts that leave one result. The calls are made on any arguments, often twice, and what they return is proved of their
//! contracts alone. So a body that returns anything else doesn't meet its contract.
ghost use Rattle.std.specs.Prelude.{◌≡◌, ◌≤◌, length, map, slice_get};
ghost use Rattle.ber_leaf.specs.Profile.{profile_two};
ghost use Rattle.ill_schema.specs.Apdu.{normal_form};
ghost use Rattle.ill_schema.specs.Fits.{Fits, FitsApdu};
ghost use Rattle.ill_schema.specs.Value.{apdu_with, content_of};

use ill_schema::{
    Message, NodeId, PartId, Presence, Row, Unfit, Value, apdu_name, apdu_node, equal, fits,
    is_carried, is_default, kind, may_lack, normal_size, part_name, replacement, row, row_names,
    rows, rows_of, wrapper,
};

/// The tables say one thing of each node, part and number.
fn tables_say_one_thing(node: NodeId, part: PartId, number: u8) {
    prove!(kind(node) == kind(node));
    prove!(rows(node) == rows(node));
    prove!(rows_of(node) == rows_of(node));
    prove!(row(part) == row(part));
    prove!(part_name(part) == part_name(part));
    prove!(apdu_node(number) == apdu_node(number));
    prove!(apdu_name(number) == apdu_name(number));
}

/// The rows of a node have one list of names.
fn rows_have_one_list_of_names(node: NodeId) -> (&'static [&'static str], &'static [&'static str])
    ensures { map (λ name. name.now) result.0.now ≡ map (λ name. name.now) result.1.now }
{
    (row_names(node), row_names(node))
}

/// A node has as many rows as are counted, and each is at its number.
fn rows_stand_at_their_numbers(part: PartId) -> (Option<Row>, u8, &'static [Row])
    ensures row { result.0 ≡ slice_get result.2.now part.row }
    ensures rows { result.1 ≡ length result.2.now }
{
    (row(part), rows(part.node), rows_of(part.node))
}

/// A row says one thing of its entry and of its tag.
fn rows_say_one_thing(row: Row, value: &Value, presence: Presence) {
    prove!(is_carried(presence) == is_carried(presence));
    prove!(may_lack(presence) == may_lack(presence));
    prove!(is_default(row, value) == is_default(row, value));
    prove!(wrapper(row) == wrapper(row));
    prove!(replacement(row) == replacement(row));
}

/// Only what is carried must be there, and what is left out may lack.
fn only_what_is_carried_must_be_there(presence: Presence) {
    prove!(is_carried(presence) || may_lack(presence));
    prove!(is_carried(presence) == (presence != Presence::LeftOut));
}

/// A value fits a node or not, and two values are equal or not.
fn values_fit_or_not(value: &Value, other: &Value, node: NodeId) {
    prove!(fits(value, node) == fits(value, node));
    prove!(equal(value, other) == equal(value, other));
    prove!(equal(value, value));
}

/// Equal values fit the same nodes, and are the same default.
fn equal_values_fit_alike(value: &Value, other: &Value, node: NodeId, row: Row) {
    if equal(value, other) {
        prove!(fits(value, node) == fits(other, node));
        prove!(is_default(row, value) == is_default(row, other));
    }
}

/// A value that fits has one size.
fn values_have_one_size(value: &Value, node: NodeId)
    requires { Fits profile_two (content_of value.now) node }
{
    prove!(normal_size(value, node) == normal_size(value, node));
}

/// One message is made of a number and a body, or the body is unfit for one reason.
fn messages_are_made_in_one_way(apdu: u8, body: Value, same: Value)
    requires { body ≡ same }
{
    match (Message::new(apdu, body), Message::new(apdu, same)) {
        (Ok(one), Ok(other)) => {
            prove!(one.apdu() == apdu);
            prove!(one.octets() == other.octets());
            prove!(one.same_apdu(&other));
        }
        (Err((one, why)), Err((other, other_why))) => {
            prove!(why == other_why);
            prove!(equal(&one, &other));
        }
        (Ok(one), Err(_)) => {
            let _ = one.body();
            unreachable!()
        }
        (Err(_), Ok(other)) => {
            let _ = other.body();
            unreachable!()
        }
    }
}

/// A message of parts that are known to fit has these parts.
fn messages_have_their_parts(apdu: u8, body: Value, octets: u32)
    requires fits { FitsApdu profile_two (apdu_with apdu body) }
    requires within { length (normal_form (apdu_with apdu body)) ≤ profile_two.limit }
{
    let message = Message::of(apdu, body, octets);
    prove!(message.apdu() == apdu);
    prove!(message.octets() == octets);
}

/// A message keeps its number, body and size.
fn messages_keep_their_parts(message: &Message, other: &Message) {
    prove!(message.apdu() == message.apdu());
    prove!(message.octets() == message.octets());
    prove!(equal(message.body(), message.body()));
    let is_same = message.apdu() == other.apdu() && equal(message.body(), other.body());
    prove!(message.same_apdu(other) == is_same);
}
