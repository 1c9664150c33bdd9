//! Elements that are due at places of a message, by the tags that lead there.

mod contracts;

use ber_core::{Class, Id};
use ill_grammar::{Element, EntryRole, Found, LeafType, Place, Wrapped};
use ill_schema::{NodeId, PartId};

/// A tag on the way to a place: of an element that the way goes into, or of one that it passes.
#[derive(Clone, Copy)]
enum Step {
    Into(Class, u32),
    Past(Class, u32),
}

/// The element that is due with a tag.
fn found(at: Place, class: Class, number: u32) -> Option<Found> {
    at.find(Id::new(class, true, number)?)
}

/// The place that the tags lead to, None where one of them isn't due.
fn place_at(way: &[Step]) -> Option<Place> {
    let mut place = Place::top();
    for step in way {
        place = match *step {
            Step::Into(class, number) => found(place, class, number)?.first(),
            Step::Past(class, number) => found(place, class, number)?.after(),
        };
    }
    Some(place)
}

/// An element, its alternative, and the default of its row.
type Description = (Element, Option<u8>, Option<i64>);

/// A name, the way to a place, the tag of an element that is due there, and its description.
type Row = (&'static str, &'static [Step], (Class, u32), Description);

const EXPIRED: Wrapped = Wrapped {
    part: PartId {
        node: NodeId::IllApdu,
        row: 19,
    },
    node: NodeId::Expired,
};

const PHYSICAL_DELIVERY: Wrapped = Wrapped {
    part: PartId {
        node: NodeId::DeliveryService,
        row: 0,
    },
    node: NodeId::IllString,
};

static ROWS: [Row; 6] = [
    (
        "Expired",
        &[],
        (Class::Application, 20),
        (Element::LooseWrapper(EXPIRED), Some(19), None),
    ),
    (
        "Expired.protocol-version-num",
        &[
            Step::Into(Class::Application, 20),
            Step::Into(Class::Universal, 16),
        ],
        (Class::Context, 0),
        (Element::Leaf(LeafType::Integer), None, None),
    ),
    (
        "ILL-Request.transaction-type",
        &[
            Step::Into(Class::Application, 1),
            Step::Past(Class::Context, 0),
            Step::Past(Class::Context, 1),
            Step::Past(Class::Context, 2),
        ],
        (Class::Context, 5),
        (Element::Leaf(LeafType::Enumerated), None, Some(1)),
    ),
    (
        "ILL-Request.delivery-service",
        &[
            Step::Into(Class::Application, 1),
            Step::Past(Class::Context, 0),
            Step::Past(Class::Context, 1),
            Step::Past(Class::Context, 2),
            Step::Past(Class::Context, 5),
        ],
        (Class::Context, 7),
        (Element::Wrapper(PHYSICAL_DELIVERY), Some(0), None),
    ),
    (
        "its physical-delivery",
        &[
            Step::Into(Class::Application, 1),
            Step::Past(Class::Context, 0),
            Step::Past(Class::Context, 1),
            Step::Past(Class::Context, 2),
            Step::Past(Class::Context, 5),
            Step::Into(Class::Context, 7),
        ],
        (Class::Universal, 26),
        (Element::Leaf(LeafType::Visible), None, None),
    ),
    (
        "a segment of that",
        &[
            Step::Into(Class::Application, 1),
            Step::Past(Class::Context, 0),
            Step::Past(Class::Context, 1),
            Step::Past(Class::Context, 2),
            Step::Past(Class::Context, 5),
            Step::Into(Class::Context, 7),
            Step::Into(Class::Universal, 26),
        ],
        (Class::Universal, 4),
        (Element::Segment, None, None),
    ),
];

/// The description of the element that is due with a tag where a way leads.
fn described(way: &[Step], (class, number): (Class, u32)) -> Option<Description> {
    let found = found(place_at(way)?, class, number)?;
    Some((found.element(), found.alternative(), found.default_value()))
}

#[test]
fn elements_are_due_as_the_rows_say(rt: HostRuntime) {
    for (name, way, tag, description) in &ROWS {
        assert!(rt; described(way, *tag) == Some(*description), "{name}");
    }
}

/// Tells whether a way leads to a place where nothing is due with a tag.
fn is_not_due(way: &[Step], class: Class, number: u32) -> bool {
    place_at(way).is_some_and(|place| found(place, class, number).is_none())
}

#[test]
fn no_other_tag_is_due(rt: HostRuntime) {
    let body = [
        Step::Into(Class::Application, 20),
        Step::Into(Class::Universal, 16),
    ];
    assert!(rt; is_not_due(&[], Class::Context, 20) && is_not_due(&body, Class::Context, 1));
}

/// Tells whether an element is the body of an APDU.
fn is_body(found: Option<Found>, node: NodeId) -> bool {
    found.is_some_and(|found| found.node() == node && found.slot() == EntryRole::Inner)
}

#[test]
fn a_message_begins_with_an_apdu(rt: HostRuntime) {
    let expired = found(Place::top(), Class::Application, 20);
    assert!(rt; is_body(expired, NodeId::Expired) && Place::top().is_missing());
    assert!(rt; expired.is_some_and(|expired| !expired.after().is_missing()));
}

/// The part that is missing where a way leads.
fn missing_at(way: &[Step]) -> Option<PartId> {
    place_at(way)?.missing()
}

#[test]
fn rows_come_in_order(rt: HostRuntime) {
    let part = PartId {
        node: NodeId::Expired,
        row: 1,
    };
    let body = [
        Step::Into(Class::Application, 20),
        Step::Into(Class::Universal, 16),
        Step::Past(Class::Context, 0),
    ];
    let bare = [
        Step::Into(Class::Application, 20),
        Step::Past(Class::Context, 0),
    ];
    assert!(rt; missing_at(&body) == Some(part) && missing_at(&bare) == Some(part));
}
