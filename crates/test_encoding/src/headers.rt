//! Headers of elements, octet by octet.
use ber_core::{Class, Header, HeaderFault, HeaderState, Id, Len, header_size, put_header};

/// The header that the octets are, where they are one.
fn pushed(octets: &[u8]) -> Result<Option<Header>, HeaderFault> {
    let mut state = HeaderState::new();
    for (i, octet) in octets.iter().enumerate() {
        if let Some(header) = state.push(*octet)? {
            return Ok(if i as u64 + 1 == octets.len() as u64 {
                Some(header)
            } else {
                None
            });
        }
    }
    Ok(None)
}

/// The identifier that the octets are, where they are one, and how many octets are due after them.
fn begun(octets: &[u8]) -> Option<(Option<Id>, u32)> {
    let mut state = HeaderState::new();
    for octet in octets {
        if !matches!(&state.push(*octet), Ok(None)) {
            return None;
        }
    }
    Some((state.id(), state.due()))
}

/// Octets, and the class, form and number of the identifier that they are.
static IDENTIFIERS: [(&[u8], Class, bool, u32); 5] = [
    (b"\x9F\x1F", Class::Context, false, 31),
    (b"\xBF\x20", Class::Context, true, 32),
    (b"\xBF\x2E", Class::Context, true, 46),
    (b"\xBF\x31", Class::Context, true, 49),
    (b"\x74", Class::Application, true, 20),
];

#[test]
fn identifiers_have_class_form_and_number(rt: HostRuntime) {
    for (octets, class, constructed, number) in &IDENTIFIERS {
        let id = Id::new(*class, *constructed, *number);
        assert!(rt;
            id.is_some() && begun(octets) == Some((id, 1)),
            "{octets:?}"
        );
    }
}

#[test]
fn no_identifier_for_an_end_mark_or_a_great_number(rt: HostRuntime) {
    assert!(rt;
        Id::new(Class::Universal, false, 0).is_none()
            && Id::new(Class::Universal, true, 0).is_some()
            && Id::new(Class::Private, true, 268_435_455).is_some()
            && Id::new(Class::Private, true, 268_435_456).is_none()
    );
}

/// Octets whose last has a fault.
static FAULTS: [(&str, &[u8], HeaderFault); 8] = [
    ("an end mark's octet", b"\x00", HeaderFault::BadTag),
    ("a padded number", b"\x9F\x80", HeaderFault::BadTag),
    ("a number below 31", b"\x9F\x1E", HeaderFault::BadTag),
    (
        "a number of more than four octets",
        b"\x9F\x81\x80\x80\x80",
        HeaderFault::BadTag,
    ),
    ("a length of FF", b"\x74\xFF", HeaderFault::BadLength),
    (
        "a primitive element of indefinite form",
        b"\x80\x80",
        HeaderFault::BadLength,
    ),
    (
        "a length of FF after a high tag",
        b"\xBF\x2E\xFF",
        HeaderFault::BadLength,
    ),
    (
        "a primitive high tag of indefinite form",
        b"\x9F\x1F\x80",
        HeaderFault::BadLength,
    ),
];

#[test]
fn faults_of_headers(rt: HostRuntime) {
    for (name, octets, fault) in &FAULTS {
        assert!(rt; pushed(octets) == Err(*fault), "{name}");
    }
    let mut state = HeaderState::new();
    assert!(rt;
        state.push(0x00) == Err(HeaderFault::BadTag)
            && state.push(0x74) == Err(HeaderFault::BadTag)
            && state.due() == 0
    );
}

/// Headers of the EXPIRED, each with another form of length.
static LENGTHS: [(&str, &[u8], Len); 5] = [
    ("short", b"\x74\x1F", Len::Definite(31)),
    ("indefinite", b"\x74\x80", Len::Indefinite),
    (
        "long, with leading zeros",
        b"\x74\x84\x00\x00\x00\x1F",
        Len::Definite(31),
    ),
    (
        "four octets",
        b"\x74\x84\xFF\xFF\xFF\xFE",
        Len::Definite(4_294_967_294),
    ),
    (
        "past four octets",
        b"\x74\x85\x01\x00\x00\x00\x00",
        Len::Definite(4_294_967_295),
    ),
];

#[test]
fn headers_with_each_form_of_length(rt: HostRuntime) {
    let expired = Id::new(Class::Application, true, 20);
    for (name, octets, len) in &LENGTHS {
        assert!(rt;
            matches!(pushed(octets), Ok(Some(header)) if Some(header.id) == expired && header.len == *len),
            "{name}"
        );
    }
}

#[test]
fn octets_are_due_in_a_header(rt: HostRuntime) {
    let message = Id::new(Class::Context, true, 46);
    assert!(rt;
        begun(b"") == Some((None, 1))
            && begun(b"\xBF") == Some((None, 1))
            && begun(b"\xBF\x2E") == Some((message, 1))
            && begun(b"\xBF\x2E\xFE") == Some((message, 126))
    );
}

/// Identifiers, lengths, and the shortest header of each.
static SHORTEST: [(Class, bool, u32, u32, &[u8]); 5] = [
    (Class::Application, true, 20, 31, b"\x74\x1F"),
    (Class::Context, true, 46, 300, b"\xBF\x2E\x82\x01\x2C"),
    (Class::Context, false, 31, 127, b"\x9F\x1F\x7F"),
    (Class::Universal, true, 16, 128, b"\x30\x81\x80"),
    (
        Class::Private,
        true,
        268_435_455,
        4_294_967_295,
        b"\xFF\xFF\xFF\xFF\x7F\x84\xFF\xFF\xFF\xFF",
    ),
];

/// Tells whether the header of this identifier and length is these octets, at the front of its room, and the rest of the room stays.
fn is_put(id: Option<Id>, len: u32, octets: &[u8]) -> bool {
    let Some(id) = id else {
        return false;
    };
    let before = [0xAA; 10];
    let mut room = before;
    let size = put_header(id, len, &mut room) as usize;
    header_size(id, len) as usize == size
        && room.get(..size) == Some(octets)
        && room.get(size..) == before.get(size..)
}

#[test]
fn the_shortest_header_is_at_the_front(rt: HostRuntime) {
    for (class, constructed, number, len, octets) in &SHORTEST {
        let id = Id::new(*class, *constructed, *number);
        assert!(rt; is_put(id, *len, octets), "{octets:?}");
    }
}
