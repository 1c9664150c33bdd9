//! Ends of elements, by their framing.
use ber_framing::{Framer, Framing};

/// The framing of octets that are fed one by one.
fn pushed(octets: &[u8]) -> Framing {
    let mut framer = Framer::new();
    for octet in octets {
        framer.push(*octet);
    }
    framer.framing()
}

/// The number of octets that are taken of these, which are fed in two slices, and what those are.
fn fed(first: &[u8], second: &[u8]) -> (usize, Framing) {
    let mut framer = Framer::new();
    let mut count = framer.feed(first).min(1 << 32);
    count += framer.feed(second).min(1 << 32);
    (count, framer.framing())
}

/// The same octets are taken of a slice each time, and they are the same. So the contracts leave one result.
fn frames_end_in_one_way(octets: &[u8]) {
    let mut one = Framer::new();
    let mut other = Framer::new();
    let first = one.feed(octets);
    let second = other.feed(octets);
    prove!(first == second);
    prove!(one.framing() == other.framing());
}

/// Tells whether the octets are this, and all that is shorter is part of an element; so also where they are fed in two slices.
fn ends_as(octets: &[u8], frame: Framing) -> bool {
    for cut in 0..octets.len() {
        let (first, second) = octets.split_at(cut);
        if pushed(first) != Framing::Part || fed(first, second) != (octets.len(), frame) {
            return false;
        }
    }
    pushed(octets) == frame
}

/// Each is one element. The fourth is X.690's VisibleString "Jones" in segments.
static ELEMENTS: [&[u8]; 12] = [
    b"\x05\x00",
    b"\x04\x03\x30\x80\xFF",
    b"\x30\x80\x00\x00",
    b"\x3A\x80\x04\x03\x4A\x6F\x6E\x04\x02\x65\x73\x00\x00",
    // A tag number in two octets, one in six, and one whose first octet is 80.
    b"\x9F\x81\x00\x01\x41",
    b"\xDF\xFF\xFF\xFF\xFF\xFF\x7F\x00",
    b"\x5F\x80\x01\x00",
    // A length in one octet and in four, where a short one does.
    b"\x04\x81\x02\x00\x00",
    b"\x24\x84\x00\x00\x00\x01\xFF",
    // An end mark within contents of definite length isn't read, and one element in another has its own.
    b"\xA1\x80\x30\x04\x00\x00\x00\x00\x00\x00",
    b"\xA1\x80\x30\x80\x05\x00\x00\x00\x00\x00",
    // Universal 0 is no end mark where it is constructed.
    b"\x30\x80\x20\x00\x00\x00",
];

#[test]
fn framed_elements_end(rt: HostRuntime) {
    for element in &ELEMENTS {
        assert!(rt; ends_as(element, Framing::Whole), "{element:?}");
    }
}

#[test]
fn nothing_after_an_element_is_taken(rt: HostRuntime) {
    let octets = b"\x30\x80\x04\x01\x00\x00\x00\x00\x00";
    assert!(rt;
        fed(b"\x05", b"\x00\x05\x00") == (2, Framing::Whole)
            && fed(b"\x05\x00", b"\x00") == (2, Framing::Whole)
            && fed(octets, b"\x00") == (7, Framing::Whole)
    );
}

/// Of each the end is not known. Up to its last octet each is part of an element.
static UNFRAMED: [&[u8]; 9] = [
    b"\x00",
    b"\x04\x80",
    b"\x30\xFF",
    b"\x30\x80\x00\x01",
    b"\x30\x80\x04\x80",
    b"\x30\x80\x30\x80\x00\x00\x00\x05",
    // 4,294,967,295 octets, 4,294,967,296 and more; in the last, the octets that follow don't matter.
    b"\x04\x84\xFF\xFF\xFF\xFF",
    b"\x04\x85\x01",
    b"\x30\xFE\x00\x01",
];

#[test]
fn some_ends_are_not_known(rt: HostRuntime) {
    for octets in &UNFRAMED {
        assert!(rt;
            ends_as(octets, Framing::Unframed)
                && fed(octets, b"\x00\x00") == (octets.len(), Framing::Unframed),
            "{octets:?}"
        );
    }
}

#[test]
fn the_greatest_length_is_framed(rt: HostRuntime) {
    let mut framer = Framer::new();
    assert!(rt;
        framer.feed(b"\x04\x86\x00\x00\xFF\xFF\xFF\xFE") == 8
            && framer.missing_len() == 4_294_967_294
    );
    assert!(rt;
        framer.feed(b"\x00\x00\x00") == 3
            && framer.missing_len() == 4_294_967_291
            && framer.framing() == Framing::Part
    );
}

/// Tells whether the octets are taken whole, each time.
fn takes_each(framer: &mut Framer, octets: &[u8], times: u32) -> bool {
    for _ in 0..times {
        if framer.feed(octets) != octets.len() {
            return false;
        }
    }
    true
}

#[test]
fn elements_are_framed_however_deep(rt: HostRuntime) {
    let mut framer = Framer::new();
    assert!(rt;
        takes_each(&mut framer, b"\x30\x80", 100_000)
            && takes_each(&mut framer, b"\x00\x00", 99_999)
            && framer.framing() == Framing::Part
    );
    assert!(rt;
        framer.feed(b"\x00\x00\x00\x00") == 2
            && framer.framing() == Framing::Whole
            && framer.missing_len() == 0
    );
}

/// The first octets of elements, and how many octets of a great length are missing.
static LACKING: [(&[u8], u8); 5] = [
    (b"\x04\x85\x01", 4),
    (b"\x30\xFE\x00\x01", 124),
    (b"\x04\x84\xFF\xFF\xFF\xFF", 0),
    (b"\x04\x80", 0),
    (b"\x04\x85\x00", 0),
];

#[test]
fn octets_of_a_great_length_are_missing(rt: HostRuntime) {
    for (octets, oversized_length_rest) in &LACKING {
        let mut framer = Framer::new();
        assert!(rt;
            framer.feed(octets) == octets.len()
                && framer.oversized_length_rest() == *oversized_length_rest,
            "{octets:?}"
        );
    }
}
