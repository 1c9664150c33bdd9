//! Octets with the answer by hand, from X.690, 8.1, 8.15 and 10.1.
use super::is_foreign_encoding;

#[test]
fn takes_elements_in_der(rt: HostRuntime) {
    // NULL, INTEGER 5, a SEQUENCE of it, and an empty SEQUENCE.
    assert!(rt; is_foreign_encoding(b"\x05\x00"));
    assert!(rt; is_foreign_encoding(b"\x02\x01\x05"));
    assert!(rt; is_foreign_encoding(b"\x30\x03\x02\x01\x05"));
    assert!(rt; is_foreign_encoding(b"\x30\x00"));
    // Contents are not judged: an INTEGER of no octet, and universal 0 constructed.
    assert!(rt; is_foreign_encoding(b"\x02\x00"));
    assert!(rt; is_foreign_encoding(b"\x20\x00"));
    // Two elements in one, the first of them constructed.
    assert!(rt; !is_foreign_encoding(b"\xBF\x1F\x06\x31\x01\x05\x05\x01\x00"));
    assert!(rt; is_foreign_encoding(b"\xBF\x1F\x07\x31\x02\x05\x00\x01\x01\x00"));
    // Tag numbers of one, two and four octets.
    assert!(rt; is_foreign_encoding(b"\x9F\x1F\x00"));
    assert!(rt; is_foreign_encoding(b"\x5F\x81\x00\x00"));
    assert!(rt; is_foreign_encoding(b"\xDF\xFF\xFF\xFF\x7F\x00"));
}

#[test]
fn refuses_other_octets(rt: HostRuntime) {
    // No octet, a part of an identifier, no length, too few octets, and one too many.
    assert!(rt; !is_foreign_encoding(b""));
    assert!(rt; !is_foreign_encoding(b"\x9F\x81"));
    assert!(rt; !is_foreign_encoding(b"\x05"));
    assert!(rt; !is_foreign_encoding(b"\x04\x02\x00"));
    assert!(rt; !is_foreign_encoding(b"\x05\x00\x00"));
    // An end mark, a tag number below 31 in two octets, one that begins with 80, and one of five octets.
    assert!(rt; !is_foreign_encoding(b"\x00\x00"));
    assert!(rt; !is_foreign_encoding(b"\x9F\x1E\x00"));
    assert!(rt; !is_foreign_encoding(b"\x9F\x80\x1F\x00"));
    assert!(rt; !is_foreign_encoding(b"\x9F\x81\x80\x80\x80\x00\x00"));
    // The indefinite form, and lengths in more octets than they need.
    assert!(rt; !is_foreign_encoding(b"\x30\x80\x00\x00"));
    assert!(rt; !is_foreign_encoding(b"\x04\x81\x01\x00"));
    assert!(rt; !is_foreign_encoding(b"\x04\x80"));
    assert!(rt; !is_foreign_encoding(b"\x04\xFF"));
    assert!(rt; !is_foreign_encoding(b"\x04\x88\x80\x00\x00\x00\x00\x00\x00\x00\x00"));
    // A SEQUENCE whose INTEGER is cut, and one with an indefinite length in it.
    assert!(rt; !is_foreign_encoding(b"\x30\x03\x02\x02\x05"));
    assert!(rt; !is_foreign_encoding(b"\x30\x04\x30\x80\x00\x00"));
}

#[test]
fn takes_long_lengths_in_the_fewest_octets(rt: HostRuntime) {
    // OCTET STRINGs of 127, 128, 255 and 256 octets, and the first three of them with one length octet more.
    let mut octets = [0; 300];
    octets[0] = 0x04;
    octets[1] = 0x7F;
    assert!(rt; is_foreign_encoding(&octets[..129]));
    octets[1] = 0x81;
    octets[2] = 0x7F;
    assert!(rt; !is_foreign_encoding(&octets[..130]));
    octets[2] = 0x80;
    assert!(rt; is_foreign_encoding(&octets[..131]));
    octets[2] = 0xFF;
    assert!(rt; is_foreign_encoding(&octets[..258]) && !is_foreign_encoding(&octets[..257]));
    octets[1] = 0x82;
    octets[2] = 0x00;
    octets[3] = 0x80;
    assert!(rt; !is_foreign_encoding(&octets[..132]));
    octets[3] = 0xFF;
    assert!(rt; !is_foreign_encoding(&octets[..259]));
    octets[2] = 0x01;
    octets[3] = 0x00;
    assert!(rt; is_foreign_encoding(&octets[..260]));
}

#[test]
fn takes_twenty_levels(rt: HostRuntime) {
    // A NULL in 20 SEQUENCEs, one in another, and in 19.
    let octets =
        b"\x30\x28\x30\x26\x30\x24\x30\x22\x30\x20\x30\x1E\x30\x1C\x30\x1A\x30\x18\x30\x16\x30\x14\x30\x12\x30\x10\x30\x0E\x30\x0C\x30\x0A\x30\x08\x30\x06\x30\x04\x30\x02\x05\x00";
    assert!(rt; !is_foreign_encoding(octets));
    assert!(rt; is_foreign_encoding(&octets[2..]));
}
