//! Worked contents, with their values from outside.
use ber_leaf::{
    BitString, DateText, Flag, GeneralText, IllString, Leaf, LeafFault, Null, ObjectDescriptor,
    ObjectIdentifier, OctetString, PrintableText, TimeText, VisibleText, Whole,
    enumerated_is_held_as_integer, normal_content_holds_its_value, normal_content_is_least,
    normal_contents_tell_values_apart, octets_hold_one_out, octets_hold_one_value,
    profile_two_holds_what_one_does, whole_numbers_have_bounds,
};
use std::alloc::{AllocError, Global};
use std::test::Fail;
use test_support::{general_string, octets_of};

/// Contents: a name, the kind (B BOOLEAN, I INTEGER, G GeneralString, P PrintableString, V VisibleString, D ISO-Date, T ISO-Time, N NULL,
/// O OBJECT IDENTIFIER, C OCTET STRING, K BIT STRING, R ObjectDescriptor), the octets, and the normal content of the value that they hold.
/// DER writes a text as it is. The last two are the examples of X.690, 8.6.4.2 and 8.19.5.
static CONTENTS: [(&str, &str, &str, &str); 38] = [
    ("boolean-false", "B", "00", "00"),
    ("boolean-true-as-07", "B", "07", "ff"),
    ("integer-zero", "I", "00", "00"),
    ("integer-minus-128", "I", "80", "80"),
    ("integer-128", "I", "0080", "0080"),
    ("integer-minus-129", "I", "ff7f", "ff7f"),
    ("integer-least", "I", "8000000000000000", "8000000000000000"),
    ("general-empty", "G", "", ""),
    ("general-space", "G", "20", "20"),
    ("general-tilde", "G", "7e", "7e"),
    ("general-unit-separator-accepted", "G", "1f", "1f"),
    ("general-delete-accepted", "G", "7f", "7f"),
    ("visible-space", "V", "20", "20"),
    ("printable-amount", "P", "31322e3530", "31322e3530"),
    (
        "joined-date-pieces",
        "D",
        "3230323430323239",
        "3230323430323239",
    ),
    (
        "date-year-zero-leap-day",
        "D",
        "3030303030323239",
        "3030303030323239",
    ),
    (
        "date-leap-century",
        "D",
        "3230303030323239",
        "3230303030323239",
    ),
    ("date-last-day", "D", "3939393931323331", "3939393931323331"),
    (
        "date-day-before-in-common-century",
        "D",
        "3139303030323238",
        "3139303030323238",
    ),
    ("time-of-second-sixty", "T", "323335393630", "323335393630"),
    ("time-of-hour-24", "T", "323430303030", "323430303030"),
    (
        "time-of-second-sixty-at-noon",
        "T",
        "313230303630",
        "313230303630",
    ),
    ("time-of-start-of-day", "T", "303030303030", "303030303030"),
    ("damaged-whole", "N", "", ""),
    ("damaged-units", "O", "2a", "2a"),
    ("external-octets", "O", "2a8648ce13050a", "2a8648ce13050a"),
    (
        "external-large-arc",
        "O",
        "69ffffffffffffffffff7f",
        "69ffffffffffffffffff7f",
    ),
    ("external-octets", "C", "583132333435", "583132333435"),
    ("joined-external-octets", "C", "5831", "5831"),
    ("specific-results", "C", "", ""),
    ("external-bits", "K", "03f8", "03f8"),
    ("external-unused-bits-set", "K", "03ff", "03f8"),
    ("item-external", "K", "00", "00"),
    ("joined-external-bits", "K", "04a5f7", "04a5f0"),
    ("external-descriptor", "R", "1b0eff", "1b0eff"),
    ("joined-external-descriptor", "R", "4100", "4100"),
    (
        "bits-of-an-example",
        "K",
        "040a3b5f291cd0",
        "040a3b5f291cd0",
    ),
    ("identifier-of-an-example", "O", "813403", "813403"),
];

/// A row of octets that are no content: a name, the kind, the octets, and the fault.
static FAULTS: [(&str, &str, &str, LeafFault); 31] = [
    ("boolean-empty", "B", "", LeafFault::BadBoolean),
    ("boolean-two-octets", "B", "0000", LeafFault::BadBoolean),
    (
        "integer-padded-minus-128",
        "I",
        "ff80",
        LeafFault::BadInteger,
    ),
    ("integer-padded-127", "I", "007f", LeafFault::BadInteger),
    ("integer-empty", "I", "", LeafFault::BadInteger),
    (
        "integer-nine-octets-from-01",
        "I",
        "010000000000000000",
        LeafFault::IntegerTooLong,
    ),
    (
        "integer-nine-octets-from-0080",
        "I",
        "008000000000000000",
        LeafFault::IntegerTooLong,
    ),
    (
        "integer-nine-zero-octets",
        "I",
        "000000000000000000",
        LeafFault::BadInteger,
    ),
    ("general-shift-out", "G", "0e", LeafFault::BadText),
    ("visible-delete", "V", "7f", LeafFault::BadText),
    ("printable-asterisk", "P", "2a", LeafFault::BadText),
    ("printable-at", "P", "40", LeafFault::BadText),
    (
        "date-common-century",
        "D",
        "3139303030323239",
        LeafFault::BadDate,
    ),
    (
        "date-month-thirteen",
        "D",
        "3230323431333031",
        LeafFault::BadDate,
    ),
    (
        "date-seven-digits",
        "D",
        "32303234303232",
        LeafFault::BadDate,
    ),
    (
        "date-of-a-letter",
        "D",
        "3230323430323258",
        LeafFault::BadDate,
    ),
    ("time-of-past-24", "T", "323430303031", LeafFault::BadTime),
    (
        "time-of-minute-sixty",
        "T",
        "323336303030",
        LeafFault::BadTime,
    ),
    ("time-of-second-61", "T", "323335393631", LeafFault::BadTime),
    ("time-of-four-digits", "T", "31323030", LeafFault::BadTime),
    (
        "time-past-24-by-a-minute",
        "T",
        "323430313030",
        LeafFault::BadTime,
    ),
    ("damaged-null-with-content", "N", "00", LeafFault::BadNull),
    ("external-oid-empty", "O", "", LeafFault::BadOid),
    ("external-oid-not-ended", "O", "80", LeafFault::BadOid),
    ("external-oid-padded-first", "O", "8001", LeafFault::BadOid),
    (
        "external-oid-padded-later",
        "O",
        "2a8001",
        LeafFault::BadOid,
    ),
    ("oid-not-ended-later", "O", "2a86", LeafFault::BadOid),
    ("external-bits-without-count", "K", "", LeafFault::BadBits),
    ("external-bits-count-8", "K", "0800", LeafFault::BadBits),
    (
        "external-bits-count-of-nothing",
        "K",
        "01",
        LeafFault::BadBits,
    ),
    ("bits-count-past-an-octet", "K", "ff00", LeafFault::BadBits),
];

/// The integers at powers of 256 and at the ends of each size, and one off: their octets and their numbers.
static INTEGERS: [(&str, i64); 77] = [
    ("8000000000000000", -9_223_372_036_854_775_808),
    ("feffffffffffffff", -72_057_594_037_927_937),
    ("ff00000000000000", -72_057_594_037_927_936),
    ("ff00000000000001", -72_057_594_037_927_935),
    ("ff7fffffffffffff", -36_028_797_018_963_969),
    ("80000000000000", -36_028_797_018_963_968),
    ("feffffffffffff", -281_474_976_710_657),
    ("ff000000000000", -281_474_976_710_656),
    ("ff000000000001", -281_474_976_710_655),
    ("ff7fffffffffff", -140_737_488_355_329),
    ("800000000000", -140_737_488_355_328),
    ("feffffffffff", -1_099_511_627_777),
    ("ff0000000000", -1_099_511_627_776),
    ("ff0000000001", -1_099_511_627_775),
    ("ff7fffffffff", -549_755_813_889),
    ("8000000000", -549_755_813_888),
    ("feffffffff", -4_294_967_297),
    ("ff00000000", -4_294_967_296),
    ("ff00000001", -4_294_967_295),
    ("ff7fffffff", -2_147_483_649),
    ("80000000", -2_147_483_648),
    ("feffffff", -16_777_217),
    ("ff000000", -16_777_216),
    ("ff000001", -16_777_215),
    ("ff7fffff", -8_388_609),
    ("800000", -8_388_608),
    ("feffff", -65_537),
    ("ff0000", -65_536),
    ("ff0001", -65_535),
    ("ff7fff", -32_769),
    ("8000", -32_768),
    ("feff", -257),
    ("ff00", -256),
    ("ff01", -255),
    ("ff7f", -129),
    ("80", -128),
    ("fe", -2),
    ("ff", -1),
    ("00", 0),
    ("01", 1),
    ("02", 2),
    ("7f", 127),
    ("0080", 128),
    ("00ff", 255),
    ("0100", 256),
    ("0101", 257),
    ("7fff", 32_767),
    ("008000", 32_768),
    ("00ffff", 65_535),
    ("010000", 65_536),
    ("010001", 65_537),
    ("7fffff", 8_388_607),
    ("00800000", 8_388_608),
    ("00ffffff", 16_777_215),
    ("01000000", 16_777_216),
    ("01000001", 16_777_217),
    ("7fffffff", 2_147_483_647),
    ("0080000000", 2_147_483_648),
    ("00ffffffff", 4_294_967_295),
    ("0100000000", 4_294_967_296),
    ("0100000001", 4_294_967_297),
    ("7fffffffff", 549_755_813_887),
    ("008000000000", 549_755_813_888),
    ("00ffffffffff", 1_099_511_627_775),
    ("010000000000", 1_099_511_627_776),
    ("010000000001", 1_099_511_627_777),
    ("7fffffffffff", 140_737_488_355_327),
    ("00800000000000", 140_737_488_355_328),
    ("00ffffffffffff", 281_474_976_710_655),
    ("01000000000000", 281_474_976_710_656),
    ("01000000000001", 281_474_976_710_657),
    ("7fffffffffffff", 36_028_797_018_963_967),
    ("0080000000000000", 36_028_797_018_963_968),
    ("00ffffffffffffff", 72_057_594_037_927_935),
    ("0100000000000000", 72_057_594_037_927_936),
    ("0100000000000001", 72_057_594_037_927_937),
    ("7fffffffffffffff", 9_223_372_036_854_775_807),
];

/// The normal content of the value that the octets hold, or their fault.
fn normal_of<L: Leaf>(
    alloc: Global,
    octets: Vec<u8>,
) -> Result<Result<Vec<u8>, LeafFault>, AllocError>
where
    L::Out: Drop,
{
    if let Some(fault) = L::check(&octets) {
        return Ok(Err(fault));
    }
    let value = L::of(octets);
    let mut room = vec![in alloc; 0; L::normal_size(&value)]?;
    L::put_normal(&value, &mut room);
    Ok(Ok(room))
}

fn normal_at(
    alloc: Global,
    kind: &str,
    octets: Vec<u8>,
) -> Result<Result<Vec<u8>, LeafFault>, AllocError> {
    match kind {
        "B" => normal_of::<Flag>(alloc, octets),
        "I" => normal_of::<Whole>(alloc, octets),
        "D" => normal_of::<DateText>(alloc, octets),
        "T" => normal_of::<TimeText>(alloc, octets),
        "P" => normal_of::<PrintableText>(alloc, octets),
        "G" => normal_of::<GeneralText>(alloc, octets),
        "N" => normal_of::<Null>(alloc, octets),
        "O" => normal_of::<ObjectIdentifier>(alloc, octets),
        "C" => normal_of::<OctetString>(alloc, octets),
        "K" => normal_of::<BitString>(alloc, octets),
        "R" => normal_of::<ObjectDescriptor>(alloc, octets),
        _ => normal_of::<VisibleText>(alloc, octets),
    }
}

/// Tells whether the octets have this normal content.
fn is_normal(alloc: Global, kind: &str, octets: &str, normal: &str) -> Result<bool, AllocError> {
    let found = normal_at(alloc, kind, octets_of(alloc, octets)?)?;
    let normal = octets_of(alloc, normal)?;
    Ok(matches!(&found, Ok(content) if content.as_slice() == normal.as_slice()))
}

#[test]
fn contents_have_a_normal_content(rt: HostRuntime) -> Result<(), Fail> {
    for (name, kind, octets, normal) in &CONTENTS {
        assert!(rt; is_normal(rt.alloc(), kind, octets, normal)?, "{name}");
    }
    Ok(())
}

#[test]
fn other_octets_have_a_fault(rt: HostRuntime) -> Result<(), Fail> {
    for (name, kind, octets, fault) in &FAULTS {
        let found = normal_at(rt.alloc(), kind, octets_of(rt.alloc(), octets)?)?;
        assert!(rt; found.err() == Some(*fault), "{name}");
    }
    Ok(())
}

/// The truth that the octet is as a BOOLEAN.
fn truth(alloc: Global, octet: u8) -> Result<Option<bool>, AllocError> {
    let octets = vec![in alloc; octet]?;
    if Flag::check(&octets).is_some() {
        return Ok(None);
    }
    Ok(Some(Flag::of(octets)))
}

#[test]
fn all_octets_but_zero_are_true(rt: HostRuntime) -> Result<(), Fail> {
    for octet in 0..=255 {
        assert!(rt; truth(rt.alloc(), octet)? == Some(octet != 0), "{octet}");
    }
    Ok(())
}

/// Tells whether the octets hold the number, and are its normal content.
fn is_whole(alloc: Global, octets: &str, number: i64) -> Result<bool, AllocError> {
    let octets = octets_of(alloc, octets)?;
    let size = Whole::normal_size(&number);
    let mut room = vec![in alloc; 0; size]?;
    Whole::put_normal(&number, &mut room);
    Ok(
        size == octets.len()
            && room == octets
            && Whole::check(&octets).is_none()
            && Whole::of(octets) == number,
    )
}

#[test]
fn integers_have_their_least_octets(rt: HostRuntime) -> Result<(), Fail> {
    for (octets, number) in &INTEGERS {
        assert!(rt; is_whole(rt.alloc(), octets, *number)?, "{number}");
    }
    Ok(())
}

/// Tells whether each alphabet has the octet where it must.
fn is_in_its_alphabets(octet: u8) -> bool {
    let printable = b"ABCDEFGHIJKLMNOPQRSTUVWXYZabcdefghijklmnopqrstuvwxyz0123456789 '()+,-./:=?";
    let text = [octet];
    PrintableText::check(&text).is_none() == printable.contains(&octet)
        && VisibleText::check(&text).is_none() == (octet >= 32 && octet < 127)
        && GeneralText::check(&text).is_none() == (octet != 14 && octet != 15 && octet != 27)
}

#[test]
fn alphabets(rt: HostRuntime) {
    for octet in 0..=255u8 {
        assert!(rt; is_in_its_alphabets(octet), "{octet}");
    }
}

fn time(alloc: Global, digits: &[u8]) -> Result<TimeText, Fail> {
    match TimeText::new(digits.to_vec(alloc)?) {
        Ok(text) => Ok(text),
        Err(_) => Err("no ISO-Time")?,
    }
}

#[test]
fn the_end_of_a_day_is_not_its_start(rt: HostRuntime) -> Result<(), Fail> {
    let start = time(rt.alloc(), b"000000")?;
    let end = time(rt.alloc(), b"240000")?;
    assert!(rt; start != end);
    Ok(())
}

fn bits(alloc: Global, content: &[u8]) -> Result<BitString, Fail> {
    match BitString::new(content.to_vec(alloc)?) {
        Ok(string) => Ok(string),
        Err(_) => Err("no BIT STRING")?,
    }
}

/// The example of X.690, 8.6.4.2, has 44 bits.
#[test]
fn bits_are_counted(rt: HostRuntime) -> Result<(), Fail> {
    let example = bits(rt.alloc(), b"\x04\x0A\x3B\x5F\x29\x1C\xD0")?;
    assert!(rt; example.bit_len() == 44);
    assert!(rt; example.octets() == b"\x0A\x3B\x5F\x29\x1C\xD0".as_slice());
    Ok(())
}

#[test]
fn unused_bits_do_not_count(rt: HostRuntime) -> Result<(), Fail> {
    let five = bits(rt.alloc(), b"\x03\xF8")?;
    assert!(rt; bits(rt.alloc(), b"\x03\xFF")? == five);
    assert!(rt; bits(rt.alloc(), b"\x02\xF8")? != five);
    assert!(rt; bits(rt.alloc(), b"\x03\xF0")? != five);
    Ok(())
}

fn visible(alloc: Global, letters: &[u8]) -> Result<IllString, Fail> {
    match VisibleText::new(letters.to_vec(alloc)?) {
        Ok(text) => Ok(IllString::Visible(text)),
        Err(_) => Err("no VisibleString")?,
    }
}

#[test]
fn strings_of_two_alternatives_differ(rt: HostRuntime) -> Result<(), Fail> {
    let general = general_string(rt.alloc(), "Jones")?;
    let visible = visible(rt.alloc(), b"Jones")?;
    assert!(rt; general.octets() == visible.octets() && general != visible);
    Ok(())
}

#[test]
fn laws() {
    octets_hold_one_value();
    octets_hold_one_out::<Flag>();
    octets_hold_one_out::<Whole>();
    octets_hold_one_out::<GeneralText>();
    octets_hold_one_out::<VisibleText>();
    octets_hold_one_out::<PrintableText>();
    octets_hold_one_out::<DateText>();
    octets_hold_one_out::<TimeText>();
    octets_hold_one_out::<Null>();
    octets_hold_one_out::<ObjectIdentifier>();
    octets_hold_one_out::<OctetString>();
    octets_hold_one_out::<BitString>();
    octets_hold_one_out::<ObjectDescriptor>();
    normal_content_holds_its_value();
    normal_content_is_least();
    normal_contents_tell_values_apart();
    whole_numbers_have_bounds();
    enumerated_is_held_as_integer();
    profile_two_holds_what_one_does();
}
