//! Texts with their octets by hand, from X.690, 8.19.
use super::octets_of_oid;
use std::test::Fail;

#[test]
fn reads_decimals(rt: HostRuntime) -> Result<(), Fail> {
    // The example of X.690, 8.19.5; the greatest second components under 0 and 1, and one past them under 2.
    for (text, want) in [
        ("2.100.3", b"\x81\x34\x03".as_slice()),
        ("0.0", b"\x00"),
        ("0.39", b"\x27"),
        ("1.0", b"\x28"),
        ("1.39", b"\x4F"),
        ("2.0", b"\x50"),
        ("2.47", b"\x7F"),
        ("2.48", b"\x81\x00"),
        ("1.2.840.113549", b"\x2A\x86\x48\x86\xF7\x0D"),
        ("1.2.0.127.128", b"\x2A\x00\x7F\x81\x00"),
        // The greatest number of 63 bits, alone and first.
        (
            "1.2.9223372036854775807",
            b"\x2A\xFF\xFF\xFF\xFF\xFF\xFF\xFF\xFF\x7F",
        ),
        (
            "2.9223372036854775727",
            b"\xFF\xFF\xFF\xFF\xFF\xFF\xFF\xFF\x7F",
        ),
    ] {
        let octets = octets_of_oid(rt.alloc(), text)?.ok_or("none")?;
        assert_eq!(rt; octets.as_slice(), want, "{text}");
    }
    Ok(())
}

#[test]
fn reads_hexadecimal(rt: HostRuntime) -> Result<(), Fail> {
    // The least number of 64 bits, after a first number and alone.
    for (text, want) in [
        (
            "oid 2a81808080808080808000",
            b"\x2A\x81\x80\x80\x80\x80\x80\x80\x80\x80\x00".as_slice(),
        ),
        (
            "oid 81808080808080808000",
            b"\x81\x80\x80\x80\x80\x80\x80\x80\x80\x00",
        ),
    ] {
        let octets = octets_of_oid(rt.alloc(), text)?.ok_or("none")?;
        assert_eq!(rt; octets.as_slice(), want, "{text}");
    }
    Ok(())
}

#[test]
fn refuses_other_texts(rt: HostRuntime) -> Result<(), Fail> {
    for text in [
        // Too few components, empty ones, and other characters.
        "",
        "1",
        "1.",
        ".1.2",
        "1..2",
        "1.2.",
        "1.2 ",
        " 1.2",
        "1,2",
        "1.2.a",
        "1.2.\u{e9}",
        // A sign, zeros before a number, and components that no first number stands for.
        "1.+2",
        "1.-2",
        "01.2",
        "1.02",
        "1.2.00",
        "0.40",
        "1.40",
        "3.0",
        // Numbers of 64 bits and more.
        "1.2.9223372036854775808",
        "2.9223372036854775728",
        "1.2.18446744073709551616",
        "1.2.99999999999999999999999999",
        // No octets, an odd digit, a great letter, short numbers, a first octet 80, and an octet that is not the last.
        "oid ",
        "oid",
        "oid 2",
        "oid 2A81808080808080808000",
        "oid 2a03",
        "oid 2a8081808080808080808000",
        "oid 2a818080808080808080",
        "oid  2a81808080808080808000",
        "OID 2a81808080808080808000",
    ] {
        assert!(rt; octets_of_oid(rt.alloc(), text)?.is_none(), "{text}");
    }
    Ok(())
}
