//! Each public call, on texts and values written by hand.
use crate::{NumberFault, octets_of_characters, octets_of_hexadecimal, whole_number};
use std::test::Fail;

#[test]
fn characters_are_octets(rt: HostRuntime) -> Result<(), Fail> {
    let alloc = rt.alloc();
    for (text, octets) in [
        ("", b"".as_slice()),
        ("Harvard", b"Harvard".as_slice()),
        ("M\u{FC}nchen", b"M\xFCnchen".as_slice()),
        ("\u{0}\u{7F}\u{80}\u{FF}", b"\x00\x7F\x80\xFF".as_slice()),
    ] {
        let found = octets_of_characters(alloc, text)?.ok_or("no octets")?;
        assert_eq!(rt; found.as_slice(), octets, "of {text:?}");
    }
    Ok(())
}

#[test]
fn characters_past_ff_are_none(rt: HostRuntime) -> Result<(), Fail> {
    for text in ["\u{100}", "Brno \u{2014} Praha", "a\u{1F4DA}"] {
        assert!(rt;
            octets_of_characters(rt.alloc(), text)?.is_none(),
            "of {text:?}"
        );
    }
    Ok(())
}

#[test]
fn digits_are_octets(rt: HostRuntime) -> Result<(), Fail> {
    let alloc = rt.alloc();
    for (text, octets) in [
        ("", b"".as_slice()),
        ("00", b"\x00".as_slice()),
        ("09af", b"\x09\xAF".as_slice()),
        ("2a8648ce3d", b"\x2A\x86\x48\xCE\x3D".as_slice()),
    ] {
        let found = octets_of_hexadecimal(alloc, text)?.ok_or("no octets")?;
        assert_eq!(rt; found.as_slice(), octets, "of {text:?}");
    }
    Ok(())
}

#[test]
fn other_digits_are_none(rt: HostRuntime) -> Result<(), Fail> {
    for text in [
        "0",
        "2A",
        "2aF0",
        "0g",
        "0x",
        " 00",
        "0 0",
        "00\n",
        "\u{E9}\u{E9}",
    ] {
        assert!(rt;
            octets_of_hexadecimal(rt.alloc(), text)?.is_none(),
            "of {text:?}"
        );
    }
    Ok(())
}

#[test]
fn decimals_are_numbers(rt: HostRuntime) {
    for (text, number) in [
        ("0", 0),
        ("7", 7),
        ("-1", -1),
        ("1000", 1000),
        ("9223372036854775807", i64::MAX),
        ("-9223372036854775808", i64::MIN),
    ] {
        assert_eq!(rt; whole_number(text), Ok(number), "of {text:?}");
    }
}

#[test]
fn other_decimals_have_faults(rt: HostRuntime) {
    for text in [
        "", "-", "+1", "-0", "00", "01", "-01", "1.0", "1e3", "1E3", " 1", "1 ", "0x1", "--1",
        "1-", "one", "\u{661}",
    ] {
        assert_eq!(rt;
            whole_number(text),
            Err(NumberFault::NotWhole),
            "of {text:?}"
        );
    }
    for text in [
        "9223372036854775808",
        "-9223372036854775809",
        "18446744073709551616",
        "100000000000000000000000000000000000000000000000000000000000000000000000000000000",
    ] {
        assert_eq!(rt;
            whole_number(text),
            Err(NumberFault::TooLong),
            "of {text:?}"
        );
    }
}
