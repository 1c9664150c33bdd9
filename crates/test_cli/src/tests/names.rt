//! Names of files as they are printed, and words that are long.
use super::program::Illcanon;
use ill_files::FileName;
use std::alloc::{AllocError, Global};
use std::test::Fail;
use test_host::{NO_FAULTS, Start, Watch, run};

/// Names, and their form in a fault's line, as bash reads it back.
static NAMES: [(&[u8], &[u8]); 20] = [
    (b"messages.ber", b"messages.ber"),
    (b"K\xc3\xb6ln 1'2\"3\\4.ber", b"K\xc3\xb6ln 1'2\"3\\4.ber"),
    (b"", b""),
    (b"a\nillcanon: b", b"$'a\\nillcanon: b'"),
    (b"\x1b[2J", b"$'\\033[2J'"),
    (b"\x7f\t\r", b"$'\\177\\t\\r'"),
    (b"it's\n\\", b"$'it\\'s\\n\\\\'"),
    (b"\xc3\xb6\xc2\x85", b"$'\xc3\xb6\\302\\205'"),
    (b"caf\xe9 'x'", b"$'caf\\351 \\'x\\''"),
    // What looks like this form is not the name of another file.
    (b"$'\\n'", b"$'$\\'\\\\n\\''"),
    (b"$5", b"$5"),
    // RIGHT-TO-LEFT OVERRIDE, and LINE SEPARATOR.
    (b"gpj.\xe2\x80\xaereb", b"$'gpj.\\342\\200\\256reb'"),
    (b"a\xe2\x80\xa8b", b"$'a\\342\\200\\250b'"),
    // PARAGRAPH SEPARATOR, COMBINING GRAPHEME JOINER, HANGUL CHOSEONG FILLER, MONGOLIAN FREE VARIATION SELECTOR THREE, HANGUL FILLER,
    // VARIATION SELECTOR-16, and VARIATION SELECTOR-17.
    (b"a\xe2\x80\xa9b", b"$'a\\342\\200\\251b'"),
    (b"a\xcd\x8fb", b"$'a\\315\\217b'"),
    (b"a\xe1\x85\x9fb", b"$'a\\341\\205\\237b'"),
    (b"a\xe1\xa0\x8db", b"$'a\\341\\240\\215b'"),
    (b"a\xe3\x85\xa4b", b"$'a\\343\\205\\244b'"),
    (b"a\xef\xb8\x8fb", b"$'a\\357\\270\\217b'"),
    (b"a\xf3\xa0\x84\x80b", b"$'a\\363\\240\\204\\200b'"),
];

/// Tells whether a name is printed so.
fn is_printed(alloc: Global, octets: &[u8], want: &[u8]) -> Result<bool, AllocError> {
    let name = FileName(octets.to_vec(alloc)?);
    let line = format!(in alloc; "{name}")?;
    Ok(line.as_bytes() == want)
}

#[test]
fn names_have_one_line(rt: HostRuntime) -> Result<(), Fail> {
    for (octets, want) in &NAMES {
        assert!(rt; is_printed(rt.alloc(), octets, want)?, "{octets:?}");
    }
    Ok(())
}

/// Runs `check` on a name that no file has.
fn check_absent(rt: &HostRuntime, name: &[u8]) -> (u8, usize) {
    let words: [&[u8]; 2] = [b"check", name];
    let ended = run::<Illcanon>(
        rt,
        Start {
            words: &words,
            input: b"",
            standard: None,
            faults: NO_FAULTS,
            terminal: None,
            watch: &Watch::new(),
        },
    );
    (ended.status, ended.errors.len())
}

#[test]
fn words_are_read_whole(rt: HostRuntime) -> Result<(), Fail> {
    let mut long = b"/tmp/".to_vec(rt.alloc())?;
    long.resize(5000, b'a')?;
    let line = "illcanon: cannot open \n".len();
    assert!(rt; check_absent(&rt, &long) == (3, line + 5000));
    // It is no text, and printed as $'caf\351.ber'.
    assert!(rt; check_absent(&rt, b"caf\xe9.ber") == (3, line + 14));
    Ok(())
}

/// Tells whether a run on these words ends with this status, and prints this on standard error.
fn ends_with(rt: &HostRuntime, words: &[&[u8]], status: u8, errors: &[u8]) -> bool {
    let ended = run::<Illcanon>(
        rt,
        Start {
            words,
            input: b"",
            standard: None,
            faults: NO_FAULTS,
            terminal: None,
            watch: &Watch::new(),
        },
    );
    ended.status == status && ended.errors.as_slice() == errors
}

#[test]
fn words_that_are_no_text_stop_no_other(rt: HostRuntime) -> Result<(), Fail> {
    let words: [&[u8]; 3] = [b"check", b"M\xfc.ber", b"/dev/null"];
    assert!(rt;
        ends_with(
            &rt,
            &words,
            3,
            b"illcanon: cannot open $'M\\374.ber': name is not UTF-8 text\n"
        )
    );
    let words: [&[u8]; 3] = [b"check", b"--summary", b"M\xfc.ber"];
    let wanted =
        b"illcanon: cannot open $'M\\374.ber'\nillcanon: 0 files, 0 messages, 0 normal, 0 not normal, 0 refused, 0 octets, 1 not opened\n";
    assert!(rt; ends_with(&rt, &words, 3, wanted));
    let words: [&[u8]; 3] = [b"canonicalise", b"/dev/null", b"M\xfc.der"];
    assert!(rt; ends_with(&rt, &words, 3, b"illcanon: cannot open $'M\\374.der'\n"));
    Ok(())
}

#[test]
fn words_are_printed_with_escapes(rt: HostRuntime) -> Result<(), Fail> {
    let words: [&[u8]; 2] = [b"check", b"--\x1b]0;t\x07\nerror: x"];
    let wanted =
        b"error: unexpected argument '--\\033]0;t\\007\\nerror: x' found\n\n  tip: to pass '--\\033]0;t\\007\\nerror: x' as a value, use '-- --\\033]0;t\\007\\nerror: x'\n\nUsage: illcanon check [OPTIONS] [FILE]...\n\nFor more information, try '--help'.\n";
    assert!(rt; ends_with(&rt, &words, 2, wanted));
    let words: [&[u8]; 2] = [b"\xff\n", b"F"];
    let wanted =
        b"error: unrecognized subcommand '$'\\377\\n''\n\nUsage: illcanon <COMMAND>\n\nFor more information, try '--help'.\n";
    assert!(rt; ends_with(&rt, &words, 2, wanted));
    Ok(())
}
