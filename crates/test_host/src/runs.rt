//! Runs of a program in a folder with files.
use crate::fake::{Ended, Fake, Faults, NO_FAULTS, Start, Watch};
use crate::folders::folder;
use std::alloc::AllocError;
use std::fs;
use std::test::Fail;
use test_support::octets_of;

/// A program over this runtime. It is a type, so that what runs it is proved before the program is.
pub trait Program {
    /// Runs the program, and returns its status.
    fn status(fake: &Fake<'_>) -> u8;
}

/// Runs a program.
pub fn run<P: Program>(host: &HostRuntime, start: Start<'_>) -> Ended {
    let fake = Fake::new(host, start);
    let status = P::status(&fake);
    fake.ended(status)
}

/// An EXPIRED in normal form.
pub const EXPIRED: &[u8] =
    b"\x74\x1f\x30\x1d\x80\x01\x02\xa1\x0a\xa1\x03\x1b\x01\x47\xa2\x03\x1b\x01\x51\xa2\x0c\xa0\x0a\x80\x0820240229";

/// EXPIRED in indefinite lengths.
pub const INDEFINITE: &[u8] =
    b"\x74\x80\x30\x80\x80\x01\x02\xa1\x80\xa1\x80\x1b\x01\x47\x00\x00\xa2\x80\x1b\x01\x51\x00\x00\x00\x00\xa2\x80\xa0\x80\x80\x0820240229\x00\x00\x00\x00\x00\x00\x00\x00";

/// The content of OUT before each run.
pub const BEFORE: &[u8] = b"what was there before";

/// Octets that a run leaves.
#[derive(Clone, Copy)]
pub enum Octets {
    Text(&'static [u8]),
    /// A text that begins so.
    Begins(&'static [u8]),
    /// The first of a text over and over, this number.
    Repeated(&'static [u8], usize),
}

use Octets::{Begins, Repeated, Text};

/// A run of the program in the folder, and how it must end.
pub struct Row {
    /// The words of the command line, divided by spaces.
    pub words: &'static str,
    pub input: &'static [u8],
    /// The file that standard input and output are, where they are a file.
    pub standard: Option<&'static str>,
    pub faults: Faults,
    /// Standard error is a terminal, and this number of milliseconds goes by until the clock is read the next time.
    pub terminal: Option<u64>,
    pub status: u8,
    pub output: Octets,
    pub errors: &'static str,
    /// The content of OUT after it.
    pub out: Octets,
}

/// A run that ends with status 0, prints nothing and leaves OUT as it was.
pub const QUIET: Row = Row {
    words: "",
    input: b"",
    standard: None,
    faults: NO_FAULTS,
    terminal: None,
    status: 0,
    output: Text(b""),
    errors: "",
    out: Text(BEFORE),
};

/// Names of files, and their octets as [`octets_of`] reads them. A to D are an EXPIRED in normal form, in indefinite lengths, with its first
/// text as a VisibleString, and cut short with an octet after it that begins nothing that is due. In `first`, `middle`, `last` and `endless`
/// a message is refused: one with nothing in it, whose end is known, or one without its second part, whose end mark is missing. E and F are an
/// EXPIRED with an extension, in normal form and spelled in another way, which only the module profile reads; G is a refused message and E.
static FILES: [(&str, &str); 22] = [
    (
        "A",
        "741f301d800102a10aa1031b0147a2031b0151a20ca00a80083230323430323239",
    ),
    (
        "B",
        "74803080800102a180a1801b01470000a2801b015100000000a280a080800832303234303232390000000000000000",
    ),
    (
        "C",
        "741f301d800102a10aa1031a0147a2031b0151a20ca00a80083230323430323239",
    ),
    ("D", "741f301d800102a2"),
    (
        "E",
        "742d302b800102a10aa1031b0147a2031b0151a20ca00a80083230323430323239bf310b3009800101a20430020500",
    ),
    (
        "F",
        "74343032800102a10aa1031b0147a2031b0151a20ca00a80083230323430323239bf31123010800101810100a2803080050000000000",
    ),
    (
        "G",
        "7400 742d302b800102a10aa1031b0147a2031b0151a20ca00a80083230323430323239bf310b3009800101a20430020500",
    ),
    (
        "first",
        "7400 741f301d800102a10aa1031b0147a2031b0151a20ca00a80083230323430323239 74803080800102a180a1801b01470000a2801b015100000000a280a080800832303234303232390000000000000000",
    ),
    (
        "middle",
        "741f301d800102a10aa1031b0147a2031b0151a20ca00a80083230323430323239 7400 741f301d800102a10aa1031b0147a2031b0151a20ca00a80083230323430323239",
    ),
    (
        "last",
        "741f301d800102a10aa1031b0147a2031b0151a20ca00a80083230323430323239 741f301d800102a10aa1031b0147a2031b0151a20ca00a80083230323430323239 7400",
    ),
    (
        "endless",
        "741f301d800102a10aa1031b0147a2031b0151a20ca00a80083230323430323239 748030808001020000 741f301d800102a10aa1031b0147a2031b0151a20ca00a80083230323430323239",
    ),
    // No message begins with the NULL, nor with `From: a library`, whose end isn't known.
    (
        "mail",
        "0500 741f301d800102a10aa1031b0147a2031b0151a20ca00a80083230323430323239 7400 46726f6d3a2061206c696272617279",
    ),
    ("none", ""),
    (
        "two",
        "74803080800102a180a1801b01470000a2801b015100000000a280a080800832303234303232390000000000000000 75",
    ),
    ("bad", "75"),
    (
        "refused",
        "741f301d800102a10aa1031b0147a2031b0151a20ca00a80083230323430323239 741f301d800102a2",
    ),
    (
        "many",
        "741f301d800102a10aa1031b0147a2031b0151a20ca00a80083230323430323239*3000",
    ),
    // 1,200,000 octets of a message are more than a message may have.
    (
        "long",
        "741f301d800102a10aa1031b0147a2031b0151a20ca00a80083230323430323239 748400124f80 00*1200000 741f301d800102a10aa1031b0147a2031b0151a20ca00a80083230323430323239",
    ),
    // A refused message of 20,004 octets, and twenty thousand of two octets each.
    ("large", "74824e20 80 05*19999"),
    ("refusals", "7400*20000"),
    // A list of a thousand names.
    ("thousand", "4100*1000"),
    // A name with a line end.
    (
        "n\nm",
        "741f301d800102a10aa1031b0147a2031b0151a20ca00a80083230323430323239",
    ),
];

/// Names of files of text: hexadecimal digits, lines, and lists of names.
static TEXTS: [(&str, &[u8]); 15] = [
    (
        "hex",
        b"741f301d800102a10aa1031b0147a2031b0151a20ca00a80083230323430323239\n7400 741f301d800102a10aa1031b0147a2031b0151a20ca00a80083230323430323239\n",
    ),
    ("line", b"7g\n"),
    (
        "extended",
        b"742d302b800102a10aa1031b0147a2031b0151a20ca00a80083230323430323239bf310b3009800101a20430020500\n",
    ),
    ("list", b"B\0A"),
    ("no-name", b""),
    ("one-name", b"A\0"),
    ("no-last-end", b"A"),
    ("name-twice", b"A\0A\0"),
    ("absent-name", b"O\0A"),
    ("empty-name", b"A\0\0"),
    ("absent-line-end", b"A\0x\ny\0"),
    ("no-text", b"A\0caf\xe9\0"),
    ("dashes", b"-\0-\0"),
    ("one-dash", b"A\0-"),
    ("line-end", b"A\0n\nm\0"),
];

fn write_files(rt: &HostRuntime) -> Result<(), Fail> {
    for (name, octets) in &FILES {
        fs::write(rt, name, octets_of(rt.alloc(), octets)?.as_slice())?;
    }
    for (name, text) in &TEXTS {
        fs::write(rt, name, *text)?;
    }
    fs::create_dir(rt, "folder")?;
    Ok(())
}

/// Makes a folder with the files, and goes there.
pub fn enter(rt: &HostRuntime) -> Result<String, Fail> {
    let folder = folder(rt)?;
    std::env::set_current_dir(rt, folder.as_str())?;
    write_files(rt)?;
    Ok(folder)
}

pub fn leave(rt: &HostRuntime, folder: &str) -> Result<(), Fail> {
    Ok(fs::remove_dir_all(rt, folder)?)
}

/// Tells whether the octets are the first of a text over and over.
fn are_repeated(octets: &[u8], text: &[u8]) -> bool {
    for part in octets.chunks(text.len().max(1)) {
        if !text.starts_with(part) {
            return false;
        }
    }
    true
}

fn are(octets: &[u8], wanted: Octets) -> bool {
    match wanted {
        Text(text) => octets == text,
        Begins(text) => octets.starts_with(text),
        Repeated(text, count) => octets.len() == count && are_repeated(octets, text),
    }
}

/// Tells whether a file holds these octets.
pub fn holds(rt: &HostRuntime, name: &str, wanted: Octets) -> Result<bool, Fail> {
    Ok(are(fs::read(rt, name)?.as_slice(), wanted))
}

/// The words of a line.
fn words_of(rt: &HostRuntime, line: &'static str) -> Result<Vec<&'static [u8]>, AllocError> {
    let mut words = Vec::new(rt.alloc());
    for word in line.split(' ') {
        words.push(word.as_bytes())?;
    }
    Ok(words)
}

/// Runs the program on the words of a line and this input.
pub fn run_line<P: Program>(
    rt: &HostRuntime,
    line: &'static str,
    input: &[u8],
) -> Result<Ended, Fail> {
    let words = words_of(rt, line)?;
    Ok(run::<P>(
        rt,
        Start {
            words: &words,
            input,
            standard: None,
            faults: NO_FAULTS,
            terminal: None,
            watch: &Watch::new(),
        },
    ))
}

/// Runs the program on the words of a line, where these calls fail.
pub fn run_with_faults<P: Program>(
    rt: &HostRuntime,
    line: &'static str,
    faults: Faults,
) -> Result<Ended, Fail> {
    let words = words_of(rt, line)?;
    Ok(run::<P>(
        rt,
        Start {
            words: &words,
            input: b"",
            standard: None,
            faults,
            terminal: None,
            watch: &Watch::new(),
        },
    ))
}

/// Tells whether a run ends as a row says.
fn ends_right<P: Program>(rt: &HostRuntime, row: &Row) -> Result<bool, Fail> {
    let words = words_of(rt, row.words)?;
    let ended = run::<P>(
        rt,
        Start {
            words: &words,
            input: row.input,
            standard: row.standard,
            faults: row.faults,
            terminal: row.terminal,
            watch: &Watch::new(),
        },
    );
    Ok(
        ended.status == row.status
            && are(&ended.output, row.output)
            && ended.errors.as_slice() == row.errors.as_bytes(),
    )
}

/// Tells whether a row comes true. No other file is left beside OUT.
pub fn comes_true<P: Program>(rt: &HostRuntime, row: &Row) -> Result<bool, Fail> {
    fs::write(rt, "OUT", BEFORE)?;
    Ok(ends_right::<P>(rt, row)? && holds(rt, "OUT", row.out)? && !fs::exists(rt, "OUT.part")?)
}

/// The words of the first row that doesn't come true, in the folder where this is.
fn first_wrong_here<P: Program>(
    rt: &HostRuntime,
    rows: &'static [Row],
) -> Result<Option<&'static str>, Fail> {
    for row in rows {
        if !comes_true::<P>(rt, row)? {
            return Ok(Some(row.words));
        }
    }
    Ok(None)
}

/// The words of the first row that doesn't come true.
fn first_wrong<P: Program>(
    rt: &HostRuntime,
    rows: &'static [Row],
) -> Result<Option<&'static str>, Fail> {
    let folder = enter(rt)?;
    let wrong = first_wrong_here::<P>(rt, rows)?;
    leave(rt, folder.as_str())?;
    Ok(wrong)
}

/// Does a test of rows, which fails with the words of the first row that doesn't come true.
///
/// # Errors
///
/// The words of that row, or a fault of the host.
pub fn test_rows<P: Program>(rt: &HostRuntime, rows: &'static [Row]) -> Result<(), Fail> {
    fail_with(first_wrong::<P>(rt, rows)?)
}

/// Fails with a text, if there is one.
pub fn fail_with(wrong: Option<&'static str>) -> Result<(), Fail> {
    match wrong {
        Some(text) => Err(Fail::from(text)),
        None => Ok(()),
    }
}
