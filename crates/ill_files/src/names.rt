//! File names in the lines that the program prints.
use std::alloc::{AllocError, Global};
use std::fmt::{self, Write};
use std::str;
use ucd_category::GeneralCategory;

/// The name of a file, as the octets of a word of the command line.
///
/// It is shown as it is where it is UTF-8 text, has no hidden character (a control, an invisible or a bidirectional format, a separator of
/// lines or paragraphs), and doesn't begin with `$'`; and otherwise in the form `$'..'` of the shell. So no name can end a line or move the
/// cursor, and no two names are shown alike.
#[derive(Debug, Drop, PartialEq, Eq)]
pub struct FileName(pub Vec<u8>);

impl FileName {
    /// The name that a word gives, as [`word`] returns it.
    ///
    /// # Errors
    ///
    /// Only out of memory.
    pub fn of(alloc: Global, word: &str) -> Result<FileName, AllocError> {
        let Some(octets) = word.strip_prefix(NOT_UTF8_MARK) else {
            return Ok(FileName(word.as_bytes().to_vec(alloc)?));
        };
        let mut name = Vec::new(alloc);
        for octet in octets.chars() {
            if let Ok(octet) = u8::try_from(octet) {
                name.push(octet)?;
            }
        }
        Ok(FileName(name))
    }
}

/// The first character of the text that stands for a word that is no UTF-8 text. No word has it, and no file can be opened by a
/// name that has it.
const NOT_UTF8_MARK: char = '\0';

/// A word of the command line as text. One that is no UTF-8 text is NUL and the character of each octet's number, so that it is no option, and
/// names a file that can't be opened.
///
/// # Errors
///
/// Only out of memory.
pub fn word(alloc: Global, octets: Vec<u8>) -> Result<String, AllocError> {
    let octets = match String::from_utf8(octets) {
        Ok(word) => return Ok(word),
        Err(error) => error.into_bytes(),
    };
    let mut word = String::new(alloc);
    word.push(NOT_UTF8_MARK)?;
    for octet in &octets {
        word.push(char::from(*octet))?;
    }
    Ok(word)
}

/// A word with its hidden characters as escapes, so that clap takes it for the same kind of word and can print it. None where it has none.
///
/// # Errors
///
/// Only out of memory.
pub fn printable(alloc: Global, word: &str) -> Result<Option<String>, AllocError> {
    if word.starts_with(NOT_UTF8_MARK) {
        let name = FileName::of(alloc, word)?;
        return Ok(Some(format!(in alloc; "{name}")?));
    }
    if !has_hidden(word) {
        return Ok(None);
    }
    Ok(Some(format!(in alloc; "{}", Escaped(word))?))
}

/// A text with its hidden characters as escapes.
#[derive(Clone, Copy)]
struct Escaped<'a>(&'a str);

impl fmt::Display for Escaped<'_> {
    fn fmt<W: fmt::Write>(&self, f: &mut fmt::Formatter<W>) -> fmt::Result {
        for letter in self.0.chars() {
            if is_hidden(letter) {
                write_escape(f, letter)?;
            } else {
                f.write_char(letter)?;
            }
        }
        Ok(())
    }
}

impl fmt::Display for FileName {
    fn fmt<W: fmt::Write>(&self, f: &mut fmt::Formatter<W>) -> fmt::Result {
        write_name(f, &self.0)
    }
}

/// A name that is kept elsewhere, shown as [`FileName`] shows it.
#[derive(Clone, Copy, Debug, PartialEq, Eq)]
pub struct FileNameRef<'a>(pub &'a [u8]);

impl fmt::Display for FileNameRef<'_> {
    fn fmt<W: fmt::Write>(&self, f: &mut fmt::Formatter<W>) -> fmt::Result {
        write_name(f, self.0)
    }
}

/// The name of a file as lines of the output have it, which is as [`FileName`] shows it.
pub fn printed(alloc: Global, name: &str) -> Result<String, AllocError> {
    format!(in alloc; "{}", FileNameRef(name.as_bytes()))
}

fn write_name<W: fmt::Write>(f: &mut fmt::Formatter<W>, name: &[u8]) -> fmt::Result {
    match str::from_utf8(name) {
        Ok(text) if !has_hidden(text) && !text.starts_with("$'") => f.write_str(text),
        Ok(text) => write_quoted(f, text),
        Err(_) => write_octets(f, name),
    }
}

fn has_hidden(text: &str) -> bool {
    text.chars().any(|letter| is_hidden(letter))
}

/// Tells whether a character is not seen where it is printed, or changes what is seen around it (General_Category Cc, Cf, Zl and Zp, and
/// Default_Ignorable_Code_Point).
fn is_hidden(letter: char) -> bool {
    is_default_ignorable(letter)
        || matches!(
            GeneralCategory::for_char(letter),
            GeneralCategory::Control
                | GeneralCategory::Format
                | GeneralCategory::LineSeparator
                | GeneralCategory::ParagraphSeparator
        )
}

/// Tells whether a character has the property Default_Ignorable_Code_Point of Unicode 16.0, and may be of another category than Format.
fn is_default_ignorable(letter: char) -> bool {
    matches!(
        letter,
        '\u{34f}'
            | '\u{115f}'..='\u{1160}'
            | '\u{17b4}'..='\u{17b5}'
            | '\u{180b}'..='\u{180f}'
            | '\u{2060}'..='\u{206f}'
            | '\u{3164}'
            | '\u{fe00}'..='\u{fe0f}'
            | '\u{ffa0}'
            | '\u{fff0}'..='\u{fff8}'
            | '\u{e0000}'..='\u{e0fff}'
    )
}

/// Writes a text as `$'..'`.
fn write_quoted<W: fmt::Write>(f: &mut fmt::Formatter<W>, text: &str) -> fmt::Result {
    f.write_str("$'")?;
    for letter in text.chars() {
        if is_hidden(letter) || letter == '\'' || letter == '\\' {
            write_escape(f, letter)?;
        } else {
            f.write_char(letter)?;
        }
    }
    f.write_str("'")
}

/// Writes each octet of a character as it is written between `$'` and `'`.
fn write_escape<W: fmt::Write>(f: &mut fmt::Formatter<W>, letter: char) -> fmt::Result {
    let mut room = [0; 4];
    for octet in letter.encode_utf8(&mut room).bytes() {
        write_octet(f, octet)?;
    }
    Ok(())
}

/// Writes octets that are no text as `$'..'`.
fn write_octets<W: fmt::Write>(f: &mut fmt::Formatter<W>, octets: &[u8]) -> fmt::Result {
    f.write_str("$'")?;
    for octet in octets {
        write_octet(f, *octet)?;
    }
    f.write_str("'")
}

/// Writes an octet as it is written between `$'` and `'`: by its letter, or by three octal digits.
fn write_octet<W: fmt::Write>(f: &mut fmt::Formatter<W>, octet: u8) -> fmt::Result {
    match octet {
        b'\n' => f.write_str("\\n"),
        b'\r' => f.write_str("\\r"),
        b'\t' => f.write_str("\\t"),
        b'\'' => f.write_str("\\'"),
        b'\\' => f.write_str("\\\\"),
        b' '..=b'~' => f.write_char(char::from(octet)),
        _ => write!(f, "\\{octet:03o}"),
    }
}
