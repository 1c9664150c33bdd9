//! Lines of the results of lines: of a message that was built, and of a line that is refused.
ghost use Rattle.std.specs.Prelude.{◌≡◌, IfOk, option_map};
ghost use Rattle.json.specs.Tree.{json_tokens};
ghost use Rattle.ill_json.specs.Built.{built_json, built_line_of, unbuilt_json, unbuilt_line_of, why_json};
ghost use Rattle.ill_json.specs.code.Adding.{Adds};

use crate::line::put_file;
use crate::writing::LineWriter;
use json::Token;
use std::alloc::{AllocError, Global};

/// The place of a line: the file that it is in, where it is named, and its number there, from 1.
#[derive(Clone, Copy)]
pub struct LinePlace<'a> {
    pub file: Option<&'a str>,
    pub number: u64,
}

/// The reason why a line is refused.
#[derive(Clone, Copy)]
pub struct Unbuilt<'a> {
    /// The name of the cause.
    pub cause: &'a str,
    /// The place of the value at fault, as a JSON pointer; None for the line itself.
    pub pointer: Option<&'a str>,
    /// The number of the octet at which the text stops being JSON, from 1, where that is the fault.
    pub column: Option<u64>,
}

/// The line of JSON of a message that was built.
///
/// It ends in a line feed, and is an object of these members, in this order: `file`, where it is named; `line`, the number of the line;
/// `apdu`, the name of the APDU; `octets`, how many octets the message has; `message`, these in hexadecimal.
///
/// # Errors
///
/// Only out of memory.
///
/// # Examples
///
/// ```text
/// // {"line":1,"apdu":"Expired","octets":33,"message":"741f.."}
/// let line = built_line(alloc, place, "Expired", &octets)?;
/// ```
pub fn built_line(
    alloc: Global,
    place: LinePlace<'_>,
    apdu: &str,
    octets: &[u8],
) -> Result<Vec<u8>, AllocError>
    ensures { IfOk result (λ line. line.items
        ≡ built_line_of (option_map (λ name. name.now) place.entry.file) place.entry.number
        apdu.now octets.now) }
{
    let mut out = LineWriter::new(alloc, Vec::new(alloc));
    put_built(place, apdu, octets, &mut out);
    out.into_line(alloc)
}

/// The line of JSON of a line that is refused.
///
/// It ends in a line feed, and is an object of these members, in this order: `file`, where it is named; `line`, the number of the line; and
/// `refused`, an object of `cause`, and `pointer` and `column` where there is one.
///
/// # Errors
///
/// Only out of memory.
///
/// # Examples
///
/// ```text
/// // {"line":3,"refused":{"cause":"UnknownName","pointer":"/apdu"}}
/// let line = unbuilt_line(alloc, place, why)?;
/// ```
pub fn unbuilt_line(
    alloc: Global,
    place: LinePlace<'_>,
    why: Unbuilt<'_>,
) -> Result<Vec<u8>, AllocError>
    ensures { IfOk result (λ line. line.items
        ≡ unbuilt_line_of (option_map (λ name. name.now) place.entry.file) place.entry.number
        why.entry.cause.now (option_map (λ name. name.now) why.entry.pointer)
        why.entry.column) }
{
    let mut out = LineWriter::new(alloc, Vec::new(alloc));
    put_unbuilt(place, why, &mut out);
    out.into_line(alloc)
}

/// Puts the object of a message that was built.
fn put_built(place: LinePlace<'_>, apdu: &str, octets: &[u8], out: &mut LineWriter)
    ensures { Adds (json_tokens (built_json (option_map (λ name. name.now) place.entry.file)
        place.entry.number apdu.now octets.now)) out.old out.new }
{
    out.put(Token::BeginObject);
    put_file(place.file, out);
    out.put(Token::Key("line"));
    out.count(place.number);
    out.put(Token::Key("apdu"));
    out.put(Token::String(apdu));
    out.put(Token::Key("octets"));
    out.count(octets.len() as u64);
    out.put(Token::Key("message"));
    out.hexadecimal_of(octets);
    out.put(Token::EndObject);
}

/// Puts the object of a line that is refused.
fn put_unbuilt(place: LinePlace<'_>, why: Unbuilt<'_>, out: &mut LineWriter)
    ensures { Adds (json_tokens (unbuilt_json (option_map (λ name. name.now) place.entry.file)
        place.entry.number why.entry.cause.now (option_map (λ name. name.now) why.entry.pointer)
        why.entry.column)) out.old out.new }
{
    out.put(Token::BeginObject);
    put_file(place.file, out);
    out.put(Token::Key("line"));
    out.count(place.number);
    out.put(Token::Key("refused"));
    put_why(why, out);
    out.put(Token::EndObject);
}

/// Puts the object that says why a line is refused.
fn put_why(why: Unbuilt<'_>, out: &mut LineWriter)
    ensures { Adds (json_tokens (why_json why.entry.cause.now
        (option_map (λ name. name.now) why.entry.pointer) why.entry.column)) out.old out.new }
{
    out.put(Token::BeginObject);
    out.put(Token::Key("cause"));
    out.put(Token::String(why.cause));
    out.text_if("pointer", why.pointer);
    out.count_if("column", why.column);
    out.put(Token::EndObject);
}
