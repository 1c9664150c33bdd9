//! Lines of results: of a message without its value, and of one that is refused.
ghost use Rattle.std.specs.Prelude.{◌≡◌, ◌++◌, codes, IfOk, option_map};
ghost use Rattle.json.specs.Tree.{json_tokens};
ghost use Rattle.ill_schema.specs.Names.{cause_part_name_of, dotted_name};
ghost use Rattle.ill_json.specs.Results.{kind_name, refused_json, refused_line_of, result_json, result_line_of, why_json};
ghost use Rattle.ill_json.specs.code.Adding.{Adds, digest_tokens, text_tokens};

use crate::line::{LineHead, put_file, put_normal, put_start};
use crate::place::put_place;
use crate::writing::LineWriter;
use ill_inputs::RefusalPlace;
use ill_schema::{Cause, Refusal};
use json::Token;
use std::alloc::{AllocError, Global};

/// The kind of a refusal: what it says of the message.
#[derive(Clone, Copy, Debug, PartialEq, Eq)]
pub enum RefusalKind {
    /// No message begins there: the octets begin no APDU.
    NoMessage,
    /// ISO 10161-1 allows what is there, and the profile doesn't read it, or a limit of the reader is passed.
    NotRead,
    /// It is no message of ISO 10161-1.
    Invalid,
}

impl RefusalKind {
    /// The name of the kind: `no message`, `not read` or `invalid`.
    pub fn name(self) -> &'static str
        ensures { result.now ≡ kind_name self }
    {
        match self {
            RefusalKind::NoMessage => "no message",
            RefusalKind::NotRead => "not read",
            RefusalKind::Invalid => "invalid",
        }
    }
}

/// The line of a message that is refused: all of it but the names of its file and its APDU.
#[derive(Clone, Copy)]
pub struct RefusedHead {
    /// Its number among the messages of the input, from 1.
    pub number: u32,
    /// The number of octets of the input that come before it.
    pub offset: u64,
    /// The number of octets that it has; None where its end is unknown.
    pub octets: Option<u64>,
    pub refusal: Refusal,
    pub kind: RefusalKind,
}

/// The line of JSON of a message without its value, in the memory of `buffer`, whose octets are forgotten.
///
/// It has the members of [`json_line`](crate::json_line) but `profile` and `value`, and at the end `digest`, in hexadecimal, where it is given.
///
/// # Errors
///
/// Only out of memory.
///
/// # Examples
///
/// ```text
/// // {"number":1,"offset":0,"octets":33,"apdu":"Expired","normal":true}
/// let line = result_line(alloc, Vec::new(alloc), None, head, "Expired", None)?;
/// ```
pub fn result_line(
    alloc: Global,
    buffer: Vec<u8>,
    file: Option<&str>,
    head: LineHead,
    apdu: &str,
    digest: Option<&[u8]>,
) -> Result<Vec<u8>, AllocError>
    ensures { IfOk result (λ line. line.items
        ≡ result_line_of (option_map (λ name. name.now) file.entry) head apdu.now
        (option_map (λ octets. octets.now) digest.entry)) }
{
    let mut out = LineWriter::new(alloc, buffer);
    put_result(file, head, apdu, digest, &mut out);
    out.into_line(alloc)
}

/// The line of JSON of a message that is refused, in the memory of `buffer`, whose octets are forgotten.
///
/// It ends in a line feed, and is an object of these members, in this order:
/// - `file`: the name of the file, where it is given
/// - `number`, `offset`: those of the head
/// - `octets`: the number of its octets, where its end is known
/// - `apdu`: the name of the APDU, where it is given
/// - `refused`: an object of `cause`, its name; `offset`, that of the refusal in the message; `kind`, `no message`, `not read` or `invalid`;
///   `clause`, that of the cause; `part`, the names of the node and the row that the cause is about, where it is about one; and `path`,
///   `found` and `due`, an array, those of the place that say something
///
/// # Errors
///
/// Only out of memory.
///
/// # Examples
///
/// ```text
/// // {"number":2,"offset":44,"octets":2,"apdu":"Expired","refused":{"cause":"Missing","offset":2,"kind":"invalid","clause":..}}
/// let line = refused_line(alloc, Vec::new(alloc), None, head, Some("Expired"), &place)?;
/// ```
pub fn refused_line(
    alloc: Global,
    buffer: Vec<u8>,
    file: Option<&str>,
    head: RefusedHead,
    apdu: Option<&str>,
    place: &RefusalPlace,
) -> Result<Vec<u8>, AllocError>
    ensures { IfOk result (λ line. line.items
        ≡ refused_line_of (option_map (λ name. name.now) file.entry) head
        (option_map (λ name. name.now) apdu.entry) place.now) }
{
    let mut out = LineWriter::new(alloc, buffer);
    put_refused(file, head, apdu, place, &mut out);
    out.into_line(alloc)
}

/// Puts the object of a message without its value.
fn put_result(
    file: Option<&str>,
    head: LineHead,
    apdu: &str,
    digest: Option<&[u8]>,
    out: &mut LineWriter,
)
    ensures { Adds (json_tokens (result_json (option_map (λ name. name.now) file.entry) head
        apdu.now (option_map (λ octets. octets.now) digest.entry))) out.old out.new }
{
    out.put(Token::BeginObject);
    put_file(file, out);
    put_start(head, apdu, out);
    put_normal(head, out);
    put_digest(digest, out);
    out.put(Token::EndObject);
}

/// Puts the member of a digest, if it is given.
fn put_digest(digest: Option<&[u8]>, out: &mut LineWriter)
    ensures { Adds (digest_tokens (option_map (λ octets. octets.now) digest.entry)) out.old out.new }
{
    match digest {
        Some(octets) => {
            out.put(Token::Key("digest"));
            out.hexadecimal_of(octets);
        }
        None => {}
    }
}

/// Puts the object of a message that is refused.
fn put_refused(
    file: Option<&str>,
    head: RefusedHead,
    apdu: Option<&str>,
    place: &RefusalPlace,
    out: &mut LineWriter,
)
    ensures { Adds (json_tokens (refused_json (option_map (λ name. name.now) file.entry) head
        (option_map (λ name. name.now) apdu.entry) place.now)) out.old out.new }
{
    out.put(Token::BeginObject);
    put_file(file, out);
    out.put(Token::Key("number"));
    out.count(head.number as u64);
    out.put(Token::Key("offset"));
    out.count(head.offset);
    out.count_if("octets", head.octets);
    out.text_if("apdu", apdu);
    out.put(Token::Key("refused"));
    put_why(head.refusal, head.kind, place, out);
    out.put(Token::EndObject);
}

/// Puts the object that says why a message is refused.
fn put_why(refusal: Refusal, kind: RefusalKind, place: &RefusalPlace, out: &mut LineWriter)
    ensures { Adds (json_tokens (why_json refusal kind place.now)) out.old out.new }
{
    out.put(Token::BeginObject);
    out.put(Token::Key("cause"));
    out.put(Token::String(refusal.cause.name()));
    out.put(Token::Key("offset"));
    out.count(refusal.at as u64);
    out.put(Token::Key("kind"));
    out.put(Token::String(kind.name()));
    out.put(Token::Key("clause"));
    out.put(Token::String(refusal.cause.clause()));
    put_part_name(refusal.cause, out);
    put_place(place, out);
    out.put(Token::EndObject);
}

/// Puts the member of the part that a cause is about, if there is one.
fn put_part_name(cause: Cause, out: &mut LineWriter)
    ensures { Adds (text_tokens (codes "part")
        (option_map dotted_name (cause_part_name_of cause))) out.old out.new }
{
    match cause.part_name() {
        Some((node, row)) => {
            out.put(Token::Key("part"));
            out.dotted(node, row);
        }
        None => {}
    }
}
