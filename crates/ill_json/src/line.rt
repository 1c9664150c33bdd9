//! Messages as lines.
ghost use Rattle.std.specs.Prelude.{◌≡◌, IfOk, option_map};
ghost use Rattle.json.specs.Tree.{json_tokens};
ghost use Rattle.ill_schema.specs.Apdu.{Apdu, choice_of};
ghost use Rattle.ill_schema.specs.Profiles.{profile_of};
ghost use Rattle.ill_grammar.specs.Outline.{IsMarked, IsOutlineOf};
ghost use Rattle.ill_json.specs.Json.{json_line_in, line_json_in};
ghost use Rattle.ill_json.specs.code.Adding.{Adds, file_tokens, normal_tokens, profile_tokens, start_tokens};

use crate::value::put_value;
use crate::writing::LineWriter;
use ill_grammar::{Mark, Outline, after_leading_mark, alternative};
use ill_schema::{Profile, root_as, row_name, row_node};
use json::Token;
use std::alloc::{AllocError, Global};

/// The head of the line of a message: all of it but the value.
#[derive(Clone, Copy)]
pub struct LineHead {
    /// Its number among the messages of the input, from 1.
    pub number: u32,
    /// The number of octets of the input that come before it.
    pub offset: u64,
    /// The number of octets that it has.
    pub octets: u32,
    /// True if it is in normal form.
    pub is_normal: bool,
}

/// The line of JSON of the message in the profile that the outline is of, in the memory of `buffer`, whose octets are forgotten,
/// or in new memory where a character is written by its number.
///
/// It ends in a line feed, and is an object of these members, in this order:
/// - `file`: the name of the file, where it is given
/// - `number`, `offset`, `octets`: those of the head
/// - `apdu`: the name of the APDU
/// - `profile`: `module` in the module profile; not there in profile 2
/// - `normal`: whether the message is in normal form
/// - `value`: the value of the APDU
///
/// A sequence is an object of the rows that it has, defaults among them; a choice is an object of its
/// alternative; a list is an array. A number is written in full, so a reader that holds it in a double
/// loses what it has beyond 53 bits. A number with a name is an object of `number` and `name`. A string
/// of an ILL-String is an object of `general` or `visible`. In a string each octet is the character of
/// its number. The line is ASCII: DEL and each character beyond ASCII is written by its number, as `\u00e9`.
///
/// Of what only the module profile has, a NULL is null; an OBJECT IDENTIFIER is its text, as
/// `"1.2.840.10003.5.10"`; an OCTET STRING is an object of `octets`, in hexadecimal; a BIT STRING is an
/// object of `bits`, their number, and `octets`; an ObjectDescriptor is a string; a foreign tree is an
/// object of `foreign`, the octets of its encoding in DER, in hexadecimal. EXTERNAL is an object of its
/// own rows.
///
/// # Errors
///
/// Only out of memory.
///
/// # Examples
///
/// ```text
/// let line = json_line(alloc, Profile::Module, buffer, None, head, &outline)?;
/// ```
pub fn json_line(
    alloc: Global,
    profile: Profile,
    buffer: Vec<u8>,
    file: Option<&str>,
    head: LineHead,
    outline: &Outline,
) -> Result<Vec<u8>, AllocError>
    ensures { (a : Apdu) → IsOutlineOf outline.now a → IfOk result (λ line. line.items
        ≡ json_line_in (profile_of profile) (option_map (λ name. name.now) file.entry) head a) }
{
    let mut out = LineWriter::new(alloc, buffer);
    put_line(profile, file, head, outline.marks(), &mut out);
    out.into_line(alloc)
}

/// Puts the object of the message that the marks are of.
fn put_line(
    profile: Profile,
    file: Option<&str>,
    head: LineHead,
    marks: &[Mark],
    out: &mut LineWriter,
)
    ensures { (a : Apdu) → IsMarked (choice_of a) marks.now
        → Adds (json_tokens (line_json_in (profile_of profile)
        (option_map (λ name. name.now) file.entry) head a)) out.old out.new }
{
    match alternative(marks) {
        Some(row) => {
            out.put(Token::BeginObject);
            put_file(file, out);
            let root = root_as(profile);
            put_start(head, row_name(root, row as usize), out);
            put_profile(profile, out);
            put_normal(head, out);
            let node = row_node(root, row as usize);
            out.put(Token::Key("value"));
            let _ = put_value(after_leading_mark(marks), "", node, out);
            out.put(Token::EndObject);
        }
        None => {}
    }
}

/// Puts the member of the file's name, if it is given.
pub(crate) fn put_file(file: Option<&str>, out: &mut LineWriter)
    ensures { Adds (file_tokens (option_map (λ name. name.now) file.entry)) out.old out.new }
{
    match file {
        Some(name) => {
            out.put(Token::Key("file"));
            out.put(Token::String(name));
        }
        None => {}
    }
}

/// Puts the members of the head up to the APDU's name.
pub(crate) fn put_start(head: LineHead, name: &str, out: &mut LineWriter)
    ensures { Adds (start_tokens head name.now) out.old out.new }
{
    out.put(Token::Key("number"));
    out.count(head.number as u64);
    out.put(Token::Key("offset"));
    out.count(head.offset);
    out.put(Token::Key("octets"));
    out.count(head.octets as u64);
    out.put(Token::Key("apdu"));
    out.put(Token::String(name));
}

/// Puts the member of the profile, if it is the module's.
fn put_profile(profile: Profile, out: &mut LineWriter)
    ensures { Adds (profile_tokens (profile_of profile).full) out.old out.new }
{
    match profile {
        Profile::Two => {}
        Profile::Module => {
            out.put(Token::Key("profile"));
            out.put(Token::String("module"));
        }
    }
}

/// Puts the member that says whether the message is in normal form.
pub(crate) fn put_normal(head: LineHead, out: &mut LineWriter)
    ensures { Adds (normal_tokens head) out.old out.new }
{
    out.put(Token::Key("normal"));
    out.put(Token::Bool(head.is_normal));
}
