//! The text that is made, a token at a time.
ghost use Rattle.std.specs.Prelude.{◌≡◌, ◌++◌, ℕ, List, [], ◌∷◌, false, codes, decimal, flat_map, IfOk, OnOk, option_map, string_bytes, vec_capacity};
ghost use Rattle.std.specs.Fmt.{signed_decimal};
ghost use Rattle.std.specs.Str.{chars};
ghost use Rattle.json.specs.Print.{IsPrintable, print};
ghost use Rattle.json.specs.Reads.{token_of};
ghost use Rattle.json.specs.Token.{Token as Put, number, string};
ghost use Rattle.ill_grammar.specs.Marks.{octets_in};
ghost use Rattle.ill_schema.specs.Texts.{characters, hexadecimal, oid_text};
ghost use Rattle.ill_json.specs.Json.{plain};

use crate::ascii::into_ascii;
use ill_grammar::{Mark, add_hexadecimal, add_identifier, add_octets};
use itoa::Buffer;
use json::{Token, Writer};
use std::alloc::{AllocError, Global};

/// The text so far, and whether memory was refused for the rest.
#[derive(Drop)]
pub struct LineWriter {
    writer: Writer,
    // Nothing comes before the tokens.
    ghost alone: { writer.before ≡ [] },
    alloc: Global,
    /// Memory for a string.
    characters: String,
    failed: bool,
}

impl LineWriter {
    ghost use Rattle.ill_json.specs.code.Adding.{Adds, count_tokens, text_tokens};

    /// No text yet, in the memory of `buffer`, whose octets are forgotten.
    pub fn new(alloc: Global, buffer: Vec<u8>) -> LineWriter
        ensures tokens { result.writer.tokens ≡ [] }
        ensures buffer { result.writer.spare ≡ vec_capacity buffer }
        ensures whole { result.failed ≡ false }
    {
        let mut buffer = buffer;
        buffer.clear();
        LineWriter {
            writer: Writer::new(buffer),
            alloc,
            characters: String::new(alloc),
            failed: false,
        }
    }

    /// The text as a line of ASCII.
    pub fn into_line(self, alloc: Global) -> Result<Vec<u8>, AllocError>
        ensures { IfOk result (λ line. (self.failed ≡ false)
            × (line.items ≡ flat_map plain (chars (print self.writer.tokens)) ++ codes "\n")) }
    {
        let LineWriter {
            writer,
            alloc: _,
            characters: _,
            failed,
        } = self;
        if failed {
            return Err(AllocError);
        }
        let mut line = into_ascii(alloc, writer.into_inner())?;
        line.push(b'\n')?;
        Ok(line)
    }

    /// Puts a token.
    pub fn put(&mut self, token: Token<'_>)
        requires { IsPrintable (token_of token) }
        ensures { Adds (token_of token.entry ∷ []) self.old self.new }
    {
        if self.writer.token(token).is_err() {
            self.failed = true;
        }
    }

    /// Puts a count.
    pub fn count(&mut self, count: u64)
        ensures { Adds (number (decimal count) ∷ []) self.old self.new }
    {
        if self.writer.u64(count).is_err() {
            self.failed = true;
        }
    }

    /// Puts the member of a count, if there is one.
    pub fn count_if(&mut self, name: &str, count: Option<u64>)
        ensures { Adds (count_tokens name.now count) self.old self.new }
    {
        match count {
            Some(count) => {
                self.put(Token::Key(name));
                self.count(count);
            }
            None => {}
        }
    }

    /// Puts the member of a text, if there is one.
    pub fn text_if(&mut self, name: &str, text: Option<&str>)
        ensures { Adds (text_tokens name.now (option_map (λ text. text.now) text.entry)) self.old
            self.new }
    {
        match text {
            Some(text) => {
                self.put(Token::Key(name));
                self.put(Token::String(text));
            }
            None => {}
        }
    }

    /// Puts a number of bits, which may be greater than any count.
    pub fn bits(&mut self, count: u128)
        ensures { Adds (number (decimal count) ∷ []) self.old self.new }
    {
        self.put(Token::Number(Buffer::new().format(count)));
    }

    /// Puts a number.
    pub fn whole(&mut self, whole: i64)
        ensures { Adds (number (signed_decimal whole) ∷ []) self.old self.new }
    {
        if self.writer.i64(whole).is_err() {
            self.failed = true;
        }
    }

    /// Puts a string: each octet is the character of its number.
    pub fn octets(&mut self, octets: &[Mark])
        ensures { Adds (string (characters (octets_in octets.now)) ∷ []) self.old self.new }
    {
        self.characters.clear();
        let made = add_characters(&mut self.characters, octets);
        self.put_made(made);
    }

    /// Puts a string: each octet of the marks in hexadecimal.
    pub fn hexadecimal(&mut self, octets: &[Mark])
        ensures { Adds (string (hexadecimal (octets_in octets.now)) ∷ []) self.old self.new }
    {
        self.characters.clear();
        let made = add_hexadecimal(&mut self.characters, octets);
        self.put_made(made);
    }

    /// Puts a string: each octet in hexadecimal.
    pub fn hexadecimal_of(&mut self, octets: &[u8])
        ensures { Adds (string (hexadecimal octets.now) ∷ []) self.old self.new }
    {
        self.characters.clear();
        let made = add_octets(&mut self.characters, octets);
        self.put_made(made);
    }

    /// Puts a string: two names with a dot between them.
    pub fn dotted(&mut self, first: &str, second: &str)
        ensures { Adds (string (first.now ++ codes "." ++ second.now) ∷ []) self.old self.new }
    {
        self.characters.clear();
        let made = add_dotted(&mut self.characters, first, second);
        self.put_made(made);
    }

    /// Puts the text of an OBJECT IDENTIFIER as a string.
    pub fn identifier(&mut self, octets: &[Mark])
        ensures { Adds (string (oid_text (octets_in octets.now)) ∷ []) self.old self.new }
    {
        self.characters.clear();
        let made = add_identifier(&mut self.characters, octets);
        self.put_made(made);
    }

    /// Puts the characters as a string, or notes that memory was refused for them.
    fn put_made(&mut self, made: Result<(), AllocError>)
        ensures { (text : List ℕ) → OnOk made (string_bytes self.old.characters ≡ text)
            → Adds (string text ∷ []) self.old self.new }
    {
        if made.is_err() || self.writer.token(Token::String(&self.characters)).is_err() {
            self.failed = true;
        }
    }

    /// The allocator of its memory.
    pub fn alloc(&self) -> Global
        ensures { result ≡ self.now.alloc }
    {
        self.alloc
    }

    /// Notes that memory was refused.
    pub fn fail(&mut self)
        ensures { (ts : List Put) → Adds ts self.old self.new }
    {
        self.failed = true;
    }
}

/// Adds two names with a dot between them.
fn add_dotted(text: &mut String, first: &str, second: &str) -> Result<(), AllocError>
    ensures { OnOk result (string_bytes text.new ≡ string_bytes text.old
        ++ (first.now ++ codes "." ++ second.now)) }
{
    text.push_str(first)?;
    text.push('.')?;
    text.push_str(second)
}

/// Adds the characters whose numbers the octets are.
fn add_characters(text: &mut String, octets: &[Mark]) -> Result<(), AllocError>
    ensures { OnOk result (string_bytes text.new ≡ string_bytes text.old
        ++ characters (octets_in octets.now)) }
{
    for mark in octets {
        add_character(text, *mark)?;
    }
    Ok(())
}

fn add_character(text: &mut String, mark: Mark) -> Result<(), AllocError>
    ensures { OnOk result (string_bytes text.new ≡ string_bytes text.old
        ++ characters (octets_in (mark ∷ []))) }
{
    match mark {
        Mark::Octet(octet) => text.push(octet as char),
        _ => Ok(()),
    }
}
