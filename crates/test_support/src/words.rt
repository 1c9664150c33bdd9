//! Messages from words.
use crate::octets::octets_of;
use crate::texts::{date_text, general_text};
use ber_leaf::{IllString, PrintableText, TimeText, VisibleText};
use ill_schema::{Message, Value};
use std::alloc::{AllocError, Global};
use std::boxed::Box;
use std::test::Fail;

/// The head of each APDU: version 2, group "G", qualifier "Q", 29 February 2024.
const HEAD: &str = "2 - general:G general:Q - seq:4 date:20240229 - seq:2 - seq:2 - -";

/// An APDU with every part.
const WHOLE: &str =
    "1 general:g2 alt:0 visible:v3 alt:0 seq:2 general:g4 general:g5 visible:v6 seq:4 date:20240808 time:080856 seq:2 date:20241010 time:101010 seq:2 seq:2 general:g11 alt:0 visible:v12 alt:0 seq:2 general:g13 alt:0 general:g14 alt:0 seq:2";

/// The message of an APDU's number and the parts of its body.
///
/// A value is written part by part, and then what it is: `seq:n` of the last n parts, `list:n`, or
/// `alt:n`, the alternative of row n. `-` is an absent part, `none:n` is n of them, and `head` and
/// `whole` are what each APDU begins with. `hex:` and `letters:n` are GeneralStrings, of these octets
/// and of n letters; `empties:n` is a list of n system ids with nothing in them.
pub fn message(alloc: Global, apdu: &str, parts: &str) -> Result<Message, Fail> {
    match Message::new(apdu.parse::<u8>()?, value(alloc, parts)?) {
        Ok(message) => Ok(message),
        Err((_body, _unfit)) => Err("no message")?,
    }
}

/// The value that words write.
pub fn value(alloc: Global, words: &str) -> Result<Value, Fail> {
    let mut parts = Vec::new(alloc);
    for word in words.split(' ') {
        match word {
            "head" => add_all(alloc, &mut parts, HEAD)?,
            "whole" => add_all(alloc, &mut parts, WHOLE)?,
            _ => add(alloc, &mut parts, word)?,
        }
    }
    match parts.pop() {
        Some(Some(value)) => Ok(value),
        _ => Err("no value")?,
    }
}

fn add_all(alloc: Global, parts: &mut Vec<Option<Value>>, words: &str) -> Result<(), Fail> {
    for word in words.split(' ') {
        add(alloc, parts, word)?;
    }
    Ok(())
}

/// Adds what a word says to the parts.
fn add(alloc: Global, parts: &mut Vec<Option<Value>>, word: &str) -> Result<(), Fail> {
    let (kind, count) = word.split_once(':').unwrap_or((word, ""));
    let part = match kind {
        "-" => None,
        "none" => return Ok(skip(parts, count.parse::<usize>()?)?),
        "seq" => Some(Value::Seq(last(parts, count.parse::<usize>()?)?)),
        "list" => Some(list(alloc, last(parts, count.parse::<usize>()?)?)?),
        "alt" => Some(chosen(alloc, parts, count.parse::<u8>()?)?),
        _ => Some(leaf(alloc, word)?),
    };
    Ok(parts.push(part)?)
}

fn leaf(alloc: Global, word: &str) -> Result<Value, Fail> {
    let (kind, text) = word.split_once(':').unwrap_or((word, ""));
    match kind {
        "false" => Ok(Value::Flag(false)),
        "true" => Ok(Value::Flag(true)),
        "hex" => general(octets_of(alloc, text)?),
        "letters" => general(vec![in alloc; b'A'; text.parse::<usize>()?]?),
        "empties" => empties(alloc, text.parse::<u32>()?),
        "general" | "visible" | "print" | "date" | "time" => {
            string(kind, Vec::from_slice(alloc, text.as_bytes())?)
        }
        _ => Ok(Value::Whole(word.parse::<i64>()?)),
    }
}

/// The string of a kind that has these octets.
fn string(kind: &str, octets: Vec<u8>) -> Result<Value, Fail> {
    match kind {
        "general" => general(octets),
        "visible" => visible(octets),
        "print" => printable(octets),
        "date" => date(octets),
        _ => time(octets),
    }
}

fn general(octets: Vec<u8>) -> Result<Value, Fail> {
    Ok(Value::Str(IllString::General(general_text(octets)?)))
}

fn visible(octets: Vec<u8>) -> Result<Value, Fail> {
    match VisibleText::new(octets) {
        Ok(text) => Ok(Value::Str(IllString::Visible(text))),
        Err(_) => Err("no VisibleString")?,
    }
}

fn printable(octets: Vec<u8>) -> Result<Value, Fail> {
    match PrintableText::new(octets) {
        Ok(text) => Ok(Value::Print(text)),
        Err(_) => Err("no PrintableString")?,
    }
}

fn date(octets: Vec<u8>) -> Result<Value, Fail> {
    Ok(Value::Date(date_text(octets)?))
}

fn time(octets: Vec<u8>) -> Result<Value, Fail> {
    match TimeText::new(octets) {
        Ok(text) => Ok(Value::Time(text)),
        Err(_) => Err("no ISO-Time")?,
    }
}

/// A list of `count` system ids with nothing in them.
fn empties(alloc: Global, count: u32) -> Result<Value, Fail> {
    let mut items = Vec::new(alloc);
    for _ in 0..count {
        let mut entries = Vec::new(alloc);
        skip(&mut entries, 2)?;
        items.push(Value::Seq(entries))?;
    }
    Ok(Value::List(items))
}

/// Takes off the last parts.
fn last(parts: &mut Vec<Option<Value>>, count: usize) -> Result<Vec<Option<Value>>, Fail> {
    if count > parts.len() {
        return Err("too few parts")?;
    }
    let at = parts.len() - count;
    Ok(parts.split_off(at)?)
}

fn skip(parts: &mut Vec<Option<Value>>, count: usize) -> Result<(), AllocError> {
    for _ in 0..count {
        parts.push(None)?;
    }
    Ok(())
}

fn list(alloc: Global, parts: Vec<Option<Value>>) -> Result<Value, Fail> {
    let mut items = Vec::new(alloc);
    for part in parts {
        items.push(part.ok_or("an absent item")?)?;
    }
    Ok(Value::List(items))
}

fn chosen(alloc: Global, parts: &mut Vec<Option<Value>>, number: u8) -> Result<Value, Fail> {
    match parts.pop() {
        Some(Some(value)) => Ok(Value::Alt(number, Box::new(alloc, value)?)),
        _ => Err("no alternative")?,
    }
}
