//! Each call that takes memory, once while there is memory and once while every allocation fails.
//!
//! `rt try` can't run it: what it watches memory with needs memory itself.
use ill_apdu::{Apdu, MessageFault};
use ill_parts::{Part, TransactionId, Typed, optional_value, required_value};
use ill_schema::{Message, Value};
use std::alloc::{AllocError, Global};
use std::test::Fail;
use test_support::{MemoryHog, Outcome, message, value};

/// A message of each APDU: its number, and the parts of its body, as [`test_support::message`] reads them.
const EACH_APDU: &str = "\
1 head 1 none:3 1 list:1 - false false 1 1 seq:4 none:2 3 - none:23 seq:23 none:4 false false none:3 seq:26
3 head none:4 1 - 1 - none:9 seq:9 none:3 seq:17
4 head 7 general:12.50 - seq:2 alt:6 none:7 seq:14
5 head true none:2 seq:8
6 head none:2 seq:7
7 head true none:2 seq:8
8 head none:2 date:20240315 1 none:2 seq:11
9 head none:2 seq:7
10 head - date:20240229 - print:USD print:12.50 seq:2 none:2 seq:11
11 head date:20240229 none:2 seq:8
12 head date:20240229 true seq:2 none:2 seq:8
13 head date:20240331 none:2 seq:8
14 head true none:3 seq:9
15 head none:2 seq:7
16 head none:3 seq:8
17 head general:N - seq:7
18 head none:2 seq:7
20 head - seq:6";

/// The results of calls on parts: `to_value` of a part and of a list, `from_value`, `required_value` and `optional_value`. Those of `ill_parts`
/// that aren't called here take what only the types of these crates have, and are called by them.
fn part_calls<T: Typed>(
    alloc: Global,
    part: &Option<T>,
    list: &Vec<T>,
    value: &Value,
) -> [Outcome; 5] {
    let (of_part, required) = match part {
        Some(part) => (
            Outcome::of(part.to_value(alloc)),
            Outcome::of(required_value(alloc, part)),
        ),
        None => (Outcome::NotBegun, Outcome::NotBegun),
    };
    [
        of_part,
        Outcome::of(list.to_value(alloc)),
        Outcome::of(T::from_value(alloc, value)),
        required,
        Outcome::of(optional_value(alloc, part)),
    ]
}

/// The list of one part that a value is.
fn list_of<T: Typed>(alloc: Global, value: &Value) -> Result<Vec<T>, Fail> {
    let mut list = Vec::new(alloc);
    if let Some(item) = T::from_value(alloc, value)? {
        list.push(item)?;
    }
    Ok(list)
}

/// The results of the calls on a part and a list of it, with memory and then without.
fn calls_with_and_without<T: Typed>(
    alloc: Global,
    part: &Option<T>,
    list: &Vec<T>,
    value: &Value,
) -> Result<[[Outcome; 5]; 2], Fail> {
    let with = part_calls(alloc, part, list, value);
    let hoard = MemoryHog::of_all(alloc)?;
    let is_empty_before = hoard.has_all();
    let without = part_calls(alloc, part, list, value);
    let is_empty = is_empty_before && hoard.has_all();
    drop(hoard);
    if !is_empty {
        return Err("memory was left")?;
    }
    Ok([with, without])
}

/// The results of calls on the part that a value is.
fn calls_on_part<T: Typed>(alloc: Global, value: &Value) -> Result<[[Outcome; 5]; 2], Fail> {
    let list = list_of(alloc, value)?;
    let part: Result<Option<T>, AllocError> = T::from_value(alloc, value);
    match &part {
        Ok(part) => calls_with_and_without(alloc, part, &list, value),
        Err(_) => Err("no memory")?,
    }
}

/// The results of the calls on a part that words write, with memory and then without.
fn part_calls_twice<T: Typed>(alloc: Global, words: &str) -> Result<[[Outcome; 5]; 2], Fail> {
    let value = value(alloc, words)?;
    calls_on_part::<T>(alloc, &value)
}

#[test]
fn calls_on_parts_succeed_with_memory_alone(rt: HostRuntime) -> Result<(), Fail> {
    let found = part_calls_twice::<TransactionId>(rt.alloc(), "- general:G general:Q - seq:4")?;
    assert!(rt;
        found == [[Outcome::Right; 5], [Outcome::OutOfMemory; 5]],
        "{found:?}"
    );
    Ok(())
}

/// The results of `to_message` and `from_message`.
fn apdu_calls(alloc: Global, message: &Message, apdu: &Apdu) -> [Outcome; 2] {
    let sent = match apdu.to_message(alloc) {
        Ok(message) => Outcome::right(message.apdu() == apdu.number()),
        Err(fault) => Outcome::out_of_memory(fault == MessageFault::OutOfMemory),
    };
    [sent, Outcome::of(Apdu::from_message(alloc, message))]
}

/// The results of the calls on an APDU, with memory and then without.
fn apdu_calls_twice(
    alloc: Global,
    message: &Message,
    apdu: &Apdu,
) -> Result<[[Outcome; 2]; 2], Fail> {
    let with = apdu_calls(alloc, message, apdu);
    let hoard = MemoryHog::of_all(alloc)?;
    let is_empty_before = hoard.has_all();
    let without = apdu_calls(alloc, message, apdu);
    let is_empty = is_empty_before && hoard.has_all();
    drop(hoard);
    if !is_empty {
        return Err("memory was left")?;
    }
    Ok([with, without])
}

fn message_calls(alloc: Global, message: &Message) -> Result<[[Outcome; 2]; 2], Fail> {
    let apdu = Apdu::from_message(alloc, message)?;
    apdu_calls_twice(alloc, message, &apdu)
}

fn row_calls(alloc: Global, row: &str) -> Result<[[Outcome; 2]; 2], Fail> {
    let (number, parts) = row.split_once(' ').ok_or("no number")?;
    message_calls(alloc, &message(alloc, number, parts)?)
}

#[test]
fn calls_on_each_apdu_succeed_with_memory_alone(rt: HostRuntime) -> Result<(), Fail> {
    for row in EACH_APDU.lines() {
        let found = row_calls(rt.alloc(), row)?;
        assert!(rt;
            found == [[Outcome::Right; 2], [Outcome::OutOfMemory; 2]],
            "{row}: {found:?}"
        );
    }
    Ok(())
}
