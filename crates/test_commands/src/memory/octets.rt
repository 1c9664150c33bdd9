//! Texts, and messages out of octets.
use super::Row;
use super::given::{EXPIRED, Given};
use ber_core::{FromBuffer, Pieces};
use ber_leaf::Segments;
use ill_normal::{ReadFailure, check_one, is_normal, same_message};
use ill_read::{Decoder, Failure, NormalReader, Progress, decode, read_message};
use ill_schema::{Message, Profile};
use std::alloc::Global;
use test_support::Outcome;

/// The result of each call of this file.
pub fn calls(alloc: Global, given: &Given) -> [Row; 15] {
    let texts = &given.texts;
    [
        ("VisibleText::copy", Outcome::of(texts.visible.copy(alloc))),
        ("GeneralText::copy", Outcome::of(texts.general.copy(alloc))),
        (
            "PrintableText::copy",
            Outcome::of(texts.printable.copy(alloc)),
        ),
        ("DateText::copy", Outcome::of(texts.date.copy(alloc))),
        ("TimeText::copy", Outcome::of(texts.time.copy(alloc))),
        ("IllString::copy", Outcome::of(texts.either.copy(alloc))),
        ("Segments::push", push_segments(alloc)),
        (
            "FromBuffer::new",
            Outcome::of(FromBuffer::new(alloc, EXPIRED)),
        ),
        ("decode", of_decoding(decode(alloc, EXPIRED).map(|_| true))),
        ("Decoder::feed and finish", feed(alloc)),
        ("read_message", read(alloc)),
        ("NormalReader::read_recording", read_and_keep(alloc)),
        ("check_one", check(alloc)),
        ("same_message", same(alloc)),
        ("is_normal", of_decoding(is_normal(alloc, EXPIRED))),
    ]
}

/// Of a call that is to return true.
fn of_decoding(found: Result<bool, Failure>) -> Outcome {
    match found {
        Ok(found) => Outcome::right(found),
        Err(failure) => Outcome::out_of_memory(failure == Failure::OutOfMemory),
    }
}

/// Of a call that is to return a message.
fn of_reading(read: Result<Option<Message>, ReadFailure>) -> Outcome {
    match read {
        Ok(message) => Outcome::right(message.is_some()),
        Err(failure) => Outcome::out_of_memory(failure == ReadFailure::OutOfMemory),
    }
}

/// Segments that are refused leave nothing.
fn push_segments(alloc: Global) -> Outcome {
    let mut segments = Segments::new(alloc);
    let pushed = (segments.push(b"2024"), segments.push(b"0229"));
    let octets = segments.into_octets();
    match pushed {
        (Ok(()), Ok(())) => Outcome::right(octets.as_slice() == b"20240229".as_slice()),
        _ => Outcome::out_of_memory(octets.is_empty()),
    }
}

/// Feeds octets in pieces of as many as are needed.
fn feed_all(decoder: &mut Decoder, octets: &[u8]) -> Result<Progress, Failure> {
    let mut rest = octets;
    let mut progress = Progress::More;
    for _ in 0..=octets.len() {
        let need = decoder.need();
        let size = (need as usize).min(rest.len());
        if size == 0 {
            break;
        }
        progress = decoder.feed(&rest[..size])?;
        rest = &rest[size..];
    }
    Ok(progress)
}

/// A decoder that is out of memory stays so.
fn feed(alloc: Global) -> Outcome {
    let mut decoder = Decoder::new(alloc);
    let fed = feed_all(&mut decoder, EXPIRED);
    let need = decoder.need();
    let again = decoder.feed(b"");
    let finished = decoder.finish();
    match fed {
        Ok(progress) => Outcome::right(progress == Progress::Done && finished.is_ok()),
        Err(failure) => Outcome::out_of_memory(
            failure == Failure::OutOfMemory
                && again == Err(Failure::OutOfMemory)
                && need == 0
                && finished.err() == Some(Failure::OutOfMemory),
        ),
    }
}

fn read(alloc: Global) -> Outcome {
    let mut source = Pieces::new(EXPIRED, 64, None);
    of_reading(read_message(alloc, &mut source))
}

fn read_and_keep(alloc: Global) -> Outcome {
    let mut source = Pieces::new(EXPIRED, 64, None);
    let mut kept = Vec::new(alloc);
    let mut reader = NormalReader::new(alloc);
    match reader.read_recording(Profile::Two, &mut source, Vec::new(alloc), &mut kept) {
        Ok(read) => Outcome::right(read.is_some()),
        Err(failure) => Outcome::out_of_memory(failure == ReadFailure::OutOfMemory),
    }
}

fn check(alloc: Global) -> Outcome {
    let mut source = Pieces::new(EXPIRED, 64, None);
    match check_one(alloc, &mut source) {
        Ok(checked) => Outcome::right(checked.is_some()),
        Err(failure) => Outcome::out_of_memory(failure == ReadFailure::OutOfMemory),
    }
}

fn same(alloc: Global) -> Outcome {
    match same_message(alloc, EXPIRED, EXPIRED) {
        Ok(same) => Outcome::right(same),
        Err((_, failure)) => Outcome::out_of_memory(failure == Failure::OutOfMemory),
    }
}
