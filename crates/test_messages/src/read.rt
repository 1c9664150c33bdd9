//! Worked inputs through the decoder and the reader.
mod contracts;
mod module;
mod module_rows;
mod rows;

use ber_core::{Broken, Pieces, Source};
use ill_read::{Decoder, Failure, Progress, ReadFailure, decode, read_message};
use ill_schema::{Cause, Message, Refusal};
use rows::ROWS;
use std::alloc::{AllocError, Global};
use std::test::Fail;
use test_support::octets_of;

const EXPIRED: &[u8] =
    b"\x74\x1f\x30\x1d\x80\x01\x02\xa1\x0a\xa1\x03\x1b\x01\x47\xa2\x03\x1b\x01\x51\xa2\x0c\xa0\x0a\x80\x0820240229";

fn refusal_text(alloc: Global, refusal: Refusal) -> Result<String, AllocError> {
    let Refusal { at, cause } = refusal;
    let name = cause.name();
    match cause.part_name() {
        Some((node, row)) => format!(in alloc; "{name} {node}.{row} {at}"),
        None => format!(in alloc; "{name} - {at}"),
    }
}

fn outcome(alloc: Global, answer: Result<Message, Failure>) -> Result<String, AllocError> {
    match answer {
        Ok(message) => format!(in alloc; "ok {}", message.octets()),
        Err(Failure::OutOfMemory) => format!(in alloc; "OutOfMemory"),
        Err(Failure::Refused(refusal)) => refusal_text(alloc, refusal),
    }
}

fn message_at_end(octets: usize, message: Option<Message>) -> Result<Message, Failure> {
    match message {
        Some(message) if message.octets() as usize == octets => Ok(message),
        Some(message) => Err(Failure::Refused(Refusal {
            at: message.octets(),
            cause: Cause::TrailingBytes,
        })),
        None => Err(Failure::Refused(Refusal {
            at: 0,
            cause: Cause::Truncated,
        })),
    }
}

/// Feeds a piece to a decoder that needs as many octets; None where it needs fewer.
fn feed(decoder: &mut Decoder, piece: &[u8]) -> Option<Result<Progress, Failure>> {
    if piece.len() > decoder.need() as usize {
        return None;
    }
    Some(decoder.feed(piece))
}

/// The message in pieces of at most this number of octets, and never more than it needs.
fn in_pieces(alloc: Global, octets: &[u8], max_len: usize) -> Result<Message, Failure> {
    let mut decoder = Decoder::new(alloc);
    let mut rest = octets;
    for _ in 0..=octets.len() {
        let size = (decoder.need() as usize).min(max_len).min(rest.len());
        let Some(progress) = feed(&mut decoder, &rest[..size]) else {
            break;
        };
        if size == 0 || progress? == Progress::Done {
            break;
        }
        rest = &rest[size..];
    }
    message_at_end(octets.len(), decoder.finish()?)
}

/// The octets of a row in pieces, and the outcome.
fn parts_of(row: &str) -> Option<(&str, &str)> {
    let (_, row) = row.split_once('|')?;
    row.split_once('|')
}

fn is_outcome(
    alloc: Global,
    answer: Result<Message, Failure>,
    want: &str,
) -> Result<bool, AllocError> {
    Ok(outcome(alloc, answer)?.as_str() == want)
}

/// The octets of a row, and its outcome.
fn octets_of_row(alloc: Global, row: &str) -> Result<(Vec<u8>, &str), Fail> {
    match parts_of(row) {
        Some((pieces, want)) => Ok((octets_of(alloc, pieces)?, want)),
        None => Err("no row")?,
    }
}

/// Tells whether a row has its outcome whole, and in pieces of up to 7 octets and of as many as are needed.
fn comes_true(alloc: Global, row: &str) -> Result<bool, Fail> {
    let (octets, want) = octets_of_row(alloc, row)?;
    Ok(
        is_outcome(alloc, decode(alloc, &octets), want)?
            && is_outcome(alloc, in_pieces(alloc, &octets, 7), want)?
            && is_outcome(alloc, in_pieces(alloc, &octets, 1_048_576), want)?,
    )
}

#[test]
fn each_row_has_its_outcome(rt: HostRuntime) -> Result<(), Fail> {
    for row in ROWS.lines() {
        assert!(rt; comes_true(rt.alloc(), row)?, "{row}");
    }
    Ok(())
}

fn comes_true_octet_by_octet(alloc: Global, row: &str) -> Result<bool, Fail> {
    let (octets, want) = octets_of_row(alloc, row)?;
    Ok(is_outcome(alloc, in_pieces(alloc, &octets, 1), want)?)
}

#[test]
fn each_row_has_its_outcome_octet_by_octet(rt: HostRuntime) -> Result<(), Fail> {
    for row in ROWS.lines() {
        assert!(rt; comes_true_octet_by_octet(rt.alloc(), row)?, "{row}");
    }
    Ok(())
}

/// The needs of the decoder before each piece of this size, and at the end.
fn needs(alloc: Global, octets: &[u8]) -> Result<Vec<u32>, Fail> {
    let mut decoder = Decoder::new(alloc);
    let mut needs = Vec::new(alloc);
    let mut rest = octets;
    for _ in 0..=octets.len() {
        let need = decoder.need();
        needs.push(need)?;
        let size = (need as usize).min(rest.len());
        if size == 0 {
            break;
        }
        let fed = feed(&mut decoder, &rest[..size]);
        rest = &rest[size..];
        let wanted = if rest.is_empty() {
            Progress::Done
        } else {
            Progress::More
        };
        if fed != Some(Ok(wanted)) {
            return Err(Fail::from("done elsewhere"));
        }
    }
    match decoder.finish() {
        Ok(Some(_)) => Ok(needs),
        _ => Err(Fail::from("no message")),
    }
}

/// A name, a message, and what the decoder needs before each piece, and at the end.
static NEEDS: [(&str, &str, &[u32]); 3] = [
    (
        "decoder-need-definite",
        "741f301d800102a10aa1031b0147a2031b0151a20ca00a80083230323430323239",
        &[1, 1, 31, 0],
    ),
    (
        "decoder-need-length-of-four",
        "74840000001f301d800102a10aa1031b0147a2031b0151a20ca00a80083230323430323239",
        &[1, 1, 4, 31, 0],
    ),
    (
        "decoder-need-length-of-126",
        "74fe 00*125 1f301d800102a10aa1031b0147a2031b0151a20ca00a80083230323430323239",
        &[1, 1, 126, 31, 0],
    ),
];

#[test]
fn needs_what_certainly_belongs(rt: HostRuntime) -> Result<(), Fail> {
    for (name, pieces, want) in &NEEDS {
        let found = needs(rt.alloc(), &octets_of(rt.alloc(), pieces)?)?;
        assert!(rt; found.as_slice() == *want, "{name}");
    }
    Ok(())
}

/// The answers to a piece that isn't refused.
const MORE: Option<Result<Progress, Failure>> = Some(Ok(Progress::More));

const DONE: Option<Result<Progress, Failure>> = Some(Ok(Progress::Done));

/// An EXPIRED with indefinite lengths.
const INDEFINITE: &str =
    "74803080800102a180a1801b01470000a2801b015100000000a280a080800832303234303232390000000000000000";

fn count_of(needs: &[u32], wanted: u32) -> u32 {
    let mut count = 0u32;
    for need in needs {
        if *need == wanted {
            count = count.saturating_add(1);
        }
    }
    count
}

#[test]
fn indefinite_lengths_need_one_octet_but_for_contents(rt: HostRuntime) -> Result<(), Fail> {
    let found = needs(rt.alloc(), &octets_of(rt.alloc(), INDEFINITE)?)?;
    assert!(rt; found.len() == 41 && count_of(&found, 8) == 1 && count_of(&found, 1) == 39);
    Ok(())
}

#[test]
fn what_ends_early_is_truncated(rt: HostRuntime) {
    let empty = Decoder::new(rt.alloc());
    assert!(rt; empty.need() == 1 && matches!(empty.finish(), Ok(None)));
    let mut early = Decoder::new(rt.alloc());
    let truncated = Failure::Refused(Refusal {
        at: 2,
        cause: Cause::Truncated,
    });
    assert!(rt;
        feed(&mut early, &EXPIRED[..1]) == MORE
            && feed(&mut early, &EXPIRED[1..2]) == MORE
            && early.finish().err() == Some(truncated)
    );
}

#[test]
fn stays_refused_and_stays_done(rt: HostRuntime) {
    let mut decoder = Decoder::new(rt.alloc());
    let refusal = Failure::Refused(Refusal {
        at: 7,
        cause: Cause::UnexpectedTag,
    });
    assert!(rt;
        feed(&mut decoder, &EXPIRED[..1]) == MORE
            && feed(&mut decoder, &EXPIRED[1..2]) == MORE
            && feed(&mut decoder, &EXPIRED[2..7]) == MORE
            && feed(&mut decoder, &[0xA2]) == Some(Err(refusal))
    );
    assert!(rt; decoder.need() == 0 && feed(&mut decoder, &[]) == Some(Err(refusal)));
    assert!(rt; decoder.finish().err() == Some(refusal));
    let mut done = Decoder::new(rt.alloc());
    assert!(rt;
        feed(&mut done, &EXPIRED[..1]) == MORE
            && feed(&mut done, &EXPIRED[1..2]) == MORE
            && feed(&mut done, &EXPIRED[2..]) == DONE
    );
    assert!(rt; done.need() == 0 && feed(&mut done, &[]) == DONE);
    assert!(rt; feed(&mut done, &[0]) == None);
}

/// The size and the APDU of the next message of a source.
fn read<S: Source>(alloc: Global, source: &mut S) -> Result<Option<(u32, u8)>, ReadFailure> {
    let message = read_message(alloc, source)?;
    Ok(message.map(|message| (message.octets(), message.apdu())))
}

#[test]
fn reads_from_a_source(rt: HostRuntime) {
    let mut source = Pieces::new(EXPIRED, 5, None);
    assert!(rt;
        read(rt.alloc(), &mut source) == Ok(Some((33, 20)))
            && read(rt.alloc(), &mut source) == Ok(None)
    );
    let mut broken = Pieces::new(EXPIRED, 5, Some(7));
    assert!(rt; read(rt.alloc(), &mut broken) == Err(ReadFailure::ReadFault));
}

/// Octets, and then others for ever.
#[derive(Drop)]
struct Endless {
    front: &'static [u8],
    over: &'static [u8],
    at: usize,
}

impl Source for Endless {
    ghost use Rattle.std.specs.Prelude.{None, false};

    ghost left = { λ _. None };

    ghost is_broken = { λ _. false };

    fn take(&mut self, buffer: &mut [u8]) -> Result<usize, Broken> {
        for room in buffer.iter_mut() {
            match self.front.split_first() {
                Some((first, rest)) => {
                    *room = *first;
                    self.front = rest;
                }
                None => {
                    *room = self.over.get(self.at).copied().unwrap_or(0);
                    let next = self.at.saturating_add(1);
                    self.at = if next < self.over.len() { next } else { 0 };
                }
            }
        }
        Ok(buffer.len())
    }

    fn broken(&self) -> bool {
        false
    }
}

/// A name, octets, those that follow for ever, and the refusal.
static ENDLESS: [(&str, &[u8], &[u8], Refusal); 2] = [
    (
        "endless-segments-second-limit",
        b"\x74\x80\x30\x80\x80\x01\x02\xa1\x80\xa1\x80\x3b\x80",
        b"\x04\x00",
        Refusal {
            at: 1_048_575,
            cause: Cause::TooLong,
        },
    ),
    (
        "endless-zeros",
        b"",
        b"\x00",
        Refusal {
            at: 0,
            cause: Cause::BadTag,
        },
    ),
];

#[test]
fn ends_at_endless_sources(rt: HostRuntime) {
    for (name, front, over, refusal) in &ENDLESS {
        let mut source = Endless { front, over, at: 0 };
        assert!(rt;
            read(rt.alloc(), &mut source) == Err(ReadFailure::Refused(*refusal)),
            "{name}"
        );
    }
}
