//! Sources that show what they have at hand.
use super::fake::Step::{self, Fails, Moves};
use super::fake::{Log, Scripted, are_first, takes};
use ber_core::{Broken, FromBuffer, FromSlice, Pieces, Source};
use std::alloc::{AllocError, Global};
use std::io::ErrorKind;
use std::test::Fail;

/// A call on a source over a buffered reader.
#[derive(Clone, Copy)]
enum Call {
    /// A `take` with a buffer of this size returns this number; None: it returns [`Broken`].
    Takes(usize, Option<usize>),
    /// A `consume` of the first number of octets, of the second number that are at hand.
    Passes(usize, usize),
}

use Call::{Passes, Takes};

/// A run of calls on a source over a buffered reader.
struct Row {
    name: &'static str,
    /// The steps: one for each call of the reader.
    script: &'static [Step],
    calls: &'static [Call],
    /// The sizes of the buffers that reached the reader.
    reads: &'static [usize],
}

static ROWS: [Row; 9] = [
    Row {
        name: "nothing-at-hand-before-the-first-take",
        script: &[Moves(4)],
        calls: &[Passes(0, 0), Takes(1, Some(1)), Passes(0, 3)],
        reads: &[65_536],
    },
    Row {
        name: "one-read-for-takes-and-passes",
        script: &[Moves(10)],
        calls: &[
            Takes(4, Some(4)),
            Passes(2, 6),
            Takes(1, Some(1)),
            Passes(3, 3),
        ],
        reads: &[65_536],
    },
    Row {
        name: "a-take-ends-with-what-is-at-hand",
        script: &[Moves(10), Moves(10)],
        calls: &[Takes(4, Some(4)), Takes(9, Some(6)), Takes(9, Some(9))],
        reads: &[65_536, 65_536],
    },
    Row {
        name: "whole-buffers",
        script: &[Moves(65_536), Moves(70_000)],
        calls: &[
            Takes(1, Some(1)),
            Passes(65_535, 65_535),
            Takes(1, Some(1)),
            Passes(65_535, 65_535),
        ],
        reads: &[65_536, 65_536],
    },
    Row {
        name: "a-large-take-reads-straight",
        script: &[Moves(70_000), Moves(3)],
        calls: &[
            Takes(70_000, Some(70_000)),
            Passes(0, 0),
            Takes(65_536, Some(3)),
        ],
        reads: &[70_000, 65_536],
    },
    Row {
        name: "end-of-input",
        script: &[Moves(3), Moves(0), Moves(0)],
        calls: &[
            Takes(2, Some(2)),
            Passes(1, 1),
            Takes(2, Some(0)),
            Passes(0, 0),
            Takes(2, Some(0)),
        ],
        reads: &[65_536, 65_536, 65_536],
    },
    Row {
        name: "error-at-call-1",
        script: &[Fails(ErrorKind::Other), Moves(4)],
        calls: &[Takes(4, None), Passes(0, 0), Takes(4, None)],
        reads: &[65_536],
    },
    Row {
        name: "octets-at-hand-before-an-error",
        script: &[Moves(4), Fails(ErrorKind::Other), Moves(4)],
        calls: &[
            Takes(1, Some(1)),
            Takes(2, Some(2)),
            Passes(1, 1),
            Takes(1, None),
            Takes(1, None),
        ],
        reads: &[65_536, 65_536],
    },
    Row {
        name: "interrupted-at-call-2",
        script: &[Moves(4), Fails(ErrorKind::Interrupted), Moves(4)],
        calls: &[
            Takes(1, Some(1)),
            Passes(3, 3),
            Takes(1, None),
            Takes(1, None),
        ],
        reads: &[65_536, 65_536],
    },
];

/// Tells whether as many octets are at hand as must be, and those that are consumed are no longer there. They are added to those that were taken before.
fn passes<S: Source>(
    source: &mut S,
    count: usize,
    buffered: usize,
    taken: &mut Vec<u8>,
) -> Result<bool, AllocError> {
    let shown = source.buffered();
    if shown.len() != buffered || count > buffered {
        return Ok(false);
    }
    taken.extend_from_slice(&shown[..count])?;
    Ok(source.consume(count) == Ok(()))
}

/// Tells whether each call of a row does what it must, on a source that is not broken at first. The octets that it takes are added.
fn calls_do(alloc: Global, row: &Row, log: &Log, taken: &mut Vec<u8>) -> Result<bool, AllocError> {
    let script = row.script;
    let mut source = FromBuffer::new(alloc, Scripted { script, log })?;
    let mut is_right = !source.broken();
    for call in row.calls {
        let is_next_right = match *call {
            Takes(size, want) => takes(alloc, &mut source, size, want, taken)?,
            Passes(count, buffered) => passes(&mut source, count, buffered, taken)?,
        };
        is_right = is_right && is_next_right;
    }
    Ok(is_right)
}

/// Tells whether a row comes true: what each call does, which octets come, and what reaches the reader.
fn comes_true(alloc: Global, row: &Row) -> Result<bool, AllocError> {
    let log = Log::new(alloc);
    let mut taken = Vec::new(alloc);
    let is_right = calls_do(alloc, row, &log, &mut taken)?;
    Ok(is_right && are_first(&taken) && log.has_calls(row.reads))
}

#[test]
fn buffered_readers_show_what_they_read(rt: HostRuntime) -> Result<(), Fail> {
    for row in &ROWS {
        assert!(rt; comes_true(rt.alloc(), row)?, "{}", row.name);
    }
    Ok(())
}

#[test]
fn slices_show_all_that_is_left(rt: HostRuntime) {
    let octets = [1, 2, 3, 4, 5];
    let mut source = FromSlice::new(&octets);
    let mut buffer = [0; 2];
    let is_whole = source.buffered() == octets.as_slice();
    let is_passed = source.consume(2) == Ok(());
    let is_taken = source.take(&mut buffer) == Ok(2) && buffer == [3, 4];
    let is_left = source.buffered() == [5].as_slice() && source.consume(1) == Ok(());
    assert!(rt; is_whole && is_passed && is_taken && is_left);
    assert!(rt; source.take(&mut buffer) == Ok(0) && source.buffered().is_empty());
    assert!(rt; !source.broken());
}

/// Takes an octet, if one is at hand.
fn next<R: Source>(source: &mut R) -> Result<Option<u8>, Broken> {
    let Some(octet) = source.buffered().first().copied() else {
        return Ok(None);
    };
    source.consume(1)?;
    Ok(Some(octet))
}

#[test]
fn sources_show_what_is_at_hand_or_nothing(rt: HostRuntime) {
    let octets = [1, 2];
    let mut slice = FromSlice::new(&octets);
    let seen = [next(&mut slice), next(&mut slice), next(&mut slice)];
    let mut pieces = Pieces::new(&octets, 1, None);
    let unseen = next(&mut pieces);
    assert!(rt; seen == [Ok(Some(1)), Ok(Some(2)), Ok(None)] && unseen == Ok(None));
}

/// A source that says that it has octets at hand, and has no `consume` of its own.
#[derive(Drop)]
struct Plain<'a> {
    octets: Pieces<'a>,
}

impl Source for Plain<'_> {
    ghost use Rattle.std.specs.Prelude.{None};

    ghost left = { λ _. None };

    ghost is_broken = { λ s. s.octets.broken };

    ghost hand_len = { λ _. 2 };

    fn take(&mut self, buffer: &mut [u8]) -> Result<usize, Broken> {
        self.octets.take(buffer)
    }

    fn broken(&self) -> bool {
        self.octets.broken()
    }
}

#[test]
fn octets_are_taken_one_by_one_by_default(rt: HostRuntime) {
    let mut plain = Plain {
        octets: Pieces::new(&[1, 2, 3, 4], 1, Some(3)),
    };
    let mut buffer = [0];
    let is_taken = plain.consume(2) == Ok(()) && plain.take(&mut buffer) == Ok(1) && buffer == [3];
    assert!(rt; is_taken && plain.buffered().is_empty());
    assert!(rt; plain.consume(1) == Err(Broken) && plain.broken());
}
