//! Sinks over writers.
use super::fake::Step::{self, Fails, Moves};
use super::fake::{Log, Scripted, octet_at};
use ber_core::{Broken, Sink, ToWrite};
use std::alloc::{AllocError, Global};
use std::io::ErrorKind;
use std::test::Fail;

/// A run of calls on a sink over a writer.
struct Row {
    name: &'static str,
    /// The steps: one for each call of the writer.
    script: &'static [Step],
    /// The number of octets that the piece of each `put` has, and how many it returns; None: it returns [`Broken`].
    puts: &'static [(usize, Option<usize>)],
    /// The sizes of the pieces that reached the writer.
    writes: &'static [usize],
}

/// Writes that take octets break nothing, whatever the size of the piece; nor does an empty piece of which none is taken.
static WHOLE: [Row; 10] = [
    Row {
        name: "piece-of-1",
        script: &[Moves(1)],
        puts: &[(1, Some(1))],
        writes: &[1],
    },
    Row {
        name: "piece-of-2",
        script: &[Moves(2)],
        puts: &[(2, Some(2))],
        writes: &[2],
    },
    Row {
        name: "piece-of-3",
        script: &[Moves(3)],
        puts: &[(3, Some(3))],
        writes: &[3],
    },
    Row {
        name: "piece-of-64",
        script: &[Moves(64)],
        puts: &[(64, Some(64))],
        writes: &[64],
    },
    Row {
        name: "piece-of-4096",
        script: &[Moves(4096)],
        puts: &[(4096, Some(4096))],
        writes: &[4096],
    },
    Row {
        name: "piece-larger-than-what-is-taken",
        script: &[Moves(4096), Moves(1), Moves(2)],
        puts: &[(9000, Some(4096)), (9000, Some(1)), (9000, Some(2))],
        writes: &[9000, 9000, 9000],
    },
    Row {
        name: "pieces-of-all-sizes",
        script: &[
            Moves(9000),
            Moves(9000),
            Moves(9000),
            Moves(9000),
            Moves(9000),
            Moves(9000),
        ],
        puts: &[
            (9000, Some(9000)),
            (1, Some(1)),
            (4096, Some(4096)),
            (2, Some(2)),
            (64, Some(64)),
            (3, Some(3)),
        ],
        writes: &[9000, 1, 4096, 2, 64, 3],
    },
    Row {
        name: "one-octet-at-a-time",
        script: &[Moves(1), Moves(1), Moves(1)],
        puts: &[(64, Some(1)), (64, Some(1)), (64, Some(1))],
        writes: &[64, 64, 64],
    },
    Row {
        name: "empty-piece",
        script: &[Moves(5), Moves(5)],
        puts: &[(0, Some(0)), (5, Some(5))],
        writes: &[0, 5],
    },
    Row {
        name: "nothing-taken-of-an-empty-piece",
        script: &[Moves(0), Moves(2)],
        puts: &[(0, Some(0)), (2, Some(2))],
        writes: &[0, 2],
    },
];

/// A write that returns an error, or takes nothing of a piece that isn't empty, breaks the sink, and no later call reaches the writer.
static BROKEN: [Row; 11] = [
    Row {
        name: "error-at-call-1",
        script: &[Fails(ErrorKind::Other), Moves(4)],
        puts: &[(4, None), (4, None), (4, None)],
        writes: &[4],
    },
    Row {
        name: "error-at-call-2",
        script: &[Moves(4), Fails(ErrorKind::Other), Moves(4)],
        puts: &[(4, Some(4)), (4, None), (4, None)],
        writes: &[4, 4],
    },
    Row {
        name: "error-at-call-3",
        script: &[Moves(1), Moves(4), Fails(ErrorKind::Other), Moves(4)],
        puts: &[(4, Some(1)), (4, Some(4)), (4, None), (4, None)],
        writes: &[4, 4, 4],
    },
    Row {
        name: "interrupted-at-call-1",
        script: &[Fails(ErrorKind::Interrupted), Moves(4)],
        puts: &[(4, None), (4, None)],
        writes: &[4],
    },
    Row {
        name: "interrupted-at-call-2",
        script: &[Moves(4), Fails(ErrorKind::Interrupted), Moves(4)],
        puts: &[(4, Some(4)), (4, None), (4, None)],
        writes: &[4, 4],
    },
    Row {
        name: "would-block-at-call-2",
        script: &[Moves(4), Fails(ErrorKind::WouldBlock), Moves(4)],
        puts: &[(4, Some(4)), (4, None), (4, None)],
        writes: &[4, 4],
    },
    Row {
        name: "nothing-taken-at-call-1",
        script: &[Moves(0), Moves(4)],
        puts: &[(4, None), (4, None), (4, None)],
        writes: &[4],
    },
    Row {
        name: "nothing-taken-at-call-2",
        script: &[Moves(4), Moves(0), Moves(4)],
        puts: &[(4, Some(4)), (4, None), (4, None)],
        writes: &[4, 4],
    },
    Row {
        name: "nothing-taken-of-1",
        script: &[Moves(0), Moves(1)],
        puts: &[(1, None), (1, None)],
        writes: &[1],
    },
    Row {
        name: "error-in-a-piece-of-1",
        script: &[Fails(ErrorKind::Other), Moves(1)],
        puts: &[(1, None), (1, None)],
        writes: &[1],
    },
    Row {
        name: "error-in-an-empty-piece",
        script: &[Fails(ErrorKind::Other), Moves(4)],
        puts: &[(0, None), (4, None)],
        writes: &[0],
    },
];

/// Tells whether a `put` of a piece of this size does what it must. The piece follows what was taken; what is taken of it is added.
fn puts<S: Sink>(
    alloc: Global,
    sink: &mut S,
    size: usize,
    want: Option<usize>,
    taken: &mut Vec<u8>,
) -> Result<bool, AllocError> {
    let mut piece = vec![in alloc; 0; size]?;
    for (i, octet) in piece.iter_mut().enumerate() {
        *octet = octet_at(taken.len().saturating_add(i));
    }
    let count = sink.put(&piece);
    taken.extend_from_slice(&piece[..want.unwrap_or(0).min(size)])?;
    Ok(count == want.ok_or(Broken) && sink.broken() == want.is_none())
}

/// Tells whether each `put` of a row does what it must, on a sink that is not broken at first. The octets that were taken are added.
fn calls_do(alloc: Global, row: &Row, log: &Log, taken: &mut Vec<u8>) -> Result<bool, AllocError> {
    let script = row.script;
    let mut sink = ToWrite::new(Scripted { script, log });
    let mut is_right = !sink.broken();
    for (size, want) in row.puts {
        let is_next_right = puts(alloc, &mut sink, *size, *want, taken)?;
        is_right = is_right && is_next_right;
    }
    Ok(is_right)
}

/// Tells whether a row comes true: what each `put` does, and which calls and octets reach the writer.
fn comes_true(alloc: Global, row: &Row) -> Result<bool, AllocError> {
    let log = Log::new(alloc);
    let mut taken = Vec::new(alloc);
    let is_right = calls_do(alloc, row, &log, &mut taken)?;
    Ok(is_right && log.has_calls(row.writes) && log.has_moved(&taken))
}

#[test]
fn writes_that_take_octets_break_nothing(rt: HostRuntime) -> Result<(), Fail> {
    for row in &WHOLE {
        assert!(rt; comes_true(rt.alloc(), row)?, "{}", row.name);
    }
    Ok(())
}

#[test]
fn a_failed_write_breaks_the_sink_for_good(rt: HostRuntime) -> Result<(), Fail> {
    for row in &BROKEN {
        assert!(rt; comes_true(rt.alloc(), row)?, "{}", row.name);
    }
    Ok(())
}
