//! Sources over readers.
use super::fake::Step::{self, Fails, Moves};
use super::fake::{Log, Scripted, are_first, takes};
use ber_core::{FromRead, Source};
use std::alloc::{AllocError, Global};
use std::io::ErrorKind;
use std::test::Fail;

/// A run of calls on a source over a reader.
struct Row {
    name: &'static str,
    /// The steps: one for each call of the reader.
    script: &'static [Step],
    /// The number of octets that the buffer of each `take` has, and how many it returns; None: it returns [`Broken`].
    ///
    /// [`Broken`]: ber_core::Broken
    takes: &'static [(usize, Option<usize>)],
    /// The sizes of the buffers that reached the reader.
    reads: &'static [usize],
}

/// Reads that give octets, or none, break nothing, whatever the size of the buffer.
static WHOLE: [Row; 12] = [
    Row {
        name: "buffer-of-1",
        script: &[Moves(1)],
        takes: &[(1, Some(1))],
        reads: &[1],
    },
    Row {
        name: "buffer-of-2",
        script: &[Moves(2)],
        takes: &[(2, Some(2))],
        reads: &[2],
    },
    Row {
        name: "buffer-of-3",
        script: &[Moves(3)],
        takes: &[(3, Some(3))],
        reads: &[3],
    },
    Row {
        name: "buffer-of-64",
        script: &[Moves(64)],
        takes: &[(64, Some(64))],
        reads: &[64],
    },
    Row {
        name: "buffer-of-4096",
        script: &[Moves(4096)],
        takes: &[(4096, Some(4096))],
        reads: &[4096],
    },
    Row {
        name: "buffer-larger-than-what-is-given",
        script: &[Moves(4096), Moves(1), Moves(2)],
        takes: &[(9000, Some(4096)), (9000, Some(1)), (9000, Some(2))],
        reads: &[9000, 9000, 9000],
    },
    Row {
        name: "buffers-of-all-sizes",
        script: &[
            Moves(9000),
            Moves(9000),
            Moves(9000),
            Moves(9000),
            Moves(9000),
            Moves(9000),
        ],
        takes: &[
            (9000, Some(9000)),
            (1, Some(1)),
            (4096, Some(4096)),
            (2, Some(2)),
            (64, Some(64)),
            (3, Some(3)),
        ],
        reads: &[9000, 1, 4096, 2, 64, 3],
    },
    Row {
        name: "one-octet-at-a-time",
        script: &[Moves(1), Moves(1), Moves(1)],
        takes: &[(64, Some(1)), (64, Some(1)), (64, Some(1))],
        reads: &[64, 64, 64],
    },
    Row {
        name: "end-of-input",
        script: &[Moves(3), Moves(0), Moves(0)],
        takes: &[(4, Some(3)), (4, Some(0)), (4, Some(0))],
        reads: &[4, 4, 4],
    },
    Row {
        name: "end-of-input-at-once",
        script: &[Moves(0)],
        takes: &[(4096, Some(0))],
        reads: &[4096],
    },
    Row {
        name: "octets-after-an-end",
        script: &[Moves(0), Moves(2)],
        takes: &[(4, Some(0)), (4, Some(2))],
        reads: &[4, 4],
    },
    Row {
        name: "empty-buffer",
        script: &[Moves(5), Moves(5)],
        takes: &[(0, Some(0)), (5, Some(5))],
        reads: &[0, 5],
    },
];

/// A read that returns an error breaks the source, and no later call reaches the reader.
static BROKEN: [Row; 9] = [
    Row {
        name: "error-at-call-1",
        script: &[Fails(ErrorKind::Other), Moves(4)],
        takes: &[(4, None), (4, None), (4, None)],
        reads: &[4],
    },
    Row {
        name: "error-at-call-2",
        script: &[Moves(4), Fails(ErrorKind::Other), Moves(4)],
        takes: &[(4, Some(4)), (4, None), (4, None)],
        reads: &[4, 4],
    },
    Row {
        name: "error-at-call-3",
        script: &[Moves(1), Moves(4), Fails(ErrorKind::Other), Moves(4)],
        takes: &[(4, Some(1)), (4, Some(4)), (4, None), (4, None)],
        reads: &[4, 4, 4],
    },
    Row {
        name: "interrupted-at-call-1",
        script: &[Fails(ErrorKind::Interrupted), Moves(4)],
        takes: &[(4, None), (4, None)],
        reads: &[4],
    },
    Row {
        name: "interrupted-at-call-2",
        script: &[Moves(4), Fails(ErrorKind::Interrupted), Moves(4)],
        takes: &[(4, Some(4)), (4, None), (4, None)],
        reads: &[4, 4],
    },
    Row {
        name: "would-block-at-call-2",
        script: &[Moves(4), Fails(ErrorKind::WouldBlock), Moves(4)],
        takes: &[(4, Some(4)), (4, None), (4, None)],
        reads: &[4, 4],
    },
    Row {
        name: "error-after-an-end",
        script: &[Moves(0), Fails(ErrorKind::UnexpectedEof), Moves(4)],
        takes: &[(4, Some(0)), (4, None), (4, None)],
        reads: &[4, 4],
    },
    Row {
        name: "error-in-a-buffer-of-1",
        script: &[Fails(ErrorKind::Other), Moves(1)],
        takes: &[(1, None), (1, None)],
        reads: &[1],
    },
    Row {
        name: "error-in-an-empty-buffer",
        script: &[Fails(ErrorKind::Other), Moves(4)],
        takes: &[(0, None), (4, None)],
        reads: &[0],
    },
];

/// Tells whether each `take` of a row does what it must, on a source that is not broken at first. The octets that it takes are added.
fn calls_do(alloc: Global, row: &Row, log: &Log, taken: &mut Vec<u8>) -> Result<bool, AllocError> {
    let script = row.script;
    let mut source = FromRead::new(Scripted { script, log });
    let mut is_right = !source.broken();
    for (size, want) in row.takes {
        let is_next_right = takes(alloc, &mut source, *size, *want, taken)?;
        is_right = is_right && is_next_right;
    }
    Ok(is_right)
}

/// Tells whether a row comes true: what each `take` does, which octets come, and what reaches the reader.
fn comes_true(alloc: Global, row: &Row) -> Result<bool, AllocError> {
    let log = Log::new(alloc);
    let mut taken = Vec::new(alloc);
    let is_right = calls_do(alloc, row, &log, &mut taken)?;
    Ok(is_right && are_first(&taken) && log.has_calls(row.reads) && log.has_moved(&taken))
}

#[test]
fn reads_without_an_error_break_nothing(rt: HostRuntime) -> Result<(), Fail> {
    for row in &WHOLE {
        assert!(rt; comes_true(rt.alloc(), row)?, "{}", row.name);
    }
    Ok(())
}

#[test]
fn a_failed_read_breaks_the_source_for_good(rt: HostRuntime) -> Result<(), Fail> {
    for row in &BROKEN {
        assert!(rt; comes_true(rt.alloc(), row)?, "{}", row.name);
    }
    Ok(())
}
