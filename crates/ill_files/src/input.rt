//! Inputs that are files or standard input.
ghost use Rattle.ill_files.specs.Opened.{hand_len_of, is_broken_of, left_of};

use crate::error::ProgramError;
use crate::host::Host;
use crate::output::{FlushBeforeRead, Output, OutputOf};
use crate::progress::{ProgressLine, ProgressReader};
use crate::same_file::FileId;
use ber_core::{Broken, FromBuffer, FromRead, Source};
use ill_inputs::read_at_most;
use std::alloc::Global;
use std::fs::{self, OpenFile};
use std::io::{Printer, Read, Take, Write};
use std::rt::Files;

/// A source that was opened: standard input or a file.
#[derive(Drop)]
pub enum Opened<S, F> {
    Standard(S),
    File(F),
}

impl<S: Source, F: Source> Source for Opened<S, F> {
    ghost left = { λ opened. left_of S.left F.left opened };

    ghost is_broken = { λ opened. is_broken_of S.is_broken F.is_broken opened };

    ghost hand_len = { λ opened. hand_len_of S.hand_len F.hand_len opened };

    fn take(&mut self, buffer: &mut [u8]) -> Result<usize, Broken> {
        match self {
            Opened::Standard(source) => source.take(buffer),
            Opened::File(source) => source.take(buffer),
        }
    }

    fn broken(&self) -> bool {
        match self {
            Opened::Standard(source) => source.broken(),
            Opened::File(source) => source.broken(),
        }
    }

    fn buffered(&self) -> &[u8] {
        match self {
            Opened::Standard(source) => source.buffered(),
            Opened::File(source) => source.buffered(),
        }
    }

    fn consume(&mut self, count: usize) -> Result<(), Broken> {
        match self {
            Opened::Standard(source) => source.consume(count),
            Opened::File(source) => source.consume(count),
        }
    }
}

/// The source of an input, from readers that have the output written before they read.
pub type Shared<'o, I, J, S, F> = Opened<
    FromBuffer<FlushBeforeRead<'o, I, S, F>>,
    FromBuffer<FlushBeforeRead<'o, J, S, F>>,
>;

/// The source of an input under the runtime `R`, which shares the output, and shows how far it is.
pub type InputSource<'o, 'r, R> = Shared<
    'o,
    ProgressReader<'o, R, Box<<R as Input>::Reader>>,
    ProgressReader<'o, R, Take<<R as Files>::File>>,
    Printer<'r, R>,
    <R as Files>::File,
>;

/// Opens the input with this name, standard input for `-`.
///
/// # Errors
///
/// There is no file with this name that can be read, or memory ran out.
pub fn open_input<'o, 'r: 'o, R: Print + Eprint + Input + Files + AllocGlobal + Host>(
    rt: &'r R,
    name: &str,
    output: &'o OutputOf<'r, R>,
    progress: &'o ProgressLine,
) -> Result<InputSource<'o, 'r, R>, ProgramError> {
    let (source, _) = open_and_identify(rt, name, output, progress)?;
    Ok(source)
}

/// Reads an input to its end, and returns which regular file it is, None where it is not one.
///
/// # Errors
///
/// There is no file with this name that can be read, reading it fails, or memory ran out.
pub fn read_whole<R: Input + Files + AllocGlobal>(
    rt: &R,
    name: &str,
) -> Result<(Vec<u8>, Option<FileId>), ProgramError> {
    let alloc = rt.alloc();
    if name == "-" {
        let file = FileId::of_standard_input(rt);
        return Ok((read_all(alloc, FromRead::new(rt.reader()))?, file));
    }
    let opened = open_file(rt, name)?;
    let file = FileId::of(opened.metadata());
    Ok((read_all(alloc, FromRead::new(opened))?, file))
}

/// Reads a source to its end.
fn read_all<S: Source + Drop>(alloc: Global, source: S) -> Result<Vec<u8>, ProgramError> {
    let mut source = source;
    match read_at_most(alloc, &mut source, usize::MAX) {
        Ok(octets) => Ok(octets),
        Err(fault) => Err(ProgramError::from(fault)),
    }
}

/// The source of an input that has no output to share. Its reader reads as many octets as are asked for.
pub type AloneSource<R> = Opened<FromRead<Box<<R as Input>::Reader>>, FromRead<<R as Files>::File>>;

/// Opens the input with this name, standard input for `-`, whose reads wait for nothing.
///
/// # Errors
///
/// There is no file with this name that can be read, or memory ran out.
pub fn open_alone<R: Input + Files + AllocGlobal>(
    rt: &R,
    name: &str,
) -> Result<AloneSource<R>, ProgramError> {
    if name == "-" {
        let reader = standard_input(rt)?;
        return Ok(Opened::Standard(FromRead::new(reader)));
    }
    Ok(Opened::File(FromRead::new(open_file(rt, name)?)))
}

/// The reader of standard input, in a box: it is large, and the source of a file needs no room for it.
fn standard_input<R: Input + AllocGlobal>(rt: &R) -> Result<Box<R::Reader>, ProgramError> {
    Box::new(rt.alloc(), rt.reader()).map_err(|_| ProgramError::out_of_memory())
}

/// Opens the file with this name.
fn open_file<R: Files + AllocGlobal>(rt: &R, name: &str) -> Result<R::File, ProgramError> {
    match fs::open(rt, name) {
        Ok(file) => Ok(file),
        Err(error) => Err(ProgramError::cannot_open(rt.alloc(), name, error.kind())),
    }
}

/// Opens an input as [`open_input`] does, and returns which regular file it is, None where it is not one.
pub fn open_and_identify<'o, 'r: 'o, R: Print + Eprint + Input + Files + AllocGlobal + Host>(
    rt: &'r R,
    name: &str,
    output: &'o OutputOf<'r, R>,
    progress: &'o ProgressLine,
) -> Result<(InputSource<'o, 'r, R>, Option<FileId>), ProgramError> {
    let alloc = rt.alloc();
    if name == "-" {
        let file = FileId::of_standard_input(rt);
        let inner = standard_input(rt)?;
        let source = buffered(
            alloc,
            ProgressReader {
                rt,
                inner,
                progress,
            },
            output,
        )?;
        return Ok((Opened::Standard(source), file));
    }
    let inner = open_file(rt, name)?;
    let most = most_octets_of(rt, &inner);
    let file = FileId::of(inner.metadata());
    let source = buffered(
        alloc,
        ProgressReader {
            rt,
            inner: inner.take(most),
            progress,
        },
        output,
    )?;
    Ok((Opened::File(source), file))
}

/// The greatest number of octets that are read of a file: those that it has now, if it is a regular file and the system doesn't say which file
/// standard output is. That may be the same file, which would have no end. Else 18,446,744,073,709,551,615.
fn most_octets_of<R: Files, F: OpenFile>(rt: &R, file: &F) -> u64 {
    match file.metadata() {
        Ok(found) if found.is_file() && !FileId::knows_standard_output(rt) => found.len(),
        _ => u64::MAX,
    }
}

/// A reader as a source, which has the output written before it reads.
fn buffered<'o, I: Read + Drop, S: Write + Drop, F: Write + Drop>(
    alloc: Global,
    inner: I,
    output: &'o Output<S, F>,
) -> Result<FromBuffer<FlushBeforeRead<'o, I, S, F>>, ProgramError> {
    FromBuffer::new(alloc, FlushBeforeRead { inner, output }).map_err(
        |_| ProgramError::out_of_memory(),
    )
}
