//! The output of a command. It is flushed before the input waits for more.
ghost use Rattle.std.specs.Prelude.{◌≤◌, length, IfOk};

use crate::error::{ProgramError, RunLine, is_output_lost, keeps_output};
use crate::host::Host;
use crate::names::FileNameRef;
use crate::replacement::{self, ReplaceMode, ReplaceObstacle, Replacement, sync_folder};
use crate::same_file::{FileId, is_standard_output};
use ill_inputs::{RunFault, Verdict};
use std::alloc::Global;
use std::cell::RefCell;
use std::fs::{self, OpenFile};
use std::io::{self, BufWriter, ErrorKind, Printer, Read, Write};
use std::rt::Files;

/// The number of octets that wait until they are written at once.
const BUFFER_LEN: usize = 65_536;

/// Standard output or a file, with the number of octets that it took.
#[derive(Drop)]
pub struct OutputFile<S, F> {
    kind: OutputKind<S, F>,
    written: u128,
    /// True if a write found that nobody reads the output any more.
    is_closed: bool,
}

#[derive(Drop)]
enum OutputKind<S, F> {
    Standard(S),
    File(F),
}

impl<S: Write, F: Write> Write for OutputFile<S, F> {
    fn write(&mut self, buf: &[u8]) -> io::Result<usize> {
        let written = match &mut self.kind {
            OutputKind::Standard(writer) => writer.write(buf),
            OutputKind::File(writer) => writer.write(buf),
        };
        match written {
            Ok(count) => {
                self.written = self.written.saturating_add(count as u128);
                Ok(count)
            }
            Err(error) => {
                self.is_closed = self.is_closed | (error.kind() == ErrorKind::BrokenPipe);
                Err(error)
            }
        }
    }

    fn flush(&mut self) -> io::Result<()> {
        match &mut self.kind {
            OutputKind::Standard(writer) => writer.flush(),
            OutputKind::File(writer) => writer.flush(),
        }
    }
}

/// The output of a command, once it is open.
#[derive(Drop)]
struct OpenOutput<S: Write + Drop, F: Write + Drop> {
    writer: BufWriter<OutputFile<S, F>>,
    /// True if a flush failed, so that nothing more is put.
    is_lost: bool,
}

/// The output of a command, which its input shares.
#[derive(Drop)]
pub struct Output<S: Write + Drop, F: Write + Drop> {
    open: RefCell<Option<OpenOutput<S, F>>>,
}

/// The output of a command under the runtime `R`.
pub type OutputOf<'r, R> = Output<Printer<'r, R>, <R as Files>::File>;

impl<S: Write + Drop, F: Write + Drop> Output<S, F> {
    /// An output that is not open yet.
    pub fn new() -> Output<S, F> {
        Output {
            open: RefCell::new(None),
        }
    }

    fn open(&self, alloc: Global, kind: OutputKind<S, F>) -> Result<(), ProgramError> {
        let target = OutputFile {
            kind,
            written: 0,
            is_closed: false,
        };
        let writer = BufWriter::with_capacity(alloc, BUFFER_LEN, target).map_err(
            |_| ProgramError::out_of_memory(),
        )?;
        let open = OpenOutput {
            writer,
            is_lost: false,
        };
        match self.open.try_replace(Some(open)) {
            Ok(_) => Ok(()),
            // No call holds the output now; what a cell holds, no contract says.
            Err(_) => Err(ProgramError::Flush),
        }
    }

    /// Writes what waits in the buffer.
    fn flush(&self) -> io::Result<()> {
        if let Ok(mut held) = self.open.try_borrow_mut() {
            if let Some(open) = held.as_mut() {
                let flushed = open.writer.flush();
                open.is_lost = open.is_lost | flushed.is_err();
                return flushed;
            }
        }
        Ok(())
    }

    /// Writes octets, or keeps them until more are there, and returns how many.
    fn put(&self, octets: &[u8], is_direct: bool) -> io::Result<usize>
        ensures { IfOk result (λ n. n ≤ length octets.now) }
    {
        if let Ok(mut held) = self.open.try_borrow_mut() {
            if let Some(open) = held.as_mut() {
                if open.is_lost {
                    return Err(io::Error::from(ErrorKind::Other));
                }
                if is_direct {
                    return open.writer.get_mut().write(octets);
                }
                return open.writer.write(octets);
            }
        }
        Err(io::Error::from(ErrorKind::Other))
    }

    /// The number of octets that left the buffer.
    fn written(&self) -> u128 {
        if let Ok(held) = self.open.try_borrow() {
            if let Some(open) = held.as_ref() {
                return open.writer.get_ref().written;
            }
        }
        0
    }

    /// Tells whether nobody reads the output any more.
    fn is_closed(&self) -> bool {
        if let Ok(held) = self.open.try_borrow() {
            if let Some(open) = held.as_ref() {
                return open.writer.get_ref().is_closed;
            }
        }
        false
    }

    /// Writes what is still in the buffer, so that the output of the messages before an error isn't lost. A write error counts the octets that
    /// left the buffer, and is [`ProgramError::Closed`] where nobody reads the output any more.
    pub fn finish(&self, done: Result<Verdict, ProgramError>) -> Result<Verdict, ProgramError> {
        let flushed = self.flush();
        if (flushed.is_err() || is_output_lost(&done)) && self.is_closed() {
            return Err(ProgramError::Closed);
        }
        match done {
            Err(ProgramError::Run(RunLine(RunFault::WriteFault(_)))) => {
                Err(ProgramError::from(RunFault::WriteFault(self.written())))
            }
            _ if flushed.is_err() => Err(ProgramError::Flush),
            done => done,
        }
    }
}

impl<S: Write + Drop, F: Write + OpenFile + Drop> Output<S, F> {
    /// Waits until the disk has what was written to a file.
    fn sync(&self) -> io::Result<()> {
        if let Ok(held) = self.open.try_borrow() {
            if let Some(open) = held.as_ref() {
                if let OutputKind::File(file) = &open.writer.get_ref().kind {
                    return file.sync_all();
                }
            }
        }
        Ok(())
    }

    /// The regular file that the output is; None where it is not one.
    fn file_id(&self) -> Option<FileId> {
        if let Ok(held) = self.open.try_borrow() {
            if let Some(open) = held.as_ref() {
                if let OutputKind::File(file) = &open.writer.get_ref().kind {
                    return FileId::of(file.metadata());
                }
            }
        }
        None
    }
}

/// An output as a writer.
#[derive(Drop)]
pub struct ToOutput<'o, S: Write + Drop, F: Write + Drop> {
    pub output: &'o Output<S, F>,
    /// True if each octet is written at once.
    pub is_direct: bool,
}

impl<S: Write + Drop, F: Write + Drop> Write for ToOutput<'_, S, F> {
    fn write(&mut self, buf: &[u8]) -> io::Result<usize> {
        self.output.put(buf, self.is_direct)
    }

    fn flush(&mut self) -> io::Result<()> {
        self.output.flush()
    }
}

/// A reader that has the output written before it reads, since that may wait.
#[derive(Drop)]
pub struct FlushBeforeRead<'o, I, S: Write + Drop, F: Write + Drop> {
    pub inner: I,
    pub output: &'o Output<S, F>,
}

impl<I: Read, S: Write + Drop, F: Write + Drop> Read for FlushBeforeRead<'_, I, S, F> {
    ghost remaining = { λ reader. I.remaining reader.inner };

    fn read(&mut self, buf: &mut [u8]) -> io::Result<usize> {
        // Where it can't be written, the next octet that is put breaks the sink.
        let _ = self.output.flush();
        self.inner.read(buf)
    }
}

/// Opens standard output.
pub fn open_standard_output<'r, R: Print + Files + AllocGlobal>(
    rt: &'r R,
    output: &OutputOf<'r, R>,
) -> Result<(), ProgramError> {
    output.open(rt.alloc(), OutputKind::Standard(io::writer(rt)))
}

/// The destination of the octets of an output until it is closed.
#[derive(Drop)]
pub struct OutputDestination<'n> {
    /// The name of the output.
    pub name: &'n str,
    /// The name of a new file that has them, and takes the name of the output at the end; None where they go to the output itself.
    pub part: Option<String>,
}

/// Opens the output with this name, which is standard output as [`is_standard_output`] says. Nothing else is opened where it is to be replaced
/// as a whole. A regular file that can't be replaced is written directly, and a line on standard error says so.
///
/// # Errors
///
/// The output can't be opened, or not replaced as a whole, or memory ran out.
pub fn open_output<'n, 'r, R: Print + Eprint + Host + AllocGlobal>(
    rt: &'r R,
    output: &OutputOf<'r, R>,
    name: &'n str,
    whole: bool,
) -> Result<OutputDestination<'n>, ProgramError> {
    if is_standard_output(name) {
        if whole {
            let obstacle = ReplaceObstacle::NoRegularFile;
            return Err(ProgramError::cannot_replace(rt.alloc(), name, obstacle));
        }
        open_standard_output(rt, output)?;
        return Ok(OutputDestination { name, part: None });
    }
    match replacement::begin(rt, name)? {
        ReplaceMode::Beside(new) => {
            let part = open_beside(rt, output, new)?;
            Ok(OutputDestination {
                name,
                part: Some(part),
            })
        }
        ReplaceMode::Direct(obstacle) if whole => {
            Err(ProgramError::cannot_replace(rt.alloc(), name, obstacle))
        }
        ReplaceMode::Direct(obstacle) => {
            open_directly(rt, output, name, obstacle)?;
            Ok(OutputDestination { name, part: None })
        }
    }
}

/// Opens a new file as the output, and returns its name.
fn open_beside<'r, R: Print + Host + AllocGlobal>(
    rt: &'r R,
    output: &OutputOf<'r, R>,
    new: Replacement<R::File>,
) -> Result<String, ProgramError> {
    let Replacement { name: part, file } = new;
    match output.open(rt.alloc(), OutputKind::File(file)) {
        Ok(()) => Ok(part),
        Err(error) => {
            let _ = fs::remove_file(rt, part.as_str());
            Err(error)
        }
    }
}

/// Opens the file with this name as the output, and reports it if a regular file is lost by that.
fn open_directly<'r, R: Print + Eprint + Host + AllocGlobal>(
    rt: &'r R,
    output: &OutputOf<'r, R>,
    name: &str,
    obstacle: ReplaceObstacle,
) -> Result<(), ProgramError> {
    let alloc = rt.alloc();
    let file = match fs::create(rt, name) {
        Ok(file) => file,
        Err(error) => return Err(ProgramError::cannot_open(alloc, name, error.kind())),
    };
    output.open(alloc, OutputKind::File(file))?;
    if obstacle != ReplaceObstacle::NoRegularFile {
        let name = FileNameRef(name.as_bytes());
        // A line that can't be written changes nothing of the output.
        let _ = eprintln!(rt; "illcanon: {name} is written directly: {obstacle}");
    }
    Ok(())
}

/// Writes what is still in the buffer, and gives a new file the name of the output. Where the old one has to be kept, or not all of the output
/// reached the disk, the new file is removed, and the old one stays as it was.
pub fn close_output<'r, R: Print + Host + AllocGlobal>(
    rt: &'r R,
    output: &OutputOf<'r, R>,
    destination: OutputDestination<'_>,
    keep: bool,
    done: Result<Verdict, ProgramError>,
) -> Result<Verdict, ProgramError> {
    let done = output.finish(done);
    let OutputDestination {
        name,
        part: Some(part),
    } = destination
    else {
        return done;
    };
    if keep || keeps_output(false, &done) {
        let _ = fs::remove_file(rt, part.as_str());
        return done;
    }
    match take_name(rt, output, part.as_str(), name) {
        Ok(()) => done,
        Err(error) => Err(error),
    }
}

/// Gives the new file `part`, which is the output, the name of the output. Where that fails, the new file is removed, unless another
/// file has its name by then.
fn take_name<'r, R: Print + Host + AllocGlobal>(
    rt: &'r R,
    output: &OutputOf<'r, R>,
    part: &str,
    name: &str,
) -> Result<(), ProgramError> {
    if output.sync().is_err() {
        let _ = fs::remove_file(rt, part);
        return Err(ProgramError::Flush);
    }
    let renamed = match is_still_named(rt, output, part) {
        // Another file has this name by now, which is not ours to remove.
        Ok(false) => {
            let obstacle = ReplaceObstacle::NewNameTaken;
            return Err(ProgramError::cannot_replace(rt.alloc(), name, obstacle));
        }
        Ok(true) => fs::rename(rt, part, name),
        Err(error) => Err(error),
    };
    match renamed {
        Ok(()) => {
            sync_folder(rt, name);
            Ok(())
        }
        Err(error) => {
            let _ = fs::remove_file(rt, part);
            let obstacle = ReplaceObstacle::System(error.kind());
            Err(ProgramError::cannot_replace(rt.alloc(), name, obstacle))
        }
    }
}

/// Tells whether this is still the name of the file that the output is.
fn is_still_named<'r, R: Print + Host + AllocGlobal>(
    rt: &'r R,
    output: &OutputOf<'r, R>,
    name: &str,
) -> io::Result<bool> {
    let named = fs::symlink_metadata(rt, name)?;
    let file = output.file_id();
    let file = file.ok_or(io::Error::from(ErrorKind::Other))?;
    Ok(FileId::of(Ok(named)) == Some(file))
}
