//! A runtime whose words and standard streams are values, and whose files are the host's, in a folder of their own. Calls on
//! files can be made to fail.
ghost use Rattle.std.specs.Prelude.{◌≡◌, ◌≤◌, length, IfOk};

use ill_files::Host;
use std::alloc::{Alloc, Allocator, Global};
use std::cell::{Cell, RefCell};
use std::env::FillError;
use std::fmt::Display;
use std::fs::{File, FileTimes, Files, Metadata, OpenFile, OpenOptions, Permissions};
use std::io::{self, BufRead, ErrorKind, Lines, Read, Seek, SeekFrom, Write};
use std::os::unix::fs::MetadataExt;
use std::path::PathBuf;
use std::rt::Env;
use std::time::{Clock, Duration};

/// The names by which systems know standard input and standard output.
const STANDARD_STREAMS: [&str; 6] = [
    "/dev/stdin",
    "/proc/self/fd/0",
    "/dev/fd/0",
    "/dev/stdout",
    "/proc/self/fd/1",
    "/dev/fd/1",
];

/// The calls that fail.
#[derive(Clone, Copy)]
pub struct Faults {
    /// Standard output takes this many octets, and so does a file that is written, unless `file_room` says otherwise.
    pub room: Option<usize>,
    /// A file that is written takes this many octets.
    pub file_room: Option<usize>,
    /// Only the first write past the room fails.
    pub once: bool,
    /// A write past the room fails because nobody reads the output any more.
    pub closed: bool,
    /// A file that is read gives this many octets before a read fails.
    pub readable: Option<usize>,
    /// A file that is read gives this many line ends more at its end.
    pub grows: usize,
    pub sync: bool,
    /// No file can be renamed, for this reason.
    pub rename: Option<ErrorKind>,
    /// No new file can be made, for this reason.
    pub create_new: Option<ErrorKind>,
    /// Another file takes the name of a new one before it is renamed.
    pub swapped: bool,
    /// The system has no name for a standard stream that is no file.
    pub nameless: bool,
}

/// No call fails.
pub const NO_FAULTS: Faults = Faults {
    room: None,
    file_room: None,
    once: false,
    closed: false,
    readable: None,
    grows: 0,
    sync: false,
    rename: None,
    create_new: None,
    swapped: false,
    nameless: false,
};

impl Faults {
    /// The error of a write past the room.
    fn of_write(&self) -> io::Error {
        if self.closed {
            io::Error::from(ErrorKind::BrokenPipe)
        } else {
            fails()
        }
    }
}

/// The calls on files that are watched.
#[derive(Drop)]
pub struct Watch {
    /// The number of folders that were synced.
    pub synced_folders: Cell<u32>,
    /// The number of other files that were synced.
    pub synced_files: Cell<u32>,
    /// The mode that a file had before its mode was set.
    pub mode_before: Cell<u32>,
}

impl Watch {
    /// No call was made yet.
    pub fn new() -> Watch {
        Watch {
            synced_folders: Cell::new(0),
            synced_files: Cell::new(0),
            mode_before: Cell::new(0),
        }
    }
}

/// The arguments and the files that the program starts with.
#[derive(Clone, Copy)]
pub struct Start<'a> {
    /// The words of the command line after the program's name.
    pub words: &'a [&'a [u8]],
    pub input: &'a [u8],
    /// The file that standard input and standard output are, where they are a file.
    pub standard: Option<&'static str>,
    pub faults: Faults,
    /// Standard error is a terminal, and this number of milliseconds goes by until the clock is read the next time.
    pub terminal: Option<u64>,
    pub watch: &'a Watch,
}

/// A runtime whose words and standard streams are values, and whose files are the host's.
pub struct Fake<'a> {
    host: &'a HostRuntime,
    start: Start<'a>,
    output: RefCell<Vec<u8>>,
    errors: RefCell<Vec<u8>>,
    milliseconds: Cell<u64>,
    /// True if a write to standard output failed.
    failed: Cell<bool>,
}

/// The state that the program left.
#[derive(Drop)]
pub struct Ended {
    pub status: u8,
    pub output: Vec<u8>,
    pub errors: Vec<u8>,
}

fn fails() -> io::Error {
    io::Error::from(ErrorKind::Other)
}

fn append(to: &RefCell<Vec<u8>>, octets: &[u8]) -> io::Result<()> {
    match to.try_borrow_mut() {
        Ok(mut held) => held.extend_from_slice(octets).map_err(|_| fails()),
        Err(_) => Err(fails()),
    }
}

fn len_of(held: &RefCell<Vec<u8>>) -> usize {
    match held.try_borrow() {
        Ok(held) => held.len(),
        Err(_) => 0,
    }
}

impl Alloc for Fake<'_> {
    type A = Global;

    fn alloc(&self) -> Global {
        self.host.alloc()
    }
}

impl Print for Fake<'_> {
    fn print<D: Display + Drop>(&self, value: D) -> io::Result<()> {
        let text = format!(in self.alloc(); "{value}").map_err(|_| fails())?;
        self.put_all(text.as_bytes())
    }

    fn println<D: Display + Drop>(&self, value: D) -> io::Result<()> {
        let text = format!(in self.alloc(); "{value}\n").map_err(|_| fails())?;
        self.put_all(text.as_bytes())
    }

    fn write_all(&self, bytes: &[u8]) -> io::Result<()> {
        self.put_all(bytes)
    }

    fn write_some(&self, bytes: &[u8]) -> io::Result<usize>
        ensures bound { IfOk result (λ n. n ≤ length bytes.now) }
    {
        self.put(bytes)
    }
}

impl Fake<'_> {
    /// Writes the first of these octets to standard output, as far as there is room, and returns how many.
    fn put(&self, octets: &[u8]) -> io::Result<usize>
        ensures bound { IfOk result (λ n. n ≤ length octets.now) }
    {
        let faults = self.start.faults;
        let room = if faults.once && self.failed.get() {
            None
        } else {
            faults.room
        };
        let count = match room {
            Some(room) => room.saturating_sub(len_of(&self.output)).min(octets.len()),
            None => octets.len(),
        };
        if count == 0 && !octets.is_empty() {
            self.failed.set(true);
            return Err(faults.of_write());
        }
        append(&self.output, &octets[..count])?;
        Ok(count)
    }

    /// Writes octets to standard output, or the first of them where there is no room for more, and fails.
    fn put_all(&self, octets: &[u8]) -> io::Result<()> {
        let count = self.put(octets)?;
        if count < octets.len() {
            self.failed.set(true);
            return Err(self.start.faults.of_write());
        }
        Ok(())
    }
}

impl Eprint for Fake<'_> {
    fn eprint<D: Display + Drop>(&self, value: D) -> io::Result<()> {
        let text = format!(in self.alloc(); "{value}").map_err(|_| fails())?;
        append(&self.errors, text.as_bytes())
    }

    fn eprintln<D: Display + Drop>(&self, value: D) -> io::Result<()> {
        let text = format!(in self.alloc(); "{value}\n").map_err(|_| fails())?;
        append(&self.errors, text.as_bytes())
    }
}

impl Clock for Fake<'_> {
    fn monotonic(&self) -> io::Result<Duration> {
        let step = self.start.terminal.unwrap_or(0);
        let now = self.milliseconds.get().saturating_add(step);
        self.milliseconds.set(now);
        Ok(Duration::from_millis(now))
    }

    fn since_1970(&self) -> io::Result<Duration> {
        Err(fails())
    }
}

impl<'a> Host for Fake<'a> {
    fn is_terminal(&self) -> bool {
        self.start.terminal.is_some()
    }

    fn change_owner(&self, file: &FakeFile<'a>, owner: u32, group: u32) -> io::Result<()> {
        self.host.change_owner(&file.inner, owner, group)
    }
}

impl<'a> Input for Fake<'a> {
    type Reader = &'a [u8];

    fn read_line<A: Allocator + Clone>(&self, _buf: &mut String<A>) -> io::Result<usize> {
        Err(fails())
    }

    fn lines<A: Allocator>(&self, alloc: A) -> Lines<&'a [u8], A> {
        self.start.input.lines(alloc)
    }

    fn reader(&self) -> &'a [u8] {
        self.start.input
    }
}

impl Env for Fake<'_> {
    fn arg(&self, i: usize, buf: &mut [u8]) -> Result<usize, FillError> {
        if i == 0 {
            return Ok(0);
        }
        let Some(word) = self.start.words.get(i - 1) else {
            return Err(FillError::NotPresent);
        };
        if word.len() > buf.len() {
            return Err(FillError::TooLong);
        }
        buf[..word.len()].copy_from_slice(word);
        Ok(word.len())
    }

    fn var(&self, _name: &str, _buf: &mut [u8]) -> Result<usize, FillError> {
        Err(FillError::NotPresent)
    }

    fn var_at(&self, _i: usize, _buf: &mut [u8]) -> Result<usize, FillError> {
        Err(FillError::NotPresent)
    }
}

/// A file of the host whose calls may fail.
#[derive(Drop)]
pub struct FakeFile<'a> {
    inner: File,
    faults: Faults,
    moved: usize,
    /// True if a write failed.
    failed: bool,
    watch: &'a Watch,
}

impl FakeFile<'_> {
    /// Gives the octets that come after the end of a file that grows.
    fn grow(&mut self, buf: &mut [u8]) -> usize
        ensures bound { result ≤ length buf.new }
        ensures same { length buf.new ≡ length buf.old }
    {
        let count = self.faults.grows.min(buf.len());
        buf[..count].fill(b'\n');
        self.faults.grows = self.faults.grows.saturating_sub(count);
        count
    }
}

impl Read for FakeFile<'_> {
    fn read(&mut self, buf: &mut [u8]) -> io::Result<usize> {
        let Some(most) = self.faults.readable else {
            let count = self.inner.read(buf)?;
            return Ok(if count > 0 { count } else { self.grow(buf) });
        };
        let count = most.saturating_sub(self.moved).min(buf.len());
        if count == 0 {
            return Err(fails());
        }
        let read = self.inner.read(&mut buf[..count])?;
        self.moved = self.moved.saturating_add(read);
        Ok(read)
    }
}

impl Write for FakeFile<'_> {
    fn write(&mut self, buf: &[u8]) -> io::Result<usize> {
        let room = if self.faults.once && self.failed {
            None
        } else {
            self.faults.file_room.or(self.faults.room)
        };
        let Some(most) = room else {
            return self.inner.write(buf);
        };
        let count = most.saturating_sub(self.moved).min(buf.len());
        if count == 0 {
            self.failed = true;
            return Err(self.faults.of_write());
        }
        let written = self.inner.write(&buf[..count])?;
        self.moved = self.moved.saturating_add(written);
        Ok(written)
    }

    fn flush(&mut self) -> io::Result<()> {
        self.inner.flush()
    }
}

impl Seek for FakeFile<'_> {
    fn seek(&mut self, to: SeekFrom) -> io::Result<u64> {
        self.inner.seek(to)
    }
}

impl OpenFile for FakeFile<'_> {
    fn metadata(&self) -> io::Result<Metadata> {
        self.inner.metadata()
    }

    fn set_len(&self, size: u64) -> io::Result<()> {
        self.inner.set_len(size)
    }

    fn sync_all(&self) -> io::Result<()> {
        if self.faults.sync {
            return Err(fails());
        }
        let synced = if self.inner.metadata()?.is_dir() {
            &self.watch.synced_folders
        } else {
            &self.watch.synced_files
        };
        synced.set(synced.get().saturating_add(1));
        self.inner.sync_all()
    }

    fn sync_data(&self) -> io::Result<()> {
        self.sync_all()
    }

    fn set_permissions(&self, perm: Permissions) -> io::Result<()> {
        let mode = self.inner.metadata()?.mode() & 0o7777;
        self.watch.mode_before.set(mode);
        self.inner.set_permissions(perm)
    }

    fn set_times(&self, times: FileTimes) -> io::Result<()> {
        self.inner.set_times(times)
    }
}

impl<'a> Fake<'a> {
    /// A runtime that starts so, over the files of the host.
    pub fn new(host: &'a HostRuntime, start: Start<'a>) -> Fake<'a> {
        Fake {
            host,
            start,
            output: RefCell::new(Vec::new(host.alloc())),
            errors: RefCell::new(Vec::new(host.alloc())),
            milliseconds: Cell::new(0),
            failed: Cell::new(false),
        }
    }

    /// The state that a program left that returned this status.
    pub fn ended(self, status: u8) -> Ended {
        let Fake {
            host: _,
            start: _,
            output,
            errors,
            milliseconds: _,
            failed: _,
        } = self;
        Ended {
            status,
            output: output.into_inner(),
            errors: errors.into_inner(),
        }
    }
}

impl Fake<'_> {
    /// The host's path of what the program asks for. A standard stream that is no file is a device.
    fn path<'p>(&'p self, path: &'p str) -> io::Result<&'p str> {
        if !STANDARD_STREAMS.contains(&path) {
            return Ok(path);
        }
        match self.start.standard {
            Some(file) => Ok(file),
            None if self.start.faults.nameless => Err(io::Error::from(ErrorKind::NotFound)),
            None => Ok("/dev/null"),
        }
    }
}

impl<'a> Files for Fake<'a> {
    type File = FakeFile<'a>;

    type Dir = <HostRuntime as Files>::Dir;

    fn open_file(&self, how: &OpenOptions, path: &str) -> io::Result<FakeFile<'a>> {
        if let Some(kind) = self.start.faults.create_new {
            if how.asks_create_new() {
                return Err(io::Error::from(kind));
            }
        }
        Ok(FakeFile {
            inner: self.host.open_file(how, self.path(path)?)?,
            faults: self.start.faults,
            moved: 0,
            failed: false,
            watch: self.start.watch,
        })
    }

    fn open_dir(&self, path: &str) -> io::Result<Self::Dir> {
        self.host.open_dir(path)
    }

    fn metadata(&self, path: &str) -> io::Result<Metadata> {
        self.host.metadata(self.path(path)?)
    }

    fn symlink_metadata(&self, path: &str) -> io::Result<Metadata> {
        if self.start.faults.swapped && path.ends_with(".part") {
            return self.host.symlink_metadata(".");
        }
        self.host.symlink_metadata(path)
    }

    fn read_link<B: Allocator>(&self, alloc: B, path: &str) -> io::Result<PathBuf<B>> {
        self.host.read_link(alloc, path)
    }

    fn copy(&self, from: &str, to: &str) -> io::Result<u64> {
        self.host.copy(from, to)
    }

    fn rename(&self, from: &str, to: &str) -> io::Result<()> {
        if let Some(kind) = self.start.faults.rename {
            return Err(io::Error::from(kind));
        }
        self.host.rename(from, to)
    }

    fn remove_file(&self, path: &str) -> io::Result<()> {
        self.host.remove_file(path)
    }

    fn create_dir(&self, path: &str) -> io::Result<()> {
        self.host.create_dir(path)
    }

    fn remove_dir(&self, path: &str) -> io::Result<()> {
        self.host.remove_dir(path)
    }

    fn remove_dir_all<B: Allocator>(&self, alloc: B, path: &str) -> io::Result<()> {
        self.host.remove_dir_all(alloc, path)
    }
}
