//! The line on a terminal that says how far the work is.
use crate::count::Count;
use crate::host::Host;
use crate::same_file::STANDARD_INPUT;
use std::cell::Cell;
use std::io::{self, Read};
use std::rt::Files;
use std::time::{Duration, Instant};
use std::{fmt, fs, str};

/// The number of milliseconds that the work goes on before its line is shown.
const SHOW_AFTER: u64 = 2_000;

/// The number of milliseconds that a line stays as it is.
const UPDATE_INTERVAL: u64 = 200;

/// Goes to the front of the line on a terminal, and erases it (ECMA-48, 8.3.15 and 8.3.41).
const ERASE_LINE: &str = "\r\x1b[K";

/// The progress of the work: the numbers of files opened and of octets read. A line on a terminal says so while the work takes
/// more than two seconds; where the sizes of all files are known, it also has the share, the rate and the time that is left.
#[derive(Drop)]
pub struct ProgressLine {
    state: Cell<State>,
}

#[derive(Clone, Copy)]
struct State {
    files: u64,
    octets: u64,
    /// The number of octets of all files, where that is known.
    total: Option<u64>,
    /// The time when the work began.
    since: Option<Instant>,
    /// The time when the next line is due; None where no line is wanted.
    due: Option<Instant>,
    /// True if a line is on the terminal.
    is_shown: bool,
}

impl ProgressLine {
    /// Shows no line.
    pub fn none() -> ProgressLine {
        ProgressLine::due_after(None)
    }

    /// Shows a line if standard error is a terminal.
    pub fn begin<R: Host>(rt: &R) -> ProgressLine {
        if !rt.is_terminal() {
            return ProgressLine::none();
        }
        ProgressLine::due_after(Instant::now(rt).ok())
    }

    /// Shows a line some time after the work began, if that is known.
    fn due_after(since: Option<Instant>) -> ProgressLine {
        let due = since.and_then(|since| since.checked_add(Duration::from_millis(SHOW_AFTER)));
        ProgressLine {
            state: Cell::new(State {
                files: 0,
                octets: 0,
                total: None,
                since,
                due,
                is_shown: false,
            }),
        }
    }

    /// Takes the sizes of the files with these names, if a line is wanted.
    pub fn expect<R: Host>(&self, rt: &R, names: &[&[u8]]) {
        let state = self.state.get();
        if state.due.is_some() {
            self.state.set(State {
                total: total_len(rt, names),
                ..state
            });
        }
    }

    /// Counts a file that was opened.
    pub fn add_file(&self) {
        let mut state = self.state.get();
        state.files = state.files.saturating_add(1);
        self.state.set(state);
    }

    /// Counts octets that were read.
    fn add_octets(&self, count: usize) {
        let mut state = self.state.get();
        state.octets = state.octets.saturating_add(count as u64);
        self.state.set(state);
    }

    /// Shows how far the work is, if a line is due.
    fn show<R: Eprint + Host>(&self, rt: &R) {
        let state = self.state.get();
        let Some(due) = state.due else {
            return;
        };
        let now = match Instant::now(rt) {
            Ok(now) if now >= due => now,
            _ => return,
        };
        let files = Count(state.files, "file");
        let octets = Count(state.octets, "octet");
        let rest = Rest::at(state, now);
        // Where standard error is closed, nothing is shown.
        let _ = eprint!(rt; "{ERASE_LINE}illcanon: {files}, {octets}{rest}");
        self.state.set(State {
            due: time_in(rt, UPDATE_INTERVAL),
            is_shown: true,
            ..state
        });
    }

    /// Erases the line, so that another can come in its place.
    pub fn clear<R: Eprint>(&self, rt: &R) {
        let state = self.state.get();
        if !state.is_shown {
            return;
        }
        // Where standard error is closed, nothing was shown.
        let _ = eprint!(rt; "{ERASE_LINE}");
        self.state.set(State {
            is_shown: false,
            ..state
        });
    }
}

/// The share of the work that is done, its rate, and the time that is left; nothing where that isn't known.
#[derive(Clone, Copy)]
enum Rest {
    Unknown,
    Known {
        percent: u128,
        octets_per_second: u128,
        seconds: u128,
    },
}

impl Rest {
    /// The work that is left at this time.
    fn at(state: State, now: Instant) -> Rest {
        let (Some(total), Some(since)) = (state.total, state.since) else {
            return Rest::Unknown;
        };
        let milliseconds = now.saturating_duration_since(since).as_millis();
        let octets = u128::from(state.octets);
        if octets == 0 || milliseconds == 0 || total == 0 {
            return Rest::Unknown;
        }
        let left = u128::from(total.saturating_sub(state.octets));
        let percent = octets.saturating_mul(100) / u128::from(total);
        Rest::Known {
            percent: percent.min(100),
            octets_per_second: octets.saturating_mul(1000) / milliseconds,
            seconds: left.saturating_mul(milliseconds) / octets / 1000,
        }
    }
}

impl fmt::Display for Rest {
    fn fmt<W: fmt::Write>(&self, f: &mut fmt::Formatter<W>) -> fmt::Result {
        match *self {
            Rest::Unknown => Ok(()),
            Rest::Known {
                percent,
                octets_per_second,
                seconds,
            } => write!(
                f,
                ", {percent} %, {octets_per_second} octets/s, {seconds} s left"
            ),
        }
    }
}

/// The number of octets of the files with these names; None where one is no regular file.
fn total_len<R: Files>(rt: &R, names: &[&[u8]]) -> Option<u64> {
    let mut total: u64 = 0;
    for name in names {
        total = total.saturating_add(file_len(rt, name)?);
    }
    Some(total)
}

/// The number of octets of the file with this name, standard input for `-`.
fn file_len<R: Files>(rt: &R, name: &[u8]) -> Option<u64> {
    let name = match str::from_utf8(name) {
        Ok("-") => STANDARD_INPUT,
        Ok(name) => name,
        Err(_) => return None,
    };
    match fs::metadata(rt, name) {
        Ok(found) if found.is_file() => Some(found.len()),
        _ => None,
    }
}

/// The time in this number of milliseconds; None where the clock can't be read.
fn time_in<R: Host>(rt: &R, milliseconds: u64) -> Option<Instant> {
    let now = Instant::now(rt).ok()?;
    now.checked_add(Duration::from_millis(milliseconds))
}

/// A reader that shows how far the work is before it reads, since that may wait.
#[derive(Drop)]
pub struct ProgressReader<'o, R, I> {
    pub rt: &'o R,
    pub inner: I,
    pub progress: &'o ProgressLine,
}

impl<R: Eprint + Host, I: Read> Read for ProgressReader<'_, R, I> {
    ghost remaining = { λ reader. I.remaining reader.inner };

    fn read(&mut self, buf: &mut [u8]) -> io::Result<usize> {
        self.progress.show(self.rt);
        let count = self.inner.read(buf)?;
        self.progress.add_octets(count);
        Ok(count)
    }
}
