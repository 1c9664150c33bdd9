//! A reader and a writer whose calls do what a script says, and a log of the calls that reached them.
ghost use Rattle.std.specs.Prelude.{◌≤◌, IfOk};

use ber_core::{Broken, Source};
use std::alloc::{AllocError, Global};
use std::cell::{Cell, RefCell};
use std::io::{self, Error, ErrorKind, Read, Write};

/// The effect of one call.
#[derive(Clone, Copy)]
pub enum Step {
    /// It moves this number of octets, or fewer where the buffer or the piece is shorter.
    Moves(usize),
    /// It returns an error of this kind.
    Fails(ErrorKind),
}

/// The calls that reached a reader or a writer.
#[derive(Drop)]
pub struct Log {
    /// The number of octets that each call's buffer or piece had.
    sizes: RefCell<Vec<usize>>,
    /// The octets that were moved.
    moved: RefCell<Vec<u8>>,
    /// True once a call couldn't be logged.
    is_lost: Cell<bool>,
}

impl Log {
    pub fn new(alloc: Global) -> Log {
        Log {
            sizes: RefCell::new(Vec::new(alloc)),
            moved: RefCell::new(Vec::new(alloc)),
            is_lost: Cell::new(false),
        }
    }

    /// Tells whether exactly the calls of these sizes were made, in this order.
    pub fn has_calls(&self, sizes: &[usize]) -> bool {
        match self.sizes.try_borrow() {
            Ok(held) => !self.is_lost.get() && held.as_slice() == sizes,
            Err(_) => false,
        }
    }

    /// Tells whether exactly these octets were moved.
    pub fn has_moved(&self, octets: &[u8]) -> bool {
        match self.moved.try_borrow() {
            Ok(held) => !self.is_lost.get() && held.as_slice() == octets,
            Err(_) => false,
        }
    }

    /// The number of octets that were moved.
    fn moved_len(&self) -> usize {
        match self.moved.try_borrow() {
            Ok(held) => held.len(),
            Err(_) => 0,
        }
    }

    /// Logs a call, and returns its number, from 0.
    fn call(&self, size: usize) -> usize {
        let Ok(mut held) = self.sizes.try_borrow_mut() else {
            self.is_lost.set(true);
            return 0;
        };
        let number = held.len();
        if held.push(size).is_err() {
            self.is_lost.set(true);
        }
        number
    }

    /// Logs octets that a call moved.
    fn moves(&self, octets: &[u8]) {
        let Ok(mut held) = self.moved.try_borrow_mut() else {
            return self.is_lost.set(true);
        };
        if held.extend_from_slice(octets).is_err() {
            self.is_lost.set(true);
        }
    }
}

/// Reads and writes as a script says, a step a call; past the script a call moves nothing.
#[derive(Drop)]
pub struct Scripted<'a> {
    pub script: &'a [Step],
    pub log: &'a Log,
}

impl Scripted<'_> {
    /// Logs a call, and returns how many octets it moves.
    fn step(&self, size: usize) -> io::Result<usize>
        ensures bound { IfOk result (λ count. count ≤ size) }
    {
        let number = self.log.call(size);
        match self.script.get(number) {
            Some(Step::Moves(count)) => Ok(size.min(*count)),
            Some(Step::Fails(kind)) => Err(Error::from(*kind)),
            None => Ok(0),
        }
    }
}

/// The octet at this place of what a scripted reader gives.
pub fn octet_at(place: usize) -> u8 {
    (place % 251) as u8
}

impl Read for Scripted<'_> {
    fn read(&mut self, buf: &mut [u8]) -> io::Result<usize> {
        let count = self.step(buf.len())?;
        let start = self.log.moved_len();
        for (i, octet) in buf[..count].iter_mut().enumerate() {
            *octet = octet_at(start.saturating_add(i));
        }
        self.log.moves(&buf[..count]);
        Ok(count)
    }
}

impl Write for Scripted<'_> {
    fn write(&mut self, buf: &[u8]) -> io::Result<usize> {
        let count = self.step(buf.len())?;
        self.log.moves(&buf[..count]);
        Ok(count)
    }

    fn flush(&mut self) -> io::Result<()> {
        Ok(())
    }
}

/// The value of an octet of the caller's that no call wrote.
const UNTOUCHED: u8 = 0xEE;

/// Tells whether a `take` with a buffer of this size returns this number of octets, or [`Broken`] for None, and writes no more than these. They
/// are added to those that were taken before.
pub fn takes<S: Source>(
    alloc: Global,
    source: &mut S,
    size: usize,
    want: Option<usize>,
    taken: &mut Vec<u8>,
) -> Result<bool, AllocError> {
    let mut buffer = vec![in alloc; UNTOUCHED; size]?;
    let count = source.take(&mut buffer);
    let is_right = count == want.ok_or(Broken) && source.broken() == want.is_none();
    let (front, rest) = buffer.split_at(want.unwrap_or(0).min(size));
    taken.extend_from_slice(front)?;
    Ok(is_right && are_untouched(rest))
}

fn are_untouched(octets: &[u8]) -> bool {
    for octet in octets {
        if *octet != UNTOUCHED {
            return false;
        }
    }
    true
}

/// Tells whether these are the first octets of what a scripted reader gives.
pub fn are_first(octets: &[u8]) -> bool {
    for (place, octet) in octets.iter().enumerate() {
        if *octet != octet_at(place) {
            return false;
        }
    }
    true
}
