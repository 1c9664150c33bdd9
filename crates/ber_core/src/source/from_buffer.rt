ghost use Rattle.std.specs.Prelude.{◌≡◌, ◌≤◌, [], drop, false, Ok, IfOk, IfSome, IsErr, IsTrue, OnErr, OnOk, length};
ghost use Rattle.std.specs.Io.{StartsWith};
ghost use Rattle.ber_core.specs.Shown.{Drops, DropsFewer};
ghost use Rattle.std.specs.Io.Buffered.{reader_buffer, reader_inner, reader_remaining};

use super::{Broken, Source};
use std::alloc::{AllocError, Global};
use std::io::{BufRead, BufReader, Read};

/// The number of octets that are read at once.
const BUFFER_LEN: usize = 65_536;

/// A reader as a source that reads up to 65,536 octets at once, and has at hand those of them that were not yet taken.
///
/// The contract says: the octets at hand, and after them what the reader has left, are what `take` and `consume` give, each octet once and
/// in order; `take` returns [`Broken`] exactly where the source is broken after the call, and then nothing was taken; a broken source
/// stays broken. As for [`FromRead`](super::FromRead), it doesn't say when the source breaks. The tests in the crate `test_encoding` show
/// the rest: the source breaks where a read returned an error, also that of an interrupted read, and nowhere else, and then no further
/// call reaches the reader; no read is made while octets are at hand, so a source that broke has none; with nothing at hand, a `take`
/// with a buffer of 65,536 octets or more reads straight into that.
#[derive(Drop)]
pub struct FromBuffer<R> {
    inner: BufReader<R>,
    broken: bool,
}

impl<R: Read> FromBuffer<R> {
    ghost use Rattle.ber_core.specs.Supply.{buffer_of, is_buffer_broken};

    /// The reader as a source with nothing at hand yet.
    ///
    /// # Errors
    ///
    /// [`AllocError`], where there is no memory for the buffer.
    pub fn new(alloc: Global, inner: R) -> Result<FromBuffer<R>, AllocError>
    where
        R: Drop,
        ensures reader { IfOk result (λ source. reader_inner (buffer_of source) ≡ inner) }
        ensures left { IfOk result (λ source. reader_remaining R.remaining (buffer_of source)
            ≡ R.remaining inner) }
        ensures hand { IfOk result (λ source. reader_buffer (buffer_of source) ≡ []) }
        ensures whole { IfOk result (λ source. is_buffer_broken source ≡ false) }
    {
        match BufReader::with_capacity(alloc, BUFFER_LEN, inner) {
            Ok(inner) => Ok(FromBuffer {
                inner,
                broken: false,
            }),
            Err(_) => Err(AllocError),
        }
    }
}

impl<R: Read> Source for FromBuffer<R> {
    ghost use Rattle.ber_core.specs.Supply.{buffer_of, is_buffer_broken};

    ghost left = { λ s. reader_remaining R.remaining (buffer_of s) };

    ghost is_broken = { λ s. is_buffer_broken s };

    ghost hand_len = { λ s. length (reader_buffer (buffer_of s)) };

    fn take(&mut self, buffer: &mut [u8]) -> Result<usize, Broken> {
        if self.broken {
            return Err(Broken);
        }
        match self.inner.read(buffer) {
            Ok(n) => Ok(n),
            Err(_) => {
                self.broken = true;
                Err(Broken)
            }
        }
    }

    fn broken(&self) -> bool {
        self.broken
    }

    fn buffered(&self) -> &[u8]
        ensures front { IfSome (reader_remaining R.remaining (buffer_of self.now))
            (λ octets. StartsWith octets result.now) }
        ensures len { length result.now ≤ length (reader_buffer (buffer_of self.now)) }
        ensures all { result.now ≡ reader_buffer (buffer_of self.now) }
    {
        self.inner.buffer()
    }

    fn consume(&mut self, count: usize) -> Result<(), Broken>
        requires hand { count ≤ length (reader_buffer (buffer_of self.old)) }
        ensures octets { OnOk result (Drops (reader_remaining R.remaining (buffer_of self.old))
            (reader_remaining R.remaining (buffer_of self.new)) count) }
        ensures part { OnErr result
            (DropsFewer (reader_remaining R.remaining (buffer_of self.old))
            (reader_remaining R.remaining (buffer_of self.new)) count) }
        ensures breaks { IsErr result → IsTrue (is_buffer_broken self.new) }
        ensures stays { IsTrue (is_buffer_broken self.old) → IsTrue (is_buffer_broken self.new) }
        ensures takes { result ≡ Ok tt }
        ensures rest { reader_buffer (buffer_of self.new) ≡ drop count
            (reader_buffer (buffer_of self.old)) }
        ensures broken { is_buffer_broken self.new ≡ is_buffer_broken self.old }
    {
        self.inner.consume(count);
        Ok(())
    }
}
