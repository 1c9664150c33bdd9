ghost use Rattle.std.specs.Prelude.{◌≡◌, false};

use super::{Broken, Source};
use std::io::Read;

/// A reader as a source.
///
/// The contract says: `take` gives exactly the octets that the reader gave; it returns [`Broken`] exactly where the source is broken
/// after the call, and then the reader gave nothing; a broken source stays broken. It doesn't say when the source breaks, since the
/// contract of [`Read`] has no word for a call that failed. The tests in the crate `test_encoding` show the rest: the source breaks where a
/// read returned an error, also that of an interrupted read, and nowhere else, and then no further call reaches the reader.
#[derive(Drop)]
pub struct FromRead<R> {
    inner: R,
    broken: bool,
}

impl<R: Read> FromRead<R> {
    ghost use Rattle.ber_core.specs.Supply.{reader_of, is_source_broken};

    pub fn new(inner: R) -> FromRead<R>
        ensures reader { reader_of result ≡ inner }
        ensures whole { is_source_broken result ≡ false }
    {
        FromRead {
            inner,
            broken: false,
        }
    }
}

impl<R: Read> Source for FromRead<R> {
    ghost use Rattle.ber_core.specs.Supply.{reader_of, is_source_broken};

    ghost left = { λ s. R.remaining (reader_of s) };

    ghost is_broken = { λ s. is_source_broken s };

    fn take(&mut self, buffer: &mut [u8]) -> Result<usize, Broken> {
        if self.broken {
            return Err(Broken);
        }
        match self.inner.read(buffer) {
            Ok(n) => Ok(n),
            Err(_) => {
                self.broken = true;
                Err(Broken)
            }
        }
    }

    fn broken(&self) -> bool {
        self.broken
    }
}
