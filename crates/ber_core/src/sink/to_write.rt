ghost use Rattle.std.specs.Prelude.{◌≡◌, false};

use super::Sink;
use crate::source::Broken;
use std::io::Write;

/// A writer as a sink.
///
/// The contract says: the writer took exactly as many of the first octets as `put` returns, at least one if there is one; `put` returns
/// [`Broken`] exactly where the sink is broken after the call, and then the writer took nothing; a broken sink stays broken. It doesn't
/// say when the sink breaks, since the contract of [`Write`] has no word for a call that failed. The tests in the crate `test_encoding` show
/// the rest: the sink breaks where a write returned an error, also that of an interrupted write, or took nothing of a piece that isn't
/// empty, and nowhere else, and then no further call reaches the writer.
#[derive(Drop)]
pub struct ToWrite<W> {
    inner: W,
    broken: bool,
}

impl<W: Write> ToWrite<W> {
    ghost use Rattle.ber_core.specs.Supply.{writer_of, is_sink_broken};

    pub fn new(inner: W) -> ToWrite<W>
        ensures writer { writer_of result ≡ inner }
        ensures whole { is_sink_broken result ≡ false }
    {
        ToWrite {
            inner,
            broken: false,
        }
    }
}

impl<W: Write> Sink for ToWrite<W> {
    ghost use Rattle.ber_core.specs.Supply.{writer_of, is_sink_broken};

    ghost contents = { λ s. W.contents (writer_of s) };

    ghost is_broken = { λ s. is_sink_broken s };

    fn put(&mut self, octets: &[u8]) -> Result<usize, Broken> {
        if self.broken {
            return Err(Broken);
        }
        match self.inner.write(octets) {
            Ok(n) if n > 0 || octets.is_empty() => Ok(n),
            _ => {
                self.broken = true;
                Err(Broken)
            }
        }
    }

    fn broken(&self) -> bool {
        self.broken
    }
}
