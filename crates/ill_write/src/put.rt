//! Counts of what was put into a sink.
ghost use Rattle.std.specs.Prelude.{◌≡◌, ◌+◌, ◌<◌, length, take, IfErr, OnOk, IsErr, IsTrue};
ghost use Rattle.std.specs.Io.KnownBytes.{Appends};
ghost use Rattle.ill_write.specs.code.Puts.{Sends, counted};

use ber_core::{Broken, Sink, put_all};

/// Puts all the octets, and counts those that were put.
pub(crate) fn send<W: Sink>(sink: &mut W, octets: &[u8], written: &mut u32) -> Result<(), Broken>
    ensures sends { Sends result octets.now (W.contents sink.old) written.old (W.contents sink.new)
        written.new }
    ensures breaks { IsErr result → IsTrue (W.is_broken sink.new) }
    ensures stays { IsTrue (W.is_broken sink.old) → IsTrue (W.is_broken sink.new) }
{
    match put_all(sink, octets) {
        Ok(()) => {
            *written = counted(*written, octets.len());
            Ok(())
        }
        Err(count) => {
            *written = counted(*written, count);
            Err(Broken)
        }
    }
}

/// The sum of the two counts, or 4,294,967,295 where it is more.
fn counted(written: u32, more: usize) -> u32
    ensures { result ≡ counted (written + more) }
{
    written.saturating_add(more.min(u32::MAX as usize) as u32)
}
