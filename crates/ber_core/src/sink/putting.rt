ghost use Rattle.std.specs.Prelude.{◌≡◌, ◌<◌, length, take, IfErr, OnOk, IsErr, IsTrue};
ghost use Rattle.std.specs.Io.KnownBytes.{Appends};

use super::Sink;
use crate::source::Broken;

/// Puts all the octets into the sink.
///
/// ```text
/// put_all(&mut sink, &normal.octets)?;
/// ```
///
/// # Errors
///
/// The number of octets that the sink took, the first ones, where it breaks. They are not all.
pub fn put_all<W: Sink>(sink: &mut W, octets: &[u8]) -> Result<(), usize>
    ensures all { OnOk result (Appends (W.contents sink.old) (W.contents sink.new) octets.now) }
    ensures some { IfErr result (λ n. Appends (W.contents sink.old) (W.contents sink.new)
        (take n octets.now)) }
    ensures fewer { IfErr result (λ n. n < length octets.now) }
    ensures breaks { IsErr result → IsTrue (W.is_broken sink.new) }
    ensures stays { IsTrue (W.is_broken sink.old) → IsTrue (W.is_broken sink.new) }
{
    let mut at = 0;
    while at < octets.len() {
        match sink.put(&octets[at..]) {
            Ok(count) => at += count,
            Err(Broken) => return Err(at),
        }
    }
    Ok(())
}
