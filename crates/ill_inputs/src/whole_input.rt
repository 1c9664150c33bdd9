//! Whole inputs in memory.
ghost use Rattle.std.specs.Prelude.{◌<◌, ◌≤◌, length, IfErr, IfOk, IsTrue};
ghost use Rattle.std.specs.Io.KnownBytes.{Consumes, IsAtEnd};
ghost use Rattle.ill_inputs.specs.Inputs.{IsUnread};
ghost use Rattle.ill_inputs.specs.TakenOctets.{TakesAtMost};

use crate::run_fault::RunFault;
use ber_core::{Broken, Source};
use std::alloc::Global;

/// The number of octets that are asked of a source at once.
const READ_LEN: usize = 4096;

/// Reads to the end of the input, but at most `most` octets. No more than these are taken of the
/// source, whatever the result.
///
/// # Errors
///
/// Out of memory, or a source that is broken.
pub fn read_at_most<R: Source>(
    alloc: Global,
    source: &mut R,
    most: usize,
) -> Result<Vec<u8>, RunFault>
    ensures taken { IfOk result (λ text. Consumes (R.left source.old) (R.left source.new)
        text.items) }
    ensures most { IfOk result (λ text. length text.items ≤ most) }
    ensures end { IfOk result (λ text. length text.items < most → IsAtEnd (R.left source.new)) }
    ensures bound { TakesAtMost most (R.left source.old) (R.left source.new) }
    ensures fails { IfErr result (IsUnread most (R.left source.old) (R.left source.new)
        (R.is_broken source.new)) }
    ensures stays { IsTrue (R.is_broken source.old) → IsTrue (R.is_broken source.new) }
{
    let mut text = Vec::new(alloc);
    let mut buffer = [0; READ_LEN];
    while text.len() < most {
        let room = READ_LEN.min(most - text.len());
        let count = match source.take(&mut buffer[..room]) {
            Ok(0) => return Ok(text),
            Ok(count) => count,
            Err(Broken) => return Err(RunFault::ReadFault),
        };
        if text.extend_from_slice(&buffer[..count]).is_err() {
            return Err(RunFault::OutOfMemory);
        }
    }
    Ok(text)
}
