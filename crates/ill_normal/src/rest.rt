//! The octets after the place where a message is refused.
ghost use Rattle.std.specs.Prelude.{◌≤◌, length, IfOk, IsTrue};

use ber_core::Source;
use ber_framing::Framer;
use ill_schema::LIMIT;
use std::alloc::AllocError;

/// The number of octets that are asked of a source at once.
const READ_LEN: usize = 1024;

/// Takes the rest of an element whose first octets were recorded, as far as its end is known and the source has octets, and records it up to
/// 1,048,576 octets of the element. Where the source breaks, that was the rest. What was recorded after the element is forgotten: a reader may
/// have seen octets of the next one.
pub fn take_rest<R: Source>(source: &mut R, recorded: &mut Vec<u8>) -> Result<(), AllocError>
    ensures { IsTrue (R.is_broken source.old) → IsTrue (R.is_broken source.new) }
{
    let mut framer = Framer::new();
    let mut count = framer.feed(recorded.as_slice());
    'element: for _ in 0..LIMIT {
        let taken = take_some(source, recorded, framer.missing_len() as usize)?;
        if taken == 0 {
            break;
        }
        let _ = framer.feed(&recorded[recorded.len() - taken..]);
        count = recorded.len();
    }
    let count = count.saturating_add(framer.oversized_length_rest() as usize);
    'rest: for _ in recorded.len()..count {
        let _ = take_some(source, recorded, 1)?;
    }
    recorded.truncate(count);
    Ok(())
}

/// Takes up to this number of octets, as far as an element may have more, and keeps them. Returns how many they are.
fn take_some<R: Source>(
    source: &mut R,
    recorded: &mut Vec<u8>,
    wanted: usize,
) -> Result<usize, AllocError>
    ensures within { IfOk result (λ count. count ≤ length recorded.new.items) }
    ensures stays { IsTrue (R.is_broken source.old) → IsTrue (R.is_broken source.new) }
{
    let mut buffer = [0; READ_LEN];
    let room = (LIMIT as usize).saturating_sub(recorded.len());
    let wanted = wanted.min(READ_LEN).min(room);
    let Ok(count) = source.take(&mut buffer[..wanted]) else {
        return Ok(0);
    };
    recorded.extend_from_slice(&buffer[..count])?;
    Ok(count)
}
