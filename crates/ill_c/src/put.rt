//! Octets that are put into a buffer.
ghost use Rattle.std.specs.Prelude.{◌≡◌, ◌+◌, ◌≤◌, ◌++◌, length, take, drop};
ghost use Rattle.ill_c.specs.Calls.{Puts};
ghost use Rattle.ill_c.specs.Memory.{change};

use crate::status::Status;

/// Copies the octets into the buffer, from an index on.
pub(crate) fn copy_at(octets: &[u8], buffer: &mut [u8], at: usize)
    requires { at + length octets.now ≤ length buffer.old }
    ensures { buffer.new ≡ take at buffer.old ++ octets.now
        ++ drop (at + length octets.now) buffer.old }
{
    buffer[at..at + octets.len()].copy_from_slice(octets);
}

/// Puts the octets at the front of the buffer, where it has room for them, and says how many they are.
pub(crate) fn put(octets: &[u8], buffer: &mut [u8], size: &mut usize) -> Status
    ensures { Puts octets.now (change buffer.old buffer.new) (change size.old size.new) result }
{
    let count = octets.len();
    *size = count;
    if buffer.len() < count {
        return Status::NoRoom;
    }
    copy_at(octets, buffer, 0);
    Status::Done
}
