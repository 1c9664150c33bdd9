//! The version of the library.
ghost use Rattle.ill_c.specs.Calls.{Puts};
ghost use Rattle.ill_c.specs.Memory.{change};
ghost use Rattle.ill_c.specs.Status.{ReturnsStatus};
ghost use Rattle.ill_c.specs.Version.{version};

use crate::put::put;

/// The version, which is that of the program.
const VERSION: &[u8] = b"0.2.0";

/// Writes the version of the library.
#[unsafe(no_mangle)]
pub extern "C" fn illcanon_version(buffer: &mut [u8], size: &mut usize) -> u32
    ensures { ReturnsStatus result (Puts version (change buffer.old buffer.new)
        (change size.old size.new)) }
{
    put(VERSION, buffer, size).number()
}
