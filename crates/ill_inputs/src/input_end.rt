//! The end of an input after as many messages as it may have.
ghost use Rattle.std.specs.Prelude.{[], IfErr, IsTrue, OnOk};
ghost use Rattle.std.specs.Io.KnownBytes.{Consumes, IsAtEnd};
ghost use Rattle.ill_inputs.specs.InputEnds.{GoesOn};

use crate::run_fault::RunFault;
use ber_core::Source;

/// Takes an octet of an input, which has to be at its end: one octet more is one too many, whatever it begins.
///
/// # Errors
///
/// `TooManyMessages` where an octet was taken, `ReadFault` where the source is broken and none was.
///
/// # Examples
///
/// ```
/// let ended = end_of_input(&mut source);
/// ```
pub fn end_of_input<R: Source>(source: &mut R) -> Result<(), RunFault>
    ensures end { OnOk result (Consumes (R.left source.old) (R.left source.new) []
        × IsAtEnd (R.left source.new)) }
    ensures more { IfErr result (GoesOn (R.left source.old) (R.left source.new)
        (R.is_broken source.new)) }
    ensures stays { IsTrue (R.is_broken source.old) → IsTrue (R.is_broken source.new) }
{
    let mut buffer = [0];
    match source.take(&mut buffer) {
        Ok(0) => Ok(()),
        Ok(_) => Err(RunFault::TooManyMessages),
        Err(_) => Err(RunFault::ReadFault),
    }
}
