//! Refusals that are reported to C.
ghost use Rattle.std.specs.Prelude.{◌≡◌, ◌+◌};
ghost use Rattle.ill_schema.specs.Names.{cause_part_name_of};
ghost use Rattle.ill_refusals.specs.Fault.{fault_of};
ghost use Rattle.ill_c.specs.Memory.{change};
ghost use Rattle.ill_c.specs.Refusals.{c_text, part_text, reported};
ghost use Rattle.ill_c.specs.code.Steps.{IsReported};

use crate::put::copy_at;
use crate::status::Status;
use ill_normal::{Cause, Failure, Refusal};

/// The reason why octets are refused.
#[repr(C)]
#[derive(Clone, Copy)]
pub struct IllcanonRefusal {
    /// The offset of what the refusal is about, in octets from 0.
    pub at: u32,
    /// The number of the cause.
    pub cause: u32,
    /// The part that is left out or missing, as `Node.row-name`, and zeros after it. Of other causes zeros alone.
    pub part: [u8; 64],
}

/// Reports a refusal, and returns how the call ends.
pub(crate) fn report(failure: Failure, refusal: &mut IllcanonRefusal) -> Status
    ensures { IsReported failure (change refusal.old refusal.new) result }
{
    match failure {
        Failure::Refused(it) => {
            *refusal = reported(it);
            Status::Refused
        }
        Failure::OutOfMemory => Status::OutOfMemory,
    }
}

/// A refusal as it is reported.
pub(crate) fn reported(refusal: Refusal) -> IllcanonRefusal
    ensures { result ≡ reported (fault_of refusal) }
{
    IllcanonRefusal {
        at: refusal.at,
        cause: refusal.cause.number(),
        part: part_of(refusal.cause),
    }
}

/// The part that a cause is about, as a text of C.
fn part_of(cause: Cause) -> [u8; 64]
    ensures { result ≡ c_text (part_text (cause_part_name_of cause)) }
{
    let mut text = [0; 64];
    if let Some((node, row)) = cause.part_name() {
        let dot = node.len();
        copy_at(node.as_bytes(), &mut text, 0);
        copy_at(b".", &mut text, dot);
        copy_at(row.as_bytes(), &mut text, dot + 1);
    }
    text
}
