//! The names and the clauses of causes, by their numbers.
ghost use Rattle.ill_schema.specs.Causes.{cause_clause, cause_name};
ghost use Rattle.ill_c.specs.Calls.{SaysOfCause};
ghost use Rattle.ill_c.specs.Memory.{change};
ghost use Rattle.ill_c.specs.Status.{ReturnsStatus};

use crate::put::put;
use crate::status::Status;
use ill_normal::Cause;

/// Writes the name of the cause of a number.
#[unsafe(no_mangle)]
pub extern "C" fn illcanon_cause_name(cause: u32, buffer: &mut [u8], size: &mut usize) -> u32
    ensures { ReturnsStatus result (SaysOfCause cause_name cause (change buffer.old buffer.new)
        (change size.old size.new)) }
{
    put_name(cause, buffer, size).number()
}

/// Writes the clause that the cause of a number enforces.
#[unsafe(no_mangle)]
pub extern "C" fn illcanon_cause_clause(cause: u32, buffer: &mut [u8], size: &mut usize) -> u32
    ensures { ReturnsStatus result (SaysOfCause cause_clause cause (change buffer.old buffer.new)
        (change size.old size.new)) }
{
    put_clause(cause, buffer, size).number()
}

fn put_name(number: u32, buffer: &mut [u8], size: &mut usize) -> Status
    ensures { SaysOfCause cause_name number (change buffer.old buffer.new)
        (change size.old size.new) result }
{
    match Cause::of_number(number) {
        Some(cause) => put(cause.name().as_bytes(), buffer, size),
        None => Status::UnknownCause,
    }
}

fn put_clause(number: u32, buffer: &mut [u8], size: &mut usize) -> Status
    ensures { SaysOfCause cause_clause number (change buffer.old buffer.new)
        (change size.old size.new) result }
{
    match Cause::of_number(number) {
        Some(cause) => put(cause.clause().as_bytes(), buffer, size),
        None => Status::UnknownCause,
    }
}
