//! The names of causes for which lines of JSON are refused, by their numbers.
ghost use Rattle.std.specs.Prelude.{◌≡◌, ◌≢◌, IfNone, IfSome};
ghost use Rattle.ill_build.specs.Causes.{cause_number};
ghost use Rattle.ill_build.specs.declared.cause.BuildCause.{BuildCause as Reason};
ghost use Rattle.ill_c.specs.Builds.{NamesBuildCause};
ghost use Rattle.ill_c.specs.Memory.{change};
ghost use Rattle.ill_c.specs.Status.{ReturnsStatus};

use crate::put::put;
use crate::status::Status;
use ill_build::BuildCause;

/// Writes the name of the cause of a number, for which a line is refused.
#[unsafe(no_mangle)]
pub extern "C" fn illcanon_build_cause_name(cause: u32, buffer: &mut [u8], size: &mut usize) -> u32
    ensures { ReturnsStatus result (NamesBuildCause cause (change buffer.old buffer.new)
        (change size.old size.new)) }
{
    put_name(cause, buffer, size).number()
}

fn put_name(number: u32, buffer: &mut [u8], size: &mut usize) -> Status
    ensures { NamesBuildCause number (change buffer.old buffer.new) (change size.old size.new)
        result }
{
    match cause_numbered(number) {
        Some(cause) => put(cause.name().as_bytes(), buffer, size),
        None => Status::UnknownCause,
    }
}

/// The cause of a number, None where no cause has it.
fn cause_numbered(number: u32) -> Option<BuildCause>
    ensures found { IfSome result (λ cause. cause_number cause ≡ number) }
    ensures none { IfNone result ((cause : Reason) → cause_number cause ≢ number) }
{
    match number {
        1 => Some(BuildCause::NotJson),
        2 => Some(BuildCause::LineTooLong),
        3 => Some(BuildCause::WrongType),
        4 => Some(BuildCause::UnknownMember),
        5 => Some(BuildCause::RepeatedMember),
        6 => Some(BuildCause::LeftOut),
        7 => Some(BuildCause::MissingMember),
        8 => Some(BuildCause::NotOneMember),
        9 => Some(BuildCause::UnknownName),
        10 => Some(BuildCause::OtherName),
        11 => Some(BuildCause::NotWhole),
        12 => Some(BuildCause::NumberTooLong),
        13 => Some(BuildCause::BadCharacter),
        14 => Some(BuildCause::BadText),
        15 => Some(BuildCause::BadDate),
        16 => Some(BuildCause::BadTime),
        17 => Some(BuildCause::BadHexadecimal),
        18 => Some(BuildCause::BadBits),
        19 => Some(BuildCause::BadOid),
        20 => Some(BuildCause::BadForeign),
        21 => Some(BuildCause::NormalTooLong),
        22 => Some(BuildCause::OtherProfile),
        _ => None,
    }
}
