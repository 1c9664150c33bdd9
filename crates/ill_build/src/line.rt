//! Lines of JSON.
ghost use Rattle.std.specs.Prelude.{◌≡◌, ◌≤◌, ◌++◌, List, IfErr, IfOk, IfSome, OnOk, flat_map, length, map, not, reverse, Some, codes};
ghost use Rattle.json.specs.Value.{value_view};
ghost use Rattle.ill_schema.specs.Apdu.{Apdu, SpellsApdu, normal_form_in, root};
ghost use Rattle.ill_schema.specs.Fits.{FitsApdu};
ghost use Rattle.ill_schema.specs.Profiles.{profile_of};
ghost use Rattle.ill_tables.specs.declared.part.Row.{Row as RowOf};
ghost use Rattle.ill_build.specs.Faulty.{IsFaultOf, IsMemberFault};
ghost use Rattle.json.specs.Find.{as_str, get};
ghost use Rattle.ill_build.specs.Line.{HasProfileFault, IsApduFault, IsFaultyLine, IsLineFault, IsProfileSaid, NamesApdu, OnFailure, SaysApdu, SaysLine, escaped, line_limit, pointer_of, profile_word, step_text};
ghost use Rattle.ill_build.specs.Path.{OnRefusal, Step as Place, refusal_of, step_of};
ghost use Rattle.ill_build.specs.code.Lines.{failed};

use crate::cause::BuildCause;
use crate::members::{Known, members_of, place_of};
use crate::put::{Context, put_row, row_at};
use crate::stop::{Step, Stop, refused, refused_at, within};
use der_buffer::DerBuffer;
use ill_schema::{LIMIT, Profile, root_as};
use itoa::Buffer;
use json::{Error, Scratch, Value};
use std::alloc::{AllocError, Global};

/// The number of octets that a line may have.
pub const LINE_LIMIT: usize = 16_777_216;

/// The members that a line may have.
const LINE: [&str; 8] = [
    "apdu", "value", "profile", "file", "number", "offset", "octets", "normal",
];

/// The refusal of a line.
#[derive(Debug, Drop)]
pub struct BuildRefusal {
    pub cause: BuildCause,
    /// The place of what is refused, as a JSON pointer (RFC 6901): empty for the line itself.
    pub pointer: Vec<u8>,
}

/// The reason why a line is not built.
#[derive(Debug, Drop)]
pub enum BuildFailure {
    OutOfMemory,
    Refused(BuildRefusal),
}

impl From<AllocError> for BuildFailure {
    ghost use Rattle.std.specs.Prelude.{◌≡◌};
    ghost use Rattle.ill_build.specs.declared.line.BuildFailure.{BuildFailure};

    ghost from_gives = { λ error failure. failure ≡ BuildFailure.OutOfMemory };

    fn from(_error: AllocError) -> BuildFailure {
        BuildFailure::OutOfMemory
    }
}

/// Builds a message: the normal form of the APDU that a line of JSON says in the profile, as `show --json` writes it. Members that say where
/// a message stood (`file`, `number`, `offset`, `octets`, `normal`) may hold anything.
///
/// # Errors
///
/// Out of memory, and for a line that says no APDU whose normal form is within the limit its one fault: the cause, and the place as a
/// JSON pointer.
///
/// # Examples
///
/// ```text
/// match build_line(alloc, Profile::Two, line) {
///     Ok(octets) => sink.write_all(&octets)?,
///     Err(BuildFailure::Refused(refusal)) => report(refusal.cause, &refusal.pointer),
///     Err(BuildFailure::OutOfMemory) => return Err(AllocError.into()),
/// }
/// ```
pub fn build_line(alloc: Global, profile: Profile, text: &[u8]) -> Result<Vec<u8>, BuildFailure>
    ensures built { IfOk result (λ octets. (a : Apdu) × SaysApdu (profile_of profile) text.now a
        × SpellsApdu (profile_of profile) a octets.items
        × (octets.items ≡ normal_form_in (profile_of profile) a)) }
    ensures short { IfOk result (λ octets. length text.now ≤ line_limit) }
    ensures refused { IfErr result
        (λ failure. OnFailure failure (IsFaultyLine (profile_of profile) text.now)) }
{
    if text.len() > LINE_LIMIT {
        return Err(failure_of(alloc, refused(alloc, BuildCause::LineTooLong)));
    }
    let mut scratch = Scratch::new(alloc);
    match Value::from_slice(alloc, text, &mut scratch) {
        Ok(value) => match put_line(Context { alloc, profile }, &value) {
            Ok(octets) => Ok(octets),
            Err(stop) => Err(failure_of(alloc, stop)),
        },
        Err(Error::Invalid) => Err(failure_of(alloc, refused(alloc, BuildCause::NotJson))),
        Err(_) => Err(BuildFailure::OutOfMemory),
    }
}

/// The failure of a stop, with its path as a pointer.
fn failure_of(alloc: Global, stop: Stop<'_>) -> BuildFailure
    ensures { IfSome (failed result) (λ refusal. (path : List Place)
        × (refusal_of stop.entry ≡ Some (refusal.0, path)) × (refusal.1 ≡ pointer_of path)) }
{
    match stop {
        Stop::OutOfMemory => BuildFailure::OutOfMemory,
        Stop::Refused(fault) => match pointer_of(alloc, &fault.steps) {
            Ok(pointer) => BuildFailure::Refused(BuildRefusal {
                cause: fault.cause,
                pointer,
            }),
            Err(_) => BuildFailure::OutOfMemory,
        },
    }
}

/// The JSON pointer of steps from the inside out.
fn pointer_of(alloc: Global, steps: &[Step<'_>]) -> Result<Vec<u8>, AllocError>
    ensures { IfOk result (λ pointer. pointer.items
        ≡ pointer_of (map step_of (reverse steps.now))) }
{
    let mut pointer = Vec::new(alloc);
    let mut i = steps.len();
    while i > 0 {
        i -= 1;
        put_step(steps[i], &mut pointer)?;
    }
    Ok(pointer)
}

/// Appends a step to a pointer.
fn put_step(step: Step<'_>, pointer: &mut Vec<u8>) -> Result<(), AllocError>
    ensures { OnOk result (pointer.new.items
        ≡ pointer.old.items ++ step_text (step_of step.entry)) }
{
    pointer.push(b'/')?;
    match step {
        Step::Name(name) => put_name(name.as_bytes(), pointer),
        Step::Item(i) => {
            let mut digits = Buffer::new();
            pointer.extend_from_slice(digits.format(i).as_bytes())
        }
    }
}

/// Appends a name, with `~` and `/` escaped.
fn put_name(name: &[u8], pointer: &mut Vec<u8>) -> Result<(), AllocError>
    ensures { OnOk result (pointer.new.items ≡ pointer.old.items ++ flat_map escaped name.now) }
{
    for octet in name {
        match octet {
            b'~' => pointer.extend_from_slice(b"~0")?,
            b'/' => pointer.extend_from_slice(b"~1")?,
            octet => pointer.push(*octet)?,
        }
    }
    Ok(())
}

/// Appends the octets that the value of a line says, within the limit.
fn put_line<'a>(context: Context, value: &Value<'a>) -> Result<Vec<u8>, Stop<'a>>
    ensures said { IfOk result (λ octets. (a : Apdu)
        × SaysLine (profile_of context.profile) (value_view value.now) a
        × FitsApdu (profile_of context.profile) a
        × (length octets.items ≤ (profile_of context.profile).limit)
        × (octets.items ≡ normal_form_in (profile_of context.profile) a)) }
    ensures refused { OnRefusal result
        (IsLineFault (profile_of context.profile) (value_view value.now)) }
{
    let Some(members) = members_of(value) else {
        return Err(refused(context.alloc, BuildCause::WrongType));
    };
    if let Some((name, cause)) = Known::Names(&LINE).first_fault(members) {
        return Err(refused_at(context.alloc, cause, name));
    }
    check_profile(context, value)?;
    let i = read_apdu(context, value)?;
    let Some(body) = value.get("value") else {
        return Err(refused_at(context.alloc, BuildCause::MissingMember, "value"));
    };
    let mut out = DerBuffer::new(context.alloc);
    let row = row_at(root_as(context.profile), i);
    match put_row(context, row, "", body, &mut out) {
        Ok(()) => {}
        Err(stop) => return Err(within(stop, Step::Name("value"))),
    }
    if out.len() > LIMIT as usize {
        return Err(refused(context.alloc, BuildCause::NormalTooLong));
    }
    Ok(out.into_octets())
}

/// Judges the member that says the profile, if it is there.
fn check_profile<'a>(context: Context, value: &Value<'a>) -> Result<(), Stop<'a>>
    ensures said { OnOk result (IsProfileSaid (profile_of context.profile)
        (get (codes "profile") (value_view value.now))) }
    ensures refused { OnRefusal result
        (HasProfileFault (profile_of context.profile) (value_view value.now)) }
{
    let Some(own) = value.get("profile") else {
        return Ok(());
    };
    let Some(word) = own.as_str() else {
        return Err(refused_at(context.alloc, BuildCause::WrongType, "profile"));
    };
    let (named, other) = words_of(context.profile);
    if word == named {
        Ok(())
    } else if word == other {
        Err(refused_at(context.alloc, BuildCause::OtherProfile, "profile"))
    } else {
        Err(refused_at(context.alloc, BuildCause::UnknownName, "profile"))
    }
}

/// The word of a profile, and that of the other one.
fn words_of(profile: Profile) -> (&'static str, &'static str)
    ensures named { result.0.now ≡ profile_word (profile_of profile).full }
    ensures other { result.1.now ≡ profile_word (not (profile_of profile).full) }
{
    match profile {
        Profile::Two => ("2", "module"),
        Profile::Module => ("module", "2"),
    }
}

/// The row of ILL-APDU whose name the line says.
fn read_apdu<'a>(context: Context, value: &Value<'a>) -> Result<usize, Stop<'a>>
    ensures said { IfOk result (λ i. (row : RowOf)
        × NamesApdu (profile_of context.profile) (value_view value.now) i row) }
    ensures refused { OnRefusal result (IsMemberFault (codes "apdu")
        (λ k. IsFaultOf (as_str k) (IsApduFault (profile_of context.profile)))
        (value_view value.now)) }
{
    let Some(own) = value.get("apdu") else {
        return Err(refused_at(context.alloc, BuildCause::MissingMember, "apdu"));
    };
    let Some(name) = own.as_str() else {
        return Err(refused_at(context.alloc, BuildCause::WrongType, "apdu"));
    };
    let root = root_as(context.profile);
    match Known::Rows(root).name_fault(name) {
        Some(BuildCause::LeftOut) => { Err(refused_at(context.alloc, BuildCause::LeftOut, "apdu")) }
        Some(_) => Err(refused_at(context.alloc, BuildCause::UnknownName, "apdu")),
        None => match place_of(root, name) {
            Some(i) => Ok(i),
            None => unreachable!(),
        },
    }
}
