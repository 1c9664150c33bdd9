//! Why nothing is built, and where.
ghost use Rattle.std.specs.Prelude.{◌≡◌, ◌∷◌, List, Some, [], IfSome};
ghost use Rattle.ill_build.specs.Path.{Step as Place, named, refusal_of, step_of};

use crate::cause::BuildCause;
use std::alloc::{AllocError, Global};

/// A step from a value of JSON to one inside it (RFC 6901).
#[derive(Clone, Copy, Debug)]
pub enum Step<'a> {
    /// To the member of this name.
    Name(&'a str),
    /// To the item of this number, from 0.
    Item(usize),
}

/// A cause, and the steps to the value that it is of.
#[derive(Debug, Drop)]
pub struct Fault<'a> {
    pub cause: BuildCause,
    /// The steps from the inside out.
    pub steps: Vec<Step<'a>>,
}

/// The reason why nothing is built.
#[derive(Debug, Drop)]
pub enum Stop<'a> {
    OutOfMemory,
    Refused(Fault<'a>),
}

impl<'a> From<AllocError> for Stop<'a> {
    ghost use Rattle.std.specs.Prelude.{◌≡◌};
    ghost use Rattle.ill_build.specs.declared.stop.Stop.{Stop};

    ghost from_gives = { λ error stop. stop ≡ Stop.OutOfMemory };

    fn from(_error: AllocError) -> Stop<'a> {
        Stop::OutOfMemory
    }
}

/// The refusal of a value itself.
pub fn refused<'a>(alloc: Global, cause: BuildCause) -> Stop<'a>
    ensures { refusal_of result ≡ Some (cause, []) }
{
    Stop::Refused(Fault {
        cause,
        steps: Vec::new(alloc),
    })
}

/// The refusal of the member of this name.
pub fn refused_at<'a>(alloc: Global, cause: BuildCause, name: &'a str) -> Stop<'a>
    ensures { IfSome (refusal_of result)
        (λ refusal. refusal ≡ (cause, named name.now ∷ [])) }
{
    within(refused(alloc, cause), Step::Name(name))
}

/// The same stop, seen from the value round the one that is refused: this step comes first. It says no more where memory runs out.
pub fn within<'a>(stop: Stop<'a>, step: Step<'a>) -> Stop<'a>
    ensures { IfSome (refusal_of result) (λ refusal. (path : List Place)
        × (refusal_of stop.entry ≡ Some (refusal.0, path))
        × (refusal.1 ≡ step_of step.entry ∷ path)) }
{
    match stop {
        Stop::OutOfMemory => Stop::OutOfMemory,
        Stop::Refused(mut fault) => match fault.steps.push(step) {
            Ok(()) => Stop::Refused(fault),
            Err(_) => Stop::OutOfMemory,
        },
    }
}
