//! Contracts that leave one result. The calls are made on any arguments, often twice, and what they return is proved of their
//! contracts alone. So a body that returns anything else doesn't meet its contract.
ghost use Rattle.std.specs.Prelude.{◌≡◌};
ghost use Rattle.ill_grammar.specs.Places.{due_of};

use ber_core::Id;
use ill_grammar::{Found, Place};

/// One thing is due at a place with an identifier, or nothing.
fn one_thing_is_due(at: Place, id: Id) {
    match (at.find(id), at.find(id)) {
        (None, None) => {}
        (Some(one), Some(other)) => one_thing_goes_one_way(one, other),
        (Some(_), None) => unreachable!(),
        (None, Some(_)) => unreachable!(),
    }
}

/// An element that is due opens in one way, has one default, and lacks the same before and after.
fn one_thing_goes_one_way(one: Found, other: Found)
    requires { due_of one ≡ due_of other }
{
    prove!(one.default_value() == other.default_value());
    prove!(one.first().missing() == other.first().missing());
    prove!(one.after().missing() == other.after().missing());
    prove!(one.after().is_missing() == other.after().is_missing());
}

/// A place lacks one part or none.
fn one_part_is_missing(at: Place) {
    prove!(at.missing() == at.missing());
    prove!(at.is_missing() == at.missing().is_some());
}
