//! The place of a row's tag in the normal form: around the element, or instead of its own.
ghost use Rattle.std.specs.Prelude.{◌≡◌};
ghost use Rattle.ill_schema.specs.Elements.{wrapper, replacement};

use ber_core::Class;
use ill_tables::{Mode, Row};

/// The class and number of the element that a row's tag puts round the element of its type.
pub fn wrapper(row: Row) -> Option<(Class, u32)>
    ensures { result ≡ wrapper row }
{
    match row.mode {
        Mode::Explicit | Mode::ExplicitOrBare => row.tag,
        Mode::Implicit | Mode::Untagged => None,
    }
}

/// The class and number that replace the tag of a row's type.
pub fn replacement(row: Row) -> Option<(Class, u32)>
    ensures { result ≡ replacement row }
{
    match row.mode {
        Mode::Implicit => row.tag,
        Mode::Explicit | Mode::ExplicitOrBare | Mode::Untagged => None,
    }
}
