//! The entry of a row.
ghost use Rattle.std.specs.Prelude.{◌≡◌, ◌↔◌, IsTrue};
ghost use Rattle.ill_schema.specs.Presence.{IsCarried, MayLack, is_default};
ghost use Rattle.ill_schema.specs.Value.{content_of};

use crate::value::Value;
use ill_tables::{Kind, LeafKind, Presence, Row, kind};

/// Tells whether a row may hold an entry.
pub fn is_carried(presence: Presence) -> bool
    ensures { IsTrue result ↔ IsCarried presence }
{
    !matches!(presence, Presence::LeftOut)
}

/// Tells whether a row's entry may be missing.
pub fn may_lack(presence: Presence) -> bool
    ensures { IsTrue result ↔ MayLack presence }
{
    matches!(presence, Presence::May | Presence::LeftOut)
}

/// Tells whether an entry is its row's default.
pub fn is_default(row: Row, value: &Value) -> bool
    ensures { result ≡ is_default row (content_of value.now) }
{
    let is_boolean = kind(row.node) == Kind::Leaf(LeafKind::Boolean);
    match (row.presence, value) {
        (Presence::Default(number), Value::Flag(flag)) => is_boolean && (number == 1) == *flag,
        (Presence::Default(number), Value::Whole(whole)) => !is_boolean && *whole == number,
        _ => false,
    }
}
