//! The equality of values.
ghost use Rattle.std.specs.Prelude.{◌≡◌, ◌↔◌, IsTrue};
ghost use Rattle.ill_schema.specs.Value.{content_of, entries_content, items_content};

use crate::value::Value;

/// Tells whether two values have the same content; the capacity of their memory doesn't count.
#[cycle(equal)]
pub fn equal(a: &Value, b: &Value) -> bool
    ensures { IsTrue result ↔ (content_of a.now ≡ content_of b.now) }
{
    match (a, b) {
        (Value::Flag(x), Value::Flag(y)) => x == y,
        (Value::Whole(x), Value::Whole(y)) => x == y,
        (Value::Date(x), Value::Date(y)) => x == y,
        (Value::Time(x), Value::Time(y)) => x == y,
        (Value::Print(x), Value::Print(y)) => x == y,
        (Value::Str(x), Value::Str(y)) => x == y,
        (Value::Seq(x), Value::Seq(y)) => equal_entries(x, y),
        (Value::List(x), Value::List(y)) => equal_items(x, y),
        (Value::Alt(m, x), Value::Alt(n, y)) => m == n && equal(x, y),
        _ => false,
    }
}

#[cycle(equal)]
fn equal_entries(a: &Vec<Option<Value>>, b: &Vec<Option<Value>>) -> bool
    ensures { IsTrue result ↔ (entries_content a.now.items ≡ entries_content b.now.items) }
{
    if a.len() != b.len() {
        return false;
    }
    for (i, x) in a.iter().enumerate() {
        let same = match (x, &b[i]) {
            (Some(x), Some(y)) => equal(x, y),
            (None, None) => true,
            _ => false,
        };
        if !same {
            return false;
        }
    }
    true
}

#[cycle(equal)]
fn equal_items(a: &Vec<Value>, b: &Vec<Value>) -> bool
    ensures { IsTrue result ↔ (items_content a.now.items ≡ items_content b.now.items) }
{
    if a.len() != b.len() {
        return false;
    }
    for (i, x) in a.iter().enumerate() {
        if !equal(x, &b[i]) {
            return false;
        }
    }
    true
}
