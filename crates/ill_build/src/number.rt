//! Whole numbers, by number, by name or by both.
ghost use Rattle.std.specs.Prelude.{◌≡◌, ◌≢◌, [], ℕ, ℤ, IfNone, IfOk, IfSome, List, OnOk, true, false, None, Some, codes};
ghost use Rattle.std.specs.Fmt.{signed_decimal};
ghost use Rattle.std.specs.Ordering.{int_eq};
ghost use Rattle.std.specs.Prelude.{pos};
ghost use Rattle.json.specs.Find.{as_number, as_object, as_str, get};
ghost use Rattle.json.specs.Json.{boolean, number as text_of, string};
ghost use Rattle.json.specs.Value.{value_view};
ghost use Rattle.ber_leaf.specs.Simple.{whole};
ghost use Rattle.ill_schema.specs.Content.{Content};
ghost use Rattle.ill_tables.specs.Numbers.{number_name, number_names};
ghost use Rattle.ill_tables.specs.Table.{kind_of};
ghost use Rattle.ill_tables.specs.declared.node.Kind.{Kind as KindOf};
ghost use Rattle.ill_tables.specs.declared.node.LeafKind.{LeafKind as LeafKindOf};
ghost use Rattle.ill_build.specs.Faulty.{IsFaultOf, IsMemberFault, IsNumberFault, IsNumberNameFault, IsWholeFault};
ghost use Rattle.ill_build.specs.Path.{OnRefusal};
ghost use Rattle.ill_build.specs.Said.{IsDefaultOf, IsPair, LeafSays, NameSays, Says};

use crate::cause::BuildCause;
use crate::leaf::{check_members, required_member, text_in};
use crate::members::{Known, members_of};
use crate::put::Context;
use crate::stop::{Step, Stop, refused, within};
use ill_schema::{Kind, LeafKind, NodeId, Presence, Row, kind, number_name, number_names};
use ill_texts::{NumberFault, whole_number};
use itoa::Buffer;
use json::Value;

/// The names of the members of a number that has a name.
const PAIR: [&str; 2] = ["number", "name"];

/// Reads a number by itself, by its name or by both, in a row of this name.
pub fn read_number<'a>(context: Context, name: &str, value: &Value<'a>) -> Result<i64, Stop<'a>>
    ensures said { IfOk result (λ n. LeafSays name.now (value_view value.now) (whole n)) }
    ensures refused { OnRefusal result (IsWholeFault name.now (value_view value.now)) }
{
    if let Some(text) = value.as_number() {
        return read_numeral(context, text);
    }
    if let Some(text) = value.as_str() {
        return read_name(context, name, text);
    }
    if members_of(value).is_none() {
        return Err(refused(context.alloc, BuildCause::WrongType));
    }
    read_pair(context, name, value)
}

/// The number whose text this is.
fn read_numeral<'a>(context: Context, text: &str) -> Result<i64, Stop<'a>>
    ensures said { IfOk result (λ n. text.now ≡ signed_decimal n) }
    ensures refused { OnRefusal result (λ cause path. IsNumberFault text.now cause
        × (path ≡ [])) }
{
    match whole_number(text) {
        Ok(number) => Ok(number),
        Err(NumberFault::NotWhole) => Err(refused(context.alloc, BuildCause::NotWhole)),
        Err(NumberFault::TooLong) => Err(refused(context.alloc, BuildCause::NumberTooLong)),
    }
}

/// The number of this name in a row.
fn read_name<'a>(context: Context, row: &str, name: &str) -> Result<i64, Stop<'a>>
    ensures said { IfOk result (λ n. number_name row.now n ≡ Some name.now) }
    ensures refused { OnRefusal result (λ cause path. IsNumberNameFault row.now name.now cause
        × (path ≡ [])) }
{
    if !has_names(row) {
        return Err(refused(context.alloc, BuildCause::WrongType));
    }
    match number_named(row, name) {
        Some(number) => Ok(number),
        None => Err(refused(context.alloc, BuildCause::UnknownName)),
    }
}

/// Tells whether numbers of a row have names.
fn has_names(row: &str) -> bool
    ensures yes { result ≡ true → number_names row.now ≢ [] }
    ensures no { result ≡ false → number_names row.now ≡ [] }
{
    !number_names(row).is_empty()
}

/// The number of this name in a row.
fn number_named(row: &str, name: &str) -> Option<i64>
    ensures some { IfSome result (λ n. number_name row.now n ≡ Some name.now) }
    ensures none { IfNone result ((n : ℤ) → number_name row.now n ≡ Some name.now → ⊥) }
{
    for (number, own) in number_names(row) {
        if *own == name {
            return Some(*number);
        }
    }
    None
}

/// Reads an object of a number and its name in a row.
fn read_pair<'a>(context: Context, row: &str, value: &Value<'a>) -> Result<i64, Stop<'a>>
    requires { as_object (value_view value.now) ≢ None }
    ensures said { IfOk result (λ n. NameSays (number_name row.now n) n
        (value_view value.now)) }
    ensures refused { OnRefusal result (IsWholeFault row.now (value_view value.now)) }
{
    if !has_names(row) {
        return Err(refused(context.alloc, BuildCause::WrongType));
    }
    check_members(context, Known::Names(&PAIR), value)?;
    let number = number_member(context, value)?;
    check_name(context, row, number, value)?;
    Ok(number)
}

/// The number that an object has.
fn number_member<'a>(context: Context, value: &Value<'a>) -> Result<i64, Stop<'a>>
    ensures said { IfOk result (λ n. get (codes "number") (value_view value.now)
        ≡ Some (text_of (signed_decimal n))) }
    ensures refused { OnRefusal result (IsMemberFault (codes "number")
        (λ k. IsFaultOf (as_number k) IsNumberFault) (value_view value.now)) }
{
    let member = required_member(context, "number", value)?;
    match number_in(context, member) {
        Ok(number) => Ok(number),
        Err(stop) => Err(within(stop, Step::Name("number"))),
    }
}

/// The number that a value is.
fn number_in<'a>(context: Context, value: &Value<'a>) -> Result<i64, Stop<'a>>
    ensures said { IfOk result (λ n. value_view value.now ≡ text_of (signed_decimal n)) }
    ensures refused { OnRefusal result
        (IsFaultOf (as_number (value_view value.now)) IsNumberFault) }
{
    match value.as_number() {
        Some(text) => read_numeral(context, text),
        None => Err(refused(context.alloc, BuildCause::WrongType)),
    }
}

/// Checks that an object has the number's name in a row.
fn check_name<'a>(
    context: Context,
    row: &str,
    number: i64,
    value: &Value<'a>,
) -> Result<(), Stop<'a>>
    ensures said { OnOk result ((name : List ℕ) × (number_name row.now number ≡ Some name)
        × (get (codes "name") (value_view value.now) ≡ Some (string name))) }
    ensures refused { OnRefusal result (IsMemberFault (codes "name")
        (λ k. IsFaultOf (as_str k) (λ text cause. (number_name row.now number ≢ Some text)
        × (cause ≡ BuildCause.OtherName))) (value_view value.now)) }
{
    let member = required_member(context, "name", value)?;
    match check_own_name(context, row, number, member) {
        Ok(()) => Ok(()),
        Err(stop) => Err(within(stop, Step::Name("name"))),
    }
}

/// Checks that a value is the number's name in a row.
fn check_own_name<'a>(
    context: Context,
    row: &str,
    number: i64,
    value: &Value<'a>,
) -> Result<(), Stop<'a>>
    ensures said { OnOk result ((name : List ℕ) × (number_name row.now number ≡ Some name)
        × (value_view value.now ≡ string name)) }
    ensures refused { OnRefusal result (IsFaultOf (as_str (value_view value.now))
        (λ text cause. (number_name row.now number ≢ Some text)
        × (cause ≡ BuildCause.OtherName))) }
{
    let text = text_in(context, value)?;
    if is_name_of(row, number, text) {
        Ok(())
    } else {
        Err(refused(context.alloc, BuildCause::OtherName))
    }
}

/// Tells whether the value says the row's default, in a row of this name.
pub fn says_default(row: Row, name: &str, value: &Value<'_>) -> bool
    ensures yes { result ≡ true → (c : Content) × IsDefaultOf row c
        × Says name.now row.node (value_view value.now) c }
    ensures no { result ≡ false → (c : Content) → IsDefaultOf row c
        → Says name.now row.node (value_view value.now) c → ⊥ }
{
    let Presence::Default(number) = row.presence else {
        return false;
    };
    if is_boolean(row.node) {
        says_flag(is_one(number), value)
    } else {
        says_number(name, number, value)
    }
}

/// Tells whether the type is BOOLEAN.
pub fn is_boolean(node: NodeId) -> bool
    ensures yes { result ≡ true → kind_of node ≡ KindOf.Leaf LeafKindOf.Boolean }
    ensures no { result ≡ false → kind_of node ≡ KindOf.Leaf LeafKindOf.Boolean → ⊥ }
{
    match kind(node) {
        Kind::Leaf(LeafKind::Boolean) => true,
        _ => false,
    }
}

/// Tells whether the number of a default is TRUE's.
pub fn is_one(number: i64) -> bool
    ensures { result ≡ int_eq number (pos 1) }
{
    number == 1
}

/// Tells whether the value says the truth value.
fn says_flag(is_set: bool, value: &Value<'_>) -> bool
    ensures yes { result ≡ true → value_view value.now ≡ boolean is_set }
    ensures no { result ≡ false → value_view value.now ≡ boolean is_set → ⊥ }
{
    match value {
        Value::Bool(said) => *said == is_set,
        _ => false,
    }
}

/// Tells whether the value says the number, in a row of this name.
fn says_number(name: &str, number: i64, value: &Value<'_>) -> bool
    ensures yes { result ≡ true → LeafSays name.now (value_view value.now) (whole number) }
    ensures no { result ≡ false → LeafSays name.now (value_view value.now) (whole number) → ⊥ }
{
    match value {
        Value::Number(text) => is_text_of(number, text),
        Value::String(text) => is_name_of(name, number, text),
        Value::Object(_) => says_pair(name, number, value),
        _ => false,
    }
}

/// Tells whether the value is an object of the number and its name in a row.
fn says_pair(row: &str, number: i64, value: &Value<'_>) -> bool
    ensures yes { result ≡ true → (name : List ℕ) × (number_name row.now number ≡ Some name)
        × IsPair (codes "number") (text_of (signed_decimal number)) (codes "name") (string name)
        (value_view value.now) }
    ensures no { result ≡ false → (name : List ℕ) → number_name row.now number ≡ Some name
        → IsPair (codes "number") (text_of (signed_decimal number)) (codes "name") (string name)
        (value_view value.now) → ⊥ }
{
    let Some(members) = members_of(value) else {
        return false;
    };
    if Known::Names(&PAIR).first_fault(members).is_some() {
        return false;
    }
    let Some(own) = value.get("number") else {
        return false;
    };
    if !is_number(number, own) {
        return false;
    }
    match value.get("name") {
        Some(own) => is_name(row, number, own),
        None => false,
    }
}

/// Tells whether this is the number's text.
fn is_text_of(number: i64, text: &str) -> bool
    ensures yes { result ≡ true → text.now ≡ signed_decimal number }
    ensures no { result ≡ false → text.now ≡ signed_decimal number → ⊥ }
{
    let mut buffer = Buffer::new();
    buffer.format(number) == text
}

/// Tells whether this is the number's name in a row.
fn is_name_of(row: &str, number: i64, name: &str) -> bool
    ensures yes { result ≡ true → number_name row.now number ≡ Some name.now }
    ensures no { result ≡ false → number_name row.now number ≡ Some name.now → ⊥ }
{
    match number_name(row, number) {
        Some(own) => own == name,
        None => false,
    }
}

/// Tells whether the value is the number.
fn is_number(number: i64, value: &Value<'_>) -> bool
    ensures yes { result ≡ true → value_view value.now ≡ text_of (signed_decimal number) }
    ensures no { result ≡ false → value_view value.now ≡ text_of (signed_decimal number) → ⊥ }
{
    match value {
        Value::Number(text) => is_text_of(number, text),
        _ => false,
    }
}

/// Tells whether the value is the number's name in a row.
fn is_name(row: &str, number: i64, value: &Value<'_>) -> bool
    ensures yes { result ≡ true → (name : List ℕ) × (number_name row.now number ≡ Some name)
        × (value_view value.now ≡ string name) }
    ensures no { result ≡ false → (name : List ℕ) → number_name row.now number ≡ Some name
        → value_view value.now ≡ string name → ⊥ }
{
    match value {
        Value::String(text) => is_name_of(row, number, text),
        _ => false,
    }
}
