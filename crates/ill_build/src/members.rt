//! Members of objects, by their names.
ghost use Rattle.std.specs.Prelude.{◌≡◌, ℕ, List, map, option_map, [], IfNone, IfSome};
ghost use Rattle.std.specs.List.{list_any, position};
ghost use Rattle.json.specs.Json.{Json, member, no_members};
ghost use Rattle.std.specs.Str.{bytes_eq};
ghost use Rattle.json.specs.Find.{as_object, as_array};
ghost use Rattle.json.specs.Value.{items_view, members_view, value_view};
ghost use Rattle.ill_build.specs.Members.{first_fault, member_fault, name_fault, place_of, presence_fault};
ghost use Rattle.ill_build.specs.code.Views.{known_of, name_of_member};

use crate::cause::BuildCause;
use ill_schema::{NodeId, Presence, row_names, rows_of};
use json::Value;

/// A member of an object.
pub type Member<'a> = (&'a str, Value<'a>);

/// The members that an object may have.
#[derive(Clone, Copy)]
pub enum Known<'n> {
    /// Those of the rows of a type.
    Rows(NodeId),
    /// Those of these names.
    Names(&'n [&'n str]),
}

impl<'n> Known<'n> {
    /// The fault of a member by its name alone.
    #[tactic(auto, using(crate::proofs::Lists::any_seen))]
    pub fn name_fault(self, name: &str) -> Option<BuildCause>
        ensures { result ≡ name_fault (known_of self.entry) name.now }
    {
        match self {
            Known::Rows(node) => match place_of(node, name) {
                None => Some(BuildCause::UnknownMember),
                Some(i) => match rows_of(node).get(i) {
                    None => Some(BuildCause::UnknownMember),
                    Some(row) => presence_fault(row.presence),
                },
            },
            Known::Names(names) => {
                if is_one_of(names, name) {
                    None
                } else {
                    Some(BuildCause::UnknownMember)
                }
            }
        }
    }

    /// The fault of a member behind others.
    #[tactic(auto, using(crate::proofs::Lists::any_seen))]
    fn member_fault(self, before: &[Member<'_>], name: &str) -> Option<BuildCause>
        ensures { result
            ≡ member_fault (known_of self.entry) (map name_of_member before.now) name.now }
    {
        if has_member(before, name) {
            Some(BuildCause::RepeatedMember)
        } else {
            self.name_fault(name)
        }
    }

    /// The name of the first member that has a fault, and its cause. It compares no more names than the square of the number of names
    /// that there are.
    pub fn first_fault<'a>(self, members: &[Member<'a>]) -> Option<(&'a str, BuildCause)>
        ensures { option_map (λ fault. (fault.0.now, fault.1)) result
            ≡ first_fault (known_of self.entry) [] (members_view members.now) }
    {
        for (i, member) in members.iter().enumerate() {
            let name = member.0;
            if let Some(cause) = self.member_fault(&members[..i], name) {
                return Some((name, cause));
            }
        }
        None
    }
}

/// The fault of a member of a row of this presence.
fn presence_fault(presence: Presence) -> Option<BuildCause>
    ensures { result ≡ presence_fault presence }
{
    match presence {
        Presence::LeftOut => Some(BuildCause::LeftOut),
        Presence::Must | Presence::May | Presence::Default(_) => None,
    }
}

/// The place of the first row of this name.
pub fn place_of(node: NodeId, name: &str) -> Option<usize>
    ensures { result ≡ place_of node name.now }
{
    position_of(row_names(node), name)
}

/// The place of the first of these names that is this one.
fn position_of(names: &[&str], name: &str) -> Option<usize>
    ensures { result ≡ position (λ own. bytes_eq name.now own.now) names.now }
{
    names.iter().position(|own| name == *own)
}

/// Tells whether the name is one of the names.
fn is_one_of(names: &[&str], name: &str) -> bool
    ensures { result ≡ list_any (λ own. bytes_eq name.now own.now) names.now }
{
    names.iter().any(|own| name == *own)
}

/// Tells whether a member has the name.
fn has_member(members: &[Member<'_>], name: &str) -> bool
    ensures { result ≡ list_any (λ member. bytes_eq name.now member.0.now) members.now }
{
    members.iter().any(|member| name == member.0)
}

/// The only member of an object, None where it has none, or two.
pub fn only_member<'v, 'a>(members: &'v [Member<'a>]) -> Option<&'v Member<'a>>
    ensures none { IfNone result ((name : List ℕ) (inner : Json)
        → members_view members.now ≡ member name inner no_members → ⊥) }
    ensures some { IfSome result (λ m. members_view members.now
        ≡ member m.now.0.now (value_view m.now.1) no_members) }
{
    if members.len() == 1 {
        members.first()
    } else {
        None
    }
}

/// The members of an object, None where the value is no object.
pub fn members_of<'v, 'a>(value: &'v Value<'a>) -> Option<&'v [Member<'a>]>
    ensures { option_map (λ members. members_view members.now) result
        ≡ as_object (value_view value.now) }
{
    match value {
        Value::Object(members) => Some(members.as_slice()),
        _ => None,
    }
}

/// The items of an array, None where the value is no array.
pub fn items_of<'v, 'a>(value: &'v Value<'a>) -> Option<&'v [Value<'a>]>
    ensures { option_map (λ items. items_view items.now) result
        ≡ as_array (value_view value.now) }
{
    match value {
        Value::Array(items) => Some(items.as_slice()),
        _ => None,
    }
}
