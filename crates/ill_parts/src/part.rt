//! The traits of typed parts: they are written as values and read from them.
ghost use Rattle.std.specs.Prelude.{◌≡◌, ◌↔◌, ◌++◌, IfOk, OnOk, IsTrue, List, [], map, Option, option_map, MatchOption, Ok};
ghost use Rattle.ber_leaf.specs.Profile.{profile_two};
ghost use Rattle.ill_tables.specs.declared.node.NodeId.{NodeId};
ghost use Rattle.ill_schema.specs.Content.{Content};
ghost use Rattle.ill_schema.specs.Fits.{Fits};
ghost use Rattle.ill_tables.specs.Table.{kind_of, rows_of};
ghost use Rattle.ill_schema.specs.Value.{content_of};
ghost use Rattle.ill_parts.specs.Shape.{Is, Must, May, RowsHold, record_of, option_of, entry_at, AreReady, AreBuilt, entries_from, AltHolds};

use ill_schema::{Kind, NodeId, Value, fits};
use std::alloc::{AllocError, Global};

/// A type that stands for a node of the tables.
pub trait Node {
    ghost NODE: { NodeId };
    // of a sequence, the entries of its rows
    ghost entries: { Self → List (Option Content) } = { λ _. [] };

    /// The node.
    const NODE: NodeId;
}

/// A part that is written as a value and read from one: the types of nodes, of leaves and of lists.
pub trait Part: Drop {
    // the view: the content that the part stands for
    ghost content: { Self → Content };

    // which contents are parts of this type
    ghost accepts: { Content → Type 0 };

    /// The value that the part stands for, in memory of its own.
    ///
    /// # Errors
    ///
    /// [`AllocError`], where memory is refused.
    fn to_value(&self, alloc: Global) -> Result<Value, AllocError>
        ensures value { IfOk result (λ v. content_of v ≡ content self.now) }
        ensures fits { IfOk result (λ v. accepts (content_of v)) };

    /// The part that stands for a value that is known to fit.
    ///
    /// # Errors
    ///
    /// [`AllocError`], where memory is refused.
    fn read(alloc: Global, value: &Value) -> Result<Self, AllocError>
        requires { accepts (content_of value.now) }
        ensures { IfOk result (λ part. content part ≡ content_of value.now) };
}

/// A part that stands for a whole node, so that any value can be asked whether it is one.
pub trait Typed: Part + Node + PartialEq {
    // a content is a part of this type exactly if it fits the node
    ghost is_node: { (c : Content) → Is Self.Node.NODE c ↔ Self.Part.accepts c };

    // two parts are equal exactly if they stand for the same content
    ghost is_exact: { (p q : Self) → IsTrue (Self.PartialEq.eq p q)
        ↔ (Self.Part.content p ≡ Self.Part.content q) };

    /// Two parts are equal exactly if they stand for the same value.
    final fn one_view(&self, other: &Self)
        ensures { IsTrue (Self.eq self.now other.now)
            ↔ (Self.content self.now ≡ Self.content other.now) }
    {
        let _ = other;
    }

    /// The part that stands for the value, or `None` where the value doesn't fit the node.
    ///
    /// # Errors
    ///
    /// [`AllocError`], where memory is refused.
    #[tactic(auto, unfolding(crate::specs::Shape::Is))]
    final fn from_value(alloc: Global, value: &Value) -> Result<Option<Self>, AllocError>
        ensures { IfOk
            result
            (λ read.
            MatchOption
            read
            (Fits profile_two (content_of value.now) Self.NODE → ⊥)
            (λ part.
            Fits profile_two (content_of value.now) Self.NODE
            × (Self.content part ≡ content_of value.now))) }
    {
        if !fits(value, Self::NODE) {
            return Ok(None);
        }
        Ok(Some(Self::read(alloc, value)?))
    }
}

/// The value of a sequence with these entries, or the error of one of them.
pub fn sequence<T: Node, const N: usize>(
    alloc: Global,
    part: &T,
    entries: [Result<Option<Value>, AllocError>; N],
) -> Result<Value, AllocError>
    requires kind { kind_of T.NODE ≡ Kind.Seq }
    requires rows { AreReady (rows_of T.NODE) entries }
    requires entries { AreBuilt entries (T.entries part.now) }
    ensures value { IfOk result (λ v. content_of v ≡ record_of (T.entries part.now)) }
    ensures fits { IfOk result (λ v. Is T.NODE (content_of v)) }
{
    let _ = part;
    let mut built = Vec::with_capacity(alloc, N)?;
    push_all(&mut built, Vec::from_array(alloc, entries)?)?;
    Ok(Value::Seq(built))
}

/// Pushes the entries after those that are there, or returns the error of one of them.
pub(crate) fn push_all(
    entries: &mut Vec<Option<Value>>,
    pending: Vec<Result<Option<Value>, AllocError>>,
) -> Result<(), AllocError>
    ensures { OnOk result (map Ok entries.new.items ≡ map Ok entries.old.items ++ pending.items) }
{
    for entry in pending {
        entries.push(entry?)?;
    }
    Ok(())
}

/// The entries of a sequence.
#[tactic(auto, unfolding(crate::specs::Shape::Is))]
pub fn entries<T: Node>(value: &Value) -> &[Option<Value>]
    requires kind { kind_of T.NODE ≡ Kind.Seq }
    requires fits { Is T.NODE (content_of value.now) }
    ensures value { content_of value.now ≡ record_of (entries_from (rows_of T.NODE)
        (entry_at result.now) 0) }
    ensures rows { RowsHold (rows_of T.NODE)
        (entries_from (rows_of T.NODE) (entry_at result.now) 0) }
{
    match value {
        Value::Seq(entries) => entries,
        _ => unreachable!(),
    }
}

/// The part in the entry of a row that is always there.
#[tactic(auto, unfolding(crate::specs::Shape::Must, crate::specs::Shape::entry_at))]
pub fn required<P: Part>(
    alloc: Global,
    entries: &[Option<Value>],
    row: usize,
) -> Result<P, AllocError>
    requires { Must P.accepts (entry_at entries.now row) }
    ensures { IfOk result (λ part. Some (P.content part) ≡ entry_at entries.now row) }
{
    match entries.get(row) {
        Some(Some(value)) => P::read(alloc, value),
        _ => unreachable!(),
    }
}

/// The part in the entry of a row that may be absent.
#[tactic(auto, unfolding(crate::specs::Shape::May, crate::specs::Shape::entry_at))]
pub fn optional<P: Part>(
    alloc: Global,
    entries: &[Option<Value>],
    row: usize,
) -> Result<Option<P>, AllocError>
    requires { May P.accepts (entry_at entries.now row) }
    ensures { IfOk result (λ part. option_map P.content part ≡ entry_at entries.now row) }
{
    match entries.get(row) {
        Some(Some(value)) => Ok(Some(P::read(alloc, value)?)),
        _ => Ok(None),
    }
}

/// The entry of a row that is always there.
#[tactic(auto, unfolding(crate::specs::Shape::Must))]
pub fn required_value<P: Part>(alloc: Global, part: &P) -> Result<Option<Value>, AllocError>
    ensures value { IfOk result (λ entry. option_map content_of entry ≡ Some (P.content part.now)) }
    ensures fits { IfOk result (λ entry. Must P.accepts (option_map content_of entry)) }
{
    Ok(Some(part.to_value(alloc)?))
}

/// The entry of a row that may be absent.
#[tactic(auto, unfolding(crate::specs::Shape::May))]
pub fn optional_value<P: Part>(alloc: Global, part: &Option<P>) -> Result<Option<Value>, AllocError>
    ensures value { IfOk result (λ entry. option_map content_of entry ≡ option_map P.content
        part.now) }
    ensures fits { IfOk result (λ entry. May P.accepts (option_map content_of entry)) }
{
    match part {
        Some(part) => Ok(Some(part.to_value(alloc)?)),
        None => Ok(None),
    }
}

/// The value of a choice.
#[tactic(auto, unfolding(crate::specs::Shape::Is))]
pub fn alternative<T: Node>(alloc: Global, row: u8, value: Value) -> Result<Value, AllocError>
    requires kind { kind_of T.NODE ≡ Kind.Choice }
    requires alternative { AltHolds (rows_of T.NODE) 0 row (content_of value) }
    ensures value { IfOk result (λ v. content_of v ≡ option_of row (content_of value)) }
    ensures fits { IfOk result (λ v. Is T.NODE (content_of v)) }
{
    Ok(Value::Alt(row, Box::new(alloc, value)?))
}

/// The alternative of a choice, by its row, and what it holds.
#[tactic(auto, unfolding(crate::specs::Shape::Is))]
pub fn chosen<T: Node>(value: &Value) -> (u8, &Value)
    requires kind { kind_of T.NODE ≡ Kind.Choice }
    requires fits { Is T.NODE (content_of value.now) }
    ensures value { content_of value.now ≡ option_of result.0 (content_of result.1.now) }
    ensures alternative { AltHolds (rows_of T.NODE) 0 result.0 (content_of result.1.now) }
{
    match value {
        Value::Alt(row, chosen) => (*row, chosen),
        _ => unreachable!(),
    }
}
