//! The marks of an outline, read one after another.
ghost use Rattle.std.specs.Prelude.{◌≡◌, ◌++◌, ◌<◌, ◌≤◌, [], ◌∷◌, length, drop, not, nat_eq, slice_get, Option};
ghost use Rattle.std.specs.List.{list_all};
ghost use Rattle.ber_leaf.specs.Leaf.{integer_of};
ghost use Rattle.ill_schema.specs.Content.{Content};
ghost use Rattle.ill_grammar.specs.Outline.{IsAbsent};
ghost use Rattle.ill_grammar.specs.Marks.{alternative_in, ends_number, is_at_end, is_there, is_octet, leading_octets, octets_in, absent_in};

use crate::outline::Mark;
use arrayvec::ArrayVec;
use ber_leaf::Whole;
use ill_schema::{PartId, Presence, row};

/// Tells whether no mark is left, or the end comes first.
pub fn is_at_end(marks: &[Mark]) -> bool
    ensures { result ≡ is_at_end marks.now }
{
    matches!(marks, [] | [Mark::End, ..])
}

/// The row that is absent, where its mark comes first.
pub fn absent_row(marks: &[Mark]) -> Option<PartId>
    ensures { result ≡ absent_in marks.now }
{
    match marks {
        [Mark::Absent(part), ..] => Some(*part),
        _ => None,
    }
}

/// Tells whether a row that is absent has a default.
pub fn has_default(part: PartId) -> bool
    ensures { (e : Option Content) → IsAbsent part e → result ≡ is_there e }
{
    match row(part) {
        Some(row) => matches!(row.presence, Presence::Default(_)),
        None => false,
    }
}

/// The alternative, where its mark comes first.
pub fn alternative(marks: &[Mark]) -> Option<u8>
    ensures { result ≡ alternative_in marks.now }
{
    match marks {
        [Mark::Alternative(row), ..] => Some(*row),
        _ => None,
    }
}

/// The first mark, if there is one.
pub fn leading_mark(marks: &[Mark]) -> Option<Mark>
    ensures { result ≡ slice_get marks.now 0 }
{
    marks.first().copied()
}

/// The marks after the first.
pub fn after_leading_mark(marks: &[Mark]) -> &[Mark]
    ensures { result.now ≡ drop 1 marks.now }
{
    match marks.split_first() {
        Some((_, rest)) => rest,
        None => marks,
    }
}

/// The number of marks of octets that come first.
pub fn leading_octets(marks: &[Mark]) -> usize
    ensures exact { result ≡ leading_octets marks.now }
    ensures within { result ≤ length marks.now }
{
    let mut count = 0;
    for mark in marks {
        if !is_octet(*mark) {
            return count;
        }
        count += 1;
    }
    count
}

/// Tells whether a mark is an octet.
pub fn is_octet(mark: Mark) -> bool
    ensures { result ≡ is_octet mark }
{
    matches!(&mark, Mark::Octet(_))
}

/// Tells whether a number of an OBJECT IDENTIFIER or of a tag ends with the octet (X.690, 8.1.2.4.2 and 8.19.2).
pub fn ends_number(mark: Mark) -> bool
    ensures { result ≡ ends_number mark }
{
    matches!(&mark, Mark::Octet(0x00..=0x7F))
}

/// Tells whether any octet isn't 0.
pub fn is_set(octets: &[Mark]) -> bool
    ensures { result ≡ not (list_all (nat_eq 0) (octets_in octets.now)) }
{
    for mark in octets {
        if has_set(*mark) {
            return true;
        }
    }
    false
}

/// Tells whether it is an octet that isn't 0.
fn has_set(mark: Mark) -> bool
    ensures { result ≡ not (list_all (nat_eq 0) (octets_in (mark ∷ []))) }
{
    matches!(&mark, Mark::Octet(0x01..=0xFF))
}

/// The number that octets are in two's complement; 0 where there are no octets or more than eight.
pub fn number_in(octets: &[Mark]) -> i64
    ensures { 0 < length (octets_in octets.now) → length (octets_in octets.now) ≤ 8
        → result ≡ integer_of (octets_in octets.now) }
{
    let octets = first_eight(octets);
    if octets.is_empty() {
        return 0;
    }
    Whole::read(octets.as_slice())
}

/// The octets, where they are eight at most.
fn first_eight(octets: &[Mark]) -> ArrayVec<u8, 8>
    ensures { length (octets_in octets.now) ≤ 8 → result.items ≡ octets_in octets.now }
{
    let mut all = ArrayVec::new();
    for mark in octets {
        push_mark(&mut all, *mark);
    }
    all
}

fn push_mark(octets: &mut ArrayVec<u8, 8>, mark: Mark)
    ensures { length (octets.old.items ++ octets_in (mark ∷ [])) ≤ 8
        → octets.new.items ≡ octets.old.items ++ octets_in (mark ∷ []) }
{
    if let Mark::Octet(octet) = mark {
        let _ = octets.try_push(octet);
    }
}
