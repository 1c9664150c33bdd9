//! The forms of elements.
ghost use Rattle.std.specs.Prelude.{◌≡◌, IsTrue, None};
ghost use Rattle.ill_grammar.specs.Due.{read_as};
ghost use Rattle.ill_grammar.specs.code.Judging.{IsFormed, has_form, is_usual};

use crate::cell::ElementType;
use crate::place::Found;
use ill_schema::Cause;

/// The fault of an element in this form, None where it may have the form.
#[inline(always)]
pub fn form_fault(found: Found, constructed: bool) -> Option<Cause>
    ensures { IsFormed found constructed result }
{
    if has_form(found.element_type(), constructed) {
        return None;
    }
    match found.element_type() {
        ElementType::LeftOut => Some(Cause::LeftOut(found.part())),
        _ => Some(Cause::WrongForm),
    }
}

/// Tells whether an element that is read so may have the form (X.690, 8.2 to 8.10, 8.14, 8.15, 8.19 and 8.23). One that is left out has none.
#[inline(always)]
fn has_form(element_type: ElementType, constructed: bool) -> bool
    ensures { result ≡ has_form element_type constructed }
{
    match element_type {
        ElementType::Leaf(leaf) => !constructed || leaf.is_string(),
        ElementType::ModuleLeaf(leaf) => !constructed || leaf.is_string(),
        ElementType::BitString
        | ElementType::Segment
        | ElementType::BitSegment
        | ElementType::Foreign => true,
        ElementType::Sequence
        | ElementType::List
        | ElementType::Wrapper
        | ElementType::LooseWrapper => constructed,
        ElementType::LeftOut => false,
    }
}

/// Tells whether an element is usual in this form: constructed, a SEQUENCE, a SEQUENCE OF or an explicit tag; primitive, a leaf of
/// profile 2. Most messages have no other elements.
#[inline(always)]
pub fn is_usual(found: Found, constructed: bool) -> bool
    ensures formed { IsTrue result → IsFormed found constructed None }
    ensures usual { IsTrue result → IsTrue (is_usual (read_as found) constructed) }
{
    if constructed {
        matches!(
            found.element_type(),
            ElementType::Sequence
                | ElementType::List
                | ElementType::Wrapper
                | ElementType::LooseWrapper
        )
    } else {
        matches!(found.element_type(), ElementType::Leaf(_))
    }
}
