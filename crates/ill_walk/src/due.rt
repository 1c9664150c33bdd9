//! The elements that are due at a place.
use crate::label::{Label, label_of, put_typed_tag};
use crate::lines::LineBuffer;
use crate::walk::ElementWalk;
use ber_core::{Class, Id};
use ill_grammar::{DueElement, Place, form_fault};
use ill_schema::{Cause, Kind, kind};
use std::alloc::{AllocError, Global};

/// One of the things that are due at a place.
#[derive(Clone, Copy)]
pub enum Due {
    /// An element of any tag.
    Any,
    /// An element with this tag and name.
    Element(Class, u32, Label),
    /// An element with this tag and name, which is not read.
    LeftOut(Class, u32, Label),
    /// The end of the element round the place.
    End,
}

impl Due {
    /// Tells whether it is a part that is left out.
    pub fn is_left_out(self) -> bool {
        matches!(self, Due::LeftOut(_, _, _))
    }

    /// Puts what is due, in words.
    pub fn put(self, lines: &mut LineBuffer) -> Result<(), AllocError> {
        match self {
            Due::Any => lines.text("one element of any tag"),
            Due::Element(class, number, label) => put_element(lines, class, number, label),
            Due::LeftOut(class, number, label) => {
                put_element(lines, class, number, label)?;
                lines.text(" (not read)")
            }
            Due::End => lines.text("the end of the element"),
        }
    }
}

/// A tag, and the name of its part, or of its type where there is no other.
fn put_element(
    lines: &mut LineBuffer,
    class: Class,
    number: u32,
    label: Label,
) -> Result<(), AllocError> {
    put_typed_tag(lines, class, number)?;
    if matches!(&label, Label::Type(_)) {
        return Ok(());
    }
    lines.text(" ")?;
    label.put(lines)
}

/// Everything that is due where a walk stands: one entry for each tag, and one for the end of the element, where nothing is missing in it.
pub fn due_after(alloc: Global, walk: &ElementWalk) -> Result<Vec<Due>, AllocError> {
    let place = walk.place();
    let mut due = Vec::new(alloc);
    if is_foreign(place) {
        due.push(Due::Any)?;
        return Ok(due);
    }
    let mut elements = place.due_elements(alloc)?;
    elements.sort_by_key(|element| (class_rank(element.class), element.number))?;
    for element in &elements {
        if let Some(found) = due_of(walk, *element) {
            due.push(found)?;
        }
    }
    if walk.is_inside() && !place.is_missing() {
        due.push(Due::End)?;
    }
    Ok(due)
}

/// Tells whether a place is in the wrapper of an open type, before its value, or in a foreign tree.
pub fn is_foreign(place: Place) -> bool {
    kind(place.node()) == Kind::Any
}

/// The rank of a class in the order of tags: that of X.690, 8.1.2.2, table 1.
fn class_rank(class: Class) -> u8 {
    match class {
        Class::Universal => 0,
        Class::Application => 1,
        Class::Context => 2,
        Class::Private => 3,
    }
}

/// An element that is due, with its name.
fn due_of(walk: &ElementWalk, element: DueElement) -> Option<Due> {
    let (class, number, found) = (element.class, element.number, element.found);
    let id = Id::new(class, true, number)?;
    let label = label_of(found, id, walk.place().node(), walk.items());
    Some(match form_fault(found, true) {
        Some(Cause::LeftOut(_)) => Due::LeftOut(class, number, label),
        _ => Due::Element(class, number, label),
    })
}
