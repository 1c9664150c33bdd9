//! The list of the elements that are due at a place.
ghost use Rattle.std.specs.Prelude.{◌≡◌, ◌++◌, false, IfOk, IsTrue, OnOk, List, None};
ghost use Rattle.std.specs.List.{All};
ghost use Rattle.ber_tree.specs.Identifier.{Tag};
ghost use Rattle.ill_grammar.specs.Elements.{element_with};
ghost use Rattle.ill_grammar.specs.DueLists.{due_tag, have_own_tags, is_listed};
ghost use Rattle.ill_grammar.specs.code.Listing.{FitsAt, StartsAt, cell_tag, due_found, with_due};
ghost use Rattle.ill_grammar.specs.code.Meant.{cell_starts};

use super::{Found, Place, cell_at};
use crate::cell::Cell;
use crate::cell_tables::{alternatives_of, cells_of};
use ber_core::Class;
use std::alloc::{AllocError, Global};

/// An element that is due, with the class and number of its tag.
#[derive(Clone, Copy)]
pub struct DueElement {
    pub class: Class,
    pub number: u32,
    pub found: Found,
}

impl Place {
    ghost use Rattle.ill_grammar.specs.Places.{IsDueWithTag, next_at};
    ghost use Rattle.ill_grammar.specs.code.ByTag.{due_by_tag};

    /// The elements that are due because of their tags, one for each tag, in the order of the tables. An element of a foreign tree, which may
    /// have any tag, is not among them.
    ///
    /// # Errors
    ///
    /// Memory ran out.
    pub fn due_elements(self, alloc: Global) -> Result<Vec<DueElement>, AllocError>
        ensures due { IfOk result (λ due. All (λ d. IsDueWithTag (due_tag d) self d.found)
            due.items) }
        ensures all { (t : Tag) → IfOk result (λ due. is_listed t due.items ≡ false
            → due_by_tag t (next_at self) ≡ None) }
        ensures once { IfOk result (λ due. IsTrue (have_own_tags due.items)) }
    {
        let cells = cells_of(self.parent.node);
        let mut due = Vec::new(alloc);
        for position in self.position..cells.len() {
            let cell = cell_at(cells, position);
            let at = Place {
                parent: self.parent,
                position,
            };
            add_starts(at, cell, &mut due)?;
            if cell.is_mandatory {
                return Ok(due);
            }
        }
        Ok(due)
    }
}

/// Adds what begins at a place by the tags of its cell, but for tags that are there.
fn add_starts(at: Place, cell: &'static Cell, due: &mut Vec<DueElement>) -> Result<(), AllocError>
    requires fits { FitsAt at cell.now }
    ensures added { OnOk result ((more : List DueElement)
        × (due.new.items ≡ due.old.items ++ more)
        × All (StartsAt at cell.now due.old.items) more) }
    ensures all { (t : Tag) → OnOk result (is_listed t due.new.items ≡ false
        → element_with t (cell_starts cell.now) ≡ None) }
    ensures once { OnOk result (IsTrue (have_own_tags due.old.items)
        → IsTrue (have_own_tags due.new.items)) }
{
    if !cell.nested {
        let found = Found {
            at,
            cell,
            tagged: cell,
        };
        return add(found, due);
    }
    let cells = alternatives_of(cell.node);
    for row in 0..cells.len() {
        let found = Found {
            at,
            cell,
            tagged: cell_at(cells, row),
        };
        add(found, due)?;
    }
    Ok(())
}

/// Adds an element, but for one whose tag is there.
fn add(found: Found, due: &mut Vec<DueElement>) -> Result<(), AllocError>
    ensures { OnOk result (due.new.items ≡ with_due due.old.items (due_found found)) }
{
    if is_listed(found.tagged, due) {
        return Ok(());
    }
    due.push(DueElement {
        class: found.tagged.class,
        number: found.tagged.number,
        found,
    })?;
    Ok(())
}

/// Tells whether an element with the tag of a cell is there.
fn is_listed(cell: &Cell, due: &[DueElement]) -> bool
    ensures { result ≡ is_listed (cell_tag cell.now) due.now }
{
    for element in due {
        if element.number == cell.number && element.class == cell.class {
            return true;
        }
    }
    false
}
