//! The elements of a message as code reads them: the element that a tag begins at a place, the open elements, the judgement of the
//! octets at a place, and the outline of a message that was read, whose marks can be read one after another. All of it is proved to be
//! what the definitions say. A caller needs it only to walk through elements, as `ill_dump` does, or to write outlines in a form of its own.
//!
//! ```
//! // What follows an element that is found at a place
//! match found.element() {
//!     Element::Leaf(leaf) => content_of(leaf),
//!     Element::Segment => part_of_a_string(),
//!     _ => elements_in_it(),
//! }
//! ```
#![tactic(auto)]

mod cell;
mod cell_tables;
mod due;
mod element;
mod form;
mod frame;
mod frames;
mod hexadecimal;
mod identifier;
mod judge;
mod leaf_type;
mod marks;
mod need;
mod outline;
mod place;
mod spot;
mod spot_entries;

pub use cell::{EntryRole, is_strict, levels_in};
pub use due::{Next, Slot};
pub use element::{Element, Wrapped};
pub use form::form_fault;
pub use frame::Frame;
pub use frames::{Frames, MAX_DEPTH};
pub use hexadecimal::{add_hexadecimal, add_octets};
pub use identifier::{add_identifier, are_short, next_number};
pub use judge::{ConstructedElement, Extent, PrimitiveElement};
pub use leaf_type::{LeafType, ModuleLeaf, ValueKind};
pub use marks::{
    absent_row, after_leading_mark, alternative, ends_number, has_default, is_at_end, is_octet,
    is_set, leading_mark, leading_octets, number_in,
};
pub use need::need_at;
pub use outline::{Mark, Outline};
pub use place::{DueElement, Found, Place};
pub use spot::{NO_DEFAULT, Spot, UsualElement, UsualKind};
