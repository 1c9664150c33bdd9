//! The elements of a message one after another, as they are spelled: a line of text or HTML for each, and for a refusal its place, what is
//! there and what is due. Use it to say where a message is refused; `ill_dump` writes the lines.
//!
//! ```
//! // the path of a refusal's place, what was found there, and what is due
//! let place = place_of_refusal(alloc, profile, octets, refusal)?;
//! ```
#![tactic(auto)]

mod document;
mod due;
mod found;
mod label;
mod laws;
mod lines;
mod markup;
mod note;
mod refusal;
mod refused_place;
mod universal;
mod unjudged;
mod value;
mod walk;
mod words;

pub use document::{HTML_BEGIN, HTML_END};
pub use laws::texts_have_no_markup;
pub use lines::LineBuffer;
pub use markup::DumpFormat;
pub use refusal::put_refusal_lines;
pub use unjudged::UnjudgedWalk;
pub use walk::{ElementWalk, Steps};
pub use words::place_of_refusal;
