//! The decoder of ILL messages, and the exact refusal of every other input. Use it to read a message as a value, as an outline, or
//! straight to its normal form.
//!
//! ```
//! match decode(alloc, octets) {
//!     Ok(message) => use_it(message),
//!     Err(Failure::Refused(Refusal { at, cause })) => refuse(at, cause),
//!     Err(Failure::OutOfMemory) => give_up(),
//! }
//! ```
#![tactic(auto)]

mod decoder;
mod draft;
mod element_reader;
mod failure;
mod laws;
mod normal;
mod normal_form_draft;
mod open_values;
mod outline_draft;
mod outlined;
mod path;
mod read;
mod reader;
mod recorder;
mod steps;
mod usual;
mod value_draft;
mod whole;

pub use decoder::{Decoder, Progress};
pub use element_reader::ElementReader;
pub use failure::{Failure, ReadFailure};
pub use ill_grammar::{LeafType, Mark, ModuleLeaf, Outline};
pub use ill_refusals::{
    causes_of_profiles, few_elements_are_open, one_outcome, one_place, refusals_stay,
    the_module_refuses_other_tags, truncated_at_the_end, values_are_small,
};
pub use laws::decoders_are_apart;
pub use normal::{NormalForm, NormalReader, decode_normal, read_normal};
pub use outlined::{OutlineReader, OutlinedMessage, read_outline};
pub use read::{decode, read_message};
pub use reader::PassedElement;
pub use recorder::{NoRecorder, Recorder};
