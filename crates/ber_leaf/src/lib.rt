//! The contents octets of primitive elements and strings: which octets hold which value. Use it for the texts, dates and numbers in a
//! message that is built in code.
//!
//! A text can't be made of octets outside its alphabet, and a day is one of the calendar:
//!
//! ```
//! let day = DateText::new(b"20240229".to_vec(alloc)?)?;
//! ```
#![tactic(auto)]

mod bit_segments;
mod bit_string;
mod boolean;
mod contents;
mod fault;
mod integer;
mod laws;
mod null;
mod object_descriptor;
mod object_identifier;
mod octet_string;
mod segments;
mod text;

pub use bit_segments::BitSegments;
pub use bit_string::BitString;
pub use boolean::Flag;
pub use contents::Leaf;
pub use fault::LeafFault;
pub use integer::Whole;
pub use laws::{
    enumerated_is_held_as_integer, normal_content_holds_its_value, normal_content_is_least,
    normal_contents_tell_values_apart, octets_hold_one_out, octets_hold_one_value,
    profile_two_holds_what_one_does, whole_numbers_have_bounds,
};
pub use null::Null;
pub use object_descriptor::ObjectDescriptor;
pub use object_identifier::ObjectIdentifier;
pub use octet_string::OctetString;
pub use segments::Segments;
pub use text::{DateText, GeneralText, IllString, PrintableText, TimeText, VisibleText};
