//! Texts that exist only if their octets are in their alphabet or form.

mod date;
mod digits;
mod general;
mod ill_string;
mod printable;
mod time;
mod visible;

pub use date::DateText;
pub use general::GeneralText;
pub use ill_string::IllString;
pub use printable::PrintableText;
pub use time::TimeText;
pub use visible::VisibleText;
