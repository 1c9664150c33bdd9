//! Messages as they are spelled: a line for each element, and why a message is refused. Use it to find what is wrong with a message, or
//! not normal in it.
//!
//! ```
//! let dump = DumpOptions {
//!     profile: Profile::Two,
//!     hex: false,
//!     name: "messages.ber",
//!     names_input: false,
//!     only: None,
//!     format: DumpFormat::Text,
//!     on_refusal: OnRefusal::EndWith,
//! };
//! let end = run_dump(alloc, dump, &mut source, &mut sink, &mut NoReports);
//! ```
#![tactic(auto)]

mod message;
mod put;
mod run;
mod write_dump;

pub use ill_walk::{DumpFormat, HTML_BEGIN, HTML_END, place_of_refusal, texts_have_no_markup};
pub use message::{DumpedMessage, dump_message};
pub use run::{DumpOptions, run_dump};
pub use write_dump::WriteDump;
