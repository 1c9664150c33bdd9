//! Messages as text that people read: a line for each leaf. Use it to show a message.
//!
//! ```
//! // message 1 Expired
//! // protocol-version-num = 2
//! let text = show_text(alloc, 1, &message)?;
//! ```
#![tactic(auto)]

mod field_path;
mod foreign;
mod laws;
mod leaf;
mod message;
mod module_leaf;
mod show;
mod text;
mod text_sink;

pub use laws::lifted_texts_are_the_same;
pub use message::show_text;
pub use text::Text;
