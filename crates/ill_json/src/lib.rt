//! Messages as JSON: a line for each. Use it to hand messages to programs that read JSON.
//!
//! ```
//! let head = LineHead { number: 1, offset: 0, octets: 33, is_normal: true };
//! // {"number":1,"offset":0,"octets":33,"apdu":"Expired","normal":true,"value":{..}}
//! let line = json_line(alloc, Profile::Two, Vec::new(alloc), None, head, &outline)?;
//! ```
#![tactic(auto)]

mod ascii;
mod built;
mod leaf;
mod line;
mod module_leaf;
mod place;
mod result;
mod value;
mod writing;

pub use built::{LinePlace, Unbuilt, built_line, unbuilt_line};
pub use ill_inputs::RefusalPlace;
pub use line::{LineHead, json_line};
pub use result::{RefusalKind, RefusedHead, refused_line, result_line};
