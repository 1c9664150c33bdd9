//! Inputs, and what jobs say of them. An input is read whole, as hexadecimal text, or to its end; a job ends with a verdict or a fault, and
//! says the place of a refusal in words. Use it to read an input that isn't messages in BER; `ill_normal` re-exports its calls.
//!
//! ```
//! // the octets that the hexadecimal text of a source stands for
//! let octets = read_hex(alloc, &mut source)?;
//! ```
#![tactic(auto)]

mod hexadecimal;
mod input_end;
mod place;
mod run_fault;
mod side;
mod verdict;
mod whole_input;

pub use hexadecimal::{MAX_HEX_TEXT, read_hex, text_octets};
pub use input_end::end_of_input;
pub use place::RefusalPlace;
pub use run_fault::RunFault;
pub use side::Side;
pub use verdict::Verdict;
pub use whole_input::read_at_most;
