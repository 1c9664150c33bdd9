//! Elements in DER that are written forward, and whose lengths are set when they close (X.690, 10.1). Use it to write DER whose sizes are
//! not known in advance.
//!
//! A SEQUENCE with an INTEGER:
//!
//! ```
//! let mut buffer = DerBuffer::new(alloc);
//! let contents = buffer.open(sequence)?;
//! buffer.primitive(integer, b"\x02")?;
//! buffer.close(contents)?;
//! // 30 03 02 01 02
//! let octets = buffer.into_octets();
//! ```
#![tactic(auto)]

mod der_buffer;

pub use der_buffer::{DerBuffer, put_length};
