//! The place at which a text stops being JSON.
use json::{Reader, Scratch, Value};
use std::alloc::{AllocError, Global};
use std::str;

/// The number of levels that a text may have.
const LEVELS: usize = 128;

/// The number of the octet at which a text stops being JSON, from 1: that of the first octet that is no UTF-8, or else that of the token that
/// is not due there; of a text that is JSON, one more than its octets. No clause says which one it is.
///
/// # Errors
///
/// Only out of memory.
///
/// # Examples
///
/// ```text
/// let column = column_of(alloc, br#"{"apdu" "Expired"}"#)?; // 9
/// ```
pub fn column_of(alloc: Global, text: &[u8]) -> Result<u64, AllocError> {
    let text = match str::from_utf8(text) {
        Ok(text) => text,
        Err(error) => return Ok((error.valid_up_to() as u64).saturating_add(1)),
    };
    let mut scratch = Scratch::new(alloc);
    let mut reader = Reader::new(text, &mut scratch)?;
    // Only the place at which the reader stops is wanted.
    let _ = Value::read(alloc, &mut reader, LEVELS);
    Ok((reader.offset() as u64).saturating_add(1))
}
