//! Texts from letters and octets.
use ber_leaf::{DateText, GeneralText, IllString};
use std::alloc::Global;
use std::test::Fail;

/// A GeneralString of these letters.
pub fn general_string(alloc: Global, letters: &str) -> Result<IllString, Fail> {
    let octets = Vec::from_slice(alloc, letters.as_bytes())?;
    Ok(IllString::General(general_text(octets)?))
}

/// The text of the octets.
pub fn general_text(octets: Vec<u8>) -> Result<GeneralText, Fail> {
    match GeneralText::new(octets) {
        Ok(text) => Ok(text),
        Err(_) => Err("no GeneralString")?,
    }
}

/// The day of the octets.
pub fn date_text(octets: Vec<u8>) -> Result<DateText, Fail> {
    match DateText::new(octets) {
        Ok(text) => Ok(text),
        Err(_) => Err("no ISO-Date")?,
    }
}
