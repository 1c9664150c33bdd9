//! The words that say what a message is.
ghost use Rattle.std.specs.Prelude.{◌≡◌, ◌++◌, OnOk};
ghost use Rattle.ill_tables.specs.Names.{name_or_none};
ghost use Rattle.ill_schema.specs.Names.{apdu_name_in};
ghost use Rattle.ill_schema.specs.Profiles.{profile_of};
ghost use Rattle.ill_normal.specs.CheckWords.{check_words, form_words};

use ill_schema::{Profile, apdu_name_as};
use itoa::Buffer;
use std::alloc::AllocError;

/// The name of the APDU of the profile that has this number; no text where none has it.
///
/// # Examples
///
/// ```
/// let name = apdu_name_or_empty(Profile::Two, 20); // Expired
/// ```
pub fn apdu_name_or_empty(profile: Profile, number: u8) -> &'static str
    ensures { result.now ≡ name_or_none (apdu_name_in (profile_of profile) number) }
{
    match apdu_name_as(profile, number) {
        Some(name) => name,
        None => "",
    }
}

/// Adds the words that say what a message is: the name of its APDU, its number of octets, and whether it is in normal form, which has
/// `normal` octets.
///
/// # Errors
///
/// Only out of memory.
///
/// # Examples
///
/// ```
/// // Expired, 47 octets, not normal, normal form 33 octets
/// put_check_words(&mut words, "Expired", 47, false, 33)?;
/// ```
pub fn put_check_words(
    words: &mut Vec<u8>,
    apdu: &str,
    octets: usize,
    is_normal: bool,
    normal: usize,
) -> Result<(), AllocError>
    ensures { OnOk result (words.new.items ≡ words.old.items
        ++ check_words apdu.now octets is_normal normal) }
{
    words.extend_from_slice(apdu.as_bytes())?;
    words.extend_from_slice(b", ")?;
    words.extend_from_slice(Buffer::new().format(octets).as_bytes())?;
    words.extend_from_slice(b" octets, ")?;
    put_form_words(words, is_normal, normal)
}

fn put_form_words(words: &mut Vec<u8>, is_normal: bool, normal: usize) -> Result<(), AllocError>
    ensures { OnOk result (words.new.items ≡ words.old.items ++ form_words is_normal normal) }
{
    if is_normal {
        words.extend_from_slice(b"normal")?;
        return Ok(());
    }
    words.extend_from_slice(b"not normal, normal form ")?;
    words.extend_from_slice(Buffer::new().format(normal).as_bytes())?;
    words.extend_from_slice(b" octets")?;
    Ok(())
}
