//! The names of the inputs of a command: its words, and the names in a list.
ghost use Rattle.std.specs.Prelude.{◌≡◌, ◌<◌, ◌++◌, [], ◌∷◌, map, length, IfOk, IfNone, IfSome};
ghost use Rattle.ill_files.specs.code.Listed.{names_in};

use crate::error::ProgramError;
use crate::input::read_whole;
use crate::names::FileName;
use crate::opening::NAME_NOT_TEXT;
use crate::same_file::FileId;
use ill_args::LineFault;
use std::alloc::{AllocError, Global};
use std::rt::Files;
use std::str;

/// The octets of a list of names, none where there is no list, and which regular file it is.
///
/// ```
/// let (list, file) = list_of(rt, Some("names.txt"))?;
/// ```
///
/// # Errors
///
/// The list can't be opened or read.
pub fn list_of<R: Input + Files + AllocGlobal>(
    rt: &R,
    list: Option<&str>,
) -> Result<(Vec<u8>, Option<FileId>), ProgramError> {
    match list {
        Some(name) => read_whole(rt, name),
        None => Ok((Vec::new(rt.alloc()), None)),
    }
}

/// The names of the inputs of a command: its words FILE, and then the names of its list, which has these octets.
///
/// # Errors
///
/// Standard input is named twice, or memory ran out.
///
/// # Examples
///
/// ```
/// // the words FILE, and then the names of the list, each ended by a NUL
/// let names = input_names(alloc, &["first.ber"], Some("names.txt"), b"second.ber\0third.ber\0")?;
/// ```
pub fn input_names<'a>(
    alloc: Global,
    files: &[&'a str],
    name_of_list: Option<&str>,
    list: &'a [u8],
) -> Result<Vec<&'a [u8]>, ProgramError> {
    let Ok(names) = names_of(alloc, files, list) else {
        return Err(ProgramError::out_of_memory());
    };
    if names_standard_input_twice(&names, name_of_list) {
        return Err(ProgramError::from(LineFault::InputTwice));
    }
    Ok(names)
}

/// The words FILE, and then the names of the list.
fn names_of<'a>(
    alloc: Global,
    files: &[&'a str],
    list: &'a [u8],
) -> Result<Vec<&'a [u8]>, AllocError>
    ensures { IfOk result (λ names. map (λ name. name.now) names.items
        ≡ map (λ word. word.now) files.now ++ names_in list.entry.now) }
{
    let mut names = Vec::new(alloc);
    for file in files {
        names.push(file.as_bytes())?;
    }
    let mut rest = list;
    while let Some((name, after)) = split_name(rest) {
        names.push(name)?;
        rest = after;
    }
    Ok(names)
}

/// The first name of a list, and what follows it; None at the end of the list.
fn split_name(list: &[u8]) -> Option<(&[u8], &[u8])>
    ensures name { IfSome result (λ found. names_in list.now ≡ found.0.now ∷ names_in found.1.now) }
    ensures fewer { IfSome result (λ found. length found.1.now < length list.now) }
    ensures none { IfNone result (names_in list.now ≡ []) }
{
    if list.is_empty() {
        return None;
    }
    for (end, octet) in list.iter().enumerate() {
        if *octet == 0 {
            return Some((&list[..end], &list[end + 1..]));
        }
    }
    Some((list, &list[list.len()..]))
}

/// Tells whether standard input is to be read more than once.
fn names_standard_input_twice(names: &[&[u8]], list: Option<&str>) -> bool {
    let mut found = list == Some("-");
    for name in names {
        let is_named = *name == b"-".as_slice();
        if found && is_named {
            return true;
        }
        found |= is_named;
    }
    false
}

/// The name of a file as text. Other octets name no file that can be opened.
///
/// ```
/// let name = text_of(alloc, b"messages.ber")?;
/// ```
pub fn text_of(alloc: Global, name: &[u8]) -> Result<&str, ProgramError> {
    match str::from_utf8(name) {
        Ok(text) => Ok(text),
        Err(_) => match name.to_vec(alloc) {
            Ok(octets) => Err(ProgramError::CannotOpen(FileName(octets), NAME_NOT_TEXT)),
            Err(AllocError) => Err(ProgramError::out_of_memory()),
        },
    }
}
