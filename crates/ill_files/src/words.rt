//! The words of the command line.
use crate::error::ProgramError;
use crate::names::{printable, word};
use ill_args::{LineFault, order};
use std::alloc::{AllocError, Global};
use std::env::FillError;
use std::rt::Env;

/// Reads the process's words, the program's own name first. A word that isn't UTF-8 text names a file that can't be opened.
///
/// # Errors
///
/// Memory ran out.
pub fn words_of<R: Env + AllocGlobal>(rt: &R) -> Result<Vec<String>, ProgramError> {
    let alloc = rt.alloc();
    let mut words = Vec::new(alloc);
    for index in 0..usize::MAX {
        let Some(octets) = octets_of_word(rt, alloc, index)? else {
            break;
        };
        let word = word(alloc, octets).map_err(|_| ProgramError::out_of_memory())?;
        words.push(word).map_err(|_| ProgramError::out_of_memory())?;
    }
    Ok(words)
}

/// The octets of the word of this number, or None after the last.
fn octets_of_word<R: Env>(
    rt: &R,
    alloc: Global,
    index: usize,
) -> Result<Option<Vec<u8>>, ProgramError> {
    let mut size = 256usize;
    loop {
        let mut octets = Vec::new(alloc);
        if octets.resize(size, 0u8).is_err() {
            return Err(ProgramError::out_of_memory());
        }
        match rt.arg(index, octets.as_mut_slice()) {
            Ok(count) => {
                octets.truncate(count);
                return Ok(Some(octets));
            }
            Err(FillError::NotPresent) => return Ok(None),
            Err(FillError::TooLong) => size = octets.len() * 2,
        }
    }
}

/// The error of words that give no order, as it is printed: clap's texts have the words, so that it is the error of the same words with
/// their hidden characters as escapes.
pub fn printable_error(alloc: Global, words: &[String], error: LineFault) -> ProgramError {
    let words = match printable_words(alloc, words) {
        Ok(Some(words)) => words,
        Ok(None) => return ProgramError::from(error),
        Err(_) => return ProgramError::out_of_memory(),
    };
    match order(alloc, words.as_slice()) {
        Err(error) => ProgramError::from(error),
        Ok(_) => ProgramError::HiddenCharacters,
    }
}

/// The words with their hidden characters as escapes. None where no word has one.
fn printable_words(alloc: Global, words: &[String]) -> Result<Option<Vec<String>>, AllocError> {
    let mut escaped = Vec::with_capacity(alloc, words.len())?;
    let mut is_any = false;
    for word in words {
        match printable(alloc, word)? {
            Some(word) => {
                is_any = true;
                escaped.push(word)?;
            }
            None => escaped.push(String::from_str(alloc, word)?)?,
        }
    }
    Ok(is_any.then_some(escaped))
}
