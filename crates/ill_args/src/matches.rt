//! The matches that clap finds in the words.
ghost use Rattle.std.specs.Prelude.{◌≡◌, map, is_some, option_map, true, Some, IfOk};
ghost use Rattle.std.specs.String.{string_bytes};
ghost use Rattle.clap.specs.Walk.{one_of};
ghost use Rattle.clap.specs.Words.{FailsBy, fault_of, first_of, found_of, rows_of, subcommand_of, subcommand_rows_of};
ghost use Rattle.ill_args.specs.CommandLine.{program, verb_name};
ghost use Rattle.ill_args.specs.Orders.{files_in, is_set, reads, HasInputs, IsOptionNumber, IsReading, NamesProfile};
ghost use Rattle.ill_args.specs.code.Commands.{HasProfile, IsCommand, IsVerb};

use crate::orders::{Inputs, Reading, Verb};
use crate::program::{profiles, program};
use clap::{ArgMatches, Error};
use ill_tables::Profile;
use std::alloc::{AllocError, Global};

pub fn matches_of<'a>(alloc: Global, words: &'a [String]) -> Result<ArgMatches<'a>, Error>
    ensures found { IfOk result (λ matches. subcommand_rows_of matches ≡ subcommand_of program
        (map string_bytes words.entry.now)) }
    ensures command { IfOk result (λ matches. IsCommand (subcommand_rows_of matches)) }
    ensures faults { FailsBy (fault_of program (map string_bytes words.entry.now)) result }
{
    program(alloc, profiles())?.try_get_matches_from(words)
}

/// The command with this name.
pub fn verb_of(name: &str) -> Verb
    requires { IsVerb name.now }
    ensures { name.now ≡ verb_name result }
{
    for verb in Verb::ALL {
        if verb.name() == name {
            return verb;
        }
    }
    unreachable!()
}

/// Tells whether a flag is set.
pub fn is_set(words: &ArgMatches<'_>, name: &str) -> bool
    ensures { result ≡ is_set name.now (rows_of (found_of words.now)) }
{
    words.get_one(name).unwrap_or(false)
}

/// The number that is the value of an option; None where it isn't given.
pub fn number_of(words: &ArgMatches<'_>, name: &str) -> Option<u32>
    ensures { IsOptionNumber (one_of name.now (rows_of (found_of words.now))) result }
{
    words.get_one(name)
}

/// The value of an argument; None where it isn't given.
pub fn value_of<'a>(words: &ArgMatches<'a>, id: &str) -> Option<&'a str>
    ensures { first_of id.now (rows_of (found_of words.now)) ≡ option_map (λ word. word.now) result }
{
    words.get_str(id)
}

/// The value of an argument that is required.
pub fn required<'a>(words: &ArgMatches<'a>, id: &str) -> &'a str
    requires { is_some (first_of id.now (rows_of (found_of words.now))) ≡ true }
    ensures { first_of id.now (rows_of (found_of words.now)) ≡ Some result.now }
{
    match value_of(words, id) {
        Some(word) => word,
        None => unreachable!(),
    }
}

/// The profile and the form of the inputs.
pub fn reading_of(words: &ArgMatches<'_>) -> Reading
    requires { HasProfile (rows_of (found_of words.now)) }
    ensures { IsReading (rows_of (found_of words.now)) result }
{
    Reading {
        profile: profile_of(words),
        hex: is_set(words, "hex"),
    }
}

/// The profile that is named.
pub fn profile_of(words: &ArgMatches<'_>) -> Profile
    requires { HasProfile (rows_of (found_of words.now)) }
    ensures { NamesProfile (rows_of (found_of words.now)) result }
{
    match required(words, "profile") {
        "2" => Profile::Two,
        "module" => Profile::Module,
        _ => unreachable!(),
    }
}

/// The words FILE, and the word of `--files-from`.
pub fn inputs_of<'a>(alloc: Global, words: &ArgMatches<'a>) -> Result<Inputs<'a>, AllocError>
    ensures { IfOk result (HasInputs (rows_of (found_of words.now))) }
{
    Ok(Inputs {
        files: Vec::from_slice(alloc, files_of(words))?,
        list: value_of(words, "files-from"),
    })
}

/// The words FILE.
pub fn files_of<'w, 'a>(words: &'w ArgMatches<'a>) -> &'w [&'a str]
    ensures { files_in (rows_of (found_of words.entry.now)) ≡ map (λ word. word.now) result.now }
{
    words.get_strs("file").unwrap_or_default()
}

/// The number of times that a file with this name is read.
pub fn reads(words: &ArgMatches<'_>, name: &str) -> usize
    ensures { result ≡ reads (rows_of (found_of words.now)) name.now }
{
    let mut count = 0;
    for word in files_of(words) {
        if *word == name {
            count += 1;
        }
    }
    if value_of(words, "files-from") == Some(name) {
        count += 1;
    }
    count
}
