//! The files of a command.
ghost use Rattle.std.specs.Prelude.{◌≡◌, ◌≢◌, codes, None, IsTrue, IfOk, IfErr, ◌↔◌};
ghost use Rattle.clap.specs.Words.{first_of, found_of, kind_of, rows_of};
ghost use Rattle.clap.specs.declared.error.kind.ErrorKind.{ErrorKind};
ghost use Rattle.ill_args.specs.Orders.{AreInputs, HasOne, HasTwo, NamesNothing, ReadsOutput};
ghost use Rattle.ill_args.specs.Refused.{HasAnyFiles};
ghost use Rattle.ill_args.specs.code.Commands.{IsFault, IsNotOne};
ghost use Rattle.ill_args.specs.declared.orders.Verb.{Verb};

use crate::fault::LineFault;
use crate::help;
use crate::matches::{files_of, inputs_of, reads, value_of};
use crate::orders::{FormVerb, Inputs, Verb};
use crate::program::{command_of, profiles};
use clap::error::ErrorKind;
use clap::{ArgMatches, Error};
use std::alloc::{AllocError, Global};

/// The files of a command that has any number of them, at least one.
pub fn inputs<'a>(
    alloc: Global,
    verb: Verb,
    words: &ArgMatches<'a>,
) -> Result<Inputs<'a>, LineFault>
    requires { HasAnyFiles verb (rows_of (found_of words.now)) }
    ensures inputs { IfOk result (AreInputs (rows_of (found_of words.now))) }
    ensures fault { IfErr result (IsFault verb (rows_of (found_of words.now))) }
{
    if reads(words, "-") > 1 {
        return Err(LineFault::InputTwice);
    }
    if names_nothing(words) {
        return Err(LineFault::Missing(missing(alloc, verb, help::NO_FILE)?));
    }
    Ok(inputs_of(alloc, words)?)
}

/// Tells whether the word of `-o` is among the files that are read, or is their list.
pub fn reads_output(words: &ArgMatches<'_>) -> bool
    ensures { IsTrue result ↔ ReadsOutput (rows_of (found_of words.now)) }
{
    match value_of(words, "output") {
        Some(word) => word != "-" && reads(words, word) > 0,
        None => false,
    }
}

/// Tells whether there is neither a file nor a list of files.
fn names_nothing(words: &ArgMatches<'_>) -> bool
    ensures { IsTrue result ↔ NamesNothing (rows_of (found_of words.now)) }
{
    files_of(words).is_empty() && value_of(words, "files-from").is_none()
}

/// The one file whose lines are read.
pub fn one_file<'a>(words: &ArgMatches<'a>) -> Result<&'a str, LineFault>
    ensures one { IfOk result (λ file. HasOne (rows_of (found_of words.now)) file.now) }
    ensures fault { IfErr result (IsNotOne (rows_of (found_of words.now))) }
{
    match (files_of(words), value_of(words, "files-from")) {
        ([file], None) => Ok(*file),
        _ => Err(LineFault::NotOneFile),
    }
}

/// IN and OUT of a command that writes normal forms, without `-o`.
pub fn in_and_out<'a>(
    alloc: Global,
    form: FormVerb,
    words: &ArgMatches<'a>,
) -> Result<(&'a str, &'a str), LineFault>
    requires { first_of (codes "output") (rows_of (found_of words.now)) ≡ None }
    ensures two { IfOk result (λ pair.
        HasTwo (rows_of (found_of words.now)) pair.0.now pair.1.now) }
    ensures differ { IfOk result (λ pair. pair.0.now ≢ codes "-" → pair.1.now ≢ pair.0.now) }
    ensures fault { IfErr result (IsFault (Verb.Write form) (rows_of (found_of words.now))) }
{
    let verb = Verb::Write(form);
    if value_of(words, "files-from").is_some() {
        return Err(LineFault::Missing(missing(alloc, verb, help::NO_OUTPUT)?));
    }
    match files_of(words) {
        [] => Err(LineFault::Missing(missing(alloc, verb, help::NO_IN)?)),
        [_] => Err(LineFault::Missing(missing(alloc, verb, help::NO_OUT)?)),
        [input, output] if is_one_file(input, output) => Err(LineFault::SameWord),
        [input, output] => Ok((*input, *output)),
        [_, _, word, ..] => Err(LineFault::Unexpected(unexpected(alloc, verb, word)?)),
    }
}

/// Tells whether IN and OUT are the same word other than `-`.
fn is_one_file(input: &str, output: &str) -> bool
    ensures { IsTrue result ↔ ((input.now ≢ codes "-") × (output.now ≡ input.now)) }
{
    input != "-" && output == input
}

/// The error of a command with too few words.
fn missing(alloc: Global, verb: Verb, message: &str) -> Result<Error, AllocError>
    ensures { IfOk result (λ e. kind_of e ≡ ErrorKind.MissingRequiredArgument) }
{
    error_of(alloc, verb, ErrorKind::MissingRequiredArgument, message)
}

/// The error of a command with a third word.
fn unexpected(alloc: Global, verb: Verb, word: &str) -> Result<Error, AllocError>
    ensures { IfOk result (λ e. kind_of e ≡ ErrorKind.UnknownArgument) }
{
    let message = format!(in alloc; "unexpected argument '{word}' found")?;
    error_of(alloc, verb, ErrorKind::UnknownArgument, &message)
}

/// The error in the words of a command, as clap reports it.
fn error_of(alloc: Global, verb: Verb, kind: ErrorKind, message: &str) -> Result<Error, AllocError>
    ensures { IfOk result (λ e. kind_of e ≡ kind) }
{
    let command = command_of(alloc, profiles(), verb)?;
    let name = format!(in alloc; "illcanon {}", verb.name())?;
    command.bin_name(&name)?.error(kind, message)
}
