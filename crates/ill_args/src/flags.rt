//! Flags that exclude others, or need them.
ghost use Rattle.std.specs.Prelude.{◌≡◌, true, false, codes, None, IsTrue, OnOk, IfOk, IfErr, ◌↔◌};
ghost use Rattle.clap.specs.Words.{found_of, rows_of};
ghost use Rattle.ill_args.specs.Orders.{is_set, target_name, AreMessages, IsKeepGoing, IsLimit, IsTarget, SharesRefused};
ghost use Rattle.ill_args.specs.Refused.{HasFlagFault};
ghost use Rattle.ill_args.specs.code.Commands.{HasProfile, IsOutput, ReadsLinesAlone};

use crate::fault::LineFault;
use crate::matches::{is_set, number_of, reading_of, reads, value_of};
use crate::orders::{KeepGoing, Limit, Messages, Target};
use clap::ArgMatches;

/// Checks that lines, which are read, have no flag that excludes them.
pub fn check_lines(words: &ArgMatches<'_>) -> Result<(), LineFault>
    requires { is_set (codes "lines") (rows_of (found_of words.now)) ≡ true }
    ensures alone { OnOk result (ReadsLinesAlone (rows_of (found_of words.now))) }
    ensures fault { IfErr result (HasFlagFault (rows_of (found_of words.now))) }
{
    if is_set(words, "hex") {
        return Err(LineFault::LinesAndHex);
    }
    if is_set(words, "keep-going") {
        return Err(LineFault::LinesAndKeepGoing);
    }
    if is_set(words, "summary") {
        return Err(LineFault::LinesAndSummary);
    }
    if is_set(words, "json") {
        return Err(LineFault::LinesAndJson);
    }
    Ok(())
}

/// OUT, which is this word.
pub fn target<'a>(words: &ArgMatches<'a>, word: &'a str) -> Result<Target<'a>, LineFault>
    requires { IsOutput (rows_of (found_of words.now)) word.now }
    ensures word { IfOk result (λ output. target_name output ≡ word.now) }
    ensures target { IfOk result (IsTarget (rows_of (found_of words.now))) }
    ensures fault { IfErr result (HasFlagFault (rows_of (found_of words.now))) }
{
    let whole = is_set(words, "whole");
    if word != "-" {
        return Ok(Target::File { name: word, whole });
    }
    if whole {
        return Err(LineFault::WholeNeedsFile);
    }
    Ok(Target::StandardOutput)
}

/// The way that messages are read.
pub fn messages<'a>(words: &ArgMatches<'a>) -> Result<Messages<'a>, LineFault>
    requires { HasProfile (rows_of (found_of words.now)) }
    ensures messages { IfOk result (AreMessages (rows_of (found_of words.now))) }
    ensures fault { IfErr result (HasFlagFault (rows_of (found_of words.now))) }
{
    let keep_going = keep_going(words)?;
    if shares_refused(words) {
        return Err(LineFault::RefusedIsShared);
    }
    Ok(Messages {
        reading: reading_of(words),
        keep_going,
        summary: is_set(words, "summary"),
    })
}

/// The way that work goes on after a refused message, if it does.
fn keep_going<'a>(words: &ArgMatches<'a>) -> Result<Option<KeepGoing<'a>>, LineFault>
    ensures going { IfOk result (IsKeepGoing (rows_of (found_of words.now))) }
    ensures fault { IfErr result (HasFlagFault (rows_of (found_of words.now))) }
{
    if !is_set(words, "keep-going") {
        stops(words)?;
        return Ok(None);
    }
    Ok(Some(KeepGoing {
        limit: Limit {
            max_refused: number_of(words, "max-refused"),
        },
        refused: value_of(words, "refused"),
    }))
}

/// Checks that no flag needs work to go on after a refused message, where it doesn't.
pub fn stops(words: &ArgMatches<'_>) -> Result<(), LineFault>
    requires { is_set (codes "keep-going") (rows_of (found_of words.now)) ≡ false }
    ensures going { OnOk result (IsKeepGoing (rows_of (found_of words.now)) None) }
    ensures fault { IfErr result (HasFlagFault (rows_of (found_of words.now))) }
{
    if value_of(words, "refused").is_some() {
        return Err(LineFault::RefusedNeedsKeepGoing);
    }
    match number_of(words, "max-refused") {
        Some(_) => Err(LineFault::MaxRefusedNeedsKeepGoing),
        None => Ok(()),
    }
}

/// The number of refused messages that work goes on to, if it goes on.
pub fn limit(words: &ArgMatches<'_>) -> Result<Option<Limit>, LineFault>
    ensures limit { IfOk result (IsLimit (rows_of (found_of words.now))) }
    ensures fault { IfErr result (HasFlagFault (rows_of (found_of words.now))) }
{
    Ok(keep_going(words)?.map(|going| going.limit))
}

/// Tells whether the file of refused messages is standard output or another file of the command.
fn shares_refused(words: &ArgMatches<'_>) -> bool
    ensures { IsTrue result ↔ SharesRefused (rows_of (found_of words.now)) }
{
    match value_of(words, "refused") {
        Some(word) => {
            word == "-" || reads(words, word) > 0 || value_of(words, "output") == Some(word)
        }
        None => false,
    }
}
