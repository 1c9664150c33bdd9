//! Arguments of commands, as clap takes them.
ghost use Rattle.std.specs.Prelude.{◌≡◌, false};
ghost use Rattle.clap.specs.Words.{rule_of};
ghost use Rattle.ill_args.specs.CommandLine.{flag_rule, profile_rule, value_rule};
ghost use Rattle.ill_args.specs.code.Arguments.{rule_for};

use clap::builder::ValueParser;
use clap::{Arg, ArgAction};
use std::alloc::Global;

const PROFILE: &str = "Reads the messages in this profile; see `illcanon help profile`";

const WITH_FILENAME: &str =
    "Names the file in each line, even if there is one file; with --lines it changes nothing";

const OUTPUT: &str =
    "Writes the normal forms of the messages of each FILE to OUT; `-` is standard output";

/// An argument that not all commands have, with what the help says of it where commands differ in that.
#[derive(Clone, Copy)]
pub enum Argument {
    /// The flag `--NAME`.
    Flag(&'static str, &'static str),
    /// A file that must be named: its id, and its name in the usage.
    File(&'static str, &'static str, &'static str),
    /// Any number of files.
    Files(&'static str),
    /// The option `--NAME VALUE`: its name, and that of the value in the usage.
    Value(&'static str, &'static str, &'static str),
    /// The option `--NAME N`, where N is a number from 1 to 1,000,000.
    Number(&'static str, &'static str),
    /// The flag `-H`.
    Filename,
    /// The option `-o OUT`.
    Output,
}

use Argument::{File, Filename, Files, Flag, Number, Output, Value};

/// An argument as clap takes it.
pub fn arg<'a>(alloc: Global, argument: Argument) -> Arg<'a>
    ensures rule { rule_of result ≡ rule_for argument }
    ensures local { result.global ≡ false }
{
    match argument {
        Flag(name, help) => flag(alloc, name, help),
        File(id, name, help) => Arg::new(alloc, id)
            .value_name(name)
            .required(true)
            .help(help),
        Files(help) => Arg::new(alloc, "file")
            .value_name("FILE")
            .action(ArgAction::Append)
            .help(help),
        Value(name, of, help) => value(alloc, name, of, help),
        Number(name, help) => {
            value(alloc, name, "N", help).value_parser(ValueParser::unsigned(1, 1_000_000))
        }
        Filename => flag(alloc, "with-filename", WITH_FILENAME).short('H'),
        Output => value(alloc, "output", "OUT", OUTPUT).short('o'),
    }
}

/// The flag `--NAME`.
fn flag<'a>(alloc: Global, name: &'a str, help: &'a str) -> Arg<'a>
    ensures rule { rule_of result ≡ flag_rule name.entry.now }
    ensures local { result.global ≡ false }
{
    Arg::new(alloc, name)
        .long(name)
        .action(ArgAction::SetTrue)
        .help(help)
}

/// The option `--NAME VALUE`.
fn value<'a>(alloc: Global, name: &'a str, value: &'a str, help: &'a str) -> Arg<'a>
    ensures rule { rule_of result ≡ value_rule name.entry.now }
    ensures local { result.global ≡ false }
{
    Arg::new(alloc, name)
        .long(name)
        .value_name(value)
        .help(help)
}

/// The option `--profile NAME`, where NAME is one of these.
pub fn profile<'a>(alloc: Global, names: &'a [&'a str]) -> Arg<'a>
    ensures rule { rule_of result ≡ profile_rule names.entry }
    ensures local { result.global ≡ false }
{
    value(alloc, "profile", "NAME", PROFILE)
        .value_parser(names)
        .default_value("2")
}
