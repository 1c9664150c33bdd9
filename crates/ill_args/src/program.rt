//! The program and its commands, as clap takes them.
ghost use Rattle.std.specs.Prelude.{◌≡◌, false, map, IfOk};
ghost use Rattle.clap.specs.Words.{app_of};
ghost use Rattle.clap.specs.Simple.{App, with_subcommand};
ghost use Rattle.clap.specs.declared.builder.command.Command.TheViews.{out-Command as fields_of};
ghost use Rattle.ill_args.specs.CommandLine.{bare_program, command_for, program_of, topic, verb_name, with_commands, with_hex, with_rules};
ghost use Rattle.ill_args.specs.code.Commands.{AreAllNames};
ghost use Rattle.ill_args.specs.code.Arguments.{rule_for};

use crate::argument::{Argument, arg, profile};
use crate::orders::Verb;
use crate::{help, topics};
use clap::Command;
use std::alloc::{AllocError, Global};

/// The names of all profiles.
static PROFILES: [&str; 2] = ["2", "module"];

/// The names of all profiles.
pub fn profiles<'a>() -> &'a [&'a str]
    ensures { AreAllNames result }
{
    PROFILES.as_slice()
}

/// A command as clap takes it.
pub fn command_of<'a>(
    alloc: Global,
    profiles: &'a [&'a str],
    verb: Verb,
) -> Result<Command<'a>, AllocError>
    ensures { IfOk result (λ c. (app_of c ≡ command_for profiles.entry verb)
        × ((fields_of c).has_globals ≡ false)) }
{
    let command = by_hex(alloc, profiles, verb)?;
    let command = with_arguments(alloc, command, verb.arguments())?;
    Ok(with_usage(command, verb))
}

/// The command with a usage of its own, if it has one.
fn with_usage<'a>(command: Command<'a>, verb: Verb) -> Command<'a>
    ensures app { app_of result ≡ app_of command.entry }
    ensures local { (fields_of result).has_globals ≡ (fields_of command.entry).has_globals }
{
    match verb {
        Verb::Write(form) => command.override_usage(form.usage()),
        _ => command,
    }
}

/// A command that reads hexadecimal text, too, and any of these profiles.
fn by_hex<'a>(alloc: Global, profiles: &'a [&'a str], verb: Verb) -> Result<Command<'a>, AllocError>
    ensures { IfOk result (λ c. (app_of c ≡ with_hex profiles.entry (verb_name verb))
        × ((fields_of c).has_globals ≡ false)) }
{
    Command::new(alloc, verb.name())
        .about(verb.about())
        .after_help(verb.after_help())
        .arg(arg(alloc, verb.hex()))?
        .arg(profile(alloc, profiles))
}

/// The command with these arguments added.
fn with_arguments<'a>(
    alloc: Global,
    command: Command<'a>,
    arguments: &[Argument],
) -> Result<Command<'a>, AllocError>
    requires { (fields_of command).has_globals ≡ false }
    ensures { IfOk result (λ c. (app_of c ≡ with_rules (app_of command.entry)
        (map rule_for arguments.now)) × ((fields_of c).has_globals ≡ false)) }
{
    let mut command = command;
    for argument in arguments {
        command = command.arg(arg(alloc, *argument))?;
    }
    Ok(command)
}

/// A topic of `help`: a command that only has a help text.
fn topic<'a>(alloc: Global, name: &'a str, text: &'a str) -> Command<'a>
    ensures app { app_of result ≡ topic name.entry.now }
    ensures local { (fields_of result).has_globals ≡ false }
{
    Command::new(alloc, name)
        .hide(true)
        .override_help(text)
        .subcommand_required(true)
        .arg_required_else_help(true)
}

/// The program without its commands.
fn bare_program<'a>(alloc: Global) -> Result<Command<'a>, AllocError>
    ensures { IfOk result (λ c. app_of c ≡ bare_program) }
{
    let program = Command::new(alloc, "illcanon").bin_name("illcanon")?;
    Ok(
        program
            .version("0.2.0")
            .about(
                "The canonical form of ISO interlibrary loan messages (ILL APDUs of ISO 10161-1 in BER)",
            )
            .after_help(help::PROGRAM)
            .subcommand_required(true)
            .arg_required_else_help(true),
    )
}

/// The program with one command more.
fn with_command<'a>(
    program: Command<'a>,
    command: Result<Command<'a>, AllocError>,
) -> Result<Command<'a>, AllocError>
    ensures { IfOk result (λ c. (a : App) → IfOk command.entry (λ command.
        (app_of command ≡ a) × ((fields_of command).has_globals ≡ false))
        → app_of c ≡ with_subcommand (app_of program.entry) a.top) }
{
    program.subcommand(command?)
}

/// The names of profiles.
#[derive(Clone, Copy)]
struct ProfileNames<'a> {
    names: &'a [&'a str],
}

/// The program with these commands.
fn with_commands<'a>(
    alloc: Global,
    program: Command<'a>,
    profiles: ProfileNames<'a>,
    verbs: &[Verb],
) -> Result<Command<'a>, AllocError>
    ensures { IfOk result (λ c. app_of c
        ≡ with_commands profiles.entry.names (app_of program.entry) verbs.now) }
{
    let mut program = program;
    for verb in verbs {
        program = with_command(program, command_of(alloc, profiles.names, *verb))?;
    }
    Ok(program)
}

pub fn program<'a>(alloc: Global, profiles: &'a [&'a str]) -> Result<Command<'a>, AllocError>
    ensures { IfOk result (λ c. app_of c ≡ program_of profiles.entry) }
{
    let names = ProfileNames { names: profiles };
    let program = with_commands(alloc, bare_program(alloc)?, names, &Verb::ALL)?;
    program
        .subcommand(topic(alloc, "causes", topics::CAUSES))?
        .subcommand(topic(alloc, "profile", topics::PROFILE))
}
