//! The order that the words of a command line give.
ghost use Rattle.std.specs.Prelude.{◌≡◌, ◌≢◌, [], map, codes, true, Some, IfOk, IfErr};
ghost use Rattle.std.specs.String.{string_bytes};
ghost use Rattle.clap.specs.Words.{fault_of, first_of, found_of, rows_of, subcommand_of, subcommand_rows_of};
ghost use Rattle.ill_args.specs.CommandLine.{program};
ghost use Rattle.ill_args.specs.Orders.{is_set, AreInputs, HasBuildResults, HasTwo, IsBuilding, IsOrderOf, ReadsOutput};
ghost use Rattle.ill_args.specs.Refused.{HasFlagFault, IsFaultOf, IsRefusedBy};
ghost use Rattle.ill_args.specs.code.Commands.{HasBoth, HasProfile, IsCommand, IsFault, IsOrder, IsWork};
ghost use Rattle.ill_args.specs.declared.orders.FileJob.{FileJob};
ghost use Rattle.ill_args.specs.declared.orders.FormVerb.{FormVerb};
ghost use Rattle.ill_args.specs.declared.orders.Verb.{Verb};

use crate::fault::LineFault;
use crate::files::{in_and_out, inputs, one_file, reads_output};
use crate::flags::{check_lines, limit, messages, stops, target};
use crate::matches::{
    is_set, matches_of, number_of, profile_of, reading_of, required, value_of, verb_of,
};
use crate::orders::{
    BuildResults, Building, Elements, FileJob, FormJob, FormVerb, Inputs, LineResults, Order,
    Report, Verb, Work,
};
use clap::ArgMatches;
use std::alloc::Global;

/// Reads the words of a command line, the program's own name first.
///
/// # Errors
///
/// The report of `clap` on words that are no command line, or that ask for help. Or a file is missing, or `canonicalise` or `build` has a
/// word more than IN and OUT. Or `same` has `-` twice, or one of these two one word other than `-` for IN and OUT. Or another command has `-` twice
/// among its files and their list, or `-o` has one of these words. Or `--lines` has no file, several, or a list, or is given with `--hex`,
/// `--keep-going`, `--summary` or `--json`. Or `--whole` is given with standard output for OUT. Or `--refused` or
/// `--max-refused` is given without `--keep-going`, or `--refused` with `-` or another of the command's files.
pub fn order<'a>(alloc: Global, words: &'a [String]) -> Result<Order<'a>, LineFault>
    // The words have the order's command, and each part of it; what no order can have is a fault of the words.
    ensures order { IfOk result
        (IsOrderOf (subcommand_of program (map string_bytes words.entry.now))) }
    ensures fault { IfErr result
        (IsFaultOf (subcommand_of program (map string_bytes words.entry.now))) }
    // What clap finds wrong is refused, and nothing else, unless memory runs out.
    ensures faults { IsRefusedBy (fault_of program (map string_bytes words.entry.now)) result }
{
    match matches_of(alloc, words) {
        Ok(matches) => order_of(alloc, &matches),
        Err(error) => Err(LineFault::Line(error)),
    }
}

/// The order of the command that was found.
fn order_of<'a>(alloc: Global, matches: &ArgMatches<'a>) -> Result<Order<'a>, LineFault>
    requires { IsCommand (subcommand_rows_of matches.now) }
    ensures order { IfOk result (IsOrderOf (subcommand_rows_of matches.now)) }
    ensures fault { IfErr result (IsFaultOf (subcommand_rows_of matches.now)) }
    ensures faults { IsRefusedBy [] result }
{
    let Some((name, words)) = matches.subcommand() else {
        unreachable!()
    };
    order_by(alloc, verb_of(name), words)
}

/// The order of a command with these words.
fn order_by<'a>(alloc: Global, verb: Verb, words: &ArgMatches<'a>) -> Result<Order<'a>, LineFault>
    requires profile { HasProfile (rows_of (found_of words.now)) }
    requires both { verb ≡ Verb.Same → HasBoth (rows_of (found_of words.now)) }
    ensures order { IfOk result (IsOrder verb (rows_of (found_of words.now))) }
    ensures fault { IfErr result (IsFault verb (rows_of (found_of words.now))) }
{
    match verb {
        Verb::Print(job) => Ok(Order::Each(print(alloc, job, words)?)),
        Verb::Dump => Ok(Order::Each(dump(alloc, words)?)),
        Verb::Same => same(words),
        Verb::Write(form) => Ok(Order::Each(forms(alloc, form, words)?)),
    }
}

/// The work of a command that prints what a job writes.
fn print<'a>(alloc: Global, job: FileJob, words: &ArgMatches<'a>) -> Result<Work<'a>, LineFault>
    requires { HasProfile (rows_of (found_of words.now)) }
    ensures order { IfOk result (IsWork (Verb.Print job) (rows_of (found_of words.now))) }
    ensures fault { IfErr result (IsFault (Verb.Print job) (rows_of (found_of words.now))) }
{
    let inputs = inputs(alloc, Verb::Print(job), words)?;
    match job.report() {
        Some(report) if is_set(words, "lines") => report_lines(report, words),
        _ => Ok(Work::Print {
            job,
            json: is_set(words, "json"),
            with_filename: is_set(words, "with-filename"),
            messages: messages(words)?,
            inputs,
        }),
    }
}

/// The work of a report on each line.
fn report_lines<'a>(report: Report, words: &ArgMatches<'a>) -> Result<Work<'a>, LineFault>
    requires profile { HasProfile (rows_of (found_of words.now)) }
    requires lines { is_set (codes "lines") (rows_of (found_of words.now)) ≡ true }
    ensures order { IfOk result (IsWork (Verb.Print (FileJob.Report report))
        (rows_of (found_of words.now))) }
    ensures fault { IfErr result (IsFault (Verb.Print (FileJob.Report report))
        (rows_of (found_of words.now))) }
{
    check_lines(words)?;
    let input = one_file(words)?;
    stops(words)?;
    Ok(Work::Lines {
        profile: profile_of(words),
        input,
        results: LineResults::Report(report),
    })
}

fn dump<'a>(alloc: Global, words: &ArgMatches<'a>) -> Result<Work<'a>, LineFault>
    requires { HasProfile (rows_of (found_of words.now)) }
    ensures order { IfOk result (IsWork Verb.Dump (rows_of (found_of words.now))) }
    ensures fault { IfErr result (IsFault Verb.Dump (rows_of (found_of words.now))) }
{
    let inputs = inputs(alloc, Verb::Dump, words)?;
    Ok(Work::Dump {
        elements: Elements {
            reading: reading_of(words),
            keep_going: limit(words)?,
            message: number_of(words, "message"),
            html: is_set(words, "html"),
        },
        with_filename: is_set(words, "with-filename"),
        inputs,
    })
}

fn same<'a>(words: &ArgMatches<'a>) -> Result<Order<'a>, LineFault>
    requires profile { HasProfile (rows_of (found_of words.now)) }
    requires both { HasBoth (rows_of (found_of words.now)) }
    ensures order { IfOk result (IsOrder Verb.Same (rows_of (found_of words.now))) }
    ensures fault { IfErr result (IsFault Verb.Same (rows_of (found_of words.now))) }
{
    let first = required(words, "first");
    let second = required(words, "second");
    if first == "-" && second == "-" {
        return Err(LineFault::SameWord);
    }
    Ok(Order::Compare {
        reading: reading_of(words),
        first,
        second,
    })
}

/// The work of a command that writes normal forms.
fn forms<'a>(alloc: Global, form: FormVerb, words: &ArgMatches<'a>) -> Result<Work<'a>, LineFault>
    requires { HasProfile (rows_of (found_of words.now)) }
    ensures order { IfOk result (IsWork (Verb.Write form) (rows_of (found_of words.now))) }
    ensures fault { IfErr result (IsFault (Verb.Write form) (rows_of (found_of words.now))) }
{
    match value_of(words, "output") {
        Some(output) => {
            let inputs = inputs(alloc, Verb::Write(form), words)?;
            if reads_output(words) {
                return Err(LineFault::OutputIsRead);
            }
            match form {
                FormVerb::Canonicalise => collect(words, inputs, output),
                FormVerb::Build => build_all(words, inputs, output),
            }
        }
        None => {
            let (input, output) = in_and_out(alloc, form, words)?;
            match form {
                FormVerb::Canonicalise => write(words, input, output),
                FormVerb::Build => build(words, input, output),
            }
        }
    }
}

/// The work of `canonicalise` with IN and OUT.
fn write<'a>(words: &ArgMatches<'a>, input: &'a str, output: &'a str) -> Result<Work<'a>, LineFault>
    requires profile { HasProfile (rows_of (found_of words.now)) }
    requires two { HasTwo (rows_of (found_of words.now)) input.now output.now }
    requires differ { input.now ≢ codes "-" → output.now ≢ input.now }
    ensures order { IfOk result (IsWork (Verb.Write FormVerb.Canonicalise)
        (rows_of (found_of words.now))) }
    ensures fault { IfErr result (IsFault (Verb.Write FormVerb.Canonicalise)
        (rows_of (found_of words.now))) }
{
    if !is_set(words, "lines") {
        let output = target(words, output)?;
        return Ok(Work::Write {
            job: FormJob::Canonicalise,
            messages: messages(words)?,
            input,
            output,
        });
    }
    check_lines(words)?;
    let output = target(words, output)?;
    stops(words)?;
    Ok(Work::Lines {
        profile: profile_of(words),
        input,
        results: LineResults::Write(output),
    })
}

/// The work of `canonicalise` with `-o`.
fn collect<'a>(
    words: &ArgMatches<'a>,
    inputs: Inputs<'a>,
    output: &'a str,
) -> Result<Work<'a>, LineFault>
    requires profile { HasProfile (rows_of (found_of words.now)) }
    requires inputs { AreInputs (rows_of (found_of words.now)) inputs }
    requires output { first_of (codes "output") (rows_of (found_of words.now)) ≡ Some output.now }
    requires own { ReadsOutput (rows_of (found_of words.now)) → ⊥ }
    ensures order { IfOk result (IsWork (Verb.Write FormVerb.Canonicalise)
        (rows_of (found_of words.now))) }
    ensures fault { IfErr result (IsFault (Verb.Write FormVerb.Canonicalise)
        (rows_of (found_of words.now))) }
{
    if !is_set(words, "lines") {
        let output = target(words, output)?;
        return Ok(Work::Collect {
            job: FormJob::Canonicalise,
            messages: messages(words)?,
            inputs,
            output,
        });
    }
    check_lines(words)?;
    let input = one_file(words)?;
    let output = target(words, output)?;
    stops(words)?;
    Ok(Work::Lines {
        profile: profile_of(words),
        input,
        results: LineResults::Collect(output),
    })
}

/// The work of `build` with IN and OUT.
fn build<'a>(words: &ArgMatches<'a>, input: &'a str, output: &'a str) -> Result<Work<'a>, LineFault>
    requires profile { HasProfile (rows_of (found_of words.now)) }
    requires two { HasTwo (rows_of (found_of words.now)) input.now output.now }
    requires differ { input.now ≢ codes "-" → output.now ≢ input.now }
    ensures order { IfOk result (IsWork (Verb.Write FormVerb.Build)
        (rows_of (found_of words.now))) }
    ensures fault { IfErr result (IsFault (Verb.Write FormVerb.Build)
        (rows_of (found_of words.now))) }
{
    let building = building(words)?;
    let output = target(words, output)?;
    Ok(Work::Write {
        job: FormJob::Build(building),
        messages: messages(words)?,
        input,
        output,
    })
}

/// The work of `build` with `-o`.
fn build_all<'a>(
    words: &ArgMatches<'a>,
    inputs: Inputs<'a>,
    output: &'a str,
) -> Result<Work<'a>, LineFault>
    requires profile { HasProfile (rows_of (found_of words.now)) }
    requires inputs { AreInputs (rows_of (found_of words.now)) inputs }
    requires output { first_of (codes "output") (rows_of (found_of words.now)) ≡ Some output.now }
    requires own { ReadsOutput (rows_of (found_of words.now)) → ⊥ }
    ensures order { IfOk result (IsWork (Verb.Write FormVerb.Build)
        (rows_of (found_of words.now))) }
    ensures fault { IfErr result (IsFault (Verb.Write FormVerb.Build)
        (rows_of (found_of words.now))) }
{
    let building = building(words)?;
    let output = target(words, output)?;
    Ok(Work::Collect {
        job: FormJob::Build(building),
        messages: messages(words)?,
        inputs,
        output,
    })
}

/// The way that messages are built.
fn building(words: &ArgMatches<'_>) -> Result<Building, LineFault>
    ensures building { IfOk result (IsBuilding (rows_of (found_of words.now))) }
    ensures fault { IfErr result (HasFlagFault (rows_of (found_of words.now))) }
{
    Ok(Building {
        results: build_results(words)?,
        write_defaults: is_set(words, "write-defaults"),
        with_filename: is_set(words, "with-filename"),
    })
}

/// The results of the lines that are built.
fn build_results(words: &ArgMatches<'_>) -> Result<BuildResults, LineFault>
    ensures results { IfOk result (HasBuildResults (rows_of (found_of words.now))) }
    ensures fault { IfErr result (HasFlagFault (rows_of (found_of words.now))) }
{
    if is_set(words, "lines") {
        check_lines(words)?;
        stops(words)?;
        return Ok(BuildResults::Lines);
    }
    if is_set(words, "json") {
        return Ok(BuildResults::Json);
    }
    Ok(BuildResults::Messages)
}
