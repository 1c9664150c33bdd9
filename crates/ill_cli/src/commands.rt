//! The commands: what is opened, and what is done with it.
ghost use Rattle.std.specs.Prelude.{ℕ};
ghost use Rattle.ill_files.specs.Status.{error_status};
ghost use Rattle.ill_cli.specs.Ends.{IsClosedStatus, IsStatusOfLines, IsStatusOfOrder, IsStatusOfWork};

use crate::compare::compare;
use crate::plan::{Action, ReadOptions};
use crate::run::Run;
use crate::summary::{JsonSummary, LineSummary, Summary};
use crate::tally::{Tally, end};
use ill_args::{Inputs, LineResults, Order, Work, order};
use ill_files::{
    Host, ProgramError, ProgressLine, print_error, printable_error, status_of, words_of,
};
use std::rt::{Env, Files};

/// Does what the process's words say, prints the line of each error, and returns the exit status: 0, 1, 2 or 3, as [`status_of`] says.
/// Of several files it is 3 if one gave 3, else 1 if one gave 1.
pub fn run_program<R: Print + Eprint + Input + Files + Env + AllocGlobal + Host>(rt: &R) -> u8 {
    let words = match words_of(rt) {
        Ok(words) => words,
        Err(error) => return end(rt, &Err(error)),
    };
    let alloc = rt.alloc();
    match order(alloc, words.as_slice()) {
        Ok(order) => run_order(rt, order),
        Err(error) => end_of_words(rt, printable_error(alloc, words.as_slice(), error)),
    }
}

/// Prints why words give no order, or the help that they ask for, and returns the exit status.
fn end_of_words<R: Print + Eprint>(rt: &R, error: ProgramError) -> u8
    ensures { IsClosedStatus (error_status error) result }
{
    let printed = print_error(rt, &error);
    let status = status_of(&Err(error));
    match printed {
        // Help that can't be written is not help.
        Err(error) if status == 0 => end(rt, &Err(ProgramError::of_output(&error))),
        _ => status,
    }
}

/// Does what an order says, prints the line of each error and that of the summary, and returns the exit status.
pub fn run_order<R: Print + Eprint + Input + Files + AllocGlobal + Host>(
    rt: &R,
    order: Order<'_>,
) -> u8
    ensures { IsStatusOfOrder order.entry result }
{
    match order {
        Order::Each(work) => run_work(rt, work),
        Order::Compare {
            reading,
            first,
            second,
        } => end(rt, &compare(rt, ReadOptions::new(reading), first, second)),
    }
}

/// Does the work on each input, prints the line of each error and that of the summary, and returns the exit status.
fn run_work<R: Print + Eprint + Input + Files + AllocGlobal + Host>(rt: &R, work: Work<'_>) -> u8
    ensures { (status : ℕ) × IsStatusOfWork work.entry status × IsClosedStatus status result }
{
    let is_counted = work.is_counted();
    let progress = if is_counted {
        ProgressLine::begin(rt)
    } else {
        ProgressLine::none()
    };
    let tally = Tally::new(is_counted, work.max_refused(), &progress);
    let is_json = work.has_json_reports();
    let counts_lines = Action::new(&work).counts_lines();
    let (status, summary) = run_inputs(rt, work, tally);
    if !is_counted {
        return status;
    }
    progress.clear(rt);
    if is_json {
        return print_json(rt, JsonSummary(summary), status);
    }
    // A line that can't be written changes nothing of the work.
    let _ = if counts_lines {
        eprintln!(rt; "illcanon: {}", LineSummary(summary))
    } else {
        eprintln!(rt; "illcanon: {summary}")
    };
    status
}

/// Prints the numbers as a line of the output, and returns the exit status of the work, or that of the line where it can't be written.
fn print_json<R: Print + Eprint>(rt: &R, summary: JsonSummary, status: u8) -> u8
    ensures { IsClosedStatus status result }
{
    match println!(rt; "{summary}") {
        Ok(()) => status,
        Err(error) => end(rt, &Err(ProgramError::of_output(&error))),
    }
}

/// Does the work on each input, prints the line of each error, and returns the exit status and the numbers.
fn run_inputs<R: Print + Eprint + Input + Files + AllocGlobal + Host>(
    rt: &R,
    work: Work<'_>,
    tally: Tally<'_>,
) -> (u8, Summary)
    ensures { IsStatusOfWork work.entry result.0 }
{
    let mut run = Run::new(rt, Action::new(&work), refused_file(&work), tally);
    let status = run_each(&mut run, work);
    (status, run.tally.summary)
}

/// Does the work on each input, prints the line of each error, and returns the exit status.
fn run_each<R: Print + Eprint + Input + Files + AllocGlobal + Host>(
    run: &mut Run<'_, '_, '_, R>,
    work: Work<'_>,
) -> u8
    ensures { IsStatusOfWork work.entry result }
{
    match work {
        Work::Print { inputs, .. } => run.print_each(&inputs),
        Work::Dump { inputs, .. } => run.print_each(&inputs),
        Work::Write { input, output, .. } => run.write_one(input, output.name(), output.is_whole()),
        Work::Collect { inputs, output, .. } => {
            run.collect(&inputs, output.name(), output.is_whole())
        }
        Work::Lines { input, results, .. } => run_lines(run, input, results),
    }
}

/// The name of the file that gets the octets of refused messages, if there is one.
fn refused_file<'a>(work: &Work<'a>) -> Option<&'a str> {
    match work {
        Work::Print { messages, .. }
        | Work::Write { messages, .. }
        | Work::Collect { messages, .. } => messages.refused(),
        Work::Dump { .. } | Work::Lines { .. } => None,
    }
}

/// Writes the result of each line of an input, prints the line of each error, and returns the exit status.
fn run_lines<R: Print + Eprint + Input + Files + AllocGlobal + Host>(
    run: &mut Run<'_, '_, '_, R>,
    input: &str,
    results: LineResults<'_>,
) -> u8
    ensures { IsStatusOfLines results.entry result }
{
    let Ok(inputs) = Inputs::one(run.rt.alloc(), input) else {
        return end(run.rt, &Err(ProgramError::out_of_memory()));
    };
    match results {
        LineResults::Report(_) => run.print_each(&inputs),
        LineResults::Write(output) => run.write_one(input, output.name(), output.is_whole()),
        LineResults::Collect(output) => run.collect(&inputs, output.name(), output.is_whole()),
    }
}
