//! Contracts that leave one result: what the calls return is proved of their contracts alone. So a body that returns anything else
//! doesn't meet its contract.
ghost use Rattle.std.specs.Prelude.{◌≡◌};
ghost use Rattle.ill_cli.specs.Plans.{read_options_of};

use ber_core::{Pieces, Source};
use ill_args::{FileJob, FormJob, Inputs, LineResults, Messages, Reading, Report, Target, Work};
use ill_cli::{Action, InputAction, ReadOptions};
use ill_commands::{Job, LineJob, LineOptions, OnRefusal, Verdict};
use ill_files::{Opened, ProgramError, is_output_lost, keeps_output, status_of};
use ill_tables::Profile;

/// The end has one status, which is 0 only where all is well.
fn ends_have_one_status(done: &Result<Verdict, ProgramError>) {
    prove!(status_of(done) == status_of(done));
    prove!(status_of(done) < 4);
}

/// An output that is lost replaces nothing; as a whole it is replaced only where all is well.
fn only_good_outputs_are_replaced(done: &Result<Verdict, ProgramError>) {
    prove!(!is_output_lost(done) || keeps_output(false, done));
    prove!(keeps_output(true, done) || status_of(done) == 0);
}

/// A file gives nothing only at its end.
fn files_end_only_at_their_end(octets: &[u8], buffer: &mut [u8]) {
    let mut file: Opened<Pieces, Pieces> = Opened::File(Pieces::new(octets, 1, None));
    if let Ok(0) = file.take(buffer) {
        prove!(octets.is_empty() || buffer.is_empty());
    }
}

/// The options by which an order's messages are read.
fn options_of(messages: Messages<'_>, names_inputs: bool) -> ReadOptions
    ensures { result ≡ read_options_of messages.entry names_inputs }
{
    ReadOptions {
        profile: messages.reading.profile,
        hex: messages.reading.hex,
        keep_going: messages.keep_going.is_some(),
        compares: messages.summary,
        names_inputs,
    }
}

/// `canonicalise` makes normal forms, of hexadecimal text where that is asked for.
fn canonicalise_makes_normal_forms<'a>(messages: Messages<'a>, input: &'a str, output: Target<'a>) {
    let work = Work::Write {
        job: FormJob::Canonicalise,
        messages,
        input,
        output,
    };
    let action = Action::new(&work);
    let reading = options_of(messages, false);
    prove!(action == Action::Messages(Job::Canonicalise, reading));
}

/// A line has a normal form by `canonicalise`, and is checked by `check`.
fn lines_have_the_job_of_their_command<'a>(profile: Profile, input: &'a str, output: Target<'a>) {
    let written = Action::new(&Work::Lines {
        profile,
        input,
        results: LineResults::Write(output),
    });
    let checked = Action::new(&Work::Lines {
        profile,
        input,
        results: LineResults::Report(Report::Check),
    });
    let normal_form = LineOptions {
        profile,
        job: LineJob::Canonicalise,
    };
    let verdict = LineOptions {
        profile,
        job: LineJob::Check,
    };
    prove!(written == Action::Lines(normal_form));
    prove!(checked == Action::Lines(verdict));
}

/// `check` checks each message, and says so in words or as JSON.
fn check_checks<'a>(json: bool, with_filename: bool, messages: Messages<'a>, inputs: Inputs<'a>) {
    let work = Work::Print {
        job: FileJob::Report(Report::Check),
        json,
        with_filename,
        messages,
        inputs,
    };
    let action = Action::new(&work);
    let reading = options_of(messages, with_filename);
    if json {
        prove!(action == Action::Messages(Job::CheckJson, reading));
    } else {
        prove!(action == Action::Messages(Job::Check, reading));
    }
}

/// `same` reads messages of the profile that is asked for, and hexadecimal text exactly where that is.
fn same_reads_what_it_is_asked_to(reading: Reading) {
    let options = ReadOptions::new(reading);
    prove!(options.profile == reading.profile && options.hex == reading.hex);
}

/// The lines of an input name it exactly where it is one of several, or where that is asked for. It is read as hexadecimal text exactly where that is asked for, and
/// the job is the one that is asked for.
fn inputs_are_named_where_there_are_several(
    job: Job,
    reading: ReadOptions,
    name: &str,
    count: usize,
) {
    match InputAction::new(Action::Messages(job, reading), name, count) {
        InputAction::Messages(work) => {
            prove!(work.names_input == (reading.names_inputs || count > 1));
            prove!(work.name == name);
            prove!(work.hex == reading.hex && work.job == job);
            prove!(work.profile == reading.profile);
            prove!((work.on_refusal == OnRefusal::GoOn) == reading.keep_going);
        }
        _ => unreachable!(),
    }
}
