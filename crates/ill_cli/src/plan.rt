//! Actions of orders: what is done with each input, by which flags.
ghost use Rattle.std.specs.Prelude.{◌≡◌};
ghost use Rattle.ill_cli.specs.Plans.{action_of, build_form_of, form_action_of, format_if, input_action_of, is_document, job_of, line_job_of, names_inputs, on_refusal_of, read_options_of};

use crate::build::{BuildForm, BuildOptions};
use ill_args::{
    BuildResults, Building, Elements, FileJob, FormJob, LineResults, Messages, Reading, Report,
    Work,
};
use ill_commands::{Job, JobOptions, LineJob, LineOptions};
use ill_dump::{DumpFormat, DumpOptions};
use ill_normal::OnRefusal;
use ill_schema::Profile;

/// The options of reading messages.
#[derive(Clone, Copy, PartialEq, Eq)]
pub struct ReadOptions {
    /// The profile that messages are read in.
    pub profile: Profile,
    /// True if inputs are hexadecimal text.
    pub hex: bool,
    /// True if a message that is refused is reported, and the next one read.
    pub keep_going: bool,
    /// True if each message is compared with its normal form, so that those in normal form are counted.
    pub compares: bool,
    /// True if lines name their input, even if there is one input.
    pub names_inputs: bool,
}

/// The action of a command on each of its inputs.
#[derive(Clone, Copy, PartialEq, Eq)]
pub enum Action {
    /// A job with one message after another.
    Messages(Job, ReadOptions),
    /// The elements of one message after another, as they are spelled.
    Elements {
        elements: Elements,
        /// True if lines name their input, even if there is one input.
        names_inputs: bool,
    },
    /// A result for each line.
    Lines(LineOptions),
    /// A message of each line of JSON.
    Build {
        form: BuildForm,
        /// True if each row that has its default has an element.
        writes_defaults: bool,
        reading: ReadOptions,
    },
}

impl Action {
    /// The action that an order asks for.
    ///
    /// ```
    /// // the work of an order, `Order::Each(work)`
    /// let action = Action::new(&work);
    /// ```
    pub fn new(work: &Work<'_>) -> Action
        ensures { result ≡ action_of work.now }
    {
        match work {
            Work::Print {
                job,
                json,
                with_filename,
                messages,
                ..
            } => Action::Messages(job_of(*job, *json), read_options(*messages, *with_filename)),
            Work::Dump {
                elements,
                with_filename,
                ..
            } => Action::Elements {
                elements: *elements,
                names_inputs: *with_filename,
            },
            Work::Write { job, messages, .. } | Work::Collect { job, messages, .. } => {
                form_action(*job, *messages)
            }
            Work::Lines {
                profile,
                results,
                ..
            } => Action::Lines(LineOptions {
                profile: *profile,
                job: line_job_of(*results),
            }),
        }
    }

    /// Tells whether what is written of an input has escapes of its own for the input's name.
    pub fn escapes_names(&self) -> bool {
        match self {
            Action::Messages(job, _) => job.is_json(),
            Action::Build { .. } => true,
            Action::Elements { .. } | Action::Lines(_) => false,
        }
    }

    /// Tells whether each line of an input counts, and not each message.
    pub fn counts_lines(&self) -> bool {
        matches!(self, Action::Build { .. })
    }

    /// Tells whether lines name their input, even if there is one input.
    pub fn names_inputs(&self) -> bool
        ensures { result ≡ names_inputs self.now }
    {
        match self {
            Action::Messages(_, reading) | Action::Build { reading, .. } => reading.names_inputs,
            Action::Elements {
                elements,
                names_inputs,
            } => *names_inputs || elements.html,
            Action::Lines(_) => false,
        }
    }

    /// Tells whether what is written of all inputs is one HTML document.
    pub fn is_document(&self) -> bool
        ensures { result ≡ is_document self.now }
    {
        match self {
            Action::Elements { elements, .. } => elements.html,
            Action::Messages(..) | Action::Lines(_) | Action::Build { .. } => false,
        }
    }
}

/// The action that writes normal forms.
fn form_action(job: FormJob, messages: Messages<'_>) -> Action
    ensures { result ≡ form_action_of job messages.entry }
{
    match job {
        FormJob::Canonicalise => {
            Action::Messages(Job::Canonicalise, read_options(messages, false))
        }
        FormJob::Build(building) => Action::Build {
            form: build_form(building.results, messages.reading.hex),
            writes_defaults: building.write_defaults,
            reading: read_options(messages, building.with_filename),
        },
    }
}

/// The form of the results of lines that are built.
fn build_form(results: BuildResults, hex: bool) -> BuildForm
    ensures { result ≡ build_form_of results hex }
{
    match results {
        BuildResults::Messages if hex => BuildForm::Digits,
        BuildResults::Messages => BuildForm::Octets,
        BuildResults::Lines => BuildForm::Lines,
        BuildResults::Json => BuildForm::Json,
    }
}

/// The job that is printed, with `--json` or without.
fn job_of(job: FileJob, json: bool) -> Job
    ensures { result ≡ job_of job json }
{
    match job {
        FileJob::Show if json => Job::Json,
        FileJob::Show => Job::Show,
        FileJob::Report(Report::Check) if json => Job::CheckJson,
        FileJob::Report(Report::Check) => Job::Check,
        FileJob::Report(Report::Digest) if json => Job::DigestJson,
        FileJob::Report(Report::Digest) => Job::Digest,
    }
}

/// The job on lines that has these results.
fn line_job_of(results: LineResults<'_>) -> LineJob
    ensures { result ≡ line_job_of results.entry }
{
    match results {
        LineResults::Report(Report::Check) => LineJob::Check,
        LineResults::Report(Report::Digest) => LineJob::Digest,
        LineResults::Write(_) | LineResults::Collect(_) => LineJob::Canonicalise,
    }
}

/// The options by which messages are read.
fn read_options(messages: Messages<'_>, names_inputs: bool) -> ReadOptions
    ensures { result ≡ read_options_of messages.entry names_inputs }
{
    let Messages {
        reading: Reading { profile, hex },
        keep_going,
        summary,
    } = messages;
    ReadOptions {
        profile,
        hex,
        keep_going: keep_going.is_some(),
        compares: summary,
        names_inputs,
    }
}

impl ReadOptions {
    ghost use Rattle.std.specs.Prelude.{◌≡◌};
    ghost use Rattle.ill_cli.specs.Plans.{options_of_reading};

    /// Messages are read up to one that is refused, and no flag says more.
    pub fn new(reading: Reading) -> ReadOptions
        ensures { result ≡ options_of_reading reading }
    {
        ReadOptions {
            profile: reading.profile,
            hex: reading.hex,
            keep_going: false,
            compares: false,
            names_inputs: false,
        }
    }
}

/// The format of an HTML document, or of text.
fn format_if(html: bool) -> DumpFormat
    ensures { result ≡ format_if html }
{
    if html {
        DumpFormat::Html
    } else {
        DumpFormat::Text
    }
}

/// What is done at a refused message, where `last` is done at one with which the work ends.
fn on_refusal(keep_going: bool, last: OnRefusal) -> OnRefusal
    ensures { result ≡ on_refusal_of keep_going last }
{
    if keep_going {
        return OnRefusal::GoOn;
    }
    last
}

/// The action on one input.
#[derive(Clone, Copy)]
pub enum InputAction<'a> {
    /// A job with one message after another.
    Messages(JobOptions<'a>),
    /// The elements of one message after another.
    Elements(DumpOptions<'a>),
    /// A result for each line.
    Lines(LineOptions),
    /// A message of each line of JSON.
    Build(BuildOptions<'a>),
}

impl<'a> InputAction<'a> {
    /// The action of a command on the input with this name, which is one of `count`. Lines name it where there are several, or where that is
    /// asked for.
    ///
    /// ```
    /// let task = InputAction::new(action, "messages.ber", 1);
    /// ```
    pub fn new(action: Action, name: &'a str, count: usize) -> InputAction<'a>
        ensures { result ≡ input_action_of action name.entry count }
    {
        match action {
            Action::Messages(job, reading) => InputAction::Messages(JobOptions {
                job,
                profile: reading.profile,
                hex: reading.hex,
                name,
                names_input: reading.names_inputs || count > 1,
                compares: reading.compares,
                on_refusal: on_refusal(reading.keep_going, OnRefusal::Stop),
            }),
            Action::Elements {
                elements,
                names_inputs,
            } => InputAction::Elements(DumpOptions {
                profile: elements.reading.profile,
                hex: elements.reading.hex,
                name,
                names_input: names_inputs || elements.html || count > 1,
                only: elements.message,
                format: format_if(elements.html),
                on_refusal: on_refusal(elements.keep_going.is_some(), OnRefusal::EndWith),
            }),
            Action::Lines(work) => InputAction::Lines(work),
            Action::Build {
                form,
                writes_defaults,
                reading,
            } => InputAction::Build(BuildOptions {
                form,
                writes_defaults,
                profile: reading.profile,
                name,
                names_input: reading.names_inputs || count > 1,
                goes_on: reading.keep_going || form == BuildForm::Lines,
            }),
        }
    }
}
