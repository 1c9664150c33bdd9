//! Orders: the meaning of a command line.
use ill_tables::Profile;
use std::alloc::{AllocError, Global};

/// A command of the program.
#[derive(Clone, Copy, Debug, PartialEq, Eq)]
pub enum Verb {
    /// The command that prints what a job writes.
    Print(FileJob),
    Dump,
    Same,
    /// The command that writes normal forms to OUT.
    Write(FormVerb),
}

/// A command that writes normal forms to OUT.
#[derive(Clone, Copy, Debug, PartialEq, Eq)]
pub enum FormVerb {
    /// Those of messages.
    Canonicalise,
    /// Those of the messages that lines of JSON say.
    Build,
}

/// The order of a command line. The word `-` is standard input.
#[derive(Debug, Drop)]
pub enum Order<'a> {
    /// Work on one input after another.
    Each(Work<'a>),
    /// A comparison of two inputs: `same`.
    Compare {
        reading: Reading,
        first: &'a str,
        second: &'a str,
    },
}

/// Work on one input after another.
#[derive(Debug, Drop)]
pub enum Work<'a> {
    /// What a job writes of the messages of each file, printed: `show`, and without `--lines` `check` and `digest`.
    Print {
        job: FileJob,
        /// True if a line of JSON is written for each message.
        json: bool,
        /// True if each line names its file, even if there is one file.
        with_filename: bool,
        messages: Messages<'a>,
        inputs: Inputs<'a>,
    },
    /// The elements of the messages of each file, printed: `dump`.
    Dump {
        elements: Elements,
        /// True if each line names its file, even if there is one file.
        with_filename: bool,
        inputs: Inputs<'a>,
    },
    /// The normal forms of the messages of one file, into another: `canonicalise IN OUT`, `build IN OUT`.
    Write {
        job: FormJob,
        messages: Messages<'a>,
        input: &'a str,
        output: Target<'a>,
    },
    /// The normal forms of the messages of each file, in turn, into one file: `canonicalise -o OUT`, `build -o OUT`.
    Collect {
        job: FormJob,
        messages: Messages<'a>,
        inputs: Inputs<'a>,
        output: Target<'a>,
    },
    /// A result for each line of one file, where each line is a message in hexadecimal: `--lines`.
    Lines {
        profile: Profile,
        input: &'a str,
        results: LineResults<'a>,
    },
}

/// The source of normal forms.
#[derive(Clone, Copy, Debug, PartialEq, Eq)]
pub enum FormJob {
    /// Messages.
    Canonicalise,
    /// Lines of JSON.
    Build(Building),
}

/// The way that messages are built from lines of JSON.
#[derive(Clone, Copy, Debug, PartialEq, Eq)]
pub struct Building {
    pub results: BuildResults,
    /// True if each row that has its default has an element.
    pub write_defaults: bool,
    /// True if each report on a line names its file, even if there is one file.
    pub with_filename: bool,
}

/// The results of lines of JSON.
#[derive(Clone, Copy, Debug, PartialEq, Eq)]
pub enum BuildResults {
    /// The messages; a line that is refused is reported.
    Messages,
    /// For each line a line: the message in hexadecimal, or the reason why the line is refused.
    Lines,
    /// For each line a line of JSON.
    Json,
}

/// What is printed of each message.
#[derive(Clone, Copy, Debug, PartialEq, Eq)]
pub enum FileJob {
    /// Its text.
    Show,
    Report(Report),
}

/// A line on a message.
#[derive(Clone, Copy, Debug, PartialEq, Eq)]
pub enum Report {
    /// Whether it is in normal form.
    Check,
    /// The digest of its normal form.
    Digest,
}

/// The results of lines.
#[derive(Clone, Copy, Debug, PartialEq, Eq)]
pub enum LineResults<'a> {
    /// A report on each message, printed.
    Report(Report),
    /// The normal forms, by `canonicalise IN OUT`.
    Write(Target<'a>),
    /// The normal forms, by `canonicalise -o OUT`.
    Collect(Target<'a>),
}

/// The way that an input is read.
#[derive(Clone, Copy, Debug, PartialEq, Eq)]
pub struct Reading {
    /// The profile that messages are read in.
    pub profile: Profile,
    /// True if messages are hexadecimal text.
    pub hex: bool,
}

/// The way that messages are read, one after another.
#[derive(Clone, Copy, Debug, PartialEq, Eq)]
pub struct Messages<'a> {
    pub reading: Reading,
    /// The way that the work goes on after a message that is refused; None where it ends there.
    pub keep_going: Option<KeepGoing<'a>>,
    /// True if a line at the end says how many files and messages there were.
    pub summary: bool,
}

/// The way that work goes on after a message that is refused.
#[derive(Clone, Copy, Debug, PartialEq, Eq)]
pub struct KeepGoing<'a> {
    pub limit: Limit,
    /// The file that gets the octets of refused messages.
    pub refused: Option<&'a str>,
}

/// The number of refused messages that work goes on to.
#[derive(Clone, Copy, Debug, PartialEq, Eq)]
pub struct Limit {
    /// The number of the refused message that ends the work, counted over all files.
    pub max_refused: Option<u32>,
}

/// The way that the elements of messages are read and written.
#[derive(Clone, Copy, Debug, PartialEq, Eq)]
pub struct Elements {
    pub reading: Reading,
    /// The way that the work goes on after a message that is refused; None where it ends there.
    pub keep_going: Option<Limit>,
    /// The number of the one message that is written; None where each is.
    pub message: Option<u32>,
    /// True if an HTML document is written.
    pub html: bool,
}

/// The files that a job reads.
#[derive(Debug, Drop)]
pub struct Inputs<'a> {
    /// Those that the command line names.
    pub files: Vec<&'a str>,
    /// The file that has the names of more, each ended by a NUL.
    pub list: Option<&'a str>,
}

/// The place that normal forms are written to: OUT.
#[derive(Clone, Copy, Debug, PartialEq, Eq)]
pub enum Target<'a> {
    StandardOutput,
    File {
        name: &'a str,
        /// True if it is replaced only if every message was good.
        whole: bool,
    },
}

impl Work<'_> {
    ghost use Rattle.std.specs.Prelude.{◌≡◌};
    ghost use Rattle.ill_args.specs.Orders.{has_json_reports, is_counted, max_refused_of};

    /// Tells whether a line at the end says how many files and messages there were.
    pub fn is_counted(&self) -> bool
        ensures { result ≡ is_counted self.now }
    {
        match self {
            Work::Print { messages, .. }
            | Work::Write { messages, .. }
            | Work::Collect { messages, .. } => messages.summary,
            Work::Dump { .. } | Work::Lines { .. } => false,
        }
    }

    /// The number of the refused message that ends the work, counted over all files.
    pub fn max_refused(&self) -> Option<u32>
        ensures { result ≡ max_refused_of self.now }
    {
        match self {
            Work::Print { messages, .. }
            | Work::Write { messages, .. }
            | Work::Collect { messages, .. } => messages.keep_going?.limit.max_refused,
            Work::Dump { elements, .. } => elements.keep_going?.max_refused,
            Work::Lines { .. } => None,
        }
    }

    /// Tells whether reports are lines of JSON, and so the numbers at the end.
    pub fn has_json_reports(&self) -> bool
        ensures { result ≡ has_json_reports self.now }
    {
        match self {
            Work::Print {
                job: FileJob::Report(_),
                json,
                ..
            } => *json,
            _ => false,
        }
    }
}

impl<'a> Messages<'a> {
    ghost use Rattle.std.specs.Prelude.{◌≡◌};
    ghost use Rattle.ill_args.specs.Orders.{refused_of};

    /// The file that gets the octets of refused messages.
    pub fn refused(self) -> Option<&'a str>
        ensures { result ≡ refused_of self.entry }
    {
        self.keep_going?.refused
    }
}

impl<'a> Inputs<'a> {
    ghost use Rattle.std.specs.Prelude.{◌≡◌, [], ◌∷◌, None, IfOk};

    /// One file.
    pub fn one(alloc: Global, file: &'a str) -> Result<Inputs<'a>, AllocError>
        ensures files { IfOk result (λ inputs. inputs.files.items ≡ file.entry ∷ []) }
        ensures list { IfOk result (λ inputs. inputs.list ≡ None) }
    {
        let mut files = Vec::new(alloc);
        files.push(file)?;
        Ok(Inputs { files, list: None })
    }
}

impl FileJob {
    ghost use Rattle.std.specs.Prelude.{◌≡◌};
    ghost use Rattle.ill_args.specs.Orders.{report_of};

    /// The report that it writes, which it can write of lines, too; None where it writes something else.
    pub(crate) fn report(self) -> Option<Report>
        ensures { result ≡ report_of self }
    {
        match self {
            FileJob::Show => None,
            FileJob::Report(report) => Some(report),
        }
    }
}

impl<'a> Target<'a> {
    ghost use Rattle.std.specs.Prelude.{◌≡◌};
    ghost use Rattle.ill_args.specs.Orders.{is_whole, target_name};

    /// The word for it.
    pub fn name(self) -> &'a str
        ensures { result.now ≡ target_name self.entry }
    {
        match self {
            Target::StandardOutput => "-",
            Target::File { name, .. } => name,
        }
    }

    /// Tells whether it is replaced only if every message was good.
    pub fn is_whole(self) -> bool
        ensures { result ≡ is_whole self.entry }
    {
        match self {
            Target::StandardOutput => false,
            Target::File { whole, .. } => whole,
        }
    }
}
