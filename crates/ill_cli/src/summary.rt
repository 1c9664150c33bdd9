//! The line of numbers at the end of a command.
ghost use Rattle.std.specs.Prelude.{◌≡◌};
ghost use Rattle.ill_cli.specs.Counts.{left_after, messages_of, place_of_report, refused_messages_of, with_counts, with_file, with_kind, with_kinds, with_left, with_lines, with_report, with_unopened, without_file};

use crate::build::BuildCounts;
use ill_commands::RefusalKind;
use ill_files::Count;
use ill_inputs::RunFault;
use ill_normal::{Counts, RefusalReport};
use std::fmt;

/// The counts of the files that a command read, and of their messages. A count that would overflow stays at the greatest number.
#[derive(Clone, Copy)]
pub struct Summary {
    /// Files that were opened.
    pub files: u64,
    /// Messages in normal form.
    pub normal: u64,
    /// Messages that are spelled in another way.
    pub not_normal: u64,
    /// What is refused: messages, and places where no message begins.
    pub refused: u64,
    /// The messages of them that are only not read, as far as kinds were counted.
    pub not_read: u64,
    /// The messages of them that are wrong.
    pub invalid: u64,
    /// The places where no message begins.
    pub no_message: u64,
    /// Octets of the messages, those that are refused too, where their ends are known.
    pub octets: u64,
    /// Files that could not be opened.
    pub unopened: u64,
    /// Files that were opened, and left before their end.
    pub left: u64,
}

impl Summary {
    /// No file was read yet.
    pub const NONE: Summary = Summary {
        files: 0,
        normal: 0,
        not_normal: 0,
        refused: 0,
        not_read: 0,
        invalid: 0,
        no_message: 0,
        octets: 0,
        unopened: 0,
        left: 0,
    };

    /// Counts a file that was opened.
    pub fn add_file(&mut self)
        ensures { self.new ≡ with_file self.old }
    {
        self.files = self.files.saturating_add(1);
    }

    /// Uncounts a file that was opened, but can't be read.
    pub fn remove_file(&mut self)
        ensures { self.new ≡ without_file self.old }
    {
        self.files = self.files.saturating_sub(1);
    }

    /// Counts a file that could not be opened.
    pub fn add_unopened(&mut self)
        ensures { self.new ≡ with_unopened self.old }
    {
        self.unopened = self.unopened.saturating_add(1);
    }

    /// Counts a file that was left before its end.
    pub fn add_left(&mut self)
        ensures { self.new ≡ with_left self.old }
    {
        self.left = self.left.saturating_add(1);
    }

    /// Counts the messages of an input.
    pub fn add(&mut self, counts: Counts)
        ensures { self.new ≡ with_counts self.old counts }
    {
        let accepted = counts.messages.saturating_sub(counts.refused);
        self.normal = self.normal.saturating_add(u64::from(counts.good));
        self.not_normal = self
            .not_normal
            .saturating_add(u64::from(accepted.saturating_sub(counts.good)));
        self.octets = self.octets.saturating_add(counts.octets);
        self.refused = self.refused.saturating_add(u64::from(counts.refused));
    }

    /// Counts a refused message, and its octets where their number is known.
    pub fn add_refused(&mut self, report: RefusalReport)
        ensures { self.new ≡ with_report self.old report }
    {
        self.refused = self.refused.saturating_add(1);
        self.octets = self.octets.saturating_add(report.octets.unwrap_or(0));
    }

    /// Counts the lines of an input that were built: a message is in normal form.
    pub fn add_lines(&mut self, counts: BuildCounts)
        ensures { self.new ≡ with_lines self.old counts }
    {
        self.normal = self.normal.saturating_add(counts.built);
        self.refused = self.refused.saturating_add(counts.refused);
        self.octets = self.octets.saturating_add(counts.octets);
    }

    /// Counts the kinds of refusals.
    pub fn add_kinds(&mut self, kinds: KindCounts)
        ensures { self.new ≡ with_kinds self.old kinds }
    {
        self.not_read = self.not_read.saturating_add(u64::from(kinds.not_read));
        self.invalid = self.invalid.saturating_add(u64::from(kinds.invalid));
        self.no_message = self.no_message.saturating_add(u64::from(kinds.no_message));
    }

    /// The number of messages, refused ones too.
    pub fn messages(&self) -> u64
        ensures { result ≡ messages_of self.now }
    {
        self.normal
            .saturating_add(self.not_normal)
            .saturating_add(self.refused_messages())
    }

    /// The number of messages that are refused.
    pub fn refused_messages(&self) -> u64
        ensures { result ≡ refused_messages_of self.now }
    {
        self.refused.saturating_sub(self.no_message)
    }
}

impl fmt::Display for Summary {
    fn fmt<W: fmt::Write>(&self, f: &mut fmt::Formatter<W>) -> fmt::Result {
        let refused = self.refused_messages();
        let Summary {
            files,
            normal,
            not_normal,
            not_read,
            invalid,
            no_message,
            octets,
            ..
        } = *self;
        let files = Count(files, "file");
        let messages = Count(self.messages(), "message");
        write!(
            f,
            "{files}, {messages}, {normal} normal, {not_normal} not normal, {refused} refused"
        )?;
        if refused > 0 && refused == not_read.saturating_add(invalid) {
            write!(f, " ({not_read} not read, {invalid} invalid)")?;
        }
        write!(f, ", {}", Count(octets, "octet"))?;
        if no_message > 0 {
            write!(f, ", {} without a message", Count(no_message, "place"))?;
        }
        fmt_unread(*self, f)
    }
}

/// The kinds of refusals, counted. A count that would overflow stays at the greatest number.
#[derive(Clone, Copy)]
pub struct KindCounts {
    pub not_read: u32,
    pub invalid: u32,
    pub no_message: u32,
}

impl KindCounts {
    /// Nothing was refused yet.
    pub const NONE: KindCounts = KindCounts {
        not_read: 0,
        invalid: 0,
        no_message: 0,
    };

    /// Counts a refusal of this kind.
    pub fn add(&mut self, kind: RefusalKind)
        ensures { self.new ≡ with_kind self.old kind }
    {
        match kind {
            RefusalKind::NoMessage => self.no_message = self.no_message.saturating_add(1),
            RefusalKind::NotRead => self.not_read = self.not_read.saturating_add(1),
            RefusalKind::Invalid => self.invalid = self.invalid.saturating_add(1),
        }
    }
}

/// The numbers of files of which each line counts.
#[derive(Clone, Copy)]
pub struct LineSummary(pub Summary);

impl fmt::Display for LineSummary {
    fn fmt<W: fmt::Write>(&self, f: &mut fmt::Formatter<W>) -> fmt::Result {
        let LineSummary(summary) = *self;
        let files = Count(summary.files, "file");
        let lines = Count(summary.messages(), "line");
        let Summary {
            normal,
            refused,
            ..
        } = summary;
        let octets = Count(summary.octets, "octet");
        write!(
            f,
            "{files}, {lines}, {normal} built, {refused} refused, {octets}"
        )?;
        fmt_unread(summary, f)
    }
}

/// Writes how many files were not opened, or left before the end, if there are any.
fn fmt_unread<W: fmt::Write>(summary: Summary, f: &mut fmt::Formatter<W>) -> fmt::Result {
    let Summary { unopened, left, .. } = summary;
    if unopened > 0 {
        write!(f, ", {unopened} not opened")?;
    }
    if left > 0 {
        write!(f, ", {left} left before the end")?;
    }
    Ok(())
}

/// The numbers as a line of JSON.
#[derive(Clone, Copy)]
pub struct JsonSummary(pub Summary);

impl fmt::Display for JsonSummary {
    fn fmt<W: fmt::Write>(&self, f: &mut fmt::Formatter<W>) -> fmt::Result {
        let JsonSummary(summary) = *self;
        let messages = summary.messages();
        let refused = summary.refused_messages();
        let Summary {
            files,
            normal,
            not_normal,
            not_read,
            invalid,
            no_message,
            octets,
            unopened,
            left,
            ..
        } = summary;
        f.write_str("{\"summary\":{")?;
        write!(
            f,
            "\"files\":{files},\"messages\":{messages},\"normal\":{normal},"
        )?;
        write!(f, "\"not_normal\":{not_normal},\"refused\":{refused},")?;
        write!(
            f,
            "\"not_read\":{not_read},\"invalid\":{invalid},\"no_message\":{no_message},"
        )?;
        write!(f, "\"octets\":{octets},")?;
        write!(f, "\"not_opened\":{unopened},\"left\":{left}")?;
        f.write_str("}}")
    }
}

/// The place at which the work on a file ended before the end of the file.
#[derive(Clone, Copy)]
pub struct LeftAt {
    /// The number of the message that was not read.
    pub message: u32,
    /// The number of octets of the input that come before it.
    pub offset: u64,
}

impl LeftAt {
    /// The place at which a fault ended the work on an input whose messages are counted so, if it is one of the input or of memory.
    pub fn after(counts: Counts, fault: RunFault) -> Option<LeftAt>
        ensures { result ≡ left_after fault counts }
    {
        let message = match fault {
            RunFault::WriteFault(_) => return None,
            RunFault::Refused { message, .. } => message,
            _ => counts.messages.saturating_add(1),
        };
        Some(LeftAt {
            message,
            offset: counts.octets,
        })
    }

    /// The place of a refused message.
    pub fn of(report: RefusalReport) -> LeftAt
        ensures { result ≡ place_of_report report }
    {
        LeftAt {
            message: report.message,
            offset: report.offset,
        }
    }
}

impl fmt::Display for LeftAt {
    fn fmt<W: fmt::Write>(&self, f: &mut fmt::Formatter<W>) -> fmt::Result {
        let LeftAt { message, offset } = *self;
        write!(f, "stopped at message {message} (octet {offset})")
    }
}
