//! Jobs on the messages of an input, and their results.
ghost use Rattle.std.specs.Prelude.{◌≡◌, codes, false};
ghost use Rattle.ill_tables.specs.declared.profile.Profile.{Profile as Named};
ghost use Rattle.ill_normal.specs.declared.messages.OnRefusal.{OnRefusal as Mode};
ghost use Rattle.ill_commands.specs.Output.{verdict_of_counts};
ghost use Rattle.ill_commands.specs.code.Endings.{answer_of};

use ill_normal::{Counts, OnRefusal, RunFault, StreamEnd, Verdict};
use ill_schema::Profile;

/// The output for each message of an input.
#[derive(Clone, Copy, Debug, PartialEq, Eq)]
pub enum Job {
    /// Its text, a line for each leaf.
    Show,
    /// A line of JSON: where it is in the input, and its value.
    Json,
    /// A line that says whether it is its normal form.
    Check,
    /// A line of JSON: where it is in the input, and whether it is its normal form.
    CheckJson,
    /// A line with its digest (SHA-256 of its normal form), the name of the input, and its number.
    Digest,
    /// The line of `CheckJson`, with its digest.
    DigestJson,
    /// Its normal form.
    Canonicalise,
}

/// The options of a job: the job itself, how the input is read, and how the lines of its messages name it.
#[derive(Clone, Copy, Debug, PartialEq, Eq)]
pub struct JobOptions<'a> {
    pub job: Job,
    /// The profile that messages are read in.
    pub profile: Profile,
    /// True if the input is hexadecimal text, and each normal form is written as such, a line for each message.
    pub hex: bool,
    /// The name of the input.
    pub name: &'a str,
    /// True if the line of `Check`, and the first line of `Show`, begins with the name and `: `, and a line of JSON has the name.
    pub names_input: bool,
    /// True if each message is compared with its normal form, as `Check` and lines of JSON always do, so that those in normal form are
    /// counted.
    pub compares: bool,
    /// What is done at a message that is refused. Nothing is written of it.
    pub on_refusal: OnRefusal,
}

impl Job {
    ghost use Rattle.std.specs.Prelude.{◌≡◌};
    ghost use Rattle.ill_commands.specs.Output.{is_json};

    /// Tells whether the lines of the job are JSON.
    pub fn is_json(self) -> bool
        ensures { result ≡ is_json self }
    {
        matches!(self, Job::Json | Job::CheckJson | Job::DigestJson)
    }
}

impl JobOptions<'_> {
    /// The work on an input that no line needs to name, such as standard input: its name is `-`. Messages are read in profile 2, and
    /// compared by `Check` and for lines of JSON alone. The work stops at a refused one.
    pub fn new(job: Job, hex: bool) -> JobOptions<'static>
        ensures job { result.job ≡ job }
        ensures profile { result.profile ≡ Named.Two }
        ensures hex { result.hex ≡ hex }
        ensures name { result.name.now ≡ codes "-" }
        ensures not_named { result.names_input ≡ false }
        ensures not_compared { result.compares ≡ false }
        ensures stops { result.on_refusal ≡ Mode.Stop }
    {
        JobOptions {
            job,
            profile: Profile::Two,
            hex,
            name: "-",
            names_input: false,
            compares: false,
            on_refusal: OnRefusal::Stop,
        }
    }
}

/// The verdict of a job that read its input to the end: good if no message is refused, and for a check each is in normal form.
///
/// ```
/// let verdict = verdict_of(work.job, end.counts);
/// ```
pub fn verdict_of(job: Job, counts: Counts) -> Verdict
    ensures { result ≡ verdict_of_counts job counts }
{
    if counts.refused > 0 {
        return Verdict::NotGood;
    }
    match job {
        Job::Check | Job::CheckJson if !counts.are_all_good() => Verdict::NotGood,
        _ => Verdict::Good,
    }
}

/// The answer of a job that stops at a refused message: its verdict, or the reason why it was not done.
pub(crate) fn answer_of(job: Job, end: StreamEnd) -> Result<Verdict, RunFault>
    ensures { result ≡ answer_of job end }
{
    match end.fault {
        None => Ok(verdict_of(job, end.counts)),
        Some(fault) => Err(fault),
    }
}
