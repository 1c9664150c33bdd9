//! The result of one line.
ghost use Rattle.std.specs.Prelude.{◌≡◌, ◌++◌, ℕ, List, true, codes, if◌then◌else◌, IfOk, OnOk, OnErr};
ghost use Rattle.hex.specs.Hex.{encode_lower};
ghost use Rattle.ill_schema.specs.Apdu.{Apdu, SpellsApdu, normal_form_in};
ghost use Rattle.ill_schema.specs.Profiles.{profile_of};
ghost use Rattle.ill_normal.specs.Messages.{spelling};
ghost use Rattle.ill_inputs.specs.Hexadecimal.{hex_octets};
ghost use Rattle.ill_commands.specs.HexLines.{HexAnswers, IsResult, IsResultOf, IsSaid, line_options};
ghost use Rattle.ill_commands.specs.declared.lines.answer.LineVerdict.{LineVerdict as VerdictOf};
ghost use Rattle.ill_commands.specs.declared.lines.job.LineJob.{LineJob as Job};

use crate::lines::answer::{AnswerLines, LineVerdict};
use crate::lines::job::{LineJob, LineOptions};
use crate::lines::words::{hex_words, refusal_words};
use ill_normal::{
    Failure, MAX_HEX_TEXT, NormalReader, Profile, RunFault, apdu_name_or_empty, apdu_number,
    normal_digest, put_check_words, text_octets,
};
use std::alloc::{AllocError, Global};

/// Answers to lines that are messages in hexadecimal.
#[derive(Drop)]
pub struct HexLines {
    alloc: Global,
    /// The reader of the message of each line.
    reader: NormalReader,
    pub work: LineOptions,
}

impl HexLines {
    /// Answers by these options.
    pub fn new(alloc: Global, work: LineOptions) -> HexLines
        ensures { result.work ≡ work }
    {
        HexLines {
            alloc,
            reader: NormalReader::new(alloc),
            work,
        }
    }
}

impl AnswerLines for HexLines {
    type Options = LineOptions;

    ghost use Rattle.ill_commands.specs.code.Kept.{kept_some};

    ghost options = { λ lines. lines.work };

    ghost answers = { HexAnswers };

    ghost kept_len = { λ _. 4_194_305 };

    ghost keeps_some = { λ _. kept_some };

    fn kept_len(&self) -> usize {
        MAX_HEX_TEXT + 1
    }

    fn answer(&mut self, kept: &[u8], results: &mut Vec<u8>) -> Result<LineVerdict, AllocError> {
        let found = result_of(self.alloc, &mut self.reader, self.work, kept)?;
        push_line(results, &found.words)?;
        Ok(verdict_if(found.is_good))
    }
}

/// Appends words and a line feed.
///
/// # Errors
///
/// Out of memory. Nothing was appended.
fn push_line(results: &mut Vec<u8>, words: &[u8]) -> Result<(), AllocError>
    ensures all { OnOk result (results.new.items
        ≡ results.old.items ++ (words.now ++ codes "\n")) }
    ensures none { OnErr result (results.new.items ≡ results.old.items) }
{
    let before = results.len();
    results.extend_from_slice(words)?;
    if results.push(b'\n').is_err() {
        results.truncate(before);
        return Err(AllocError);
    }
    Ok(())
}

/// The verdict of a line after which the next one is read.
fn verdict_if(is_good: bool) -> LineVerdict
    ensures { result ≡ (if is_good then VerdictOf.Good else VerdictOf.NotGood) }
{
    if is_good {
        LineVerdict::Good
    } else {
        LineVerdict::NotGood
    }
}

/// The result of a line, and whether it is good.
#[derive(Drop)]
pub struct LineResult {
    pub words: Vec<u8>,
    pub is_good: bool,
}

/// The result of the line of this text. What the reader read before makes no difference.
pub fn result_of(
    alloc: Global,
    reader: &mut NormalReader,
    work: LineOptions,
    text: &[u8],
) -> Result<LineResult, AllocError>
    ensures { IfOk result (λ found. IsResult work (hex_octets text.now) found.words.items
        found.is_good) }
{
    match text_octets(alloc, text) {
        Ok(octets) => message_result(alloc, reader, work, &octets),
        Err(RunFault::OutOfMemory) => Err(AllocError),
        Err(fault) => Ok(LineResult {
            words: hex_words(alloc, fault)?,
            is_good: false,
        }),
    }
}

/// The result of a line whose text stands for these octets.
fn message_result(
    alloc: Global,
    reader: &mut NormalReader,
    work: LineOptions,
    octets: &[u8],
) -> Result<LineResult, AllocError>
    ensures { IfOk result (λ found. IsResultOf work octets.now found.words.items found.is_good) }
{
    match reader.decode(work.profile, octets, Vec::new(alloc)) {
        Ok(normal) => form_result(alloc, work, octets, &normal.octets),
        Err(Failure::Refused(refusal)) => Ok(LineResult {
            words: refusal_words(alloc, refusal)?,
            is_good: false,
        }),
        Err(Failure::OutOfMemory) => Err(AllocError),
    }
}

/// The result of a message with this normal form.
fn form_result(
    alloc: Global,
    work: LineOptions,
    octets: &[u8],
    normal: &[u8],
) -> Result<LineResult, AllocError>
    ensures { (a : Apdu) → SpellsApdu (profile_of work.profile) a octets.now
        → normal.now ≡ normal_form_in (profile_of work.profile) a
        → IfOk result (λ found. IsSaid work (spelling a octets.now) found.words.items
        found.is_good) }
{
    match work.job {
        LineJob::Check => check_result(alloc, work.profile, octets, normal),
        LineJob::Digest => digits_result(alloc, &normal_digest(normal)),
        LineJob::Canonicalise => digits_result(alloc, normal),
    }
}

fn digits_result(alloc: Global, octets: &[u8]) -> Result<LineResult, AllocError>
    ensures { IfOk result (λ found. (found.words.items ≡ encode_lower octets.now)
        × (found.is_good ≡ true)) }
{
    let digits = hex::encode(alloc, octets)?;
    Ok(LineResult {
        words: digits.into_bytes(),
        is_good: true,
    })
}

fn check_result(
    alloc: Global,
    profile: Profile,
    octets: &[u8],
    normal: &[u8],
) -> Result<LineResult, AllocError>
    ensures { (a : Apdu) → SpellsApdu (profile_of profile) a octets.now
        → normal.now ≡ normal_form_in (profile_of profile) a
        → IfOk result (λ found. IsSaid (line_options profile Job.Check) (spelling a octets.now)
        found.words.items found.is_good) }
{
    let is_normal = octets == normal;
    let name = apdu_name_or_empty(profile, apdu_number(normal));
    let mut words = Vec::new(alloc);
    put_check_words(&mut words, name, octets.len(), is_normal, normal.len())?;
    Ok(LineResult {
        words,
        is_good: is_normal,
    })
}
