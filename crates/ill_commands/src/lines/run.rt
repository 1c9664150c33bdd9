//! The lines of an input, from a source to a sink.
ghost use Rattle.std.specs.Prelude.{◌≡◌, ◌+◌, ◌^◌, ◌<◌, ◌≤◌, ℕ, Bool, false, List, [], Option, take, length, IfOk, IfErr, OnOk, IsTrue};
ghost use Rattle.std.specs.Io.KnownBytes.{Appends, Consumes, IsAtEnd};
ghost use Rattle.ill_inputs.specs.declared.run_fault.RunFault.{RunFault};
ghost use Rattle.ill_normal.specs.Calls.{putting, taking};
ghost use Rattle.ill_tables.specs.declared.profile.Profile.{Profile as Named};
ghost use Rattle.ill_commands.specs.HexLines.{HexAnswers, line_options};
ghost use Rattle.ill_commands.specs.Lines.{EndsWithin, LinesDone, LinesFail};
ghost use Rattle.ill_commands.specs.code.After.{HasWritten};

use crate::lines::answer::AnswerLines;
use crate::lines::job::{LineJob, LineOptions};
use crate::lines::reader::LineReader;
use crate::lines::result::HexLines;
use ber_core::{Broken, Sink, Source, put_all};
use ill_normal::RunFault;
use ill_schema::Profile;
use std::alloc::Global;

/// The number of octets that are asked of the source at once.
const READ_LEN: usize = 16_384;

/// Reads each line of an input as a message in hexadecimal, and writes a line with its result: for `Canonicalise` the normal form and for
/// `Digest` the digest, in lower case hexadecimal, for `Check` a line as `Expired, 33 octets, normal`. A line that is no message has
/// `refused at 19: Missing Expired.service-date-time` or `hex: odd number of digits` in its place, and the next line is read.
///
/// Each line is ended by a line feed, the last also by the end of the input. Spaces, tabs and carriage returns are skipped. A line of
/// more than 4,194,304 octets is `hex: too long`. Before more input is asked for, the results of all lines that ended are put into the
/// sink. Memory doesn't grow with the number of lines.
///
/// Returns whether all lines are messages, and for `Check` in normal form.
///
/// # Errors
///
/// `OutOfMemory`: the results of the lines before were written. `ReadFault`: those of all lines that the source gave whole were written.
/// `WriteFault(n)`: exactly the first n octets of the results were written. There is no other.
pub fn run_lines<R: Source, W: Sink>(
    alloc: Global,
    job: LineJob,
    source: &mut R,
    sink: &mut W,
) -> Result<bool, RunFault>
    ensures done { IfOk result (LinesDone (HexAnswers (line_options Named.Two job)) (R.left source.old)
        (R.left source.new) (W.contents sink.old) (W.contents sink.new)) }
    ensures fails { IfErr result (LinesFail (HexAnswers (line_options Named.Two job))
        (taking (R.left source.old) (R.left source.new) (R.is_broken source.new))
        (putting (W.contents sink.old) (W.contents sink.new) (W.is_broken sink.new))) }
    ensures source_stays { IsTrue (R.is_broken source.old) → IsTrue (R.is_broken source.new) }
    ensures sink_stays { IsTrue (W.is_broken sink.old) → IsTrue (W.is_broken sink.new) }
{
    run_lines_as(alloc, Profile::Two, job, source, sink)
}

/// Reads lines as [`run_lines`] does, of messages in the profile.
///
/// # Errors
///
/// Those of [`run_lines`].
///
/// # Examples
///
/// ```
/// let all_good = run_lines_as(alloc, Profile::Module, LineJob::Check, &mut source, &mut sink)?;
/// ```
pub fn run_lines_as<R: Source, W: Sink>(
    alloc: Global,
    profile: Profile,
    job: LineJob,
    source: &mut R,
    sink: &mut W,
) -> Result<bool, RunFault>
    ensures done { IfOk result (LinesDone (HexAnswers (line_options profile job)) (R.left source.old)
        (R.left source.new) (W.contents sink.old) (W.contents sink.new)) }
    ensures fails { IfErr result (LinesFail (HexAnswers (line_options profile job))
        (taking (R.left source.old) (R.left source.new) (R.is_broken source.new))
        (putting (W.contents sink.old) (W.contents sink.new) (W.is_broken sink.new))) }
    ensures source_stays { IsTrue (R.is_broken source.old) → IsTrue (R.is_broken source.new) }
    ensures sink_stays { IsTrue (W.is_broken sink.old) → IsTrue (W.is_broken sink.new) }
{
    let mut answerer = HexLines::new(alloc, LineOptions { profile, job });
    answer_lines(alloc, &mut answerer, source, sink)
}

/// Answers each line of an input, and writes the results. Before more input is asked for, the results of all lines that ended are put into
/// the sink. Memory doesn't grow with the number of lines. Returns whether all lines are good.
///
/// # Errors
///
/// `OutOfMemory`: the results of the lines before were written. `NotReported`: the work ended with the last line that was answered, whose
/// result was written, too. `ReadFault`: the results of all lines that the source gave whole were written. `WriteFault(n)`: exactly the
/// first n octets of the results were written. There is no other.
pub fn answer_lines<A: AnswerLines, R: Source, W: Sink>(
    alloc: Global,
    answerer: &mut A,
    source: &mut R,
    sink: &mut W,
) -> Result<bool, RunFault>
    ensures done { IfOk result (LinesDone (A.answers (A.options answerer.old))
        (R.left source.old) (R.left source.new) (W.contents sink.old) (W.contents sink.new)) }
    ensures fails { IfErr result (LinesFail (A.answers (A.options answerer.old))
        (taking (R.left source.old) (R.left source.new) (R.is_broken source.new))
        (putting (W.contents sink.old) (W.contents sink.new) (W.is_broken sink.new))) }
    ensures source_stays { IsTrue (R.is_broken source.old) → IsTrue (R.is_broken source.new) }
    ensures sink_stays { IsTrue (W.is_broken sink.old) → IsTrue (W.is_broken sink.new) }
{
    let mut lines = LineReader::new(alloc);
    let mut buffer = [0; READ_LEN];
    let mut written = 0;
    for turn in 0..u64::MAX {
        let count = match source.take(&mut buffer) {
            Ok(0) => return finish(answerer, &mut lines, written, sink),
            Ok(count) => count,
            Err(Broken) => return Err(RunFault::ReadFault),
        };
        let fed = lines.feed(answerer, &buffer[..count]);
        written = put_ready(&mut lines, written, sink)?;
        fed?;
    }
    // After 2^64 calls no more is asked for.
    Err(RunFault::OutOfMemory)
}

/// Answers the last line, where it has no end, and writes its result, after `written` octets of others.
fn finish<A: AnswerLines, W: Sink>(
    answerer: &mut A,
    lines: &mut LineReader,
    written: u128,
    sink: &mut W,
) -> Result<bool, RunFault>
    requires fits { written + 2 ^ 64 < 2 ^ 128 }
    ensures done { (s : List ℕ) (first left left' : Option (List ℕ)) → Consumes left left' s
        → IsAtEnd left' → HasWritten (A.answers (A.options answerer.old))
        (A.kept_len (A.options answerer.old)) false s first (W.contents sink.old) lines.old
        → IfOk result (LinesDone (A.answers (A.options answerer.old)) left left' first
        (W.contents sink.new)) }
    ensures fails { (s : List ℕ) (first : Option (List ℕ)) (x : Bool)
        → (h : HasWritten (A.answers (A.options answerer.old))
        (A.kept_len (A.options answerer.old)) false s first (W.contents sink.old) lines.old)
        → written ≡ length h.0
        → IfErr result (EndsWithin (A.answers (A.options answerer.old)) s x (putting first
        (W.contents sink.new) (W.is_broken sink.new))) }
    ensures stays { IsTrue (W.is_broken sink.old) → IsTrue (W.is_broken sink.new) }
{
    if lines.part.is_empty() {
        return Ok(lines.is_good);
    }
    let verdict = lines.end_line(answerer)?;
    put_ready(lines, written, sink)?;
    if verdict.is_last() {
        return Err(RunFault::NotReported);
    }
    Ok(lines.is_good)
}

/// Writes the results that are there, after `written` octets of others, and returns the number of all that are written then.
fn put_ready<W: Sink>(lines: &mut LineReader, written: u128, sink: &mut W) -> Result<u128, RunFault>
    requires fits { written + 2 ^ 64 < 2 ^ 128 }
    ensures all { OnOk result (Appends (W.contents sink.old) (W.contents sink.new)
        lines.old.ready.items) }
    ensures ready { OnOk result (lines.new.ready.items ≡ []) }
    ensures count { IfOk result (λ n. n ≡ written + length lines.old.ready.items) }
    ensures bound { IfOk result (λ n. n ≤ written + 2 ^ 64) }
    ensures some { IfErr result (λ fault. IsTrue (W.is_broken sink.new)
        × ((n : ℕ) × (n < length lines.old.ready.items)
        × (fault ≡ RunFault.WriteFault (written + n))
        × Appends (W.contents sink.old) (W.contents sink.new) (take n lines.old.ready.items))) }
    ensures part { lines.new.part.items ≡ lines.old.part.items }
    ensures good { lines.new.is_good ≡ lines.old.is_good }
    ensures stays { IsTrue (W.is_broken sink.old) → IsTrue (W.is_broken sink.new) }
{
    match put_all(sink, &lines.ready) {
        Ok(()) => {
            let count = lines.ready.len();
            lines.ready.clear();
            Ok(written + count as u128)
        }
        Err(count) => Err(RunFault::WriteFault(written + count as u128)),
    }
}
