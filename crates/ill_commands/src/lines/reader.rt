//! The line that is being read, and the results that wait to be written.
ghost use Rattle.std.specs.Prelude.{◌≡◌, ◌++◌, ◌<◌, ◌≤◌, ℕ, List, [], length, take, slice_index, true, false, IfErr, IfOk, OnOk, OnErr};
ghost use Rattle.ill_commands.specs.Lines.{has_line_end};
ghost use Rattle.ill_commands.specs.code.After.{IsAnswered, IsSame, StandsAfter, StopsAfter};

use crate::lines::answer::{AnswerLines, LineVerdict};
use ill_normal::RunFault;
use std::alloc::{AllocError, Global};

/// The octets of the line that has not ended, and the results that were not written.
#[derive(Drop)]
pub struct LineReader {
    /// The octets of the line that are kept.
    pub part: Vec<u8>,
    /// The results of the lines before.
    pub ready: Vec<u8>,
    /// True if all lines before are good.
    pub is_good: bool,
}

impl LineReader {
    /// Before the first octet.
    pub fn new(alloc: Global) -> LineReader
        ensures part { result.part.items ≡ [] }
        ensures ready { result.ready.items ≡ [] }
        ensures good { result.is_good ≡ true }
    {
        LineReader {
            part: Vec::new(alloc),
            ready: Vec::new(alloc),
            is_good: true,
        }
    }

    /// Reads octets, and makes the results of the lines that end in them.
    ///
    /// # Errors
    ///
    /// `OutOfMemory`: some of the octets were not read, and the results of the lines before are there. `NotReported`: the work ended with a
    /// line, whose result is there, too.
    pub fn feed<A: AnswerLines>(&mut self, answerer: &mut A, octets: &[u8]) -> Result<(), RunFault>
        ensures same { A.options answerer.new ≡ A.options answerer.old }
        ensures all { (s put : List ℕ)
            → StandsAfter (A.answers (A.options answerer.old))
            (A.kept_len (A.options answerer.old)) false s put self.old
            → OnOk result (StandsAfter (A.answers (A.options answerer.old))
            (A.kept_len (A.options answerer.old)) false (s ++ octets.now) put self.new) }
        ensures some { (s put : List ℕ)
            → StandsAfter (A.answers (A.options answerer.old))
            (A.kept_len (A.options answerer.old)) false s put self.old
            → IfErr result (StopsAfter (A.answers (A.options answerer.old))
            (A.kept_len (A.options answerer.old)) s octets.now put self.new) }
    {
        let mut at = 0;
        'lines: while at < octets.len() {
            at += self.feed_line(answerer, &octets[at..])?;
        }
        Ok(())
    }

    /// Reads the octets up to the first line feed, and returns how many it read.
    #[inline(always)]
    fn feed_line<A: AnswerLines>(
        &mut self,
        answerer: &mut A,
        octets: &[u8],
    ) -> Result<usize, RunFault>
        ensures same { A.options answerer.new ≡ A.options answerer.old }
        ensures bound { IfOk result (λ n. n ≤ length octets.now) }
        ensures more { 0 < length octets.now → IfOk result (λ n. 0 < n) }
        ensures done { (s put : List ℕ)
            → StandsAfter (A.answers (A.options answerer.old))
            (A.kept_len (A.options answerer.old)) false s put self.old
            → IfOk result (λ n. StandsAfter (A.answers (A.options answerer.old))
            (A.kept_len (A.options answerer.old)) false (s ++ take n octets.now) put self.new) }
        ensures some { (s put : List ℕ)
            → StandsAfter (A.answers (A.options answerer.old))
            (A.kept_len (A.options answerer.old)) false s put self.old
            → IfErr result (StopsAfter (A.answers (A.options answerer.old))
            (A.kept_len (A.options answerer.old)) s octets.now put self.new) }
    {
        let size = line_size(octets);
        self.keep(answerer.kept_len(), &octets[..size])?;
        if size == octets.len() {
            return Ok(size);
        }
        let verdict = self.end_line(answerer)?;
        if verdict.is_last() {
            return Err(RunFault::NotReported);
        }
        Ok(size + 1)
    }

    /// Keeps octets of the line, unless as many are there as are kept of one.
    #[inline(always)]
    fn keep(&mut self, most: usize, octets: &[u8]) -> Result<(), AllocError>
        ensures kept { (rest : List ℕ) → self.old.part.items ≡ take most rest
            → OnOk result (self.new.part.items ≡ take most (rest ++ octets.now)) }
        ensures same { OnErr result (self.new.part.items ≡ self.old.part.items) }
        ensures ready { self.new.ready.items ≡ self.old.ready.items }
        ensures good { self.new.is_good ≡ self.old.is_good }
    {
        let room = most.saturating_sub(self.part.len());
        if octets.len() <= room {
            self.part.extend_from_slice(octets)
        } else {
            self.part.extend_from_slice(&octets[..room])
        }
    }

    /// Makes the result of the line that was read.
    ///
    /// # Errors
    ///
    /// Out of memory. Nothing has changed.
    pub fn end_line<A: AnswerLines>(&mut self, answerer: &mut A) -> Result<LineVerdict, AllocError>
        ensures options { A.options answerer.new ≡ A.options answerer.old }
        ensures answers { IfOk result (λ verdict.
            IsAnswered (A.answers (A.options answerer.old)) (A.kept_len (A.options answerer.old))
            self.old.part.items verdict self.old self.new) }
        ensures same { OnErr result (IsSame self.old self.new) }
    {
        let verdict = answerer.answer(&self.part, &mut self.ready)?;
        self.is_good = self.is_good && verdict.is_good();
        self.part.clear();
        Ok(verdict)
    }
}

/// The number of octets that come before the first line feed, or all where there is no line feed.
#[inline(always)]
fn line_size(octets: &[u8]) -> usize
    ensures bound { result ≤ length octets.now }
    ensures clean { has_line_end (take result octets.now) ≡ false }
    ensures stops { result < length octets.now → slice_index octets.now result ≡ 10 }
{
    'octets: for i in 0..octets.len() {
        if octets[i] == b'\n' {
            return i;
        }
    }
    octets.len()
}
