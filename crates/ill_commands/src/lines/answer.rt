//! Answers to lines.
ghost use Rattle.std.specs.Prelude.{◌≡◌, ◌++◌, ◌<◌, ℕ, List, take, IfOk, OnErr};
ghost use Rattle.ill_commands.specs.declared.lines.answer.LineVerdict.{LineVerdict as VerdictOf};

use std::alloc::AllocError;

/// The verdict on a line.
#[derive(Clone, Copy, Debug, PartialEq, Eq)]
pub enum LineVerdict {
    Good,
    NotGood,
    /// The line is not good, and the work ends with it.
    Last,
}

impl LineVerdict {
    ghost use Rattle.std.specs.Prelude.{◌≡◌};
    ghost use Rattle.ill_commands.specs.Lines.{is_good, is_last};

    /// Tells whether the line is good.
    pub fn is_good(self) -> bool
        ensures { result ≡ is_good self }
    {
        matches!(self, LineVerdict::Good)
    }

    /// Tells whether the work ends with the line.
    pub fn is_last(self) -> bool
        ensures { result ≡ is_last self }
    {
        matches!(self, LineVerdict::Last)
    }
}

/// A source of answers to the lines of an input.
pub trait AnswerLines {
    /// The options that say which answers there are. They stay as they are.
    type Options;

    // The options of a source of answers.
    ghost options: { Self → Self.Options };

    // A line of this text may have this result and this verdict.
    ghost answers: { Self.Options → List ℕ → List ℕ → VerdictOf → Type 0 };

    // The number of octets of a line that are kept. They are enough to answer it.
    ghost kept_len: { Self.Options → ℕ };

    // There is one at least.
    ghost keeps_some: { (options : Self.Options) → 0 < kept_len options };

    /// The number of octets of a line that are kept.
    fn kept_len(&self) -> usize
        ensures { result ≡ kept_len (options self.now) };

    /// Appends the result of a line of which this was kept, and returns the verdict.
    ///
    /// # Errors
    ///
    /// Out of memory. Nothing was appended.
    fn answer(&mut self, kept: &[u8], results: &mut Vec<u8>) -> Result<LineVerdict, AllocError>
        ensures same { options self.new ≡ options self.old }
        ensures answers { IfOk result (λ verdict. (own : List ℕ)
            × (results.new.items ≡ results.old.items ++ own)
            × ((line : List ℕ) → kept.now ≡ take (kept_len (options self.old)) line
            → answers (options self.old) line own verdict)) }
        ensures fails { OnErr result (results.new.items ≡ results.old.items) };
}
