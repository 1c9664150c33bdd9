//! A message that comes in pieces.
ghost use Rattle.std.specs.Prelude.{◌≡◌};
ghost use Rattle.ill_tables.specs.declared.profile.Profile.{Profile};

use crate::failure::Failure;
use crate::reader::{Reader, State};
use crate::value_draft::ValueDraft;
use ill_schema::{Message, Profile};
use std::alloc::Global;
use std::fmt;

/// The progress of a message.
#[derive(Clone, Copy, Debug, PartialEq, Eq)]
pub enum Progress {
    More,
    Done,
}

/// A decoder that is fed a message in pieces.
#[derive(Drop)]
pub struct Decoder {
    reader: Reader<ValueDraft>,
    ghost two: { reader.path.frames.profile ≡ Profile.Two },
}

/// Shows how far the decoder is, and not what it holds.
impl fmt::Debug for Decoder {
    fn fmt<W: fmt::Write>(&self, f: &mut fmt::Formatter<W>) -> fmt::Result {
        f.debug_struct("Decoder")
            .field("at", &self.reader.offset())
            .field("pending", &self.reader.pending_len())
            .finish_non_exhaustive()
    }
}

impl Decoder {
    ghost use Rattle.std.specs.Prelude.{◌≡◌, ℕ, ◌+◌, ◌<◌, ◌≤◌, List, [], ◌++◌, length, IsTrue, Ok, Err, Some};
    ghost use Rattle.ber_tree.specs.Octets.{are_octets};
    ghost use Rattle.ber_leaf.specs.Profile.{profile_two};
    ghost use Rattle.ill_schema.specs.Apdu.{Apdu, Accepts, SpellsApdu};
    ghost use Rattle.ill_schema.specs.declared.message.Message.{Message};
    ghost use Rattle.ill_read.specs.Feeding.{ended, FeedsTo, HasFailedWith, IsDone, IsOpenAfter, IsWholeWith, MayTake, Needs};
    ghost use Rattle.ill_read.specs.OpenElements.{open_in};

    /// An open decoder that nothing was fed. The elements that will be open stand in it, and take no memory.
    #[inline(always)]
    pub fn new(alloc: Global) -> Decoder
        ensures open { IsOpenAfter result [] }
        ensures few { open_in result ≤ 32 }
    {
        Decoder {
            reader: Reader::new(alloc, Profile::Two, ValueDraft::new(alloc)),
        }
    }

    /// The least number of octets that still belong to the message: 1 or more while the decoder is open, and 0 once a message is whole or a
    /// failure was returned.
    #[inline(always)]
    pub fn need(&self) -> u32
        ensures needs { Needs self.now result }
        ensures some { (fed : List ℕ) → IsOpenAfter self.now fed → 0 < result }
        ensures at_least { (fed more : List ℕ) (a : Apdu) (n : ℕ) → IsOpenAfter self.now fed
            → IsTrue (are_octets (fed ++ more))
            → Accepts profile_two (fed ++ more) a n → length fed + result ≤ n }
    {
        self.reader.need()
    }

    /// Takes the next piece, of at most [`need`](Decoder::need) octets, so that it holds none after the message. Returns Done once the
    /// octets that were fed are a message, and More while they may still begin one. A decoder that is whole or has failed needs no octets,
    /// and returns the same again for an empty piece.
    ///
    /// ```text
    /// let mut decoder = Decoder::new(alloc);
    /// while decoder.need() > 0 {
    ///     let piece = input.next(decoder.need())?;
    ///     decoder.feed(piece)?;
    /// }
    /// let message = decoder.finish()?;
    /// ```
    ///
    /// # Errors
    ///
    /// The one fault of the octets that were fed, once no further octet mends it; or out of memory.
    #[inline(always)]
    pub fn feed(&mut self, piece: &[u8]) -> Result<Progress, Failure>
        requires { MayTake self.old piece.now }
        ensures open { (fed : List ℕ) → IsOpenAfter self.old fed
            → FeedsTo self.new (fed ++ piece.now) result }
        ensures done { (fed : List ℕ) (a : Apdu) → IsOpenAfter self.old fed
            → SpellsApdu profile_two a (fed ++ piece.now) → IsDone result }
        ensures whole { (m : Message) → IsWholeWith self.old m → (result ≡ Ok Progress.Done)
            × (self.new ≡ self.old) }
        ensures failed { (failure : Failure) → HasFailedWith self.old failure
            → (result ≡ Err failure) × (self.new ≡ self.old) }
        ensures few { open_in self.new ≤ 32 }
    {
        self.reader.read_piece(piece);
        match self.reader.state() {
            State::Failed(failure) => Err(failure),
            State::Whole => Ok(Progress::Done),
            State::Open => Ok(Progress::More),
        }
    }

    /// The message, once it is whole, or None where nothing was fed.
    ///
    /// # Errors
    ///
    /// The failure that was returned before; or, where some octets were fed and the message isn't whole, Truncated, with their number as
    /// its offset.
    #[inline(always)]
    pub fn finish(self) -> Result<Option<Message>, Failure>
        ensures open { (fed : List ℕ) → IsOpenAfter self fed → result ≡ ended fed }
        ensures whole { (m : Message) → IsWholeWith self m → result ≡ Ok (Some m) }
        ensures failed { (failure : Failure) → HasFailedWith self failure → result ≡ Err failure }
    {
        match self.reader.ended() {
            Ok(true) => Ok(self.reader.into_draft().into_message()),
            Ok(false) => Ok(None),
            Err(failure) => Err(failure),
        }
    }
}
