//! Writers of the output for the messages of an input.
ghost use Rattle.std.specs.Prelude.{◌≡◌, ℕ, Bool, List, Option, IfOk, IfErr, OnOk, IsTrue};
ghost use Rattle.ill_schema.specs.Profiles.{profile_of};
ghost use Rattle.ill_tables.specs.declared.profile.Profile.{Profile as Named};
ghost use Rattle.ill_normal.specs.Entries.{Entry, Puts, accepted, refused};
ghost use Rattle.ill_normal.specs.Messages.{Spelling, spelling};
ghost use Rattle.ill_normal.specs.ReadMessages.{IsMessage};
ghost use Rattle.ill_normal.specs.Breaking.{BreaksSink};
ghost use Rattle.ill_normal.specs.declared.message_reader.Wants.{Wants};
ghost use Rattle.ill_normal.specs.declared.write_items.PutError.{PutError};

use crate::message_reader::{ReadMessage, Wants};
use crate::messages::MessagePlace;
use crate::report::RefusalReport;
use ber_core::Sink;
use ill_schema::Profile;
use std::alloc::{AllocError, Global};

/// The output for an accepted message, as it was written.
#[derive(Clone, Copy, Debug, PartialEq, Eq)]
pub struct Written {
    /// The number of its octets.
    pub octets: u64,
    /// True if the message is as it should be.
    pub is_good: bool,
}

/// The reason why output was not written whole.
#[derive(Clone, Copy, Debug, PartialEq, Eq)]
pub enum PutError {
    OutOfMemory,
    /// The sink broke after this many octets of the entry.
    Broken(u64),
}

impl From<AllocError> for PutError {
    ghost from_gives = { λ _ error. error ≡ PutError.OutOfMemory };

    fn from(_error: AllocError) -> PutError {
        PutError::OutOfMemory
    }
}

/// A writer: it puts the output for each message of an input into a sink.
pub trait WriteItems {
    /// The options that say what is written. They stay as they are.
    type Options;

    // The options of a writer.
    ghost options: { Self → Self.Options };

    // The condition for writing.
    ghost is_ready: { Self → Type 0 };

    // The profile that messages are read in.
    ghost reads: { Self.Options → Named };

    // What is kept of each message.
    ghost needs: { Self.Options → Wants };

    // These octets may be written of an entry, and count as this number.
    ghost writes: { Self.Options → Entry → ℕ → List ℕ → Type 0 };

    // What the sink held and holds where an entry was not written whole, for this reason.
    ghost fails: { Self.Options → Entry → PutError → Option (List ℕ) → Option (List ℕ)
        → Type 0 };

    // True if a message is as it should be.
    ghost is_good: { Self.Options → Spelling → Bool };

    /// The allocator.
    fn alloc(&self) -> Global;

    /// The profile that messages are read in.
    fn profile(&self) -> Profile
        ensures { result ≡ reads (options self.now) };

    /// What is kept of each message.
    fn wants(&self) -> Wants
        ensures { result ≡ needs (options self.now) };

    /// Puts the output for an accepted message. This may use the message's memory.
    ///
    /// # Errors
    ///
    /// Out of memory, or the sink is broken.
    fn accepted<W: Sink>(
        &mut self,
        place: MessagePlace,
        message: &mut ReadMessage,
        sink: &mut W,
    ) -> Result<Written, PutError>
        requires { is_ready self.old }
        ensures ready { OnOk result (is_ready self.new) }
        ensures same { options self.new ≡ options self.old }
        ensures puts { (octets : List ℕ)
            → (h : IsMessage (profile_of (reads (options self.old))) (needs (options self.old))
            message.old octets)
            → IfOk result (λ written. (written.is_good ≡ is_good (options self.old)
            (spelling h.apdu octets)) × Puts (writes (options self.old))
            (accepted place (spelling h.apdu octets)) written.octets (W.contents sink.old)
            (W.contents sink.new)) }
        ensures fails { (octets : List ℕ)
            → (h : IsMessage (profile_of (reads (options self.old))) (needs (options self.old))
            message.old octets)
            → IfErr result (λ e. fails (options self.old) (accepted place (spelling h.apdu octets))
            e (W.contents sink.old) (W.contents sink.new)
            × BreaksSink (W.is_broken sink.new) e) }
        ensures stays { IsTrue (W.is_broken sink.old) → IsTrue (W.is_broken sink.new) };

    /// Puts the output for a refused message, of which there are these octets, and returns how many octets were written.
    ///
    /// # Errors
    ///
    /// Out of memory, or the sink is broken.
    fn refused<W: Sink>(
        &mut self,
        report: RefusalReport,
        octets: &[u8],
        sink: &mut W,
    ) -> Result<u64, PutError>
        requires { is_ready self.old }
        ensures ready { OnOk result (is_ready self.new) }
        ensures same { options self.new ≡ options self.old }
        ensures puts { IfOk result (λ n. Puts (writes (options self.old))
            (refused report octets.now) n (W.contents sink.old) (W.contents sink.new)) }
        ensures fails { IfErr result (λ e. fails (options self.old) (refused report octets.now)
            e (W.contents sink.old) (W.contents sink.new)
            × BreaksSink (W.is_broken sink.new) e) }
        ensures stays { IsTrue (W.is_broken sink.old) → IsTrue (W.is_broken sink.new) };
}
