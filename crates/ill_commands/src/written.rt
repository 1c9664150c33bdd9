//! The output for a message.
ghost use Rattle.std.specs.Prelude.{◌≡◌, ℕ, ◌<◌, List, length, take, IfOk, IfErr, IsErr, IsTrue, OnOk};
ghost use Rattle.std.specs.Io.KnownBytes.{Appends};
ghost use Rattle.ill_commands.specs.code.Writing.{IsShown, IsWritten};

use ber_core::{Sink, put_all};
use ill_read::Outline;
use ill_text::Text;
use std::alloc::Global;

/// A message, as it is rendered.
#[derive(Drop)]
pub struct RenderedMessage {
    /// The output for it.
    pub text: JobOutput,
    /// True if the message is as it should be.
    pub is_good: bool,
}

/// The output for a message: octets that were made, or the text of an outline, of which only the beginning of the first line is held.
#[derive(Drop)]
pub enum JobOutput {
    Octets(Vec<u8>),
    Shown { label: Vec<u8>, text: Text },
}

impl JobOutput {
    /// Memory for octets.
    #[inline(always)]
    pub fn into_octets(self) -> Vec<u8> {
        match self {
            JobOutput::Octets(octets) => octets,
            JobOutput::Shown { label, .. } => label,
        }
    }

    /// Memory for octets and for an outline.
    pub fn into_both(self, alloc: Global) -> (Vec<u8>, Outline) {
        match self {
            JobOutput::Octets(octets) => (octets, Outline::new(alloc)),
            JobOutput::Shown { label, text } => (label, text.into_outline()),
        }
    }
}

impl JobOutput {
    /// Holds nothing, and takes no memory yet.
    #[inline(always)]
    pub fn empty(alloc: Global) -> JobOutput {
        JobOutput::Octets(Vec::new(alloc))
    }

    /// Puts the octets into the sink, and returns how many they are. That takes no memory.
    ///
    /// # Errors
    ///
    /// The number of octets that the sink took, the first ones, where it breaks. They are not all.
    #[inline(always)]
    pub fn put<W: Sink>(&self, sink: &mut W) -> Result<usize, usize>
        ensures all { (octets : List ℕ) → IsWritten self.now octets
            → OnOk result (Appends (W.contents sink.old) (W.contents sink.new) octets) }
        ensures count { (octets : List ℕ) → IsWritten self.now octets
            → IfOk result (λ n. n ≡ length octets) }
        ensures some { (octets : List ℕ) → IsWritten self.now octets
            → IfErr result (λ n. Appends (W.contents sink.old) (W.contents sink.new)
            (take n octets)) }
        ensures fewer { (octets : List ℕ) → IsWritten self.now octets
            → IfErr result (λ n. n < length octets) }
        ensures breaks { (octets : List ℕ) → IsWritten self.now octets → IsErr result
            → IsTrue (W.is_broken sink.new) }
        ensures stays { IsTrue (W.is_broken sink.old) → IsTrue (W.is_broken sink.new) }
    {
        match self {
            JobOutput::Octets(octets) => match put_all(sink, octets) {
                Ok(()) => Ok(octets.len()),
                Err(count) => Err(count),
            },
            JobOutput::Shown { label, text } => put_shown(label, text, sink),
        }
    }
}

/// Puts a text after a label. That takes no memory.
#[inline(never)]
fn put_shown<W: Sink>(label: &[u8], text: &Text, sink: &mut W) -> Result<usize, usize>
    ensures all { (octets : List ℕ) → IsShown label.now text.now octets
        → OnOk result (Appends (W.contents sink.old) (W.contents sink.new) octets) }
    ensures count { (octets : List ℕ) → IsShown label.now text.now octets
        → IfOk result (λ n. n ≡ length octets) }
    ensures some { (octets : List ℕ) → IsShown label.now text.now octets
        → IfErr result (λ n. Appends (W.contents sink.old) (W.contents sink.new) (take n octets)) }
    ensures fewer { (octets : List ℕ) → IsShown label.now text.now octets
        → IfErr result (λ n. n < length octets) }
    ensures breaks { (octets : List ℕ) → IsShown label.now text.now octets → IsErr result
        → IsTrue (W.is_broken sink.new) }
    ensures stays { IsTrue (W.is_broken sink.old) → IsTrue (W.is_broken sink.new) }
{
    put_all(sink, label)?;
    match text.put(sink) {
        Ok(count) => Ok(label.len().saturating_add(count)),
        Err(count) => Err(label.len().saturating_add(count)),
    }
}
