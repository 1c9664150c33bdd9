//! Counts of the messages of an input.
ghost use Rattle.std.specs.Prelude.{◌≡◌, ◌+◌, ◌*◌, ◌^◌, ◌<◌, ◌≤◌, ◌==◌};
ghost use Rattle.ill_normal.specs.Counting.{no_counts, with_accepted, with_last, with_refused};
ghost use Rattle.ill_normal.specs.Messages.{position};

use crate::messages::MessagePlace;

/// Counts of the messages of an input, as far as it was read.
#[derive(Clone, Copy, Debug, PartialEq, Eq)]
pub struct Counts {
    /// The number of messages, refused ones included.
    pub messages: u32,
    /// The number of those that are refused.
    pub refused: u32,
    /// The number of the others that are as they should be.
    pub good: u32,
    /// The number of octets that the messages have whose ends are known; 18,446,744,073,709,551,615 where they are more.
    pub octets: u64,
    /// The number of octets that were written of these messages.
    pub written: u128,
}

impl Counts {
    /// No message.
    pub const NONE: Counts = Counts {
        messages: 0,
        refused: 0,
        good: 0,
        octets: 0,
        written: 0,
    };

    /// Counts nothing.
    pub(crate) fn none() -> Counts
        ensures { result ≡ no_counts }
    {
        Counts::NONE
    }

    /// Tells whether all messages that are not refused are as they should be.
    ///
    /// ```
    /// let verdict = verdict_if(end.counts.refused == 0 && end.counts.are_all_good());
    /// ```
    pub fn are_all_good(self) -> bool
        ensures { result ≡ (self.refused + self.good == self.messages) }
    {
        u64::from(self.refused) + u64::from(self.good) == u64::from(self.messages)
    }

    /// The place of the next message.
    ///
    /// ```
    /// let place = counts.next_place();
    /// ```
    #[inline(always)]
    pub fn next_place(self) -> MessagePlace
        requires few { self.messages < 1_000_000 }
        ensures { result ≡ position (self.messages + 1) self.octets }
    {
        MessagePlace {
            number: self.messages + 1,
            offset: self.octets,
        }
    }

    /// These, and an accepted message of `octets` octets, of whose output `written` octets were put.
    #[inline(always)]
    pub(crate) fn with_accepted(self, octets: u32, is_good: bool, written: u64) -> Counts
        requires sum { self.refused + self.good ≤ self.messages }
        requires few { self.messages < 1_000_000 }
        requires size { self.written ≤ self.messages * 2 ^ 64 }
        ensures { result ≡ with_accepted octets is_good written self }
    {
        Counts {
            messages: self.messages + 1,
            refused: self.refused,
            good: self.good + u32::from(is_good),
            octets: self.octets.saturating_add(u64::from(octets)),
            written: self.written + u128::from(written),
        }
    }

    /// These, and a refused message of `octets` octets, of whose output `written` octets were put.
    #[inline(always)]
    pub(crate) fn with_refused(self, octets: u64, written: u64) -> Counts
        requires sum { self.refused + self.good ≤ self.messages }
        requires few { self.messages < 1_000_000 }
        requires size { self.written ≤ self.messages * 2 ^ 64 }
        ensures { result ≡ with_refused octets written self }
    {
        Counts {
            messages: self.messages + 1,
            refused: self.refused + 1,
            good: self.good,
            octets: self.octets.saturating_add(octets),
            written: self.written + u128::from(written),
        }
    }

    /// These, and a refused message whose end is unknown.
    pub(crate) fn with_last(self) -> Counts
        requires sum { self.refused + self.good ≤ self.messages }
        requires few { self.messages < 1_000_000 }
        ensures { result ≡ with_last self }
    {
        Counts {
            messages: self.messages + 1,
            refused: self.refused + 1,
            ..self
        }
    }
}
