//! The messages of an input.
ghost use Rattle.std.specs.Prelude.{◌≡◌, ◌↔◌, IsTrue};
ghost use Rattle.ill_schema.specs.Profiles.{profile_of};
ghost use Rattle.ill_normal.specs.Calls.{putting, taking};
ghost use Rattle.ill_normal.specs.Reading.{ReadsInput, reporting};

use crate::counts::Counts;
use crate::item_loop::read_items;
use crate::report::ReportRefusals;
use crate::write_items::WriteItems;
use ber_core::{FromSlice, Sink, Source};
use ill_inputs::{RunFault, read_hex};

/// The number of messages that an input may have.
pub const MAX_MESSAGES: u32 = 1_000_000;

/// The place of a message in its input.
#[derive(Clone, Copy, Debug, PartialEq, Eq)]
pub struct MessagePlace {
    /// Its number, from 1.
    pub number: u32,
    /// The number of octets that come before it; 18,446,744,073,709,551,615 where they are more.
    pub offset: u64,
}

/// What is done at a message that is refused.
#[derive(Clone, Copy, Debug, PartialEq, Eq)]
pub enum OnRefusal {
    /// The work stops: no octet after the place is taken, and nothing is written of the message.
    Stop,
    /// The rest of its element is taken, the message is written, and the work ends.
    EndWith,
    /// The message is written and reported, and the work goes on after its end, as its framing gives it: its outermost element ends where its
    /// length says, or with its end mark. Where the end can't be known, the report says so, and that was the last message.
    GoOn,
}

/// The options of reading an input.
#[derive(Clone, Copy, Debug, PartialEq, Eq)]
pub struct Reading {
    /// True if the input is hexadecimal text.
    pub hex: bool,
    pub on_refusal: OnRefusal,
    /// The number of the one message that is asked for, with which the work ends; None where each is.
    pub only: Option<u32>,
}

impl Reading {
    /// Tells whether no message after this many is asked for.
    #[inline(always)]
    pub(crate) fn ends_after(&self, count: u32) -> bool
        ensures { IsTrue result ↔ (self.now.only ≡ Some count) }
    {
        match self.only {
            Some(only) => only == count,
            None => false,
        }
    }
}

/// The end of the work on the messages of an input.
#[derive(Clone, Copy, Debug, PartialEq, Eq)]
pub struct StreamEnd {
    /// The messages that were read. A refused one with which the work ended counts.
    pub counts: Counts,
    /// The reason why the input was not read to its end, or to the last message that is asked for. Where the work goes on, `Refused` says that the
    /// end of the last message is unknown.
    pub fault: Option<RunFault>,
}

/// Reads the messages of an input, one after another up to its end, and has `writer` write each. Hexadecimal text is read whole
/// first.
///
/// ```
/// let end = read_input(reading, &mut writer, source, sink, reports);
/// ```
pub fn read_input<I: WriteItems, R: Source, W: Sink, T: ReportRefusals>(
    reading: Reading,
    writer: &mut I,
    source: &mut R,
    sink: &mut W,
    reports: &mut T,
) -> StreamEnd
    requires { I.is_ready writer.old }
    ensures reads { ReadsInput reading.hex reading (profile_of (I.reads (I.options writer.old)))
        (I.writes (I.options writer.old)) (I.fails (I.options writer.old))
        (I.is_good (I.options writer.old))
        (taking (R.left source.old) (R.left source.new) (R.is_broken source.new))
        (putting (W.contents sink.old) (W.contents sink.new) (W.is_broken sink.new))
        (reporting (T.reported reports.old) (T.reported reports.new)) result }
    ensures same { I.options writer.new ≡ I.options writer.old }
    ensures source_stays { IsTrue (R.is_broken source.old) → IsTrue (R.is_broken source.new) }
    ensures sink_stays { IsTrue (W.is_broken sink.old) → IsTrue (W.is_broken sink.new) }
{
    if !reading.hex {
        return read_items(reading, writer, source, sink, reports);
    }
    match read_hex(writer.alloc(), source) {
        Ok(octets) => {
            let mut text = FromSlice::new(&octets);
            read_items(reading, writer, &mut text, sink, reports)
        }
        Err(fault) => StreamEnd {
            counts: Counts::none(),
            fault: Some(fault),
        },
    }
}
