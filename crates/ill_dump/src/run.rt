//! The messages of an input, one after another.
ghost use Rattle.std.specs.Prelude.{◌≡◌, IsTrue};
ghost use Rattle.ill_normal.specs.Calls.{putting, taking};
ghost use Rattle.ill_normal.specs.Reading.{reporting};
ghost use Rattle.ill_dump.specs.Dumped.{RunsDump, is_chosen};

use crate::write_dump::WriteDump;
use ber_core::{Sink, Source};
use ill_normal::{OnRefusal, Reading, ReportRefusals, StreamEnd, read_input};
use ill_schema::Profile;
use ill_walk::DumpFormat;
use std::alloc::Global;

/// The options of a dump: how an input is read, which of its messages are written, and how the first line of each names it.
#[derive(Clone, Copy, Debug)]
pub struct DumpOptions<'a> {
    /// The profile that messages are read in.
    pub profile: Profile,
    /// True if the input is hexadecimal text.
    pub hex: bool,
    /// The name of the input.
    pub name: &'a str,
    /// True if the first line of a message begins with the name and `: `.
    pub names_input: bool,
    /// The number of the one message that is written, from 1; None where each is.
    pub only: Option<u32>,
    /// The format that messages are written in.
    pub format: DumpFormat,
    /// What is done at a message that is refused.
    pub on_refusal: OnRefusal,
}

impl DumpOptions<'_> {
    /// Tells whether the message of this number is written.
    pub(crate) fn is_chosen(&self, message: u32) -> bool
        ensures { result ≡ is_chosen self.now.only message }
    {
        match self.only {
            Some(number) => number == message,
            None => true,
        }
    }
}

/// Writes the messages of an input as they are spelled, one after another up to its end: for each a line as `check` writes it, and then a
/// line for each element. Of a message that is refused it writes the elements before the place, then the refusal in words, and then the elements
/// from the place on. One message is held at a time, of at most 1,048,576 octets, and its normal form.
///
/// Where one message alone is asked for, those before it are read and not written, and nothing after it is read. Fewer messages than its
/// number say that the input has no such message.
pub fn run_dump<R: Source, W: Sink, T: ReportRefusals>(
    alloc: Global,
    dump: DumpOptions<'_>,
    source: &mut R,
    sink: &mut W,
    reports: &mut T,
) -> StreamEnd
    ensures reads { RunsDump dump.entry
        (taking (R.left source.old) (R.left source.new) (R.is_broken source.new))
        (putting (W.contents sink.old) (W.contents sink.new) (W.is_broken sink.new))
        (reporting (T.reported reports.old) (T.reported reports.new)) result }
    ensures source_stays { IsTrue (R.is_broken source.old) → IsTrue (R.is_broken source.new) }
    ensures sink_stays { IsTrue (W.is_broken sink.old) → IsTrue (W.is_broken sink.new) }
{
    let reading = Reading {
        hex: dump.hex,
        on_refusal: dump.on_refusal,
        only: dump.only,
    };
    let mut writer = WriteDump::new(alloc, dump);
    read_input(reading, &mut writer, source, sink, reports)
}
