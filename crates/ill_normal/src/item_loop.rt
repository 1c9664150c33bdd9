//! The loop over the messages of an input.
ghost use Rattle.std.specs.Prelude.{◌≡◌, ◌≢◌, ℕ, ◌+◌, ◌<◌, Bool, List, Option, OnOk, IsTrue};
ghost use Rattle.std.specs.Io.KnownBytes.{Consumes};
ghost use Rattle.ill_schema.specs.Profiles.{profile_of};
ghost use Rattle.ill_read.specs.Answers.{TakesFront};
ghost use Rattle.ill_normal.specs.Calls.{putting, taking};
ghost use Rattle.ill_normal.specs.Counting.{no_counts};
ghost use Rattle.ill_normal.specs.Items.{ComesWith, report as report_at};
ghost use Rattle.ill_normal.specs.Messages.{position};
ghost use Rattle.ill_normal.specs.Next.{IsNextRefused};
ghost use Rattle.ill_normal.specs.ReadMessages.{IsMessage};
ghost use Rattle.ill_normal.specs.Reading.{ReadsItems, RefusesRest, reporting};
ghost use Rattle.ill_normal.specs.code.Loop.{Ends, IsCounted, Steps, fault_of, stream_end, streams, with_last_refused};
ghost use Rattle.ill_normal.specs.declared.messages.OnRefusal.{OnRefusal as Mode};
ghost use Rattle.ill_normal.specs.declared.report.RefusalReport.{RefusalReport as Report};

use crate::counts::Counts;
use crate::message_reader::MessageReader;
use crate::messages::{MAX_MESSAGES, OnRefusal, Reading, StreamEnd};
use crate::next_message::{NextMessage, take_message};
use crate::report::{RefusalReport, ReportRefusals};
use crate::rest::take_rest;
use crate::write_items::{PutError, WriteItems};
use ber_core::{Sink, Source};
use ill_inputs::{RunFault, end_of_input};
use ill_read::ReadFailure;
use ill_schema::Refusal;
use std::alloc::{AllocError, Global};

/// Reads the messages of an input of octets, one after another, and has `writer` write each. One message is held at a time; its memory is used
/// again for the next one.
pub fn read_items<I: WriteItems, R: Source, W: Sink, T: ReportRefusals>(
    reading: Reading,
    writer: &mut I,
    source: &mut R,
    sink: &mut W,
    reports: &mut T,
) -> StreamEnd
    requires { I.is_ready writer.old }
    ensures reads { ReadsItems reading (profile_of (I.reads (I.options writer.old)))
        (I.writes (I.options writer.old)) (I.fails (I.options writer.old))
        (I.is_good (I.options writer.old))
        (taking (R.left source.old) (R.left source.new) (R.is_broken source.new))
        (putting (W.contents sink.old) (W.contents sink.new) (W.is_broken sink.new))
        (reporting (T.reported reports.old) (T.reported reports.new)) result }
    ensures same { I.options writer.new ≡ I.options writer.old }
    ensures source_stays { IsTrue (R.is_broken source.old) → IsTrue (R.is_broken source.new) }
    ensures sink_stays { IsTrue (W.is_broken sink.old) → IsTrue (W.is_broken sink.new) }
{
    let mut work = ItemLoop::new(writer.alloc(), reading);
    for before in 0..MAX_MESSAGES {
        if reading.ends_after(before) {
            return work.ended(None);
        }
        match work.step(writer, source, sink, reports) {
            Ok(()) => {}
            Err(end) => return end,
        }
    }
    if reading.ends_after(MAX_MESSAGES) {
        return work.ended(None);
    }
    match end_of_input(source) {
        Ok(()) => work.ended(None),
        Err(fault) => work.ended(Some(fault)),
    }
}

/// The work on the messages of an input, as far as it has come.
#[derive(Drop)]
struct ItemLoop {
    reading: Reading,
    reader: MessageReader,
    /// The first octets of an element.
    recorded: Vec<u8>,
    counts: Counts,
}

impl ItemLoop {
    fn new(alloc: Global, reading: Reading) -> ItemLoop
        ensures reading { result.reading ≡ reading }
        ensures none { result.counts ≡ no_counts }
    {
        ItemLoop {
            reading,
            reader: MessageReader::new(alloc),
            recorded: Vec::new(alloc),
            counts: Counts::none(),
        }
    }

    /// Reads the next message, and has it written. Where the work goes on after refused messages, its element is taken first, and a refused one is
    /// written and reported.
    #[inline(always)]
    fn step<I: WriteItems, R: Source, W: Sink, T: ReportRefusals>(
        &mut self,
        writer: &mut I,
        source: &mut R,
        sink: &mut W,
        reports: &mut T,
    ) -> Result<(), StreamEnd>
        requires ready { I.is_ready writer.old }
        requires few { self.old.counts.messages < 1_000_000 }
        requires counted { IsCounted self.old.counts }
        ensures steps { Steps self.old.reading (profile_of (I.reads (I.options writer.old)))
            (I.writes (I.options writer.old)) (I.fails (I.options writer.old))
            (I.is_good (I.options writer.old))
            (streams (R.left source.old) (R.is_broken source.old) (W.contents sink.old)
            (W.is_broken sink.old) (T.reported reports.old))
            (streams (R.left source.new) (R.is_broken source.new) (W.contents sink.new)
            (W.is_broken sink.new) (T.reported reports.new))
            self.old.counts self.new.counts result }
        ensures counted { OnOk result (IsCounted self.new.counts) }
        ensures one { OnOk result (self.new.counts.messages ≡ self.old.counts.messages + 1) }
        ensures ready { OnOk result (I.is_ready writer.new) }
        ensures options { I.options writer.new ≡ I.options writer.old }
        ensures reading { self.new.reading ≡ self.old.reading }
        ensures source_stays { IsTrue (R.is_broken source.old)
            → IsTrue (R.is_broken source.new) }
        ensures sink_stays { IsTrue (W.is_broken sink.old) → IsTrue (W.is_broken sink.new) }
    {
        if let OnRefusal::GoOn = self.reading.on_refusal {
            return match take_message(
                writer.profile(),
                writer.wants(),
                &mut self.reader,
                source,
                &mut self.recorded,
            ) {
                Ok(NextMessage::Read) => self.write_accepted(writer, sink),
                Ok(NextMessage::Refused { refusal, end }) => {
                    let report = RefusalReport::new(self.counts.next_place(), refusal, end);
                    self.write_refused(report, writer, sink, reports)
                }
                Ok(NextMessage::AtEnd) => Err(self.ended(None)),
                Err(fault) => Err(self.ended(Some(fault))),
            };
        }
        match self.reader.read(writer.profile(), writer.wants(), source) {
            Ok(Some(_)) => self.write_accepted(writer, sink),
            Ok(None) => Err(self.ended(None)),
            Err(ReadFailure::Refused(refusal)) => {
                Err(self.end_with(refusal, writer, source, sink))
            }
            Err(ReadFailure::OutOfMemory) => Err(self.ended(Some(RunFault::OutOfMemory))),
            Err(ReadFailure::ReadFault) => Err(self.ended(Some(RunFault::ReadFault))),
        }
    }

    /// Has the message written that was read.
    #[inline(always)]
    fn write_accepted<I: WriteItems, W: Sink>(
        &mut self,
        writer: &mut I,
        sink: &mut W,
    ) -> Result<(), StreamEnd>
        requires ready { I.is_ready writer.old }
        requires few { self.old.counts.messages < 1_000_000 }
        requires counted { IsCounted self.old.counts }
        ensures steps { (octets : List ℕ) (left now : Option (List ℕ)) (u v : Bool)
            (r : Option (List Report)) → IsMessage (profile_of (I.reads (I.options writer.old)))
            (I.needs (I.options writer.old)) self.old.reader.message octets
            → Consumes left now octets
            → Steps self.old.reading (profile_of (I.reads (I.options writer.old)))
            (I.writes (I.options writer.old)) (I.fails (I.options writer.old))
            (I.is_good (I.options writer.old))
            (streams left u (W.contents sink.old) (W.is_broken sink.old) r)
            (streams now v (W.contents sink.new) (W.is_broken sink.new) r)
            self.old.counts self.new.counts result }
        ensures counted { OnOk result (IsCounted self.new.counts) }
        ensures one { OnOk result (self.new.counts.messages ≡ self.old.counts.messages + 1) }
        ensures ready { OnOk result (I.is_ready writer.new) }
        ensures options { I.options writer.new ≡ I.options writer.old }
        ensures reading { self.new.reading ≡ self.old.reading }
        ensures sink_stays { IsTrue (W.is_broken sink.old) → IsTrue (W.is_broken sink.new) }
    {
        let len = self.reader.message.len;
        let place = self.counts.next_place();
        match writer.accepted(place, &mut self.reader.message, sink) {
            Ok(written) => {
                self.counts = self
                    .counts
                    .with_accepted(len, written.is_good, written.octets);
                Ok(())
            }
            Err(error) => Err(self.unwritten(error)),
        }
    }

    /// Has a refused message written, whose first octets were recorded, and reports it.
    fn write_refused<I: WriteItems, W: Sink, T: ReportRefusals>(
        &mut self,
        report: RefusalReport,
        writer: &mut I,
        sink: &mut W,
        reports: &mut T,
    ) -> Result<(), StreamEnd>
        requires ready { I.is_ready writer.old }
        requires few { self.old.counts.messages < 1_000_000 }
        requires counted { IsCounted self.old.counts }
        requires on { self.old.reading.on_refusal ≡ Mode.GoOn }
        requires comes { ComesWith report self.old.recorded.items }
        requires place { report ≡ report_at (position (self.old.counts.messages + 1)
            self.old.counts.octets) report.refusal report.octets }
        ensures steps { (left now : Option (List ℕ)) (u v : Bool)
            → IsNextRefused (profile_of (I.reads (I.options writer.old))) left now
            self.old.recorded.items report.refusal report.octets
            → Steps self.old.reading (profile_of (I.reads (I.options writer.old)))
            (I.writes (I.options writer.old)) (I.fails (I.options writer.old))
            (I.is_good (I.options writer.old))
            (streams left u (W.contents sink.old) (W.is_broken sink.old) (T.reported reports.old))
            (streams now v (W.contents sink.new) (W.is_broken sink.new) (T.reported reports.new))
            self.old.counts self.new.counts result }
        ensures counted { OnOk result (IsCounted self.new.counts) }
        ensures one { OnOk result (self.new.counts.messages ≡ self.old.counts.messages + 1) }
        ensures ready { OnOk result (I.is_ready writer.new) }
        ensures options { I.options writer.new ≡ I.options writer.old }
        ensures reading { self.new.reading ≡ self.old.reading }
        ensures sink_stays { IsTrue (W.is_broken sink.old) → IsTrue (W.is_broken sink.new) }
    {
        let written = match writer.refused(report, self.recorded.as_slice(), sink) {
            Ok(written) => written,
            Err(error) => return Err(self.unwritten(error)),
        };
        match reports.report(report, self.recorded.as_slice()) {
            Ok(()) => {}
            Err(fault) => return Err(self.ended(Some(fault))),
        }
        match report.octets {
            Some(octets) => {
                self.counts = self.counts.with_refused(octets, written);
                Ok(())
            }
            None => Err(self.ended_with(report.refusal)),
        }
    }

    /// Ends the work with a message that is refused. It is written, unless the work stops there; of one that isn't asked for nothing more is taken.
    fn end_with<I: WriteItems, R: Source, W: Sink>(
        &mut self,
        refusal: Refusal,
        writer: &mut I,
        source: &mut R,
        sink: &mut W,
    ) -> StreamEnd
        requires ready { I.is_ready writer.old }
        requires few { self.old.counts.messages < 1_000_000 }
        requires counted { IsCounted self.old.counts }
        requires ends { self.old.reading.on_refusal ≢ Mode.GoOn }
        ensures ends { (left : Option (List ℕ)) (u : Bool) (r : Option (List Report))
            → RefusesRest (profile_of (I.reads (I.options writer.old))) left refusal
            → TakesFront left (R.left source.old)
            → Ends self.old.reading (profile_of (I.reads (I.options writer.old)))
            (I.writes (I.options writer.old)) (I.fails (I.options writer.old))
            (I.is_good (I.options writer.old))
            (streams left u (W.contents sink.old) (W.is_broken sink.old) r)
            (streams (R.left source.new) (R.is_broken source.new) (W.contents sink.new)
            (W.is_broken sink.new) r) self.old.counts result }
        ensures options { I.options writer.new ≡ I.options writer.old }
        ensures reading { self.new.reading ≡ self.old.reading }
        ensures source_stays { IsTrue (R.is_broken source.old)
            → IsTrue (R.is_broken source.new) }
        ensures sink_stays { IsTrue (W.is_broken sink.old) → IsTrue (W.is_broken sink.new) }
    {
        if let OnRefusal::Stop = self.reading.on_refusal {
            return self.ended_with(refusal);
        }
        let report = RefusalReport::new(self.counts.next_place(), refusal, None);
        match self.take_refused(source) {
            Ok(()) => {}
            Err(AllocError) => return self.ended(Some(RunFault::OutOfMemory)),
        }
        match writer.refused(report, self.reader.message.spelled.as_slice(), sink) {
            Ok(_) => self.ended_with(refusal),
            Err(error) => self.unwritten(error),
        }
    }

    /// Takes the rest of a refused message, if it is asked for.
    fn take_refused<R: Source>(&mut self, source: &mut R) -> Result<(), AllocError>
        requires few { self.old.counts.messages < 1_000_000 }
        ensures counts { self.new.counts ≡ self.old.counts }
        ensures reading { self.new.reading ≡ self.old.reading }
        ensures source_stays { IsTrue (R.is_broken source.old)
            → IsTrue (R.is_broken source.new) }
    {
        match self.reading.only {
            Some(only) if only != self.counts.messages + 1 => Ok(()),
            _ => take_rest(source, &mut self.reader.message.spelled),
        }
    }

    /// The end of the work here.
    #[inline(always)]
    fn ended(&self, fault: Option<RunFault>) -> StreamEnd
        ensures { result ≡ stream_end self.now.counts fault }
    {
        StreamEnd {
            counts: self.counts,
            fault,
        }
    }

    /// The end of the work with the next message, which is refused.
    fn ended_with(&self, refusal: Refusal) -> StreamEnd
        requires few { self.now.counts.messages < 1_000_000 }
        requires counted { IsCounted self.now.counts }
        ensures { result ≡ with_last_refused self.now.counts refusal }
    {
        StreamEnd {
            counts: self.counts.with_last(),
            fault: Some(RunFault::Refused {
                message: self.counts.messages + 1,
                refusal,
            }),
        }
    }

    /// The end of the work where the output for the next message was not written whole.
    fn unwritten(&self, error: PutError) -> StreamEnd
        requires few { self.now.counts.messages < 1_000_000 }
        requires counted { IsCounted self.now.counts }
        ensures { result ≡ stream_end self.now.counts (fault_of self.now.counts.written error) }
    {
        let fault = match error {
            PutError::OutOfMemory => RunFault::OutOfMemory,
            PutError::Broken(count) => RunFault::WriteFault(
                self.counts.written + u128::from(count),
            ),
        };
        self.ended(Some(fault))
    }
}
