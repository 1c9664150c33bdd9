//! The writer of the lines of messages.
ghost use Rattle.std.specs.Prelude.{◌≡◌, ◌++◌, [], IfErr, IsTrue, OnOk, false, true};
ghost use Rattle.std.specs.Io.KnownBytes.{Appends};
ghost use Rattle.ill_normal.specs.Breaking.{BreaksSink};
ghost use Rattle.ill_normal.specs.ReadMessages.{wants};
ghost use Rattle.ill_dump.specs.Dumped.{WritesLines, head};
ghost use Rattle.ill_dump.specs.code.Putting.{BeginsWith, Puts};

use crate::put::{put_check, put_head, put_refused_line};
use crate::run::DumpOptions;
use ber_core::{Sink, put_all};
use ill_normal::{MessagePlace, PutError, ReadMessage, RefusalReport, Wants, WriteItems, Written};
use ill_schema::{Cause, Profile, Refusal};
use ill_walk::{ElementWalk, LineBuffer, Steps, UnjudgedWalk, put_refusal_lines};
use std::alloc::Global;

/// The number of octets that are made before they are written.
const FLUSH_AT: usize = 4096;

/// The tag after the lines of a message, which ends its part of a document.
const END_OF_MESSAGE: &str = "</section>";

/// Writes the lines of each message, if it is one of those that are asked for.
#[derive(Drop)]
pub struct WriteDump<'a> {
    alloc: Global,
    dump: DumpOptions<'a>,
    /// The beginning of a message's first line, until it is written.
    head: LineBuffer,
    /// What comes after it, and is not yet written.
    lines: LineBuffer,
    /// The number of octets of the message that were written.
    written: u64,
}

impl<'a> WriteDump<'a> {
    pub fn new(alloc: Global, dump: DumpOptions<'a>) -> WriteDump<'a>
        ensures dump { result.dump ≡ dump.entry }
        ensures none { result.head.octets.items ≡ [] }
    {
        WriteDump {
            alloc,
            dump,
            head: LineBuffer::new(alloc, dump.format),
            lines: LineBuffer::new(alloc, dump.format),
            written: 0,
        }
    }
}

impl WriteDump<'_> {
    /// Writes the lines of a message.
    fn put_message<W: Sink>(
        &mut self,
        number: u32,
        message: &ReadMessage,
        sink: &mut W,
    ) -> Result<(), PutError>
        ensures begins { OnOk result (BeginsWith (W.contents sink.old) (W.contents sink.new)
            (self.old.head.octets.items ++ head self.old.dump number)) }
        ensures none { OnOk result (self.new.head.octets.items ≡ []) }
        ensures same { self.new.dump ≡ self.old.dump }
        ensures breaks { IfErr result (BreaksSink (W.is_broken sink.new)) }
        ensures stays { IsTrue (W.is_broken sink.old) → IsTrue (W.is_broken sink.new) }
    {
        let octets = message.spelled.as_slice();
        put_head(self.dump, number, &mut self.head)?;
        put_check(self.dump, octets, &message.normal, &mut self.lines)?;
        let mut walk = ElementWalk::new(self.alloc, self.dump.profile, octets.len());
        self.put_elements(&mut walk, octets, sink)?;
        self.lines.tags(END_OF_MESSAGE)?;
        self.flush(sink)
    }

    /// Writes the lines of a message that is refused.
    fn put_refused<W: Sink>(
        &mut self,
        report: RefusalReport,
        octets: &[u8],
        sink: &mut W,
    ) -> Result<(), PutError>
        ensures begins { OnOk result (BeginsWith (W.contents sink.old) (W.contents sink.new)
            (self.old.head.octets.items ++ head self.old.dump report.message)) }
        ensures none { OnOk result (self.new.head.octets.items ≡ []) }
        ensures same { self.new.dump ≡ self.old.dump }
        ensures breaks { IfErr result (BreaksSink (W.is_broken sink.new)) }
        ensures stays { IsTrue (W.is_broken sink.old) → IsTrue (W.is_broken sink.new) }
    {
        let refusal = report.refusal;
        put_head(self.dump, report.message, &mut self.head)?;
        put_refused_line(&mut self.lines)?;
        let mut walk = ElementWalk::new(self.alloc, self.dump.profile, refusal.at as usize);
        self.put_elements(&mut walk, octets, sink)?;
        put_refusal_lines(self.alloc, &mut self.lines, &walk, octets, refusal)?;
        self.put_rest(&walk, octets, refusal, sink)?;
        self.lines.tags(END_OF_MESSAGE)?;
        self.flush(sink)
    }

    /// Writes the lines of the elements from the place of a refusal on, to which a walk has come.
    fn put_rest<W: Sink>(
        &mut self,
        walk: &ElementWalk,
        octets: &[u8],
        refusal: Refusal,
        sink: &mut W,
    ) -> Result<(), PutError>
        ensures puts { OnOk result (Puts (W.contents sink.old) (W.contents sink.new)
            self.old.head.octets.items self.new.head.octets.items) }
        ensures same { self.new.dump ≡ self.old.dump }
        ensures breaks { IfErr result (BreaksSink (W.is_broken sink.new)) }
        ensures stays { IsTrue (W.is_broken sink.old) → IsTrue (W.is_broken sink.new) }
    {
        // Of a message that is only too long all elements were judged.
        if refusal.cause == Cause::NormalTooLong {
            return Ok(());
        }
        let mut rest = UnjudgedWalk::from_place(walk, octets, refusal)?;
        self.lines.tags("<div class=\"rest\">")?;
        self.put_elements(&mut rest, octets, sink)?;
        self.lines.tags("</div>")?;
        Ok(())
    }

    /// Writes the lines of the elements on a way through them.
    fn put_elements<S: Steps, W: Sink>(
        &mut self,
        walk: &mut S,
        octets: &[u8],
        sink: &mut W,
    ) -> Result<(), PutError>
        ensures puts { OnOk result (Puts (W.contents sink.old) (W.contents sink.new)
            self.old.head.octets.items self.new.head.octets.items) }
        ensures same { self.new.dump ≡ self.old.dump }
        ensures breaks { IfErr result (BreaksSink (W.is_broken sink.new)) }
        ensures stays { IsTrue (W.is_broken sink.old) → IsTrue (W.is_broken sink.new) }
    {
        for _ in 0..=octets.len() {
            if !walk.step(octets, &mut self.lines)? {
                return Ok(());
            }
            if self.lines.octets.len() >= FLUSH_AT {
                self.flush(sink)?;
            }
        }
        Ok(())
    }

    /// Writes what was made.
    fn flush<W: Sink>(&mut self, sink: &mut W) -> Result<(), PutError>
        ensures puts { OnOk result (Appends (W.contents sink.old) (W.contents sink.new)
            (self.old.head.octets.items ++ self.old.lines.octets.items)) }
        ensures none { OnOk result (self.new.head.octets.items ≡ []) }
        ensures same { self.new.dump ≡ self.old.dump }
        ensures breaks { IfErr result (BreaksSink (W.is_broken sink.new)) }
        ensures stays { IsTrue (W.is_broken sink.old) → IsTrue (W.is_broken sink.new) }
    {
        send(&mut self.head, &mut self.written, sink)?;
        send(&mut self.lines, &mut self.written, sink)
    }
}

/// Writes lines after this number of octets, and forgets them.
fn send<W: Sink>(lines: &mut LineBuffer, written: &mut u64, sink: &mut W) -> Result<(), PutError>
    ensures puts { OnOk result (Appends (W.contents sink.old) (W.contents sink.new)
        lines.old.octets.items) }
    ensures none { OnOk result (lines.new.octets.items ≡ []) }
    ensures breaks { IfErr result (BreaksSink (W.is_broken sink.new)) }
    ensures stays { IsTrue (W.is_broken sink.old) → IsTrue (W.is_broken sink.new) }
{
    match put_all(sink, &lines.octets) {
        Ok(()) => {
            *written = written.saturating_add(lines.octets.len() as u64);
            lines.octets.clear();
            Ok(())
        }
        Err(count) => Err(PutError::Broken(written.saturating_add(count as u64))),
    }
}

impl<'a> WriteItems for WriteDump<'a> {
    type Options = DumpOptions<'a>;

    ghost options = { λ writer. writer.dump };

    ghost is_ready = { λ writer. writer.head.octets.items ≡ [] };

    ghost reads = { λ dump. dump.profile };

    ghost needs = { λ _. wants true false };

    ghost writes = { λ dump. WritesLines dump };

    ghost fails = { λ _ entry error held held'. Unit {0} };

    ghost is_good = { λ _ m. true };

    fn alloc(&self) -> Global {
        self.alloc
    }

    fn profile(&self) -> Profile {
        self.dump.profile
    }

    fn wants(&self) -> Wants {
        Wants {
            spelled: true,
            outline: false,
        }
    }

    fn accepted<W: Sink>(
        &mut self,
        place: MessagePlace,
        message: &mut ReadMessage,
        sink: &mut W,
    ) -> Result<Written, PutError> {
        self.written = 0;
        if !self.dump.is_chosen(place.number) {
            return Ok(Written {
                octets: 0,
                is_good: true,
            });
        }
        match self.put_message(place.number, message, sink) {
            Ok(()) => Ok(Written {
                octets: self.written,
                is_good: true,
            }),
            Err(error) => Err(error),
        }
    }

    fn refused<W: Sink>(
        &mut self,
        report: RefusalReport,
        octets: &[u8],
        sink: &mut W,
    ) -> Result<u64, PutError> {
        self.written = 0;
        if !self.dump.is_chosen(report.message) {
            return Ok(0);
        }
        match self.put_refused(report, octets, sink) {
            Ok(()) => Ok(self.written),
            Err(error) => Err(error),
        }
    }
}
