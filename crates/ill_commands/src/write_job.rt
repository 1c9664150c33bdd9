//! The writer of a job's output.
ghost use Rattle.std.specs.Prelude.{◌≡◌};
ghost use Rattle.ill_normal.specs.Entries.{BreaksText, WritesText};
ghost use Rattle.ill_commands.specs.Output.{is_counted_good, message_output};
ghost use Rattle.ill_commands.specs.code.Rendering.{needs_of};

use crate::job::JobOptions;
use crate::piece::{needs_of, render_message};
use crate::written::JobOutput;
use ber_core::Sink;
use ill_normal::{MessagePlace, PutError, ReadMessage, RefusalReport, Wants, WriteItems, Written};
use ill_schema::Profile;
use std::alloc::{AllocError, Global};
use std::mem;

/// Writes the output of a job for each accepted message, and nothing of a refused one. All memory that a message's output needs is taken before any of it is
/// written.
#[derive(Drop)]
pub struct WriteJob<'a> {
    alloc: Global,
    pub work: JobOptions<'a>,
    /// Memory for the output of the next message.
    memory: JobOutput,
}

impl<'a> WriteJob<'a> {
    /// A writer for this work.
    ///
    /// ```
    /// let mut writer = WriteJob::new(alloc, JobOptions::new(Job::Check, false));
    /// ```
    pub fn new(alloc: Global, work: JobOptions<'a>) -> WriteJob<'a>
        ensures { result.work ≡ work.entry }
    {
        WriteJob {
            alloc,
            work,
            memory: JobOutput::empty(alloc),
        }
    }
}

impl<'a> WriteItems for WriteJob<'a> {
    type Options = JobOptions<'a>;

    ghost options = { λ writer. writer.work };

    ghost is_ready = { λ _. Unit {0} };

    ghost reads = { λ work. work.profile };

    ghost needs = { λ work. needs_of work.job work.compares };

    ghost writes = { λ work. WritesText (message_output work) };

    ghost fails = { λ work. BreaksText (message_output work) };

    ghost is_good = { λ work. is_counted_good work };

    fn alloc(&self) -> Global {
        self.alloc
    }

    fn profile(&self) -> Profile {
        self.work.profile
    }

    #[inline(always)]
    fn wants(&self) -> Wants {
        needs_of(self.work)
    }

    #[inline(always)]
    fn accepted<W: Sink>(
        &mut self,
        place: MessagePlace,
        message: &mut ReadMessage,
        sink: &mut W,
    ) -> Result<Written, PutError> {
        let memory = mem::replace(&mut self.memory, JobOutput::empty(self.alloc));
        let piece = match render_message(self.alloc, self.work, place, message, memory) {
            Ok(piece) => piece,
            Err(AllocError) => return Err(PutError::OutOfMemory),
        };
        let put = piece.text.put(sink);
        self.memory = piece.text;
        match put {
            Ok(count) => Ok(Written {
                octets: count as u64,
                is_good: piece.is_good,
            }),
            Err(count) => Err(PutError::Broken(count as u64)),
        }
    }

    fn refused<W: Sink>(
        &mut self,
        _report: RefusalReport,
        _octets: &[u8],
        _sink: &mut W,
    ) -> Result<u64, PutError> {
        Ok(0)
    }
}
