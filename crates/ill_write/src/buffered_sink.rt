//! Octets on their way to a sink.
ghost use Rattle.std.specs.Prelude.{◌≤◌};

use crate::put::send;
use ber_core::{Broken, Sink};

/// The number of octets that wait at most.
const BUFFER_LEN: usize = 256;

/// A sink with a buffer: the octets that wait until there are more, how many the sink has
/// taken, and which content size is the next.
#[derive(Drop)]
pub struct BufferedSink {
    waiting: [u8; BUFFER_LEN],
    len: usize,
    written: u32,
    next: usize,
    ghost within: { len ≤ 256 },
}

impl BufferedSink {
    ghost use Rattle.std.specs.Prelude.{◌≡◌, ◌+◌, ◌-◌, ◌^◌, List, [], Option, IfOk, IsErr, IsTrue};
    ghost use Rattle.ill_write.specs.code.Puts.{Puts, Stands};

    /// Nothing is given yet.
    pub fn new() -> BufferedSink
        ensures fresh { (reported : Option (List _)) → Stands reported [] reported result }
        ensures next { result.next ≡ 0 }
    {
        BufferedSink {
            waiting: [0; BUFFER_LEN],
            len: 0,
            written: 0,
            next: 0,
        }
    }

    /// The number of octets that the sink has taken.
    pub fn written(&self) -> u32
        ensures { result ≡ self.now.written }
    {
        self.written
    }

    /// The index of the next content size.
    pub fn next(&self) -> usize
        ensures { result ≡ self.now.next }
    {
        self.next
    }

    /// Goes on to the next content size.
    pub fn advance(&mut self)
        requires { self.old.next + 1 ≤ 2 ^ 64 - 1 }
        ensures next { self.new.next ≡ self.old.next + 1 }
        ensures puts { (reported : Option (List _)) (start : Option (List _)) (given : List _)
            → Stands start given reported self.old → Stands start given reported self.new }
    {
        self.next += 1;
    }

    /// Puts what waits.
    pub fn flush<W: Sink>(&mut self, sink: &mut W) -> Result<(), Broken>
        ensures puts { Puts result []
            (W.contents sink.old) self.old (W.contents sink.new) self.new }
        ensures next { self.new.next ≡ self.old.next }
        ensures empty { IfOk result (λ _. self.new.len ≡ 0) }
        ensures breaks { IsErr result → IsTrue (W.is_broken sink.new) }
        ensures stays { IsTrue (W.is_broken sink.old) → IsTrue (W.is_broken sink.new) }
    {
        send(sink, &self.waiting[..self.len], &mut self.written)?;
        self.len = 0;
        Ok(())
    }

    /// Puts the octets, or keeps them until there are more.
    pub fn put<W: Sink>(&mut self, sink: &mut W, octets: &[u8]) -> Result<(), Broken>
        ensures puts { Puts result octets.now
            (W.contents sink.old) self.old (W.contents sink.new) self.new }
        ensures next { self.new.next ≡ self.old.next }
        ensures breaks { IsErr result → IsTrue (W.is_broken sink.new) }
        ensures stays { IsTrue (W.is_broken sink.old) → IsTrue (W.is_broken sink.new) }
    {
        if octets.len() > BUFFER_LEN - self.len {
            self.flush(sink)?;
            if octets.len() > BUFFER_LEN {
                return send(sink, octets, &mut self.written);
            }
        }
        let end = self.len + octets.len();
        self.waiting[self.len..end].copy_from_slice(octets);
        self.len = end;
        Ok(())
    }
}
