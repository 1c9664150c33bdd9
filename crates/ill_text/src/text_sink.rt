//! Text on its way to a sink.
ghost use Rattle.std.specs.Prelude.{◌≡◌, ◌≤◌, true};

use ber_core::{Sink, put_all};

/// The number of octets that wait at most.
const BUFFER_LEN: usize = 1024;

/// A sink with a buffer: the octets that wait until there are more, and how many the sink has taken. Once the sink broke nothing
/// more is put.
#[derive(Drop)]
pub struct TextSink {
    waiting: [u8; BUFFER_LEN],
    len: usize,
    written: usize,
    broken: bool,
    ghost within: { len ≤ 1024 },
    ghost full: { broken ≡ true → len ≡ 1024 },
}

impl TextSink {
    ghost use Rattle.std.specs.Prelude.{◌≡◌, ◌+◌, ◌-◌, ◌<◌, List, [], ◌∷◌, Option, length, false, true, IsTrue};
    ghost use Rattle.ill_text.specs.code.Sending.{Adds, Stands, counted, sending};

    /// Nothing is put yet.
    pub fn new() -> TextSink
        ensures { (reported : Option (List _)) (b : _)
            → Stands reported [] (sending reported b result) }
    {
        TextSink {
            waiting: [0; BUFFER_LEN],
            len: 0,
            written: 0,
            broken: false,
        }
    }

    /// The number of octets that the sink has taken.
    pub fn written(&self) -> usize
        ensures { result ≡ self.now.written }
    {
        self.written
    }

    /// Tells whether the sink broke.
    pub fn is_broken(&self) -> bool
        ensures { result ≡ self.now.broken }
    {
        self.broken
    }

    /// Puts what waits.
    pub fn flush<W: Sink>(&mut self, sink: &mut W)
        ensures adds { Adds [] (sending (W.contents sink.old) (W.is_broken sink.old) self.old)
            (sending (W.contents sink.new) (W.is_broken sink.new) self.new) }
        ensures empty { self.new.broken ≡ false → self.new.len ≡ 0 }
        ensures stays { IsTrue (W.is_broken sink.old) → IsTrue (W.is_broken sink.new) }
    {
        if self.broken {
            return;
        }
        match put_all(sink, &self.waiting[..self.len]) {
            Ok(()) => {
                self.written = self.written.saturating_add(self.len);
                self.len = 0;
            }
            Err(count) => self.end(count),
        }
    }

    /// Counts what the sink took before it broke. No room is left, so nothing more is put.
    fn end(&mut self, count: usize)
        ensures written { self.new.written ≡ counted (self.old.written + count) }
        ensures broke { self.new.broken ≡ true }
    {
        self.written = self.written.saturating_add(count);
        self.len = BUFFER_LEN;
        self.broken = true;
    }

    /// Puts octets where none wait.
    fn send<W: Sink>(&mut self, sink: &mut W, octets: &[u8])
        requires whole { self.old.broken ≡ false }
        requires empty { self.old.len ≡ 0 }
        ensures adds { Adds octets.now (sending (W.contents sink.old) (W.is_broken sink.old)
            self.old) (sending (W.contents sink.new) (W.is_broken sink.new) self.new) }
        ensures stays { IsTrue (W.is_broken sink.old) → IsTrue (W.is_broken sink.new) }
    {
        match put_all(sink, octets) {
            Ok(()) => self.written = self.written.saturating_add(octets.len()),
            Err(count) => self.end(count),
        }
    }

    /// Puts octets, or keeps them until there are more.
    #[inline(always)]
    pub fn put<W: Sink>(&mut self, sink: &mut W, octets: &[u8])
        ensures adds { Adds octets.now (sending (W.contents sink.old) (W.is_broken sink.old)
            self.old) (sending (W.contents sink.new) (W.is_broken sink.new) self.new) }
        ensures stays { IsTrue (W.is_broken sink.old) → IsTrue (W.is_broken sink.new) }
    {
        if octets.len() <= BUFFER_LEN - self.len {
            self.keep(octets);
            return;
        }
        self.put_more(sink, octets);
    }

    /// Puts one octet, or keeps it until there are more.
    #[inline(always)]
    pub fn put_octet<W: Sink>(&mut self, sink: &mut W, octet: u8)
        ensures adds { Adds (octet ∷ []) (sending (W.contents sink.old) (W.is_broken sink.old)
            self.old) (sending (W.contents sink.new) (W.is_broken sink.new) self.new) }
        ensures stays { IsTrue (W.is_broken sink.old) → IsTrue (W.is_broken sink.new) }
    {
        if self.len < BUFFER_LEN {
            self.keep_octet(octet);
            return;
        }
        self.put_more(sink, &[octet]);
    }

    /// Puts what waits, and then octets.
    #[inline(never)]
    fn put_more<W: Sink>(&mut self, sink: &mut W, octets: &[u8])
        ensures adds { Adds octets.now (sending (W.contents sink.old) (W.is_broken sink.old)
            self.old) (sending (W.contents sink.new) (W.is_broken sink.new) self.new) }
        ensures stays { IsTrue (W.is_broken sink.old) → IsTrue (W.is_broken sink.new) }
    {
        self.flush(sink);
        if self.broken {
            return;
        }
        if octets.len() > BUFFER_LEN {
            self.send(sink, octets);
            return;
        }
        self.keep(octets);
    }

    /// Keeps an octet for which there is room.
    #[inline(always)]
    fn keep_octet(&mut self, octet: u8)
        requires room { self.old.len < 1024 }
        ensures { (reported : Option (List _)) (b : _)
            → Adds (octet ∷ []) (sending reported b self.old) (sending reported b self.new) }
    {
        self.waiting[self.len] = octet;
        self.len += 1;
    }

    /// Keeps octets for which there is room. There is no room once the sink broke.
    fn keep(&mut self, octets: &[u8])
        requires room { self.old.len + length octets.now ≤ 1024 }
        ensures { (reported : Option (List _)) (b : _)
            → Adds octets.now (sending reported b self.old) (sending reported b self.new) }
    {
        let end = self.len + octets.len();
        self.waiting[self.len..end].copy_from_slice(octets);
        self.len = end;
    }
}
