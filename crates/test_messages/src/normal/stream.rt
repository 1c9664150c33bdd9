//! Messages one after another.
use super::EXPIRED;
use ill_normal::{
    Broken, Cause, NormalFailure, Pieces, Refusal, Room, Sink, Source, StreamCause, StreamFailure,
    normalise_stream,
};
use std::alloc::Global;
use std::test::Fail;
use test_support::octets_of;

/// An EXPIRED over and over: a number of times and some octets more, or for ever.
#[derive(Drop)]
struct Expireds {
    /// The number of octets that are left; None is for ever.
    left: Option<usize>,
    at: usize,
}

impl Source for Expireds {
    ghost use Rattle.std.specs.Prelude.{None, false};

    ghost left = { λ _. None };

    ghost is_broken = { λ _. false };

    fn take(&mut self, buffer: &mut [u8]) -> Result<usize, Broken> {
        let count = match self.left {
            Some(left) => left.min(buffer.len()),
            None => buffer.len(),
        };
        self.left = self.left.map(|left| left.saturating_sub(count));
        for room in buffer[..count].iter_mut() {
            *room = EXPIRED.get(self.at).copied().unwrap_or(0);
            let next = self.at.saturating_add(1);
            self.at = if next < EXPIRED.len() { next } else { 0 };
        }
        Ok(count)
    }

    fn broken(&self) -> bool {
        false
    }
}

/// A sink that only counts the octets.
#[derive(Drop)]
struct Counter {
    octets: u64,
}

impl Sink for Counter {
    ghost use Rattle.std.specs.Prelude.{None, false};

    ghost contents = { λ _. None };

    ghost is_broken = { λ _. false };

    fn put(&mut self, octets: &[u8]) -> Result<usize, Broken> {
        self.octets = self.octets.saturating_add(octets.len() as u64);
        Ok(octets.len())
    }

    fn broken(&self) -> bool {
        false
    }
}

/// EXPIRED twice.
const TWO: &str =
    "741f301d800102a10aa1031b0147a2031b0151a20ca00a80083230323430323239 741f301d800102a10aa1031b0147a2031b0151a20ca00a80083230323430323239";

/// Two EXPIREDs, the first with indefinite lengths, in 47 octets.
const MIXED: &str =
    "74803080800102a180a1801b01470000a2801b015100000000a280a080800832303234303232390000000000000000 741f301d800102a10aa1031b0147a2031b0151a20ca00a80083230323430323239";

/// EXPIRED, and an octet that begins no message.
const BAD_SECOND: &str = "741f301d800102a10aa1031b0147a2031b0151a20ca00a80083230323430323239 75";

/// Tells whether the octets are the first of EXPIRED and EXPIRED.
fn are_of_two(octets: &[u8]) -> bool {
    let (first, second) = octets.split_at(octets.len().min(EXPIRED.len()));
    EXPIRED.starts_with(first) && EXPIRED.starts_with(second)
}

/// Tells whether a stream comes to this result with as many octets a call, and this number of octets of EXPIRED and EXPIRED is written to a sink
/// that breaks after 36 where it must.
fn comes_to(
    alloc: Global,
    octets: &[u8],
    (per_call, breaks): (usize, bool),
    want: (Result<u32, StreamFailure>, usize),
) -> bool {
    let mut source = Pieces::new(octets, per_call.max(1), None);
    let mut sink: Room<128> = Room::new(64, breaks.then_some(36));
    let result = normalise_stream(alloc, &mut source, &mut sink);
    (result, sink.octets().len()) == want && are_of_two(sink.octets())
}

/// A name, the octets of a stream, whether the sink breaks after 36, what comes of it, and how many octets are written.
static STREAMS: [(&str, &str, bool, Result<u32, StreamFailure>, usize); 5] = [
    ("stream-of-nothing", "", false, Ok(0), 0),
    ("stream-of-two", TWO, false, Ok(2), 66),
    ("stream-indefinite-then-definite", MIXED, false, Ok(2), 66),
    (
        "stream-with-bad-second",
        BAD_SECOND,
        false,
        Err(StreamFailure {
            whole: 1,
            before: 33,
            why: StreamCause::Normal(NormalFailure::Refused(Refusal {
                at: 0,
                cause: Cause::UnexpectedTag,
            })),
        }),
        33,
    ),
    // The second message is the 33 octets after the first 47; three of its normal form are written.
    (
        "stream-with-broken-sink",
        MIXED,
        true,
        Err(StreamFailure {
            whole: 1,
            before: 47,
            why: StreamCause::Normal(NormalFailure::WriteFault(3)),
        }),
        36,
    ),
];

#[test]
fn a_stream_is_normalised_as_far_as_it_goes(rt: HostRuntime) -> Result<(), Fail> {
    for (name, pieces, breaks, result, count) in &STREAMS {
        let octets = octets_of(rt.alloc(), pieces)?;
        for per_call in [1, 7, 4096] {
            let how = (per_call, *breaks);
            assert!(rt;
                comes_to(rt.alloc(), &octets, how, (*result, *count)),
                "{name}"
            );
        }
    }
    Ok(())
}

/// The result for EXPIRED over and over, of this number of octets, or for ever.
fn repeated(alloc: Global, left: Option<usize>) -> (Result<u32, StreamFailure>, u64) {
    let mut source = Expireds { left, at: 0 };
    let mut sink = Counter { octets: 0 };
    let result = normalise_stream(alloc, &mut source, &mut sink);
    (result, sink.octets)
}

#[test]
fn a_million_messages_are_normalised_and_no_more(rt: HostRuntime) {
    let alloc = rt.alloc();
    let too_many = Err(StreamFailure {
        whole: 1_000_000,
        before: 33_000_000,
        why: StreamCause::TooManyMessages,
    });
    assert!(rt;
        repeated(alloc, Some(33_000_000)) == (Ok(1_000_000), 33_000_000),
        "stream-of-a-million"
    );
    assert!(rt;
        repeated(alloc, Some(33_000_001)) == (too_many, 33_000_000),
        "stream-of-a-million-and-an-octet"
    );
    assert!(rt;
        repeated(alloc, None) == (too_many, 33_000_000),
        "stream-for-ever"
    );
}
