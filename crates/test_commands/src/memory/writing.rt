//! Messages into octets and text, and to their normal forms. Nothing is written where there is no memory.
use super::Row;
use super::given::{EXPIRED, Given};
use ber_core::{Pieces, Room};
use ill_normal::{NormalFailure, StreamCause, StreamFailure, normalise, normalise_stream};
use ill_schema::Message;
use ill_text::show_text;
use ill_write::{Sizes, WriteFailure, normal_bytes, write_normal};
use std::alloc::Global;
use test_support::Outcome;

/// The result of each call of this file.
pub fn calls(alloc: Global, given: &Given) -> [Row; 6] {
    let message = &given.message;
    [
        (
            "Sizes::measure",
            Outcome::of(Sizes::measure(alloc, message)),
        ),
        ("normal_bytes", Outcome::of(normal_bytes(alloc, message))),
        ("write_normal", write(alloc, message)),
        ("show_text", Outcome::of(show_text(alloc, 1, message))),
        ("normalise", normalise_one(alloc)),
        ("normalise_stream", normalise_all(alloc)),
    ]
}

fn write(alloc: Global, message: &Message) -> Outcome {
    let mut sink: Room<64> = Room::new(64, None);
    match write_normal(alloc, message, &mut sink) {
        Ok(_) => Outcome::right(sink.octets() == EXPIRED),
        Err(failure) => Outcome::out_of_memory(
            failure == WriteFailure::OutOfMemory && sink.octets().is_empty(),
        ),
    }
}

fn normalise_one(alloc: Global) -> Outcome {
    let mut source = Pieces::new(EXPIRED, 64, None);
    let mut sink: Room<64> = Room::new(64, None);
    match normalise(alloc, &mut source, &mut sink) {
        Ok(_) => Outcome::right(sink.octets() == EXPIRED),
        Err(failure) => Outcome::out_of_memory(
            failure == NormalFailure::OutOfMemory && sink.octets().is_empty(),
        ),
    }
}

fn normalise_all(alloc: Global) -> Outcome {
    let mut source = Pieces::new(EXPIRED, 64, None);
    let mut sink: Room<64> = Room::new(64, None);
    let at_once = StreamFailure {
        whole: 0,
        before: 0,
        why: StreamCause::Normal(NormalFailure::OutOfMemory),
    };
    match normalise_stream(alloc, &mut source, &mut sink) {
        Ok(_) => Outcome::right(sink.octets() == EXPIRED),
        Err(failure) => Outcome::out_of_memory(failure == at_once && sink.octets().is_empty()),
    }
}
