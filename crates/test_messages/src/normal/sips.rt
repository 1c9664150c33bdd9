//! A sink that takes a few octets of each slice.
use ill_normal::{Broken, Sink};

/// It keeps what it took, and breaks when out of memory.
#[derive(Drop)]
pub struct ShortWriter {
    pub octets: Vec<u8>,
    pub per_call: usize,
    pub broken: bool,
}

impl Sink for ShortWriter {
    ghost use Rattle.std.specs.Prelude.{None};

    ghost contents = { λ _. None };

    ghost is_broken = { λ sink. sink.broken };

    fn put(&mut self, octets: &[u8]) -> Result<usize, Broken> {
        let count = self.per_call.max(1).min(octets.len());
        self.broken = self.broken || self.octets.extend_from_slice(&octets[..count]).is_err();
        if self.broken { Err(Broken) } else { Ok(count) }
    }

    fn broken(&self) -> bool {
        self.broken
    }
}
