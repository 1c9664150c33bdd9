use super::Sink;
use crate::source::Broken;

/// A list of octets as a sink. It breaks where memory to grow is refused.
///
/// ```
/// let mut sink = VecSink { octets: Vec::new(alloc), broken: false };
/// put_all(&mut sink, b"octets")?;
/// ```
#[derive(Drop)]
pub struct VecSink {
    /// The octets that were put.
    pub octets: Vec<u8>,
    /// True once memory was refused.
    pub broken: bool,
}

impl Sink for VecSink {
    ghost use Rattle.std.specs.Prelude.{Some};

    ghost contents = { λ s. Some s.octets.items };

    ghost is_broken = { λ s. s.broken };

    fn put(&mut self, octets: &[u8]) -> Result<usize, Broken> {
        if self.broken || self.octets.extend_from_slice(octets).is_err() {
            self.broken = true;
            return Err(Broken);
        }
        Ok(octets.len())
    }

    fn broken(&self) -> bool {
        self.broken
    }
}
