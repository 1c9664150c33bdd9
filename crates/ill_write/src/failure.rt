/// The reason why a normal form wasn't written whole.
#[derive(Clone, Copy, Debug, PartialEq, Eq)]
pub enum WriteFailure {
    /// There was no memory to measure it, and nothing was written.
    OutOfMemory,
    /// The sink broke. Exactly the first `written` octets of the normal form were written.
    WriteFault(u32),
}
