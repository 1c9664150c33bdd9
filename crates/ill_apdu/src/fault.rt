/// The reason why an APDU has no message.
#[derive(Clone, Copy, Debug, PartialEq, Eq)]
pub enum MessageFault {
    /// Memory was refused.
    OutOfMemory,
    /// The normal form passes the limit.
    TooLong,
}
