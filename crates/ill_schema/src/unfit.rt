/// The reason why a number and a value make no message.
#[derive(Clone, Copy, Debug, PartialEq, Eq)]
pub enum Unfit {
    /// No APDU of the number is carried.
    NotCarried,
    /// The value doesn't fit the APDU's node.
    DoesNotFit,
    /// The normal form passes the limit.
    TooLong,
}
