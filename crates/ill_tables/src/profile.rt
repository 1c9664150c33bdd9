//! The profiles that a program can name.

/// The rows of the tables that a message may have, and the octets that a GeneralString may have.
#[derive(Clone, Copy, Debug, PartialEq, Eq)]
pub enum Profile {
    /// Profile 2: the rows that aren't left out, and any octet but SO, SI and ESC.
    Two,
    /// The module profile: each row of the module of ISO 10161-1, and any octet.
    Module,
}
