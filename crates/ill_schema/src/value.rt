use ber_leaf::{DateText, IllString, PrintableText, TimeText};

/// The value of a message, or of a part of one.
///
/// Contracts see it as the tree that it stands for, with texts as their octets.
#[derive(Debug, Drop)]
pub enum Value {
    /// A BOOLEAN.
    Flag(bool),
    /// An INTEGER or an ENUMERATED.
    Whole(i64),
    /// An ISO-Date.
    Date(DateText),
    /// An ISO-Time.
    Time(TimeText),
    /// A PrintableString.
    Print(PrintableText),
    /// An ILL-String.
    Str(IllString),
    /// A SEQUENCE, with one entry for each row of its node.
    Seq(Vec<Option<Value>>),
    /// A SEQUENCE OF.
    List(Vec<Value>),
    /// A CHOICE: the row of the alternative, and its value.
    Alt(u8, Box<Value>),
}
