/// The reason why octets are no content of a leaf.
#[derive(Clone, Copy, Debug, PartialEq, Eq)]
pub enum LeafFault {
    /// A BOOLEAN's content isn't one octet (X.690, 8.2.1).
    BadBoolean,
    /// An INTEGER's or ENUMERATED's content is empty, or the first nine bits of its two octets or more are equal (X.690, 8.3).
    BadInteger,
    /// An INTEGER's or ENUMERATED's content has more than eight octets.
    IntegerTooLong,
    /// An octet outside the string's alphabet.
    BadText,
    /// Not eight digits of a day that exists.
    BadDate,
    /// Not six digits of a time of day.
    BadTime,
    /// A NULL's content isn't empty (X.690, 8.8.2).
    BadNull,
    /// An OBJECT IDENTIFIER's content is empty, ends inside a subidentifier, or has one that begins with `80` (X.690, 8.19.2).
    BadOid,
    /// A BIT STRING's content doesn't begin with the number of unused bits, 0 to 7, or 0 where no octet follows (X.690, 8.6.2).
    BadBits,
}
