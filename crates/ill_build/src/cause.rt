//! Causes for which a line is refused.
ghost use Rattle.std.specs.Prelude.{◌≡◌};
ghost use Rattle.ill_build.specs.Causes.{cause_name, cause_number};

/// The reason why a line of JSON is not built.
#[derive(Clone, Copy, Debug, PartialEq, Eq)]
pub enum BuildCause {
    /// The line is no text of JSON (RFC 8259) in UTF-8, or nests deeper than 128 levels.
    NotJson,
    /// The line has more than 16,777,216 octets.
    LineTooLong,
    /// Another type of JSON is due.
    WrongType,
    /// No row has the name of the member.
    UnknownMember,
    /// A member of this name came before.
    RepeatedMember,
    /// The profile leaves the row out, or the APDU.
    LeftOut,
    /// A member that has to be there is missing.
    MissingMember,
    /// A choice has no member, or two.
    NotOneMember,
    /// No number of the row has the name, or no APDU.
    UnknownName,
    /// The number has another name.
    OtherName,
    /// The number has a point or an exponent, or is -0.
    NotWhole,
    /// The number takes more than 64 bits; a number of bits is below 0.
    NumberTooLong,
    /// The string has a character past U+00FF.
    BadCharacter,
    /// The string has an octet outside its alphabet.
    BadText,
    /// The string is not eight digits of a day that exists.
    BadDate,
    /// The string is not six digits of a time of day.
    BadTime,
    /// The string is not pairs of digits 0 to 9 and a to f.
    BadHexadecimal,
    /// The bits are not those that the octets have: more of them, a whole octet less, or one behind them is 1.
    BadBits,
    /// The string is no OBJECT IDENTIFIER.
    BadOid,
    /// The octets are not the DER of one element of at most 20 levels, with tag numbers of at most four octets.
    BadForeign,
    /// The normal form would have more than 1,048,576 octets.
    NormalTooLong,
    /// The line is of another profile.
    OtherProfile,
}

impl BuildCause {
    /// The name of the cause.
    ///
    /// ```text
    /// BuildCause::NotJson.name() // "NotJson"
    /// ```
    pub fn name(self) -> &'static str
        ensures { result.now ≡ cause_name self }
    {
        match self {
            BuildCause::NotJson => "NotJson",
            BuildCause::LineTooLong => "LineTooLong",
            BuildCause::WrongType => "WrongType",
            BuildCause::UnknownMember => "UnknownMember",
            BuildCause::RepeatedMember => "RepeatedMember",
            BuildCause::LeftOut => "LeftOut",
            BuildCause::MissingMember => "MissingMember",
            BuildCause::NotOneMember => "NotOneMember",
            BuildCause::UnknownName => "UnknownName",
            BuildCause::OtherName => "OtherName",
            BuildCause::NotWhole => "NotWhole",
            BuildCause::NumberTooLong => "NumberTooLong",
            BuildCause::BadCharacter => "BadCharacter",
            BuildCause::BadText => "BadText",
            BuildCause::BadDate => "BadDate",
            BuildCause::BadTime => "BadTime",
            BuildCause::BadHexadecimal => "BadHexadecimal",
            BuildCause::BadBits => "BadBits",
            BuildCause::BadOid => "BadOid",
            BuildCause::BadForeign => "BadForeign",
            BuildCause::NormalTooLong => "NormalTooLong",
            BuildCause::OtherProfile => "OtherProfile",
        }
    }

    /// The number of the cause, from 1 to 22. It never changes.
    ///
    /// ```text
    /// BuildCause::NotJson.number() // 1
    /// ```
    pub fn number(self) -> u32
        ensures { result ≡ cause_number self }
    {
        match self {
            BuildCause::NotJson => 1,
            BuildCause::LineTooLong => 2,
            BuildCause::WrongType => 3,
            BuildCause::UnknownMember => 4,
            BuildCause::RepeatedMember => 5,
            BuildCause::LeftOut => 6,
            BuildCause::MissingMember => 7,
            BuildCause::NotOneMember => 8,
            BuildCause::UnknownName => 9,
            BuildCause::OtherName => 10,
            BuildCause::NotWhole => 11,
            BuildCause::NumberTooLong => 12,
            BuildCause::BadCharacter => 13,
            BuildCause::BadText => 14,
            BuildCause::BadDate => 15,
            BuildCause::BadTime => 16,
            BuildCause::BadHexadecimal => 17,
            BuildCause::BadBits => 18,
            BuildCause::BadOid => 19,
            BuildCause::BadForeign => 20,
            BuildCause::NormalTooLong => 21,
            BuildCause::OtherProfile => 22,
        }
    }
}
