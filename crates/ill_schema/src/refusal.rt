//! Causes of refusals, with their names, numbers and texts.
use ber_leaf::LeafFault;
use ill_tables::{NodeId, PartId, part_name};

/// A part, for the causes that have one: their names and numbers are the same with each.
const ANY_PART: PartId = PartId {
    node: NodeId::Boolean,
    row: 0,
};

/// The reason why a message is refused.
#[derive(Clone, Copy, Debug, PartialEq, Eq)]
pub enum Cause {
    /// The input ends inside the message.
    Truncated,
    /// The octets are not identifier octets (X.690, 8.1.2), or the tag number has more than four octets.
    BadTag,
    /// The first length octet is FF, or 80 on a primitive element (X.690, 8.1.3).
    BadLength,
    /// The message would pass the limit, and no definite element is open.
    TooLong,
    /// The element would pass the end of an open definite element.
    Overrun,
    /// The element would be at depth 33.
    TooDeep,
    /// Class and number aren't due here.
    UnexpectedTag,
    /// Class and number are those of a left out row that is due here.
    LeftOut(PartId),
    /// Primitive where constructed is due, or the reverse.
    WrongForm,
    /// A sequence or an explicit wrapper ends before a mandatory part.
    Missing(PartId),
    /// In an indefinite element, 00 and then another octet than 00 (X.690, 8.1.5).
    BadEnd,
    /// A BOOLEAN's content isn't one octet (X.690, 8.2.1).
    BadBoolean,
    /// An integer's content is empty, or its first nine bits are equal (X.690, 8.3).
    BadInteger,
    /// An integer's content has more than eight octets.
    IntegerTooLong,
    /// An octet outside the string's alphabet.
    BadText,
    /// Not eight digits of a day that exists.
    BadDate,
    /// Not six digits of a time of day.
    BadTime,
    /// Octets follow the message.
    TrailingBytes,
    /// The message's normal form would pass the limit.
    NormalTooLong,
    /// A NULL's content isn't empty (X.690, 8.8.2). No message of today's tables is refused so, nor for the two causes below.
    BadNull,
    /// An OBJECT IDENTIFIER's content is no subidentifiers (X.690, 8.19.2).
    BadOid,
    /// A BIT STRING's content is no number of unused bits and octets that have these (X.690, 8.6.2).
    BadBits,
}

impl Cause {
    ghost use Rattle.std.specs.Prelude.{◌≡◌, ◌≢◌, IfNone, IfSome, MatchOption, None, Some};
    ghost use Rattle.ill_schema.specs.Causes.{cause_clause, cause_name, cause_number, cause_text};
    ghost use Rattle.ill_schema.specs.Names.{cause_part_name_of};
    ghost use Rattle.ill_schema.specs.declared.refusal.Cause.{Cause as Reason};

    /// The name of the cause.
    ///
    /// ```text
    /// Cause::BadEnd.name() // "BadEnd"
    /// ```
    pub fn name(self) -> &'static str
        ensures { result.now ≡ cause_name self }
    {
        match self {
            Cause::Truncated => "Truncated",
            Cause::BadTag => "BadTag",
            Cause::BadLength => "BadLength",
            Cause::TooLong => "TooLong",
            Cause::Overrun => "Overrun",
            Cause::TooDeep => "TooDeep",
            Cause::UnexpectedTag => "UnexpectedTag",
            Cause::LeftOut(_) => "LeftOut",
            Cause::WrongForm => "WrongForm",
            Cause::Missing(_) => "Missing",
            Cause::BadEnd => "BadEnd",
            Cause::BadBoolean => "BadBoolean",
            Cause::BadInteger => "BadInteger",
            Cause::IntegerTooLong => "IntegerTooLong",
            Cause::BadText => "BadText",
            Cause::BadDate => "BadDate",
            Cause::BadTime => "BadTime",
            Cause::TrailingBytes => "TrailingBytes",
            Cause::NormalTooLong => "NormalTooLong",
            Cause::BadNull => "BadNull",
            Cause::BadOid => "BadOid",
            Cause::BadBits => "BadBits",
        }
    }

    /// The names of the part that the cause is about: its node's and its row's. None where it is about no part.
    ///
    /// ```text
    /// Cause::BadEnd.part_name() // None
    /// ```
    pub fn part_name(self) -> Option<(&'static str, &'static str)>
        ensures { MatchOption result (cause_part_name_of self ≡ None)
            (λ names. cause_part_name_of self ≡ Some (names.0.now, names.1.now)) }
    {
        match self {
            Cause::LeftOut(part) | Cause::Missing(part) => part_name(part),
            _ => None,
        }
    }

    /// The number of the cause, from 1 to 22, as callers in C get it.
    ///
    /// ```text
    /// Cause::BadEnd.number() // 11
    /// ```
    pub fn number(self) -> u32
        ensures { result ≡ cause_number self }
    {
        match self {
            Cause::Truncated => 1,
            Cause::BadTag => 2,
            Cause::BadLength => 3,
            Cause::TooLong => 4,
            Cause::Overrun => 5,
            Cause::TooDeep => 6,
            Cause::UnexpectedTag => 7,
            Cause::LeftOut(_) => 8,
            Cause::WrongForm => 9,
            Cause::Missing(_) => 10,
            Cause::BadEnd => 11,
            Cause::BadBoolean => 12,
            Cause::BadInteger => 13,
            Cause::IntegerTooLong => 14,
            Cause::BadText => 15,
            Cause::BadDate => 16,
            Cause::BadTime => 17,
            Cause::TrailingBytes => 18,
            Cause::NormalTooLong => 19,
            Cause::BadNull => 20,
            Cause::BadOid => 21,
            Cause::BadBits => 22,
        }
    }

    /// A cause of this number, None where no cause has it. A cause of a part is given with some part.
    ///
    /// ```text
    /// Cause::of_number(11) // Some(Cause::BadEnd)
    /// ```
    pub fn of_number(number: u32) -> Option<Cause>
        ensures found { IfSome result (λ cause. cause_number cause ≡ number) }
        ensures none { IfNone result ((cause : Reason) → cause_number cause ≢ number) }
    {
        match number {
            1 => Some(Cause::Truncated),
            2 => Some(Cause::BadTag),
            3 => Some(Cause::BadLength),
            4 => Some(Cause::TooLong),
            5 => Some(Cause::Overrun),
            6 => Some(Cause::TooDeep),
            7 => Some(Cause::UnexpectedTag),
            8 => Some(Cause::LeftOut(ANY_PART)),
            9 => Some(Cause::WrongForm),
            10 => Some(Cause::Missing(ANY_PART)),
            11 => Some(Cause::BadEnd),
            12 => Some(Cause::BadBoolean),
            13 => Some(Cause::BadInteger),
            14 => Some(Cause::IntegerTooLong),
            15 => Some(Cause::BadText),
            16 => Some(Cause::BadDate),
            17 => Some(Cause::BadTime),
            18 => Some(Cause::TrailingBytes),
            19 => Some(Cause::NormalTooLong),
            20 => Some(Cause::BadNull),
            21 => Some(Cause::BadOid),
            22 => Some(Cause::BadBits),
            _ => None,
        }
    }

    /// The text of the cause: what is wrong, as a clause without a full stop.
    ///
    /// ```text
    /// Cause::BadEnd.text() // "the second octet of an end mark is not 00"
    /// ```
    pub fn text(self) -> &'static str
        ensures { result.now ≡ cause_text self }
    {
        match self {
            Cause::Truncated => "the input ends inside the message",
            Cause::BadTag => "no identifier begins so, or the tag number has more than four octets",
            Cause::BadLength => "the first length octet is FF, or 80 in a primitive element",
            Cause::TooLong => "the message would have more than 1,048,576 octets",
            Cause::Overrun => "the element would go past the end of an element round it",
            Cause::TooDeep => "more than 32 elements would be open",
            Cause::UnexpectedTag => "this tag is not expected here",
            Cause::LeftOut(_) => "this part is not read",
            Cause::WrongForm => "its form, primitive or constructed, is not the one expected here",
            Cause::Missing(_) => "the element ends before a mandatory part",
            Cause::BadEnd => "the second octet of an end mark is not 00",
            Cause::BadBoolean => "the BOOLEAN does not have exactly one octet",
            Cause::BadInteger => "the number has no octet, or one more than it needs",
            Cause::IntegerTooLong => "the number has more than eight octets",
            Cause::BadText => "an octet is not in the alphabet of the string",
            Cause::BadDate => "it is not eight digits of a day that exists",
            Cause::BadTime => "it is not six digits of a time of day",
            Cause::TrailingBytes => "octets follow the message",
            Cause::NormalTooLong => "the normal form would have more than 1,048,576 octets",
            Cause::BadNull => "the NULL has octets",
            Cause::BadOid => "the identifier has no octet, one more than it needs, or no end",
            Cause::BadBits => "the first octet is not the number of unused bits",
        }
    }

    /// The clause that the cause enforces, of X.690, X.680 or ISO 10161-1, for a date or a time with the words of its type; or
    /// `limit of illcanon`, where no standard is broken.
    ///
    /// ```text
    /// Cause::BadEnd.clause() // "X.690, 8.1.5"
    /// ```
    pub fn clause(self) -> &'static str
        ensures { result.now ≡ cause_clause self }
    {
        match self {
            Cause::Truncated => "X.690, 8.1.1",
            Cause::BadTag => "X.690, 8.1.2, or limit of illcanon",
            Cause::BadLength => "X.690, 8.1.3.2 and 8.1.3.5",
            Cause::TooLong => "limit of illcanon",
            Cause::Overrun => "X.690, 8.1.3.3",
            Cause::TooDeep => "limit of illcanon",
            Cause::UnexpectedTag => {
                "X.690, 8.9.2, 8.10.2, 8.13 and 8.14, with the types of ISO 10161-1"
            }
            Cause::LeftOut(_) => "limit of illcanon",
            Cause::WrongForm => "X.690, 8.2.1, 8.3.1, 8.8.1, 8.9.1, 8.10.1, 8.14 and 8.19.1",
            Cause::Missing(_) => "X.690, 8.9.3 and 8.14, with the types of ISO 10161-1",
            Cause::BadEnd => "X.690, 8.1.5",
            Cause::BadBoolean => "X.690, 8.2.1",
            Cause::BadInteger => "X.690, 8.3.1 and 8.3.2",
            Cause::IntegerTooLong => "limit of illcanon",
            Cause::BadText => "X.690, 8.23, and X.680, 41",
            Cause::BadDate => {
                "ISO 10161-1: ISO-Date ::= VisibleString -- conforms to ISO 8601, length = 8, fixed, YYYYMMDD"
            }
            Cause::BadTime => {
                "ISO 10161-1: ISO-Time ::= VisibleString -- conforms to ISO 8601, length = 6, fixed, HHMMSS"
            }
            Cause::TrailingBytes => "limit of illcanon",
            Cause::NormalTooLong => "limit of illcanon",
            Cause::BadNull => "X.690, 8.8.2",
            Cause::BadOid => "X.690, 8.19.2",
            Cause::BadBits => "X.690, 8.6.2",
        }
    }
}

impl From<LeafFault> for Cause {
    ghost use Rattle.std.specs.Prelude.{◌≡◌};
    ghost use Rattle.ill_schema.specs.Causes.{cause_of};

    ghost from_gives = { λ fault cause. cause ≡ cause_of fault };

    fn from(fault: LeafFault) -> Cause {
        match fault {
            LeafFault::BadBoolean => Cause::BadBoolean,
            LeafFault::BadInteger => Cause::BadInteger,
            LeafFault::IntegerTooLong => Cause::IntegerTooLong,
            LeafFault::BadText => Cause::BadText,
            LeafFault::BadDate => Cause::BadDate,
            LeafFault::BadTime => Cause::BadTime,
            LeafFault::BadNull => Cause::BadNull,
            LeafFault::BadOid => Cause::BadOid,
            LeafFault::BadBits => Cause::BadBits,
        }
    }
}

/// A refusal: its cause, and the offset in octets, from 0, of what it is about.
#[derive(Clone, Copy, Debug, PartialEq, Eq)]
pub struct Refusal {
    pub at: u32,
    pub cause: Cause,
}
