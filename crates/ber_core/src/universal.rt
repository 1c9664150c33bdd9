//! The numbers of the universal tags that elements have by their types (X.680, 8.4, table 1).

/// BOOLEAN (X.680, 18).
pub const BOOLEAN: u32 = 1;

/// INTEGER (X.680, 19).
pub const INTEGER: u32 = 2;

/// BIT STRING (X.680, 22), and so its segments (X.690, 8.6.4).
pub const BIT_STRING: u32 = 3;

/// OCTET STRING (X.680, 23), and so the segments of a string (X.690, 8.23.6).
pub const OCTET_STRING: u32 = 4;

/// NULL (X.680, 24).
pub const NULL: u32 = 5;

/// OBJECT IDENTIFIER (X.680, 32).
pub const OBJECT_IDENTIFIER: u32 = 6;

/// ObjectDescriptor (X.680, 48).
pub const OBJECT_DESCRIPTOR: u32 = 7;

/// ENUMERATED (X.680, 20).
pub const ENUMERATED: u32 = 10;

/// SEQUENCE (X.680, 25) and SEQUENCE OF (26).
pub const SEQUENCE: u32 = 16;

/// PrintableString (X.680, 41).
pub const PRINTABLE_STRING: u32 = 19;

/// VisibleString (X.680, 41).
pub const VISIBLE_STRING: u32 = 26;

/// GeneralString (X.680, 41).
pub const GENERAL_STRING: u32 = 27;
