//! The types that have universal tags.

/// The type that has the universal tag of this number (X.680, 8.4, table 1), if there is one. That of SEQUENCE and SEQUENCE OF is one tag, as
/// that of SET and SET OF.
pub fn universal_type(number: u32) -> Option<&'static str> {
    match number {
        1 => Some("BOOLEAN"),
        2 => Some("INTEGER"),
        3 => Some("BIT STRING"),
        4 => Some("OCTET STRING"),
        5 => Some("NULL"),
        6 => Some("OBJECT IDENTIFIER"),
        7 => Some("ObjectDescriptor"),
        8 => Some("EXTERNAL"),
        9 => Some("REAL"),
        10 => Some("ENUMERATED"),
        11 => Some("EMBEDDED PDV"),
        12 => Some("UTF8String"),
        13 => Some("RELATIVE-OID"),
        14 => Some("TIME"),
        16 => Some("SEQUENCE"),
        17 => Some("SET"),
        18 => Some("NumericString"),
        19 => Some("PrintableString"),
        20 => Some("TeletexString"),
        21 => Some("VideotexString"),
        22 => Some("IA5String"),
        23 => Some("UTCTime"),
        24 => Some("GeneralizedTime"),
        25 => Some("GraphicString"),
        26 => Some("VisibleString"),
        27 => Some("GeneralString"),
        28 => Some("UniversalString"),
        29 => Some("CHARACTER STRING"),
        30 => Some("BMPString"),
        31 => Some("DATE"),
        32 => Some("TIME-OF-DAY"),
        33 => Some("DATE-TIME"),
        34 => Some("DURATION"),
        35 => Some("OID-IRI"),
        36 => Some("RELATIVE-OID-IRI"),
        _ => None,
    }
}
