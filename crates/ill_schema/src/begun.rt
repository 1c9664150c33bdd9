//! The APDU that octets begin.
ghost use Rattle.std.specs.Prelude.{◌≡◌, option_map};
ghost use Rattle.ill_schema.specs.Begun.{after_length, apdu_begun, begins_contents};

use crate::names::apdu_name_as;
use ill_tables::Profile;

/// The name of the APDU of ISO 10161-1 that the octets begin; None where no message begins with them. Only the first octets count: the
/// identifier of an APDU, its length, and after these the identifier of a SEQUENCE or of `[0]`, or an end mark, as far as they are there.
/// Identifiers may be primitive or constructed.
///
/// ```text
/// apdu_begun(&[0x74, 0x1F, 0x30])  // Some("Expired")
/// apdu_begun(b"From: ")            // None
/// ```
pub fn apdu_begun(octets: &[u8]) -> Option<&'static str>
    ensures { option_map (λ name. name.now) result ≡ apdu_begun octets.now }
{
    match octets {
        [first, rest @ ..] if first / 64 == 1 && begins_contents(after_length(rest)) => {
            apdu_name_as(Profile::Module, first % 32)
        }
        _ => None,
    }
}

/// What follows the length at the front of octets (X.690, 8.1.3.4 to 8.1.3.6).
fn after_length(octets: &[u8]) -> &[u8]
    ensures { result.now ≡ after_length octets.now }
{
    let len = match octets {
        [first, ..] if *first > 0x80 => usize::from(first - 0x7F),
        _ => 1,
    };
    octets.get(len..).unwrap_or(&[])
}

/// Tells whether the contents of an APDU may begin with the octets.
fn begins_contents(octets: &[u8]) -> bool
    ensures { result ≡ begins_contents octets.now }
{
    matches!(octets, [] | [0x10 | 0x30 | 0x80 | 0xA0 | 0x00, ..])
}
