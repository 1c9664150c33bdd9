//! Octets as hexadecimal digits.
ghost use Rattle.std.specs.Prelude.{◌≡◌, ◌<◌, slice_index};
ghost use Rattle.ill_schema.specs.Texts.{digits};

/// The two hexadecimal digits of an octet, in small letters.
///
/// ```
/// assert_eq!(hexadecimal_digits(0xA1), [b'a', b'1']);
/// ```
pub fn hexadecimal_digits(octet: u8) -> [u8; 2]
    ensures digits { result ≡ digits octet }
    ensures ascii { (slice_index result 0 < 128) × (slice_index result 1 < 128) }
{
    let mut digits = [0; 2];
    match hex::encode_to_slice(&[octet], &mut digits) {
        Ok(()) => digits,
        Err(_) => unreachable!(),
    }
}
