//! Normal forms, of rows of inputs and where sources and sinks break.
mod check;
mod compare;
mod contracts;
mod hostile;
mod one;
mod profiles;
mod refused;
mod rows;
mod sips;
mod skipping;
mod stream;

const LONG_FORM: &[u8] =
    b"\x74\x81\x29\x30\x81\x26\x80\x81\x01\x02\xa1\x81\x0e\xa1\x81\x04\x1b\x81\x01\x47\xa2\x81\x04\x1b\x81\x01\x51\xa2\x81\x0e\xa0\x81\x0b\x80\x81\x0820240229";

const EXPIRED: &[u8] =
    b"\x74\x1f\x30\x1d\x80\x01\x02\xa1\x0a\xa1\x03\x1b\x01\x47\xa2\x03\x1b\x01\x51\xa2\x0c\xa0\x0a\x80\x0820240229";

/// EXPIRED in hexadecimal.
const EXPIRED_HEX: &str = "741f301d800102a10aa1031b0147a2031b0151a20ca00a80083230323430323239";

/// EXPIRED with indefinite lengths, in 47 octets.
const INDEFINITE_HEX: &str =
    "74803080800102a180a1801b01470000a2801b015100000000a280a080800832303234303232390000000000000000";

/// An EXPIRED with a VisibleString in a GeneralString's segments.
const TYPED_SEGMENT_HEX: &str =
    "7421301f800102a10ca1053a031a0147a2031b0151a20ca00a80083230323430323239";
