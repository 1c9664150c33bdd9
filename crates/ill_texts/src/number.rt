//! Decimals as whole numbers.
ghost use Rattle.std.specs.Prelude.{◌≡◌, ◌||◌, ℤ, Err, false, true, FitsSigned, IfNone, IfOk, IfSome, IsTrue};
ghost use Rattle.std.specs.Fmt.{signed_decimal};
ghost use Rattle.std.specs.Int.{w64};
ghost use Rattle.ill_texts.specs.Numbers.{is_negative, is_positive, is_whole};

use fast_float::parse_i64;
use itoa::Buffer;

/// Why a text is no whole number of 64 bits.
#[derive(Clone, Copy, Debug, PartialEq, Eq)]
pub enum NumberFault {
    /// The text isn't that of a whole number: it has a fraction, an exponent, a plus sign, a leading
    /// zero or a sign before a zero, or it is no number at all.
    NotWhole,
    /// The number takes more than 64 bits.
    TooLong,
}

/// The whole number whose decimals the text is, as JSON writes it.
///
/// ```
/// // Ok(-12)
/// let number = whole_number("-12");
/// // Err(NumberFault::NotWhole)
/// let number = whole_number("1e3");
/// ```
///
/// # Errors
///
/// Whether the text isn't that of a whole number, or the number takes more than 64 bits.
pub fn whole_number(text: &str) -> Result<i64, NumberFault>
    ensures whole { IfOk result (λ n. text.now ≡ signed_decimal n) }
    ensures not_whole { result ≡ Err NumberFault.NotWhole → is_whole text.now ≡ false }
    ensures too_long { result ≡ Err NumberFault.TooLong → IsTrue (is_whole text.now)
        × ((n : ℤ) → FitsSigned w64 n → text.now ≡ signed_decimal n → ⊥) }
{
    match number_of(text) {
        Some(number) => Ok(number),
        None if is_whole(text) => Err(NumberFault::TooLong),
        None => Err(NumberFault::NotWhole),
    }
}

/// The number whose decimals the text is, if 64 bits hold one.
fn number_of(text: &str) -> Option<i64>
    ensures some { IfSome result (λ n. text.now ≡ signed_decimal n) }
    ensures none { IfNone result ((n : ℤ) → FitsSigned w64 n → text.now ≡ signed_decimal n → ⊥) }
{
    let Ok(number) = parse_i64(text.as_bytes()) else {
        return None;
    };
    // What is read may have a plus sign or leading zeros, and what is written has none.
    if is_text_of(number, text) {
        Some(number)
    } else {
        None
    }
}

/// Tells whether the text is that of the number.
fn is_text_of(number: i64, text: &str) -> bool
    ensures yes { result ≡ true → text.now ≡ signed_decimal number }
    ensures no { result ≡ false → text.now ≡ signed_decimal number → ⊥ }
{
    let mut buffer = Buffer::new();
    buffer.format(number) == text
}

/// Tells whether the text is that of a whole number, as JSON writes it.
fn is_whole(text: &str) -> bool
    ensures { result ≡ is_whole text.now }
{
    text == "0" || is_positive(text.as_bytes()) || is_negative(text.as_bytes())
}

/// Tells whether the text is digits, of which the first isn't 0.
fn is_positive(text: &[u8]) -> bool
    ensures { result ≡ is_positive text.now }
{
    match text.split_first() {
        Some((first, _)) => *first != b'0' && text.iter().all(|digit| digit.is_ascii_digit()),
        None => false,
    }
}

/// Tells whether the text is a minus sign, and digits of which the first isn't 0.
fn is_negative(text: &[u8]) -> bool
    ensures { result ≡ is_negative text.now }
{
    match text.split_first() {
        Some((sign, digits)) => *sign == b'-' && is_positive(digits),
        None => false,
    }
}
