//! Reads the header at the front of octets, as far as they reach.
ghost use Rattle.std.specs.Prelude.{◌≡◌, ◌+◌, ◌<◌, ◌≤◌, Bool, Some, length, min, drop, slice_get, MatchOption, false};
ghost use Rattle.std.specs.Int.Digits.{number_from_digits};
ghost use Rattle.ber_core.specs.Id.{form_of_id, tag_of_id};
ghost use Rattle.ber_core.specs.HeaderRead.{IsHeaderRead, IsLengthRead};
ghost use Rattle.ber_core.specs.Reading.{class_of, identified, has_short_identifier, is_whole, read_identifier, read_length};

use crate::header::{HeaderFault, HeaderState, Len};
use crate::id::Id;
use ber_tree::Class;

/// A header at the front of octets, as far as they show it.
#[derive(Clone, Copy)]
pub enum HeaderRead {
    /// They begin with no identifier.
    NoIdentifier,
    /// They are the first octets of an identifier.
    PartIdentifier,
    /// They begin with this identifier, and show this of the length.
    Identified(Id, LengthRead),
}

/// A length after an identifier, as far as the octets show it.
#[derive(Clone, Copy)]
pub enum LengthRead {
    /// They begin with no length.
    NoLength,
    /// They are the first octets of a length: the least number of octets that still belong to the header.
    PartLength(u32),
    /// The length, and the number of octets of the header.
    Whole(Len, u32),
}

/// Reads the header that octets begin with, as far as they reach (X.690, 8.1.2 and 8.1.3).
///
/// ```
/// let HeaderRead::Identified(id, LengthRead::Whole(len, header_len)) = read_header(octets) else {
///     return None;
/// };
/// ```
#[inline(always)]
pub fn read_header(octets: &[u8]) -> HeaderRead
    requires { length octets.now ≤ 4_294_967_295 }
    ensures { IsHeaderRead result octets.now }
{
    let Some(id) = first_identifier(octets) else {
        return read_any(octets);
    };
    match length_after(octets, id.constructed()) {
        Some(length) => HeaderRead::Identified(id, length),
        None => read_any(octets),
    }
}

/// Reads a header octet by octet.
#[inline(never)]
fn read_any(octets: &[u8]) -> HeaderRead
    requires { length octets.now ≤ 4_294_967_295 }
    ensures { IsHeaderRead result octets.now }
{
    let mut state = HeaderState::new();
    for (i, octet) in octets.iter().enumerate() {
        match state.push(*octet) {
            Ok(None) => {}
            Ok(Some(header)) => {
                return HeaderRead::Identified(
                    header.id,
                    LengthRead::Whole(header.len, i as u32 + 1),
                );
            }
            Err(HeaderFault::BadTag) => return HeaderRead::NoIdentifier,
            Err(HeaderFault::BadLength) => {
                return match state.id() {
                    Some(id) => HeaderRead::Identified(id, LengthRead::NoLength),
                    None => HeaderRead::NoIdentifier,
                };
            }
        }
    }
    match state.id() {
        None => HeaderRead::PartIdentifier,
        Some(id) => HeaderRead::Identified(id, LengthRead::PartLength(state.due())),
    }
}

/// The length after an identifier of one octet, at the front of octets (X.690, 8.1.3.3 to 8.1.3.6): a fast path of [`read_header`]. None
/// where no whole length follows.
///
/// ```
/// // Some(LengthRead::Whole(Len::Definite(5), 2))
/// let read = length_after(&[0x04, 0x05], false);
/// ```
#[inline(always)]
pub fn length_after(octets: &[u8], constructed: bool) -> Option<LengthRead>
    ensures { MatchOption result (is_whole (read_length constructed (drop 1 octets.now)) ≡ false)
        (λ read. IsLengthRead read (read_length constructed (drop 1 octets.now)) octets.now) }
{
    let first = *octets.get(1)?;
    // Most lengths are of one octet, so that is asked first.
    if first < 128 {
        return Some(LengthRead::Whole(Len::Definite(first as u32), 2));
    }
    long_length(octets, first, constructed)
}

/// The length whose first octet is this one, which is no length by itself.
#[inline(always)]
fn long_length(octets: &[u8], first: u8, constructed: bool) -> Option<LengthRead>
    requires first { slice_get octets.now 1 ≡ Some first }
    requires long { 128 ≤ first }
    ensures { MatchOption result (is_whole (read_length constructed (drop 1 octets.now)) ≡ false)
        (λ read. IsLengthRead read (read_length constructed (drop 1 octets.now)) octets.now) }
{
    match first {
        132 => length_in_four(octets),
        128 => constructed.then_some(LengthRead::Whole(Len::Indefinite, 2)),
        _ => length_in(octets, (first - 128) as usize),
    }
}

/// The length in the four octets after the first two.
#[inline(always)]
fn length_in_four(octets: &[u8]) -> Option<LengthRead>
    requires { slice_get octets.now 1 ≡ Some 132 }
    ensures { (constructed : Bool)
        → MatchOption result (is_whole (read_length constructed (drop 1 octets.now)) ≡ false)
        (λ read. IsLengthRead read (read_length constructed (drop 1 octets.now)) octets.now) }
{
    let [_, _, a, b, c, d, ..] = octets else {
        return None;
    };
    let size = ((*a as u32 * 256 + *b as u32) * 256 + *c as u32) * 256 + *d as u32;
    Some(LengthRead::Whole(Len::Definite(size), 6))
}

/// The length in any number of octets after the first two.
#[inline(always)]
fn length_in(octets: &[u8], count: usize) -> Option<LengthRead>
    requires some { 0 < count }
    requires few { count ≤ 127 }
    requires first { slice_get octets.now 1 ≡ Some (128 + count) }
    ensures { (constructed : Bool)
        → MatchOption result (is_whole (read_length constructed (drop 1 octets.now)) ≡ false)
        (λ read. IsLengthRead read (read_length constructed (drop 1 octets.now)) octets.now) }
{
    // 127 is no number of octets (X.690, 8.1.3.5).
    if octets.len() < count + 2 || count == 127 {
        return None;
    }
    let size = number(&octets[2..count + 2]);
    Some(LengthRead::Whole(Len::Definite(size), count as u32 + 2))
}

/// The identifier at the front of octets, of one octet (X.690, 8.1.2.2 to 8.1.2.5): a fast path of [`read_header`]. None where there is no
/// octet, or the first begins an end mark or a longer identifier.
///
/// ```
/// // Some(id), of the class Application and the number 20
/// let id = first_identifier(&[0x74, 0x1F]);
/// ```
#[inline(always)]
pub fn first_identifier(octets: &[u8]) -> Option<Id>
    ensures { MatchOption result (has_short_identifier octets.now ≡ false)
        (λ id. read_identifier octets.now
        ≡ identified (tag_of_id id) (form_of_id id) (drop 1 octets.now)) }
{
    let first = *octets.first()?;
    if first % 32 == 31 {
        return None;
    }
    Id::new(class_in(first), first % 64 >= 32, (first % 32) as u32)
}

/// The number that these digits in base 256 spell, or 4,294,967,295 where it is larger.
#[inline(never)]
fn number(digits: &[u8]) -> u32
    ensures { result ≡ min (number_from_digits 256 digits.now) 4_294_967_295 }
{
    let mut number: u32 = 0;
    for digit in digits {
        number = number.saturating_mul(256).saturating_add(*digit as u32);
    }
    number
}

/// The class in the first octet of an identifier.
#[inline(always)]
fn class_in(octet: u8) -> Class
    ensures { result ≡ class_of octet }
{
    match octet / 64 {
        0 => Class::Universal,
        1 => Class::Application,
        2 => Class::Context,
        _ => Class::Private,
    }
}
