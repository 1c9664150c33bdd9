//! A message as a line of JSON.
ghost use Rattle.std.specs.Prelude.{◌≡◌, IfOk, length};
ghost use Rattle.ber_leaf.specs.Profile.{Profile as Meaning, profile_two};
ghost use Rattle.ill_schema.specs.Apdu.{Apdu, normal_form_in};
ghost use Rattle.ill_schema.specs.Profiles.{profile_of};
ghost use Rattle.ill_grammar.specs.Outline.{IsOutlineOf};
ghost use Rattle.ill_c.specs.Calls.{Writes, WritesAs, WritesIn, line_head_of, json_in};
ghost use Rattle.ill_c.specs.Memory.{change};
ghost use Rattle.ill_c.specs.Profiles.{profile_numbered};
ghost use Rattle.ill_c.specs.Status.{ReturnsStatus};

use crate::profile::profile_numbered;
use crate::put::put;
use crate::refusal::{IllcanonRefusal, report};
use crate::status::Status;
use crate::whole::read_whole_outline;
use ill_json::{LineHead, json_line};
use ill_normal::{MessagePlace, Profile};
use ill_read::OutlinedMessage;
use std::alloc::{AllocError, Global};

/// Writes the line of JSON of the message that the octets are, under a number, after as many octets as the offset says.
#[unsafe(no_mangle)]
pub extern "C" fn illcanon_json(
    alloc: Global,
    octets: &[u8],
    number: u32,
    offset: u64,
    buffer: &mut [u8],
    size: &mut usize,
    refusal: &mut IllcanonRefusal,
) -> u32
    ensures { ReturnsStatus result (Writes (json_in number offset octets.now profile_two) octets.now
        (change buffer.old buffer.new) (change size.old size.new)
        (change refusal.old refusal.new)) }
{
    let place = MessagePlace { number, offset };
    json(alloc, Profile::Two, octets, place, buffer, size, refusal).number()
}

/// Writes the line of JSON of the message in the profile of a number that the octets are, under another number, after as many octets as
/// the offset says.
#[unsafe(no_mangle)]
pub extern "C" fn illcanon_json_as(
    alloc: Global,
    profile: u32,
    octets: &[u8],
    number: u32,
    offset: u64,
    buffer: &mut [u8],
    size: &mut usize,
    refusal: &mut IllcanonRefusal,
) -> u32
    ensures { ReturnsStatus result (WritesAs (profile_numbered profile)
        (json_in number offset octets.now) octets.now (change buffer.old buffer.new)
        (change size.old size.new) (change refusal.old refusal.new)) }
{
    let place = MessagePlace { number, offset };
    match profile_numbered(profile) {
        Some(profile) => json(alloc, profile, octets, place, buffer, size, refusal).number(),
        None => Status::UnknownProfile.number(),
    }
}

fn json(
    alloc: Global,
    profile: Profile,
    octets: &[u8],
    place: MessagePlace,
    buffer: &mut [u8],
    size: &mut usize,
    refusal: &mut IllcanonRefusal,
) -> Status
    ensures { WritesIn (profile_of profile)
        (json_in place.number place.offset octets.now (profile_of profile)) octets.now
        (change buffer.old buffer.new) (change size.old size.new)
        (change refusal.old refusal.new) result }
{
    let message = match read_whole_outline(alloc, profile, octets) {
        Ok(message) => message,
        Err(failure) => return report(failure, refusal),
    };
    match line(alloc, profile, octets, place, &message) {
        Ok(line) => put(&line, buffer, size),
        Err(AllocError) => Status::OutOfMemory,
    }
}

/// The line of the message in the profile that the octets are, which was read.
fn line(
    alloc: Global,
    profile: Profile,
    octets: &[u8],
    place: MessagePlace,
    message: &OutlinedMessage,
) -> Result<Vec<u8>, AllocError>
    ensures { (a : Apdu) → message.now.normal.items ≡ normal_form_in (profile_of profile) a
        → message.now.input_len ≡ length octets.now → IsOutlineOf message.now.outline a
        → IfOk result (λ line. line.items
        ≡ json_in place.number place.offset octets.now (profile_of profile) a) }
{
    let head = head(octets, place, message);
    json_line(
        alloc,
        profile,
        Vec::new(alloc),
        None,
        head,
        &message.outline,
    )
}

/// The head of the line: all that it says beside the value.
fn head(octets: &[u8], place: MessagePlace, message: &OutlinedMessage) -> LineHead
    ensures { (p : Meaning) (a : Apdu) → message.now.normal.items ≡ normal_form_in p a
        → message.now.input_len ≡ length octets.now
        → result ≡ line_head_of place.number place.offset octets.now p a }
{
    LineHead {
        number: place.number,
        offset: place.offset,
        octets: message.input_len,
        is_normal: octets == message.normal.as_slice(),
    }
}
