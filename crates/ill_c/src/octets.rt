//! Octets that are made of a message and written to the caller's buffer.
ghost use Rattle.std.specs.Prelude.{◌≡◌, ℕ, List, IfOk};
ghost use Rattle.ill_schema.specs.Apdu.{Apdu, SpellsApdu, normal_form, normal_form_in};
ghost use Rattle.ill_schema.specs.Profiles.{profile_of};
ghost use Rattle.ill_grammar.specs.Outline.{IsOutlineOf};
ghost use Rattle.ill_text.specs.Shown.{shown_text, shown_text_in};
ghost use Rattle.ill_c.specs.Calls.{Writes, WritesAs, WritesIn, digest, digest_in};
ghost use Rattle.ill_c.specs.Memory.{change};
ghost use Rattle.ill_c.specs.Profiles.{profile_numbered};
ghost use Rattle.ill_c.specs.Status.{ReturnsStatus};

use crate::profile::profile_numbered;
use crate::put::put;
use crate::refusal::{IllcanonRefusal, report};
use crate::status::Status;
use crate::whole::read_whole_outline;
use ill_normal::{Profile, decode_normal, message_digest};
use ill_read::Outline;
use ill_text::Text;
use std::alloc::{AllocError, Global};

/// Writes the normal form of the message that the octets are.
#[unsafe(no_mangle)]
pub extern "C" fn illcanon_normalise(
    alloc: Global,
    octets: &[u8],
    buffer: &mut [u8],
    size: &mut usize,
    refusal: &mut IllcanonRefusal,
) -> u32
    ensures { ReturnsStatus result (Writes normal_form octets.now (change buffer.old buffer.new)
        (change size.old size.new) (change refusal.old refusal.new)) }
{
    normalise(alloc, Profile::Two, octets, buffer, size, refusal).number()
}

/// Writes the normal form of the message in the profile of a number that the octets are.
#[unsafe(no_mangle)]
pub extern "C" fn illcanon_normalise_as(
    alloc: Global,
    profile: u32,
    octets: &[u8],
    buffer: &mut [u8],
    size: &mut usize,
    refusal: &mut IllcanonRefusal,
) -> u32
    ensures { ReturnsStatus result (WritesAs (profile_numbered profile) normal_form_in octets.now
        (change buffer.old buffer.new) (change size.old size.new)
        (change refusal.old refusal.new)) }
{
    match profile_numbered(profile) {
        Some(profile) => normalise(alloc, profile, octets, buffer, size, refusal).number(),
        None => Status::UnknownProfile.number(),
    }
}

fn normalise(
    alloc: Global,
    profile: Profile,
    octets: &[u8],
    buffer: &mut [u8],
    size: &mut usize,
    refusal: &mut IllcanonRefusal,
) -> Status
    ensures { WritesIn (profile_of profile) (normal_form_in (profile_of profile)) octets.now
        (change buffer.old buffer.new) (change size.old size.new)
        (change refusal.old refusal.new) result }
{
    match decode_normal(alloc, profile, octets) {
        Ok(normal) => put(&normal.octets, buffer, size),
        Err(failure) => report(failure, refusal),
    }
}

/// Writes the text of the message that the octets are, under a number.
#[unsafe(no_mangle)]
pub extern "C" fn illcanon_show(
    alloc: Global,
    octets: &[u8],
    number: u32,
    buffer: &mut [u8],
    size: &mut usize,
    refusal: &mut IllcanonRefusal,
) -> u32
    ensures { ReturnsStatus result (Writes (shown_text number) octets.now (change buffer.old buffer.new)
        (change size.old size.new) (change refusal.old refusal.new)) }
{
    show(alloc, Profile::Two, octets, number, buffer, size, refusal).number()
}

/// Writes the text of the message in the profile of a number that the octets are, under another number.
#[unsafe(no_mangle)]
pub extern "C" fn illcanon_show_as(
    alloc: Global,
    profile: u32,
    octets: &[u8],
    number: u32,
    buffer: &mut [u8],
    size: &mut usize,
    refusal: &mut IllcanonRefusal,
) -> u32
    ensures { ReturnsStatus result (WritesAs (profile_numbered profile) (λ p. shown_text_in p number)
        octets.now (change buffer.old buffer.new) (change size.old size.new)
        (change refusal.old refusal.new)) }
{
    match profile_numbered(profile) {
        Some(profile) => show(alloc, profile, octets, number, buffer, size, refusal).number(),
        None => Status::UnknownProfile.number(),
    }
}

fn show(
    alloc: Global,
    profile: Profile,
    octets: &[u8],
    number: u32,
    buffer: &mut [u8],
    size: &mut usize,
    refusal: &mut IllcanonRefusal,
) -> Status
    ensures { WritesIn (profile_of profile) (shown_text_in (profile_of profile) number) octets.now
        (change buffer.old buffer.new) (change size.old size.new)
        (change refusal.old refusal.new) result }
{
    let outline = match read_whole_outline(alloc, profile, octets) {
        Ok(message) => message.outline,
        Err(failure) => return report(failure, refusal),
    };
    match text_octets(alloc, profile, number, outline) {
        Ok(text) => put(&text, buffer, size),
        Err(AllocError) => Status::OutOfMemory,
    }
}

/// The text of the message in the profile that the outline is of.
fn text_octets(
    alloc: Global,
    profile: Profile,
    number: u32,
    outline: Outline,
) -> Result<Vec<u8>, AllocError>
    ensures { (a : Apdu) (octets : List ℕ) → SpellsApdu (profile_of profile) a octets
        → IsOutlineOf outline a
        → IfOk result (λ text. text.items ≡ shown_text_in (profile_of profile) number a) }
{
    Text::new_as(profile, number, outline).octets(alloc)
}

/// Writes the digest of the message that the octets are, of 32 octets.
#[unsafe(no_mangle)]
pub extern "C" fn illcanon_digest(
    alloc: Global,
    octets: &[u8],
    buffer: &mut [u8],
    size: &mut usize,
    refusal: &mut IllcanonRefusal,
) -> u32
    ensures { ReturnsStatus result (Writes digest octets.now (change buffer.old buffer.new)
        (change size.old size.new) (change refusal.old refusal.new)) }
{
    digest(alloc, Profile::Two, octets, buffer, size, refusal).number()
}

/// Writes the digest of the message in the profile of a number that the octets are, of 32 octets.
#[unsafe(no_mangle)]
pub extern "C" fn illcanon_digest_as(
    alloc: Global,
    profile: u32,
    octets: &[u8],
    buffer: &mut [u8],
    size: &mut usize,
    refusal: &mut IllcanonRefusal,
) -> u32
    ensures { ReturnsStatus result (WritesAs (profile_numbered profile) digest_in octets.now
        (change buffer.old buffer.new) (change size.old size.new)
        (change refusal.old refusal.new)) }
{
    match profile_numbered(profile) {
        Some(profile) => digest(alloc, profile, octets, buffer, size, refusal).number(),
        None => Status::UnknownProfile.number(),
    }
}

fn digest(
    alloc: Global,
    profile: Profile,
    octets: &[u8],
    buffer: &mut [u8],
    size: &mut usize,
    refusal: &mut IllcanonRefusal,
) -> Status
    ensures { WritesIn (profile_of profile) (digest_in (profile_of profile)) octets.now
        (change buffer.old buffer.new) (change size.old size.new)
        (change refusal.old refusal.new) result }
{
    match message_digest(alloc, profile, octets) {
        Ok(digest) => put(&digest, buffer, size),
        Err(failure) => report(failure, refusal),
    }
}
