//! The output of a job for one message.
ghost use Rattle.std.specs.Prelude.{◌≡◌, ◌↔◌, ℕ, List, ◌++◌, codes, option_map, IfOk, IsTrue};
ghost use Rattle.hex.specs.Hex.{encode_lower};
ghost use Rattle.ill_grammar.specs.Outline.{IsOutlineOf};
ghost use Rattle.ill_schema.specs.Apdu.{Apdu, SpellsApdu};
ghost use Rattle.ill_schema.specs.Profiles.{profile_of};
ghost use Rattle.ill_tables.specs.declared.profile.Profile.{Profile as Named};
ghost use Rattle.ill_normal.specs.Messages.{spelling};
ghost use Rattle.ill_normal.specs.ReadMessages.{IsMessage, wants};
ghost use Rattle.ill_normal.specs.declared.message_reader.Wants.{Wants as Wanted};
ghost use Rattle.ill_normal.specs.declared.messages.MessagePlace.{MessagePlace as Place};
ghost use Rattle.ill_text.specs.Shown.{shown_text_in};
ghost use Rattle.ill_commands.specs.declared.job.Job.{Job as Task};
ghost use Rattle.ill_inputs.specs.Inputs.{label_of};
ghost use Rattle.ill_commands.specs.Output.{file_of, good_if, head_of, line_of_check, line_of_digest};
ghost use Rattle.ill_commands.specs.code.Rendering.{Renders, needs_of};
ghost use Rattle.ill_commands.specs.code.Writing.{IsCheckOf, IsWritten};

use crate::job::{Job, JobOptions};
use crate::result::{check_json_message, digest_json_message};
use crate::written::{JobOutput, RenderedMessage};
use ill_json::{LineHead, json_line};
use ill_normal::{
    Checked, MessagePlace, ReadMessage, Wants, apdu_name_or_empty, apdu_number, normal_digest,
    put_check_words,
};
use ill_read::Outline;
use ill_schema::{LIMIT, Profile};
use ill_text::Text;
use itoa::Buffer;
use std::alloc::{AllocError, Global};
use std::mem;

/// The number of octets of a label that are counted with those of a text.
const MAX_LABEL_LEN: usize = 1 << 62;

/// What a job needs of each message.
#[inline(always)]
pub(crate) fn needs_of(work: JobOptions<'_>) -> Wants
    ensures { result ≡ needs_of work.entry.job work.entry.compares }
{
    match work.job {
        Job::Show => wants(work.compares, true),
        Job::Json => wants(true, true),
        Job::Check | Job::CheckJson | Job::DigestJson => wants(true, false),
        Job::Digest | Job::Canonicalise => wants(work.compares, false),
    }
}

#[inline(always)]
fn wants(spelled: bool, outline: bool) -> Wants
    ensures { result ≡ wants spelled outline }
{
    Wants { spelled, outline }
}

/// Makes the output of a job for a message, in the memory of both. Their contents are forgotten.
#[inline(always)]
pub(crate) fn render_message(
    alloc: Global,
    work: JobOptions<'_>,
    place: MessagePlace,
    message: &mut ReadMessage,
    buffer: JobOutput,
) -> Result<RenderedMessage, AllocError>
    ensures { Renders work.entry.job work.entry place message.old result }
{
    match work.job {
        Job::Show => show_message(alloc, work, place, message, buffer),
        Job::Json => json_message(alloc, work, place, message, buffer.into_octets()),
        Job::Check => check_message(work, place, message, buffer.into_octets()),
        Job::CheckJson => check_json_message(alloc, work, place, message, buffer.into_octets()),
        Job::Digest => digest_message(alloc, work, place, message, buffer.into_octets()),
        Job::DigestJson => digest_json_message(alloc, work, place, message, buffer.into_octets()),
        Job::Canonicalise => canonical_message(alloc, work, message, buffer.into_octets()),
    }
}

/// Tells whether a message is its normal form, whose octets were kept.
#[inline(always)]
fn is_normal(message: &ReadMessage) -> bool
    ensures { IsTrue result ↔ (message.now.spelled.items ≡ message.now.normal.items) }
{
    message.spelled.as_slice() == message.normal.as_slice()
}

/// Tells whether a message counts as good, which is compared with its normal form or not.
#[inline(always)]
fn is_good_if(compares: bool, message: &ReadMessage) -> bool
    ensures { (profile : Named) (wants : Wanted) (octets : List ℕ)
        → (h : IsMessage (profile_of profile) wants message.now octets) → wants.spelled ≡ compares
        → result ≡ good_if (profile_of profile) compares (spelling h.apdu octets) }
{
    if compares { is_normal(message) } else { true }
}

/// The facts of a message whose octets were kept.
#[inline(always)]
pub(crate) fn checked_of(message: &ReadMessage) -> Checked
    ensures { (profile : Named) (wants : Wanted) (octets : List ℕ)
        → (h : IsMessage (profile_of profile) wants message.now octets) → IsTrue wants.spelled
        → IsCheckOf (profile_of profile) result (spelling h.apdu octets) }
{
    let size = message.normal.as_slice().len();
    Checked {
        apdu: apdu_number(&message.normal),
        octets: message.len,
        normal: size.min(LIMIT as usize) as u32,
        is_normal: is_normal(message),
    }
}

fn show_message(
    alloc: Global,
    work: JobOptions<'_>,
    place: MessagePlace,
    message: &mut ReadMessage,
    buffer: JobOutput,
) -> Result<RenderedMessage, AllocError>
    ensures { Renders Task.Show work.entry place message.old result }
{
    let is_good = is_good_if(work.compares, message);
    let (label, memory) = buffer.into_both(alloc);
    let outline = mem::replace(&mut message.outline, memory);
    let text = labelled_text(alloc, label, work, place.number, outline)?;
    Ok(RenderedMessage { text, is_good })
}

fn json_message(
    alloc: Global,
    work: JobOptions<'_>,
    place: MessagePlace,
    message: &mut ReadMessage,
    buffer: Vec<u8>,
) -> Result<RenderedMessage, AllocError>
    ensures { Renders Task.Json work.entry place message.old result }
{
    let is_good = is_normal(message);
    let head = head(place, message.len, is_good);
    let outline = &message.outline;
    let line = json_line(alloc, work.profile, buffer, file_of(work), head, outline)?;
    Ok(RenderedMessage {
        text: JobOutput::Octets(line),
        is_good,
    })
}

/// The name of the file that a line of JSON has, if there are several files.
pub(crate) fn file_of(work: JobOptions<'_>) -> Option<&str>
    ensures { option_map (λ name. name.now) result
        ≡ file_of work.entry.names_input work.entry.name.now }
{
    work.names_input.then_some(work.name)
}

/// The head of a line of JSON: all of it but the value.
pub(crate) fn head(position: MessagePlace, octets: u32, is_normal: bool) -> LineHead
    ensures { result ≡ head_of position octets is_normal }
{
    LineHead {
        number: position.number,
        offset: position.offset,
        octets,
        is_normal,
    }
}

/// The text of the message that the outline is of, after its label. Where the label is too long to be counted with a text, the octets
/// of both are made.
fn labelled_text(
    alloc: Global,
    buffer: Vec<u8>,
    work: JobOptions<'_>,
    number: u32,
    outline: Outline,
) -> Result<JobOutput, AllocError>
    ensures { (a : Apdu) (octets : List ℕ) → SpellsApdu (profile_of work.entry.profile) a octets
        → IsOutlineOf outline a
        → IfOk result (λ text. IsWritten text
        (label_of work.entry.names_input work.entry.name.now
        ++ shown_text_in (profile_of work.entry.profile) number a)) }
{
    let mut label = label(buffer, work)?;
    let text = Text::new_as(work.profile, number, outline);
    if label.len() > MAX_LABEL_LEN {
        label.extend_from_slice(&text.octets(alloc)?)?;
        return Ok(JobOutput::Octets(label));
    }
    Ok(JobOutput::Shown { label, text })
}

/// The label that the line of a message begins with, in the memory of `buffer`, whose octets are forgotten.
#[inline(always)]
fn label(buffer: Vec<u8>, work: JobOptions<'_>) -> Result<Vec<u8>, AllocError>
    ensures { IfOk result (λ line. line.items
        ≡ label_of work.entry.names_input work.entry.name.now) }
{
    let mut line = buffer;
    line.clear();
    if !work.names_input {
        return Ok(line);
    }
    line.extend_from_slice(work.name.as_bytes())?;
    line.extend_from_slice(b": ")?;
    Ok(line)
}

fn check_message(
    work: JobOptions<'_>,
    place: MessagePlace,
    message: &mut ReadMessage,
    buffer: Vec<u8>,
) -> Result<RenderedMessage, AllocError>
    ensures { Renders Task.Check work.entry place message.old result }
{
    let found = checked_of(message);
    let line = check_line(buffer, work, place.number, found)?;
    Ok(RenderedMessage {
        text: JobOutput::Octets(line),
        is_good: found.is_normal,
    })
}

/// The line that says whether a message is its normal form, in the memory of `buffer`, whose octets are forgotten.
#[inline(always)]
fn check_line(
    buffer: Vec<u8>,
    work: JobOptions<'_>,
    number: u32,
    found: Checked,
) -> Result<Vec<u8>, AllocError>
    ensures { IfOk result (λ line. line.items
        ≡ line_of_check (profile_of work.entry.profile)
        (label_of work.entry.names_input work.entry.name.now) number found.apdu found.octets
        found.is_normal found.normal) }
{
    let name = apdu_name_or_empty(work.profile, found.apdu);
    let mut line = label(buffer, work)?;
    line.extend_from_slice(b"message ")?;
    line.extend_from_slice(Buffer::new().format(number).as_bytes())?;
    line.extend_from_slice(b": ")?;
    put_check_words(
        &mut line,
        name,
        found.octets as usize,
        found.is_normal,
        found.normal as usize,
    )?;
    line.push(b'\n')?;
    Ok(line)
}

fn digest_message(
    alloc: Global,
    work: JobOptions<'_>,
    place: MessagePlace,
    message: &mut ReadMessage,
    buffer: Vec<u8>,
) -> Result<RenderedMessage, AllocError>
    ensures { Renders Task.Digest work.entry place message.old result }
{
    let is_good = is_good_if(work.compares, message);
    let digest = normal_digest(&message.normal);
    let line = digest_line(alloc, buffer, &digest, work.name, place.number)?;
    Ok(RenderedMessage {
        text: JobOutput::Octets(line),
        is_good,
    })
}

/// The line of a message with this digest, in the memory of `buffer`, whose octets are forgotten.
fn digest_line(
    alloc: Global,
    buffer: Vec<u8>,
    digest: &[u8],
    name: &str,
    number: u32,
) -> Result<Vec<u8>, AllocError>
    ensures { IfOk result (λ line. line.items ≡ line_of_digest digest.now name.now number) }
{
    let digits = hex::encode(alloc, digest)?;
    let mut line = buffer;
    line.clear();
    line.extend_from_slice(digits.as_bytes())?;
    line.extend_from_slice(b"  ")?;
    line.extend_from_slice(name.as_bytes())?;
    line.extend_from_slice(b":")?;
    line.extend_from_slice(Buffer::new().format(number).as_bytes())?;
    line.extend_from_slice(b"\n")?;
    Ok(line)
}

/// Makes the normal form, or its line of digits. Most messages pass here, so it is a part of the loop.
#[inline(always)]
fn canonical_message(
    alloc: Global,
    work: JobOptions<'_>,
    message: &mut ReadMessage,
    buffer: Vec<u8>,
) -> Result<RenderedMessage, AllocError>
    ensures { (place : Place) → Renders Task.Canonicalise work.entry place message.old result }
{
    let is_good = is_good_if(work.compares, message);
    if !work.hex {
        return Ok(RenderedMessage {
            text: JobOutput::Octets(mem::replace(&mut message.normal, buffer)),
            is_good,
        });
    }
    let line = hex_line(alloc, &message.normal)?;
    Ok(RenderedMessage {
        text: JobOutput::Octets(line),
        is_good,
    })
}

fn hex_line(alloc: Global, octets: &[u8]) -> Result<Vec<u8>, AllocError>
    ensures { IfOk result (λ line. line.items ≡ encode_lower octets.now ++ codes "\n") }
{
    let digits = hex::encode(alloc, octets)?;
    let mut line = digits.into_bytes();
    line.extend_from_slice(b"\n")?;
    Ok(line)
}
