//! The results of messages as lines of JSON.
ghost use Rattle.std.specs.Prelude.{◌≡◌, IfOk, option_map};
ghost use Rattle.ill_schema.specs.Profiles.{profile_of};
ghost use Rattle.ill_commands.specs.declared.job.Job.{Job};
ghost use Rattle.ill_commands.specs.Output.{line_of_result};
ghost use Rattle.ill_commands.specs.code.Rendering.{Renders};

use crate::job::JobOptions;
use crate::piece::{checked_of, file_of, head};
use crate::written::{JobOutput, RenderedMessage};
use ill_json::result_line;
use ill_normal::{Checked, MessagePlace, ReadMessage, apdu_name_or_empty, normal_digest};
use std::alloc::{AllocError, Global};

/// The line of a message that is checked.
pub fn check_json_message(
    alloc: Global,
    work: JobOptions<'_>,
    place: MessagePlace,
    message: &mut ReadMessage,
    buffer: Vec<u8>,
) -> Result<RenderedMessage, AllocError>
    ensures { Renders Job.CheckJson work.entry place message.old result }
{
    let found = checked_of(message);
    let line = line_of(alloc, buffer, work, place, found, None)?;
    Ok(RenderedMessage {
        text: JobOutput::Octets(line),
        is_good: found.is_normal,
    })
}

/// The line of a message that is checked, with its digest.
pub fn digest_json_message(
    alloc: Global,
    work: JobOptions<'_>,
    place: MessagePlace,
    message: &mut ReadMessage,
    buffer: Vec<u8>,
) -> Result<RenderedMessage, AllocError>
    ensures { Renders Job.DigestJson work.entry place message.old result }
{
    let found = checked_of(message);
    let digest = normal_digest(&message.normal);
    let line = line_of(alloc, buffer, work, place, found, Some(&digest))?;
    Ok(RenderedMessage {
        text: JobOutput::Octets(line),
        is_good: found.is_normal,
    })
}

/// The line of a message, in the memory of `buffer`, whose octets are forgotten.
fn line_of(
    alloc: Global,
    buffer: Vec<u8>,
    work: JobOptions<'_>,
    position: MessagePlace,
    found: Checked,
    digest: Option<&[u8]>,
) -> Result<Vec<u8>, AllocError>
    ensures { IfOk result (λ line. line.items ≡ line_of_result (profile_of work.entry.profile)
        work.entry.names_input work.entry.name.now position found.apdu found.octets
        found.is_normal (option_map (λ octets. octets.now) digest.entry)) }
{
    let name = apdu_name_or_empty(work.profile, found.apdu);
    let head = head(position, found.octets, found.is_normal);
    result_line(alloc, buffer, file_of(work), head, name, digest)
}
