//! The first line of a message, made.
ghost use Rattle.std.specs.Prelude.{◌≡◌, ◌++◌, OnOk};
ghost use Rattle.ill_inputs.specs.Inputs.{label_of};
ghost use Rattle.ill_walk.specs.Markup.{shown_in};
ghost use Rattle.ill_dump.specs.Dumped.{head};

use crate::run::DumpOptions;
use ill_normal::{apdu_name_or_empty, apdu_number, put_check_words};
use ill_walk::LineBuffer;
use std::alloc::AllocError;

/// The beginning of the first line of a message.
pub(crate) fn put_head(
    dump: DumpOptions<'_>,
    message: u32,
    lines: &mut LineBuffer,
) -> Result<(), AllocError>
    ensures { OnOk result (lines.new.octets.items ≡ lines.old.octets.items
        ++ head dump.entry message) }
{
    lines.tags_in(dump.format, "<section><h2>")?;
    put_label(dump, lines)?;
    lines.text_in(dump.format, "message ")?;
    lines.count(message as usize)?;
    lines.text_in(dump.format, ": ")
}

/// The name of the input, where the first line of a message begins with it.
fn put_label(dump: DumpOptions<'_>, lines: &mut LineBuffer) -> Result<(), AllocError>
    ensures { OnOk result (lines.new.octets.items ≡ lines.old.octets.items
        ++ label_of dump.entry.names_input (shown_in dump.entry.format dump.entry.name.now)) }
{
    if dump.names_input {
        lines.text_in(dump.format, dump.name)?;
        lines.text_in(dump.format, ": ")?;
    }
    Ok(())
}

/// The rest of the line of a message: its APDU, its size, and whether it is in normal form.
pub(crate) fn put_check(
    dump: DumpOptions<'_>,
    octets: &[u8],
    normal: &[u8],
    lines: &mut LineBuffer,
) -> Result<(), AllocError> {
    let is_normal = octets == normal;
    lines.tags(if is_normal {
        "<span class=\"good\">"
    } else {
        "<span class=\"warn\">"
    })?;
    let name = apdu_name_or_empty(dump.profile, apdu_number(normal));
    put_check_words(
        &mut lines.octets,
        name,
        octets.len(),
        is_normal,
        normal.len(),
    )?;
    lines.text("\n")?;
    lines.tags("</span></h2>")
}

/// The rest of the line of a message that is refused.
pub(crate) fn put_refused_line(lines: &mut LineBuffer) -> Result<(), AllocError> {
    lines.tags("<span class=\"bad\">")?;
    lines.text("refused\n")?;
    lines.tags("</span></h2>")
}
