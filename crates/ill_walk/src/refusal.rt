//! A refusal in words: its cause, where it is, what was found there, and what was due.
use crate::due::{Due, is_foreign};
use crate::found::read_start;
use crate::lines::LineBuffer;
use crate::refused_place::{RefusedPlace, first_of};
use crate::walk::ElementWalk;
use ill_grammar::{Element, LeafType};
use ill_schema::{Cause, NodeId, Profile, Refusal, apdu_begun};
use std::alloc::{AllocError, Global};

/// The number of octets that are looked at to say that octets look like text.
const TEXT_LOOK: usize = 64;

/// The number of octets that an identifier has at most: the first one, and four of the tag number.
const MAX_IDENTIFIER: usize = 5;

/// Makes the lines of a refusal, of a message that was read up to its place.
pub fn put_refusal_lines(
    alloc: Global,
    lines: &mut LineBuffer,
    walk: &ElementWalk,
    octets: &[u8],
    refusal: Refusal,
) -> Result<(), AllocError> {
    walk.close_all(lines)?;
    lines.tags("<div class=\"refused\">")?;
    put_refusal(lines, refusal)?;
    lines.text("    ")?;
    lines.text(text_of(walk, refusal.cause))?;
    lines.text("\n")?;
    if apdu_begun(octets).is_none() {
        put_no_message(lines, octets)?;
    }
    put_clause(lines, octets, refusal)?;
    if refusal.cause != Cause::NormalTooLong {
        put_place(alloc, lines, walk, octets, refusal)?;
    }
    lines.tags("</div>")
}

/// The lines that say that no message begins with the octets, and that they look like text, where they do.
fn put_no_message(lines: &mut LineBuffer, octets: &[u8]) -> Result<(), AllocError> {
    lines.text("    no ILL message begins here\n")?;
    if first_of(octets, TEXT_LOOK)
        .iter()
        .all(|octet| is_text(*octet))
    {
        lines.text("    it looks like text\n")?;
    }
    Ok(())
}

/// Tells whether an octet is a printable character of ASCII, a tab or the end of a line.
fn is_text(octet: u8) -> bool {
    matches!(octet, b' '..=b'~' | b'\t' | b'\n' | b'\r')
}

/// The line of the clause that the cause of a refusal enforces.
fn put_clause(lines: &mut LineBuffer, octets: &[u8], refusal: Refusal) -> Result<(), AllocError> {
    let rest = octets.get(refusal.at as usize..).unwrap_or(&[]);
    lines.text("    clause ")?;
    lines.text(match refusal.cause {
        Cause::BadTag if has_long_number(rest) => "limit of illcanon",
        Cause::BadTag => "X.690, 8.1.2",
        cause => cause.clause(),
    })?;
    lines.text("\n")
}

/// `refused at`, the offset, and the cause with the part that it is about.
fn put_refusal(lines: &mut LineBuffer, refusal: Refusal) -> Result<(), AllocError> {
    lines.tags("<b>")?;
    lines.text("refused at ")?;
    lines.number(i64::from(refusal.at))?;
    lines.text(": ")?;
    lines.text(refusal.cause.name())?;
    if let Some((node, row)) = refusal.cause.part_name() {
        lines.text(" ")?;
        lines.text(node)?;
        lines.text(".")?;
        lines.text(row)?;
    }
    lines.tags("</b>")?;
    lines.text("\n")
}

/// The lines for the place of a refusal, and for what is there. Where no message begins, nothing is expected.
fn put_place<'a>(
    alloc: Global,
    lines: &mut LineBuffer,
    walk: &'a ElementWalk,
    octets: &'a [u8],
    refusal: Refusal,
) -> Result<(), AllocError> {
    let place = RefusedPlace::new(walk, octets, refusal);
    let is_begun = apdu_begun(octets).is_some();
    if is_begun {
        lines.text("    path ")?;
        let some = place.put_path(lines)?;
        lines.text(if some { "\n" } else { "none\n" })?;
    }
    lines.text("    found ")?;
    place.put_found(lines)?;
    lines.text("\n")?;
    if !is_begun {
        return Ok(());
    }
    put_due(lines, &place.due(alloc)?)?;
    if refusal.cause == Cause::WrongForm {
        lines.text("    due ")?;
        place.put_other_form(lines)?;
        lines.text("\n")?;
    }
    let rest = octets.get(refusal.at as usize..).unwrap_or(&[]);
    put_hint(lines, walk, rest, refusal.cause)
}

/// The lines for what was due, one for each thing.
fn put_due(lines: &mut LineBuffer, due: &[Due]) -> Result<(), AllocError> {
    for due in due {
        lines.text("    due ")?;
        due.put(lines)?;
        lines.text("\n")?;
    }
    if due.iter().any(|due| due.is_left_out()) {
        lines.text("    --profile module reads what is marked as not read\n")?;
    }
    Ok(())
}

/// The text of a cause, at the place that was reached.
fn text_of(walk: &ElementWalk, cause: Cause) -> &'static str {
    match cause {
        Cause::TooDeep if is_foreign(walk.place()) => {
            "a value of an open type would have more than 20 levels"
        }
        cause => cause.text(),
    }
}

/// Puts a hint that the message is not wrong by ISO 10161-1, where this is or may be so. The module profile reads what profile 2 leaves
/// out or tags in another way; there are things that neither reads.
fn put_hint(
    lines: &mut LineBuffer,
    walk: &ElementWalk,
    rest: &[u8],
    cause: Cause,
) -> Result<(), AllocError> {
    if walk.profile() != Profile::Two {
        return Ok(());
    }
    let node = walk.place().node();
    match cause {
        Cause::LeftOut(_) => lines.text("    --profile module reads this part\n"),
        Cause::WrongForm | Cause::UnexpectedTag if is_retagged(node) => {
            lines.text("    --profile module has other tags here\n")
        }
        // No other octets of a GeneralString are refused.
        Cause::BadText if is_general(walk, rest) => {
            lines.text("    --profile module reads escape sequences\n")
        }
        _ => Ok(()),
    }
}

/// Tells whether a tag begins with these octets whose number goes on after four of them (X.690, 8.1.2.4).
fn has_long_number(rest: &[u8]) -> bool {
    match rest {
        [first, number, ..] => {
            let octets = first_of(rest, MAX_IDENTIFIER);
            first & 0x1F == 0x1F
                && *number != 0x80
                && octets.len() == MAX_IDENTIFIER
                && octets[1..].iter().all(|octet| *octet >= 0x80)
        }
        _ => false,
    }
}

/// Tells whether a GeneralString is due here with the tag that the octets begin with.
fn is_general(walk: &ElementWalk, rest: &[u8]) -> bool {
    let id = read_start(rest).id;
    let found = id.and_then(|(id, _)| walk.place().find(id));
    found.is_some_and(|found| found.element() == Element::Leaf(LeafType::General))
}

/// Tells whether the module profile has other tags in a node of profile 2, or a row more.
fn is_retagged(node: NodeId) -> bool {
    matches!(
        &node,
        NodeId::UnitsPerMedium | NodeId::WillSupply | NodeId::Conditional
    )
}
