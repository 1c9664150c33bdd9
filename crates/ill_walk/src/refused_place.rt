//! The place of a refusal: the elements round it, what was found there, and what was due.
use crate::due::{Due, due_after};
use crate::found::{ElementStart, read_start};
use crate::label::{Label, label_of, put_typed_tag};
use crate::lines::LineBuffer;
use crate::walk::ElementWalk;
use ber_core::{Id, Len};
use ill_schema::{Cause, Refusal};
use std::alloc::{AllocError, Global};

/// The bit of an identifier's first octet that is 1 in a constructed element (X.690, 8.1.2.5).
const CONSTRUCTED: u8 = 0x20;

/// The place of a refusal, in the octets of a message that was read up to it.
#[derive(Drop)]
pub struct RefusedPlace<'a> {
    walk: &'a ElementWalk,
    /// The octets from the place on.
    rest: &'a [u8],
    /// The header that begins there, within the element round it.
    begun: ElementStart,
    cause: Cause,
}

impl<'a> RefusedPlace<'a> {
    pub fn new(walk: &'a ElementWalk, octets: &'a [u8], refusal: Refusal) -> RefusedPlace<'a> {
        let rest = octets.get(refusal.at as usize..).unwrap_or(&[]);
        let room = walk.bound().saturating_sub(refusal.at as usize);
        RefusedPlace {
            walk,
            rest,
            begun: read_start(first_of(rest, room)),
            cause: refusal.cause,
        }
    }

    /// The names of the elements round the place, and of the element that was found there, if it has one. Returns whether there are any.
    pub fn put_path(&self, lines: &mut LineBuffer) -> Result<bool, AllocError> {
        let some = self.walk.put_path(lines)?;
        let Some(label) = self.label_of_found() else {
            return Ok(some);
        };
        if some {
            lines.text(".")?;
        }
        label.put(lines)?;
        Ok(true)
    }

    /// The name of the element that was found, if it has one of the tables.
    pub fn label_of_found(&self) -> Option<Label> {
        if !is_of_element(self.cause) {
            return None;
        }
        let (id, _) = self.begun.id?;
        let place = self.walk.place();
        let label = label_of(place.find(id)?, id, place.node(), self.walk.items());
        label.is_named().then_some(label)
    }

    /// Puts what was found, in words.
    pub fn put_found(&self, lines: &mut LineBuffer) -> Result<(), AllocError> {
        match self.cause {
            Cause::Truncated => lines.text("the end of the input"),
            Cause::Missing(_) => lines.text("the end of the element"),
            Cause::BadEnd => lines.hex(first_of(self.rest, 2)),
            _ => self.put_header(lines),
        }
    }

    /// The tag of an element, and those of its octets that the cause is about.
    fn put_header(&self, lines: &mut LineBuffer) -> Result<(), AllocError> {
        let begun = self.begun;
        if begun.size == 0 {
            return lines.text("nothing before the end");
        }
        let Some((id, id_size)) = begun.id else {
            return lines.hex(first_of(self.rest, begun.size));
        };
        put_tag_and_form(lines, id, id.constructed())?;
        let size = match self.cause {
            Cause::UnexpectedTag | Cause::LeftOut(_) | Cause::WrongForm | Cause::TooDeep => id_size,
            Cause::BadLength | Cause::Overrun | Cause::TooLong => begun.size,
            _ => begun.size.saturating_add(content_size(begun, id)),
        };
        lines.hex(first_of(self.rest, size))
    }

    /// Everything that was due in place of what was found, where that is a tag or the end of the element.
    pub fn due(&self, alloc: Global) -> Result<Vec<Due>, AllocError> {
        match self.cause {
            Cause::UnexpectedTag | Cause::Missing(_) => due_after(alloc, self.walk),
            _ => Ok(Vec::new(alloc)),
        }
    }

    /// The element that was found, with its other form.
    pub fn put_other_form(&self, lines: &mut LineBuffer) -> Result<(), AllocError> {
        let (Some((id, size)), Some((first, others))) = (self.begun.id, self.rest.split_first())
        else {
            return Ok(());
        };
        put_tag_and_form(lines, id, !id.constructed())?;
        lines.octet(*first ^ CONSTRUCTED)?;
        for octet in others.iter().take(size.saturating_sub(1)) {
            lines.text(" ")?;
            lines.octet(*octet)?;
        }
        Ok(())
    }
}

/// A tag and a form, before the octets of an identifier.
fn put_tag_and_form(
    lines: &mut LineBuffer,
    id: Id,
    is_constructed: bool,
) -> Result<(), AllocError> {
    put_typed_tag(lines, id.class(), id.number())?;
    lines.text(if is_constructed {
        " constructed: "
    } else {
        " primitive: "
    })
}

/// Tells whether the fault is of an element whose tag was read.
fn is_of_element(cause: Cause) -> bool {
    !matches!(
        cause,
        Cause::Truncated | Cause::Missing(_) | Cause::BadEnd | Cause::BadTag
    )
}

/// The number of octets that the content of a primitive element has.
fn content_size(begun: ElementStart, id: Id) -> usize {
    match begun.header {
        Some(header) if !id.constructed() => match header.len {
            Len::Definite(size) => size as usize,
            Len::Indefinite => 0,
        },
        _ => 0,
    }
}

/// The first octets, `count` of them where there are as many.
pub fn first_of(octets: &[u8], count: usize) -> &[u8] {
    octets.get(..count).unwrap_or(octets)
}
