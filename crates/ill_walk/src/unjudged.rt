//! The elements of a message that is refused, from the place of the refusal on. They are known by their identifiers and lengths alone.
use crate::found::read_start;
use crate::label::{Label, put_typed_tag};
use crate::lines::LineBuffer;
use crate::note::DerNotes;
use crate::refused_place::RefusedPlace;
use crate::walk::{ElementWalk, Steps};
use ber_core::{Header, Len};
use ill_schema::{Refusal, apdu_begun};
use std::alloc::AllocError;

/// The number of elements that may be open. The content of one in them is shown as octets.
const MAX_OPEN: usize = 32;

/// A walk that goes on where a message is refused, as far as it has come.
#[derive(Drop)]
pub struct UnjudgedWalk {
    /// The ends of the open elements, the outermost one first; None for one that an end mark closes.
    open: Vec<Option<usize>>,
    at: usize,
    /// The name of the element that is refused, until the first line is made; None where it has none of the tables, or no message begins.
    refused: Option<Label>,
}

impl UnjudgedWalk {
    /// A walk from the place of a refusal of the octets on, to which another one has come.
    pub fn from_place(
        walk: &ElementWalk,
        octets: &[u8],
        refusal: Refusal,
    ) -> Result<UnjudgedWalk, AllocError> {
        let place = RefusedPlace::new(walk, octets, refusal);
        Ok(UnjudgedWalk {
            open: walk.ends()?,
            at: refusal.at as usize,
            refused: apdu_begun(octets).and_then(|_| place.label_of_found()),
        })
    }

    /// Closes the elements that end here. One whose end mark is missing ends with the element round it.
    fn close_ended(&mut self) {
        for _ in 0..self.open.len() {
            if self.bound(usize::MAX) > self.at {
                return;
            }
            let _ = self.open.pop();
        }
    }

    /// The offset that no octet of the next element may reach, in octets of this number.
    fn bound(&self, count: usize) -> usize {
        let mut bound = count;
        for end in self.open.as_slice() {
            if let Some(end) = end {
                bound = bound.min(*end);
            }
        }
        bound
    }

    fn awaits_end_mark(&self) -> bool {
        matches!(self.open.as_slice().last(), Some(None))
    }

    fn end_mark(&mut self, lines: &mut LineBuffer) -> Result<(), AllocError> {
        let _ = self.open.pop();
        lines.begin_element(self.at, self.open.len(), false)?;
        lines.text("00 00  end mark")?;
        self.at = self.at.saturating_add(2);
        end_line(lines, &[], false)
    }

    /// The line of octets that begin no element that can be read, up to the end of those round them.
    fn octets(&mut self, rest: &[u8], lines: &mut LineBuffer) -> Result<(), AllocError> {
        lines.begin_element(self.at, self.open.len(), false)?;
        lines.hex(rest)?;
        lines.text("  octets")?;
        self.refused = None;
        self.at = self.at.saturating_add(rest.len());
        end_line(lines, &[], false)
    }

    /// The line of an element with a header of this size, which is at most all of the rest.
    fn element(
        &mut self,
        header: Header,
        (id_size, size): (usize, usize),
        rest: &[u8],
        lines: &mut LineBuffer,
    ) -> Result<(), AllocError> {
        let id = rest.get(..id_size).unwrap_or(&[]);
        let length = rest.get(id_size..size).unwrap_or(&[]);
        let content = rest.get(size..).unwrap_or(&[]);
        lines.begin_element(self.at, self.open.len(), false)?;
        lines.header(header.id.class(), id, length)?;
        lines.text("  ")?;
        lines.tags("<span class=\"name\">")?;
        match self.refused.take() {
            Some(label) => label.put(lines)?,
            None => put_typed_tag(lines, header.id.class(), header.id.number())?,
        }
        lines.tags("</span>")?;
        let size_said = match header.len {
            Len::Definite(len) => Some(len as usize),
            Len::Indefinite => None,
        };
        let len = size_said.map_or(content.len(), |said| said.min(content.len()));
        let is_cut = size_said.is_some_and(|said| said > content.len());
        self.at = self.at.saturating_add(size);
        if header.id.constructed() && self.open.len() < MAX_OPEN {
            let end = self.at.saturating_add(len);
            self.open.push(size_said.map(|_| end))?;
            return end_line(lines, &[], is_cut);
        }
        let content = content.get(..len).unwrap_or(&[]);
        lines.text(" = ")?;
        lines.tags("<span class=\"value\">")?;
        lines.content(content)?;
        lines.tags("</span>")?;
        self.at = self.at.saturating_add(len);
        end_line(lines, content, is_cut)
    }
}

impl Steps for UnjudgedWalk {
    fn step(&mut self, octets: &[u8], lines: &mut LineBuffer) -> Result<bool, AllocError> {
        self.close_ended();
        let Some(rest) = octets.get(self.at..self.bound(octets.len())) else {
            return Ok(false);
        };
        if rest.is_empty() {
            return Ok(false);
        }
        if self.awaits_end_mark() && matches!(rest, [0, 0, ..]) {
            self.end_mark(lines)?;
            return Ok(true);
        }
        let begun = read_start(rest);
        match (begun.id, begun.header) {
            (Some((_, id_size)), Some(header)) => {
                self.element(header, (id_size, begun.size), rest, lines)?
            }
            _ => self.octets(rest, lines)?,
        }
        Ok(true)
    }
}

/// The end of the line of an element, whose content may be cut short.
fn end_line(lines: &mut LineBuffer, content: &[u8], is_cut: bool) -> Result<(), AllocError> {
    let mut notes = DerNotes::new();
    if is_cut {
        notes.note(lines, "cut short")?;
    }
    notes.note(lines, "not judged")?;
    notes.end(lines)?;
    lines.end_element(content, false)
}
