//! Goes through a message from element to element, and makes a line of each.
use crate::found::read_start;
use crate::label::{Label, label_of};
use crate::lines::LineBuffer;
use crate::note::DerNotes;
use crate::value::{has_unused_bits_set, put_leaf, put_module_leaf};
use ber_core::{Header, Len, identifier_size};
use ill_grammar::{Element, EntryRole, Found, Frames, Place};
use ill_read::{ElementReader, LeafType};
use ill_schema::{NodeId, PartId, Profile};
use std::alloc::{AllocError, Global};

/// An element that is open, beside its frame.
#[derive(Clone, Copy)]
struct OpenElement {
    label: Label,
    /// The number of elements that it has so far.
    items: usize,
}

/// A way through elements.
pub trait Steps: Drop {
    /// Makes the line of the next element or end mark, if there is one. Returns whether another one may follow.
    fn step(&mut self, octets: &[u8], lines: &mut LineBuffer) -> Result<bool, AllocError>;
}

/// A walk through the elements of a message, as far as it has come.
#[derive(Drop)]
pub struct ElementWalk {
    alloc: Global,
    reader: ElementReader,
    /// The open elements, innermost last: one for each frame of the reader.
    open: Vec<OpenElement>,
    /// The offset from which on no element is begun.
    stop: usize,
}

/// Where the next element begins.
#[derive(Clone, Copy)]
struct ElementPlace {
    /// The offset of its first octet.
    at: usize,
    /// The node round it, and the part that it is where it is in a wrapper.
    parent: NodeId,
    part: PartId,
    /// The number of elements before it there.
    items: usize,
}

/// An element with a whole header.
#[derive(Clone, Copy)]
struct WalkedElement {
    /// The offset of its first octet.
    at: usize,
    element: Element,
    part: PartId,
    header: Header,
    label: Label,
    /// The number of octets that its identifier has, and its whole header.
    id_size: usize,
    size: usize,
}

impl ElementWalk {
    /// A walk through the elements that begin before `stop`.
    pub fn new(alloc: Global, profile: Profile, stop: usize) -> ElementWalk {
        ElementWalk {
            alloc,
            reader: ElementReader::new(alloc, profile),
            open: Vec::new(alloc),
            stop,
        }
    }

    /// The frames of the open elements, innermost last.
    fn frames(&self) -> &Frames {
        self.reader.frames()
    }

    /// The offset that it has reached.
    fn offset(&self) -> usize {
        self.reader.offset() as usize
    }

    /// The offsets where the open elements end, the outermost one first; None for one that an end mark closes.
    pub fn ends(&self) -> Result<Vec<Option<usize>>, AllocError> {
        let mut ends = Vec::new(self.alloc);
        for frame in self.frames().open.as_slice() {
            ends.push(frame.end.map(|end| end as usize))?;
        }
        Ok(ends)
    }

    /// The place in the innermost element, or that of a message.
    pub fn place(&self) -> Place {
        self.frames().place()
    }

    /// The profile that the message is read in.
    pub fn profile(&self) -> Profile {
        self.frames().profile
    }

    /// The number of elements that the innermost one has so far.
    pub fn items(&self) -> usize {
        self.open.as_slice().last().map_or(0, |open| open.items)
    }

    /// Tells whether an element is open.
    pub fn is_inside(&self) -> bool {
        self.frames().depth() > 0
    }

    /// The offset that no octet of the next element may reach.
    pub fn bound(&self) -> usize {
        self.frames().bound() as usize
    }

    /// The names of the open elements, with points between them. Returns whether there are any.
    pub fn put_path(&self, lines: &mut LineBuffer) -> Result<bool, AllocError> {
        let mut some = false;
        for open in self.open.as_slice() {
            if open.label.is_named() {
                if some {
                    lines.text(".")?;
                }
                open.label.put(lines)?;
                some = true;
            }
        }
        Ok(some)
    }

    /// Closes the elements that end here, but for one in which something is missing.
    fn close_ended(&mut self, lines: &mut LineBuffer) -> Result<(), AllocError> {
        for _ in 0..self.open.len() {
            if !self.frames().ends_at(self.reader.offset()) || self.reader.step(&[]).is_none() {
                return Ok(());
            }
            let _ = self.open.pop();
            lines.close()?;
        }
        Ok(())
    }

    /// The ends of all elements that are open, where no more of them is written.
    pub fn close_all(&self, lines: &mut LineBuffer) -> Result<(), AllocError> {
        for _ in 0..self.open.len() {
            lines.close()?;
        }
        Ok(())
    }

    /// The line of an end mark, which the octets begin with. Returns whether another line may follow.
    fn end_mark(&mut self, rest: &[u8], lines: &mut LineBuffer) -> Result<bool, AllocError> {
        let at = self.offset();
        if self.reader.step(rest).is_none() {
            return Ok(false);
        }
        let _ = self.open.pop();
        lines.close()?;
        lines.begin_element(at, self.open.len(), false)?;
        lines.text("00 00  end mark")?;
        lines.end_element(&[], false)?;
        Ok(true)
    }

    /// Where the next element begins.
    fn next_place(&self) -> ElementPlace {
        ElementPlace {
            at: self.offset(),
            parent: self.place().node(),
            part: self.place().part(),
            items: self.items(),
        }
    }

    /// The line of the next element, which is passed or opened, if one is due; or of one that the octets end before, and no other line follows.
    /// Returns whether another line may follow.
    fn next_element(
        &mut self,
        octets: &[u8],
        rest: &[u8],
        lines: &mut LineBuffer,
    ) -> Result<bool, AllocError> {
        let place = self.next_place();
        let depth = self.frames().depth();
        let passed = self.reader.pass(rest);
        let Some((found, header, size)) = (match passed {
            Some(passed) => Some((passed.found, passed.header, passed.header_size as usize)),
            None => self.cut_element(rest),
        }) else {
            return Ok(false);
        };
        let element = WalkedElement::new(place, found, header, size);
        let last = self.open.len().saturating_sub(1);
        if let Some(open) = self.open.get_mut(last) {
            open.items = open.items.saturating_add(1);
        }
        self.put_element(&element, octets, rest, lines)?;
        if self.frames().depth() > depth {
            self.open.push(OpenElement {
                label: element.label,
                items: 0,
            })?;
        }
        Ok(passed.is_some())
    }

    /// An element that is due, with its header and the size of that, where the octets end before the element does.
    fn cut_element(&self, rest: &[u8]) -> Option<(Found, Header, usize)> {
        let begun = read_start(rest);
        let header = begun.header?;
        Some((self.place().find(header.id)?, header, begun.size))
    }

    fn put_element(
        &self,
        element: &WalkedElement,
        octets: &[u8],
        rest: &[u8],
        lines: &mut LineBuffer,
    ) -> Result<(), AllocError> {
        let is_round = element.header.id.constructed();
        lines.begin_element(element.at, self.open.len(), is_round)?;
        let header = rest.get(..element.size).unwrap_or(&[]);
        let (id, len) = header.split_at(element.id_size.min(header.len()));
        lines.header(element.header.id.class(), id, len)?;
        lines.text("  ")?;
        lines.tags("<span class=\"name\">")?;
        element.label.put(lines)?;
        lines.tags("</span>")?;
        let mut notes = DerNotes::new();
        if is_round {
            notes.length(lines, element.header.len, len.len())?;
            self.put_constructed(element, octets, lines, &mut notes)?;
        } else {
            self.put_primitive(element, rest, lines, &mut notes)?;
        }
        notes.end(lines)?;
        let content = rest
            .get(element.size..element.end().min(rest.len()))
            .unwrap_or(&[]);
        lines.end_element(if is_round { &[] } else { content }, is_round)
    }

    fn put_constructed(
        &self,
        element: &WalkedElement,
        octets: &[u8],
        lines: &mut LineBuffer,
        notes: &mut DerNotes,
    ) -> Result<(), AllocError> {
        match element.element {
            Element::Segment | Element::BitSegment => notes.note(lines, "segment"),
            Element::LooseWrapper(_) if self.is_bare(element, octets) => {
                notes.note(lines, "without inner SEQUENCE")
            }
            Element::Leaf(_) | Element::ModuleLeaf(_) | Element::BitString => {
                notes.note(lines, "in segments")
            }
            _ => Ok(()),
        }
    }

    /// Tells whether a wrapper has no SEQUENCE in it.
    fn is_bare(&self, element: &WalkedElement, octets: &[u8]) -> bool {
        if element.header.len == Len::Definite(0) {
            return true;
        }
        let next = element.at.saturating_add(element.size);
        match octets.get(next) {
            Some(octet) => next < self.stop && *octet != 0x30,
            None => false,
        }
    }

    fn put_primitive(
        &self,
        walked: &WalkedElement,
        rest: &[u8],
        lines: &mut LineBuffer,
        notes: &mut DerNotes,
    ) -> Result<(), AllocError> {
        let length = walked.size.saturating_sub(walked.id_size);
        let Some(content) = rest.get(walked.size..walked.end()) else {
            notes.length(lines, walked.header.len, length)?;
            return notes.note(lines, "cut short");
        };
        lines.text(" = ")?;
        lines.tags("<span class=\"value\">")?;
        let element = walked.element;
        let is_default = match element {
            Element::Leaf(leaf) => put_leaf(lines, self.alloc, leaf, walked.part, content)?,
            _ => {
                put_module_leaf(lines, self.alloc, element, content)?;
                false
            }
        };
        lines.tags("</span>")?;
        notes.length(lines, walked.header.len, length)?;
        match element {
            Element::Segment | Element::BitSegment => notes.note(lines, "segment")?,
            Element::Leaf(LeafType::Boolean) => notes.flag(lines, content)?,
            _ => {}
        }
        if matches!(&element, Element::BitString | Element::BitSegment)
            && has_unused_bits_set(content)
        {
            notes.note(lines, "unused bits are not 0")?;
        }
        if is_default {
            notes.note(lines, "default written")?;
        }
        Ok(())
    }
}

impl Steps for ElementWalk {
    fn step(&mut self, octets: &[u8], lines: &mut LineBuffer) -> Result<bool, AllocError> {
        self.close_ended(lines)?;
        let at = self.offset();
        let Some(rest) = octets.get(at..).filter(|_| at < self.stop) else {
            return Ok(false);
        };
        if self.frames().awaits_end_mark() && matches!(rest, [0, 0, ..]) {
            return self.end_mark(rest, lines);
        }
        self.next_element(octets, rest, lines)
    }
}

/// The part that was found in the element of a part: what a wrapper is round is the wrapper's part, unless it is an alternative.
fn part_of(found: Found, wrapper: PartId) -> PartId {
    match found.slot() {
        EntryRole::Inner if found.alternative().is_none() => wrapper,
        _ => found.part(),
    }
}

impl WalkedElement {
    /// What begins at a place with a header of this size.
    fn new(place: ElementPlace, found: Found, header: Header, size: usize) -> WalkedElement {
        WalkedElement {
            at: place.at,
            element: found.element(),
            part: part_of(found, place.part),
            header,
            label: label_of(found, header.id, place.parent, place.items),
            id_size: identifier_size(header.id.number()),
            size,
        }
    }

    /// The number of octets that it has, or its header where its length is indefinite.
    fn end(&self) -> usize {
        match self.header.len {
            Len::Definite(size) => self.size.saturating_add(size as usize),
            Len::Indefinite => self.size,
        }
    }
}
