//! One element at a time, with what was read of it, for callers that say something of each.
ghost use Rattle.std.specs.Prelude.{◌≤◌};

use super::{Reader, State};
use crate::draft::Draft;
use ber_core::{Header, HeaderRead, LengthRead, read_header};
use ill_grammar::Found;

/// An element that was passed: what it is at its place, and its header.
#[derive(Clone, Copy)]
pub struct PassedElement {
    pub found: Found,
    pub header: Header,
    /// The number of octets of the header.
    pub header_size: u32,
}

impl<D: Draft> Reader<D> {
    ghost use Rattle.std.specs.Prelude.{◌≡◌, length, take, IfSome};
    ghost use Rattle.ber_core.specs.Header.{IsHeader};

    /// Goes on over one element as [`Reader::step`] does, and returns what was read of it. None at any end, and where `step` fails or the octets
    /// don't reach past the element or its header; nothing of a fault is kept then, but of one in a content.
    pub fn pass(&mut self, rest: &[u8]) -> Option<PassedElement>
        requires takes { D.takes self.old.path.frames.profile }
        ensures within { IfSome result (λ passed. passed.header_size ≤ length rest.now) }
        ensures header { IfSome result (λ passed. IsHeader passed.header
            (take passed.header_size rest.now)) }
        ensures profile { self.new.path.frames.profile ≡ self.old.path.frames.profile }
    {
        if !matches!(&self.state, State::Open) {
            return None;
        }
        let room = self.path.frames.bound().saturating_sub(self.at);
        let window = if rest.len() < room as usize {
            rest
        } else {
            &rest[..room as usize]
        };
        let HeaderRead::Identified(id, length_read) = read_header(window) else {
            return None;
        };
        let LengthRead::Whole(len, header_size) = length_read else {
            return None;
        };
        let frames = &self.path.frames;
        let Ok(found) = frames.judge_tag(self.at, id) else {
            return None;
        };
        let extent = frames.reach(self.at, id, length_read, window, room)?;
        self.open_or_read(found, id, extent, window, false)?;
        Some(PassedElement {
            found,
            header: Header { id, len },
            header_size,
        })
    }
}
