//! Notes on what is not normal in the spelling of an element.
use crate::lines::LineBuffer;
use ber_core::{Len, length_size};
use std::alloc::AllocError;

/// Notes at the end of a line, in brackets, with commas between them.
#[derive(Drop)]
pub struct DerNotes {
    is_open: bool,
}

impl DerNotes {
    pub fn new() -> DerNotes {
        DerNotes { is_open: false }
    }

    /// One more note begins.
    pub fn begin(&mut self, lines: &mut LineBuffer) -> Result<(), AllocError> {
        if self.is_open {
            return lines.text(", ");
        }
        self.is_open = true;
        lines.text("  ")?;
        lines.tags("<span class=\"note\">")?;
        lines.text("(")
    }

    pub fn note(&mut self, lines: &mut LineBuffer, text: &str) -> Result<(), AllocError> {
        self.begin(lines)?;
        lines.text(text)
    }

    /// The bracket after them, where there are some.
    pub fn end(self, lines: &mut LineBuffer) -> Result<(), AllocError> {
        if self.is_open {
            lines.text(")")?;
            lines.tags("</span>")?;
        }
        Ok(())
    }

    /// Notes a length in this number of octets.
    pub fn length(
        &mut self,
        lines: &mut LineBuffer,
        len: Len,
        octets: usize,
    ) -> Result<(), AllocError> {
        let size = match len {
            Len::Indefinite => return self.note(lines, "indefinite"),
            Len::Definite(size) => size,
        };
        let least = length_size(size);
        if octets <= least {
            return Ok(());
        }
        self.begin(lines)?;
        lines.text("length in ")?;
        lines.count(octets)?;
        lines.text(" octets; ")?;
        lines.count(least)?;
        lines.text(if least == 1 {
            " is enough"
        } else {
            " are enough"
        })
    }

    /// Notes a BOOLEAN.
    pub fn flag(&mut self, lines: &mut LineBuffer, content: &[u8]) -> Result<(), AllocError> {
        match content {
            [octet] if *octet != 0 && *octet != 0xFF => {
                self.begin(lines)?;
                lines.text("TRUE as ")?;
                lines.octet(*octet)
            }
            _ => Ok(()),
        }
    }
}
