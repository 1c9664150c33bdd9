//! Lines of text that are made in memory.
ghost use Rattle.std.specs.Prelude.{◌≡◌, ◌++◌, [], decimal, OnOk};
ghost use Rattle.std.specs.List.{flat_map};
ghost use Rattle.ill_walk.specs.Markup.{escape, shown_in};

use crate::markup::{DumpFormat, reference};
use ill_schema::hexadecimal_digits;
use itoa::Buffer;
use std::alloc::{AllocError, Global};

/// The width of the offset of an element, in characters.
const OCTETS_COLUMN: usize = 7;

/// Lines that were made and not yet written.
#[derive(Drop)]
pub struct LineBuffer {
    pub octets: Vec<u8>,
    pub format: DumpFormat,
}

impl LineBuffer {
    pub fn new(alloc: Global, format: DumpFormat) -> LineBuffer
        ensures { result.octets.items ≡ [] }
    {
        LineBuffer {
            octets: Vec::new(alloc),
            format,
        }
    }

    pub fn text(&mut self, text: &str) -> Result<(), AllocError> {
        self.text_in(self.format, text)
    }

    /// A text in a format.
    pub fn text_in(&mut self, format: DumpFormat, text: &str) -> Result<(), AllocError>
        ensures { OnOk result (self.new.octets.items ≡ self.old.octets.items
            ++ shown_in format text.now) }
    {
        self.octets_in(format, text.as_bytes())
    }

    /// Octets of a text.
    pub fn raw(&mut self, octets: &[u8]) -> Result<(), AllocError> {
        self.octets_in(self.format, octets)
    }

    fn octets_in(&mut self, format: DumpFormat, octets: &[u8]) -> Result<(), AllocError>
        ensures { OnOk result (self.new.octets.items ≡ self.old.octets.items
            ++ shown_in format octets.now) }
    {
        match format {
            DumpFormat::Text => self.octets.extend_from_slice(octets),
            DumpFormat::Html => self.escaped(octets),
        }
    }

    /// Octets with a reference in place of each that could be markup.
    fn escaped(&mut self, octets: &[u8]) -> Result<(), AllocError>
        ensures { OnOk result (self.new.octets.items ≡ self.old.octets.items
            ++ flat_map escape octets.now) }
    {
        for octet in octets {
            self.escaped_octet(*octet)?;
        }
        Ok(())
    }

    fn escaped_octet(&mut self, octet: u8) -> Result<(), AllocError>
        ensures { OnOk result (self.new.octets.items ≡ self.old.octets.items ++ escape octet) }
    {
        match reference(octet) {
            Some(text) => self.octets.extend_from_slice(text.as_bytes()),
            None => self.octets.extend_from_slice(&[octet]),
        }
    }

    pub fn number(&mut self, number: i64) -> Result<(), AllocError> {
        self.octets
            .extend_from_slice(Buffer::new().format(number).as_bytes())
    }

    pub fn count(&mut self, count: usize) -> Result<(), AllocError>
        ensures { OnOk result (self.new.octets.items ≡ self.old.octets.items ++ decimal count) }
    {
        self.octets
            .extend_from_slice(Buffer::new().format(count).as_bytes())
    }

    /// A number after as many blanks as make it seven octets wide.
    pub fn offset(&mut self, offset: usize) -> Result<(), AllocError> {
        let mut buffer = Buffer::new();
        let digits = buffer.format(offset).as_bytes();
        for _ in digits.len()..OCTETS_COLUMN {
            self.octets.extend_from_slice(b" ")?;
        }
        self.octets.extend_from_slice(digits)
    }

    /// Two blanks for each open element.
    pub fn indent(&mut self, depth: usize) -> Result<(), AllocError> {
        for _ in 0..depth {
            self.octets.extend_from_slice(b"  ")?;
        }
        Ok(())
    }

    /// Octets in hexadecimal, with blanks between them.
    pub fn hex(&mut self, octets: &[u8]) -> Result<(), AllocError> {
        for (index, octet) in octets.iter().enumerate() {
            if index > 0 {
                self.octets.extend_from_slice(b" ")?;
            }
            self.octet(*octet)?;
        }
        Ok(())
    }

    /// An octet in hexadecimal.
    pub fn octet(&mut self, octet: u8) -> Result<(), AllocError> {
        self.octets.extend_from_slice(&hexadecimal_digits(octet))
    }

    /// Octets of a string in quotation marks; those that are no visible character of ASCII are escaped.
    pub fn quoted(&mut self, octets: &[u8]) -> Result<(), AllocError> {
        self.raw(b"\"")?;
        for octet in octets {
            match *octet {
                b'"' | b'\\' => self.raw(&[b'\\', *octet])?,
                b' '..=b'~' => self.raw(&[*octet])?,
                _ => {
                    self.raw(b"\\x")?;
                    self.octet(*octet)?;
                }
            }
        }
        self.raw(b"\"")
    }

    /// Octets of no known meaning: in quotation marks where all are printable ASCII, else in hexadecimal without blanks.
    pub fn content(&mut self, octets: &[u8]) -> Result<(), AllocError> {
        if octets.iter().all(|octet| matches!(*octet, b' '..=b'~')) {
            return self.quoted(octets);
        }
        for octet in octets {
            self.octet(*octet)?;
        }
        Ok(())
    }
}
