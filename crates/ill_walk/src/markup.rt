//! The tags of HTML round the parts of a dump. Without them the text is the same, but for the octets of contents.
ghost use Rattle.std.specs.Prelude.{◌≡◌, ◌++◌, ◌∷◌, [], IfNone, IfSome, OnOk};
ghost use Rattle.ill_walk.specs.Markup.{escape, shown_in, tags_in};

use crate::lines::LineBuffer;
use ber_core::Class;
use std::alloc::AllocError;

/// The format of a dump.
#[derive(Clone, Copy, Debug, PartialEq, Eq)]
pub enum DumpFormat {
    /// Lines of text.
    Text,
    /// The same lines as parts of an HTML document, with the octets of each content beside them. Text is escaped.
    Html,
}

/// The reference that stands for an octet in HTML; None for one that stands for itself.
pub fn reference(octet: u8) -> Option<&'static str>
    ensures some { IfSome result (λ text. escape octet ≡ text.now) }
    ensures none { IfNone result (escape octet ≡ octet ∷ []) }
{
    match octet {
        b'&' => Some("&amp;"),
        b'<' => Some("&lt;"),
        b'>' => Some("&gt;"),
        b'"' => Some("&quot;"),
        b'\'' => Some("&#39;"),
        _ => None,
    }
}

impl LineBuffer {
    /// Tags, where the format has some.
    pub fn tags(&mut self, tags: &str) -> Result<(), AllocError> {
        self.tags_in(self.format, tags)
    }

    /// Tags, in a format.
    pub fn tags_in(&mut self, format: DumpFormat, tags: &str) -> Result<(), AllocError>
        ensures { OnOk result (self.new.octets.items ≡ self.old.octets.items
            ++ tags_in format tags.now) }
    {
        match format {
            DumpFormat::Text => Ok(()),
            DumpFormat::Html => self.octets.extend_from_slice(tags.as_bytes()),
        }
    }

    /// The beginning of the line of an element, at this offset and depth. One that is constructed has those in it between this and
    /// [`LineBuffer::close`].
    pub fn begin_element(
        &mut self,
        offset: usize,
        depth: usize,
        is_round: bool,
    ) -> Result<(), AllocError> {
        self.tags(if is_round {
            "<details open><summary class=\"row\">"
        } else {
            "<div class=\"row\">"
        })?;
        self.tags("<span><span class=\"at\">")?;
        self.offset(offset)?;
        self.tags("</span>")?;
        self.text("  ")?;
        self.indent(depth)
    }

    /// The octets of an identifier of this class, and of a length.
    pub fn header(&mut self, class: Class, id: &[u8], len: &[u8]) -> Result<(), AllocError> {
        self.tags(match class {
            Class::Universal => "<span class=\"c0\">",
            Class::Application => "<span class=\"c1\">",
            Class::Context => "<span class=\"c2\">",
            Class::Private => "<span class=\"c3\">",
        })?;
        self.hex(id)?;
        self.tags("</span>")?;
        self.text(" ")?;
        self.tags("<span class=\"len\">")?;
        self.hex(len)?;
        self.tags("</span>")
    }

    /// The end of a line, with the octets of a content beside it.
    pub fn end_element(&mut self, content: &[u8], is_round: bool) -> Result<(), AllocError> {
        self.text("\n")?;
        self.tags("</span>")?;
        self.beside(content)?;
        self.tags(if is_round { "</summary>" } else { "</div>" })
    }

    /// The end of what is in a constructed element.
    pub fn close(&mut self) -> Result<(), AllocError> {
        self.tags("</details>")
    }

    /// The octets of a content, which are beside the line of its element.
    fn beside(&mut self, content: &[u8]) -> Result<(), AllocError> {
        if self.format == DumpFormat::Text || content.is_empty() {
            return Ok(());
        }
        self.tags("<code>")?;
        self.hex(content)?;
        self.tags("</code>")
    }
}
