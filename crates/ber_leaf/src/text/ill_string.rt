ghost use Rattle.std.specs.Prelude.{◌≡◌, IfOk};
ghost use Rattle.ber_leaf.specs.Content.{IsContent};
ghost use Rattle.ber_leaf.specs.Strings.{string_octets, string_leaf};

use super::{GeneralText, VisibleText};
use std::alloc::{AllocError, Global};

/// An ILL-String: the choice of its two alternatives is a part of the value (ISO 10161-1).
#[derive(Debug, Drop, PartialEq, Eq)]
pub enum IllString {
    /// A GeneralString.
    General(GeneralText),
    /// An EDIFACTString, which is carried as a VisibleString.
    Visible(VisibleText),
}

impl IllString {
    /// The octets of the chosen alternative.
    pub fn octets(&self) -> &[u8]
        ensures value { result.now ≡ string_octets self.now }
        ensures content { IsContent (string_leaf self.now) (string_octets self.now) }
    {
        match self {
            IllString::General(text) => text.octets(),
            IllString::Visible(text) => text.octets(),
        }
    }

    /// A copy of the string in new memory.
    pub fn copy(&self, alloc: Global) -> Result<Self, AllocError>
        ensures { IfOk result (λ string. string ≡ self.now) }
    {
        match self {
            IllString::General(text) => Ok(IllString::General(text.copy(alloc)?)),
            IllString::Visible(text) => Ok(IllString::Visible(text.copy(alloc)?)),
        }
    }
}
