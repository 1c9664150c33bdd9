ghost use Rattle.std.specs.Prelude.{◌≡◌, ◌↔◌, nat_eq, IfErr, IfOk, IsOk};
ghost use Rattle.std.specs.Cmp.{partial_equiv_from_equiv};
ghost use Rattle.std.specs.Cmp.Lexicographic.{nat_list_eq_equiv, pointwise};
ghost use Rattle.ber_leaf.specs.Content.{IsContent};
ghost use Rattle.ber_leaf.specs.Leaf.{content_fault, printable_string, is_printable};
ghost use Rattle.ber_leaf.specs.Profile.{profile_two};
ghost use Rattle.ber_leaf.specs.Simple.{printable};
ghost use Rattle.std.specs.List.{list_all};

use crate::{Leaf, LeafFault};
use std::alloc::{AllocError, Global};
use std::marker::Model;

/// A PrintableString's text (X.690, 8.23): letters, digits, the space and `' ( ) + , - . / : = ?`.
#[derive(Debug, Drop)]
pub struct PrintableText {
    octets: Vec<u8>,
}

impl Model for PrintableText {
    ghost use Rattle.std.specs.Prelude.{List, ℕ};
    ghost use Rattle.ber_leaf.specs.Content.{IsContent};
    ghost use Rattle.ber_leaf.specs.Leaf.{printable_string};

    ghost Value = { List ℕ };

    ghost view = { λ text. text.octets.items };

    ghost invariant = { λ text. IsContent printable_string text.octets.items };
}

impl PrintableText {
    /// The text with these octets, or the fault that they have.
    pub fn new(octets: Vec<u8>) -> Result<Self, LeafFault>
        ensures text { IfOk result (λ text. text ≡ octets.items) }
        ensures succeeds { IsOk result ↔ IsContent printable_string octets.items }
        ensures fault { IfErr result
            (λ fault. content_fault profile_two printable_string octets.items ≡ Some fault) }
    {
        match Self::check(&octets) {
            None => Ok(Self::of(octets)),
            Some(fault) => Err(fault),
        }
    }

    /// The octets of the text.
    pub fn octets(&self) -> &[u8]
        ensures value { result.now ≡ self.now }
        ensures content { IsContent printable_string self.now }
    {
        &self.octets
    }

    /// A copy of the text in new memory.
    pub fn copy(&self, alloc: Global) -> Result<Self, AllocError>
        ensures { IfOk result (λ text. text ≡ self.now) }
    {
        let octets = Vec::from_slice(alloc, &self.octets)?;
        Ok(PrintableText { octets })
    }
}

impl Leaf for PrintableText {
    type Out = PrintableText;

    ghost kind = { printable_string };

    ghost simple = { printable };

    ghost apart = { λ v w e. Prim.cc };

    fn check(octets: &[u8]) -> Option<LeafFault> {
        (!is_printable(octets)).then_some(LeafFault::BadText)
    }

    fn of(octets: Vec<u8>) -> PrintableText {
        PrintableText { octets }
    }

    fn normal_size(text: &PrintableText) -> usize {
        text.octets.len()
    }

    fn put_normal(text: &PrintableText, room: &mut [u8]) {
        room.copy_from_slice(&text.octets);
    }
}

impl PartialEq for PrintableText {
    ghost eq = { pointwise nat_eq };

    ghost laws = { partial_equiv_from_equiv nat_list_eq_equiv };

    fn eq(&self, other: &Self) -> bool {
        self.octets() == other.octets()
    }
}

impl Eq for PrintableText {
    ghost laws = { nat_list_eq_equiv };
}

/// Tells whether each octet is in PrintableString's set.
fn is_printable(octets: &[u8]) -> bool
    ensures { result ≡ list_all is_printable octets.now }
{
    octets.iter().all(|octet| is_printable_octet(*octet))
}

fn is_printable_octet(octet: u8) -> bool
    ensures { result ≡ is_printable octet }
{
    matches!(
        octet,
        b'A'..=b'Z' | b'a'..=b'z' | b'0'..=b'9'
            | b' ' | b'\'' | b'(' | b')' | b'+' | b',' | b'-' | b'.' | b'/' | b':' | b'=' | b'?'
    )
}
