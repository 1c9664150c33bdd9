ghost use Rattle.std.specs.Prelude.{◌≡◌, ◌↔◌, ◌≤◌, ◌&&◌, nat_eq, IfErr, IfOk, IsOk, IsTrue};
ghost use Rattle.std.specs.Cmp.{and_equiv, and_per, on_equiv, on_per, partial_equiv_from_equiv};
ghost use Rattle.std.specs.Cmp.Lexicographic.{nat_list_eq_equiv, pointwise};
ghost use Rattle.std.proofs.lemmas.Cmp.{nat_eq_equiv};
ghost use Rattle.ber_leaf.specs.Content.{IsContent};
ghost use Rattle.ber_leaf.specs.Leaf.{bit_string, cleared, content_fault, is_bits, value};
ghost use Rattle.ber_leaf.specs.Profile.{profile_two};
ghost use Rattle.ber_leaf.specs.Simple.{bits};
ghost use Rattle.ber_leaf.specs.Bits.{bits_apart, cleared_content};

use crate::{Leaf, LeafFault};
use std::marker::Model;

/// A BIT STRING (X.690, 8.6): a number of bits, which fill octets from the most significant bit on.
///
/// # Examples
///
/// ```
/// let five = BitString::new(b"\x03\xFF".to_vec(alloc)?)?;
/// ```
#[derive(Debug, Drop)]
pub struct BitString {
    /// The normal content: how many bits are unused, and the octets with these 0.
    content: Vec<u8>,
}

impl Model for BitString {
    ghost use Rattle.std.specs.Prelude.{◌≡◌, ℕ, List, IsTrue};
    ghost use Rattle.ber_leaf.specs.Leaf.{bit_count, bit_octets};
    ghost use Rattle.ber_leaf.specs.Bits.{IsNormalBits};

    ghost Value = { ℕ × List ℕ };

    ghost view = { λ string. (bit_count string.content.items, bit_octets string.content.items) };

    ghost invariant = { λ string. IsNormalBits string.content.items };
}

impl BitString {
    /// The bits with these contents octets, or the fault that they have.
    pub fn new(octets: Vec<u8>) -> Result<Self, LeafFault>
        ensures value { IfOk result
            (λ string. bits string.0 string.1 ≡ value bit_string octets.items) }
        ensures succeeds { IsOk result ↔ IsContent bit_string octets.items }
        ensures fault { IfErr result
            (λ fault. content_fault profile_two bit_string octets.items ≡ Some fault) }
    {
        match Self::check(&octets) {
            None => Ok(Self::of(octets)),
            Some(fault) => Err(fault),
        }
    }

    /// The number of bits. It has a type that holds eight times the octets of any memory.
    pub fn bit_len(&self) -> u128
        ensures { result ≡ self.now.0 }
    {
        8 * self.octets().len() as u128 - self.content[0] as u128
    }

    /// The octets that the bits fill; those bits of the last octet that are unused are 0.
    pub fn octets(&self) -> &[u8]
        ensures { result.now ≡ self.now.1 }
    {
        &self.content[1..]
    }
}

impl Leaf for BitString {
    type Out = BitString;

    ghost kind = { bit_string };

    ghost simple = { λ string. bits string.0 string.1 };

    ghost apart = { bits_apart };

    fn check(octets: &[u8]) -> Option<LeafFault> {
        (!is_bits(octets)).then_some(LeafFault::BadBits)
    }

    fn of(octets: Vec<u8>) -> BitString {
        let mut content = octets;
        clear_unused(&mut content);
        BitString { content }
    }

    fn normal_size(string: &BitString) -> usize {
        string.content.len()
    }

    fn put_normal(string: &BitString, room: &mut [u8]) {
        room.copy_from_slice(&string.content);
    }
}

impl PartialEq for BitString {
    ghost eq = { λ v w. nat_eq v.0 w.0 && pointwise nat_eq v.1 w.1 };

    ghost laws = { and_per (on_per (λ v. v.0) (partial_equiv_from_equiv nat_eq_equiv))
        (on_per (λ v. v.1) (partial_equiv_from_equiv nat_list_eq_equiv)) };

    fn eq(&self, other: &Self) -> bool {
        self.bit_len() == other.bit_len() && self.octets() == other.octets()
    }
}

impl Eq for BitString {
    ghost laws = { and_equiv (on_equiv (λ v. v.0) nat_eq_equiv)
        (on_equiv (λ v. v.1) nat_list_eq_equiv) };
}

/// Tells whether the octets are a number of unused bits, and octets that have as many.
pub fn is_bits(octets: &[u8]) -> bool
    ensures { result ≡ is_bits octets.now }
{
    match octets {
        [] => false,
        [unused] => *unused == 0,
        [unused, ..] => *unused <= 7,
    }
}

/// Sets the unused bits of a content to 0 (X.690, 11.2.1).
pub fn clear_unused(content: &mut [u8])
    requires { IsTrue (is_bits content.old) }
    ensures { content.new ≡ cleared_content content.old }
{
    let unused = content[0];
    let last = content.len() - 1;
    if last > 0 {
        content[last] = cleared(unused, content[last]);
    }
}

/// The octet with its unused bits, the last ones, set to 0.
fn cleared(unused: u8, octet: u8) -> u8
    requires { unused ≤ 7 }
    ensures { result ≡ cleared unused octet }
{
    octet >> unused << unused
}
