//! The interface of each type of leaf.

ghost use Rattle.std.specs.Prelude.{◌≡◌, ◌↔◌, List, ℕ, IsNone, length};
ghost use Rattle.ber_leaf.specs.Content.{IsContent};
ghost use Rattle.ber_leaf.specs.Leaf.{Leaf as Kind, content_fault, Holds, normal_content};
ghost use Rattle.ber_leaf.specs.Profile.{profile_two};
ghost use Rattle.ber_leaf.specs.Simple.{Simple};

use crate::LeafFault;

/// A kind of leaf: which octets are a content of which value (X.690, 8.2 to 8.4, 8.6 to 8.8, 8.19, 8.23 and 8.25), and which of them DER
/// takes (11.1 and 11.2).
///
/// No call takes memory.
pub trait Leaf {
    /// The values.
    type Out;

    // the kind whose contents the definitions give
    ghost kind: { Kind };

    // a value as the definitions see it
    ghost simple: { Self.Out → Simple };

    /// The reason why the octets hold no value, or None exactly where they hold one.
    fn check(octets: &[u8]) -> Option<LeafFault>
        ensures fault { result ≡ content_fault profile_two kind octets.now }
        ensures none { IsNone result ↔ IsContent kind octets.now };

    /// The value that the octets hold.
    fn of(octets: Vec<u8>) -> Self::Out
        requires { IsContent kind octets.items }
        ensures { Holds profile_two kind (simple result) octets.items };

    /// The number of octets that the value's normal content has.
    fn normal_size(value: &Self::Out) -> usize
        ensures { result ≡ length (normal_content (simple value.now)) };

    /// Writes the value's normal content, which fills the room exactly.
    fn put_normal(value: &Self::Out, room: &mut [u8])
        requires { length room.old ≡ length (normal_content (simple value.now)) }
        ensures { room.new ≡ normal_content (simple value.now) };

    // the definitions distinguish two values
    ghost apart: { (v w : Self.Out) → simple v ≡ simple w → v ≡ w };
}
