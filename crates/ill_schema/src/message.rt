//! Messages: APDUs that fit, with a normal form within the limit.
ghost use Rattle.std.specs.Prelude.{◌≤◌, length};
ghost use Rattle.ber_leaf.specs.Profile.{profile_two};
ghost use Rattle.ill_schema.specs.Apdu.{normal_form};
ghost use Rattle.ill_schema.specs.Fits.{FitsApdu};
ghost use Rattle.ill_schema.specs.Value.{apdu_with};

use crate::equality::equal;
use crate::names::apdu_node;
use crate::shape::fits;
use crate::size::normal_size;
use crate::unfit::Unfit;
use crate::value::Value;

/// A carried APDU with a body that fits it and a normal form of at most [`LIMIT`](crate::LIMIT)
/// octets.
#[derive(Debug, Drop)]
pub struct Message {
    apdu: u8,
    body: Value,
    octets: u32,
    ghost fits: { ∥ FitsApdu profile_two (apdu_with apdu body) ∥₁ },
    ghost within: { length (normal_form (apdu_with apdu body)) ≤ profile_two.limit },
}

impl Message {
    ghost use Rattle.std.specs.Prelude.{◌≡◌, ◌↔◌, IsTrue, IfOk, IfErr};
    ghost use Rattle.ill_schema.specs.Message.{apdu_of, octets_of};
    ghost use Rattle.ill_schema.specs.Unfit.{IsUnfit};
    ghost use Rattle.ill_schema.specs.Value.{content_of};

    /// The message of an APDU that is known to fit, and of the number of octets that it was read
    /// from.
    pub fn of(apdu: u8, body: Value, octets: u32) -> Message
        requires fits { FitsApdu profile_two (apdu_with apdu body) }
        requires within { length (normal_form (apdu_with apdu body)) ≤ profile_two.limit }
        ensures apdu { apdu_of result ≡ apdu_with apdu body }
        ensures octets { octets_of result ≡ octets }
    {
        Message { apdu, body, octets }
    }

    /// The message of an APDU's number and its body, whose octets are those of its normal form.
    ///
    /// # Errors
    ///
    /// The body comes back with the first reason why there is no such message: no APDU of the
    /// number is carried, the body doesn't fit, or the normal form passes the limit.
    pub fn new(apdu: u8, body: Value) -> Result<Message, (Value, Unfit)>
        ensures apdu { IfOk result (λ m. apdu_of m ≡ apdu_with apdu body) }
        ensures octets { IfOk result (λ m. octets_of m ≡ length (normal_form (apdu_of m))) }
        ensures same_body { IfErr result (λ e. e.0 ≡ body) }
        ensures unfit { IfErr result (λ e. IsUnfit e.1 (apdu_with apdu body)) }
    {
        let node = match apdu_node(apdu) {
            Some(node) => node,
            None => return Err((body, Unfit::NotCarried)),
        };
        if !fits(&body, node) {
            return Err((body, Unfit::DoesNotFit));
        }
        match normal_size(&body, node) {
            Some(octets) => Ok(Message::of(apdu, body, octets)),
            None => Err((body, Unfit::TooLong)),
        }
    }

    /// The number of the APDU.
    pub fn apdu(&self) -> u8
        ensures { result ≡ (apdu_of self.now).number }
    {
        self.apdu
    }

    /// The body, which fits the APDU's node.
    pub fn body(&self) -> &Value
        ensures content { content_of result.now ≡ (apdu_of self.now).body }
        ensures fits { FitsApdu profile_two (apdu_of self.now) }
        ensures within { length (normal_form (apdu_of self.now)) ≤ profile_two.limit }
    {
        &self.body
    }

    /// The number of octets that the message was read from, or, of a message that was made, those of its
    /// normal form.
    pub fn octets(&self) -> u32
        ensures { result ≡ octets_of self.now }
    {
        self.octets
    }

    /// The body alone.
    pub fn into_body(self) -> Value
        ensures { content_of result ≡ (apdu_of self).body }
    {
        self.body
    }

    /// Tells whether two messages are of one APDU, however many octets they were read from.
    pub fn same_apdu(&self, other: &Message) -> bool
        ensures { IsTrue result ↔ (apdu_of self.now ≡ apdu_of other.now) }
    {
        self.apdu == other.apdu && equal(&self.body, &other.body)
    }
}
