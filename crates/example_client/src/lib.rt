//! An example of a program that uses illcanon: it builds an APDU as a struct, sends its normal form, reads what it receives, and keeps
//! normal forms in an archive. All that it needs is proved here, from the contracts of public calls and laws alone.
#![tactic(auto)]

ghost use Rattle.std.specs.Prelude.{◌≡◌, ◌≢◌, ◌⊎◌, ◌<◌, ℕ, length, IfOk, IfErr, IsErrOf, IsTrue};
ghost use Rattle.std.specs.Io.KnownBytes.{Appends};
ghost use Rattle.ber_leaf.specs.Profile.{profile_two};
ghost use Rattle.ill_schema.specs.Apdu.{Apdu as NumberedBody, SpellsApdu, normal_form};
ghost use Rattle.ill_schema.specs.Message.{apdu_of};
ghost use Rattle.ill_apdu.specs.Carried.{view_of};

use ber_core::{FromSlice, Sink};
use ill_apdu::{Apdu, MessageFault};
use ill_normal::{Failure, Message, NormalFailure, decode, normalise, one_refusal_of_a_slice};
use ill_schema::{normal_form_is_a_spelling, one_meaning};
use ill_write::normal_bytes;
use std::alloc::Global;

/// The reason why an APDU isn't sent, received or archived.
#[derive(Clone, Copy)]
pub enum Fault {
    /// The normal form has more than 1,048,576 octets, so there is no message.
    TooLong,
    /// The octets are no message.
    Refused,
    /// Out of memory.
    OutOfMemory,
    /// The archive is broken.
    Broken,
}

/// The octets that are sent of an APDU: its normal form, which spells it.
pub fn sent(alloc: Global, apdu: &Apdu) -> Result<Vec<u8>, Fault>
    ensures octets { IfOk result (λ octets. octets.items ≡ normal_form (view_of apdu.now)) }
    ensures spells { IfOk result (λ octets. SpellsApdu profile_two (view_of apdu.now)
        octets.items) }
    ensures too_long { IsErrOf result Fault.TooLong
        → profile_two.limit < length (normal_form (view_of apdu.now)) }
    ensures fails { IfErr result (λ fault. (fault ≡ Fault.TooLong) ⊎ (fault ≡ Fault.OutOfMemory)) }
{
    match apdu.to_message(alloc) {
        Ok(message) => written(alloc, &message),
        Err(MessageFault::TooLong) => Err(Fault::TooLong),
        Err(MessageFault::OutOfMemory) => Err(Fault::OutOfMemory),
    }
}

/// The normal form of a message, which spells its APDU.
fn written(alloc: Global, message: &Message) -> Result<Vec<u8>, Fault>
    ensures octets { IfOk result (λ octets. octets.items ≡ normal_form (apdu_of message.now)) }
    ensures spells { IfOk result (λ octets. SpellsApdu profile_two (apdu_of message.now)
        octets.items) }
    ensures fails { IfErr result (λ fault. fault ≡ Fault.OutOfMemory) }
{
    // The body fits its node, and the normal form is within the limit.
    message.body();
    normal_form_is_a_spelling();
    match normal_bytes(alloc, message) {
        Ok(octets) => Ok(octets),
        Err(_) => Err(Fault::OutOfMemory),
    }
}

/// Octets that spell an APDU are read as that APDU, and are not refused.
pub fn received(alloc: Global, octets: &[u8]) -> Result<Message, Fault>
    ensures message { (a : NumberedBody) → SpellsApdu profile_two a octets.now
        → IfOk result (λ message. apdu_of message ≡ a) }
    ensures accepts { (a : NumberedBody) → SpellsApdu profile_two a octets.now
        → IfErr result (λ fault. fault ≡ Fault.OutOfMemory) }
{
    one_meaning();
    one_refusal_of_a_slice();
    match decode(alloc, octets) {
        Ok(message) => Ok(message),
        Err(Failure::Refused(_)) => Err(Fault::Refused),
        Err(Failure::OutOfMemory) => Err(Fault::OutOfMemory),
    }
}

/// An APDU that is sent and received comes back, and is never refused. What comes back is equal, since its view is
/// ([`Apdu::one_view`]).
pub fn returned(alloc: Global, apdu: &Apdu) -> Result<Apdu, Fault>
    ensures back { IfOk result (λ back. view_of back ≡ view_of apdu.now) }
    ensures too_long { IsErrOf result Fault.TooLong
        → profile_two.limit < length (normal_form (view_of apdu.now)) }
    ensures fails { IfErr result (λ fault. (fault ≡ Fault.TooLong) ⊎ (fault ≡ Fault.OutOfMemory)) }
{
    let octets = match sent(alloc, apdu) {
        Ok(octets) => octets,
        Err(fault) => return Err(fault),
    };
    let message = match received(alloc, &octets) {
        Ok(message) => message,
        Err(fault) => return Err(fault),
    };
    match Apdu::from_message(alloc, &message) {
        Ok(back) => Ok(back),
        Err(_) => Err(Fault::OutOfMemory),
    }
}

/// An archive keeps the normal form of octets that spell an APDU, however they spell it.
pub fn archived<W: Sink>(alloc: Global, octets: &[u8], archive: &mut W) -> Result<(), Fault>
    ensures kept { (a : NumberedBody) → SpellsApdu profile_two a octets.now
        → IfOk result (λ _. Appends (W.contents archive.old) (W.contents archive.new)
        (normal_form a)) }
    ensures accepts { (a : NumberedBody) → SpellsApdu profile_two a octets.now
        → IfErr result (λ fault. fault ≢ Fault.Refused) }
    ensures broken { IsErrOf result Fault.Broken → IsTrue (W.is_broken archive.new) }
{
    one_meaning();
    let mut source = FromSlice::new(octets);
    match normalise(alloc, &mut source, archive) {
        Ok(Some(_)) => Ok(()),
        Ok(None) => Err(Fault::Refused),
        Err(NormalFailure::Refused(_)) => Err(Fault::Refused),
        Err(NormalFailure::OutOfMemory) => Err(Fault::OutOfMemory),
        Err(NormalFailure::ReadFault | NormalFailure::WriteFault(_)) => Err(Fault::Broken),
    }
}
