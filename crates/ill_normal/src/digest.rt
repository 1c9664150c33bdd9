//! Digests of messages: SHA-256 (FIPS 180-4) of the normal form. So a message has one digest, however it is spelled.
//!
//! ```
//! let digest = message_digest(alloc, Profile::Two, octets)?;
//! ```
ghost use Rattle.std.specs.Prelude.{◌≡◌, IfOk, IfErr};
ghost use Rattle.ber_leaf.specs.Profile.{profile_two};
ghost use Rattle.ill_schema.specs.Apdu.{Apdu, SpellsApdu, normal_form, normal_form_in};
ghost use Rattle.ill_schema.specs.Profiles.{profile_of};
ghost use Rattle.ill_read.specs.Answers.{IfRefused, RefusesWhole, RefusesWholeIn};
ghost use Rattle.sha2.specs.Sha256.{sha256};

use ill_read::{Failure, decode_normal};
use ill_schema::Profile;
use sha2::{Digest, Sha256};
use std::alloc::Global;

/// The digest of a message whose normal form is at hand.
pub fn normal_digest(normal: &[u8]) -> [u8; 32]
    ensures { result ≡ sha256 normal.now }
{
    Sha256::digest(normal)
}

/// The digest of the message in the profile that the whole slice is.
///
/// ```text
/// let sent = message_digest(alloc, Profile::Two, long_form)?;
/// let kept = message_digest(alloc, Profile::Two, normal_form)?; // the same 32 octets
/// ```
///
/// # Errors
///
/// The reason why the octets are not exactly one message, as of [`decode_normal`](crate::decode_normal); or out of memory.
pub fn message_digest(alloc: Global, profile: Profile, octets: &[u8]) -> Result<[u8; 32], Failure>
    ensures digest { IfOk result (λ digest. (a : Apdu)
        × SpellsApdu (profile_of profile) a octets.now
        × (digest ≡ sha256 (normal_form_in (profile_of profile) a))) }
    ensures refused { IfErr result
        (λ e. IfRefused e (RefusesWholeIn (profile_of profile) octets.now)) }
    // A spelling has a digest, unless memory runs out.
    ensures accepts { (a : Apdu) → SpellsApdu (profile_of profile) a octets.now
        → IfErr result (λ e. e ≡ Failure.OutOfMemory) }
{
    let normal = decode_normal(alloc, profile, octets)?;
    Ok(normal_digest(&normal.octets))
}
