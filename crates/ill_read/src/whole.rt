//! The message of a body that is whole.
ghost use Rattle.std.specs.Prelude.{ℕ, List};
ghost use Rattle.ber_leaf.specs.Profile.{profile_two};
ghost use Rattle.ill_schema.specs.Apdu.{Encodes};
ghost use Rattle.ill_read.specs.code.ReaderCode.{body_apdu, IsMessageOf};

use crate::value_draft::ApduValue;
use ill_schema::{Message, apdu_node, fits, normal_size};

/// The message of a body, unless its normal form passes the limit.
pub fn message_of(body: ApduValue, octets: u32) -> Option<Message>
    ensures { (b : List ℕ) → Encodes profile_two (body_apdu body) b
        → IsMessageOf (body_apdu body) octets result }
{
    let apdu = body.row.saturating_add(1);
    let node = apdu_node(apdu)?;
    if !fits(&body.value, node) {
        return None;
    }
    normal_size(&body.value, node)?;
    Some(Message::of(apdu, body.value, octets))
}
