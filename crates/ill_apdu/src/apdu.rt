//! The choice of the carried APDUs, and messages of them.
ghost use Rattle.std.specs.Prelude.{◌≡◌, ◌↔◌, ◌<◌, ◌≤◌, IfOk, IfErr, IsErrOf, IsTrue, length};
ghost use Rattle.ber_leaf.specs.Profile.{profile_two};
ghost use Rattle.ill_schema.specs.Apdu.{normal_form};
ghost use Rattle.ill_schema.specs.Message.{apdu_of, octets_of};
ghost use Rattle.ill_schema.specs.Value.{content_of};
ghost use Rattle.ill_parts.specs.Shape.{Is};
ghost use Rattle.ill_apdu.specs.Carried.{number_of, body_node_of, body_of, view_of};

use crate::answer::IllAnswer;
use crate::cancel::{Cancel, CancelReply};
use crate::conditional_reply::ConditionalReply;
use crate::expired::Expired;
use crate::fault::MessageFault;
use crate::lost::{Damaged, Lost};
use crate::overdue::Overdue;
use crate::recall::Recall;
use crate::received::Received;
use crate::renew::{Renew, RenewAnswer};
use crate::request::IllRequest;
use crate::returned::{CheckedIn, Returned};
use crate::shipped::Shipped;
use crate::status_query::StatusQuery;
use crate::text::MessageApdu;
use ill_parts::Part;
use ill_schema::{Message, Value};
use std::alloc::{AllocError, Global};

/// A carried APDU. FORWARD-NOTIFICATION (APDU 2) and STATUS-OR-ERROR-REPORT (APDU 19) are left out.
#[derive(Debug, Drop, PartialEq, Eq)]
pub enum Apdu {
    /// ILL-REQUEST (APDU 1).
    IllRequest(IllRequest),
    /// SHIPPED (APDU 3).
    Shipped(Shipped),
    /// ILL-ANSWER (APDU 4).
    IllAnswer(IllAnswer),
    /// CONDITIONAL-REPLY (APDU 5).
    ConditionalReply(ConditionalReply),
    /// CANCEL (APDU 6).
    Cancel(Cancel),
    /// CANCEL-REPLY (APDU 7).
    CancelReply(CancelReply),
    /// RECEIVED (APDU 8).
    Received(Received),
    /// RECALL (APDU 9).
    Recall(Recall),
    /// RETURNED (APDU 10).
    Returned(Returned),
    /// CHECKED-IN (APDU 11).
    CheckedIn(CheckedIn),
    /// OVERDUE (APDU 12).
    Overdue(Overdue),
    /// RENEW (APDU 13).
    Renew(Renew),
    /// RENEW-ANSWER (APDU 14).
    RenewAnswer(RenewAnswer),
    /// LOST (APDU 15).
    Lost(Lost),
    /// DAMAGED (APDU 16).
    Damaged(Damaged),
    /// MESSAGE (APDU 17).
    MessageApdu(MessageApdu),
    /// STATUS-QUERY (APDU 18).
    StatusQuery(StatusQuery),
    /// EXPIRED (APDU 20).
    Expired(Expired),
}

impl Apdu {
    ghost use Rattle.ill_apdu.specs.contracts.apdu.ApduPartialEq.TheImpl.{eq-value as apdu_eq};

    /// The number of the APDU.
    pub fn number(&self) -> u8
        ensures { result ≡ number_of self.now }
    {
        match self {
            Apdu::IllRequest(_) => 1,
            Apdu::Shipped(_) => 3,
            Apdu::IllAnswer(_) => 4,
            Apdu::ConditionalReply(_) => 5,
            Apdu::Cancel(_) => 6,
            Apdu::CancelReply(_) => 7,
            Apdu::Received(_) => 8,
            Apdu::Recall(_) => 9,
            Apdu::Returned(_) => 10,
            Apdu::CheckedIn(_) => 11,
            Apdu::Overdue(_) => 12,
            Apdu::Renew(_) => 13,
            Apdu::RenewAnswer(_) => 14,
            Apdu::Lost(_) => 15,
            Apdu::Damaged(_) => 16,
            Apdu::MessageApdu(_) => 17,
            Apdu::StatusQuery(_) => 18,
            Apdu::Expired(_) => 20,
        }
    }

    /// The value of the body.
    fn body(&self, alloc: Global) -> Result<Value, AllocError>
        ensures value { IfOk result (λ v. content_of v ≡ body_of self.now) }
        ensures fits { IfOk result (λ v. Is (body_node_of self.now) (content_of v)) }
    {
        match self {
            Apdu::IllRequest(part) => part.to_value(alloc),
            Apdu::Shipped(part) => part.to_value(alloc),
            Apdu::IllAnswer(part) => part.to_value(alloc),
            Apdu::ConditionalReply(part) => part.to_value(alloc),
            Apdu::Cancel(part) => part.to_value(alloc),
            Apdu::CancelReply(part) => part.to_value(alloc),
            Apdu::Received(part) => part.to_value(alloc),
            Apdu::Recall(part) => part.to_value(alloc),
            Apdu::Returned(part) => part.to_value(alloc),
            Apdu::CheckedIn(part) => part.to_value(alloc),
            Apdu::Overdue(part) => part.to_value(alloc),
            Apdu::Renew(part) => part.to_value(alloc),
            Apdu::RenewAnswer(part) => part.to_value(alloc),
            Apdu::Lost(part) => part.to_value(alloc),
            Apdu::Damaged(part) => part.to_value(alloc),
            Apdu::MessageApdu(part) => part.to_value(alloc),
            Apdu::StatusQuery(part) => part.to_value(alloc),
            Apdu::Expired(part) => part.to_value(alloc),
        }
    }

    /// The message of the APDU, whose octets are those of its normal form. The value is built first, so
    /// out of memory comes before [`MessageFault::TooLong`].
    ///
    /// # Errors
    ///
    /// [`MessageFault::OutOfMemory`], where memory is refused, and [`MessageFault::TooLong`], where the
    /// normal form passes [`LIMIT`](ill_schema::LIMIT).
    pub fn to_message(&self, alloc: Global) -> Result<Message, MessageFault>
        ensures apdu { IfOk result (λ m. apdu_of m ≡ view_of self.now) }
        ensures octets { IfOk result (λ m. octets_of m ≡ length (normal_form (view_of self.now))) }
        // A normal form that passes the limit has no message, and only such a one is too long.
        ensures within { IfOk result (λ _. length (normal_form (view_of self.now))
            ≤ profile_two.limit) }
        ensures too_long { IsErrOf result MessageFault.TooLong
            → profile_two.limit < length (normal_form (view_of self.now)) }
    {
        let Ok(body) = self.body(alloc) else {
            return Err(MessageFault::OutOfMemory);
        };
        self.message_of(body)
    }

    /// The message of the APDU, where its body is at hand. This takes no memory, so there is one fault.
    fn message_of(&self, body: Value) -> Result<Message, MessageFault>
        requires value { content_of body ≡ body_of self.now }
        requires fits { Is (body_node_of self.now) (content_of body) }
        ensures apdu { IfOk result (λ m. apdu_of m ≡ view_of self.now) }
        ensures octets { IfOk result (λ m. octets_of m ≡ length (normal_form (view_of self.now))) }
        ensures within { IfOk result (λ _. length (normal_form (view_of self.now))
            ≤ profile_two.limit) }
        ensures too_long { IfErr result (λ fault. (fault ≡ MessageFault.TooLong)
            × (profile_two.limit < length (normal_form (view_of self.now)))) }
    {
        match Message::new(self.number(), body) {
            Ok(message) => {
                // This shows the proof that the normal form is within the limit.
                message.body();
                Ok(message)
            }
            Err(_) => Err(MessageFault::TooLong),
        }
    }

    /// The APDU of a message.
    ///
    /// # Errors
    ///
    /// [`AllocError`], where memory is refused.
    pub fn from_message(alloc: Global, message: &Message) -> Result<Apdu, AllocError>
        ensures { IfOk result (λ apdu. view_of apdu ≡ apdu_of message.now) }
    {
        let body = message.body();
        match message.apdu() {
            1 => Ok(Apdu::IllRequest(Part::read(alloc, body)?)),
            3 => Ok(Apdu::Shipped(Part::read(alloc, body)?)),
            4 => Ok(Apdu::IllAnswer(Part::read(alloc, body)?)),
            5 => Ok(Apdu::ConditionalReply(Part::read(alloc, body)?)),
            6 => Ok(Apdu::Cancel(Part::read(alloc, body)?)),
            7 => Ok(Apdu::CancelReply(Part::read(alloc, body)?)),
            8 => Ok(Apdu::Received(Part::read(alloc, body)?)),
            9 => Ok(Apdu::Recall(Part::read(alloc, body)?)),
            10 => Ok(Apdu::Returned(Part::read(alloc, body)?)),
            11 => Ok(Apdu::CheckedIn(Part::read(alloc, body)?)),
            12 => Ok(Apdu::Overdue(Part::read(alloc, body)?)),
            13 => Ok(Apdu::Renew(Part::read(alloc, body)?)),
            14 => Ok(Apdu::RenewAnswer(Part::read(alloc, body)?)),
            15 => Ok(Apdu::Lost(Part::read(alloc, body)?)),
            16 => Ok(Apdu::Damaged(Part::read(alloc, body)?)),
            17 => Ok(Apdu::MessageApdu(Part::read(alloc, body)?)),
            18 => Ok(Apdu::StatusQuery(Part::read(alloc, body)?)),
            20 => Ok(Apdu::Expired(Part::read(alloc, body)?)),
            _ => unreachable!(),
        }
    }

    /// Two APDUs are equal exactly if their numbers and bodies are.
    #[tactic(auto, using(crate::proofs::SameApdu::apdu_exact))]
    pub fn one_view(&self, other: &Apdu)
        ensures { IsTrue (apdu_eq.it self.now other.now) ↔ (view_of self.now ≡ view_of other.now) }
    {
        let _ = other;
    }
}
