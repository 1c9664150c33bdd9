//! The normal forms of ILL messages and streams: made, compared, checked and digested. Most callers need no other crate.
//!
//! ```
//! // whether both are spellings of one APDU
//! let same = same_message(alloc, sent, received)?;
//! // the normal forms of all messages of a source, and how many they are
//! let count = normalise_stream(alloc, &mut source, &mut sink)?;
//! ```
#![tactic(auto)]

mod check;
mod check_words;
mod compare;
mod counts;
mod digest;
mod failure;
mod item_loop;
mod laws;
mod message_reader;
mod messages;
mod next_message;
mod report;
mod rest;
mod single;
mod skipping_laws;
mod stream;
mod write_items;

pub use ber_core::{
    Broken, Class, FromBuffer, FromRead, FromSlice, Pieces, Room, Sink, Source, ToWrite,
};
pub use ber_leaf::{
    DateText, GeneralText, IllString, LeafFault, PrintableText, TimeText, VisibleText,
};
pub use check::{Checked, apdu_number, check_one, check_one_as};
pub use check_words::{apdu_name_or_empty, put_check_words};
pub use compare::{is_normal, is_normal_as, same_message, same_message_as};
pub use counts::Counts;
pub use digest::{message_digest, normal_digest};
pub use failure::{NormalFailure, StreamCause, StreamFailure};
pub use ill_inputs::{
    MAX_HEX_TEXT, RunFault, Side, Verdict, end_of_input, read_at_most, read_hex, text_octets,
};
pub use ill_read::{
    Failure, NormalForm, NormalReader, ReadFailure, decode, decode_normal, read_message,
    read_normal,
};
pub use ill_schema::{
    Cause, LIMIT, Message, NodeId, PartId, Profile, Refusal, Value, apdu_name, apdu_name_as,
};
pub use laws::{
    normal_form_is_accepted, normal_form_is_its_own, normal_forms_are_equal_exactly_if_apdus_are,
    one_prefix_is_accepted, one_refusal_of_a_slice,
};
pub use message_reader::{MessageReader, ReadMessage, Wants};
pub use messages::{MAX_MESSAGES, MessagePlace, OnRefusal, Reading, StreamEnd, read_input};
pub use report::{NoReports, RefusalReport, ReportRefusals};
pub use single::{normalise, normalise_as};
pub use skipping_laws::{
    accepted_messages_are_written, one_reading_of_an_input, refusals_are_of_the_input,
    unknown_ends_are_last,
};
pub use stream::{WriteNormalForms, normalise_stream, normalise_stream_as};
pub use write_items::{PutError, WriteItems, Written};
