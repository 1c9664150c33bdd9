//! Arguments of the calls.
use ber_leaf::{DateText, GeneralText, IllString, PrintableText, TimeText, VisibleText};
use ill_read::decode;
use ill_schema::Message;
use std::alloc::Global;
use std::test::Fail;
use test_support::{date_text, general_string, general_text};

/// An EXPIRED in its normal form: version 2, group "G", qualifier "Q", 29 February 2024.
pub const EXPIRED: &[u8] =
    b"\x74\x1f\x30\x1d\x80\x01\x02\xa1\x0a\xa1\x03\x1b\x01\x47\xa2\x03\x1b\x01\x51\xa2\x0c\xa0\x0a\x80\x0820240229";

/// A text of each type.
#[derive(Drop)]
pub struct Texts {
    pub visible: VisibleText,
    pub general: GeneralText,
    pub printable: PrintableText,
    pub date: DateText,
    pub time: TimeText,
    pub either: IllString,
}

/// The arguments of the calls.
#[derive(Drop)]
pub struct Given {
    pub texts: Texts,
    pub message: Message,
}

fn one_of_each(alloc: Global) -> Result<Texts, Fail> {
    Ok(Texts {
        visible: VisibleText::new(b"V".to_vec(alloc)?).map_err(|_| "no VisibleString")?,
        general: general_text(b"G".to_vec(alloc)?)?,
        printable: PrintableText::new(b"P".to_vec(alloc)?).map_err(|_| "no PrintableString")?,
        date: date_text(b"20240229".to_vec(alloc)?)?,
        time: TimeText::new(b"235959".to_vec(alloc)?).map_err(|_| "no ISO-Time")?,
        either: general_string(alloc, "E")?,
    })
}

impl Given {
    pub fn new(alloc: Global) -> Result<Given, Fail> {
        Ok(Given {
            texts: one_of_each(alloc)?,
            message: decode(alloc, EXPIRED).map_err(|_| "no message")?,
        })
    }
}
