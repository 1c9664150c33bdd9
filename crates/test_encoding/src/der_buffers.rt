//! DER that is written forward, and the lengths that are set afterwards.
use ber_core::{Class, Id};
use der_buffer::DerBuffer;
use std::alloc::{AllocError, Global};
use std::test::Fail;
use test_support::octets_of;

/// The contents of an OCTET STRING, and the SEQUENCE of it alone (X.690, 8.1.3 and 10.1).
static ROWS: [(&str, &str); 9] = [
    ("", "3002 0400"),
    ("5a*125", "307f 047d 5a*125"),
    ("5a*126", "308180 047e 5a*126"),
    ("5a*127", "308181 047f 5a*127"),
    ("5a*128", "308183 048180 5a*128"),
    ("5a*255", "30820102 0481ff 5a*255"),
    ("5a*256", "30820104 04820100 5a*256"),
    ("5a*65535", "3083010003 0482ffff 5a*65535"),
    ("5a*65536", "3083010005 0483010000 5a*65536"),
];

/// The SEQUENCE of an OCTET STRING, written as an element and whole contents.
fn whole(buffer: &mut DerBuffer, ids: (Id, Id), content: &[u8]) -> Result<(), AllocError> {
    buffer.clear();
    let contents_start = buffer.open(ids.0)?;
    buffer.primitive(ids.1, content)?;
    buffer.close(contents_start)
}

/// Writes the element as two elements that are open at once.
fn nested(buffer: &mut DerBuffer, ids: (Id, Id), content: &[u8]) -> Result<(), AllocError> {
    buffer.clear();
    let outer = buffer.open(ids.0)?;
    let inner = buffer.open(ids.1)?;
    buffer.append(content)?;
    buffer.close(inner)?;
    buffer.close(outer)
}

/// Writes the element around its contents.
fn enclosed(buffer: &mut DerBuffer, ids: (Id, Id), content: &[u8]) -> Result<(), AllocError> {
    buffer.clear();
    buffer.append(content)?;
    buffer.enclose(0, ids.1)?;
    buffer.enclose(0, ids.0)
}

/// Tells whether each way to write the contents gives the element.
fn is_written(
    buffer: &mut DerBuffer,
    ids: (Id, Id),
    content: &[u8],
    element: &[u8],
) -> Result<bool, AllocError> {
    whole(buffer, ids, content)?;
    let is_whole = buffer.octets() == element;
    nested(buffer, ids, content)?;
    let is_nested = buffer.octets() == element;
    enclosed(buffer, ids, content)?;
    Ok(is_whole && is_nested && buffer.octets() == element)
}

fn is_row_written(
    alloc: Global,
    buffer: &mut DerBuffer,
    ids: (Id, Id),
    row: &(&str, &str),
) -> Result<bool, AllocError> {
    let content = octets_of(alloc, row.0)?;
    let element = octets_of(alloc, row.1)?;
    is_written(buffer, ids, &content, &element)
}

fn id(class: Class, constructed: bool, number: u32) -> Result<Id, Fail> {
    match Id::new(class, constructed, number) {
        Some(id) => Ok(id),
        None => Err("no identifier")?,
    }
}

#[test]
fn lengths_are_set_when_elements_close(rt: HostRuntime) -> Result<(), Fail> {
    let ids = (
        id(Class::Universal, true, 16)?,
        id(Class::Universal, false, 4)?,
    );
    let mut buffer = DerBuffer::new(rt.alloc());
    for row in &ROWS {
        assert!(rt;
            is_row_written(rt.alloc(), &mut buffer, ids, row)?,
            "{}",
            row.0
        );
    }
    Ok(())
}

/// Three octets, and an element with an element in it.
fn follow(buffer: &mut DerBuffer, wrapper: Id, integer: Id) -> Result<(), AllocError> {
    buffer.append(b"\x01\x02\x03")?;
    let contents_start = buffer.open(wrapper)?;
    buffer.primitive(integer, &[5])?;
    buffer.close(contents_start)
}

/// Tells whether the buffer is cut to its first four octets, and not where that lengthens it.
fn is_cut(buffer: &mut DerBuffer) -> bool {
    buffer.cut(4);
    let is_cut = buffer.octets() == b"\x01\x02\x03\xBF".as_slice();
    buffer.cut(9);
    is_cut && buffer.len() == 4
}

#[test]
fn elements_follow_what_was_written(rt: HostRuntime) -> Result<(), Fail> {
    let wrapper = id(Class::Context, true, 31)?;
    let integer = id(Class::Context, false, 16_384)?;
    let mut buffer = DerBuffer::new(rt.alloc());
    let is_empty = buffer.is_empty();
    follow(&mut buffer, wrapper, integer)?;
    assert!(rt;
        is_empty
            && buffer.octets() == b"\x01\x02\x03\xBF\x1F\x06\x9F\x81\x80\x00\x01\x05".as_slice()
    );
    let is_cut = is_cut(&mut buffer);
    buffer.enclose(2, integer)?;
    assert!(rt; is_cut && buffer.octets() == b"\x01\x02\x9F\x81\x80\x00\x02\x03\xBF".as_slice());
    Ok(())
}

/// Closes an element at each of the places.
fn close(buffer: &mut DerBuffer, bases: &[usize]) -> Result<(), AllocError> {
    for contents_start in bases {
        buffer.close(*contents_start)?;
    }
    Ok(())
}

/// Tells whether nothing happens where no element was opened, and an element ends where one was.
fn ends_what_was_opened(buffer: &mut DerBuffer, string: Id) -> Result<bool, AllocError> {
    close(buffer, &[0, 1])?;
    let is_empty = buffer.is_empty();
    buffer.append(b"\x04\x05")?;
    close(buffer, &[0, 3, usize::MAX])?;
    let is_left = buffer.octets() == b"\x04\x05".as_slice();
    buffer.close(2)?;
    let is_ended = buffer.octets() == b"\x04\x00".as_slice();
    buffer.enclose(usize::MAX, string)?;
    let is_enclosed = buffer.octets() == b"\x04\x00\x04\x00".as_slice();
    Ok(is_empty && is_left && is_ended && is_enclosed)
}

#[test]
fn nothing_closes_where_nothing_was_opened(rt: HostRuntime) -> Result<(), Fail> {
    let string = id(Class::Universal, false, 4)?;
    let mut buffer = DerBuffer::new(rt.alloc());
    assert!(rt; ends_what_was_opened(&mut buffer, string)?);
    Ok(())
}
