//! Contracts that leave one result. Each function here makes calls on any arguments, and what they return is proved of their
//! contracts alone. So a body that returns anything else doesn't meet its contract.
ghost use Rattle.std.specs.Prelude.{◌≡◌, ℕ, ◌≤◌, List, ◌++◌, IfOk, IfSome, OnOk, length, take, drop};
ghost use Rattle.std.specs.Io.KnownBytes.{Consumes};
ghost use Rattle.ber_core.specs.HeaderState.{Fed, IsOpen};
ghost use Rattle.ber_leaf.specs.Content.{IsContent};
ghost use Rattle.ber_leaf.specs.Leaf.{normal_content};

use ber_core::{
    Broken, Class, FromBuffer, FromRead, FromSlice, Header, HeaderFault, HeaderState, Id, Pieces,
    Room, Sink, Source, ToWrite, header_size, put_header,
};
use ber_leaf::{
    BitString, DateText, GeneralText, IllString, Leaf, ObjectDescriptor, ObjectIdentifier,
    OctetString, PrintableText, Segments, TimeText, VisibleText,
};
use der_buffer::DerBuffer;
use std::alloc::{AllocError, Global};
use std::io::{Read, Write};

/// An identifier is of the class, form and number that it was made of. No identifier is past the greatest number, and none is of
/// universal 0 primitive.
fn identifiers_keep_their_parts(class: Class, constructed: bool, number: u32) {
    match Id::new(class, constructed, number) {
        Some(id) => {
            prove!(id.class() == class);
            prove!(id.constructed() == constructed);
            prove!(id.number() == number);
        }
        None => {
            let is_end = number == 0 && !constructed && class == Class::Universal;
            prove!(number > Id::MAX_NUMBER || is_end);
        }
    }
}

/// One header is written for an identifier and a length, of the size that is said of it.
fn headers_are_written_in_one_way(id: Id, len: u32) {
    let mut one = [0; 10];
    let mut other = [0; 10];
    let first = put_header(id, len, &mut one);
    let second = put_header(id, len, &mut other);
    let size = header_size(id, len);
    prove!(first == size);
    prove!(second == size);
    prove!(one == other);
}

/// A buffer shows what was appended to it, up to where it is cut.
fn der_buffers_keep_what_they_took(
    octets: &[u8],
    contents_start: usize,
    alloc: Global,
) -> Result<(), AllocError>
    requires { contents_start ≤ length octets.now }
{
    let mut buffer = DerBuffer::new(alloc);
    prove!(buffer.is_empty());
    buffer.append(octets)?;
    prove!(buffer.octets() == octets);
    prove!(buffer.len() == octets.len());
    prove!(buffer.is_empty() == octets.is_empty());
    buffer.cut(contents_start);
    prove!(buffer.octets() == &octets[..contents_start]);
    buffer.clear();
    prove!(buffer.len() == 0);
    Ok(())
}

/// A buffer in the memory of others begins empty.
fn der_buffers_forget_what_their_room_held(room: Vec<u8>, octets: &[u8]) -> Result<(), AllocError> {
    let mut buffer = DerBuffer::with_memory(room);
    prove!(buffer.is_empty());
    buffer.append(octets)?;
    prove!(buffer.octets() == octets);
    Ok(())
}

/// An element begins in one way after the same octets.
fn elements_begin_in_one_way(
    one: &mut DerBuffer,
    other: &mut DerBuffer,
    id: Id,
) -> Result<(usize, usize), AllocError>
    requires same { one.old ≡ other.old }
    ensures bases { IfOk result (λ bases. bases.0 ≡ bases.1) }
    ensures octets { OnOk result (one.new ≡ other.new) }
{
    Ok((one.open(id)?, other.open(id)?))
}

/// An element ends in one way. Where none was opened, nothing happens.
fn elements_end_in_one_way(
    one: &mut DerBuffer,
    other: &mut DerBuffer,
    contents_start: usize,
) -> Result<(), AllocError>
    requires same { one.old ≡ other.old }
    ensures { OnOk result (one.new ≡ other.new) }
{
    one.close(contents_start)?;
    other.close(contents_start)
}

/// Octets become the contents of an element in one way.
fn octets_are_enclosed_in_one_way(
    one: &mut DerBuffer,
    other: &mut DerBuffer,
    contents_start: usize,
    id: Id,
) -> Result<(), AllocError>
    requires same { one.old ≡ other.old }
    ensures { OnOk result (one.new ≡ other.new) }
{
    one.enclose(contents_start, id)?;
    other.enclose(contents_start, id)
}

/// An element is the same octets, whether it is written whole, in pieces, or around octets that are there.
fn elements_are_written_in_one_way(
    whole: &mut DerBuffer,
    pieces: &mut DerBuffer,
    around: &mut DerBuffer,
    id: Id,
    content: &[u8],
) -> Result<(), AllocError>
    requires pieces { whole.old ≡ pieces.old }
    requires around { whole.old ≡ around.old }
    ensures pieces { OnOk result (whole.new ≡ pieces.new) }
    ensures around { OnOk result (whole.new ≡ around.new) }
{
    whole.primitive(id, content)?;
    let contents_start = pieces.open(id)?;
    pieces.append(content)?;
    pieces.close(contents_start)?;
    let contents_start = around.len();
    around.append(content)?;
    around.enclose(contents_start, id)
}

/// States that were fed the same octets return the same for the next one.
fn states_return_what_their_octets_are(
    one: &mut HeaderState,
    other: &mut HeaderState,
    octet: u8,
) -> (
    Result<Option<Header>, HeaderFault>,
    Result<Option<Header>, HeaderFault>,
)
    requires open { IsOpen one.old × IsOpen other.old }
    requires fed { (b : List ℕ) × Fed one.old b × Fed other.old b }
    ensures { result.0 ≡ result.1 }
{
    (one.push(octet), other.push(octet))
}

/// States that were fed the same octets say the same of them.
fn states_say_what_their_octets_are(
    one: &HeaderState,
    other: &HeaderState,
) -> ((Option<Id>, u32), (Option<Id>, u32))
    requires fed { (b : List ℕ) × Fed one.now b × Fed other.now b }
    ensures id { result.0.0 ≡ result.1.0 }
    ensures due { result.0.1 ≡ result.1.1 }
{
    ((one.id(), one.due()), (other.id(), other.due()))
}

/// Equal pieces move as many octets into equal buffers, and have as many left.
fn pieces_move_in_one_way(
    one: &mut Pieces,
    other: &mut Pieces,
    a: &mut [u8],
    b: &mut [u8],
) -> (Result<usize, Broken>, Result<usize, Broken>)
    requires pieces { one.old ≡ other.old }
    requires buffers { a.old ≡ b.old }
    ensures result { result.0 ≡ result.1 }
    ensures left { one.new ≡ other.new }
{
    (one.take(a), other.take(b))
}

/// Pieces break after as many octets as they have to, and a room too.
fn slices_break_where_they_have_to(octets: &[u8], buffer: &mut [u8]) {
    let mut pieces = Pieces::new(octets, 1, Some(0));
    let taken = pieces.take(buffer);
    prove!(taken.is_err());
    let mut room: Room<4> = Room::new(1, Some(0));
    let given = room.put(&[1]);
    prove!(given.is_err());
}

/// A room shows the octets that it took.
fn rooms_show_what_they_took(octets: &[u8]) {
    let mut room: Room<4> = Room::new(1, None);
    if let Ok(n) = room.put(octets) {
        prove!(room.octets() == &octets[..n]);
    }
}

/// The octets of a reader are taken each once, in their order.
fn readers_lose_nothing(
    octets: &[u8],
    one: &mut [u8],
    other: &mut [u8],
) -> Result<(usize, usize), Broken>
    ensures { IfOk result (λ n. (rest : List ℕ)
        × (octets.now ≡ take n.0 one.new ++ (take n.1 other.new ++ rest))) }
{
    let mut source = FromRead::new(octets);
    Ok((source.take(one)?, source.take(other)?))
}

/// Equal slices move as many octets into equal buffers, and have as many left.
fn slices_move_in_one_way(
    one: &mut FromSlice,
    other: &mut FromSlice,
    a: &mut [u8],
    b: &mut [u8],
) -> (Result<usize, Broken>, Result<usize, Broken>)
    requires slices { one.old ≡ other.old }
    requires buffers { a.old ≡ b.old }
    ensures result { result.0 ≡ result.1 }
    ensures left { one.new ≡ other.new }
    ensures buffer { IfOk result.0 (λ n. take n a.new ≡ take n b.new) }
{
    (one.take(a), other.take(b))
}

/// A slice has at hand all that was not yet passed.
fn slices_show_what_is_left(octets: &[u8], count: usize) -> FromSlice<'_>
    requires { count ≤ length octets.now }
    ensures { result ≡ drop count octets.now }
{
    let mut source = FromSlice::new(octets);
    prove!(source.buffered() == octets);
    prove!(!source.broken());
    let taken = source.consume(count);
    prove!(taken.is_ok());
    source
}

/// The octets of a buffered reader come each once, in their order, whether they are taken or passed.
fn buffers_lose_nothing(
    octets: &[u8],
    one: &mut [u8],
    other: &mut [u8],
    alloc: Global,
) -> Option<(usize, Vec<u8>, usize)>
    ensures { IfSome result (λ r. (rest : List ℕ)
        × (octets.now ≡ take r.0 one.new ++ (r.1.items ++ (take r.2 other.new ++ rest)))) }
{
    let Ok(mut source) = FromBuffer::new(alloc, octets) else {
        return None;
    };
    let Ok(first) = source.take(one) else {
        return None;
    };
    let Ok(shown) = Vec::from_slice(alloc, source.buffered()) else {
        return None;
    };
    let Ok(()) = source.consume(shown.len()) else {
        return None;
    };
    let Ok(last) = source.take(other) else {
        return None;
    };
    Some((first, shown, last))
}

/// A source over a buffered reader has nothing at hand at first, and is broken exactly after an error.
fn buffers_say_that_they_broke<R: Read + Drop>(
    reader: R,
    buffer: &mut [u8],
    alloc: Global,
) -> Result<(), AllocError> {
    let mut source = FromBuffer::new(alloc, reader)?;
    prove!(!source.broken());
    prove!(source.buffered().is_empty());
    let taken = source.take(buffer);
    prove!(taken.is_err() == source.broken());
    Ok(())
}

/// Takes of a source the octets that it shows, and returns them; None where there is no memory, or the source is broken.
fn sources_give_what_they_show<R: Source>(source: &mut R, alloc: Global) -> Option<Vec<u8>>
    ensures { IfSome result (λ shown. Consumes (R.left source.old) (R.left source.new)
        shown.items) }
{
    let Ok(shown) = Vec::from_slice(alloc, source.buffered()) else {
        return None;
    };
    let Ok(()) = source.consume(shown.len()) else {
        return None;
    };
    Some(shown)
}

/// Nothing is seen of sources that have no call of their own to show it.
fn unseen_sources_show_nothing<R: Read>(reader: &FromRead<R>, pieces: &Pieces<'_>) {
    prove!(reader.buffered().is_empty());
    prove!(pieces.buffered().is_empty());
}

/// A slice shows all that is left, and can be taken as it is shown.
fn slices_give_what_they_show(source: &mut FromSlice<'_>) {
    let len = source.buffered().len();
    let taken = source.consume(len);
    prove!(taken.is_ok());
    prove!(source.buffered().is_empty());
}

/// A buffer gives all that it shows, and then shows nothing.
fn buffers_give_what_they_show<R: Read + Drop>(source: &mut FromBuffer<R>) {
    let len = source.buffered().len();
    let taken = source.consume(len);
    prove!(taken.is_ok());
    prove!(source.buffered().is_empty());
}

/// A source over a reader is broken exactly after an error.
fn sources_say_that_they_broke<R: Read + Drop>(reader: R, buffer: &mut [u8]) {
    let mut source = FromRead::new(reader);
    prove!(!source.broken());
    let taken = source.take(buffer);
    prove!(taken.is_err() == source.broken());
}

/// A sink over a writer is broken exactly after an error, and takes at least one octet else.
fn sinks_say_that_they_broke<W: Write + Drop>(writer: W, octets: &[u8]) {
    let mut sink = ToWrite::new(writer);
    prove!(!sink.broken());
    let put = sink.put(octets);
    prove!(put.is_err() == sink.broken());
    if let Ok(n) = put {
        prove!(n > 0 || octets.is_empty());
    }
}

/// Octets have one fault as a leaf, or none.
fn octets_have_one_fault<L: Leaf>(octets: &[u8]) {
    prove!(L::check(octets) == L::check(octets));
}

/// Octets hold one value of a leaf.
fn octets_hold_one_value<L: Leaf>(one: Vec<u8>, other: Vec<u8>) -> (L::Out, L::Out)
    requires same { one.items ≡ other.items }
    requires one { IsContent L.kind one.items }
    requires other { IsContent L.kind other.items }
    ensures { result.0 ≡ result.1 }
{
    (L::of(one), L::of(other))
}

/// A value has one normal content.
fn values_have_one_content<L: Leaf>(value: &L::Out, one: &mut [u8], other: &mut [u8])
    requires one { length one.old ≡ length (normal_content (L.simple value.now)) }
    requires other { length other.old ≡ length (normal_content (L.simple value.now)) }
    ensures { one.new ≡ other.new }
{
    prove!(L::normal_size(value) == one.len());
    L::put_normal(value, one);
    L::put_normal(value, other);
}

/// A date shows the octets that it is made of, and so does its copy.
fn dates_keep_their_octets(octets: &[u8], alloc: Global) -> Result<(), AllocError> {
    if let Ok(text) = DateText::new(Vec::from_slice(alloc, octets)?) {
        prove!(text.octets() == octets);
        let copy = text.copy(alloc)?;
        prove!(copy.octets() == octets);
    }
    Ok(())
}

/// A time shows the octets that it is made of, and so does its copy.
fn times_keep_their_octets(octets: &[u8], alloc: Global) -> Result<(), AllocError> {
    if let Ok(text) = TimeText::new(Vec::from_slice(alloc, octets)?) {
        prove!(text.octets() == octets);
        let copy = text.copy(alloc)?;
        prove!(copy.octets() == octets);
    }
    Ok(())
}

/// A general text shows the octets that it is made of, and so does its copy.
fn general_texts_keep_their_octets(octets: &[u8], alloc: Global) -> Result<(), AllocError> {
    if let Ok(text) = GeneralText::new(Vec::from_slice(alloc, octets)?) {
        prove!(text.octets() == octets);
        let copy = text.copy(alloc)?;
        prove!(copy.octets() == octets);
    }
    Ok(())
}

/// A visible text shows the octets that it is made of, and so does its copy.
fn visible_texts_keep_their_octets(octets: &[u8], alloc: Global) -> Result<(), AllocError> {
    if let Ok(text) = VisibleText::new(Vec::from_slice(alloc, octets)?) {
        prove!(text.octets() == octets);
        let copy = text.copy(alloc)?;
        prove!(copy.octets() == octets);
    }
    Ok(())
}

/// A printable text shows the octets that it is made of, and so does its copy.
fn printable_texts_keep_their_octets(octets: &[u8], alloc: Global) -> Result<(), AllocError> {
    if let Ok(text) = PrintableText::new(Vec::from_slice(alloc, octets)?) {
        prove!(text.octets() == octets);
        let copy = text.copy(alloc)?;
        prove!(copy.octets() == octets);
    }
    Ok(())
}

/// An object identifier shows the octets that it is made of.
fn identifiers_keep_their_octets(octets: &[u8], alloc: Global) -> Result<(), AllocError> {
    if let Ok(identifier) = ObjectIdentifier::new(Vec::from_slice(alloc, octets)?) {
        prove!(identifier.octets() == octets);
    }
    Ok(())
}

/// An octet string shows the octets that it is made of.
fn octet_strings_keep_their_octets(octets: &[u8], alloc: Global) -> Result<(), AllocError> {
    let string = OctetString::new(Vec::from_slice(alloc, octets)?);
    prove!(string.octets() == octets);
    Ok(())
}

/// An object descriptor shows the octets that it is made of.
fn descriptors_keep_their_octets(octets: &[u8], alloc: Global) -> Result<(), AllocError> {
    let descriptor = ObjectDescriptor::new(Vec::from_slice(alloc, octets)?);
    prove!(descriptor.octets() == octets);
    Ok(())
}

/// Bit strings of one content have one number of bits, and one list of octets.
fn bit_strings_have_their_bits(octets: &[u8], alloc: Global) -> Result<(), AllocError> {
    if let Ok(one) = BitString::new(Vec::from_slice(alloc, octets)?) {
        if let Ok(other) = BitString::new(Vec::from_slice(alloc, octets)?) {
            prove!(one.bit_len() == other.bit_len());
            prove!(one.octets() == other.octets());
        }
    }
    Ok(())
}

/// The copy of a string is of the same alternative and octets.
fn strings_are_copied_whole(string: &IllString, alloc: Global) {
    if let Ok(copy) = string.copy(alloc) {
        prove!(copy == *string);
    }
}

/// Segments are joined in their order.
fn segments_are_joined(first: &[u8], second: &[u8], alloc: Global) -> Result<Vec<u8>, AllocError>
    ensures { IfOk result (λ octets. octets.items ≡ first.now ++ second.now) }
{
    let mut segments = Segments::new(alloc);
    segments.push(first)?;
    segments.push(second)?;
    Ok(segments.into_octets())
}
