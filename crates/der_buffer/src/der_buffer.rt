ghost use Rattle.std.specs.Prelude.{◌≡◌, ℕ, ◌+◌, ◌-◌, ◌<◌, ◌≤◌, Bool, false, List, [], ◌∷◌, ◌++◌, Ok, IfOk, OnOk, length, take, drop, nat_eq};
ghost use Rattle.std.specs.Vec.{vec_len, vec_capacity};
ghost use Rattle.ber_tree.specs.Identifier.{Tag, identifier};
ghost use Rattle.ber_core.specs.Id.{tag_of_id, form_of_id, id_octets};
ghost use Rattle.ber_tree.specs.Length.{shortest_length};
ghost use Rattle.ber_core.specs.Header.{shortest_header};
ghost use Rattle.ber_core.specs.Der.{encoding};
ghost use Rattle.ber_tree.specs.Tree.{primitive};

use ber_core::{Id, leading_octet, put_header};
use std::alloc::{AllocError, Global};
use std::marker::Model;

/// Octets in DER that grow at their end: the length of an open element is set when it closes (X.690, 10.1).
///
/// In contracts it is the octets that were written.
///
/// # Errors
///
/// A call that may need memory returns [`AllocError`] where memory runs out. What the buffer holds after an error is not said;
/// [`DerBuffer::clear`] makes it usable again.
///
/// # Examples
///
/// ```
/// // A SEQUENCE that holds the INTEGER 5: 30 03 02 01 05.
/// let mut buffer = DerBuffer::new(alloc);
/// let contents_start = buffer.open(sequence)?;
/// buffer.primitive(integer, &[5])?;
/// buffer.close(contents_start)?;
/// ```
#[derive(Debug, Drop)]
pub struct DerBuffer {
    octets: Vec<u8>,
}

/// The greatest number of octets that are appended one by one.
const INLINE_COPY_MAX: usize = 8;

impl Model for DerBuffer {
    ghost use Rattle.std.specs.Prelude.{ℕ, List};

    ghost Value = { List ℕ };

    ghost view = { λ s. s.octets.items };
}

impl DerBuffer {
    /// An empty buffer, which takes no memory yet.
    pub fn new(alloc: Global) -> DerBuffer
        ensures { result ≡ [] }
    {
        DerBuffer {
            octets: Vec::new(alloc),
        }
    }

    /// An empty buffer in the memory of `buffer`, whose octets are forgotten.
    pub fn with_memory(mut buffer: Vec<u8>) -> DerBuffer
        ensures { result ≡ [] }
    {
        buffer.clear();
        DerBuffer { octets: buffer }
    }

    /// Removes all octets, and keeps the memory.
    pub fn clear(&mut self)
        ensures { self.new ≡ [] }
    {
        self.octets.clear();
    }

    /// Removes what was written after the first `contents_start` octets. Where `contents_start` is beyond the end, nothing happens.
    pub fn cut(&mut self, contents_start: usize)
        ensures { self.new ≡ take contents_start self.old }
    {
        self.octets.truncate(contents_start);
    }

    /// The octets that were written.
    #[inline(always)]
    pub fn octets(&self) -> &[u8]
        ensures { result.now ≡ self.now }
    {
        self.octets.as_slice()
    }

    /// The octets that were written, in their memory.
    pub fn into_octets(self) -> Vec<u8>
        ensures { result.items ≡ self }
    {
        let DerBuffer { octets } = self;
        octets
    }

    /// The number of octets that were written.
    #[inline(always)]
    pub fn len(&self) -> usize
        ensures { result ≡ length self.now }
    {
        self.octets.len()
    }

    /// Tells whether no octet was written.
    #[inline(always)]
    pub fn is_empty(&self) -> bool
        ensures { result ≡ nat_eq (length self.now) 0 }
    {
        self.octets.is_empty()
    }

    /// Appends octets as they are, as a piece of a string's contents.
    #[inline(always)]
    pub fn append(&mut self, octets: &[u8]) -> Result<(), AllocError>
        ensures { OnOk result (self.new ≡ self.old ++ octets.now) }
    {
        self.octets.extend_from_slice(octets)
    }

    /// Begins an element: writes its identifier (X.690, 8.1.2), and one octet for the length, which [`DerBuffer::close`] sets. Returns
    /// how many octets come before its contents.
    #[inline(always)]
    pub fn open(&mut self, id: Id) -> Result<usize, AllocError>
        ensures octets { OnOk result (self.new ≡ self.old ++ (id_octets id ++ 0 ∷ [])) }
        ensures contents_start { IfOk result (λ contents_start. contents_start ≡ length self.new) }
    {
        if id.number() < 31 {
            append_short_header(&mut self.octets, id, 0)?;
        } else {
            // A copy, so that the usual case needs no memory for it.
            let id = id;
            append_element(&mut self.octets, &id, &[])?;
        }
        Ok(self.octets.len())
    }

    /// Writes a whole element: identifier, length in the fewest octets (X.690, 10.1), and these contents.
    #[inline(always)]
    pub fn primitive(&mut self, id: Id, content: &[u8]) -> Result<(), AllocError>
        ensures octets { OnOk result (self.new ≡ self.old
            ++ (shortest_header id (length content.now) ++ content.now)) }
        ensures encoding { form_of_id id ≡ false
            → OnOk result (self.new ≡ self.old ++ encoding (primitive (tag_of_id id) content.now)) }
    {
        if id.number() < 31 && content.len() < 128 {
            append_short_header(&mut self.octets, id, content.len())?;
            append_content(&mut self.octets, content)
        } else {
            // A copy, so that the usual case needs no memory for it.
            let id = id;
            append_element(&mut self.octets, &id, content)
        }
    }

    /// Ends the element whose contents began at `contents_start`, which [`DerBuffer::open`] returned, and run to the end: sets its length, in the
    /// fewest octets (X.690, 10.1). Where `contents_start` is 0 or beyond the end, nothing was opened there, and nothing happens.
    ///
    /// Contents of 128 octets or more are moved by 1 to 4 octets.
    #[inline(always)]
    pub fn close(&mut self, contents_start: usize) -> Result<(), AllocError>
        ensures octets { 0 < contents_start → contents_start ≤ length self.old
            → OnOk result (self.new ≡ take (contents_start - 1) self.old
            ++ (shortest_length (length self.old - contents_start)
            ++ drop contents_start self.old)) }
        ensures front { contents_start ≡ 0 → (result ≡ Ok tt) × (self.new ≡ self.old) }
        ensures beyond { length self.old < contents_start → (result ≡ Ok tt)
            × (self.new ≡ self.old) }
        ensures element { (before body : List ℕ) (tag : Tag) (form : Bool) (x : ℕ)
            → self.old ≡ before ++ (identifier tag form ++ x ∷ body)
            → contents_start ≡ length (before ++ (identifier tag form ++ x ∷ []))
            → OnOk result (self.new ≡ before ++ (identifier tag form
            ++ (shortest_length (length body) ++ body))) }
    {
        if contents_start == 0 || contents_start > self.octets.len() {
            return Ok(());
        }
        set_length(&mut self.octets, contents_start)
    }

    /// Makes the octets from `contents_start` on the contents of an element: puts its identifier and length before them, and moves them by as much.
    /// The element is empty where `contents_start` is beyond the end.
    #[inline(never)]
    pub fn enclose(&mut self, contents_start: usize, id: Id) -> Result<(), AllocError>
        ensures octets { OnOk result (self.new ≡ take contents_start self.old
            ++ (shortest_header id (length self.old - contents_start)
            ++ drop contents_start self.old)) }
        ensures element { (before body : List ℕ) → self.old ≡ before ++ body
            → contents_start ≡ length before
            → OnOk result (self.new ≡ before ++ (shortest_header id (length body) ++ body)) }
    {
        let contents_start = contents_start.min(self.octets.len());
        let size = self.octets.len() - contents_start;
        let mut room = [0; 9];
        let at = put_length(size, &mut room);
        insert_octets(&mut self.octets, contents_start, &room[at..])?;
        let mut header = [0; 10];
        let end = put_header(id, 0, &mut header) as usize;
        insert_octets(&mut self.octets, contents_start, &header[..end - 1])
    }
}

// The one octet of an identifier whose number is below 31 (X.690, 8.1.2.2 to 8.1.2.5).
#[inline(always)]
fn short_identifier(id: Id) -> u8
    requires { (tag_of_id id).number < 31 }
    ensures { id_octets id ≡ result ∷ [] }
{
    leading_octet(id) + id.number() as u8
}

// A header whose identifier and length are of one octet each. Room for the contents is made at once.
#[inline(always)]
fn append_short_header(octets: &mut Vec<u8>, id: Id, size: usize) -> Result<(), AllocError>
    requires number { (tag_of_id id).number < 31 }
    requires size { size < 128 }
    ensures octets { OnOk result (octets.new.items ≡ octets.old.items ++ shortest_header id size) }
    ensures room { OnOk result (vec_len octets.new + size ≤ vec_capacity octets.new) }
{
    octets.reserve(size + 2)?;
    octets.push_reserved(short_identifier(id));
    octets.push_reserved(size as u8);
    Ok(())
}

// Octets for which there is room: a few one by one, since a call that copies them would take longer.
#[inline(always)]
fn append_content(octets: &mut Vec<u8>, content: &[u8]) -> Result<(), AllocError>
    requires room { vec_len octets.old + length content.now ≤ vec_capacity octets.old }
    ensures { OnOk result (octets.new.items ≡ octets.old.items ++ content.now) }
{
    if content.len() > INLINE_COPY_MAX {
        return octets.extend_from_slice(content);
    }
    for octet in content {
        octets.push_reserved(*octet);
    }
    Ok(())
}

// An element whose header is of any size.
#[inline(never)]
fn append_element(octets: &mut Vec<u8>, id: &Id, content: &[u8]) -> Result<(), AllocError>
    ensures { OnOk result (octets.new.items ≡ octets.old.items
        ++ (shortest_header id.now (length content.now) ++ content.now)) }
{
    let mut header = [0; 10];
    let end = put_header(*id, 0, &mut header) as usize;
    octets.extend_from_slice(&header[..end - 1])?;
    let mut room = [0; 9];
    let at = put_length(content.len(), &mut room);
    octets.extend_from_slice(&room[at..])?;
    octets.extend_from_slice(content)
}

/// Puts the fewest octets that spell a length at the end of the array (X.690, 8.1.3.3, 8.1.3.5 and 10.1), and returns how many octets come
/// before them.
///
/// ```
/// let mut room = [0; 9];
/// let first = put_length(300, &mut room);
/// let octets = &room[first..]; // 82 01 2C
/// ```
pub fn put_length(size: usize, room: &mut [u8; 9]) -> usize
    ensures some { result < 9 }
    ensures octets { drop result room.new ≡ shortest_length size }
{
    if size < 128 {
        room[8] = size as u8;
        return 8;
    }
    let mut at = 9;
    let mut rest = size;
    'digits: while rest > 0 {
        at -= 1;
        room[at] = (rest % 256) as u8;
        rest /= 256;
    }
    at -= 1;
    room[at] = 128 + (8 - at) as u8;
    at
}

// The octet before `contents_start` becomes the length of what follows.
#[inline(always)]
fn set_length(octets: &mut Vec<u8>, contents_start: usize) -> Result<(), AllocError>
    requires opened { 0 < contents_start }
    requires within { contents_start ≤ length octets.old.items }
    ensures { OnOk result (octets.new.items ≡ take (contents_start - 1) octets.old.items
        ++ (shortest_length (length octets.old.items - contents_start)
        ++ drop contents_start octets.old.items)) }
{
    let size = octets.len() - contents_start;
    if size < 128 {
        octets[contents_start - 1] = size as u8;
        return Ok(());
    }
    set_long_length(octets, contents_start)
}

// Sets a length that takes more than one octet.
#[inline(never)]
fn set_long_length(octets: &mut Vec<u8>, contents_start: usize) -> Result<(), AllocError>
    requires opened { 0 < contents_start }
    requires within { contents_start ≤ length octets.old.items }
    ensures { OnOk result (octets.new.items ≡ take (contents_start - 1) octets.old.items
        ++ (shortest_length (length octets.old.items - contents_start)
        ++ drop contents_start octets.old.items)) }
{
    let mut room = [0; 9];
    let at = put_length(octets.len() - contents_start, &mut room);
    octets[contents_start - 1] = room[at];
    insert_octets(octets, contents_start, &room[at + 1..])
}

// Puts octets before those from `at` on, which are moved.
#[inline(never)]
fn insert_octets(octets: &mut Vec<u8>, at: usize, part: &[u8]) -> Result<(), AllocError>
    requires { at ≤ length octets.old.items }
    ensures { OnOk result (octets.new.items ≡ take at octets.old.items
        ++ (part.now ++ drop at octets.old.items)) }
{
    let end = octets.len();
    octets.extend_from_slice(part)?;
    octets.copy_within(at..end, at + part.len());
    octets[at..at + part.len()].copy_from_slice(part);
    Ok(())
}
