//! The pieces of elements: headers, and leaves.
ghost use Rattle.std.specs.Prelude.{◌≡◌, ◌+◌, ◌≤◌, ◌<◌, ◌++◌, length, get_or, IsErr, IsTrue, true, false};
ghost use Rattle.ber_core.specs.Der.{encoding};
ghost use Rattle.ber_tree.specs.Identifier.{identifier, HasIdentifier};
ghost use Rattle.ber_tree.specs.Length.{shortest_length};
ghost use Rattle.ber_tree.specs.Tree.{primitive};
ghost use Rattle.ber_leaf.specs.Leaf.{normal_content};
ghost use Rattle.ber_leaf.specs.Profile.{profile_two};
ghost use Rattle.ill_schema.specs.Elements.{tag_at};
ghost use Rattle.ill_write.specs.code.Puts.{Puts};

use crate::buffered_sink::BufferedSink;
use crate::element::identifier_of;
use ber_core::{Broken, Class, Sink, put_header};
use ber_leaf::Leaf;

/// Writes the header of a constructed element, whose content size is the next.
pub fn open_element<W: Sink>(
    tag: (Class, u32),
    contents: &[u32],
    progress: &mut BufferedSink,
    sink: &mut W,
) -> Result<(), Broken>
    requires id { HasIdentifier (tag_at tag) true }
    requires next { progress.old.next < length contents.now }
    ensures puts { Puts result (identifier (tag_at tag) true ++ shortest_length
        (get_or contents.now progress.old.next 0))
        (W.contents sink.old) progress.old (W.contents sink.new) progress.new }
    ensures next { progress.new.next ≡ progress.old.next + 1 }
    ensures breaks { IsErr result → IsTrue (W.is_broken sink.new) }
    ensures stays { IsTrue (W.is_broken sink.old) → IsTrue (W.is_broken sink.new) }
{
    let size = contents[progress.next()];
    progress.advance();
    write_header(tag, true, size, progress, sink)
}

/// Writes the element of a leaf whose normal content has eight octets at most.
pub fn write_short_contents<L: Leaf, W: Sink>(
    tag: (Class, u32),
    value: &L::Out,
    progress: &mut BufferedSink,
    sink: &mut W,
) -> Result<(), Broken>
    requires id { HasIdentifier (tag_at tag) false }
    requires short { length (normal_content (L.simple value.now)) ≤ 8 }
    ensures puts { Puts result
        (encoding (primitive (tag_at tag) (normal_content (L.simple value.now))))
        (W.contents sink.old) progress.old (W.contents sink.new) progress.new }
    ensures next { progress.new.next ≡ progress.old.next }
    ensures breaks { IsErr result → IsTrue (W.is_broken sink.new) }
    ensures stays { IsTrue (W.is_broken sink.old) → IsTrue (W.is_broken sink.new) }
{
    let mut room = [0; 8];
    let size = L::normal_size(value);
    L::put_normal(value, &mut room[..size]);
    write_primitive(tag, &room[..size], progress, sink)
}

/// Writes the element with these contents.
pub fn write_primitive<W: Sink>(
    tag: (Class, u32),
    octets: &[u8],
    progress: &mut BufferedSink,
    sink: &mut W,
) -> Result<(), Broken>
    requires id { HasIdentifier (tag_at tag) false }
    requires small { length octets.now ≤ profile_two.limit }
    ensures puts { Puts result (encoding (primitive (tag_at tag) octets.now))
        (W.contents sink.old) progress.old (W.contents sink.new) progress.new }
    ensures next { progress.new.next ≡ progress.old.next }
    ensures breaks { IsErr result → IsTrue (W.is_broken sink.new) }
    ensures stays { IsTrue (W.is_broken sink.old) → IsTrue (W.is_broken sink.new) }
{
    write_header(tag, false, octets.len() as u32, progress, sink)?;
    progress.put(sink, octets)
}

/// Writes the shortest header of an element.
fn write_header<W: Sink>(
    tag: (Class, u32),
    constructed: bool,
    contents: u32,
    progress: &mut BufferedSink,
    sink: &mut W,
) -> Result<(), Broken>
    requires { HasIdentifier (tag_at tag) constructed }
    ensures puts { Puts result (identifier (tag_at tag) constructed ++ shortest_length contents)
        (W.contents sink.old) progress.old (W.contents sink.new) progress.new }
    ensures next { progress.new.next ≡ progress.old.next }
    ensures breaks { IsErr result → IsTrue (W.is_broken sink.new) }
    ensures stays { IsTrue (W.is_broken sink.old) → IsTrue (W.is_broken sink.new) }
{
    let mut room = [0; 10];
    let count = put_header(identifier_of(tag, constructed), contents, &mut room) as usize;
    progress.put(sink, &room[..count])
}
