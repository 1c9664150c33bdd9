//! Paths of values.
ghost use Rattle.std.specs.Prelude.{◌≡◌, not, IsTrue};
ghost use Rattle.ill_text.specs.Shown.{line};
ghost use Rattle.ill_text.specs.code.Sending.{Adds, sending};
ghost use Rattle.ill_text.specs.code.FieldPaths.{is_nothing, path_of};

use crate::text_sink::TextSink;
use ber_core::Sink;
use ill_schema::NodeId;
use itoa::Buffer;

/// The rows and items round a value, the innermost last.
#[derive(Clone, Copy)]
pub enum FieldPath<'a> {
    Start,
    /// The name of a row, empty where it has none.
    Row(&'a FieldPath<'a>, &'a str),
    /// The index of an item of a list.
    Item(&'a FieldPath<'a>, usize),
}

/// The place of a value: its path, the name of its row and its node.
#[derive(Clone, Copy)]
pub struct FieldPlace<'a> {
    pub path: &'a FieldPath<'a>,
    pub name: &'a str,
    pub node: NodeId,
}

/// Puts the path, and returns whether it has any octet.
#[cycle(path)]
pub fn put_path<W: Sink>(path: &FieldPath<'_>, out: &mut TextSink, sink: &mut W) -> bool
    ensures adds { Adds (path_of path.now) (sending (W.contents sink.old) (W.is_broken sink.old)
        out.old) (sending (W.contents sink.new) (W.is_broken sink.new) out.new) }
    ensures some { result ≡ not (is_nothing (path_of path.now)) }
    ensures stays { IsTrue (W.is_broken sink.old) → IsTrue (W.is_broken sink.new) }
{
    match path {
        FieldPath::Start => false,
        FieldPath::Row(outer, name) => {
            let some = put_path(outer, out, sink);
            if name.is_empty() {
                return some;
            }
            if some {
                out.put(sink, b".");
            }
            out.put(sink, name.as_bytes());
            true
        }
        FieldPath::Item(outer, i) => {
            let _ = put_path(outer, out, sink);
            let mut buffer = Buffer::new();
            out.put(sink, b"[");
            out.put(sink, buffer.format(*i).as_bytes());
            out.put(sink, b"]");
            true
        }
    }
}

/// Puts a line whose text is known.
pub fn put_line<W: Sink>(path: &FieldPath<'_>, text: &[u8], out: &mut TextSink, sink: &mut W)
    ensures adds { Adds (line (path_of path.now) text.now)
        (sending (W.contents sink.old) (W.is_broken sink.old) out.old)
        (sending (W.contents sink.new) (W.is_broken sink.new) out.new) }
    ensures stays { IsTrue (W.is_broken sink.old) → IsTrue (W.is_broken sink.new) }
{
    let _ = put_path(path, out, sink);
    out.put(sink, b" = ");
    out.put(sink, text);
    out.put(sink, b"\n");
}
