//! The row, tag, identifier and size of an element.
ghost use Rattle.std.specs.Prelude.{◌≡◌, ◌+◌, ◌-◌, ◌≤◌, slice_get};
ghost use Rattle.ber_core.specs.Der.{header_size};
ghost use Rattle.ber_core.specs.Id.{tag_of_id, form_of_id};
ghost use Rattle.ber_tree.specs.Identifier.{HasIdentifier};
ghost use Rattle.ber_leaf.specs.Profile.{profile_two};
ghost use Rattle.ill_schema.specs.Elements.{own_number, element_tag, tag_at};
ghost use Rattle.ill_schema.specs.Message.{apdu_of};
ghost use Rattle.ill_tables.specs.Table.{kind_of, rows_of};
ghost use Rattle.ill_schema.specs.Value.{content_of};

use ber_core::{Class, Id, header_size, universal};
use ber_leaf::IllString;
use ill_schema::{Kind, LeafKind, Message, NodeId, PartId, Row, Value, kind, row, rows_of};

/// A row of a node, if there is one.
pub fn row_at(node: NodeId, i: usize) -> Option<Row>
    ensures { result ≡ slice_get (rows_of node) i }
{
    rows_of(node).get(i).copied()
}

/// The number of an element's own tag, which is universal: that of SEQUENCE where it is no leaf.
fn own_number(value: &Value, kind: Kind) -> u32
    ensures { result ≡ own_number kind (content_of value.now) }
{
    let (wanted, number) = match value {
        Value::Flag(_) => (Kind::Leaf(LeafKind::Boolean), universal::BOOLEAN),
        Value::Whole(_) => {
            return match kind {
                Kind::Leaf(LeafKind::Integer) => universal::INTEGER,
                Kind::Leaf(LeafKind::Enumerated) => universal::ENUMERATED,
                _ => universal::SEQUENCE,
            };
        }
        Value::Date(_) => (Kind::Leaf(LeafKind::Date), universal::VISIBLE_STRING),
        Value::Time(_) => (Kind::Leaf(LeafKind::Time), universal::VISIBLE_STRING),
        Value::Print(_) => (Kind::Leaf(LeafKind::Printable), universal::PRINTABLE_STRING),
        Value::Str(IllString::General(_)) => (Kind::IllString, universal::GENERAL_STRING),
        Value::Str(IllString::Visible(_)) => (Kind::IllString, universal::VISIBLE_STRING),
        Value::Seq(_) | Value::List(_) | Value::Alt(..) => return universal::SEQUENCE,
    };
    if kind == wanted {
        number
    } else {
        universal::SEQUENCE
    }
}

/// The class and number of a value's element, where these may replace its own.
pub fn element_tag(value: &Value, node: NodeId, replaced: Option<(Class, u32)>) -> (Class, u32)
    ensures { tag_at result ≡ element_tag replaced (kind_of node) (content_of value.now) }
{
    match replaced {
        Some(tag) => tag,
        None => (Class::Universal, own_number(value, kind(node))),
    }
}

/// The identifier of a class, number and form that have one.
pub fn identifier_of(tag: (Class, u32), constructed: bool) -> Id
    requires { HasIdentifier (tag_at tag) constructed }
    ensures { (tag_of_id result ≡ tag_at tag) × (form_of_id result ≡ constructed) }
{
    Id::new(tag.0, constructed, tag.1).unwrap()
}

/// The number of octets that an element takes, from its contents.
pub fn element_size(tag: (Class, u32), constructed: bool, contents: u32) -> u32
    requires id { HasIdentifier (tag_at tag) constructed }
    requires small { contents ≤ profile_two.limit }
    ensures { result ≡ header_size (tag_at tag) constructed contents + contents }
{
    header_size(identifier_of(tag, constructed), contents) as u32 + contents
}

/// The row of ILL-APDU that carries a message.
pub fn apdu_row(message: &Message) -> Row
    ensures { slice_get (rows_of NodeId.IllApdu) ((apdu_of message.now).number - 1) ≡ Some result }
{
    // The contract of `body` gives the row.
    let _body = message.body();
    row(PartId {
        node: NodeId::IllApdu,
        row: message.apdu() - 1,
    })
    .unwrap()
}
