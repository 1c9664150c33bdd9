//! Look-ups in the tables: nodes and their rows.
ghost use Rattle.std.specs.Prelude.{◌≡◌, length, slice_get};
ghost use Rattle.ill_tables.specs.Names.{row_name, row_node};
ghost use Rattle.ill_tables.specs.Table.{kind_of, rows_of, twin};

use crate::names::row_names;
use crate::node::{Kind, LeafKind, NodeId};
use crate::part::{PartId, Row};
use crate::table::rows_of;
use crate::{each_table, leaves, types};

/// The kind of a table's node.
macro_rules! kind {
    ($kind:ident $($rest:tt)*) => { Kind::$kind };
}

/// The kind of each node, given the leaves.
macro_rules! kinds {
    ([$value:expr] $($leaf:ident / $kind:ident),*) => {
        each_table! {
            $value,
            kind,
            $(NodeId::$leaf => Kind::Leaf(LeafKind::$kind),)*
            NodeId::IllString => Kind::IllString,
            NodeId::Any => Kind::Any,
            NodeId::LeftOut => Kind::Seq,
        }
    };
}

/// The kind of a node.
pub fn kind(node: NodeId) -> Kind
    ensures { result ≡ kind_of node }
{
    leaves! { kinds [node] }
}

/// The number of rows that a node has.
pub fn rows(node: NodeId) -> u8
    ensures { result ≡ length (rows_of node) }
{
    rows_of(node).len() as u8
}

/// The row of a part in the tables, None where the node has no such row.
pub fn row(part: PartId) -> Option<Row>
    ensures { result ≡ slice_get (rows_of part.node) part.row }
{
    rows_of(part.node).get(part.row as usize).copied()
}

/// The name of a row; empty where the node has no such row.
pub fn row_name(node: NodeId, i: usize) -> &'static str
    ensures { result.now ≡ row_name node i }
{
    row_names(node).get(i).copied().unwrap_or("")
}

/// The node that is a row's type; that of what is left out where there is no such row.
pub fn row_node(node: NodeId, i: usize) -> NodeId
    ensures { result ≡ row_node node i }
{
    rows_of(node).get(i).map_or(NodeId::LeftOut, |row| row.node)
}

/// The node of the module profile for a node of profile 2. It is another where their rows differ.
pub fn twin(node: NodeId) -> NodeId
    ensures { result ≡ twin node }
{
    types! { match_twins [node] }
}
