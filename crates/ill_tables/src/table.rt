//! The tables: the rows of each node.
ghost use Rattle.std.specs.Prelude.{◌≡◌, ◌≤◌, length};
ghost use Rattle.ill_tables.specs.Table.{rows_of};

use crate::each_table;
use crate::node::NodeId;
use crate::part::{Mode, Presence, Row};
use ber_tree::Class;

/// A row of a table.
macro_rules! row {
    ($class:ident, $name:literal, $presence:ident $(($default:literal))?, untagged, $node:ident) => {
        Row {
            tag: None,
            mode: Mode::Untagged,
            presence: Presence::$presence $(($default))?,
            node: NodeId::$node,
        }
    };
    ($class:ident, $name:literal, $presence:ident $(($default:literal))?, $tag:literal, $mode:ident, $node:ident) => {
        Row {
            tag: Some((Class::$class, $tag)),
            mode: Mode::$mode,
            presence: Presence::$presence $(($default))?,
            node: NodeId::$node,
        }
    };
}

/// The rows of a table.
macro_rules! rows {
    ($kind:ident $node:ident, $name:literal, $class:ident: $(($($row:tt)*)),*) => {
        &[$(row!($class, $($row)*)),*]
    };
}

/// The rows of a node, in the order of the tables; a leaf has none.
pub fn rows_of(node: NodeId) -> &'static [Row]
    ensures rows { result.now ≡ rows_of node }
    ensures few { length result.now ≤ 26 }
{
    each_table!(node, rows, _ => &[])
}
