//! The names of the nodes, and of each node's rows.
ghost use Rattle.std.specs.Prelude.{◌≡◌, ◌↔◌, None, Some, IsSome, MatchOption, map, slice_get};
ghost use Rattle.ill_tables.specs.Names.{names_of, part_name_of};
ghost use Rattle.ill_tables.specs.Table.{rows_of};

use crate::each_table;
use crate::node::NodeId;
use crate::part::PartId;

/// The name of a table's node.
macro_rules! name {
    ($kind:ident $node:ident, $name:literal, $($rest:tt)*) => { $name };
}

/// The names of the rows of a table.
macro_rules! names {
    ($kind:ident $node:ident, $name:literal, $class:ident: $(($row:literal, $($rest:tt)*)),*) => {
        &[$($row),*]
    };
}

/// The name of a node, which is empty for a list inside a row.
pub fn node_name(node: NodeId) -> &'static str
    ensures { result.now ≡ (names_of node).0 }
{
    each_table!(node, name, _ => "")
}

/// The names of a node's rows, in order.
pub fn row_names(node: NodeId) -> &'static [&'static str]
    ensures { map (λ name. name.now) result.now ≡ (names_of node).1 }
{
    each_table!(node, names, _ => &[])
}

/// The names of a part: its node's, which is empty for a list inside a row, and its
/// row's. None where the node has no such row.
pub fn part_name(part: PartId) -> Option<(&'static str, &'static str)>
    ensures names { MatchOption result (part_name_of part ≡ None)
        (λ names. part_name_of part ≡ Some (names.0.now, names.1.now)) }
    ensures there { IsSome result ↔ IsSome (slice_get (rows_of part.node) part.row) }
{
    let row = row_names(part.node).get(part.row as usize)?;
    Some((node_name(part.node), *row))
}
