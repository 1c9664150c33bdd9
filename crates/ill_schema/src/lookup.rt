//! Look-ups in the tables of a profile.
ghost use Rattle.std.specs.Prelude.{◌≡◌, length, slice_get};
ghost use Rattle.ill_tables.specs.Table.{kind_of, rows_of};
ghost use Rattle.ill_schema.specs.Names.{node_in};
ghost use Rattle.ill_schema.specs.Profiles.{profile_of};

use crate::profile::node_as;
use ill_tables::{Kind, NodeId, PartId, Profile, Row, kind, row, rows};

/// The kind of a node in the profile. It is the same in each.
pub fn kind_as(profile: Profile, node: NodeId) -> Kind
    ensures { result ≡ kind_of (node_in (profile_of profile) node) }
{
    kind(node_as(profile, node))
}

/// The number of rows that a node has in the profile.
///
/// ```
/// // Conditional has three rows in profile 2, and four in the module profile.
/// let count = rows_as(Profile::Module, NodeId::Conditional);
/// ```
pub fn rows_as(profile: Profile, node: NodeId) -> u8
    ensures { result ≡ length (rows_of (node_in (profile_of profile) node)) }
{
    rows(node_as(profile, node))
}

/// The row of a part in the tables of the profile, None where the node has no such row.
pub fn row_as(profile: Profile, part: PartId) -> Option<Row>
    ensures { result ≡ slice_get (rows_of (node_in (profile_of profile) part.node)) part.row }
{
    row(PartId {
        node: node_as(profile, part.node),
        row: part.row,
    })
}
