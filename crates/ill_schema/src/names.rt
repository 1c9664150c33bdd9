//! The names of parts and APDUs in a profile.
ghost use Rattle.std.specs.Prelude.{◌≡◌, ◌↔◌, None, Some, IsSome, MatchOption, slice_get};
ghost use Rattle.ill_tables.specs.Names.{part_name_of};
ghost use Rattle.ill_tables.specs.Table.{rows_of};
ghost use Rattle.ill_schema.specs.Names.{node_in, apdu_node_of, apdu_node_in, apdu_name_of, apdu_name_in};
ghost use Rattle.ill_schema.specs.Profiles.{profile_of};

use crate::profile::{node_as, root_as};
use ill_tables::{NodeId, PartId, Presence, Profile, node_name, part_name, row};

/// The names of a part in the profile, as [`part_name`] gives them.
pub fn part_name_as(profile: Profile, part: PartId) -> Option<(&'static str, &'static str)>
    ensures names { MatchOption result
        (part_name_of (record part { node = node_in (profile_of profile) part.node }) ≡ None)
        (λ names. part_name_of (record part { node = node_in (profile_of profile) part.node })
        ≡ Some (names.0.now, names.1.now)) }
    ensures there { IsSome result
        ↔ IsSome (slice_get (rows_of (node_in (profile_of profile) part.node)) part.row) }
{
    part_name(PartId {
        node: node_as(profile, part.node),
        row: part.row,
    })
}

/// The node of an APDU's body, None where no APDU of the number is carried.
pub fn apdu_node(number: u8) -> Option<NodeId>
    ensures { result ≡ apdu_node_of number }
{
    apdu_node_as(Profile::Two, number)
}

/// The node of an APDU's body in the profile, None where no APDU of the number is carried.
///
/// ```
/// // Forward-Notification is carried in the module profile alone.
/// let node = apdu_node_as(Profile::Module, 2);
/// ```
pub fn apdu_node_as(profile: Profile, number: u8) -> Option<NodeId>
    ensures { result ≡ apdu_node_in (profile_of profile) number }
{
    let alternative = row(PartId {
        node: root_as(profile),
        row: number.checked_sub(1)?,
    })?;
    match alternative.presence {
        Presence::LeftOut => None,
        _ => Some(alternative.node),
    }
}

/// The name of an APDU, None where no APDU of the number is carried.
pub fn apdu_name(number: u8) -> Option<&'static str>
    ensures { MatchOption result (apdu_name_of number ≡ None)
        (λ name. apdu_name_of number ≡ Some name.now) }
{
    apdu_name_as(Profile::Two, number)
}

/// The name of an APDU in the profile, None where no APDU of the number is carried.
pub fn apdu_name_as(profile: Profile, number: u8) -> Option<&'static str>
    ensures { MatchOption result (apdu_name_in (profile_of profile) number ≡ None)
        (λ name. apdu_name_in (profile_of profile) number ≡ Some name.now) }
{
    let node = apdu_node_as(profile, number)?;
    Some(node_name(node))
}
