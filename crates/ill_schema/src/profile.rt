//! The nodes of a profile.
ghost use Rattle.std.specs.Prelude.{◌≡◌};
ghost use Rattle.ill_schema.specs.Apdu.{root};
ghost use Rattle.ill_schema.specs.Names.{node_in};
ghost use Rattle.ill_schema.specs.Profiles.{profile_of};

use ill_tables::{NodeId, Profile, twin};

/// The node of the profile's messages.
///
/// ```
/// let root = root_as(Profile::Two);
/// ```
pub fn root_as(profile: Profile) -> NodeId
    ensures { result ≡ root (profile_of profile) }
{
    match profile {
        Profile::Two => NodeId::IllApdu,
        Profile::Module => NodeId::ModuleIllApdu,
    }
}

/// The node that the profile has for a node of profile 2. Where their rows differ, the module profile has a node of its own, with the same
/// names.
///
/// ```
/// let node = node_as(Profile::Module, NodeId::EXPIRED);
/// let rows = rows_of(node);
/// ```
pub fn node_as(profile: Profile, node: NodeId) -> NodeId
    ensures { result ≡ node_in (profile_of profile) node }
{
    match profile {
        Profile::Two => node,
        Profile::Module => twin(node),
    }
}
