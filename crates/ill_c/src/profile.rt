//! The profiles by their numbers in C.
ghost use Rattle.std.specs.Prelude.{◌≡◌};
ghost use Rattle.ill_c.specs.Profiles.{profile_numbered};

use ill_normal::Profile;

/// The profile of a number, None where it names no profile.
pub(crate) fn profile_numbered(number: u32) -> Option<Profile>
    ensures { result ≡ profile_numbered number }
{
    match number {
        2 => Some(Profile::Two),
        3 => Some(Profile::Module),
        _ => None,
    }
}
