//! The least number of octets that still belong to a message.
ghost use Rattle.std.specs.Prelude.{◌≡◌, ℕ, ◌≤◌, List, length};
ghost use Rattle.ill_grammar.specs.Standing.{StandsAt, StandsLast};
ghost use Rattle.ill_grammar.specs.Need.{need_read};
ghost use Rattle.ill_grammar.specs.Need.{IsNeed, begins_zero};

use crate::frames::Frames;
use ber_core::{HeaderRead, Len, LengthRead, read_header};

/// The least number of octets that still belong to a message, after octets that don't reach the next place.
pub fn need_at(frames: &Frames, at: u32, octets: &[u8]) -> u32
    requires { length octets.now ≤ 1_048_576 }
    ensures { (s : List ℕ) (stands : StandsLast frames.now.profile (StandsAt frames.now) at s
        octets.now) → IsNeed stands.0.place at octets.now result }
{
    let count = octets.len() as u32;
    if let Some(end) = frames.outermost_end() {
        return end.saturating_sub(at).saturating_sub(count);
    }
    if frames.awaits_end_mark() && begins_with_zero(octets) {
        return 1;
    }
    need_in_element(read_header(octets), count)
}

/// The least number of octets that still belong to an element of which `count` octets are there.
fn need_in_element(read: HeaderRead, count: u32) -> u32
    ensures { result ≡ need_read read count }
{
    match read {
        HeaderRead::PartIdentifier => 1,
        HeaderRead::Identified(_, LengthRead::PartLength(due)) => due,
        HeaderRead::Identified(_, LengthRead::Whole(Len::Definite(size), header)) => {
            size.saturating_sub(count.saturating_sub(header))
        }
        _ => 0,
    }
}

fn begins_with_zero(octets: &[u8]) -> bool
    ensures { result ≡ begins_zero octets.now }
{
    matches!(octets, [0, ..])
}
