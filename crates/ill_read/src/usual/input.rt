//! The octets of a message at hand.
ghost use Rattle.std.specs.Prelude.{◌≡◌, ◌≤◌, IsTrue, length};
ghost use Rattle.ber_tree.specs.Octets.{are_octets};

use ill_schema::LIMIT;

/// The octets at hand, and where those of the open element end at the latest.
#[derive(Clone, Copy)]
pub(super) struct Input<'a> {
    pub octets: &'a [u8],
    pub bound: usize,
    ghost within: { bound ≤ length octets.now },
    ghost few: { bound ≤ 1_048_576 },
    ghost right: { IsTrue (are_octets octets.now) },
}

impl<'a> Input<'a> {
    /// The octets at hand, of which a message has no more than the limit.
    #[inline(always)]
    pub fn front_of(octets: &'a [u8]) -> Input<'a>
        ensures { result.octets.now ≡ octets.now }
    {
        Input {
            octets,
            bound: octets.len().min(LIMIT as usize),
        }
    }

    /// The same octets, up to an earlier bound.
    #[inline(always)]
    pub fn up_to(self, bound: usize) -> Input<'a>
        requires { bound ≤ self.bound }
        ensures octets { result.octets.now ≡ self.entry.octets.now }
        ensures bound { result.bound ≡ bound }
    {
        Input {
            octets: self.octets,
            bound,
        }
    }
}

/// The offset up to which octets were taken, and up to which octets were written.
#[derive(Clone, Copy)]
pub(super) struct Reach {
    pub taken: usize,
    pub written: usize,
}
