//! Spots: places where usual elements begin, with what is due there at hand by the identifier octets.
ghost use Rattle.std.specs.Prelude.{◌≡◌, ◌<◌, Some, slice_get};
ghost use Rattle.ill_grammar.specs.code.SpotTable.{offset_end};
ghost use Rattle.ill_grammar.specs.declared.spot_entries.TheConstants.{ENTRIES};

use crate::leaf_type::LeafType;
use crate::spot_entries::{COMPLETE, ENTRIES, MODULE_TOP, TOP};
use ill_schema::Profile;

/// The number that stands for no default, where a row has none.
pub const NO_DEFAULT: u8 = 255;

/// The kind of a usual element: of a leaf its type, of a constructed element whether it is a string in its tag.
#[derive(Clone, Copy, Debug, PartialEq, Eq)]
pub enum UsualKind {
    Boolean,
    Integer,
    Enumerated,
    Printable,
    Date,
    Time,
    /// An explicit tag round an ILL-String.
    StringWrapper,
    /// A SEQUENCE, a SEQUENCE OF, or an explicit tag round something else.
    Constructed,
}

/// A usual element that is due at a spot, as it lies between those of other spots.
#[derive(Clone, Copy)]
pub struct SpotEntry {
    pub after: u16,
    pub first: u16,
    pub kind: UsualKind,
    /// The number of its row's default, or [`NO_DEFAULT`].
    pub default: u8,
    /// The offset of the spot; 65535 where the entry is nobody's.
    pub spot: u16,
}

/// A place where usual elements begin. Its entries lie from an offset on.
#[derive(Clone, Copy, Debug, PartialEq, Eq)]
pub struct Spot {
    offset: u16,
    ghost low: { offset < offset_end },
}

/// A usual element that is due.
#[derive(Clone, Copy, Debug, PartialEq, Eq)]
pub struct UsualElement {
    /// The spot after it.
    pub after: Spot,
    /// The spot in it, once it is open; of a leaf, and of a string in its tag, any spot.
    pub first: Spot,
    pub kind: UsualKind,
    /// The number of its row's default, or [`NO_DEFAULT`].
    pub default: u8,
}

/// The entry at an offset.
#[inline(always)]
fn entry_at(at: usize) -> SpotEntry
    requires { at < 2061 }
    ensures there { slice_get ENTRIES at ≡ Some result }
    ensures low { (result.after < offset_end) × (result.first < offset_end) }
{
    ENTRIES[at]
}

impl UsualElement {
    ghost use Rattle.ill_grammar.specs.LeafTypes.{IsContentIn, leaf_is};
    ghost use Rattle.ill_grammar.specs.code.Spots.{default_number, is_default_octets};
    ghost use Rattle.ill_tables.specs.declared.profile.Profile.{Profile as Named};

    /// Tells whether the octets hold the default of its row.
    #[inline(always)]
    pub fn is_default(self, leaf: LeafType, octets: &[u8]) -> bool
        requires { (p : Named) × IsContentIn p (leaf_is leaf) octets.now }
        ensures { result ≡ is_default_octets (default_number self.default) (leaf_is leaf)
            octets.now }
    {
        self.default != NO_DEFAULT && leaf.is_number(self.default as i64, octets)
    }
}

impl Spot {
    ghost use Rattle.std.specs.Prelude.{◌∷◌, [], IfSome, IsTrue, None, false};
    ghost use Rattle.ber_leaf.specs.Profile.{profile_two};
    ghost use Rattle.ill_refusals.specs.Next.{missing};
    ghost use Rattle.ill_grammar.specs.Due.{next_is};
    ghost use Rattle.ill_grammar.specs.Standing.{next_at_top};
    ghost use Rattle.ill_grammar.specs.code.Spots.{IsUsualDue, is_either, key_octets, spot_next};

    /// The spot where a message of the profile begins.
    pub fn top_of(profile: Profile) -> Spot
        ensures { spot_next result ≡ next_at_top profile }
    {
        match profile {
            Profile::Two => Spot { offset: TOP },
            Profile::Module => Spot { offset: MODULE_TOP },
        }
    }

    /// The usual element that is due with the identifier octet. None says nothing.
    #[inline(always)]
    pub fn find(self, octet: u8) -> Option<UsualElement>
        ensures { IfSome result (IsUsualDue (octet ∷ []) (spot_next self)) }
    {
        self.at_key(octet as usize)
    }

    /// The usual element that is due with the two identifier octets. None says nothing.
    #[inline(always)]
    pub fn find_long(self, octet: u8, number: u8) -> Option<UsualElement>
        ensures { IfSome result (IsUsualDue (octet ∷ number ∷ []) (spot_next self)) }
    {
        if number < 31 || 62 < number {
            return None;
        }
        let low = (number - 31) as usize;
        match octet {
            0x9F => self.at_key(256 + low),
            0xBF => self.at_key(288 + low),
            _ => None,
        }
    }

    /// The usual element that is due with the identifier octets of the key: an octet, or from 256 on one of the pairs with a number.
    #[inline(always)]
    fn at_key(self, key: usize) -> Option<UsualElement>
        requires { key < 320 }
        ensures { IfSome result (IsUsualDue (key_octets key) (spot_next self)) }
    {
        let entry = entry_at(self.offset as usize + key);
        if entry.spot != self.offset {
            return None;
        }
        Some(UsualElement {
            kind: entry.kind,
            after: Spot {
                offset: entry.after,
            },
            first: Spot {
                offset: entry.first,
            },
            default: entry.default,
        })
    }

    /// Tells whether the element round the spot may end there. False says nothing.
    #[inline(always)]
    pub fn is_complete(self) -> bool
        ensures complete { IsTrue result → missing profile_two (next_is (spot_next self)) ≡ None }
        ensures in_sequence { IsTrue result → is_either (spot_next self) ≡ false }
    {
        COMPLETE <= self.offset
    }
}
