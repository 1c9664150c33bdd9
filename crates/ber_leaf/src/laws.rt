//! Laws of the contents of leaves, by the definitions alone.

ghost use Rattle.std.specs.Prelude.{◌≡◌, ◌↔◌, ◌≤◌, ◌≤ℤ◌, ℕ, ℤ, pos, neg_ℤ, List, length};
ghost use Rattle.ber_leaf.specs.Leaf.{Leaf as Kind, integer, enumerated, content_fault, Holds, normal_content};
ghost use Rattle.ber_leaf.specs.Profile.{Profile, profile_one, profile_two};
ghost use Rattle.ber_leaf.specs.Simple.{Simple, whole};

use crate::Leaf;

/// Octets hold at most one value of a kind of leaf.
pub fn octets_hold_one_value()
    ensures { (p : Profile) (kind : Kind) (v w : Simple) (octets : List ℕ)
        → Holds p kind v octets → Holds p kind w octets → v ≡ w }
{}

/// Values in Rust have one content, too, at each kind that implements [`Leaf`].
pub fn octets_hold_one_out<L: Leaf>()
    ensures { (v w : L.Out) (octets : List ℕ)
        → Holds profile_two L.kind (L.simple v) octets
        → Holds profile_two L.kind (L.simple w) octets
        → v ≡ w }
{}

/// For each value that some octets hold, its normal content holds it.
pub fn normal_content_holds_its_value()
    ensures { (p : Profile) (kind : Kind) (v : Simple) (octets : List ℕ)
        → Holds p kind v octets → Holds p kind v (normal_content v) }
{}

/// No content of a value is shorter than its normal content.
pub fn normal_content_is_least()
    ensures { (p : Profile) (kind : Kind) (v : Simple) (octets : List ℕ)
        → Holds p kind v octets → length (normal_content v) ≤ length octets }
{}

/// Values of one kind with the same normal content are the same.
pub fn normal_contents_tell_values_apart()
    ensures { (p : Profile) (kind : Kind) (v w : Simple) (a b : List ℕ)
        → Holds p kind v a → Holds p kind w b → normal_content v ≡ normal_content w → v ≡ w }
{}

/// Some octets hold a whole number exactly from -9,223,372,036,854,775,808 to 9,223,372,036,854,775,807.
pub fn whole_numbers_have_bounds()
    ensures { (n : ℤ) → ((octets : List ℕ) × Holds profile_two integer (whole n) octets)
        ↔ ((neg_ℤ (pos 9_223_372_036_854_775_808) ≤ℤ n) × (n ≤ℤ pos 9_223_372_036_854_775_807)) }
{}

/// The contents of an ENUMERATED are those of an INTEGER (X.690, 8.4).
pub fn enumerated_is_held_as_integer()
    ensures fault { (p : Profile) (octets : List ℕ)
        → content_fault p enumerated octets ≡ content_fault p integer octets }
    ensures holds { (p : Profile) (v : Simple) (octets : List ℕ)
        → Holds p enumerated v octets ↔ Holds p integer v octets }
{}

/// Octets hold in the wide profile what they hold in the narrow one.
pub fn profile_two_holds_what_one_does()
    ensures { (limit : ℕ) (kind : Kind) (v : Simple) (octets : List ℕ)
        → Holds (profile_one limit) kind v octets → Holds profile_two kind v octets }
{}
