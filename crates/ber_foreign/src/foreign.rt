//! Foreign trees.
ghost use Rattle.std.specs.Prelude.{◌≡◌, ℕ, true, false, List, IsTrue, MatchOption};
ghost use Rattle.ber_tree.specs.Tree.{Tree};
ghost use Rattle.ber_core.specs.Der.{encoding};
ghost use Rattle.ber_core.specs.Foreign.{foreign_levels, is_foreign};
ghost use Rattle.ber_foreign.specs.Fronts.{AreTrees, BeginsWithTree};

use crate::element::first_element;

/// The greatest number of levels of a foreign tree.
const FOREIGN_LEVELS: u8 = 20;

/// Tells whether the octets are the encoding in DER of one foreign tree: definite lengths in the fewest octets, tag numbers of at most
/// four octets, at most 20 levels. It takes no memory, and reads each identifier and length once.
///
/// # Examples
///
/// ```
/// let is_tree = is_foreign_encoding(&[0x30, 0x03, 0x02, 0x01, 0x05]); // true: a SEQUENCE that holds the INTEGER 5
/// let is_tree = is_foreign_encoding(&[0x30, 0x80, 0x00, 0x00]); // false: an indefinite length
/// ```
pub fn is_foreign_encoding(octets: &[u8]) -> bool
    ensures yes { result ≡ true → (T : Tree) × IsTrue (is_foreign foreign_levels T)
        × (octets.now ≡ encoding T) }
    ensures no { result ≡ false → (T : Tree) → IsTrue (is_foreign foreign_levels T)
        → octets.now ≡ encoding T → ⊥ }
{
    match after_tree(FOREIGN_LEVELS, octets) {
        Some(behind) => behind.is_empty(),
        None => false,
    }
}

/// The octets behind the encoding of a foreign tree of at most so many levels, which octets begin with. None where they begin with none.
#[cycle(trees)]
fn after_tree(levels: u8, octets: &[u8]) -> Option<&[u8]>
    ensures { MatchOption result ((behind : List ℕ) → BeginsWithTree levels octets.now behind → ⊥)
        (λ behind. BeginsWithTree levels octets.now behind.now) }
{
    if levels == 0 {
        return None;
    }
    let element = first_element(octets)?;
    if element.id.constructed() && !are_trees(levels - 1, element.contents) {
        return None;
    }
    Some(element.behind)
}

/// Tells whether the octets are the encodings of foreign trees of at most so many levels.
#[cycle(trees)]
fn are_trees(levels: u8, octets: &[u8]) -> bool
    ensures yes { result ≡ true → AreTrees levels octets.now }
    ensures no { result ≡ false → AreTrees levels octets.now → ⊥ }
{
    let mut left = octets;
    'trees: while !left.is_empty() {
        match after_tree(levels, left) {
            Some(behind) => left = behind,
            None => return false,
        }
    }
    true
}
