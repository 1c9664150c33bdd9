//! Laws of the definitions alone.
ghost use Rattle.std.specs.Prelude.{◌≡◌, ℕ, ◌≤◌, List, ◌++◌, length};
ghost use Rattle.ber_tree.specs.Tree.{Tree, Spells, depth};
ghost use Rattle.ber_framing.specs.Framed.{IsFrame, IsPartOfFrame, IsUnframed};
ghost use Rattle.ber_framing.specs.Framer.{HasFraming};

use crate::framer::Framing;

/// Octets begin with at most one framed element. They are part of one, one, or the first octets of none, and only one of the three.
pub fn one_frame()
    ensures frame { (a b x y : List ℕ) → IsFrame a → IsFrame b → a ++ x ≡ b ++ y → a ≡ b }
    ensures judgment { (b : List ℕ) (r s : Framing) → HasFraming b r → HasFraming b s → r ≡ s }
{}

/// An encoding is framed if it has at most 4,294,967,294 octets, and its elements are nested at most 18,446,744,073,709,551,615 deep.
pub fn spellings_are_framed()
    ensures { (t : Tree) (b : List ℕ) → Spells t b → length b ≤ 4_294_967_294
        → depth t ≤ 18_446_744_073_709_551_615 → IsFrame b }
{}
