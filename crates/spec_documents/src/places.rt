//! Laws of places and of holes.

ghost use Rattle.std.specs.Prelude.{◌≡◌, false, List, [], Some};
ghost use Rattle.spec_documents.specs.Tree.{Tree};
ghost use Rattle.spec_documents.specs.Place.{Pointer, at, with, is_prefix};
ghost use Rattle.spec_documents.specs.Hole.{marks, all_marks, fill, fill_tree};

/// What is put at a place leaves what stands at a place apart from it, so that neither is at or beneath the other.
pub fn places_apart_stay()
    ensures { (t w : Tree) (p q : Pointer) → is_prefix p q ≡ false → is_prefix q p ≡ false → at (with t p w) q ≡ at t q }
{}

/// A tree in which no object has the mark `encBlockIndex` is its own fill, and so is a block without holes.
pub fn fill_without_holes()
    ensures node { (vs : List Tree) (t : Tree) → marks t ≡ [] → fill vs t ≡ t }
    ensures block { (vs : List Tree) (j : Tree) → all_marks j ≡ [] → fill_tree vs j ≡ Some j }
{}
