//! Definitions of document trees, their places, patches, texts and holes, and laws over them.
#![tactic(auto)]

pub mod ids;
pub mod places;
pub mod readings;
pub mod rows;

ghost use Rattle.std.specs.Prelude.{◌≡◌, false, ℕ, List, Ok, Some, ◌≤◌};
ghost use Rattle.spec_documents.specs.Tree.{Tree, Trees, item, Members, member, get_member, put_member, get_item, insert_item, count_items};
ghost use Rattle.spec_documents.specs.Place.{Pointer, at, with, read_pointer, pointer_text};
ghost use Rattle.spec_documents.specs.Hole.{goes_into, fill};
ghost use Rattle.spec_documents.specs.KeepsOff.{KeepsOff};
ghost use Rattle.spec_documents.specs.Patch.{Op, replace, edited};

/// What is put at a place is there, and putting back what is there changes nothing. A pointer's text is read to it.
pub fn put_is_there()
    ensures there { (t u w : Tree) (p : Pointer) → at t p ≡ Ok u → at (with t p w) p ≡ Ok w }
    ensures same { (t u : Tree) (p : Pointer) → at t p ≡ Ok u → with t p u ≡ t }
    ensures text { (p : Pointer) → read_pointer (pointer_text p) ≡ Ok p }
    ensures replaced { (p : Pointer) (v t w : Tree) → edited (replace p v) t ≡ Ok w → at w p ≡ Ok v }
    ensures member { (k : List ℕ) (v : Tree) (ms : Members) → get_member k (put_member k v ms) ≡ Some v }
    ensures item { (n : ℕ) (v : Tree) (ts : Trees) → n ≤ count_items ts → get_item n (insert_item n v ts) ≡ Some v }
{}

/// Filling what is put at a place is putting it, filled, into what is filled, where no hole is on the way.
pub fn fill_with_commutes()
    ensures { (vs : List Tree) (t u w : Tree) (p : Pointer) → goes_into t p ≡ false → at t p ≡ Ok u → fill vs (with t p w) ≡ with (fill vs t) p (fill vs w) }
{}

/// An operation on a filled tree gives the filled result.
pub fn edits_commute()
    ensures { (vs : List Tree) (op : Op) (t w : Tree) → KeepsOff op t w → edited op t ≡ Ok w → edited op (fill vs t) ≡ Ok (fill vs w) }
{}
