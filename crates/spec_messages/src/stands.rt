//! The filled block stands for the filled message.

ghost use Rattle.std.specs.Prelude.{◌≡◌, true, ℕ, List, Some};
ghost use Rattle.spec_documents.specs.Tree.{Tree};
ghost use Rattle.spec_documents.specs.Hole.{fill_all, fill_tree};
ghost use Rattle.spec_messages.specs.Message.{Message};
ghost use Rattle.spec_messages.specs.Split.{filled};
ghost use Rattle.spec_messages.specs.Block.{IsBlock, StandsFor, is_ordered_body};
ghost use Rattle.spec_messages.specs.Steps.{Fills, InOrder};

/// A filled block stands for the filled message, exactly where that message's body has its names in order, as it has where each value has.
pub fn filled_block_stands()
    ensures exact { (j : Tree) (n : ℕ) (c : Message) → IsBlock j n c → (f : Fills c) → is_ordered_body f.full.body ≡ true → StandsFor (fill_all f.values j) f.full }
    ensures needed { (t : Tree) (x : Message) → StandsFor t x → is_ordered_body x.body ≡ true }
    ensures ordered { (j : Tree) (n : ℕ) (c : Message) → IsBlock j n c → (f : Fills c) → InOrder f.values → StandsFor (fill_all f.values j) f.full }
    ensures there { (j : Tree) (n : ℕ) (c : Message) → IsBlock j n c → (f : Fills c) → fill_tree f.values j ≡ Some (fill_all f.values j) }
{}

ghost use Rattle.std.specs.Prelude.{[], ◌∷◌};
ghost use Rattle.spec_documents.specs.Hole.{hole};
ghost use Rattle.spec_messages.specs.StandRows.{block_hole, posted_at, unordered};

/// Where a value's names are out of order, the block, its clear message and both fills are there, and the filled block does not stand for the filled message.
pub fn unordered_rows()
    ensures block { IsBlock block_hole 1 (posted_at (hole 0)) }
    ensures filled { filled (unordered ∷ []) (posted_at (hole 0)) ≡ Some (posted_at unordered) }
    ensures tree { fill_tree (unordered ∷ []) block_hole ≡ Some (fill_all (unordered ∷ []) block_hole) }
    ensures not { StandsFor (fill_all (unordered ∷ []) block_hole) (posted_at unordered) → ⊥ }
{}
