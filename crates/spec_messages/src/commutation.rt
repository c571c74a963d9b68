//! Patching commutes with filling: what operations do to a block, they do to the block filled with its values, and to the message that it stands for.

ghost use Rattle.std.specs.Prelude.{◌≡◌, ◌<◌, true, ℕ, List, Some, Ok};
ghost use Rattle.spec_documents.specs.Tree.{Tree};
ghost use Rattle.spec_documents.specs.Patch.{edited, patched};
ghost use Rattle.spec_documents.specs.Hole.{fill, fill_all, fill_tree};
ghost use Rattle.spec_messages.specs.Split.{fill_whole, filled, has_texts};
ghost use Rattle.spec_messages.specs.Block.{StandsFor};
ghost use Rattle.spec_messages.specs.Entry.{edited_all};
ghost use Rattle.spec_messages.specs.Changed.{patched_all, patched_along};
ghost use Rattle.spec_messages.specs.Standing.{HoleAt, OnePlace};
ghost use Rattle.spec_messages.specs.Steps.{Step, EntryStep, ChainStep, Fills, FillsTree, GivesFilled, InOrder, HoleOf, HasValue, IsShallow, ChainKept, ChainModifiable};

/// Patching commutes with filling, for a chain of entries on a block whose clear message the values fill.
///
/// The same operations make of the filled tree the filled tree of the patched block, which stands for the filled message.
/// Each index of the block has its one place in the message, and its value stands there before and after.
/// What is at no changed address stays, and each changed address was modifiable in its step.
pub fn patching_commutes_with_filling()
    ensures tree_before { (s : ChainStep) (f : Fills s.clear) → fill_tree f.values s.before ≡ Some (fill_all f.values s.before) }
    ensures tree_after { (s : ChainStep) (f : Fills s.clear) → fill_tree f.values s.after ≡ Some (fill_all f.values s.after) }
    ensures tree { (s : ChainStep) (f : Fills s.clear) → patched_along s.entries (fill_all f.values s.before) ≡ Ok (fill_all f.values s.after) }
    ensures filled { (s : ChainStep) (f : Fills s.clear) → filled f.values s.patched ≡ Some (fill_whole f.values s.patched) }
    ensures stands { (s : ChainStep) (f : Fills s.clear) → InOrder f.values → StandsFor (fill_all f.values s.after) (fill_whole f.values s.patched) }
    ensures place { (s : ChainStep) (i : ℕ) → i < s.holes → OnePlace s.clear i }
    ensures value_before { (s : ChainStep) (f : Fills s.clear) (h : HoleOf s.clear) → HasValue h f.values f.full }
    ensures value_after { (s : ChainStep) (f : Fills s.clear) (h : HoleOf s.clear) → HasValue h f.values (fill_whole f.values s.patched) }
    ensures kept { (s : ChainStep) (f : Fills s.clear) → InOrder f.values → ChainKept s f.full (fill_whole f.values s.patched) }
    ensures modifiable { (s : ChainStep) → ChainModifiable s }
{}

/// Filling after allowed operations is never nothing, where it was not before: after an operation, an entry and a chain of entries.
pub fn filling_stays()
    ensures operation { (s : Step) (f : Fills s.clear) → filled f.values s.patched ≡ Some (fill_whole f.values s.patched) }
    ensures entry { (s : EntryStep) (f : Fills s.clear) → filled f.values s.patched ≡ Some (fill_whole f.values s.patched) }
    ensures chain { (s : ChainStep) (f : Fills s.clear) → filled f.values s.patched ≡ Some (fill_whole f.values s.patched) }
    ensures texts { (s : EntryStep) (vs : List Tree) → has_texts vs s.clear ≡ true → has_texts vs s.patched ≡ true }
{}

/// An allowed operation on a block whose object holes are filled, or which is filled whole, gives the allowed result, filled; an entry does so.
pub fn operations_commute()
    ensures objects { (s : Step) (vs : List Tree) → edited s.operation (fill vs s.before) ≡ Ok (fill vs s.after) }
    ensures operation { (s : Step) (vs : List Tree) → edited s.operation (fill_all vs s.before) ≡ Ok (fill_all vs s.after) }
    ensures entry { (s : EntryStep) (vs : List Tree) → edited_all s.operations (fill_all vs s.before) ≡ Ok (fill_all vs s.after) }
    ensures there { (s : Step) (f : FillsTree s.before) → fill_tree f.values s.after ≡ Some (fill_all f.values s.after) }
    ensures patch { (s : Step) (f : FillsTree s.before) → IsShallow (fill_all f.values s.after) → patched f.full s.operation ≡ Ok (fill_all f.values s.after) }
{}

/// Operations on a filled tree that nests at most 127 deep stay within that depth, also where its message nests deeper than 64.
pub fn filled_trees_patch()
    ensures operation { (s : Step) (f : FillsTree s.before) → IsShallow f.full → GivesFilled f.values s.after 127 (patched f.full s.operation) }
    ensures entry { (s : EntryStep) (f : FillsTree s.before) → IsShallow f.full → GivesFilled f.values s.after 127 (patched_all s.operations f.full) }
    ensures chain { (s : ChainStep) (f : FillsTree s.before) → IsShallow f.full → GivesFilled f.values s.after 127 (patched_along s.entries f.full) }
    ensures shallow { (s : ChainStep) (f : Fills s.clear) → GivesFilled f.values s.after 67 (patched_along s.entries (fill_all f.values s.before)) }
{}

/// The filled block stands for the filled message after an operation and an entry too.
pub fn filled_steps_stand()
    ensures operation { (s : Step) (f : Fills s.clear) → InOrder f.values → StandsFor (fill_all f.values s.after) (fill_whole f.values s.patched) }
    ensures entry { (s : EntryStep) (f : Fills s.clear) → InOrder f.values → StandsFor (fill_all f.values s.after) (fill_whole f.values s.patched) }
{}

/// Each hole of the clear message stays at its message place under an operation and an entry,
/// and its value stands there in the filled message before and after.
pub fn values_stay()
    ensures hole { (s : Step) (h : HoleOf s.clear) → HoleAt s.patched h.place h.index }
    ensures before { (s : Step) (f : Fills s.clear) (h : HoleOf s.clear) → HasValue h f.values f.full }
    ensures operation { (s : Step) (f : Fills s.clear) (h : HoleOf s.clear) → HasValue h f.values (fill_whole f.values s.patched) }
    ensures entry { (s : EntryStep) (f : Fills s.clear) (h : HoleOf s.clear) → HasValue h f.values (fill_whole f.values s.patched) }
{}
