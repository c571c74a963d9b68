//! A law: an entry that is written is read.

ghost use Rattle.std.specs.Prelude.{◌≡◌, ℕ, List, Option, Ok};
ghost use Rattle.spec_documents.specs.Tree.{Tree};
ghost use Rattle.spec_sealing.specs.Jws.{Algorithm};
ghost use Rattle.spec_sealing.specs.Entries.{CanBeRead, entry_in, entry_tree, written_entry};

/// The entry that is written is read with its algorithm, identity, operations, tag and signature, and
/// with the texts that were signed.
pub fn written_entry_is_read()
    ensures { (a : Algorithm) (identity : List ℕ) (operations : Tree) (tag signature : List ℕ) (ops : Option Tree)
        → CanBeRead identity operations tag signature ops → entry_in (entry_tree a identity operations tag signature) ≡ Ok (written_entry a identity operations tag signature ops) }
{}
