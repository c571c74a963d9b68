// What a split makes of a message.
ghost use Rattle.std.specs.Prelude.{◌≡◌, ◌≤◌, IsTrue, Option, Some, None, Ok, ℕ, List};
ghost use Rattle.spec_documents.specs.Tree.{Tree};
ghost use Rattle.spec_messages.specs.Message.{Message, is_whole, body_depth};
ghost use Rattle.spec_messages.specs.Policy.{Policy};
ghost use Rattle.spec_messages.specs.Split.{fill_whole};
ghost use Rattle.spec_messages.specs.Block.{Meta, is_meta, is_ordered_body, clear_message};
ghost use Rattle.spec_messages.specs.Rebuilt.{fill_fault};
ghost use Rattle.spec_messages.specs.Splitting.{splitting};

use reformat_blocks::split_is_undone;

/// Whatever the policy, the mapping, the message and the metadata: where a whole message is split, the
/// message that the block stands for has a fill, which is the message that was split.
pub fn split_is_rebuilt()
    ensures { (pol : Policy) (k : Option ℕ) (m : Message) (meta : Meta) (j : Tree) (vs : List Tree) → IsTrue (is_whole m) → IsTrue (is_ordered_body m.body) → body_depth m.body ≤ 64 → IsTrue (is_meta meta)
        → splitting pol k m meta ≡ Ok (j, vs) → (c : Message) × (clear_message j ≡ Some c) × (fill_fault vs c ≡ None) × (fill_whole vs c ≡ m) }
{
    split_is_undone();
}
