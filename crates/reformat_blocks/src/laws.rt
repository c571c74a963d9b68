// What was split is made whole again.
ghost use Rattle.std.specs.Prelude.{◌≡◌, ◌≤◌, IsTrue, Option, Some, Ok, ℕ, List};
ghost use Rattle.spec_documents.specs.Tree.{Tree};
ghost use Rattle.spec_messages.specs.Message.{Message, is_whole, body_depth};
ghost use Rattle.spec_messages.specs.Policy.{Policy};
ghost use Rattle.spec_messages.specs.Split.{cleared, filled};
ghost use Rattle.spec_messages.specs.Block.{Meta, StandsFor, is_meta, is_ordered_body, clear_message};
ghost use Rattle.spec_messages.specs.Splitting.{splitting};

use spec_messages::blocks::{block_has_one_message, sent_block_is_block};
use spec_messages::fill_after_split;

/// Whatever the policy, the mapping, the message and the metadata: where a whole message is split, the
/// block stands for the clear message, which is the one that is computed of it, and the values fill
/// the clear message to the message that was split.
pub fn split_is_undone()
    ensures stands { (pol : Policy) (k : Option ℕ) (m : Message) (meta : Meta) (j : Tree) (vs : List Tree) → IsTrue (is_whole m) → IsTrue (is_ordered_body m.body) → body_depth m.body ≤ 64 → IsTrue (is_meta meta)
        → splitting pol k m meta ≡ Ok (j, vs) → StandsFor j (cleared pol k m) }
    ensures clear { (pol : Policy) (k : Option ℕ) (m : Message) (meta : Meta) (j : Tree) (vs : List Tree) → IsTrue (is_whole m) → IsTrue (is_ordered_body m.body) → body_depth m.body ≤ 64 → IsTrue (is_meta meta)
        → splitting pol k m meta ≡ Ok (j, vs) → clear_message j ≡ Some (cleared pol k m) }
    ensures filled { (pol : Policy) (k : Option ℕ) (m : Message) (meta : Meta) (j : Tree) (vs : List Tree) → IsTrue (is_whole m) → body_depth m.body ≤ 64
        → splitting pol k m meta ≡ Ok (j, vs) → filled vs (cleared pol k m) ≡ Some m }
{
    fill_after_split();
    sent_block_is_block();
    block_has_one_message();
}
