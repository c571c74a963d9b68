//! Laws of sent blocks that hold whatever the policy, and of the policy under which nothing is secret.

ghost use Rattle.std.specs.Prelude.{◌≡◌, ◌≤◌, IsTrue, ℕ, Option, None, []};
ghost use Rattle.spec_documents.specs.Tree.{depth};
ghost use Rattle.spec_messages.specs.Message.{Message, is_whole, body_depth};
ghost use Rattle.spec_messages.specs.Policy.{Policy, values};
ghost use Rattle.spec_messages.specs.Split.{cleared};
ghost use Rattle.spec_messages.specs.Block.{Meta, sent_block};
ghost use Rattle.spec_messages.specs.Plain.{empty_policy};

/// Under the empty policy a whole message without a body is its own clear message, and has no values.
pub fn plain_message_is_clear()
    ensures cleared { (m : Message) → IsTrue (is_whole m) → m.body ≡ None → cleared empty_policy None m ≡ m }
    ensures values { (m : Message) → IsTrue (is_whole m) → m.body ≡ None → values empty_policy None m ≡ [] }
{}

/// The sent block of a message whose body nests at most 64 deep nests at most 127 deep.
pub fn sent_block_is_shallow()
    ensures { (pol : Policy) (k : Option ℕ) (m : Message) (meta : Meta) → body_depth m.body ≤ 64 → depth (sent_block pol k m meta) ≤ 127 }
{}
