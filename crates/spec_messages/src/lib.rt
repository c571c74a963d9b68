//! Definitions of messages, policies, splits, blocks and entries, and laws over them.
#![tactic(auto)]

pub mod blocks;
pub mod commutation;
pub mod kept;
pub mod messages;
pub mod outcomes;
pub mod plain;
pub mod policies;
pub mod rebuilt;
pub mod rows;
pub mod stands;

ghost use Rattle.std.specs.Prelude.{◌≡◌, ◌≤◌, ℕ, Option, Some, IsTrue};
ghost use Rattle.spec_messages.specs.Message.{Message, is_whole, body_depth};
ghost use Rattle.spec_messages.specs.Policy.{Policy, values};
ghost use Rattle.spec_messages.specs.Split.{filled, cleared};
ghost use Rattle.spec_messages.specs.Sendable.{Splits};
ghost use Rattle.spec_messages.specs.Block.{StandsFor, Meta, sent_block};

/// What was split is filled again to the message.
pub fn fill_after_split()
    ensures { (pol : Policy) (k : Option ℕ) (m : Message) → IsTrue (is_whole m) → body_depth m.body ≤ 64 → filled (values pol k m) (cleared pol k m) ≡ Some m }
{}

/// The sent block of a whole message stands for the cleared message.
pub fn sent_block_stands()
    ensures { (pol : Policy) (k : Option ℕ) (m : Message) (meta : Meta) → Splits pol k m → StandsFor (sent_block pol k m meta) (cleared pol k m) }
{}
