// What is read of a block.
ghost use Rattle.std.specs.Prelude.{◌≡◌, ◌≤◌, true, None, ℕ};
ghost use Rattle.spec_documents.specs.Tree.{Tree, is_ordered};
ghost use Rattle.spec_messages.specs.Fault.{block_fault};
ghost use Rattle.block_forms.specs.Kept.{Stands};

use spec_messages::blocks::{block_has_one_message, fault_decides};

/// A block has at most 1,024 values, so that a `u32` holds the number of each of its holes.
pub fn values_are_few()
    ensures { (j : Tree) (n : ℕ) → block_fault j n ≡ None → n ≤ 1024 }
{}

// What is read of a block makes the message that it stands for, whose body nests at most 65 deep, where a
// hole is an object.
pub(crate) fn blocks_are_read()
    ensures { (j : Tree) (n : ℕ) → is_ordered j ≡ true → block_fault j n ≡ None → Stands j }
{
    fault_decides();
    block_has_one_message();
}
