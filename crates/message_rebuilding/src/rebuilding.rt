// The message of a block, filled.
ghost use Rattle.std.specs.Prelude.{◌≡◌, Some, None, length};
ghost use Rattle.spec_messages.specs.Message as spec;
ghost use Rattle.spec_messages.specs.Block.{clear_message as message_of_block};
ghost use Rattle.spec_messages.specs.Fault.{block_fault};
ghost use Rattle.message_rebuilding.specs.Filling.{Fills};

use crate::filling::{RebuildFault, fill_message};
use block_forms::{Block, clear_message, values_are_few};
use http_message::Message;
use n32_values::NodeList;
use std::alloc::Global;

/// The message of a block, with each hole replaced by its value: `fill_message` of what
/// `clear_message` gives. The block has a hole for each of the values and for no other.
pub fn rebuild(alloc: Global, block: &Block, values: &NodeList) -> Result<Message, RebuildFault>
    requires { block_fault block.now (length values.now) ≡ None }
    ensures { (c : spec.Message) → message_of_block block.now ≡ Some c → Fills result values.now c }
{
    values_are_few();
    let holed = clear_message(alloc, block)?;
    fill_message(alloc, &holed, values)
}
