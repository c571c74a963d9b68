// The block of a message and its values.
ghost use Rattle.std.specs.Prelude.{◌≡◌, ◌≤◌, IfOk, IsTrue, length};
ghost use Rattle.spec_documents.specs.Gives.{Gives};
ghost use Rattle.spec_messages.specs.Block.{is_meta, block_of, block_tree};
ghost use Rattle.spec_messages.specs.Message.{is_whole, body_depth};
ghost use Rattle.spec_messages.specs.Policy.{values};
ghost use Rattle.spec_messages.specs.Split.{cleared};
ghost use Rattle.http_message.specs.Reading.{message_view};
ghost use Rattle.block_forms.specs.Metadata.{meta_view};
ghost use Rattle.spec_messages.specs.Splitting.{split_limit};
ghost use Rattle.spec_exchange.specs.Chain.{none_of};
ghost use Rattle.spec_exchange.specs.SendingRefusals as refusals;
ghost use Rattle.sending_sepp.specs.Sending.{told};

use crate::fault::{CheckFault, SendFault};
use block_forms::Meta;
use http_message::Message;
use policy_tables::Policy;
use reformat_blocks::{Split, SplitFault, split};
use std::alloc::Global;

/// Splits a message, or names the first limit that its block and its values pass.
pub(crate) fn split_message(
    alloc: Global,
    policy: &Policy,
    mapping: Option<u32>,
    message: &Message,
    meta: Meta,
) -> Result<Split, CheckFault>
    requires whole { IsTrue (is_whole (message_view message.now)) }
    requires shallow { body_depth (message_view message.now).body ≤ 64 }
    requires meta { IsTrue (is_meta (meta_view meta)) }
    ensures limit { Gives told (λ _. tt) result (none_of refusals.Beyond (split_limit (block_of (cleared policy.now mapping (message_view message.now)) (meta_view meta)) (length (values policy.now mapping (message_view message.now))))) }
    ensures block { IfOk result (λ s. s.block ≡ block_tree (block_of (cleared policy.now mapping (message_view message.now)) (meta_view meta))) }
    ensures values { IfOk result (λ s. s.values ≡ values policy.now mapping (message_view message.now)) }
{
    match split(alloc, policy, mapping, message, meta) {
        Ok(parts) => Ok(parts),
        Err(SplitFault::Limit(name)) => Err(CheckFault::Refused(SendFault::Limit(name))),
        Err(SplitFault::NoMemory) => Err(CheckFault::NoMemory),
    }
}
