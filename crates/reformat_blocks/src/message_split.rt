// A message split into a block and the values that it hides.
ghost use Rattle.std.specs.Prelude.{◌≡◌, ◌≤◌, IfOk, IsTrue, None, length};
ghost use Rattle.spec_messages.specs.Block.{is_meta, is_ordered_body};
ghost use Rattle.spec_messages.specs.Fault.{block_fault};
ghost use Rattle.spec_messages.specs.Message.{is_whole, body_depth};
ghost use Rattle.http_message.specs.Reading.{message_view};
ghost use Rattle.reformat_blocks.specs.Splitting.{Splits};
ghost use Rattle.spec_messages.specs.Splitting.{splitting};
ghost use Rattle.block_forms.specs.Metadata.{meta_view};

use crate::block::Split;
use crate::sent::sent_of;
use block_forms::{Block, LimitName, Meta};
use http_message::Message;
use n32_values::{Doc, NoMemory, is_longer};
use policy_tables::Policy;
use spec_messages::blocks::{fault_decides, sent_block_is_block};
use spec_messages::plain::sent_block_is_shallow;
use std::alloc::Global;

/// Why a message isn't split.
#[derive(Clone, Copy, Debug, PartialEq, Eq, Drop)]
pub enum SplitFault {
    /// The first limit that is passed, of `Headers`, `Payload`, `Values` and `Block` in this order.
    Limit(LimitName),
    NoMemory,
}

impl From<NoMemory> for SplitFault {
    ghost use Rattle.reformat_blocks.specs.declared.message_split.SplitFault.TheVariants.{NoMemory as no_memory};
    ghost use Rattle.std.specs.Prelude.{◌≡◌};

    ghost from_gives = { λ _ e. e ≡ no_memory };

    fn from(_refused: NoMemory) -> SplitFault {
        SplitFault::NoMemory
    }
}

// The names of each object in the body are in order, as those of every document are.
fn body_is_ordered(message: &Message)
    ensures { IsTrue (is_ordered_body (message_view message.now).body) }
{
    is_ordered(message.body())
}

fn is_ordered(body: &Option<Doc>)
    ensures { IsTrue (is_ordered_body body.now) }
{
    if let Some(doc) = body {
        let _node = doc.node();
    }
}

/// Splits a whole message whose body nests at most 64 deep, under the mapping of that number: each
/// outermost secret part goes to the values, and in the block a hole with the value's number stands
/// in its place. The block's items are the leaves of the body; `headers` and `payload` are absent
/// where they are empty, and ids are in lower case (after TS 33.501, clause 13.2.4.3).
pub fn split(
    alloc: Global,
    policy: &Policy,
    mapping: Option<u32>,
    message: &Message,
    meta: Meta,
) -> Result<Split, SplitFault>
    requires whole { IsTrue (is_whole (message_view message.now)) }
    requires shallow { body_depth (message_view message.now).body ≤ 64 }
    requires meta { IsTrue (is_meta (meta_view meta)) }
    ensures outcome { Splits result (splitting policy.now mapping (message_view message.now) (meta_view meta)) }
    ensures holes { IfOk result (λ s. block_fault s.block (length s.values) ≡ None) }
{
    sent_block_is_block();
    fault_decides();
    sent_block_is_shallow();
    body_is_ordered(message);
    if 256 < message.headers().len() {
        return Err(SplitFault::Limit(LimitName::Headers));
    }
    let sent = sent_of(alloc, policy, mapping, message, &meta)?;
    if 4096 < sent.items {
        return Err(SplitFault::Limit(LimitName::Payload));
    }
    if 1024 < sent.values.len() {
        return Err(SplitFault::Limit(LimitName::Values));
    }
    if is_longer(&sent.block, 4_194_304) {
        return Err(SplitFault::Limit(LimitName::Block));
    }
    Ok(Split {
        block: Block::of_doc(Doc::from_shallow(sent.block), sent.values.len() as u32),
        values: sent.values,
    })
}
