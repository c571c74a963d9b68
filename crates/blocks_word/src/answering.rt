ghost use Rattle.std.specs.Prelude.{◌≡◌, ◌≤◌, IfOk, IsTrue};
ghost use Rattle.spec_documents.specs.Compact.{compact_text};
ghost use Rattle.spec_messages.specs.Message.{is_whole, body_depth};
ghost use Rattle.http_message.specs.Reading.{message_view};
ghost use Rattle.block_forms.specs.Metadata.{meta_view};
ghost use Rattle.blocks_word.specs.BlockAnswers.{plain_parts, line_parts, parts_tree, no_meta, block_answer};
ghost use Rattle.spec_documents.specs.Gives.{Gives};
ghost use Rattle.script_lines.specs.Unanswered.{told_refusal};

use doc_forms::put;
use http_message::Message;
use n32_values::{Bytes, NoMemory, Node, NodeMap, ReadingRoom, Text, Whole, doc_text};
use policy_tables::Policy;
use reformat_blocks::{Meta, Split, SplitFault, split};
use script_lines::{Refusal, Unanswered, read_line_in, refusal_text, take_line_message};
use std::alloc::Global;

// The metadata of no context, no message and no intermediary.
fn no_metadata(alloc: Global) -> Result<Meta, NoMemory>
    ensures { IfOk result (λ meta. meta_view meta ≡ no_meta) }
{
    Ok(Meta {
        context: Text::from_text(alloc, "0000000000000000")?,
        message: Text::from_text(alloc, "0000000000000000")?,
        ipx: Text::from_text(alloc, "null")?,
    })
}

// The block and the values of a message under the empty policy.
fn split_message(alloc: Global, message: &Message) -> Result<Split, Unanswered>
    requires whole { IsTrue (is_whole (message_view message.now)) }
    requires shallow { body_depth (message_view message.now).body ≤ 64 }
    ensures { Gives told_refusal (λ split. (split.block, split.values)) result (plain_parts (message_view message.now)) }
{
    let meta = no_metadata(alloc)?;
    match split(alloc, &Policy::empty(alloc), None, message, meta) {
        Ok(parts) => Ok(parts),
        Err(SplitFault::Limit(limit)) => Err(Unanswered::Refused(Refusal::Limit(limit))),
        Err(SplitFault::NoMemory) => Err(Unanswered::NoMemory),
    }
}

// The block and the values of the message that a line is.
fn split_line(alloc: Global, line: &[u8], room: &mut ReadingRoom) -> Result<Split, Unanswered>
    ensures { Gives told_refusal (λ split. (split.block, split.values)) result (line_parts line.now) }
{
    let doc = read_line_in(alloc, line, room)?;
    let message = take_line_message(alloc, doc.into_node())?;
    let parts = split_message(alloc, &message)?;
    Ok(parts)
}

// The document that answers a line by its block, as `{"block":{..},"line":1,"values":[]}`.
fn block_text(alloc: Global, number: u64, split: Split) -> Result<Bytes, NoMemory>
    ensures { IfOk result (λ text. text ≡ compact_text (parts_tree number (split.block, split.values))) }
{
    let Split { block, values } = split;
    let mut members = NodeMap::new(alloc);
    put(alloc, &mut members, "block", block.into_doc().into_node())?;
    let line = Node::Whole(Whole::from_u64(number));
    put(alloc, &mut members, "line", line)?;
    put(alloc, &mut members, "values", Node::Items(values))?;
    doc_text(alloc, &Node::Members(members))
}

/// The answer to a line of `blocks`, without a newline: its block under the empty policy, or the first refusal.
pub fn answer(
    alloc: Global,
    number: u64,
    line: &[u8],
    room: &mut ReadingRoom,
) -> Result<Bytes, NoMemory>
    ensures { IfOk result (λ text. text ≡ block_answer number line.now) }
{
    match split_line(alloc, line, room) {
        Ok(split) => block_text(alloc, number, split),
        Err(Unanswered::Refused(refusal)) => refusal_text(alloc, number, &refusal),
        Err(Unanswered::NoMemory) => Err(NoMemory),
    }
}
