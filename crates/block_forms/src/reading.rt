// A block that is read once.
ghost use Rattle.std.specs.Prelude.{◌≡◌, IfOk, IfErr, MatchResult, None, Some, Ok};
ghost use Rattle.spec_documents.specs.Hole.{places as places_of};
ghost use Rattle.spec_messages.specs.Block.{clear_message as message_of_block};
ghost use Rattle.spec_messages.specs.Fault as spec;
ghost use Rattle.http_message.specs.Reading.{message_view};
ghost use Rattle.block_forms.specs.Faults.{Refuses};

use crate::block::Block;
use crate::clear::message_of;
use crate::fault::{BlockParts, BlockRead, Payload, read_parts};
use enc_index::Holes;
use http_message::Message;
use n32_values::{Doc, NoMemory};
use std::alloc::Global;
use std::marker::Model;

/// A block that was read: its document, and what was read of it. Contracts see the document, and for how
/// many values it has holes.
#[derive(Drop)]
pub struct BlockReading {
    doc: Doc,
    count: u32,
    parts: BlockParts,
}

/// A block with all that was read of it.
#[derive(Drop)]
pub struct OpenBlock {
    /// The block.
    pub block: Block,
    /// The places of its holes, by the number of the value.
    pub holes: Holes,
    /// The message with holes that it stands for.
    pub message: Message,
}

impl Model for BlockReading {
    ghost use Rattle.std.specs.Prelude.{◌≡◌, ℕ, None};
    ghost use Rattle.spec_documents.specs.Tree.{Tree};
    ghost use Rattle.spec_messages.specs.Fault.{block_fault};
    ghost use Rattle.block_forms.specs.Kept.{ReadsParts};
    ghost use Rattle.spec_documents.specs.TreeCode.{tree_code};
    ghost use Rattle.std.specs.Coded.{coded×, coded_ℕ};

    ghost Value = { Tree × ℕ };

    ghost coded = { coded× tree_code coded_ℕ };

    ghost view = { λ r. (r.doc, r.count) };

    ghost invariant = { λ r. (block_fault r.doc r.count ≡ None) × ReadsParts r.parts r.doc r.count };
}

impl BlockReading {
    /// Reads the block that a document is, with a hole for each of so many values. It is read exactly
    /// where the document has no fault as such a block, and is moved.
    pub fn read(alloc: Global, doc: Doc, count: u32) -> Result<BlockReading, BlockRead>
        ensures { MatchResult result
            (λ r. (r ≡ (doc, count)) × (spec.block_fault doc count ≡ None))
            (λ why. Refuses why (spec.block_fault doc count)) }
    {
        match read_parts(alloc, &doc, count) {
            Ok(parts) => Ok(BlockReading { doc, count, parts }),
            Err(why) => Err(why),
        }
    }

    /// Its document.
    pub fn doc(&self) -> &Doc
        ensures value { result.now ≡ self.now.0 }
        ensures right { spec.block_fault self.now.0 self.now.1 ≡ None }
    {
        &self.doc
    }

    /// The places of its holes, by the number of the value.
    pub fn holes(&self) -> &Holes
        ensures { places_of self.now.0 self.now.1 ≡ Ok result.now }
    {
        &self.parts.payload.holes
    }

    /// The block, which is moved.
    pub fn into_block(self) -> Block
        ensures value { result ≡ self.0 }
        ensures holes { spec.block_fault result self.1 ≡ None }
    {
        let BlockReading { doc, count, .. } = self;
        Block::of_doc(doc, count)
    }

    /// The message with holes that the block stands for.
    pub fn into_message(self, alloc: Global) -> Result<Message, NoMemory>
        ensures { IfOk result (λ m. message_of_block self.0 ≡ Some (message_view m)) }
    {
        let BlockReading { doc, count, parts } = self;
        let BlockParts { head, payload } = parts;
        message_of(alloc, &doc, count, head, &payload.paths)
    }

    /// The block, the places of its holes by the number of the value, and the message with holes that the
    /// block stands for. What was read is moved.
    pub fn into_all(self, alloc: Global) -> Result<OpenBlock, NoMemory>
        ensures block { IfOk result (λ o. o.block ≡ self.0) }
        ensures right { IfOk result (λ o. spec.block_fault o.block self.1 ≡ None) }
        ensures holes { IfOk result (λ o. places_of self.0 self.1 ≡ Ok o.holes) }
        ensures message { IfOk result (λ o. message_of_block self.0 ≡ Some (message_view o.message)) }
    {
        let BlockReading { doc, count, parts } = self;
        let BlockParts { head, payload } = parts;
        let Payload { paths, holes } = payload;
        match message_of(alloc, &doc, count, head, &paths) {
            Ok(message) => Ok(OpenBlock {
                block: Block::of_doc(doc, count),
                holes,
                message,
            }),
            Err(refused) => Err(refused),
        }
    }
}

/// Reads the block that a document is, with a hole for each of so many values. It is read exactly where the
/// document has no fault as such a block, and keeps what was read: `block_doc` gives the same document.
pub fn read_block(alloc: Global, doc: &Doc, count: u32) -> Result<Block, BlockRead>
    ensures block { IfOk result (λ b. b ≡ doc.now) }
    ensures right { IfOk result (λ b. spec.block_fault doc.now count ≡ None) }
    ensures refused { IfErr result (λ why. Refuses why (spec.block_fault doc.now count)) }
{
    match read_parts(alloc, doc, count) {
        Ok(_) => Ok(Block::of_doc(doc.copy(alloc)?, count)),
        Err(why) => Err(why),
    }
}
