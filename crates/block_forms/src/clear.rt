// The message with holes that a block stands for.
ghost use Rattle.std.specs.Prelude.{◌≡◌, None, Some, IfOk, is_some, true, map as list_map, option_map, codes};
ghost use Rattle.spec_documents.specs.Tree.{get_member};
ghost use Rattle.spec_messages.specs.Message.{headers_of};
ghost use Rattle.spec_messages.specs.Block.{clear_message as message_of_block, members_of};
ghost use Rattle.spec_messages.specs.Fault.{block_fault};
ghost use Rattle.n32_values.specs.View.{tree_of};
ghost use Rattle.http_message.specs.Forms.{parts_of};
ghost use Rattle.http_message.specs.Reading.{header_view, message_view};
ghost use Rattle.block_forms.specs.Kept.{ReadsHead, payload_of};
ghost use Rattle.block_forms.specs.Paths.{paths_of};

use crate::block::Block;
use crate::body::clear_body;
use crate::fault::{BlockParts, BlockRead, read_parts};
use crate::laws::blocks_are_read;
use http_message::{Form, Head, HeaderList, Message, MessageRead, read_headers};
use json_ptr::Pointer;
use n32_values::{Doc, List, NoMemory, Node};
use std::alloc::Global;

fn member<'a>(doc: &'a Doc, name: &str) -> Option<&'a Node>
    ensures { option_map (λ n. tree_of n.now) result ≡ get_member name.now (members_of doc.now) }
{
    match doc.node() {
        Node::Members(map) => map.get(name),
        _ => None,
    }
}

fn clear_headers(alloc: Global, doc: &Doc) -> Result<HeaderList, NoMemory>
    requires { is_some (headers_of (parts_of Form.Block) (get_member (codes "headers") (members_of doc.now))) ≡ true }
    ensures { IfOk result (λ hs. headers_of (parts_of Form.Block) (get_member (codes "headers") (members_of doc.now)) ≡ Some (list_map header_view hs)) }
{
    match read_headers(alloc, Form::Block, member(doc, "headers")) {
        Ok(headers) => Ok(headers),
        Err(MessageRead::NoMemory) => Err(NoMemory),
        Err(_) => unreachable!(),
    }
}

/// The message with holes of a block's document, of which this line and these paths of items were read.
pub(crate) fn message_of(
    alloc: Global,
    doc: &Doc,
    _count: u32,
    head: Head,
    paths: &List<Pointer>,
) -> Result<Message, NoMemory>
    requires right { block_fault doc.now _count ≡ None }
    requires head { ReadsHead head doc.now }
    requires paths { paths.now ≡ paths_of (payload_of doc.now) }
    ensures { IfOk result (λ m. message_of_block doc.now ≡ Some (message_view m)) }
{
    blocks_are_read();
    let _ordered = doc.node();
    let headers = clear_headers(alloc, doc)?;
    let body = clear_body(alloc, doc, paths)?;
    Ok(head.into_message(headers, body))
}

/// The message with holes that a block stands for: its line, its headers, and the least body that has
/// the value of each item at the item's path.
pub fn clear_message(alloc: Global, block: &Block) -> Result<Message, NoMemory>
    ensures { IfOk result (λ m. message_of_block block.now ≡ Some (message_view m)) }
{
    let holes = block.holes();
    match read_parts(alloc, block.doc(), holes) {
        Ok(BlockParts { head, payload }) => {
            message_of(alloc, block.doc(), holes, head, &payload.paths)
        }
        Err(BlockRead::NoMemory) => Err(NoMemory),
        Err(BlockRead::Refused(_)) => unreachable!(),
    }
}
