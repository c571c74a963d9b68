// The calls of `block_forms`, `reformat_blocks` and `message_rebuilding`.
ghost use Rattle.std.specs.Prelude.{◌≡◌, ◌≤◌, ◌<◌, ◌^◌, IsTrue, None, length};
ghost use Rattle.spec_messages.specs.Fault.{block_fault};
ghost use Rattle.spec_messages.specs.Message.{body_depth};
ghost use Rattle.http_message.specs.Reading.{message_view};

use crate::holes::place_node;
use crate::messages::message_node;
use block_forms::{
    BlockWhy, LimitName, Meta, MetaRead, block_fault, is_meta, meta_node, read_meta,
};
use doc_forms::put;
use http_message::{Message, is_whole};
use message_rebuilding::{RebuildFault, clear_message, fill_message, rebuild};
use n32_values::{Doc, Node, NodeList, NodeMap, Text, depth, doc_text};
use policy_tables::Policy;
use reformat_blocks::{Block, BlockRead, Split, SplitFault, block_doc, read_block, split};
use std::alloc::Global;
use worked_rows::{
    Args, Given, count_node, fault_node, map_node, member_node, number_node, pair_node, put_part,
    text_node,
};

fn limit_word(limit: LimitName) -> &'static str {
    match limit {
        LimitName::Headers => "headers",
        LimitName::Payload => "payload",
        LimitName::Values => "values",
        LimitName::Block => "block",
        LimitName::Wire => "wire",
        LimitName::Alter => "alter",
        LimitName::Records => "records",
    }
}

fn limit_node(alloc: Global, limit: LimitName) -> Option<Node> {
    member_node(alloc, "limit", text_node(alloc, limit_word(limit))?)
}

fn why_node(alloc: Global, why: &BlockWhy) -> Option<Node> {
    match why {
        BlockWhy::Member(name) => member_node(alloc, "member", text_node(alloc, name.as_str())?),
        BlockWhy::Limit(limit) => limit_node(alloc, *limit),
        BlockWhy::IePath(number) => member_node(alloc, "ie_path", number_node(*number)),
        BlockWhy::Overlap(number) => member_node(alloc, "overlap", number_node(*number)),
        BlockWhy::BadHole(place) => member_node(alloc, "bad_hole", place_node(alloc, place)?),
        BlockWhy::Twice(index) => member_node(alloc, "twice", number_node(*index)),
        BlockWhy::Missing(index) => member_node(alloc, "missing", number_node(*index)),
        BlockWhy::Depth => fault_node(alloc, "DEPTH"),
    }
}

fn told(alloc: Global, why: BlockWhy) -> Option<Node> {
    why_node(alloc, &why)
}

/// The first fault of `block` as a block with `count` values, and null for a block.
pub fn block_fault_call(alloc: Global, args: Args<'_>, given: &Given) -> Option<Node> {
    match block_fault(alloc, given.block.as_ref()?, args.number("count")?) {
        Ok(Some(why)) => told(alloc, why),
        Ok(None) => Some(Node::Null),
        Err(_) => None,
    }
}

// What the metadata are written to, which writes ids in lower case.
fn written_meta(alloc: Global, meta: &Meta) -> Option<Node> {
    if is_meta(meta) {
        meta_node(alloc, meta).ok()
    } else {
        None
    }
}

fn put_meta(alloc: Global, map: &mut NodeMap, meta: &Meta) -> Option<()> {
    put_part(
        alloc,
        map,
        "context",
        text_node(alloc, meta.context.as_str()),
    )?;
    put_part(
        alloc,
        map,
        "message",
        text_node(alloc, meta.message.as_str()),
    )?;
    put_part(alloc, map, "ipx", text_node(alloc, meta.ipx.as_str()))?;
    put_part(alloc, map, "written", written_meta(alloc, meta))
}

fn meta_told(alloc: Global, meta: Meta) -> Option<Node> {
    let mut map = NodeMap::new(alloc);
    let done = put_meta(alloc, &mut map, &meta);
    map_node(map, done)
}

/// The metadata of `block`, and what they are written to.
pub fn read_meta_call(alloc: Global, given: &Given) -> Option<Node> {
    match read_meta(alloc, given.block.as_ref()?) {
        Ok(meta) => meta_told(alloc, meta),
        Err(MetaRead::Form) => fault_node(alloc, "metaData"),
        Err(MetaRead::NoMemory) => None,
    }
}

fn is_low(body: &Option<Doc>) -> bool
    ensures { IsTrue result → body_depth body.now ≤ 64 }
{
    match body {
        Some(doc) => depth(doc.node()) <= 64,
        None => true,
    }
}

fn is_shallow(message: &Message) -> bool
    ensures { IsTrue result → body_depth (message_view message.now).body ≤ 64 }
{
    match message {
        Message::Request(request) => is_low(&request.body),
        Message::Response(response) => is_low(&response.body),
    }
}

fn parts_node(alloc: Global, parts: Split) -> Option<Node> {
    let Split { block, values } = parts;
    let mut map = NodeMap::new(alloc);
    put(alloc, &mut map, "block", block.into_doc().into_node()).ok()?;
    put(alloc, &mut map, "values", Node::Items(values)).ok()?;
    Some(Node::Members(map))
}

/// What is answered of a message that was split.
#[derive(Clone, Copy)]
enum Parts {
    /// The block and the values.
    Both,
    /// Null.
    Nothing,
    /// How many bytes the text of the block has.
    Length,
    /// How many values there are, and the message that block and values are rebuilt to.
    Rebuilt,
}

fn length_node(alloc: Global, parts: Split) -> Option<Node> {
    match doc_text(alloc, parts.block.doc().node()) {
        Ok(bytes) => Some(count_node(bytes.as_slice().len())),
        Err(_) => None,
    }
}

fn rebuilt_node(alloc: Global, parts: Split) -> Option<Node>
    requires { block_fault parts.block (length parts.values) ≡ None }
{
    let Split { block, values } = parts;
    let count = count_node(values.len());
    let message = rebuilt(alloc, block, &values);
    pair_node(alloc, "values", Some(count), "message", message)
}

fn told_parts(alloc: Global, parts: Split, wanted: Parts) -> Option<Node>
    requires { block_fault parts.block (length parts.values) ≡ None }
{
    match wanted {
        Parts::Both => parts_node(alloc, parts),
        Parts::Nothing => Some(Node::Null),
        Parts::Length => length_node(alloc, parts),
        Parts::Rebuilt => rebuilt_node(alloc, parts),
    }
}

fn split_node(
    alloc: Global,
    policy: &Policy,
    mapping: Option<u32>,
    message: &Message,
    meta: Meta,
    wanted: Parts,
) -> Option<Node> {
    if is_whole(message) && is_shallow(message) && is_meta(&meta) {
        match split(alloc, policy, mapping, message, meta) {
            Ok(parts) => told_parts(alloc, parts, wanted),
            Err(SplitFault::Limit(limit)) => limit_node(alloc, limit),
            Err(SplitFault::NoMemory) => None,
        }
    } else {
        None
    }
}

// Metadata as `{"context":..,"message":..,"ipx":..}`.
fn meta_in(alloc: Global, context: &str, message: &str, ipx: &str) -> Option<Meta> {
    Some(Meta {
        context: Text::from_text(alloc, context).ok()?,
        message: Text::from_text(alloc, message).ok()?,
        ipx: Text::from_text(alloc, ipx).ok()?,
    })
}

fn told_split(alloc: Global, args: Args<'_>, given: &Given, wanted: Parts) -> Option<Node> {
    let policy = given.policy.as_ref()?;
    let message = given.message.as_ref()?;
    let mapping = args.mapping()?;
    let meta = meta_in(
        alloc,
        args.text("context")?,
        args.text("id")?,
        args.text("ipx")?,
    )?;
    split_node(alloc, policy, mapping, message, meta, wanted)
}

/// The block and the values of `message`, or the limit that they pass.
pub fn split_call(alloc: Global, args: Args<'_>, given: &Given) -> Option<Node> {
    told_split(alloc, args, given, Parts::Both)
}

/// The limit that the block of `message` passes, and null where it passes none.
pub fn split_limit_call(alloc: Global, args: Args<'_>, given: &Given) -> Option<Node> {
    told_split(alloc, args, given, Parts::Nothing)
}

/// How many bytes the block of `message` has, or the limit that it passes.
pub fn split_length_call(alloc: Global, args: Args<'_>, given: &Given) -> Option<Node> {
    told_split(alloc, args, given, Parts::Length)
}

/// How many values of `message` are hidden, and the message that it is rebuilt to once it is split.
pub fn split_and_rebuild_call(alloc: Global, args: Args<'_>, given: &Given) -> Option<Node> {
    told_split(alloc, args, given, Parts::Rebuilt)
}

fn clear_node(alloc: Global, block: Block) -> Option<Node> {
    match clear_message(alloc, &block) {
        Ok(message) => message_node(alloc, message),
        Err(_) => None,
    }
}

fn filled_node(alloc: Global, outcome: Result<Message, RebuildFault>) -> Option<Node> {
    match outcome {
        Ok(message) => message_node(alloc, message),
        Err(RebuildFault::NotText(index)) => member_node(alloc, "not_text", number_node(index)),
        Err(RebuildFault::Depth) => fault_node(alloc, "DEPTH"),
        Err(RebuildFault::NoMemory) => None,
    }
}

fn block_told(alloc: Global, fault: BlockRead) -> Option<Node> {
    match fault {
        BlockRead::Refused(why) => told(alloc, why),
        BlockRead::NoMemory => None,
    }
}

/// The message with holes that `block` stands for, with `count` values.
pub fn clear_message_call(alloc: Global, args: Args<'_>, given: &Given) -> Option<Node> {
    match read_block(alloc, given.block.as_ref()?, args.number("count")?) {
        Ok(block) => clear_node(alloc, block),
        Err(fault) => block_told(alloc, fault),
    }
}

fn block_node(alloc: Global, block: Block) -> Option<Node> {
    match block_doc(alloc, &block) {
        Ok(doc) => Some(doc.into_node()),
        Err(_) => None,
    }
}

/// The document of the block that `block` is read to.
pub fn read_block_call(alloc: Global, args: Args<'_>, given: &Given) -> Option<Node> {
    match read_block(alloc, given.block.as_ref()?, args.number("count")?) {
        Ok(block) => block_node(alloc, block),
        Err(fault) => block_told(alloc, fault),
    }
}

fn rebuilt(alloc: Global, block: Block, values: &NodeList) -> Option<Node>
    requires { block_fault block (length values.now) ≡ None }
{
    filled_node(alloc, rebuild(alloc, &block, values))
}

fn filled(alloc: Global, clear: Message, values: &NodeList) -> Option<Node>
    requires { length values.now < 2 ^ 32 }
{
    filled_node(alloc, fill_message(alloc, &clear, values))
}

fn clear_filled(alloc: Global, block: Block, values: &NodeList) -> Option<Node>
    requires { length values.now < 2 ^ 32 }
{
    match clear_message(alloc, &block) {
        Ok(clear) => filled(alloc, clear, values),
        Err(_) => None,
    }
}

fn fill_message_node(alloc: Global, doc: &Doc, values: &NodeList) -> Option<Node> {
    let count = u32::try_from(values.len()).ok()?;
    match read_block(alloc, doc, count) {
        Ok(block) => clear_filled(alloc, block, values),
        Err(fault) => block_told(alloc, fault),
    }
}

/// The message with holes that `block` stands for, filled with `values`.
pub fn fill_message_call(alloc: Global, args: Args<'_>, given: &Given) -> Option<Node> {
    fill_message_node(alloc, given.block.as_ref()?, args.list("values")?)
}

fn rebuild_node(alloc: Global, doc: &Doc, values: &NodeList) -> Option<Node> {
    let count = u32::try_from(values.len()).ok()?;
    match read_block(alloc, doc, count) {
        Ok(block) => rebuilt(alloc, block, values),
        Err(fault) => block_told(alloc, fault),
    }
}

/// The message that `block` and `values` stand for.
pub fn rebuild_call(alloc: Global, args: Args<'_>, given: &Given) -> Option<Node> {
    rebuild_node(alloc, given.block.as_ref()?, args.list("values")?)
}
