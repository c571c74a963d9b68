// The document of a message.
ghost use Rattle.std.specs.Prelude.{◌≡◌, [], ◌∷◌, ◌++◌, map as list_map, drop, option_map, OnOk, OnErr, IfOk, string_bytes, length, ◌<◌, Some, Ok, IsTrue};
ghost use Rattle.spec_documents.specs.Hole.{hole_text};
ghost use Rattle.spec_documents.specs.Text.{index_text};
ghost use Rattle.spec_documents.specs.Tree.{put_member, words, items, members};
ghost use Rattle.spec_messages.specs.Block.{part_tree, part_text, path_text, value_text, query_text, header_tree, list_tree, with_list, unless_empty};
ghost use Rattle.n32_values.specs.View.{tree_of};
ghost use Rattle.http_message.specs.Reading.{part_view, pair_view, header_view, request_line, message_view};
ghost use Rattle.spec_messages.specs.Message as messages;
ghost use Rattle.spec_messages.specs.Printing.{header_pair, line_tree, with_body, with_headers, message_tree};
ghost use Rattle.http_message.specs.Printing.{later_pairs};

use crate::message::{Header, HeaderList, Message, Pair, PairList, Part, PartList, Request};
use doc_forms::{hole_node, number_text, push_hole, put, put_text};
use n32_values::{Doc, NoMemory, Node, NodeList, NodeMap, Text, copy_doc};
use spec_messages::messages::what_is_printed_is_read;
use std::alloc::Global;

// The room that a path and a query have at first.
const ROOM: usize = 64;

fn part_node(alloc: Global, part: &Part) -> Result<Node, NoMemory>
    ensures { IfOk result (λ n. tree_of n ≡ part_tree (part_view part.now)) }
{
    match part {
        Part::Clear(text) => Ok(Node::Words(text.copy(alloc)?)),
        Part::Hole(index) => hole_node(alloc, *index),
    }
}

fn header_node(alloc: Global, header: &Header) -> Result<Node, NoMemory>
    ensures { IfOk result (λ n. tree_of n ≡ header_tree (header_pair (header_view header.now))) }
{
    let mut map = NodeMap::with_capacity(alloc, 2)?;
    put_text(alloc, &mut map, "header", header.name.as_str())?;
    put(alloc, &mut map, "value", part_node(alloc, &header.value)?)?;
    Ok(Node::Members(map))
}

#[tactic(auto, using(crate::proofs::Printing::header_trees, crate::proofs::Printing::headers_more))]
fn headers_node(alloc: Global, headers: &HeaderList) -> Result<Node, NoMemory>
    ensures { IfOk result (λ n. tree_of n ≡ items (list_tree header_tree (list_map header_pair (list_map header_view headers.now)))) }
{
    let mut list = NodeList::with_capacity(alloc, headers.len())?;
    for i in 0..headers.len() {
        list.push(header_node(alloc, headers.item(i))?)?;
    }
    Ok(Node::Items(list))
}

fn push_part(alloc: Global, out: &mut String, part: &Part) -> Result<(), NoMemory>
    ensures ok { OnOk result (string_bytes out.new ≡ string_bytes out.old ++ part_text (part_view part.now)) }
{
    match part {
        Part::Clear(text) => {
            out.push_str(text.as_str())?;
            Ok(())
        }
        Part::Hole(index) => push_hole(alloc, out, *index),
    }
}

fn push_path(alloc: Global, out: &mut String, parts: &PartList) -> Result<(), NoMemory>
    ensures ok { OnOk result (string_bytes out.new ≡ string_bytes out.old ++ path_text (list_map part_view parts.now)) }
{
    for i in 0..parts.len() {
        out.push_str("/")?;
        push_part(alloc, out, parts.item(i))?;
    }
    Ok(())
}

fn push_pair(alloc: Global, out: &mut String, pair: &Pair) -> Result<(), NoMemory>
    ensures ok { OnOk result (string_bytes out.new ≡ string_bytes out.old ++ value_text pair.now.name (option_map part_view pair.now.value)) }
{
    out.push_str(pair.name.as_str())?;
    match &pair.value {
        Some(value) => {
            out.push_str("=")?;
            push_part(alloc, out, value)
        }
        None => Ok(()),
    }
}

fn push_later(alloc: Global, out: &mut String, pairs: &PairList) -> Result<(), NoMemory>
    requires { 0 < length pairs.now }
    ensures ok { OnOk result (string_bytes out.new ≡ string_bytes out.old ++ later_pairs (list_map pair_view (drop 1 pairs.now))) }
{
    for i in 1..pairs.len() {
        out.push_str("&")?;
        push_pair(alloc, out, pairs.item(i))?;
    }
    Ok(())
}

fn path_of(alloc: Global, parts: &PartList) -> Result<Text, NoMemory>
    ensures { IfOk result (λ t. t ≡ path_text (list_map part_view parts.now)) }
{
    let mut out = String::with_capacity(alloc, ROOM)?;
    push_path(alloc, &mut out, parts)?;
    Ok(Text::from_string(out))
}

#[tactic(auto, using(crate::proofs::Printing::query_from))]
fn query_of(alloc: Global, pairs: &PairList) -> Result<Text, NoMemory>
    requires { 0 < length pairs.now }
    ensures { IfOk result (λ t. query_text (list_map pair_view pairs.now) ≡ Some t) }
{
    let mut out = String::with_capacity(alloc, ROOM)?;
    push_pair(alloc, &mut out, pairs.item(0))?;
    push_later(alloc, &mut out, pairs)?;
    Ok(Text::from_string(out))
}

/// The line of a request as an object: `queryFragment` is absent where there is no pair, and holes are
/// spelled within their texts.
#[tactic(auto, using(crate::proofs::Printing::no_query))]
pub fn line_node(alloc: Global, request: &Request) -> Result<Node, NoMemory>
    ensures { IfOk result (λ n. tree_of n ≡ line_tree (request_line request.now)) }
{
    let mut map = NodeMap::with_capacity(alloc, 6)?;
    let path = Node::Words(path_of(alloc, &request.segments)?);
    put_text(alloc, &mut map, "authority", request.authority.as_str())?;
    put_text(alloc, &mut map, "method", request.method.as_str())?;
    put(alloc, &mut map, "path", path)?;
    put_text(alloc, &mut map, "protocolVersion", request.version.as_str())?;
    put_text(alloc, &mut map, "scheme", request.scheme.as_str())?;
    if 0 < request.query.len() {
        let query = Node::Words(query_of(alloc, &request.query)?);
        put(alloc, &mut map, "queryFragment", query)?;
        return Ok(Node::Members(map));
    }
    Ok(Node::Members(map))
}

/// Puts the headers into an object as its member `headers`, where there is one. A hole is an object.
#[tactic(auto, using(crate::proofs::Printing::no_headers, crate::proofs::Printing::some_headers))]
pub fn put_headers(alloc: Global, map: &mut NodeMap, headers: &HeaderList) -> Result<(), NoMemory>
    ensures ok { OnOk result (map.new ≡ with_headers (list_map header_view headers.now) map.old) }
    ensures err { OnErr result (map.new ≡ map.old) }
{
    if 0 < headers.len() {
        put(alloc, map, "headers", headers_node(alloc, headers)?)?;
        return Ok(());
    }
    Ok(())
}

fn put_body(alloc: Global, map: &mut NodeMap, body: &Option<Doc>) -> Result<(), NoMemory>
    ensures ok { OnOk result (map.new ≡ with_body body.now map.old) }
{
    match body {
        Some(doc) => {
            put(alloc, map, "body", copy_doc(alloc, doc.node())?)?;
            Ok(())
        }
        None => Ok(()),
    }
}

fn message_node(alloc: Global, message: &Message) -> Result<Node, NoMemory>
    ensures { IfOk result (λ n. tree_of n ≡ message_tree (message_view message.now)) }
{
    let mut map = NodeMap::new(alloc);
    match message {
        Message::Request(request) => {
            put(alloc, &mut map, "requestLine", line_node(alloc, request)?)?;
            put_headers(alloc, &mut map, &request.headers)?;
            put_body(alloc, &mut map, &request.body)?;
            Ok(Node::Members(map))
        }
        Message::Response(response) => {
            let status = Text::from_string(number_text(alloc, u64::from(response.status))?);
            put(alloc, &mut map, "statusLine", Node::Words(status))?;
            put_headers(alloc, &mut map, &response.headers)?;
            put_body(alloc, &mut map, &response.body)?;
            Ok(Node::Members(map))
        }
    }
}

/// The document of a message, in the form that `read_message` reads. It is read to the same message
/// where the message is whole, its body nests at most 64 deep and such documents are read.
pub fn message_doc(alloc: Global, message: &Message) -> Result<Node, NoMemory>
    ensures tree { IfOk result (λ n. tree_of n ≡ message_tree (message_view message.now)) }
    ensures read { IfOk result (λ n. IsTrue (messages.is_whole (message_view message.now)) → messages.message_of (tree_of n) ≡ Ok (message_view message.now)) }
{
    what_is_printed_is_read();
    message_node(alloc, message)
}
