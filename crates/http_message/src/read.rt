// A document's tree is read into a message.
ghost use Rattle.std.specs.Prelude.{codes, option_map, IfOk, IsTrue};
ghost use Rattle.n32_values.specs.View.{tree_of};
ghost use Rattle.spec_messages.specs.Message as spec;
ghost use Rattle.http_message.specs.Reading.{Gives, Reads, GivesBody, message_view};
ghost use Rattle.spec_documents.specs.Tree.{get_member, members};

use crate::form::Form;
use crate::headers::read_headers;
use crate::line::read_head;
use crate::message::Message;
use crate::refusal::{MessageMember, MessageRead};
use n32_values::{Doc, Node, NodeMap, copy_doc, depth};
use std::alloc::Global;

// The body, which nests at most 64 deep.
fn read_body(alloc: Global, node: Option<&Node>) -> Result<Option<Doc>, MessageRead>
    ensures { GivesBody result (option_map (λ n. tree_of n.now) node.entry) }
{
    let Some(node) = node else {
        return Ok(None);
    };
    if 64 < depth(node) {
        return Err(MessageRead::Depth);
    }
    match Doc::new(copy_doc(alloc, node)?) {
        Ok(doc) => Ok(Some(doc)),
        Err(_) => Err(MessageRead::Depth),
    }
}

// The body that a node becomes, which nests at most 64 deep.
fn moved_body(node: Option<Node>) -> Result<Option<Doc>, MessageRead>
    ensures { GivesBody result (option_map tree_of node) }
{
    let Some(node) = node else {
        return Ok(None);
    };
    if 64 < depth(&node) {
        return Err(MessageRead::Depth);
    }
    Ok(Some(Doc::of_shallow(node)))
}

// A request line that is there is an object, also beside a status line.
fn check_line_form(map: &NodeMap) -> Result<(), MessageRead>
    ensures { Gives (λ u. u) result (spec.line_form (get_member (codes "requestLine") map.now)) }
{
    match map.get("requestLine") {
        None | Some(Node::Members(_)) => Ok(()),
        Some(_) => Err(MessageRead::Member(MessageMember::RequestLine)),
    }
}

#[tactic(auto, unfolding(crate::specs::Forms::parts_of))]
fn read_parts(alloc: Global, node: &Node) -> Result<Message, MessageRead>
    ensures { Reads result (spec.message_of (tree_of node.now)) }
{
    let Node::Members(map) = node else {
        return Err(MessageRead::Member(MessageMember::Whole));
    };
    check_line_form(map)?;
    let head = read_head(alloc, Form::Plain, map)?;
    let headers = read_headers(alloc, Form::Plain, map.get("headers"))?;
    let body = read_body(alloc, map.get("body"))?;
    Ok(head.into_message(headers, body))
}

#[tactic(auto, unfolding(crate::specs::Forms::parts_of))]
fn moved_parts(alloc: Global, map: NodeMap) -> Result<Message, MessageRead>
    ensures { Reads result (spec.message_of (members map)) }
{
    let mut map = map;
    check_line_form(&map)?;
    let head = read_head(alloc, Form::Plain, &map)?;
    let headers = read_headers(alloc, Form::Plain, map.get("headers"))?;
    let body = moved_body(map.take("body"))?;
    Ok(head.into_message(headers, body))
}

/// Reads the message that a document is of: `{"requestLine":{..},"headers":[..],"body":..}` or
/// `{"statusLine":"201","headers":[..],"body":..}`. Other members are ignored, also inside the line
/// and the headers. What is read is whole.
///
/// The first member that is wrong is named, in the order of `MessageMember`; of two lines that is
/// `statusLine`, unless `requestLine` is no object. `Depth` comes where all members are right and
/// the body nests deeper than 64.
pub fn read_message(alloc: Global, node: &Node) -> Result<Message, MessageRead>
    ensures value { Reads result (spec.message_of (tree_of node.now)) }
    ensures whole { IfOk result (λ m. IsTrue (spec.is_whole (message_view m))) }
{
    read_parts(alloc, node)
}

/// Reads the message that a document is of, as `read_message` does, and moves the body out of the document.
pub fn take_message(alloc: Global, node: Node) -> Result<Message, MessageRead>
    ensures value { Reads result (spec.message_of (tree_of node)) }
    ensures whole { IfOk result (λ m. IsTrue (spec.is_whole (message_view m))) }
{
    match node {
        Node::Members(map) => moved_parts(alloc, map),
        _ => Err(MessageRead::Member(MessageMember::Whole)),
    }
}
