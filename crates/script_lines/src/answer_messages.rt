// The document of a message that is handed out, whose body is moved and not copied.
ghost use Rattle.std.specs.Prelude.{◌≡◌, map as list_map, OnOk, IfOk};
ghost use Rattle.spec_messages.specs.Printing.{message_tree, with_body};
ghost use Rattle.n32_values.specs.View.{tree_of};
ghost use Rattle.http_message.specs.Reading.{message_view};

use doc_forms::{number_text, put};
use http_message::{Message, Request, Response, line_node, put_headers};
use n32_values::{Doc, NoMemory, Node, NodeMap, Text};
use std::alloc::Global;

fn put_body(alloc: Global, map: &mut NodeMap, body: Option<Doc>) -> Result<(), NoMemory>
    ensures { OnOk result (map.new ≡ with_body body map.old) }
{
    match body {
        Some(doc) => put(alloc, map, "body", doc.into_node()),
        None => Ok(()),
    }
}

fn request_node(alloc: Global, request: Request) -> Result<Node, NoMemory>
    ensures { IfOk result (λ n. tree_of n ≡ message_tree (message_view (Message.Request request))) }
{
    let mut map = NodeMap::new(alloc);
    put(alloc, &mut map, "requestLine", line_node(alloc, &request)?)?;
    put_headers(alloc, &mut map, &request.headers)?;
    put_body(alloc, &mut map, request.body)?;
    Ok(Node::Members(map))
}

fn response_node(alloc: Global, response: Response) -> Result<Node, NoMemory>
    ensures { IfOk result (λ n. tree_of n ≡ message_tree (message_view (Message.Response response))) }
{
    let mut map = NodeMap::new(alloc);
    let status = Text::from_string(number_text(alloc, u64::from(response.status))?);
    put(alloc, &mut map, "statusLine", Node::Words(status))?;
    put_headers(alloc, &mut map, &response.headers)?;
    put_body(alloc, &mut map, response.body)?;
    Ok(Node::Members(map))
}

/// The document of a message.
pub(crate) fn message_node(alloc: Global, message: Message) -> Result<Node, NoMemory>
    ensures { IfOk result (λ n. tree_of n ≡ message_tree (message_view message)) }
{
    match message {
        Message::Request(request) => request_node(alloc, request),
        Message::Response(response) => response_node(alloc, response),
    }
}
