// The arguments of a row that are values of the crates below. They are read all at once, so that they are
// let go in one place: what holds them has one exit, and the calls only borrow them.
use crate::args::Args;
use crate::parts::text_of_parts;
use http_message::{Form, Head, HeaderList, Message, Request, read_head, read_headers};
use json_patch6902::{OpList, read_ops};
use json_ptr::{Pointer, read_pointer};
use n32_values::{Bytes, Doc, Node, NodeMap, Text, copy_doc};
use policy_tables::{Address, LinePart, Policy, read_policy};
use std::alloc::Global;

/// The arguments of a row. `None` where there is none of the name, or it has not its form.
#[derive(Drop)]
pub struct Given {
    pub policy: Option<Policy>,
    /// `other`, a second policy.
    pub other: Option<Policy>,
    pub message: Option<Message>,
    /// `after`, what has become of the message.
    pub after: Option<Message>,
    /// As `{"path":"supi"}`.
    pub address: Option<Address>,
    pub pointer: Option<Pointer>,
    /// `whole`, a second pointer.
    pub whole: Option<Pointer>,
    pub operations: Option<OpList>,
    /// `operations` as they are written, which may be none.
    pub written: Option<Doc>,
    pub block: Option<Doc>,
    /// `wire`, the document of a wire.
    pub wire: Option<Doc>,
    pub ipx: Option<Text>,
    /// `text`, which may be written in parts.
    pub text: Option<Text>,
    /// `bytes`, in hexadecimal digits.
    pub bytes: Option<Bytes>,
    /// `data`, in hexadecimal digits.
    pub data: Option<Bytes>,
}

fn policy_in(alloc: Global, node: Option<&Node>) -> Option<Policy> {
    read_policy(alloc, node?).ok()
}

fn body_in(alloc: Global, node: Option<&Node>) -> Option<Doc> {
    match copy_doc(alloc, node?) {
        Ok(node) => Doc::new(node).ok(),
        Err(_) => None,
    }
}

fn with_body(alloc: Global, head: Head, headers: HeaderList, body: &Node) -> Option<Message> {
    match body_in(alloc, Some(body)) {
        Some(body) => Some(head.into_message(headers, Some(body))),
        None => None,
    }
}

fn message_of(alloc: Global, map: &NodeMap, headers: HeaderList) -> Option<Message> {
    match (read_head(alloc, Form::Block, map), map.get("body")) {
        (Ok(head), Some(body)) => with_body(alloc, head, headers, body),
        (Ok(head), None) => Some(head.into_message(headers, None)),
        _ => None,
    }
}

// A request or a response, whose parts may be holes.
fn message_in(alloc: Global, node: Option<&Node>) -> Option<Message> {
    match node {
        Some(Node::Members(map)) => {
            match read_headers(alloc, Form::Block, map.get("headers")) {
                Ok(headers) => message_of(alloc, map, headers),
                Err(_) => None,
            }
        }
        _ => None,
    }
}

fn pointer_in(alloc: Global, node: Option<&Node>) -> Option<Pointer> {
    match node {
        Some(Node::Words(text)) => read_pointer(alloc, text.as_str()).ok(),
        _ => None,
    }
}

fn operations_in(alloc: Global, node: Option<&Node>) -> Option<OpList> {
    read_ops(alloc, node?).ok()
}

fn text_in(alloc: Global, node: Option<&Node>) -> Option<Text> {
    text_of_parts(alloc, node?)
}

fn bytes_in(alloc: Global, node: Option<&Node>) -> Option<Bytes> {
    match node {
        Some(Node::Words(digits)) => match hex::decode(alloc, digits.as_str()) {
            Ok(bytes) => Some(Bytes::from_vec(bytes)),
            Err(_) => None,
        },
        _ => None,
    }
}

fn line_part(word: &str) -> Option<LinePart> {
    match word {
        "kind" => Some(LinePart::Kind),
        "method" => Some(LinePart::Method),
        "scheme" => Some(LinePart::Scheme),
        "authority" => Some(LinePart::Authority),
        "version" => Some(LinePart::Version),
        "path" => Some(LinePart::Path),
        "query-order" => Some(LinePart::QueryOrder),
        "header-order" => Some(LinePart::HeaderOrder),
        "status" => Some(LinePart::Status),
        _ => None,
    }
}

fn address_of(alloc: Global, sort: &str, name: &str) -> Option<Address> {
    match sort {
        "line" => line_part(name).map(Address::Line),
        "path" => Some(Address::PathVar(Text::from_text(alloc, name).ok()?)),
        "query" => Some(Address::Query(Text::from_text(alloc, name).ok()?)),
        "header" => Some(Address::Header(Text::from_text(alloc, name).ok()?)),
        "body" => Some(Address::Body(read_pointer(alloc, name).ok()?)),
        _ => None,
    }
}

// An address is an object of one member, whose name is its sort.
fn address_in(alloc: Global, node: Option<&Node>) -> Option<Address> {
    match node {
        Some(Node::Members(map)) => match (map.name_at(0), map.node_at(0)) {
            (Some(sort), Some(Node::Words(name))) => {
                address_of(alloc, sort.as_str(), name.as_str())
            }
            _ => None,
        },
        _ => None,
    }
}

/// The arguments of a row.
pub fn read_given(alloc: Global, args: Args<'_>) -> Given {
    Given {
        policy: policy_in(alloc, args.document("policy")),
        other: policy_in(alloc, args.document("other")),
        message: message_in(alloc, args.document("message")),
        after: message_in(alloc, args.document("after")),
        address: address_in(alloc, args.row.get("address")),
        pointer: pointer_in(alloc, args.row.get("pointer")),
        whole: pointer_in(alloc, args.row.get("whole")),
        operations: operations_in(alloc, args.document("operations")),
        written: body_in(alloc, args.document("operations")),
        block: body_in(alloc, args.document("block")),
        wire: body_in(alloc, args.document("wire")),
        ipx: text_in(alloc, args.row.get("ipx")),
        text: text_in(alloc, args.row.get("text")),
        bytes: bytes_in(alloc, args.row.get("bytes")),
        data: bytes_in(alloc, args.row.get("data")),
    }
}

/// The message, where it is a request.
pub fn request_in(given: &Given) -> Option<&Request> {
    match given.message.as_ref()? {
        Message::Request(request) => Some(request),
        Message::Response(_) => None,
    }
}
