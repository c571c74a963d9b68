// The line of a request or of a response.
ghost use Rattle.std.specs.Prelude.{◌≡◌, map as list_map, option_map, codes};
ghost use Rattle.std.specs.Option.{option_copied};
ghost use Rattle.n32_values.specs.View.{tree_of};
ghost use Rattle.spec_messages.specs.Message as spec;
ghost use Rattle.spec_documents.specs.Text as texts;
ghost use Rattle.http_message.specs.Forms.{parts_of};
ghost use Rattle.http_message.specs.Reading.{Gives, part_view, pair_view, line_view, head_view, header_view, message_view};

use crate::form::{Form, read_segment, read_value};
use crate::message::{HeaderList, Message, Pair, PairList, PartList, Request, Response};
use crate::protocol::{is_method, read_status_text};
use crate::refusal::{MessageMember, MessageRead, wanted};
use doc_forms::{Grammar, cut, is_query_name};
use n32_values::{Doc, Node, NodeMap, Text};
use std::alloc::Global;

/// What the line of a request has.
#[derive(Drop)]
pub struct Line {
    /// The method (RFC 9110, section 9).
    pub method: Text,
    /// `http` or `https`.
    pub scheme: Text,
    /// The authority of the URI.
    pub authority: Text,
    /// The version of the protocol.
    pub version: Text,
    /// The segments of the path, of which there is at least one.
    pub segments: PartList,
    /// The pairs of the query.
    pub query: PairList,
}

/// The line of a message: that of a request, or the status code of a response.
#[derive(Drop)]
pub enum Head {
    /// The line of a request.
    Request(Line),
    /// The status code of a response, from 100 to 999.
    Response(u16),
}

impl Head {
    /// The message with this line, these headers and this body.
    pub fn into_message(self, headers: HeaderList, body: Option<Doc>) -> Message
        ensures head { (message_view result).head ≡ head_view self }
        ensures headers { (message_view result).headers ≡ list_map header_view headers }
        ensures body { (message_view result).body ≡ body }
    {
        match self {
            Head::Request(
                Line {
                    method,
                    scheme,
                    authority,
                    version,
                    segments,
                    query,
                },
            ) => Message::Request(Request {
                method,
                scheme,
                authority,
                version,
                segments,
                query,
                headers,
                body,
            }),
            Head::Response(status) => Message::Response(Response {
                status,
                headers,
                body,
            }),
        }
    }
}

fn read_pair(alloc: Global, form: Form, text: &str) -> Result<Pair, MessageRead>
    ensures { Gives pair_view result (spec.wanted (spec.pair_of (parts_of form).value (texts.cut_at 61 text.now)) spec.query) }
{
    let (name, value) = cut(text, '=');
    if !is_query_name(name) {
        return Err(MessageRead::Member(MessageMember::QueryFragment));
    }
    let name = Text::from_text(alloc, name)?;
    match value {
        Some(value) => Ok(Pair {
            name,
            value: Some(read_value(alloc, form, value)?),
        }),
        None => Ok(Pair { name, value: None }),
    }
}

fn read_pieces(alloc: Global, form: Form, text: &str) -> Result<PartList, MessageRead>
    ensures { Gives (list_map part_view) result (spec.wanted (spec.all_read (parts_of form).segment (texts.pieces 47 text.now)) spec.path) }
{
    let mut parts = PartList::new(alloc);
    let mut rest = Some(text);
    'pieces: while let Some(left) = rest {
        let (piece, after) = cut(left, '/');
        parts.push(read_segment(alloc, form, piece)?)?;
        rest = after;
    }
    Ok(parts)
}

fn read_segments(alloc: Global, form: Form, path: &str) -> Result<PartList, MessageRead>
    ensures { Gives (list_map part_view) result (spec.wanted (spec.segments_of (parts_of form).segment path.now) spec.path) }
{
    match path.strip_prefix('/') {
        Some(rest) => read_pieces(alloc, form, rest),
        None => Err(MessageRead::Member(MessageMember::Path)),
    }
}

fn read_pairs(alloc: Global, form: Form, text: &str) -> Result<PairList, MessageRead>
    ensures { Gives (list_map pair_view) result (spec.wanted (spec.all_read (λ p. spec.pair_of (parts_of form).value (texts.cut_at 61 p)) (texts.pieces 38 text.now)) spec.query) }
{
    let mut pairs = PairList::new(alloc);
    let mut rest = Some(text);
    'pieces: while let Some(left) = rest {
        let (piece, after) = cut(left, '&');
        pairs.push(read_pair(alloc, form, piece)?)?;
        rest = after;
    }
    Ok(pairs)
}

fn read_query(alloc: Global, form: Form, node: Option<&Node>) -> Result<PairList, MessageRead>
    ensures { Gives (list_map pair_view) result (spec.wanted (spec.query_of (parts_of form).value (option_map (λ n. tree_of n.now) node.entry)) spec.query) }
{
    match node {
        None => Ok(PairList::new(alloc)),
        Some(Node::Words(text)) => read_pairs(alloc, form, text.as_str()),
        Some(_) => Err(MessageRead::Member(MessageMember::QueryFragment)),
    }
}

fn method_in(map: &NodeMap) -> Option<&str>
    ensures { option_copied result ≡ spec.text_at texts.is_method (codes "method") map.now }
{
    match map.get("method") {
        Some(Node::Words(text)) => {
            let text = text.as_str();
            if is_method(text) { Some(text) } else { None }
        }
        _ => None,
    }
}

fn read_method(map: &NodeMap) -> Result<&str, MessageRead>
    ensures { Gives (λ t. t.now) result (spec.wanted (spec.text_at texts.is_method (codes "method") map.now) spec.method) }
{
    match method_in(map) {
        Some(text) => Ok(text),
        None => Err(MessageRead::Member(MessageMember::Method)),
    }
}

fn read_line(alloc: Global, form: Form, map: &NodeMap) -> Result<Line, MessageRead>
    ensures { Gives line_view result (spec.line_of (parts_of form) map.now) }
{
    let method = read_method(map)?;
    let scheme = wanted(map, "scheme", Grammar::Scheme, MessageMember::Scheme)?;
    let authority = wanted(
        map,
        "authority",
        Grammar::Authority,
        MessageMember::Authority,
    )?;
    let path = wanted(map, "path", Grammar::Any, MessageMember::Path)?;
    let segments = read_segments(alloc, form, path)?;
    let version = wanted(
        map,
        "protocolVersion",
        Grammar::Version,
        MessageMember::ProtocolVersion,
    )?;
    let query = read_query(alloc, form, map.get("queryFragment"))?;
    Ok(Line {
        method: Text::from_text(alloc, method)?,
        scheme: Text::from_text(alloc, scheme)?,
        authority: Text::from_text(alloc, authority)?,
        version: Text::from_text(alloc, version)?,
        segments,
        query,
    })
}

fn read_request(alloc: Global, form: Form, node: &Node) -> Result<Line, MessageRead>
    ensures { Gives (λ l. spec.request (line_view l)) result (spec.request_of (parts_of form) (tree_of node.now)) }
{
    match node {
        Node::Members(map) => {
            let line = read_line(alloc, form, map)?;
            Ok(line)
        }
        _ => Err(MessageRead::Member(MessageMember::RequestLine)),
    }
}

fn read_status(node: &Node) -> Result<u16, MessageRead>
    ensures { Gives spec.response result (spec.status_head (spec.status_text (tree_of node.now))) }
{
    match node {
        Node::Words(text) => read_status_text(text.as_str()),
        _ => Err(MessageRead::Member(MessageMember::StatusLine)),
    }
}

/// Reads the line of a document, of which there is exactly one: `requestLine`, an object with the
/// texts `method`, `scheme`, `authority`, `path`, `protocolVersion` and perhaps `queryFragment`, or
/// `statusLine`, a text of three digits. The first member that is wrong is named, in this order.
pub fn read_head(alloc: Global, form: Form, map: &NodeMap) -> Result<Head, MessageRead>
    ensures { Gives head_view result (spec.head_of (parts_of form) map.now) }
{
    match map.get("requestLine") {
        Some(request) => match map.get("statusLine") {
            Some(_) => Err(MessageRead::Member(MessageMember::StatusLine)),
            None => {
                let line = read_request(alloc, form, request)?;
                Ok(Head::Request(line))
            }
        },
        None => match map.get("statusLine") {
            Some(status) => {
                let status = read_status(status)?;
                Ok(Head::Response(status))
            }
            None => Err(MessageRead::Member(MessageMember::RequestLine)),
        },
    }
}
