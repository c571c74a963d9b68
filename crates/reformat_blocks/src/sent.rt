// The block that is sent for a message, and the values that it hides.
ghost use Rattle.std.specs.Prelude.{◌≡◌, ◌+◌, ◌++◌, ◌∷◌, [], IfOk, OnOk, map as list_map, length};
ghost use Rattle.spec_documents.specs.Tree.{members, member, no_members};
ghost use Rattle.spec_messages.specs.Block.{sent_block, body_leaves, head_text, line_members, meta_tree, with_list, header_tree, unless_empty};
ghost use Rattle.spec_messages.specs.Message.{request as request_head};
ghost use Rattle.spec_messages.specs.Policy.{line_secrets, body_secrets, numbered, header_spot, part_value, values};
ghost use Rattle.spec_messages.specs.Printing.{header_pair};
ghost use Rattle.spec_messages.specs.Split.{cleared, hide_head, hide_body, hide_each, hide_header};
ghost use Rattle.n32_values.specs.View.{tree_of};
ghost use Rattle.http_message.specs.Reading.{header_view, message_view, request_line};
ghost use Rattle.reformat_blocks.specs.Rules.{header_test};
ghost use Rattle.reformat_blocks.specs.Sent.{item_trees, stood, with_items, line_part, sent_members, hidden_body};
ghost use Rattle.block_forms.specs.Metadata.{meta_view, lower_ids};

use crate::body::{Body, push_body};
use crate::parts::{hidden_headers, hidden_pairs, hidden_segments};
use block_forms::{Meta, meta_node};
use doc_forms::{number_text, put};
use http_message::{HeaderList, Kind, Message, Request, line_node, put_headers};
use n32_values::{Doc, NoMemory, Node, NodeList, NodeMap, Text};
use policy_tables::{Policy, Rules};
use std::alloc::Global;

/// The block of a message as a node, how many items it has, and the values of its holes.
#[derive(Drop)]
pub(crate) struct Sent {
    pub(crate) block: Node,
    pub(crate) items: usize,
    pub(crate) values: NodeList,
}

// The line of a block: the object of a request, or the status of a response.
#[derive(Drop)]
pub(crate) enum SentLine {
    Request(Node),
    Status(u16),
}

// The line of a request, with its holes.
fn hidden_line(
    alloc: Global,
    rules: &Rules<'_>,
    request: &Request,
    values: &mut NodeList,
) -> Result<SentLine, NoMemory>
    requires { values.old ≡ [] }
    ensures line { IfOk result (λ l. line_part l ≡ line_members (head_text (hide_head rules.now.policy rules.now.mapping rules.now.kind (request_head (request_line request.now))))) }
    ensures values { OnOk result (values.new ≡ stood (line_secrets rules.now.policy rules.now.mapping rules.now.kind (request_head (request_line request.now)))) }
{
    let line = Request {
        method: request.method.copy(alloc)?,
        scheme: request.scheme.copy(alloc)?,
        authority: request.authority.copy(alloc)?,
        version: request.version.copy(alloc)?,
        segments: hidden_segments(alloc, rules, &request.segments, values)?,
        query: hidden_pairs(alloc, rules, &request.query, values)?,
        headers: HeaderList::new(alloc),
        body: None,
    };
    Ok(SentLine::Request(line_node(alloc, &line)?))
}

fn hidden_items(
    alloc: Global,
    rules: &Rules<'_>,
    body: &Option<Doc>,
    values: &mut NodeList,
) -> Result<NodeList, NoMemory>
    ensures items { IfOk result (λ l. l ≡ item_trees (body_leaves (hide_body rules.now.policy rules.now.mapping rules.now.kind (length values.old) body.now))) }
    ensures values { OnOk result (values.new ≡ values.old ++ stood (body_secrets rules.now.policy rules.now.mapping rules.now.kind body.now)) }
{
    let mut items = NodeList::new(alloc);
    match body {
        Some(doc) => {
            let body = Body {
                rules,
                root: doc.node(),
            };
            push_body(alloc, &body, &mut items, values)?;
            Ok(items)
        }
        None => Ok(items),
    }
}

fn put_line(alloc: Global, map: &mut NodeMap, line: SentLine) -> Result<(), NoMemory>
    requires { map.old ≡ no_members }
    ensures { OnOk result (map.new ≡ line_part line) }
{
    match line {
        SentLine::Request(node) => put(alloc, map, "requestLine", node),
        SentLine::Status(status) => {
            let status = Text::from_string(number_text(alloc, u64::from(status))?);
            put(alloc, map, "statusLine", Node::Words(status))
        }
    }
}

fn line_and_items(alloc: Global, line: SentLine, items: NodeList) -> Result<NodeMap, NoMemory>
    ensures { IfOk result (λ m. m ≡ with_items items (line_part line)) }
{
    let mut map = NodeMap::new(alloc);
    put_line(alloc, &mut map, line)?;
    if items.len() == 0 {
        return Ok(map);
    }
    put(alloc, &mut map, "payload", Node::Items(items))?;
    Ok(map)
}

fn block_node(
    alloc: Global,
    meta: &Meta,
    line: SentLine,
    headers: &HeaderList,
    items: NodeList,
) -> Result<Node, NoMemory>
    ensures { IfOk result (λ n. tree_of n ≡ members (sent_members (list_map header_view headers.now) (lower_ids (meta_view meta.now)) items (line_part line))) }
{
    let mut map = line_and_items(alloc, line, items)?;
    put(alloc, &mut map, "metaData", meta_node(alloc, meta)?)?;
    put_headers(alloc, &mut map, headers)?;
    Ok(Node::Members(map))
}

// What is sent where the line and its values are known.
fn sent_after(
    alloc: Global,
    rules: &Rules<'_>,
    meta: &Meta,
    line: SentLine,
    headers: &HeaderList,
    body: &Option<Doc>,
    values: NodeList,
) -> Result<Sent, NoMemory>
    ensures block { IfOk result (λ s. tree_of s.block ≡ members (sent_members
        (hide_each (header_test rules.now) hide_header 0 (length values) (list_map header_view headers.now)) (lower_ids (meta_view meta.now))
        (item_trees (body_leaves (hidden_body rules.now (length values) (list_map header_view headers.now) body.now))) (line_part line))) }
    ensures items { IfOk result (λ s. s.items ≡ length (body_leaves (hidden_body rules.now (length values) (list_map header_view headers.now) body.now))) }
    ensures values { IfOk result (λ s. s.values ≡ values ++ (stood (numbered (header_test rules.now) header_spot (λ h. part_value h.value) 0 (list_map header_view headers.now))
        ++ stood (body_secrets rules.now.policy rules.now.mapping rules.now.kind body.now))) }
{
    let mut values = values;
    let headers = hidden_headers(alloc, rules, headers, &mut values)?;
    let items = hidden_items(alloc, rules, body, &mut values)?;
    let count = items.len();
    Ok(Sent {
        block: block_node(alloc, meta, line, &headers, items)?,
        items: count,
        values,
    })
}

/// The sent block of a message and its values.
pub(crate) fn sent_of(
    alloc: Global,
    policy: &Policy,
    mapping: Option<u32>,
    message: &Message,
    meta: &Meta,
) -> Result<Sent, NoMemory>
    ensures block { IfOk result (λ s. tree_of s.block ≡ sent_block policy.now mapping (message_view message.now) (meta_view meta.now)) }
    ensures items { IfOk result (λ s. s.items ≡ length (body_leaves (cleared policy.now mapping (message_view message.now)).body)) }
    ensures values { IfOk result (λ s. s.values ≡ values policy.now mapping (message_view message.now)) }
{
    let mut values = NodeList::new(alloc);
    match message {
        Message::Request(request) => {
            let rules = Rules::new(alloc, policy, mapping, Kind::Request)?;
            let line = hidden_line(alloc, &rules, request, &mut values)?;
            let (headers, body) = (&request.headers, &request.body);
            sent_after(alloc, &rules, meta, line, headers, body, values)
        }
        Message::Response(response) => {
            let rules = Rules::new(alloc, policy, mapping, Kind::Response)?;
            let line = SentLine::Status(response.status);
            let (headers, body) = (&response.headers, &response.body);
            sent_after(alloc, &rules, meta, line, headers, body, values)
        }
    }
}
