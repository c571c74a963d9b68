// A message with holes, filled with their values.
ghost use Rattle.std.specs.Prelude.{◌≡◌, ◌<◌, ◌^◌, IfOk, length, map as list_map, option_map};
ghost use Rattle.spec_documents.specs.Hole as holes;
ghost use Rattle.spec_messages.specs.Message.{request};
ghost use Rattle.spec_messages.specs.Split as spec;
ghost use Rattle.n32_values.specs.View.{tree_of};
ghost use Rattle.http_message.specs.Reading.{part_view, pair_view, header_view, request_line, message_view};
ghost use Rattle.message_rebuilding.specs.Filling.{FillsBody, Fills};

use crate::misfit::text_misfit;
use crate::tree::filled_node;
use http_message::{
    Header, HeaderList, Message, Pair, PairList, Part, PartList, Request, Response,
};
use n32_values::{Doc, NoMemory, Node, NodeList, Text, depth};
use std::alloc::Global;

/// Why a message isn't filled.
#[derive(Clone, Copy, Debug, PartialEq, Eq, Drop)]
pub enum RebuildFault {
    /// The value with this index, the least such one, is no text of the grammar of the segment, the
    /// pair's value or the header's value that it fills.
    NotText(u32),
    /// The values fit, and the filled body nests deeper than 64.
    Depth,
    /// Memory was refused.
    NoMemory,
}

impl From<NoMemory> for RebuildFault {
    ghost use Rattle.message_rebuilding.specs.declared.filling.RebuildFault.TheVariants.{NoMemory as no_memory};
    ghost use Rattle.std.specs.Prelude.{◌≡◌};

    ghost from_gives = { λ _ e. e ≡ no_memory };

    fn from(_refused: NoMemory) -> RebuildFault {
        RebuildFault::NoMemory
    }
}

fn words_of(node: &Node) -> &str
    ensures { result.now ≡ holes.text_value (tree_of node.now) }
{
    match node {
        Node::Words(text) => text.as_str(),
        _ => "",
    }
}

// A copy of the text with this index, or of the empty one where there is none.
#[tactic(auto, using(crate::proofs::Values::value_none))]
fn text_copy(alloc: Global, values: &NodeList, index: u32) -> Result<Text, NoMemory>
    ensures { IfOk result (λ t. t ≡ holes.text_value (holes.value_at values.now index)) }
{
    match values.get(index as usize) {
        Some(value) => Text::from_text(alloc, words_of(value)),
        None => Ok(Text::from_string(String::new(alloc))),
    }
}

fn filled_part(alloc: Global, values: &NodeList, part: &Part) -> Result<Part, NoMemory>
    ensures { IfOk result (λ p. part_view p ≡ spec.fill_part values.now (part_view part.now)) }
{
    match part {
        Part::Clear(text) => Ok(Part::Clear(text.copy(alloc)?)),
        Part::Hole(index) => Ok(Part::Clear(text_copy(alloc, values, *index)?)),
    }
}

fn filled_segments(alloc: Global, values: &NodeList, parts: &PartList) -> Result<PartList, NoMemory>
    ensures { IfOk result (λ ps. list_map part_view ps ≡ list_map (spec.fill_part values.now) (list_map part_view parts.now)) }
{
    let mut filled = PartList::with_capacity(alloc, parts.len())?;
    for i in 0..parts.len() {
        filled.push(filled_part(alloc, values, parts.item(i))?)?;
    }
    Ok(filled)
}

fn filled_pair(alloc: Global, values: &NodeList, pair: &Pair) -> Result<Pair, NoMemory>
    ensures { IfOk result (λ p. pair_view p ≡ spec.fill_pair values.now (pair_view pair.now)) }
{
    let name = pair.name.copy(alloc)?;
    match &pair.value {
        Some(value) => Ok(Pair {
            name,
            value: Some(filled_part(alloc, values, value)?),
        }),
        None => Ok(Pair { name, value: None }),
    }
}

fn filled_pairs(alloc: Global, values: &NodeList, pairs: &PairList) -> Result<PairList, NoMemory>
    ensures { IfOk result (λ ps. list_map pair_view ps ≡ list_map (spec.fill_pair values.now) (list_map pair_view pairs.now)) }
{
    let mut filled = PairList::new(alloc);
    for i in 0..pairs.len() {
        filled.push(filled_pair(alloc, values, pairs.item(i))?)?;
    }
    Ok(filled)
}

fn filled_header(alloc: Global, values: &NodeList, header: &Header) -> Result<Header, NoMemory>
    ensures { IfOk result (λ h. header_view h ≡ spec.fill_header values.now (header_view header.now)) }
{
    Ok(Header {
        name: header.name.copy(alloc)?,
        value: filled_part(alloc, values, &header.value)?,
    })
}

fn filled_headers(
    alloc: Global,
    values: &NodeList,
    headers: &HeaderList,
) -> Result<HeaderList, NoMemory>
    ensures { IfOk result (λ hs. list_map header_view hs ≡ list_map (spec.fill_header values.now) (list_map header_view headers.now)) }
{
    let mut filled = HeaderList::with_capacity(alloc, headers.len())?;
    for i in 0..headers.len() {
        filled.push(filled_header(alloc, values, headers.item(i))?)?;
    }
    Ok(filled)
}

// The body, filled, which nests at most 64 deep.
fn filled_body(
    alloc: Global,
    values: &NodeList,
    body: &Option<Doc>,
) -> Result<Option<Doc>, RebuildFault>
    requires { length values.now < 2 ^ 32 }
    ensures { FillsBody result (option_map (holes.fill values.now) body.now) }
{
    let Some(doc) = body else {
        return Ok(None);
    };
    let node = filled_node(alloc, values, doc.node())?;
    if 64 < depth(&node) {
        return Err(RebuildFault::Depth);
    }
    match Doc::new(node) {
        Ok(doc) => Ok(Some(doc)),
        Err(_) => Err(RebuildFault::Depth),
    }
}

fn filled_request(
    alloc: Global,
    values: &NodeList,
    line: &Request,
    headers: HeaderList,
    body: Option<Doc>,
) -> Result<Request, NoMemory>
    ensures head { IfOk result (λ r. request (request_line r) ≡ spec.fill_head values.now (request (request_line line.now))) }
    ensures headers { IfOk result (λ r. r.headers ≡ headers) }
    ensures body { IfOk result (λ r. r.body ≡ body) }
{
    Ok(Request {
        method: line.method.copy(alloc)?,
        scheme: line.scheme.copy(alloc)?,
        authority: line.authority.copy(alloc)?,
        version: line.version.copy(alloc)?,
        segments: filled_segments(alloc, values, &line.segments)?,
        query: filled_pairs(alloc, values, &line.query)?,
        headers,
        body,
    })
}

/// The message with each hole replaced by its value. `NotText` comes exactly where a value that fills
/// a part of the line or of the headers doesn't fit, and `Depth` exactly where all of them fit and the
/// filled body nests deeper than 64. A hole without a value is filled with null, which fits no part.
#[tactic(auto, using(crate::proofs::Fillings::no_fault, crate::proofs::Fillings::deep_fault, crate::proofs::Fillings::text_fault))]
pub fn fill_message(
    alloc: Global,
    holed: &Message,
    values: &NodeList,
) -> Result<Message, RebuildFault>
    requires { length values.now < 2 ^ 32 }
    ensures { Fills result values.now (message_view holed.now) }
{
    if let Some(index) = text_misfit(values, holed) {
        return Err(RebuildFault::NotText(index));
    }
    match holed {
        Message::Request(request) => {
            let headers = filled_headers(alloc, values, &request.headers)?;
            let body = filled_body(alloc, values, &request.body)?;
            let request = filled_request(alloc, values, request, headers, body)?;
            Ok(Message::Request(request))
        }
        Message::Response(response) => {
            let headers = filled_headers(alloc, values, &response.headers)?;
            let body = filled_body(alloc, values, &response.body)?;
            Ok(Message::Response(Response {
                status: response.status,
                headers,
                body,
            }))
        }
    }
}
