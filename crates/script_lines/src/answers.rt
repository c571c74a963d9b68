// The documents of answers, one a line.
ghost use Rattle.std.specs.Prelude.{◌≡◌, ◌≤◌, OnOk, IfOk, option_map};
ghost use Rattle.n32_values.specs.View.{tree_of};
ghost use Rattle.spec_documents.specs.Ids.{id_text};
ghost use Rattle.spec_documents.specs.Tree.{depth as nesting, put_member, words};
ghost use Rattle.error_reports.specs.View.{report_view};
ghost use Rattle.http_message.specs.Reading.{message_view};
ghost use Rattle.spec_script.specs.Steps as spec;
ghost use Rattle.spec_script.specs.Answers.{answer_text, number_tree, with_detail, with_entry, with_report};
ghost use Rattle.script_lines.specs.AnswerTexts.{delivered_answer, document_answer, document_in};
ghost use Rattle.script_lines.specs.View.{refusal_view};

use crate::answer_messages::message_node;
use crate::refusal::Refusal;
use crate::refusal_detail::detail_text;
use doc_forms::{put, put_text};
use error_reports::Report;
use http_message::Message;
use n32_values::{
    Bytes, Doc, Hex64, NoMemory, Node, NodeMap, Text, Whole, copy_doc, doc_text, hex64_text,
};
use std::alloc::Global;

pub(crate) fn put_number(
    alloc: Global,
    map: &mut NodeMap,
    name: &str,
    number: u64,
) -> Result<(), NoMemory>
    ensures { OnOk result (map.new ≡ put_member name.now (number_tree number) map.old) }
{
    put(alloc, map, name, Node::Whole(Whole::from_u64(number)))
}

/// The event of that name is done, as `{"line":1,"ok":"node"}`.
pub fn done_text(alloc: Global, number: u64, name: &str) -> Result<Bytes, NoMemory>
    ensures { IfOk result (λ text. text ≡ answer_text number (spec.Fine name.now)) }
{
    let mut map = NodeMap::new(alloc);
    put_text(alloc, &mut map, "ok", name)?;
    put_number(alloc, &mut map, "line", number)?;
    doc_text(alloc, &Node::Members(map))
}

/// A document has this number on the wire, as `{"line":7,"wire":2}`.
pub fn wire_text(alloc: Global, number: u64, wire: u64) -> Result<Bytes, NoMemory>
    ensures { IfOk result (λ text. text ≡ answer_text number (spec.OnWire wire)) }
{
    let mut map = NodeMap::new(alloc);
    put_number(alloc, &mut map, "wire", wire)?;
    put_number(alloc, &mut map, "line", number)?;
    doc_text(alloc, &Node::Members(map))
}

// The document that an answer holds.
pub(crate) fn take_document(answer: Node) -> Option<Node>
    ensures { option_map tree_of result ≡ document_in (tree_of answer) }
{
    match answer {
        Node::Members(map) => {
            let mut map = map;
            map.take("document")
        }
        _ => None,
    }
}

/// A document that was made has this number on the wire: `{"document":{..},"line":7,"wire":1}`. It is handed back.
pub fn document_text(
    alloc: Global,
    number: u64,
    document: Doc,
    wire: u64,
) -> Result<(Bytes, Doc), NoMemory>
    ensures text { IfOk result (λ r. r.0 ≡ document_answer number document wire) }
    ensures document { IfOk result (λ r. r.1 ≡ document) }
{
    let _shallow = document.node();
    let mut map = NodeMap::new(alloc);
    put_number(alloc, &mut map, "wire", wire)?;
    put_number(alloc, &mut map, "line", number)?;
    put(alloc, &mut map, "document", document.into_node())?;
    let answer = Node::Members(map);
    let text = doc_text(alloc, &answer)?;
    match take_document(answer) {
        Some(node) => Ok((text, Doc::from_shallow(node))),
        None => unreachable!(),
    }
}

/// A message is delivered under its message id, as `{"delivered":{..},"line":8,"message":"0000000000000000"}`.
pub fn delivered_text(
    alloc: Global,
    number: u64,
    message: Message,
    id: Hex64,
) -> Result<Bytes, NoMemory>
    ensures { IfOk result (λ text. text ≡ delivered_answer number (message_view message) id.value) }
{
    let mut map = NodeMap::new(alloc);
    put(
        alloc,
        &mut map,
        "message",
        Node::Words(hex64_text(alloc, id)?),
    )?;
    put_number(alloc, &mut map, "line", number)?;
    put(alloc, &mut map, "delivered", message_node(alloc, message)?)?;
    doc_text(alloc, &Node::Members(map))
}

pub(crate) fn put_id(
    alloc: Global,
    map: &mut NodeMap,
    name: &str,
    id: Hex64,
) -> Result<(), NoMemory>
    ensures { OnOk result (map.new ≡ put_member name.now (words (id_text id.value)) map.old) }
{
    put(alloc, map, name, Node::Words(hex64_text(alloc, id)?))
}

// The intermediary that a report names.
fn put_entry(alloc: Global, map: &mut NodeMap, entry: Option<&Text>) -> Result<(), NoMemory>
    ensures { OnOk result (map.new ≡ with_entry (option_map (λ t. t.now) entry.entry) map.old) }
{
    match entry {
        Some(ipx) => put_text(alloc, map, "entry", ipx.as_str()),
        None => Ok(()),
    }
}

/// A report is read, as
/// `{"context":"00000000000000b1","error":"INTEGRITY_CHECK_FAILED","line":12,"message":"0000000000000000"}`, and with
/// the member `entry` where it names an intermediary.
pub fn reported_text(alloc: Global, number: u64, report: &Report) -> Result<Bytes, NoMemory>
    ensures { IfOk result (λ text. text ≡ answer_text number (spec.Reports (report_view report.now))) }
{
    let mut map = NodeMap::new(alloc);
    put_id(alloc, &mut map, "message", report.message)?;
    put_number(alloc, &mut map, "line", number)?;
    put_text(alloc, &mut map, "error", report.error.name())?;
    put_id(alloc, &mut map, "context", report.context)?;
    put_entry(alloc, &mut map, report.entry.as_ref())?;
    doc_text(alloc, &Node::Members(map))
}

// The report that a refusal is told with.
fn put_report(alloc: Global, map: &mut NodeMap, report: Option<&Doc>) -> Result<(), NoMemory>
    ensures { OnOk result (map.new ≡ with_report (option_map (λ d. d.now) report.entry) map.old) }
{
    match report {
        Some(document) => put(alloc, map, "report", copy_doc(alloc, document.node())?),
        None => Ok(()),
    }
}

fn put_detail(alloc: Global, map: &mut NodeMap, detail: Option<Text>) -> Result<(), NoMemory>
    ensures { OnOk result (map.new ≡ with_detail detail map.old) }
{
    match detail {
        Some(detail) => put(alloc, map, "detail", Node::Words(detail)),
        None => Ok(()),
    }
}

/// The line is refused, as `{"detail":"do","line":7,"name":"EVENT","refused":3}`, and with the member `report` where
/// the refusal has one.
pub fn refusal_text(alloc: Global, number: u64, refusal: &Refusal) -> Result<Bytes, NoMemory>
    ensures { IfOk result (λ text. text ≡ answer_text number (spec.Refuses (refusal_view refusal.now))) }
{
    let mut map = NodeMap::new(alloc);
    put_number(alloc, &mut map, "refused", refusal.number())?;
    put_text(alloc, &mut map, "name", refusal.name())?;
    put_number(alloc, &mut map, "line", number)?;
    put_detail(alloc, &mut map, detail_text(alloc, refusal)?)?;
    put_report(alloc, &mut map, refusal.report())?;
    doc_text(alloc, &Node::Members(map))
}
