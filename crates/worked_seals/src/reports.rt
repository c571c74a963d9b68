// The calls of `error_reports`. A refusal is its `number` and the intermediary `ipx` whose entry was refused, if any;
// `context` and `message` are the ids of the message.
use error_reports::{Report, ReportCause, ReportRead, read_report, report_of};
use n32_values::{Doc, Hex64, Node, NodeMap, copy_doc, read_hex64};
use std::alloc::Global;
use worked_rows::{Args, Given, fault_node, id_node, map_node, put_part, text_node};

fn cause_of(alloc: Global, number: u16, given: &Given) -> Option<ReportCause> {
    match &given.ipx {
        Some(ipx) => match ipx.copy(alloc) {
            Ok(ipx) => Some(ReportCause {
                number,
                entry: Some(ipx),
            }),
            Err(_) => None,
        },
        None => Some(ReportCause {
            number,
            entry: None,
        }),
    }
}

fn cause_in(alloc: Global, args: Args<'_>, given: &Given) -> Option<ReportCause> {
    let number = u16::try_from(args.number("number")?).ok()?;
    cause_of(alloc, number, given)
}

fn made(alloc: Global, cause: ReportCause, context: Hex64, message: Hex64) -> Option<Option<Doc>> {
    report_of(alloc, &cause, context, message).ok()
}

// The report of a row's refusal, which may have none.
fn made_in(alloc: Global, args: Args<'_>, given: &Given) -> Option<Option<Doc>> {
    let context = read_hex64(args.text("context")?)?;
    let message = read_hex64(args.text("message")?)?;
    match cause_in(alloc, args, given) {
        Some(cause) => made(alloc, cause, context, message),
        None => None,
    }
}

/// The document of the report, or null where the refusal has none.
pub fn report_of_call(alloc: Global, args: Args<'_>, given: &Given) -> Option<Node> {
    match made_in(alloc, args, given) {
        Some(Some(doc)) => Some(doc.into_node()),
        Some(None) => Some(Node::Null),
        None => None,
    }
}

fn put_entry(alloc: Global, map: &mut NodeMap, report: &Report) -> Option<()> {
    match &report.entry {
        Some(ipx) => put_part(alloc, map, "entry", text_node(alloc, ipx.as_str())),
        None => Some(()),
    }
}

fn put_report(alloc: Global, map: &mut NodeMap, report: &Report) -> Option<()> {
    put_part(alloc, map, "context", id_node(alloc, report.context))?;
    put_part(alloc, map, "message", id_node(alloc, report.message))?;
    put_part(alloc, map, "error", text_node(alloc, report.error.name()))?;
    put_entry(alloc, map, report)
}

fn report_node(alloc: Global, report: Report) -> Option<Node> {
    let mut map = NodeMap::new(alloc);
    let done = put_report(alloc, &mut map, &report);
    map_node(map, done)
}

fn read_node(alloc: Global, doc: Doc) -> Option<Node> {
    match read_report(alloc, &doc) {
        Ok(report) => report_node(alloc, report),
        Err(ReportRead::Form) => fault_node(alloc, "FORM"),
        Err(ReportRead::NoMemory) => None,
    }
}

/// The ids, the type and the intermediary, where there is one, of the report `document`.
pub fn read_report_call(alloc: Global, args: Args<'_>) -> Option<Node> {
    match copy_doc(alloc, args.document("document")?) {
        Ok(node) => read_node(alloc, Doc::new(node).ok()?),
        Err(_) => None,
    }
}

/// The same of the report that is made of a refusal, or null where it has none.
pub fn report_back_call(alloc: Global, args: Args<'_>, given: &Given) -> Option<Node> {
    match made_in(alloc, args, given) {
        Some(Some(doc)) => read_node(alloc, doc),
        Some(None) => Some(Node::Null),
        None => None,
    }
}
