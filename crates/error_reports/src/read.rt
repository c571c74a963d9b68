//! A peer's report is read.

ghost use Rattle.std.specs.Prelude.{◌≡◌, option_map};
ghost use Rattle.spec_documents.specs.Gives.{Gives};
ghost use Rattle.spec_reports.specs.Document as spec;
ghost use Rattle.n32_values.specs.View.{tree_of};
ghost use Rattle.error_reports.specs.View.{form_told, report_view, type_view};

use crate::error_type::ErrorType;
use crate::report::Report;
use doc_forms::{Grammar, text_at};
use n32_values::{Doc, Hex64, NoMemory, Node, NodeList, NodeMap, Text, read_hex64};
use std::alloc::Global;

/// Why a report isn't read.
#[derive(Clone, Copy, Debug, PartialEq, Eq, Drop)]
pub enum ReportRead {
    /// The document is of no report.
    Form,
    /// Memory was refused.
    NoMemory,
}

impl From<NoMemory> for ReportRead {
    ghost use Rattle.std.specs.Prelude.{◌≡◌};
    ghost use Rattle.error_reports.specs.declared.read.ReportRead.TheVariants.{NoMemory as refused_memory};

    ghost from_gives = { λ _ e. e ≡ refused_memory };

    fn from(_refused: NoMemory) -> ReportRead {
        ReportRead::NoMemory
    }
}

fn read_id(node: Option<&Node>) -> Result<Hex64, ReportRead>
    ensures { Gives form_told (λ id. id.value) result (spec.id_in (option_map (λ n. tree_of n.now) node.entry)) }
{
    if let Some(Node::Words(text)) = node {
        if let Some(id) = read_hex64(text.as_str()) {
            return Ok(id);
        }
    }
    Err(ReportRead::Form)
}

fn read_type(node: Option<&Node>) -> Result<ErrorType, ReportRead>
    ensures { Gives form_told type_view result (spec.type_in (option_map (λ n. tree_of n.now) node.entry)) }
{
    if let Some(Node::Words(text)) = node {
        if let Some(error) = ErrorType::named(text.as_str()) {
            return Ok(error);
        }
    }
    Err(ReportRead::Form)
}

// The intermediary of a failure. Its type may be another than the report's.
fn read_failure_members(alloc: Global, map: &NodeMap) -> Result<Text, ReportRead>
    ensures { Gives form_told (λ t. t) result (spec.failure_with map.now) }
{
    let Some(ipx) = text_at(map, "ipxId", Grammar::Identity) else {
        return Err(ReportRead::Form);
    };
    let _error = read_type(map.get("n32fErrorType"))?;
    Ok(Text::from_text(alloc, ipx)?)
}

fn read_failure(alloc: Global, node: &Node) -> Result<Text, ReportRead>
    ensures { Gives form_told (λ t. t) result (spec.failure_in (tree_of node.now)) }
{
    match node {
        Node::Members(map) => read_failure_members(alloc, map),
        _ => Err(ReportRead::Form),
    }
}

// The intermediary of a list of one failure.
fn read_failures(alloc: Global, list: &NodeList) -> Result<Text, ReportRead>
    ensures { Gives form_told (λ t. t) result (spec.one_failure list.now) }
{
    if list.len() != 1 {
        return Err(ReportRead::Form);
    }
    read_failure(alloc, list.item(0))
}

// The intermediary that a report names. The list may be absent.
#[tactic(auto, using(spec_documents::proofs::FieldLemmas::views))]
fn read_entry(alloc: Global, node: Option<&Node>) -> Result<Option<Text>, ReportRead>
    ensures { Gives form_told (λ o. o) result (spec.entry_in (option_map (λ n. tree_of n.now) node.entry)) }
{
    match node {
        None => Ok(None),
        Some(Node::Items(list)) => {
            let ipx = read_failures(alloc, list)?;
            Ok(Some(ipx))
        }
        Some(_) => Err(ReportRead::Form),
    }
}

fn read_members(alloc: Global, map: &NodeMap) -> Result<Report, ReportRead>
    ensures { Gives form_told report_view result (spec.report_with map.now) }
{
    let entry = read_entry(alloc, map.get("failedModificationList"))?;
    let context = read_id(map.get("n32fContextId"))?;
    let error = read_type(map.get("n32fErrorType"))?;
    let message = read_id(map.get("n32fMessageId"))?;
    Ok(Report {
        context,
        message,
        error,
        entry,
    })
}

/// Reads a report: `{"n32fContextId":ID,"n32fErrorType":TYPE,"n32fMessageId":ID}` with a type of `ErrorType`, and
/// optionally `failedModificationList`, a list of one `{"ipxId":IDENTITY,"n32fErrorType":TYPE}`. Other members are
/// ignored.
///
/// # Errors
/// `Form` exactly where the document is of no report.
pub fn read_report(alloc: Global, doc: &Doc) -> Result<Report, ReportRead>
    ensures { Gives form_told report_view result (spec.report_in doc.now) }
{
    match doc.node() {
        Node::Members(map) => read_members(alloc, map),
        _ => Err(ReportRead::Form),
    }
}
