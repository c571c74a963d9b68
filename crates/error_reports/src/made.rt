//! The report of a refusal.

ghost use Rattle.std.specs.Prelude.{◌≡◌, [], ◌∷◌, IfOk, codes, option_map};
ghost use Rattle.spec_documents.specs.Ids.{id_text};
ghost use Rattle.spec_documents.specs.Tree.{items, trees, object, words};
ghost use Rattle.spec_reports.specs.Report as spec;
ghost use Rattle.spec_reports.specs.Document.{failure_tree, report_tree, type_text};
ghost use Rattle.n32_values.specs.View.{tree_of};
ghost use Rattle.error_reports.specs.View.{type_view};

use crate::error_type::ErrorType;
use doc_forms::{put, put_text};
use n32_values::{Doc, Hex64, NoMemory, Node, NodeList, NodeMap, Text, hex64_text};
use spec_reports::reports::written_report_is_read;
use std::alloc::Global;

/// Why a message was refused, as far as its report tells it.
#[derive(Drop)]
pub struct ReportCause {
    /// The number of the refusal.
    pub number: u16,
    /// The identity of the intermediary whose entry was refused, where it is known. Only the refusals 29 to 32 tell it.
    pub entry: Option<Text>,
}

impl ReportCause {
    // The intermediary that the report names.
    fn told_entry(&self) -> Option<&Text>
        ensures { option_map (λ t. t.now) result ≡ spec.told_entry self.now.number self.now.entry }
    {
        if 29 <= self.number && self.number <= 32 {
            self.entry.as_ref()
        } else {
            None
        }
    }
}

fn id_node(alloc: Global, id: Hex64) -> Result<Node, NoMemory>
    ensures { IfOk result (λ n. tree_of n ≡ words (id_text id.value)) }
{
    Ok(Node::Words(hex64_text(alloc, id)?))
}

// The failure of an intermediary.
fn failure_node(alloc: Global, error: ErrorType, ipx: &Text) -> Result<Node, NoMemory>
    ensures { IfOk result (λ n. tree_of n ≡ failure_tree (type_view error) ipx.now) }
{
    let mut map = NodeMap::new(alloc);
    put_text(alloc, &mut map, "n32fErrorType", error.name())?;
    put_text(alloc, &mut map, "ipxId", ipx.as_str())?;
    Ok(Node::Members(map))
}

// The list of one failure.
fn failures_node(alloc: Global, error: ErrorType, ipx: &Text) -> Result<Node, NoMemory>
    ensures { IfOk result (λ n. tree_of n ≡ items (trees (failure_tree (type_view error) ipx.now ∷ []))) }
{
    let mut list = NodeList::new(alloc);
    list.push(failure_node(alloc, error, ipx)?)?;
    Ok(Node::Items(list))
}

// The members that each report has.
fn common_members(
    alloc: Global,
    error: ErrorType,
    context: Hex64,
    message: Hex64,
) -> Result<NodeMap, NoMemory>
    ensures { IfOk result (λ m. m ≡ object ((codes "n32fContextId", words (id_text context.value)) ∷ (codes "n32fErrorType", words (type_text (type_view error))) ∷ (codes "n32fMessageId", words (id_text message.value)) ∷ [])) }
{
    let mut map = NodeMap::new(alloc);
    put(alloc, &mut map, "n32fMessageId", id_node(alloc, message)?)?;
    put_text(alloc, &mut map, "n32fErrorType", error.name())?;
    put(alloc, &mut map, "n32fContextId", id_node(alloc, context)?)?;
    Ok(map)
}

// The document of a report.
fn report_doc(
    alloc: Global,
    error: ErrorType,
    entry: Option<&Text>,
    context: Hex64,
    message: Hex64,
) -> Result<Doc, NoMemory>
    ensures { IfOk result (λ d. d ≡ report_tree (record { context = context.value; message = message.value; error = type_view error; entry = option_map (λ t. t.now) entry.entry })) }
{
    written_report_is_read();
    let mut map = common_members(alloc, error, context, message)?;
    if let Some(ipx) = entry {
        let failures = failures_node(alloc, error, ipx)?;
        put(alloc, &mut map, "failedModificationList", failures)?;
    }
    Ok(Doc::from_shallow(Node::Members(map)))
}

/// The document that reports a refusal to the sender of the message, or `None` exactly for a number that has no report.
/// `context` and `message` are the ids of the message's metadata. `failedModificationList` is there exactly for a number
/// from 29 to 32 with an `entry`.
///
/// # Errors
/// `NoMemory` where memory was refused.
pub fn report_of(
    alloc: Global,
    cause: &ReportCause,
    context: Hex64,
    message: Hex64,
) -> Result<Option<Doc>, NoMemory>
    ensures { IfOk result (λ o. o ≡ option_map report_tree (spec.report_for cause.now.number cause.now.entry context.value message.value)) }
{
    match ErrorType::of_refusal(cause.number) {
        Some(error) => {
            let doc = report_doc(alloc, error, cause.told_entry(), context, message)?;
            Ok(Some(doc))
        }
        None => Ok(None),
    }
}
