// Reports: made of refused deliveries, and read.
ghost use Rattle.std.specs.Prelude.{◌≡◌, [], IfOk, option_map, unwrap_or};
ghost use Rattle.n32_values.specs.View.{tree_of};
ghost use Rattle.prins_document.specs.View.{entries_of};
ghost use Rattle.receiving_sepp.specs.Views.{refused_view};
ghost use Rattle.spec_exchange.specs.AcceptRefusals.{telling};
ghost use Rattle.spec_script.specs.Events.{Reported};
ghost use Rattle.spec_script.specs.Reports as reports;
ghost use Rattle.replay_world.specs.Outsiders.{unasked};
ghost use Rattle.replay_world.specs.Worlds.{IsShallow, IsSound};
ghost use Rattle.replay_world.specs.Handling.{HandlesAlone};

use crate::sites::is_known;
use crate::world::World;
use error_reports::{ReportCause, ReportRead, read_report, report_of};
use jws_flat::{JwsRead, read_entry, read_jws};
use n32_values::{Bytes, Doc, NoMemory, Node, Text};
use prins_document::{WireRead, entries, read_wire_doc};
use receiving_sepp::Refused;
use script_lines::{Refusal, Unanswered, reported_text};
use std::alloc::Global;

// Whose an entry is, where it has the form of one.
#[tactic(auto, unfolding(spec_documents::specs::Chain::chains))]
fn identity_of(alloc: Global, node: &Node) -> Result<Option<Text>, NoMemory>
    ensures { IfOk result (λ o. o ≡ reports.identity_of (tree_of node.now)) }
{
    let jws = match read_jws(alloc, node) {
        Ok(jws) => jws,
        Err(JwsRead::Form(_)) => return Ok(None),
        Err(JwsRead::NoMemory) => return Err(NoMemory),
    };
    match read_entry(alloc, &jws) {
        Ok(entry) => Ok(Some(entry.identity)),
        Err(JwsRead::Form(_)) => Ok(None),
        Err(JwsRead::NoMemory) => Err(NoMemory),
    }
}

// The entry of a number, from 1.
fn entry_at(document: &Doc, number: u64) -> Option<&Node>
    ensures { option_map (λ n. tree_of n.now) result ≡ reports.entry_at (unwrap_or (entries_of document.now) []) number }
{
    let list = match entries(document) {
        Some(list) => list,
        None => return None,
    };
    if number < 1 {
        return None;
    }
    list.get((number - 1) as usize)
}

// The intermediary whose entry is refused.
fn refused_identity(
    alloc: Global,
    document: &Doc,
    refused: &Refused,
) -> Result<Option<Text>, NoMemory>
    ensures { IfOk result (λ o. o ≡ reports.refused_identity (unwrap_or (entries_of document.now) []) (refused_view refused.now)) }
{
    match refused {
        Refused::Entry(entry) => match entry_at(document, entry.entry) {
            Some(node) => identity_of(alloc, node),
            None => Ok(None),
        },
        _ => Ok(None),
    }
}

#[tactic(auto, using(crate::proofs::ReportNumbers::number_fits))]
fn cause_of(alloc: Global, document: &Doc, refused: &Refused) -> Result<ReportCause, NoMemory>
    ensures number { IfOk result (λ c. c.number ≡ (telling (refused_view refused.now)).number) }
    ensures entry { IfOk result (λ c. c.entry ≡ reports.refused_identity (unwrap_or (entries_of document.now) []) (refused_view refused.now)) }
{
    let entry = refused_identity(alloc, document, refused)?;
    Ok(ReportCause {
        number: refused.number() as u16,
        entry,
    })
}

/// The document that reports a refusal of a document, where there is one.
pub(crate) fn report_on(
    alloc: Global,
    document: &Doc,
    refused: &Refused,
) -> Result<Option<Doc>, NoMemory>
    ensures { IfOk result (λ o. o ≡ reports.report_on document.now (refused_view refused.now)) }
{
    let cause = cause_of(alloc, document, refused)?;
    match read_wire_doc(alloc, document) {
        Ok(parts) => report_of(alloc, &cause, parts.context, parts.message),
        Err(WireRead::Form(_)) => Ok(None),
        Err(WireRead::NoMemory) => Err(NoMemory),
    }
}

/// A report of its peer reaches a node.
pub(crate) fn reported(
    alloc: Global,
    world: &mut World,
    number: u64,
    node: &Text,
    document: Node,
) -> Result<Bytes, Unanswered>
    requires sound { IsSound world.old }
    requires shallow { IsShallow (tree_of document) }
    ensures { HandlesAlone (unasked (Reported node.now (tree_of document))) world.old world.new number result }
{
    if !is_known(&world.sites, node) {
        return Err(Unanswered::Refused(Refusal::NodeUnknown));
    }
    match read_report(alloc, &Doc::from_shallow(document)) {
        Ok(report) => match reported_text(alloc, number, &report) {
            Ok(text) => Ok(text),
            Err(_) => Err(Unanswered::NoMemory),
        },
        Err(ReportRead::Form) => Err(Unanswered::Refused(Refusal::Report)),
        Err(ReportRead::NoMemory) => Err(Unanswered::NoMemory),
    }
}
