// The entries of a document, and the message that they leave.
ghost use Rattle.std.specs.Prelude.{◌≡◌, ◌≤◌, [], Some, IfOk, length, unwrap_or};
ghost use Rattle.spec_documents.specs.Gives.{Gives};
ghost use Rattle.spec_messages.specs.Message as spec;
ghost use Rattle.spec_messages.specs.Block.{clear_message};
ghost use Rattle.spec_messages.specs.Split.{fill_whole};
ghost use Rattle.http_message.specs.Reading.{message_view};
ghost use Rattle.prins_document.specs.View.{entries_of};
ghost use Rattle.context_records.specs.View.{context_view};
ghost use Rattle.entry_checks.specs.Verifiers.{UnderVerifier};
ghost use Rattle.entry_checks.specs.Views as of_entry;
ghost use Rattle.entry_checks.specs.Views.{terms_view};
ghost use Rattle.receiving_sepp.specs.Groups.{changed, changed_in};
ghost use Rattle.receiving_sepp.specs.Refilling.{HasFill, Stands};
ghost use Rattle.receiving_sepp.specs.Refusing.{told};
ghost use Rattle.receiving_sepp.specs.Views.{listed_view, outline_view, rebuilt_view, revealed_view};

use crate::faults::CheckFault;
use crate::laws::entries_keep_fill;
use crate::opened::Outline;
use crate::rebuilding::{Rebuilt, Revealed};
use crate::refused::Refused;
use block_forms::Block;
use context_records::Context;
use entry_checks::{EntriesFault, EntryTerms, apply_entries, route_for};
use http_message::Message;
use message_rebuilding::{RebuildFault, rebuild};
use n32_outside::Verifier;
use n32_values::{Doc, NoMemory, NodeList, base64url_text};
use prins_document::entries;
use spec_messages::blocks::{block_has_one_message, fault_decides};
use std::alloc::Global;

// The message of a block, filled with values that fill it.
fn refill(alloc: Global, block: &Block, values: &NodeList) -> Result<Message, NoMemory>
    requires { HasFill block.now values.now }
    ensures { IfOk result (λ m. (c : spec.Message) → clear_message block.now ≡ Some c → message_view m ≡ fill_whole values.now c) }
{
    match rebuild(alloc, block, values) {
        Ok(message) => Ok(message),
        Err(RebuildFault::NoMemory) => Err(NoMemory),
        Err(_) => unreachable!(),
    }
}

fn of_entries(fault: EntriesFault) -> CheckFault
    ensures { told result ≡ of_entry.told fault }
{
    match fault {
        EntriesFault::Refused(entry) => CheckFault::Refused(Refused::Entry(entry)),
        EntriesFault::NoMemory => CheckFault::NoMemory,
    }
}

// The message that the entries leave of a block.
fn patch<V: Verifier>(
    alloc: Global,
    verifier: &mut V,
    terms: &EntryTerms<'_>,
    rebuilt: Rebuilt,
    list: &NodeList,
) -> Result<Message, CheckFault>
    requires { Stands (rebuilt_view rebuilt) }
    ensures answer { UnderVerifier (V.meaning verifier.old) (V.faults verifier.old) (V.faults verifier.new)
        (λ v. Gives told message_view result (changed (terms_view terms.now (length rebuilt.values)) v (rebuilt_view rebuilt) list.now)) }
    ensures same_meaning { V.meaning verifier.new ≡ V.meaning verifier.old }
    ensures later { V.faults verifier.old ≤ V.faults verifier.new }
{
    fault_decides();
    block_has_one_message();
    entries_keep_fill();
    let values = rebuilt.values;
    match apply_entries(alloc, verifier, terms, rebuilt.block, list) {
        Ok(block) => match refill(alloc, &block, &values) {
            Ok(message) => Ok(message),
            Err(_) => Err(CheckFault::NoMemory),
        },
        Err(fault) => Err(of_entries(fault)),
    }
}

// The message before any entry.
fn content_of(revealed: Revealed) -> Message
    ensures { result ≡ revealed.rebuilt.content }
{
    let Revealed { rebuilt, .. } = revealed;
    let Rebuilt { content, .. } = rebuilt;
    content
}

// The message that these entries leave. Where there is none it stays, and the verifier isn't asked.
fn change_by<'a, V: Verifier>(
    alloc: Global,
    verifier: &mut V,
    context: &'a Context,
    outline: &'a Outline,
    revealed: Revealed,
    list: &NodeList,
) -> Result<Message, CheckFault>
    requires { Stands (rebuilt_view revealed.rebuilt) }
    ensures answer { UnderVerifier (V.meaning verifier.old) (V.faults verifier.old) (V.faults verifier.new)
        (λ v. Gives told message_view result (changed_in (context_view context.now) (listed_view list.now outline.now) (revealed_view revealed) v)) }
    ensures same_meaning { V.meaning verifier.new ≡ V.meaning verifier.old }
    ensures later { V.faults verifier.old ≤ V.faults verifier.new }
    ensures unasked { list.now ≡ [] → verifier.new ≡ verifier.old }
{
    if list.len() == 0 {
        return Ok(content_of(revealed));
    }
    let Ok(tag) = base64url_text(alloc, &outline.tag) else {
        return Err(CheckFault::NoMemory);
    };
    let terms = EntryTerms {
        policy: &context.policy,
        mapping: revealed.mapping,
        tag: &tag,
        route: route_for(&outline.authorized, &context.peer_ipx, &context.own_ipx),
    };
    patch(alloc, verifier, &terms, revealed.rebuilt, list)
}

/// The message that the entries of a document leave, with all its values. Where there is no entry the verifier
/// isn't asked.
pub(crate) fn change<V: Verifier>(
    alloc: Global,
    verifier: &mut V,
    context: &Context,
    outline: &Outline,
    revealed: Revealed,
    document: &Doc,
) -> Result<Message, CheckFault>
    requires { Stands (rebuilt_view revealed.rebuilt) }
    ensures answer { UnderVerifier (V.meaning verifier.old) (V.faults verifier.old) (V.faults verifier.new)
        (λ v. Gives told message_view result (changed_in (context_view context.now) (outline_view document.now outline.now) (revealed_view revealed) v)) }
    ensures same_meaning { V.meaning verifier.new ≡ V.meaning verifier.old }
    ensures later { V.faults verifier.old ≤ V.faults verifier.new }
    ensures unasked { unwrap_or (entries_of document.now) [] ≡ [] → verifier.new ≡ verifier.old }
{
    match entries(document) {
        Some(list) => change_by(alloc, verifier, context, outline, revealed, list),
        None => Ok(content_of(revealed)),
    }
}
