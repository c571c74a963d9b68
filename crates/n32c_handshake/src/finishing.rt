// What the initiator makes of a reply.
ghost use Rattle.std.specs.Prelude.{◌≡◌, ◌≤◌, ◌<◌, true, length, IfOk, OnOk, IsTrue, IsErrOf, IsOk};
ghost use Rattle.spec_records.specs.RecordDocument.{is_well_named};
ghost use Rattle.n32_outside.specs.Causes.{Rose};
ghost use Rattle.n32_values.specs.View.{tree_of};
ghost use Rattle.context_store.specs.Stores.{IsConsistent};
ghost use Rattle.spec_handshake.specs.Documents as documents;
ghost use Rattle.spec_handshake.specs.Forms.{IsNamed};
ghost use Rattle.spec_handshake.specs.Calls as spec;
ghost use Rattle.spec_documents.specs.Gives.{Gives};
ghost use Rattle.spec_records.specs.Records.{Opened};
ghost use Rattle.context_records.specs.View.{context_view};
ghost use Rattle.n32c_handshake.specs.Faults.{told};
ghost use Rattle.n32c_handshake.specs.Outcome.{Keeps};
ghost use Rattle.n32c_handshake.specs.View.{capability_view, offer_view, selection_view, start_view};
ghost use Rattle.n32c_handshake.specs.Progress.{Finishes, FinishesOut, Leaves, HasNames, accepted, after_put_starts};

use crate::capability::{Capability, has_capability};
use crate::document::{HandDocument, Selection};
use crate::fault::{CheckFault, HandFault};
use crate::hands::Hands;
use crate::keeping::keep_opened;
use crate::policies::agree;
use crate::read::read_document;
use crate::refusal::HandRefusal;
use crate::starts::{Start, Waiting};
use crate::suites::has_suite;
use crate::write::asks_doc;
use context_records::Context;
use context_store::{CallFault, Store};
use n32_outside::Keeper;
use n32_values::{Doc, Hex64, NoMemory, Node, PlmnId, Text};
use std::alloc::Global;

/// What a reply comes to.
#[derive(Drop)]
pub enum Finished {
    /// The document that asks for parameters.
    Next { document: Doc },
    /// The context of that id has opened.
    Opened { id: Hex64 },
    /// The peer chose TLS, and the handshake is over.
    EndedTls,
}

/// A finish before its record is put.
#[derive(Drop)]
pub(crate) enum Progress {
    Next(Doc),
    EndedTls,
    /// The context opens, and the start at that place has waited for it.
    Opens { at: usize, context: Context },
}

// The start goes on with the capability that its peer chose.
#[tactic(auto, unfolding(spec_documents::specs::Chain::chains))]
fn take_choice(
    alloc: Global,
    hands: &mut Hands,
    store: &Store,
    node: &Text,
    plmn: &PlmnId,
    call: Hex64,
    sender: &Text,
    capability: Capability,
) -> Result<Progress, CheckFault>
    ensures checks { FinishesOut store.now.records (spec.finishes_with store.now.records hands.old node.now plmn.now (documents.Chooses call.value sender.now (capability_view capability))) result }
    ensures leaves { Leaves (spec.waits_for node.now (documents.Chooses call.value sender.now (capability_view capability))) hands.old hands.new result }
    ensures named { IfOk result HasNames }
{
    let Some(at) = hands.first(node, call, sender, Waiting::ForChoice) else {
        return Err(CheckFault::Refused(HandRefusal::NotExpected));
    };
    if !has_capability(&hands.start(at).offer.capabilities, capability) {
        hands.remove(at);
        return Err(CheckFault::Refused(HandRefusal::NoCommonCapability));
    }
    match capability {
        Capability::Prins => {
            let document = asks_doc(alloc, node, plmn, &hands.start(at).offer)?;
            hands.go_on(at);
            Ok(Progress::Next(document))
        }
        Capability::Tls => {
            hands.remove(at);
            Ok(Progress::EndedTls)
        }
    }
}

// Whether the selected suite and policy are those of the offer.
fn accepts(alloc: Global, start: &Start, selection: &Selection) -> Result<(), CheckFault>
    ensures accepted { Gives told (λ u. tt) result (accepted (start_view start.now) (selection_view selection.now)) }
    ensures same { OnOk result (start.now.offer.policy ≡ selection.now.policy) }
{
    if !has_suite(&start.offer.suites, selection.suite) {
        return Err(CheckFault::Refused(HandRefusal::NoCommonSuite));
    }
    agree(alloc, &start.offer.policy, &selection.policy)
}

// The context of a start that its peer selected parameters for. The selected policy is that of the offer.
fn context_of(alloc: Global, start: &Start, selection: Selection) -> Result<Context, NoMemory>
    requires { start.now.offer.policy ≡ selection.policy }
    ensures { IfOk result (λ x. context_view x ≡ spec.context_finishing start.now.node (offer_view start.now.offer) (selection_view selection)) }
{
    Ok(Context {
        node: start.node.copy(alloc)?,
        id: start.offer.id,
        peer_node: selection.sender,
        peer: selection.id,
        plmn: selection.plmn,
        suite: selection.suite,
        policy: selection.policy,
        own_ipx: start.offer.ipx.copy(alloc)?,
        peer_ipx: selection.ipx,
    })
}

// The context of the start that waits for this selection.
#[tactic(auto, unfolding(spec_documents::specs::Chain::chains))]
fn take_selection(
    alloc: Global,
    hands: &mut Hands,
    store: &Store,
    node: &Text,
    plmn: &PlmnId,
    selection: Selection,
) -> Result<Progress, CheckFault>
    requires { IsNamed (documents.Selects (selection_view selection)) }
    ensures checks { FinishesOut store.now.records (spec.finishes_with store.now.records hands.old node.now plmn.now (documents.Selects (selection_view selection))) result }
    ensures leaves { Leaves (spec.waits_for node.now (documents.Selects (selection_view selection))) hands.old hands.new result }
    ensures named { IfOk result HasNames }
{
    let Some(at) = hands.first(
        node,
        selection.call,
        &selection.sender,
        Waiting::ForSelection,
    ) else {
        return Err(CheckFault::Refused(HandRefusal::NotExpected));
    };
    match accepts(alloc, hands.start(at), &selection) {
        Ok(()) => {
            let context = context_of(alloc, hands.start(at), selection)?;
            Ok(Progress::Opens { at, context })
        }
        Err(fault) => match fault {
            CheckFault::NoMemory => Err(CheckFault::NoMemory),
            refusal => {
                hands.remove(at);
                Err(refusal)
            }
        },
    }
}

// What a document comes to, or the first check that refuses it, but for the limit on records.
#[tactic(auto, unfolding(spec_documents::specs::Chain::chains))]
fn take_reply(
    alloc: Global,
    hands: &mut Hands,
    store: &Store,
    node: &Text,
    plmn: &PlmnId,
    document: &Node,
) -> Result<Progress, CheckFault>
    ensures checks { FinishesOut store.now.records (spec.finishes store.now.records hands.old node.now plmn.now (tree_of document.now)) result }
    ensures leaves { Leaves (spec.waits_for_read node.now (documents.document_of (tree_of document.now))) hands.old hands.new result }
    ensures named { IfOk result HasNames }
{
    match read_document(alloc, document)? {
        HandDocument::Chooses {
            call,
            sender,
            capability,
        } => take_choice(alloc, hands, store, node, plmn, call, &sender, capability),
        HandDocument::Selects(selection) => {
            take_selection(alloc, hands, store, node, plmn, selection)
        }
        _ => Err(CheckFault::Refused(HandRefusal::NotExpected)),
    }
}

/// Takes a peer's reply to a start of the node: the choice of PRINS by asking for parameters, that of TLS by the end
/// of the handshake, and selected parameters by opening the context (TS 29.573 clauses 5.2.2 and 5.2.3 in outline).
///
/// A stale store is read first. `Form` names the first member that is missing or has not its form. `NotExpected` comes
/// unless a start of the node with this call waits for this document from this sender; of several the first counts.
/// Then `NoCommonCapability` follows, or `NoCommonSuite`, `PolicyDiffers` and `Limit`, in this order. The start waits
/// no longer after the first three, after the choice of TLS, the opening, and a put that failed. `Keeper` and
/// `Journal` come as for `start`.
pub fn finish<K: Keeper>(
    alloc: Global,
    hands: &mut Hands,
    store: &mut Store,
    keeper: &mut K,
    node: &Text,
    plmn: &PlmnId,
    document: &Doc,
) -> Result<Finished, HandFault>
    requires consistent { IsConsistent (K.held keeper.old) store.old }
    ensures finishes { Finishes (K.held keeper.old) (K.held keeper.new) store.old store.new hands.old hands.new node.now plmn.now document.now result }
    ensures consistent { IsConsistent (K.held keeper.new) store.new }
    ensures later { K.faults keeper.old ≤ K.faults keeper.new }
    ensures failed { IsErrOf result CallFault.Keeper → Rose (K.faults keeper.old) (K.faults keeper.new) }
    ensures last { IsErrOf result CallFault.Keeper → store.old.fresh ≡ true → IsOk (spec.finishes store.old.records hands.old node.now plmn.now document.now) }
{
    store.refresh(alloc, keeper)?;
    match take_reply(alloc, hands, store, node, plmn, document.node())? {
        Progress::Next(document) => Ok(Finished::Next { document }),
        Progress::EndedTls => Ok(Finished::EndedTls),
        Progress::Opens { at, context } => {
            let id = context.id;
            open(alloc, hands, store, keeper, at, context)?;
            Ok(Finished::Opened { id })
        }
    }
}

// Puts the record of a context, whose start then waits no longer, as after a put that failed.
fn open<K: Keeper>(
    alloc: Global,
    hands: &mut Hands,
    store: &mut Store,
    keeper: &mut K,
    at: usize,
    context: Context,
) -> Result<(), HandFault>
    requires consistent { IsConsistent (K.held keeper.old) store.old }
    requires fresh { store.old.fresh ≡ true }
    requires named { IsTrue (is_well_named (Opened (context_view context))) }
    requires place { at < length hands.old }
    ensures keeps { Keeps (K.held keeper.old) (K.held keeper.new) store.old store.new (Opened (context_view context)) result }
    ensures waits { hands.new ≡ after_put_starts at hands.old result }
    ensures consistent { IsConsistent (K.held keeper.new) store.new }
    ensures later { K.faults keeper.old ≤ K.faults keeper.new }
    ensures failed { IsErrOf result CallFault.Keeper → Rose (K.faults keeper.old) (K.faults keeper.new) }
{
    let kept = keep_opened(alloc, store, keeper, context);
    match kept {
        Ok(()) => {
            hands.remove(at);
            Ok(())
        }
        Err(HandFault::Keeper) => {
            hands.remove(at);
            Err(HandFault::Keeper)
        }
        Err(fault) => Err(fault),
    }
}
