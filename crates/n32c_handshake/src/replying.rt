// The responder's reply.
ghost use Rattle.std.specs.Prelude.{◌≡◌, ◌≤◌, ℕ, List, map, true, IfOk, IsTrue, IsErrOf, IsOk};
ghost use Rattle.spec_documents.specs.Text.{is_node_name};
ghost use Rattle.spec_records.specs.RecordDocument.{are_ipx};
ghost use Rattle.n32_outside.specs.Causes.{Rose};
ghost use Rattle.n32_values.specs.View.{tree_of};
ghost use Rattle.context_store.specs.Stores.{IsConsistent};
ghost use Rattle.spec_handshake.specs.Documents as documents;
ghost use Rattle.spec_handshake.specs.Calls as spec;
ghost use Rattle.n32c_handshake.specs.View.{capability_view, ask_view, offer_view};
ghost use Rattle.n32c_handshake.specs.Replies.{IsReplied, RepliesOut, HasNames};
ghost use Rattle.spec_handshake.specs.Forms.{IsNamed};
ghost use Rattle.n32c_handshake.specs.Outcome.{Comes};

use crate::capability::{CapabilityList, chosen};
use crate::document::{Ask, HandDocument};
use crate::fault::{CheckFault, HandFault};
use crate::keeping::keep_opened;
use crate::offer::Offer;
use crate::policies::agree;
use crate::read::read_document;
use crate::refusal::HandRefusal;
use crate::suites::common_suite;
use crate::write::{chooses_doc, selects_doc};
use context_records::Context;
use context_store::{CallFault, Store};
use n32_outside::Keeper;
use n32_values::{Doc, Hex64, Node, PlmnId, Text};
use std::alloc::Global;

/// What a node replies.
#[derive(Drop)]
pub enum Replied {
    /// The document that chooses a capability.
    Selected { document: Doc },
    /// The document that selects parameters, and the id of the context that opened with them.
    Opened { document: Doc, id: Hex64 },
}

/// A reply before its record is put.
#[derive(Drop)]
pub(crate) enum Reply {
    Chose(Doc),
    Opens { document: Doc, context: Context },
}

#[tactic(auto, unfolding(spec_documents::specs::Chain::chains))]
fn reply_to_capabilities(
    alloc: Global,
    store: &Store,
    node: &Text,
    plmn: &PlmnId,
    offer: &Offer,
    call: Hex64,
    capabilities: &CapabilityList,
) -> Result<Reply, CheckFault>
    ensures checks { (sender : List ℕ) → RepliesOut store.now.records (spec.replies_to store.now.records node.now plmn.now (offer_view offer.now) (documents.Supports call.value sender (map capability_view capabilities.now))) result }
    ensures named { IfOk result HasNames }
{
    let Some(capability) = chosen(capabilities, &offer.capabilities) else {
        return Err(CheckFault::Refused(HandRefusal::NoCommonCapability));
    };
    Ok(Reply::Chose(chooses_doc(alloc, call, node, capability)?))
}

#[tactic(auto, unfolding(spec_documents::specs::Chain::chains))]
fn reply_to_ask(
    alloc: Global,
    store: &Store,
    node: &Text,
    plmn: &PlmnId,
    offer: Offer,
    ask: Ask,
) -> Result<Reply, CheckFault>
    requires node { IsTrue (is_node_name node.now) }
    requires offer { IsTrue (are_ipx offer.ipx) }
    requires ask { IsNamed (documents.Asks (ask_view ask)) }
    ensures checks { RepliesOut store.now.records (spec.replies_to store.now.records node.now plmn.now (offer_view offer) (documents.Asks (ask_view ask))) result }
    ensures named { IfOk result HasNames }
{
    let Some(suite) = common_suite(&ask.suites, &offer.suites) else {
        return Err(CheckFault::Refused(HandRefusal::NoCommonSuite));
    };
    agree(alloc, &offer.policy, &ask.policy)?;
    if store.used(node, offer.id) {
        return Err(CheckFault::Refused(HandRefusal::ContextUsed));
    }
    let document = selects_doc(alloc, node, plmn, &offer, ask.call, suite)?;
    let context = Context {
        node: node.copy(alloc)?,
        id: offer.id,
        peer_node: ask.sender,
        peer: ask.id,
        plmn: ask.plmn,
        suite,
        policy: offer.policy,
        own_ipx: offer.ipx,
        peer_ipx: ask.ipx,
    };
    Ok(Reply::Opens { document, context })
}

// The reply to a document, or the first check that refuses it, but for the limit on records.
#[tactic(auto, unfolding(spec_documents::specs::Chain::chains))]
fn reply_to(
    alloc: Global,
    store: &Store,
    node: &Text,
    plmn: &PlmnId,
    offer: Offer,
    document: &Node,
) -> Result<Reply, CheckFault>
    requires node { IsTrue (is_node_name node.now) }
    requires offer { IsTrue (are_ipx offer.ipx) }
    ensures named { IfOk result HasNames }
    ensures checks { RepliesOut store.now.records (spec.replies store.now.records node.now plmn.now (offer_view offer) (tree_of document.now)) result }
{
    match read_document(alloc, document)? {
        HandDocument::Supports {
            call,
            capabilities,
            ..
        } => reply_to_capabilities(alloc, store, node, plmn, &offer, call, &capabilities),
        HandDocument::Asks(ask) => reply_to_ask(alloc, store, node, plmn, offer, ask),
        _ => Err(CheckFault::Refused(HandRefusal::NotExpected)),
    }
}

/// Answers a peer's document under an offer: its capabilities by the choice of one, and the parameters that it asks
/// for by selected ones, with which a context opens (TS 29.573 clauses 5.2.2 and 5.2.3 in outline). The node is a name
/// of one, and the offer has at most one intermediary.
///
/// A stale store is read first. `Form` names the first member that is missing or has not its form, and `NotExpected`
/// comes for every other document. Then `NoCommonCapability` follows, or `NoCommonSuite`, `PolicyDiffers`,
/// `ContextUsed` and `Limit`, in this order. `Keeper` and `Journal` come as for `start`; `Keeper` of a fresh store
/// comes only for parameters.
pub fn answer<K: Keeper>(
    alloc: Global,
    store: &mut Store,
    keeper: &mut K,
    node: &Text,
    plmn: &PlmnId,
    offer: Offer,
    document: &Doc,
) -> Result<Replied, HandFault>
    requires consistent { IsConsistent (K.held keeper.old) store.old }
    requires node { IsTrue (is_node_name node.now) }
    requires offer { IsTrue (are_ipx offer.ipx) }
    ensures replies { Comes IsReplied (λ f records. spec.answer f records node.now plmn.now (offer_view offer) document.now) (K.held keeper.old) (K.held keeper.new) store.old store.new result }
    ensures consistent { IsConsistent (K.held keeper.new) store.new }
    ensures later { K.faults keeper.old ≤ K.faults keeper.new }
    ensures failed { IsErrOf result CallFault.Keeper → Rose (K.faults keeper.old) (K.faults keeper.new) }
    ensures last { IsErrOf result CallFault.Keeper → store.old.fresh ≡ true → IsOk (spec.replies store.old.records node.now plmn.now (offer_view offer) document.now) }
{
    store.refresh(alloc, keeper)?;
    match reply_to(alloc, store, node, plmn, offer, document.node())? {
        Reply::Chose(document) => Ok(Replied::Selected { document }),
        Reply::Opens { document, context } => {
            let id = context.id;
            keep_opened(alloc, store, keeper, context)?;
            Ok(Replied::Opened { document, id })
        }
    }
}
