// The initiator's first document.
ghost use Rattle.std.specs.Prelude.{◌≡◌, ◌≤◌, [], ◌∷◌, ◌++◌, true, IsTrue, IsErrOf, IsOk, OnOk, OnErr};
ghost use Rattle.spec_documents.specs.Text.{is_node_name};
ghost use Rattle.spec_records.specs.Records.{Offered};
ghost use Rattle.spec_records.specs.RecordDocument.{are_ipx};
ghost use Rattle.n32_outside.specs.Causes.{Rose};
ghost use Rattle.context_store.specs.Stores.{IsConsistent};
ghost use Rattle.spec_handshake.specs.Starts.{new_start};
ghost use Rattle.spec_handshake.specs.Calls as spec;
ghost use Rattle.n32c_handshake.specs.View.{offer_view};
ghost use Rattle.n32c_handshake.specs.Outcome.{Comes, IsDocument, ChecksOut, IsBegun};

use crate::fault::{CheckFault, HandFault};
use crate::hands::Hands;
use crate::keeping::keep;
use crate::offer::Offer;
use crate::refusal::HandRefusal;
use crate::starts::{Start, Waiting};
use crate::write::supports_doc;
use context_records::Record;
use context_store::{CallFault, Store};
use n32_outside::Keeper;
use n32_values::{Doc, PlmnId, Text};
use std::alloc::Global;

/// A document, and the record that is put before it is handed out.
#[derive(Drop)]
pub(crate) struct Prepared {
    pub(crate) document: Doc,
    pub(crate) item: Record,
}

// The first document and the record of an offer, whose start then waits last, or the check that refuses it.
#[tactic(auto, unfolding(spec_documents::specs::Chain::chains))]
fn begin(
    alloc: Global,
    hands: &mut Hands,
    store: &Store,
    node: &Text,
    peer: &Text,
    offer: Offer,
) -> Result<Prepared, CheckFault>
    requires node { IsTrue (is_node_name node.now) }
    requires offer { IsTrue (are_ipx offer.ipx) }
    ensures checks { ChecksOut (IsBegun node.now offer.id.value) store.now.records (spec.begins store.now.records node.now (offer_view offer)) result }
    ensures waits { OnOk result (hands.new ≡ hands.old ++ new_start node.now peer.now (offer_view offer) ∷ []) }
    ensures as_before { OnErr result (hands.new ≡ hands.old) }
{
    if store.used(node, offer.id) {
        return Err(CheckFault::Refused(HandRefusal::ContextUsed));
    }
    let document = supports_doc(alloc, offer.id, node, &offer.capabilities)?;
    let item = Record::Offered {
        node: node.copy(alloc)?,
        id: offer.id,
    };
    let start = Start {
        node: node.copy(alloc)?,
        peer: peer.copy(alloc)?,
        offer,
        waiting: Waiting::ForChoice,
    };
    hands.push(start)?;
    Ok(Prepared { document, item })
}

/// Starts a handshake with a peer under an offer, and answers the first document (TS 29.573 clause 5.2.2 in
/// outline). The start then waits, the last in the list, for the peer's choice of a capability. Node and peer are
/// names of nodes, and the offer has at most one intermediary.
///
/// A stale store is read first. `ContextUsed` comes where the node has used the offer's id, and `Limit` behind it.
/// `Keeper` comes only where the keeper failed, and the store was stale or every other check held: the offer's
/// record may then be held or not. `Journal` comes only where a stale store is read. After any refusal the starts
/// are as before, and after any but `Keeper` nothing more is held.
pub fn start<K: Keeper>(
    alloc: Global,
    hands: &mut Hands,
    store: &mut Store,
    keeper: &mut K,
    node: &Text,
    _plmn: &PlmnId,
    peer: &Text,
    offer: Offer,
) -> Result<Doc, HandFault>
    requires consistent { IsConsistent (K.held keeper.old) store.old }
    requires node { IsTrue (is_node_name node.now) }
    requires peer { IsTrue (is_node_name peer.now) }
    requires offer { IsTrue (are_ipx offer.ipx) }
    ensures starts { Comes IsDocument (λ f records. spec.start f records node.now (offer_view offer)) (K.held keeper.old) (K.held keeper.new) store.old store.new result }
    ensures waits { OnOk result (hands.new ≡ hands.old ++ new_start node.now peer.now (offer_view offer) ∷ []) }
    ensures as_before { OnErr result (hands.new ≡ hands.old) }
    ensures consistent { IsConsistent (K.held keeper.new) store.new }
    ensures later { K.faults keeper.old ≤ K.faults keeper.new }
    ensures failed { IsErrOf result CallFault.Keeper → Rose (K.faults keeper.old) (K.faults keeper.new) }
    ensures last { IsErrOf result CallFault.Keeper → store.old.fresh ≡ true → IsOk (spec.begins store.old.records node.now (offer_view offer)) }
{
    store.refresh(alloc, keeper)?;
    let count = hands.len();
    let Prepared { document, item } = begin(alloc, hands, store, node, peer, offer)?;
    match keep(alloc, store, keeper, item) {
        Ok(()) => Ok(document),
        Err(fault) => {
            hands.truncate(count);
            Err(fault)
        }
    }
}
