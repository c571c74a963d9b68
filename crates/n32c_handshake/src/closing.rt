// A context ends at both sides.
ghost use Rattle.std.specs.Prelude.{◌≡◌, ◌≤◌, true, IsErrOf, IsOk};
ghost use Rattle.n32_outside.specs.Causes.{Rose};
ghost use Rattle.n32_values.specs.View.{tree_of};
ghost use Rattle.context_store.specs.Stores.{IsConsistent};
ghost use Rattle.spec_handshake.specs.Documents as documents;
ghost use Rattle.spec_handshake.specs.Calls as spec;
ghost use Rattle.n32c_handshake.specs.Outcome.{Comes, IsClosing, ChecksOut, IsClosed};

use crate::document::HandDocument;
use crate::fault::{CheckFault, HandFault};
use crate::keeping::keep;
use crate::read::read_document;
use crate::refusal::HandRefusal;
use crate::starting::Prepared;
use crate::write::{terminated_doc, terminates_doc};
use context_records::Record;
use context_store::{CallFault, Store};
use n32_outside::Keeper;
use n32_values::{Doc, Hex64, Node, Text};
use std::alloc::Global;

// The document for the peer and the record of a context that the node ends.
#[tactic(auto, unfolding(spec_documents::specs::Chain::chains))]
fn closes(alloc: Global, store: &Store, node: &Text, id: Hex64) -> Result<Prepared, CheckFault>
    ensures { ChecksOut (IsClosed node.now) store.now.records (spec.closes store.now.records node.now id.value documents.Terminates) result }
{
    let Some(context) = store.context(node, id) else {
        return Err(CheckFault::Refused(HandRefusal::ContextNotFound));
    };
    let document = terminates_doc(alloc, context.peer)?;
    let item = Record::Closed {
        node: node.copy(alloc)?,
        id,
    };
    Ok(Prepared { document, item })
}

// The same of a context that the peer ended.
#[tactic(auto, unfolding(spec_documents::specs::Chain::chains))]
fn closes_after(
    alloc: Global,
    store: &Store,
    node: &Text,
    id: Hex64,
) -> Result<Prepared, CheckFault>
    ensures { ChecksOut (IsClosed node.now) store.now.records (spec.closes store.now.records node.now id.value documents.Terminated) result }
{
    let Some(context) = store.context(node, id) else {
        return Err(CheckFault::Refused(HandRefusal::ContextNotFound));
    };
    let document = terminated_doc(alloc, context.peer)?;
    let item = Record::Closed {
        node: node.copy(alloc)?,
        id,
    };
    Ok(Prepared { document, item })
}

#[tactic(auto, unfolding(spec_documents::specs::Chain::chains))]
fn closes_by(
    alloc: Global,
    store: &Store,
    node: &Text,
    document: &Node,
) -> Result<Prepared, CheckFault>
    ensures { ChecksOut (IsClosed node.now) store.now.records (spec.closes_by store.now.records node.now (tree_of document.now)) result }
{
    match read_document(alloc, document)? {
        HandDocument::Terminates(id) => closes_after(alloc, store, node, id),
        _ => Err(CheckFault::Refused(HandRefusal::NotExpected)),
    }
}

/// Ends the context of that id at the node, and answers the document that tells its peer (TS 29.573 clause 5.2.4 in
/// outline).
///
/// A stale store is read first. `ContextNotFound` comes where the node has no open context of that id, and `Limit`
/// behind it. `Keeper` and `Journal` come as for `start`.
pub fn terminate<K: Keeper>(
    alloc: Global,
    store: &mut Store,
    keeper: &mut K,
    node: &Text,
    id: Hex64,
) -> Result<Doc, HandFault>
    requires consistent { IsConsistent (K.held keeper.old) store.old }
    ensures terminates { Comes IsClosing (λ f records. spec.terminate f records node.now id.value) (K.held keeper.old) (K.held keeper.new) store.old store.new result }
    ensures consistent { IsConsistent (K.held keeper.new) store.new }
    ensures later { K.faults keeper.old ≤ K.faults keeper.new }
    ensures failed { IsErrOf result CallFault.Keeper → Rose (K.faults keeper.old) (K.faults keeper.new) }
    ensures last { IsErrOf result CallFault.Keeper → store.old.fresh ≡ true → IsOk (spec.closes store.old.records node.now id.value documents.Terminates) }
{
    store.refresh(alloc, keeper)?;
    let Prepared { document, item } = closes(alloc, store, node, id)?;
    keep(alloc, store, keeper, item)?;
    Ok(document)
}

/// Ends the context that a peer's document ends, and answers the document that says so.
///
/// A stale store is read first. `Form` names the first member that is missing or has not its form, `NotExpected`
/// comes for every other document of the handshake, and then the refusals of `terminate` follow.
pub fn ended<K: Keeper>(
    alloc: Global,
    store: &mut Store,
    keeper: &mut K,
    node: &Text,
    document: &Doc,
) -> Result<Doc, HandFault>
    requires consistent { IsConsistent (K.held keeper.old) store.old }
    ensures ends { Comes IsClosing (λ f records. spec.ended f records node.now document.now) (K.held keeper.old) (K.held keeper.new) store.old store.new result }
    ensures consistent { IsConsistent (K.held keeper.new) store.new }
    ensures later { K.faults keeper.old ≤ K.faults keeper.new }
    ensures failed { IsErrOf result CallFault.Keeper → Rose (K.faults keeper.old) (K.faults keeper.new) }
    ensures last { IsErrOf result CallFault.Keeper → store.old.fresh ≡ true → IsOk (spec.closes_by store.old.records node.now document.now) }
{
    store.refresh(alloc, keeper)?;
    let Prepared {
        document: reply,
        item,
    } = closes_by(alloc, store, node, document.node())?;
    keep(alloc, store, keeper, item)?;
    Ok(reply)
}
