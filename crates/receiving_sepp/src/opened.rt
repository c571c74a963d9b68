// A document that passed every check before those of its entries.
ghost use Rattle.std.specs.Prelude.{IfOk, IsTrue};
ghost use Rattle.spec_documents.specs.Gives.{Gives};
ghost use Rattle.spec_documents.specs.Text.{is_node_name};
ghost use Rattle.receiving_sepp.specs.Groups.{opened};
ghost use Rattle.receiving_sepp.specs.Refilling.{Stands};
ghost use Rattle.receiving_sepp.specs.Refusing.{told};
ghost use Rattle.receiving_sepp.specs.Views.{opened_view, rebuilt_view};

use crate::faults::CheckFault;
use crate::opening::unseal;
use crate::rebuilding::{Revealed, reveal};
use crate::received::read_received;
use context_records::Context;
use context_store::Store;
use http_message::Kind;
use n32_values::{Doc, Hex64, Text};
use std::alloc::Global;

// What a document says beside its block, its seal and its entries.
#[derive(Drop)]
pub(crate) struct Outline {
    pub(crate) tag: [u8; 16],
    pub(crate) authorized: Text,
    pub(crate) context: Hex64,
    pub(crate) kind: Kind,
    pub(crate) message: Hex64,
}

// A document, the context under which it was sealed, and its message before any entry.
#[derive(Drop)]
pub(crate) struct Opened<'a> {
    pub(crate) context: &'a Context,
    pub(crate) outline: Outline,
    pub(crate) revealed: Revealed,
}

/// A document of the form, opened under its context at the node, whose message has in clear nothing that the
/// policy makes secret.
#[tactic(auto, unfolding(spec_documents::specs::Chain::chains))]
pub(crate) fn open_document<'a>(
    alloc: Global,
    store: &'a Store,
    node: &Text,
    document: &Doc,
) -> Result<Opened<'a>, CheckFault>
    ensures opened { Gives told (opened_view document.now) result (opened store.now.records node.now document.now) }
    ensures stands { IfOk result (λ o. Stands (rebuilt_view o.revealed.rebuilt)) }
    ensures named { IfOk result (λ _. IsTrue (is_node_name node.now)) }
{
    let received = read_received(alloc, document)?;
    let unsealed = unseal(alloc, store, node, &received)?;
    let policy = &unsealed.context.policy;
    let plain = unsealed.plain.as_slice();
    let revealed = reveal(alloc, policy, unsealed.by, received.block, plain)?;
    Ok(Opened {
        context: unsealed.context,
        outline: Outline {
            tag: received.jwe.tag,
            authorized: received.authorized,
            context: received.context,
            kind: received.kind,
            message: received.message,
        },
        revealed,
    })
}
