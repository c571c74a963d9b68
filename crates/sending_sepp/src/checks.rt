// The checks of a message that is to be sent, in their order.
ghost use Rattle.std.specs.Prelude.{◌≤◌, IfOk, IsTrue, OnOk};
ghost use Rattle.spec_documents.specs.Gives.{Gives};
ghost use Rattle.spec_documents.specs.Text.{is_node_name};
ghost use Rattle.spec_messages.specs.Message.{is_whole, body_depth, wanted};
ghost use Rattle.spec_records.specs.Records as spec;
ghost use Rattle.spec_records.specs.RecordDocument.{are_ipx};
ghost use Rattle.http_message.specs.Reading.{kind_view, message_view};
ghost use Rattle.context_records.specs.View.{context_view, key_set_view};
ghost use Rattle.spec_exchange.specs.SendingRefusals as refusals;
ghost use Rattle.sending_sepp.specs.Outgoings.{outgoing_view};
ghost use Rattle.sending_sepp.specs.Sending.{told};
ghost use Rattle.sending_sepp.specs.Outcome.{ChecksOut};

use crate::fault::{CheckFault, SendFault};
use crate::mapping::mapping_to_send;
use crate::outgoing::Outgoing;
use crate::sealing::sent_document;
use context_records::{Context, KeySet};
use context_store::Store;
use http_message::{Kind, Message};
use n32_values::{Doc, Hex64, Text};
use spec_records::records::keys_fit_suite;
use std::alloc::Global;

/// A sealed message, and what its record says.
#[derive(Drop)]
pub(crate) struct Checked {
    pub(crate) document: Doc,
    pub(crate) outgoing: Outgoing,
    pub(crate) seq: u32,
    pub(crate) mapping: Option<u32>,
}

fn context_of<'a>(store: &'a Store, node: &Text, id: Hex64) -> Result<&'a Context, CheckFault>
    ensures value { Gives told (λ x. context_view x.now) result (wanted (spec.open_context node.now id.value store.now.records) refusals.ContextNotFound) }
    ensures node { OnOk result (IsTrue (is_node_name node.now)) }
    ensures own_ipx { IfOk result (λ x. IsTrue (are_ipx (context_view x.now).own_ipx)) }
{
    match store.context(node, id) {
        Some(context) => Ok(context),
        None => Err(CheckFault::Refused(SendFault::ContextNotFound)),
    }
}

fn keys_of<'a>(store: &'a Store, node: &Text, id: Hex64) -> Result<&'a KeySet, CheckFault>
    ensures { Gives told (λ k. key_set_view k.now) result (wanted (spec.keys node.now id.value store.now.records) refusals.NoKeys) }
{
    match store.keys(node, id) {
        Some(keys) => Ok(keys),
        None => Err(CheckFault::Refused(SendFault::NoKeys)),
    }
}

fn next_number(store: &Store, node: &Text, id: Hex64, kind: Kind) -> Result<u32, CheckFault>
    ensures { Gives told (λ n. n) result (wanted (spec.next_seq node.now id.value (kind_view kind) store.now.records) refusals.SeqSpent) }
{
    match store.next_seq(node, id, kind) {
        Some(seq) => Ok(seq),
        None => Err(CheckFault::Refused(SendFault::SeqSpent)),
    }
}

/// The sealed message, or the first check that refuses it, but for the limit on records.
#[tactic(auto, unfolding(spec_documents::specs::Chain::chains))]
pub(crate) fn check(
    alloc: Global,
    store: &Store,
    node: &Text,
    id: Hex64,
    outgoing: Outgoing,
    message: &Message,
) -> Result<Checked, CheckFault>
    requires whole { IsTrue (is_whole (message_view message.now)) }
    requires shallow { body_depth (message_view message.now).body ≤ 64 }
    ensures checks { ChecksOut store.now.records node.now id.value (outgoing_view outgoing) (message_view message.now) result }
    ensures node { OnOk result (IsTrue (is_node_name node.now)) }
{
    keys_fit_suite();
    let context = context_of(store, node, id)?;
    let keys = keys_of(store, node, id)?;
    let mapping = mapping_to_send(store, node, id, context, outgoing, message)?;
    let seq = next_number(store, node, id, outgoing.kind())?;
    let document = sent_document(alloc, context, keys, mapping, outgoing, seq, message)?;
    Ok(Checked {
        document,
        outgoing,
        seq,
        mapping,
    })
}
