// Sending a message.
ghost use Rattle.std.specs.Prelude.{◌≡◌, ◌≤◌, true, IsTrue, IsErrOf, IsOk};
ghost use Rattle.spec_messages.specs.Message.{is_whole, body_depth, kind_of, of_request, of_response};
ghost use Rattle.spec_records.specs.Records.{is_of};
ghost use Rattle.n32_outside.specs.Causes.{Rose};
ghost use Rattle.http_message.specs.Reading.{message_view};
ghost use Rattle.context_store.specs.Stores.{IsConsistent};
ghost use Rattle.context_store.specs.Changes.{AddsOwn};
ghost use Rattle.spec_exchange.specs.Calls.{Asks, Replies, protected};
ghost use Rattle.sending_sepp.specs.Outcome.{IsFull, Protects, ProtectsApart, ProtectsAs};
ghost use Rattle.sending_sepp.specs.Outgoings.{outgoing_view};

use crate::checks::check;
use crate::fault::ProtectFault;
use crate::outgoing::Outgoing;
use crate::recording::record_sent;
use context_store::{CallFault, Store};
use http_message::Message;
use n32_outside::Keeper;
use n32_values::{Doc, Hex64, Text};
use std::alloc::Global;

// Protects a message, and records that it was sent.
fn protect_as<K: Keeper>(
    alloc: Global,
    store: &mut Store,
    keeper: &mut K,
    node: &Text,
    id: Hex64,
    outgoing: Outgoing,
    message: &Message,
) -> Result<Doc, ProtectFault>
    requires consistent { IsConsistent (K.held keeper.old) store.old }
    requires whole { IsTrue (is_whole (message_view message.now)) }
    requires shallow { body_depth (message_view message.now).body ≤ 64 }
    ensures protects { ProtectsAs (outgoing_view outgoing) (K.held keeper.old) (K.held keeper.new) store.old store.new node.now id.value (message_view message.now) result }
    ensures consistent { IsConsistent (K.held keeper.new) store.new }
    ensures later { K.faults keeper.old ≤ K.faults keeper.new }
    ensures failed { IsErrOf result CallFault.Keeper → Rose (K.faults keeper.old) (K.faults keeper.new) }
    ensures last { IsErrOf result CallFault.Keeper → store.old.fresh ≡ true → IsOk (protected store.old.records node.now id.value (outgoing_view outgoing) (message_view message.now)) }
    ensures apart { (IsFull result → ⊥) → ProtectsApart (outgoing_view outgoing) (K.held keeper.old) (K.held keeper.new) store.old store.new node.now id.value (message_view message.now) result }
    ensures own { AddsOwn (is_of node.now id.value) (K.held keeper.old) (K.held keeper.new) store.old store.new }
{
    store.refresh(alloc, keeper)?;
    let checked = check(alloc, store, node, id, outgoing, message)?;
    record_sent(alloc, store, keeper, node, id, checked)
}

/// Protects a request under the context of that id at the node, and records that it was sent: the answer is
/// the document to send (TS 33.501 clauses 13.2.4.4 and 13.2.4.5 in outline). The request must be a whole one
/// whose body nests at most 64 deep.
///
/// A stale store is read first. Its sequence number is the first of the keys, or what follows the greatest that
/// was sent, and is the message's id. The document is complete before its record is put. The answer is that of
/// the first check that fails, in the order of `SendFault` with `Keeper` of the put last. `Keeper` comes only
/// where the keeper failed, and the store was stale or every other check holds: the record may then be held or
/// not. `Journal` comes only where a stale store is read. After any other refusal nothing more is held, and the
/// store has all records that are held.
///
/// Contexts are isolated: an answer other than `Limit` of `Records` is that over the context's own records alone;
/// and only a record of that context is put.
pub fn protect<K: Keeper>(
    alloc: Global,
    store: &mut Store,
    keeper: &mut K,
    node: &Text,
    id: Hex64,
    request: &Message,
) -> Result<Doc, ProtectFault>
    requires consistent { IsConsistent (K.held keeper.old) store.old }
    requires whole { IsTrue (is_whole (message_view request.now)) }
    requires shallow { body_depth (message_view request.now).body ≤ 64 }
    requires kind { kind_of (message_view request.now) ≡ of_request }
    ensures protects { Protects (K.held keeper.old) (K.held keeper.new) store.old store.new node.now id.value (message_view request.now) result }
    ensures consistent { IsConsistent (K.held keeper.new) store.new }
    ensures later { K.faults keeper.old ≤ K.faults keeper.new }
    ensures failed { IsErrOf result CallFault.Keeper → Rose (K.faults keeper.old) (K.faults keeper.new) }
    ensures last { IsErrOf result CallFault.Keeper → store.old.fresh ≡ true → IsOk (protected store.old.records node.now id.value Asks (message_view request.now)) }
    ensures apart { (IsFull result → ⊥) → ProtectsApart Asks (K.held keeper.old) (K.held keeper.new) store.old store.new node.now id.value (message_view request.now) result }
    ensures own { AddsOwn (is_of node.now id.value) (K.held keeper.old) (K.held keeper.new) store.old store.new }
{
    protect_as(alloc, store, keeper, node, id, Outgoing::Asks, request)
}

/// Protects the response to the request of a message id under the context of that id at the node, and records
/// that it was sent: the answer is the document to send. The response must be a whole one whose body nests at
/// most 64 deep.
///
/// The message id is that of the request, and the mapping the one that was recorded with its delivery. The
/// sequence number is the next of the responses. `NoRequest` comes exactly where the context has an open context
/// and keys, and no such request was delivered; `Answered` exactly where it was, and a response to it was sent.
/// All else is as of `protect`.
pub fn protect_reply<K: Keeper>(
    alloc: Global,
    store: &mut Store,
    keeper: &mut K,
    node: &Text,
    id: Hex64,
    answers: Hex64,
    response: &Message,
) -> Result<Doc, ProtectFault>
    requires consistent { IsConsistent (K.held keeper.old) store.old }
    requires whole { IsTrue (is_whole (message_view response.now)) }
    requires shallow { body_depth (message_view response.now).body ≤ 64 }
    requires kind { kind_of (message_view response.now) ≡ of_response }
    ensures protects { ProtectsAs (Replies answers.value) (K.held keeper.old) (K.held keeper.new) store.old store.new node.now id.value (message_view response.now) result }
    ensures consistent { IsConsistent (K.held keeper.new) store.new }
    ensures later { K.faults keeper.old ≤ K.faults keeper.new }
    ensures failed { IsErrOf result CallFault.Keeper → Rose (K.faults keeper.old) (K.faults keeper.new) }
    ensures last { IsErrOf result CallFault.Keeper → store.old.fresh ≡ true → IsOk (protected store.old.records node.now id.value (Replies answers.value) (message_view response.now)) }
    ensures apart { (IsFull result → ⊥) → ProtectsApart (Replies answers.value) (K.held keeper.old) (K.held keeper.new) store.old store.new node.now id.value (message_view response.now) result }
    ensures own { AddsOwn (is_of node.now id.value) (K.held keeper.old) (K.held keeper.new) store.old store.new }
{
    protect_as(
        alloc,
        store,
        keeper,
        node,
        id,
        Outgoing::Replies(answers),
        response,
    )
}
