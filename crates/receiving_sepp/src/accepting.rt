// Accepting a document.
ghost use Rattle.std.specs.Prelude.{◌≡◌, ◌≤◌, [], true, IfOk, IsErrOf, IsOk, Ok};
ghost use Rattle.n32_outside.specs.Causes.{Rose};
ghost use Rattle.context_store.specs.Stores.{IsConsistent};
ghost use Rattle.context_store.specs.Changes.{AddsOwn};
ghost use Rattle.spec_sealing.specs.Received.{Received, received};
ghost use Rattle.spec_exchange.specs.Accepting.{first_failed};
ghost use Rattle.entry_checks.specs.Verifiers.{UnderVerifier};
ghost use Rattle.message_screens.specs.Screening.{IsScreen, rule_of};
ghost use Rattle.receiving_sepp.specs.Outcome.{Accepts, IsOfVerifier, IsPatched};
ghost use Rattle.receiving_sepp.specs.Apart.{AcceptsApart, IsFull, is_for};

use crate::checks::check;
use crate::delivery::{Delivered, deliver};
use crate::faults::AcceptFault;
use context_store::{CallFault, Store};
use http_message::Message;
use message_screens::{Screen, ScreenRule};
use n32_outside::{Keeper, Verifier};
use n32_values::{Doc, PlmnId, Text};
use spec_exchange::accepting::{
    delivered_document_commutes, delivered_document_is_opened_and_changed, verifier_failure_is_one,
};
use std::alloc::Global;

/// Accepts a document at a node: checks it in the order of `Refused`, puts a record of the delivery, and
/// delivers the message (TS 33.501 clause 13.2.4.6).
///
/// A stale store is read first. The answer is that of the first check that fails. That the verifier failed, at
/// an entry, comes only where it did; where the document has no entry the verifier stays as it is. `Keeper`
/// comes only where the keeper failed, and the store was stale or every other check holds: the record of the
/// delivery may then be held or not. `Journal` comes only where a stale store is read. After any other refusal
/// nothing more is held, and the store has all records that are held. What is delivered is the opened message,
/// as its entries leave it, and patching commutes with filling for it.
///
/// Contexts are isolated: an answer other than `Limit` is that over the records of the document's context alone,
/// but for the number of a replayed message's record; and only a record of that context is put.
pub fn accept<K: Keeper, V: Verifier, R: ScreenRule, F: Fn(&Message, &PlmnId) -> bool>(
    alloc: Global,
    store: &mut Store,
    keeper: &mut K,
    verifier: &mut V,
    screen: &Screen<F, R>,
    node: &Text,
    document: &Doc,
) -> Result<Delivered, AcceptFault>
    requires consistent { IsConsistent (K.held keeper.old) store.old }
    requires follows { IsScreen F.Fn R.passes screen.now }
    ensures accepts { UnderVerifier (V.meaning verifier.old) (V.faults verifier.old) (V.faults verifier.new)
        (λ v. Accepts (R.passes (rule_of screen.now)) v (K.held keeper.old) (K.held keeper.new) store.old store.new node.now document.now result) }
    ensures consistent { IsConsistent (K.held keeper.new) store.new }
    ensures same_meaning { V.meaning verifier.new ≡ V.meaning verifier.old }
    ensures later { K.faults keeper.old ≤ K.faults keeper.new }
    ensures verifier_later { V.faults verifier.old ≤ V.faults verifier.new }
    ensures failed { IsErrOf result CallFault.Keeper → Rose (K.faults keeper.old) (K.faults keeper.new) }
    ensures verifier_failed { IsOfVerifier result → Rose (V.faults verifier.old) (V.faults verifier.new) }
    ensures last { IsErrOf result CallFault.Keeper → store.old.fresh ≡ true →
        UnderVerifier (V.meaning verifier.old) (V.faults verifier.old) (V.faults verifier.new)
        (λ v. IsOk (first_failed (R.passes (rule_of screen.now)) v store.old.records node.now document.now)) }
    ensures commutes { IfOk result (λ x. UnderVerifier (V.meaning verifier.old) (V.faults verifier.old) (V.faults verifier.new)
        (λ v. IsPatched (R.passes (rule_of screen.now)) v store.new node.now document.now x)) }
    ensures apart { (d : Received) → received document.now ≡ Ok d → (IsFull result → ⊥) → UnderVerifier (V.meaning verifier.old) (V.faults verifier.old) (V.faults verifier.new)
        (λ v. AcceptsApart (R.passes (rule_of screen.now)) v (K.held keeper.old) (K.held keeper.new) store.old store.new node.now d.context document.now result) }
    ensures own { AddsOwn (is_for node.now document.now) (K.held keeper.old) (K.held keeper.new) store.old store.new }
    ensures unasked { (d : Received) → received document.now ≡ Ok d → d.entries ≡ [] → verifier.new ≡ verifier.old }
{
    verifier_failure_is_one();
    delivered_document_is_opened_and_changed();
    delivered_document_commutes();
    store.refresh(alloc, keeper)?;
    let checked = check(alloc, store, verifier, screen, node, document)?;
    deliver(alloc, store, keeper, node, checked)
}
