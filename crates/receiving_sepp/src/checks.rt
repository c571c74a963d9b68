// The checks of a document, in their order.
ghost use Rattle.std.specs.Prelude.{◌≡◌, ◌≤◌, [], IfOk, IsTrue, Ok};
ghost use Rattle.spec_documents.specs.Text.{is_node_name};
ghost use Rattle.spec_sealing.specs.Received.{Received, received};
ghost use Rattle.entry_checks.specs.Verifiers.{UnderVerifier};
ghost use Rattle.message_screens.specs.Screening.{IsScreen, rule_of};
ghost use Rattle.receiving_sepp.specs.Outcome.{ChecksOut, IsOrdered};

use crate::changing::change;
use crate::faults::CheckFault;
use crate::opened::{Opened, open_document};
use crate::refused::Refused;
use context_store::Store;
use http_message::{Kind, Message};
use message_screens::{Screen, ScreenRule};
use n32_outside::Verifier;
use n32_values::{Doc, Hex64, PlmnId, Text};
use spec_messages::blocks::fault_decides;
use std::alloc::Global;

// A document that passed all checks, but for the limit on records.
#[derive(Drop)]
pub(crate) struct Checked {
    pub(crate) content: Message,
    pub(crate) context: Hex64,
    pub(crate) kind: Kind,
    pub(crate) message: Hex64,
    pub(crate) mapping: Option<u32>,
}

/// The first check that fails, in the order of `Refused`, or what is to be delivered.
pub(crate) fn check<V: Verifier, R: ScreenRule, F: Fn(&Message, &PlmnId) -> bool>(
    alloc: Global,
    store: &Store,
    verifier: &mut V,
    screen: &Screen<F, R>,
    node: &Text,
    document: &Doc,
) -> Result<Checked, CheckFault>
    requires { IsScreen F.Fn R.passes screen.now }
    ensures checks { UnderVerifier (V.meaning verifier.old) (V.faults verifier.old) (V.faults verifier.new)
        (λ v. ChecksOut (R.passes (rule_of screen.now)) v store.now.records node.now document.now result) }
    ensures named { IfOk result (λ _. IsTrue (is_node_name node.now)) }
    ensures ordered { IfOk result (λ _. IsOrdered store.now.records node.now document.now) }
    ensures same_meaning { V.meaning verifier.new ≡ V.meaning verifier.old }
    ensures later { V.faults verifier.old ≤ V.faults verifier.new }
    ensures unasked { (d : Received) → received document.now ≡ Ok d → d.entries ≡ [] → verifier.new ≡ verifier.old }
{
    fault_decides();
    let opened = match open_document(alloc, store, node, document) {
        Ok(opened) => opened,
        Err(fault) => return Err(fault),
    };
    let Opened {
        context,
        outline,
        revealed,
    } = opened;
    let mapping = revealed.mapping;
    let content = match change(alloc, verifier, context, &outline, revealed, document) {
        Ok(content) => content,
        Err(fault) => return Err(fault),
    };
    if !screen.test(&content, &context.plmn) {
        return Err(CheckFault::Refused(Refused::Screen));
    }
    Ok(Checked {
        content,
        context: outline.context,
        kind: outline.kind,
        message: outline.message,
        mapping,
    })
}
