// Documents: sent, put on the wire and delivered.
ghost use Rattle.std.specs.Prelude.{◌≡◌, ◌≤◌, IfOk, IsErrOf, IsTrue, option_map};
ghost use Rattle.n32_outside.specs.Causes.{Rose};
ghost use Rattle.context_store.specs.Stores.{IsConsistent};
ghost use Rattle.sending_sepp.specs.Outcome.{ProtectsAs};
ghost use Rattle.spec_messages.specs.Message.{is_whole, body_depth, kind_of};
ghost use Rattle.n32_values.specs.View.{tree_of};
ghost use Rattle.http_message.specs.Reading.{kind_view, message_view};
ghost use Rattle.spec_script.specs.Events.{Deliver, Inject, Send};
ghost use Rattle.spec_exchange.specs.Calls.{kind_of_outgoing, sends};
ghost use Rattle.spec_script.specs.Steps as spec;
ghost use Rattle.spec_documents.specs.Gives.{Gives};
ghost use Rattle.script_lines.specs.Unanswered.{SparesKeeper, told_refusal};
ghost use Rattle.entry_checks.specs.Verifiers.{UnderVerifier};
ghost use Rattle.message_screens.specs.Screening.{IsScreen, rule_of};
ghost use Rattle.replay_world.specs.Outsiders.{VerifierStays, event_steps, of_verifier, only_verifies, unasked};
ghost use Rattle.replay_world.specs.Worlds.{IsReady, IsShallow, IsSound};
ghost use Rattle.replay_world.specs.Handling.{Handles, HandlesAlone};
ghost use Rattle.replay_world.specs.Sending.{outgoing_view};

use crate::faults::{undelivered, unsent};
use crate::sites::is_known;
use crate::wire::{document_at, is_full, put_given, put_made};
use crate::world::World;
use block_forms::LimitName;
use context_store::{CallFault, Store};
use http_message::{Kind, Message};
use message_screens::{Screen, ScreenRule};
use n32_outside::{Keeper, Verifier};
use n32_values::{Bytes, Doc, Hex64, Node, PlmnId, Text, Whole};
use receiving_sepp::accept;
use script_lines::{Refusal, Unanswered, delivered_text, read_line_message};
use sending_sepp::{ProtectFault, protect, protect_reply};
use std::alloc::Global;

// What a message is sent as: a request, or the response to the request of an id.
#[derive(Clone, Copy, Drop)]
pub(crate) enum Outgoing {
    Asks,
    Replies(Hex64),
}

// A response answers a request, and a request none.
fn outgoing_of(kind: Kind, answers: Option<Hex64>) -> Result<Outgoing, Unanswered>
    ensures gives { Gives told_refusal outgoing_view result (spec.outgoing_of (kind_view kind) (option_map (λ i. i.value) answers)) }
    ensures kind { IfOk result (λ o. kind_of_outgoing (outgoing_view o) ≡ kind_view kind) }
    ensures spares { SparesKeeper result }
{
    match (kind, answers) {
        (Kind::Request, None) => Ok(Outgoing::Asks),
        (Kind::Response, Some(to)) => Ok(Outgoing::Replies(to)),
        _ => Err(Unanswered::Refused(Refusal::Event("answers"))),
    }
}

// The message to send, and as what.
#[tactic(auto, unfolding(spec_documents::specs::Chain::chains))]
fn message_to_send(
    alloc: Global,
    document: &Node,
    answers: Option<Hex64>,
) -> Result<(Outgoing, Message), Unanswered>
    ensures gives { Gives told_refusal (λ r. (outgoing_view r.0, message_view r.1)) result (spec.message_to_send (tree_of document.now) (option_map (λ i. i.value) answers)) }
    ensures whole { IfOk result (λ r. IsTrue (is_whole (message_view r.1))) }
    ensures shallow { IfOk result (λ r. body_depth (message_view r.1).body ≤ 64) }
    ensures kind { IfOk result (λ r. kind_of (message_view r.1) ≡ kind_of_outgoing (outgoing_view r.0)) }
    ensures spares { SparesKeeper result }
{
    let message = match read_line_message(alloc, document) {
        Ok(message) => message,
        Err(why) => return Err(why),
    };
    match outgoing_of(message.kind(), answers) {
        Ok(outgoing) => Ok((outgoing, message)),
        Err(why) => Err(why),
    }
}

// Seals and records a message.
fn protect_as<K: Keeper>(
    alloc: Global,
    store: &mut Store,
    keeper: &mut K,
    node: &Text,
    id: Hex64,
    outgoing: Outgoing,
    message: &Message,
) -> Result<Doc, ProtectFault>
    requires consistent { IsConsistent (K.held keeper.old) store.old }
    requires whole { IsTrue (is_whole (message_view message.now)) }
    requires shallow { body_depth (message_view message.now).body ≤ 64 }
    requires kind { kind_of (message_view message.now) ≡ kind_of_outgoing (outgoing_view outgoing) }
    ensures protects { ProtectsAs (outgoing_view outgoing) (K.held keeper.old) (K.held keeper.new) store.old store.new node.now id.value (message_view message.now) result }
    ensures consistent { IsConsistent (K.held keeper.new) store.new }
    ensures later { K.faults keeper.old ≤ K.faults keeper.new }
    ensures failed { IsErrOf result CallFault.Keeper → Rose (K.faults keeper.old) (K.faults keeper.new) }
{
    match outgoing {
        Outgoing::Asks => protect(alloc, store, keeper, node, id, message),
        Outgoing::Replies(to) => protect_reply(alloc, store, keeper, node, id, to, message),
    }
}

// Seals and records a message, and puts its document on the wire.
fn send_message<K: Keeper>(
    alloc: Global,
    world: &mut World,
    keeper: &mut K,
    number: u64,
    node: &Text,
    id: Hex64,
    outgoing: Outgoing,
    message: &Message,
) -> Result<Bytes, Unanswered>
    requires ready { IsReady (K.held keeper.old) world.old }
    requires whole { IsTrue (is_whole (message_view message.now)) }
    requires shallow { body_depth (message_view message.now).body ≤ 64 }
    requires kind { kind_of (message_view message.now) ≡ kind_of_outgoing (outgoing_view outgoing) }
    ensures { Handles (λ s f. spec.sends_sealed s (sends f s.records node.now id.value (outgoing_view outgoing) (message_view message.now)))
        (K.held keeper.old) (K.held keeper.new) (K.faults keeper.old) (K.faults keeper.new) world.old world.new number result }
{
    match protect_as(alloc, &mut world.store, keeper, node, id, outgoing, message) {
        Ok(document) => match put_made(alloc, world, number, document) {
            Ok(text) => Ok(text),
            Err(_) => Err(Unanswered::NoMemory),
        },
        Err(fault) => Err(unsent(fault)),
    }
}

/// A message is sent: sealed, recorded and put on the wire.
pub(crate) fn send<K: Keeper>(
    alloc: Global,
    world: &mut World,
    keeper: &mut K,
    number: u64,
    node: &Text,
    id: Hex64,
    message: &Node,
    answers: Option<Hex64>,
) -> Result<Bytes, Unanswered>
    requires { IsReady (K.held keeper.old) world.old }
    ensures { Handles (unasked (Send node.now id.value (tree_of message.now) (option_map (λ i. i.value) answers)))
        (K.held keeper.old) (K.held keeper.new) (K.faults keeper.old) (K.faults keeper.new) world.old world.new number result }
{
    if !is_known(&world.sites, node) {
        return Err(Unanswered::Refused(Refusal::NodeUnknown));
    }
    if is_full(world) {
        return Err(Unanswered::Refused(Refusal::Limit(LimitName::Wire)));
    }
    match message_to_send(alloc, message, answers) {
        Ok((outgoing, message)) => {
            send_message(alloc, world, keeper, number, node, id, outgoing, &message)
        }
        Err(why) => Err(why),
    }
}

/// A document is put on the wire as it is.
pub(crate) fn inject(
    alloc: Global,
    world: &mut World,
    number: u64,
    document: Node,
) -> Result<Bytes, Unanswered>
    requires sound { IsSound world.old }
    requires shallow { IsShallow (tree_of document) }
    ensures { HandlesAlone (unasked (Inject (tree_of document))) world.old world.new number result }
{
    if is_full(world) {
        return Err(Unanswered::Refused(Refusal::Limit(LimitName::Wire)));
    }
    match put_given(alloc, world, number, Doc::from_shallow(document)) {
        Ok(text) => Ok(text),
        Err(_) => Err(Unanswered::NoMemory),
    }
}

/// A document on the wire reaches a node, which accepts it or not. A refusal is told with its report.
pub(crate) fn deliver<K: Keeper, V: Verifier, R: ScreenRule, F: Fn(&Message, &PlmnId) -> bool>(
    alloc: Global,
    world: &mut World,
    keeper: &mut K,
    verifier: &mut V,
    screen: &Screen<F, R>,
    number: u64,
    node: &Text,
    wire: &Whole,
) -> Result<Bytes, Unanswered>
    requires ready { IsReady (K.held keeper.old) world.old }
    requires follows { IsScreen F.Fn R.passes screen.now }
    ensures handles { UnderVerifier (V.meaning verifier.old) (V.faults verifier.old) (V.faults verifier.new)
        (λ v. Handles (event_steps (R.passes (rule_of screen.now)) (only_verifies v) (Deliver node.now wire.now))
        (K.held keeper.old) (K.held keeper.new) (K.faults keeper.old) (K.faults keeper.new) world.old world.new number result) }
    ensures verifier { VerifierStays (of_verifier (V.meaning verifier.old) (V.faults verifier.old)) (of_verifier (V.meaning verifier.new) (V.faults verifier.new)) }
{
    if !is_known(&world.sites, node) {
        return Err(Unanswered::Refused(Refusal::NodeUnknown));
    }
    let document = match document_at(&world.wire, wire) {
        Some(document) => document,
        None => return Err(Unanswered::Refused(Refusal::WireUnknown)),
    };
    match accept(
        alloc,
        &mut world.store,
        keeper,
        verifier,
        screen,
        node,
        document,
    ) {
        Ok(delivered) => {
            match delivered_text(alloc, number, delivered.message, delivered.id) {
                Ok(text) => Ok(text),
                Err(_) => Err(Unanswered::NoMemory),
            }
        }
        Err(fault) => Err(undelivered(alloc, document, fault)),
    }
}
