// Handshakes: started, answered, finished, and contexts that end.
ghost use Rattle.std.specs.Prelude.{◌≡◌, ◌+◌, ℕ, length, Option, Some, IfOk};
ghost use Rattle.spec_documents.specs.Tree.{Tree};
ghost use Rattle.spec_documents.specs.Gives.{Gives};
ghost use Rattle.spec_script.specs.Events.{AnswerTo, EndBy, FinishBy, StartWith, Terminate};
ghost use Rattle.spec_script.specs.Steps as spec;
ghost use Rattle.n32c_handshake.specs.View as hands;
ghost use Rattle.script_lines.specs.Unanswered.{SparesKeeper, told_refusal};
ghost use Rattle.script_lines.specs.View.{offer_view};
ghost use Rattle.replay_world.specs.Fitting.{IsFit};
ghost use Rattle.replay_world.specs.Handling.{Handles};
ghost use Rattle.replay_world.specs.Outsiders.{unasked};
ghost use Rattle.replay_world.specs.Shaking as shaking;
ghost use Rattle.replay_world.specs.Shaking.{Concludes, Says};
ghost use Rattle.replay_world.specs.Worlds.{IsReady, sites_view};

use crate::faults::unshaken;
use crate::sites::plmn_of;
use crate::wire::{document_at, is_full, put_made, put_opening};
use crate::world::{SiteList, World};
use block_forms::LimitName;
use n32_outside::Keeper;
use n32_values::{Bytes, Doc, DocList, Hex64, NoMemory, PlmnId, Text, Whole};
use n32c_handshake::{Finished, HandFault, Offer, Replied};
use policy_documents::{PolicyRead, read_policy};
use script_lines::{HandedOffer, Refusal, Unanswered, ended_text, opened_text};
use std::alloc::Global;

// ---- checks before a call

// The network of a node, where the wire has room.
#[tactic(auto, unfolding(spec_documents::specs::Chain::chains))]
fn check_network<'a>(sites: &'a SiteList, full: bool, node: &Text) -> Result<&'a PlmnId, Unanswered>
    ensures gives { Gives told_refusal (λ p. p.now) result (shaking.network_checked (sites_view sites.now) full node.now) }
    ensures spares { SparesKeeper result }
{
    let Some(plmn) = plmn_of(sites, node) else {
        return Err(Unanswered::Refused(Refusal::NodeUnknown));
    };
    if full {
        return Err(Unanswered::Refused(Refusal::Limit(LimitName::Wire)));
    }
    Ok(plmn)
}

// The same, with a document that reaches the node.
#[tactic(auto, unfolding(spec_documents::specs::Chain::chains))]
fn check_document<'a>(
    sites: &'a SiteList,
    wire: &'a DocList,
    full: bool,
    node: &Text,
    number: &Whole,
) -> Result<(&'a PlmnId, &'a Doc), Unanswered>
    ensures gives { Gives told_refusal (λ r. (r.0.now, r.1.now)) result (shaking.document_checked (sites_view sites.now) wire.now full node.now number.now) }
    ensures spares { SparesKeeper result }
{
    let Some(plmn) = plmn_of(sites, node) else {
        return Err(Unanswered::Refused(Refusal::NodeUnknown));
    };
    let Some(document) = document_at(wire, number) else {
        return Err(Unanswered::Refused(Refusal::WireUnknown));
    };
    if full {
        return Err(Unanswered::Refused(Refusal::Limit(LimitName::Wire)));
    }
    Ok((plmn, document))
}

// The offer, with the policy that its document is of.
#[tactic(auto, unfolding(spec_documents::specs::Chain::chains))]
fn offer_of(alloc: Global, handed: HandedOffer) -> Result<Offer, Unanswered>
    ensures gives { Gives told_refusal hands.offer_view result (shaking.offer_to_hold (offer_view handed)) }
    ensures ipx { IfOk result (λ offer. offer.ipx ≡ handed.ipx) }
    ensures spares { SparesKeeper result }
{
    let policy = match read_policy(alloc, &handed.policy) {
        Ok(policy) => policy,
        Err(PolicyRead::Form(mapping)) => {
            return Err(Unanswered::Refused(Refusal::PolicyForm(mapping)));
        }
        Err(PolicyRead::NoMemory) => return Err(Unanswered::NoMemory),
    };
    let HandedOffer {
        id,
        capabilities,
        suites,
        policy: _,
        ipx,
    } = handed;
    Ok(Offer {
        id,
        capabilities,
        suites,
        policy,
        ipx,
    })
}

// ---- what a call comes to

// What a call made, which an event tells, with its document on the wire.
trait Made {
    ghost told: { ℕ → Self → spec.Answer };

    ghost sent: { Self → Option Tree };

    // Answers it, and puts its document on the wire.
    fn put(self, alloc: Global, world: &mut World, number: u64) -> Result<Bytes, NoMemory>
        requires { world.old.wire_bytes ≡ spec.wire_bytes world.old.wire }
        ensures { Says number world.old world.new (told (length world.old.wire + 1) self) (sent self) result };
}

impl Made for Doc {
    ghost told = { shaking.forwarded };

    ghost sent = { λ t. Some t };

    fn put(self, alloc: Global, world: &mut World, number: u64) -> Result<Bytes, NoMemory> {
        put_made(alloc, world, number, self)
    }
}

impl Made for Replied {
    ghost told = { shaking.replied_told };

    ghost sent = { shaking.replied_sent };

    fn put(self, alloc: Global, world: &mut World, number: u64) -> Result<Bytes, NoMemory> {
        match self {
            Replied::Selected { document } => put_made(alloc, world, number, document),
            Replied::Opened { document, id } => put_opening(alloc, world, number, document, id),
        }
    }
}

// A finish makes a document only where it asks for parameters.
impl Made for Finished {
    ghost told = { shaking.finished_told };

    ghost sent = { shaking.finished_sent };

    fn put(self, alloc: Global, world: &mut World, number: u64) -> Result<Bytes, NoMemory> {
        match self {
            Finished::Next { document } => put_made(alloc, world, number, document),
            Finished::Opened { id } => opened_text(alloc, number, id),
            Finished::EndedTls => ended_text(alloc, number),
        }
    }
}

// Tells what a call came to.
fn tell<M: Made>(
    alloc: Global,
    world: &mut World,
    number: u64,
    made: Result<M, HandFault>,
) -> Result<Bytes, Unanswered>
    requires { world.old.wire_bytes ≡ spec.wire_bytes world.old.wire }
    ensures { Concludes (M.told (length world.old.wire + 1)) M.sent number world.old world.new made result }
{
    match made {
        Ok(made) => match made.put(alloc, world, number) {
            Ok(text) => Ok(text),
            Err(_) => Err(Unanswered::NoMemory),
        },
        Err(fault) => Err(unshaken(fault)),
    }
}

// ---- events

/// A node starts a handshake with a peer.
pub(crate) fn start<K: Keeper>(
    alloc: Global,
    world: &mut World,
    keeper: &mut K,
    number: u64,
    node: &Text,
    peer: &Text,
    handed: HandedOffer,
) -> Result<Bytes, Unanswered>
    requires ready { IsReady (K.held keeper.old) world.old }
    requires fit { IsFit (StartWith node.now peer.now (offer_view handed)) }
    ensures { Handles (unasked (StartWith node.now peer.now (offer_view handed)))
        (K.held keeper.old) (K.held keeper.new) (K.faults keeper.old) (K.faults keeper.new) world.old world.new number result }
{
    let full = is_full(world);
    match check_network(&world.sites, full, node) {
        Ok(plmn) => match offer_of(alloc, handed) {
            Ok(offer) => {
                let started = n32c_handshake::start(
                    alloc,
                    &mut world.hands,
                    &mut world.store,
                    keeper,
                    node,
                    plmn,
                    peer,
                    offer,
                );
                tell(alloc, world, number, started)
            }
            Err(why) => Err(why),
        },
        Err(why) => Err(why),
    }
}

/// A document of a handshake reaches a node, which answers it under an offer.
pub(crate) fn answer<K: Keeper>(
    alloc: Global,
    world: &mut World,
    keeper: &mut K,
    number: u64,
    node: &Text,
    wire: &Whole,
    handed: HandedOffer,
) -> Result<Bytes, Unanswered>
    requires ready { IsReady (K.held keeper.old) world.old }
    requires fit { IsFit (AnswerTo node.now wire.now (offer_view handed)) }
    ensures { Handles (unasked (AnswerTo node.now wire.now (offer_view handed)))
        (K.held keeper.old) (K.held keeper.new) (K.faults keeper.old) (K.faults keeper.new) world.old world.new number result }
{
    let full = is_full(world);
    match check_document(&world.sites, &world.wire, full, node, wire) {
        Ok((plmn, document)) => match offer_of(alloc, handed) {
            Ok(offer) => {
                let replied = n32c_handshake::answer(
                    alloc,
                    &mut world.store,
                    keeper,
                    node,
                    plmn,
                    offer,
                    document,
                );
                tell(alloc, world, number, replied)
            }
            Err(why) => Err(why),
        },
        Err(why) => Err(why),
    }
}

/// A reply reaches a node, which goes on with it in a handshake that it started.
pub(crate) fn finish<K: Keeper>(
    alloc: Global,
    world: &mut World,
    keeper: &mut K,
    number: u64,
    node: &Text,
    wire: &Whole,
) -> Result<Bytes, Unanswered>
    requires { IsReady (K.held keeper.old) world.old }
    ensures { Handles (unasked (FinishBy node.now wire.now))
        (K.held keeper.old) (K.held keeper.new) (K.faults keeper.old) (K.faults keeper.new) world.old world.new number result }
{
    let full = is_full(world);
    match check_document(&world.sites, &world.wire, full, node, wire) {
        Ok((plmn, document)) => {
            let finished = n32c_handshake::finish(
                alloc,
                &mut world.hands,
                &mut world.store,
                keeper,
                node,
                plmn,
                document,
            );
            tell(alloc, world, number, finished)
        }
        Err(why) => Err(why),
    }
}

/// A node ends a context.
pub(crate) fn terminate<K: Keeper>(
    alloc: Global,
    world: &mut World,
    keeper: &mut K,
    number: u64,
    node: &Text,
    id: Hex64,
) -> Result<Bytes, Unanswered>
    requires { IsReady (K.held keeper.old) world.old }
    ensures { Handles (unasked (Terminate node.now id.value))
        (K.held keeper.old) (K.held keeper.new) (K.faults keeper.old) (K.faults keeper.new) world.old world.new number result }
{
    let full = is_full(world);
    match check_network(&world.sites, full, node) {
        Ok(_plmn) => {
            let made = n32c_handshake::terminate(alloc, &mut world.store, keeper, node, id);
            tell(alloc, world, number, made)
        }
        Err(why) => Err(why),
    }
}

/// The end of a context reaches its other node.
pub(crate) fn ended<K: Keeper>(
    alloc: Global,
    world: &mut World,
    keeper: &mut K,
    number: u64,
    node: &Text,
    wire: &Whole,
) -> Result<Bytes, Unanswered>
    requires { IsReady (K.held keeper.old) world.old }
    ensures { Handles (unasked (EndBy node.now wire.now))
        (K.held keeper.old) (K.held keeper.new) (K.faults keeper.old) (K.faults keeper.new) world.old world.new number result }
{
    let full = is_full(world);
    match check_document(&world.sites, &world.wire, full, node, wire) {
        Ok((_plmn, document)) => {
            let made = n32c_handshake::ended(alloc, &mut world.store, keeper, node, document);
            tell(alloc, world, number, made)
        }
        Err(why) => Err(why),
    }
}
