// Documents on their way: passed on by an intermediary, and altered.
ghost use Rattle.std.specs.Prelude.{map as list_map, IfOk};
ghost use Rattle.n32_values.specs.View.{tree_of};
ghost use Rattle.json_patch6902.specs.View.{op_view};
ghost use Rattle.spec_script.specs.Altering as altering;
ghost use Rattle.spec_script.specs.Events.{Alter, Pass};
ghost use Rattle.spec_documents.specs.Gives.{Gives};
ghost use Rattle.script_lines.specs.Unanswered.{SparesKeeper, told_refusal};
ghost use Rattle.replay_world.specs.Outsiders.{Signed, SignerStays, all_pass, event_steps, of_signer, only_signs, unasked};
ghost use Rattle.replay_world.specs.Worlds.{IsShallow, IsSound};
ghost use Rattle.replay_world.specs.Handling.{HandlesAlone};

use crate::faults::unpassed;
use crate::wire::{document_at, is_full, put_made};
use crate::world::World;
use block_forms::LimitName;
use ipx_node::{IpxConfig, pass_on};
use json_patch6902::{ApplyFault, Op, OpList, apply};
use n32_outside::Signer;
use n32_values::{Bytes, Doc, Node, Text, Whole, depth, text_length};
use script_lines::{Refusal, Unanswered};
use std::alloc::Global;

const MOST_DEPTH: u32 = 126;

const MOST_BYTES: u64 = 16_777_216;

/// An intermediary passes a document on with an entry of its own. The signer is asked last.
pub(crate) fn pass<G: Signer>(
    alloc: Global,
    world: &mut World,
    signer: &mut G,
    number: u64,
    ipx: Text,
    wire: &Whole,
    operations: Node,
) -> Result<Bytes, Unanswered>
    requires sound { IsSound world.old }
    requires shallow { IsShallow (tree_of operations) }
    ensures handles { Signed (of_signer (G.algorithm signer.old) (G.meaning signer.old) (G.faults signer.old)) (of_signer (G.algorithm signer.new) (G.meaning signer.new) (G.faults signer.new))
        (λ x. HandlesAlone (event_steps all_pass (only_signs x) (Pass ipx wire.now (tree_of operations))) world.old world.new number result) }
    ensures signer { SignerStays (of_signer (G.algorithm signer.old) (G.meaning signer.old) (G.faults signer.old)) (of_signer (G.algorithm signer.new) (G.meaning signer.new) (G.faults signer.new)) }
{
    let document = match document_at(&world.wire, wire) {
        Some(document) => document,
        None => return Err(Unanswered::Refused(Refusal::WireUnknown)),
    };
    if is_full(world) {
        return Err(Unanswered::Refused(Refusal::Limit(LimitName::Wire)));
    }
    let config = IpxConfig {
        identity: ipx,
        operations: Doc::from_shallow(operations),
    };
    match pass_on(alloc, document, &config, signer) {
        Ok(passed) => match put_made(alloc, world, number, passed) {
            Ok(text) => Ok(text),
            Err(_) => Err(Unanswered::NoMemory),
        },
        Err(fault) => Err(unpassed(fault)),
    }
}

// What an operation makes of a document that is no deeper and no longer than one on the wire may be.
#[tactic(auto, unfolding(spec_documents::specs::Chain::chains))]
fn alter_by(alloc: Global, document: Doc, op: &Op) -> Result<Doc, Unanswered>
    ensures gives { Gives told_refusal (λ d. d) result (altering.altered_by (op_view op.now) document) }
    ensures shallow { IfOk result (λ d. IsShallow d) }
    ensures spares { SparesKeeper result }
{
    match apply(alloc, document, op) {
        Ok(altered) => {
            if depth(altered.node()) > MOST_DEPTH {
                return Err(Unanswered::Refused(Refusal::Event("operations")));
            }
            if text_length(altered.node()) > MOST_BYTES {
                return Err(Unanswered::Refused(Refusal::Limit(LimitName::Alter)));
            }
            Ok(altered)
        }
        Err(ApplyFault::Refused { .. }) => Err(Unanswered::Refused(Refusal::Event("operations"))),
        Err(ApplyFault::NoMemory) => Err(Unanswered::NoMemory),
    }
}

// A document with operations applied in order.
fn alter_all(alloc: Global, document: &Doc, operations: &OpList) -> Result<Doc, Unanswered>
    requires { IsShallow document.now }
    ensures gives { Gives told_refusal (λ d. d) result (altering.altered (list_map op_view operations.now) document.now) }
    ensures shallow { IfOk result (λ d. IsShallow d) }
    ensures spares { SparesKeeper result }
{
    let mut altered = document.copy(alloc)?;
    for op in operations.as_slice() {
        let next = match alter_by(alloc, altered, op) {
            Ok(next) => next,
            Err(why) => return Err(why),
        };
        altered = next;
    }
    Ok(altered)
}

/// A document goes on the wire again, with operations applied.
pub(crate) fn alter(
    alloc: Global,
    world: &mut World,
    number: u64,
    wire: &Whole,
    operations: &OpList,
) -> Result<Bytes, Unanswered>
    requires { IsSound world.old }
    ensures { HandlesAlone (unasked (Alter wire.now (list_map op_view operations.now))) world.old world.new number result }
{
    let document = match document_at(&world.wire, wire) {
        Some(document) => document,
        None => return Err(Unanswered::Refused(Refusal::WireUnknown)),
    };
    if is_full(world) {
        return Err(Unanswered::Refused(Refusal::Limit(LimitName::Wire)));
    }
    match alter_all(alloc, document, operations) {
        Ok(altered) => match put_made(alloc, world, number, altered) {
            Ok(text) => Ok(text),
            Err(_) => Err(Unanswered::NoMemory),
        },
        Err(why) => Err(why),
    }
}
