// An entry's operations, in order.
ghost use Rattle.std.specs.Prelude.{◌≡◌, ◌≤◌, ◌<◌, ◌+◌, None, Ok, IfOk, OnOk, OnErr, length, map};
ghost use Rattle.spec_documents.specs.Hole.{places as places_of};
ghost use Rattle.spec_messages.specs.Message as spec;
ghost use Rattle.spec_messages.specs.Block.{IsBlock};
ghost use Rattle.spec_messages.specs.Fault.{block_fault};
ghost use Rattle.spec_messages.specs.Outcome.{entry_outcome};
ghost use Rattle.http_message.specs.Reading.{message_view};
ghost use Rattle.json_patch6902.specs.View.{op_view};
ghost use Rattle.block_patch.specs.Answers.{Answers, Runs, Numbers};
ghost use Rattle.block_patch.specs.Commutes.{BlockOf, ground, Applied, FillsAlike, KeepsValues, ChangesAllowed};

use crate::fault::{EntryFault, StepFault};
use crate::step::{Patched, Rules, step};
use block_forms::{Block, BlockRead, BlockReading, OpenBlock};
use enc_index::Holes;
use json_patch6902::OpList;
use n32_values::{Doc, NoMemory, Text};
use policy_tables::Policy;
use spec_messages::blocks::{block_has_one_message, fault_decides};
use spec_messages::commutation::patching_commutes_with_filling;
use spec_messages::kept::entries_keep;
use spec_messages::outcomes::{entry_outcome_decides, operation_outcome_decides};
use std::alloc::Global;

fn numbered(i: usize, fault: StepFault) -> EntryFault
    requires { i < 64 }
    ensures { Numbers (i + 1) fault result }
{
    match fault {
        StepFault::Why(why) => EntryFault::Operation(i as u32 + 1, why),
        StepFault::NoMemory => EntryFault::NoMemory,
    }
}

// What the operations make of a block with the holes, in order.
fn all_steps(
    alloc: Global,
    rules: &Rules<'_>,
    holes: &Holes,
    start: Patched,
    operations: &OpList,
) -> Result<Patched, EntryFault>
    requires few { length operations.now ≤ 64 }
    requires block { IsBlock start.doc rules.now.holes (message_view start.message) }
    requires holes { places_of start.doc rules.now.holes ≡ Ok holes.now }
    ensures outcome { Runs (entry_outcome rules.now.policy.now rules.now.mapping rules.now.ipx.now rules.now.holes start.doc (message_view start.message) (map op_view operations.now)) result }
    ensures block { IfOk result (λ p. IsBlock p.doc rules.now.holes (message_view p.message)) }
{
    operation_outcome_decides();
    let mut current = start;
    for i in 0..operations.len() {
        match step(alloc, rules, holes, &current, operations.item(i)) {
            Ok(next) => current = next,
            Err(fault) => return Err(numbered(i, fault)),
        }
    }
    Ok(current)
}

// A copy of a block that is read once more.
fn reading_of(alloc: Global, block: &Block, count: u32) -> Result<BlockReading, NoMemory>
    requires { block_fault block.now count ≡ None }
    ensures { IfOk result (λ reading. reading ≡ (block.now, count)) }
{
    match BlockReading::read(alloc, block.doc().copy(alloc)?, count) {
        Ok(reading) => Ok(reading),
        Err(BlockRead::Refused(_)) => unreachable!(),
        Err(BlockRead::NoMemory) => Err(NoMemory),
    }
}

// A copy of a block with the message that it stands for, and the places of the holes.
#[derive(Drop)]
struct OpenCopy {
    start: Patched,
    holes: Holes,
}

fn opened(alloc: Global, block: &Block, count: u32) -> Result<OpenCopy, NoMemory>
    requires { block_fault block.now count ≡ None }
    ensures value { IfOk result (λ o. o.start.doc ≡ block.now) }
    ensures holes { IfOk result (λ o. places_of o.start.doc count ≡ Ok o.holes) }
    ensures block { IfOk result (λ o. IsBlock o.start.doc count (message_view o.start.message)) }
{
    block_has_one_message();
    let _known = block.doc().node();
    let reading = reading_of(alloc, block, count)?;
    match reading.into_all(alloc) {
        Ok(all) => {
            let OpenBlock {
                block,
                holes,
                message,
            } = all;
            let doc = block.into_doc();
            Ok(OpenCopy {
                start: Patched { doc, message },
                holes,
            })
        }
        Err(refused) => Err(refused),
    }
}

// What the operations make of a copy of the block.
fn patched(
    alloc: Global,
    rules: &Rules<'_>,
    block: &Block,
    operations: &OpList,
) -> Result<Patched, EntryFault>
    requires few { length operations.now ≤ 64 }
    requires block { block_fault block.now rules.now.holes ≡ None }
    ensures outcome { (c : spec.Message) → IsBlock block.now rules.now.holes c → Runs (entry_outcome rules.now.policy.now rules.now.mapping rules.now.ipx.now rules.now.holes block.now c (map op_view operations.now)) result }
    ensures block { IfOk result (λ p. IsBlock p.doc rules.now.holes (message_view p.message)) }
{
    block_has_one_message();
    match opened(alloc, block, rules.holes) {
        Ok(opened) => {
            let OpenCopy { start, holes } = opened;
            all_steps(alloc, rules, &holes, start, operations)
        }
        Err(_) => Err(EntryFault::NoMemory),
    }
}

/// Applies the operations of an entry to a block, in order, where each is allowed to the intermediary under
/// the policy's mapping (TS 33.501 clause 13.2.4.5 in outline). There are at most 64 operations, and no
/// operation changes nothing.
///
/// # Errors
/// The number of the first operation, from 1, that isn't allowed, with the first reason in the order of
/// `OpWhy`. After every refusal, want of memory too, the block is as before.
pub fn apply_entry(
    alloc: Global,
    block: &mut Block,
    operations: &OpList,
    policy: &Policy,
    mapping: Option<u32>,
    ipx: &Text,
) -> Result<(), EntryFault>
    requires { length operations.now ≤ 64 }
    ensures answer { (b : BlockOf block.old) → Answers (ground policy.now mapping ipx.now block.old b) (map op_view operations.now) block.new result }
    ensures as_before { OnErr result (block.new ≡ block.old) }
    ensures filled { OnOk result ((b : BlockOf block.old) → Applied (ground policy.now mapping ipx.now block.old b) (map op_view operations.now) block.new FillsAlike) }
    ensures values { OnOk result ((b : BlockOf block.old) → Applied (ground policy.now mapping ipx.now block.old b) (map op_view operations.now) block.new KeepsValues) }
    ensures changes { OnOk result ((b : BlockOf block.old) → Applied (ground policy.now mapping ipx.now block.old b) (map op_view operations.now) block.new ChangesAllowed) }
{
    fault_decides();
    block_has_one_message();
    entry_outcome_decides();
    patching_commutes_with_filling();
    entries_keep();
    let rules = Rules {
        policy,
        mapping,
        ipx,
        holes: block.holes(),
    };
    match patched(alloc, &rules, block, operations) {
        Ok(made) => {
            *block = made.into_block(rules.holes);
            Ok(())
        }
        Err(fault) => Err(fault),
    }
}
