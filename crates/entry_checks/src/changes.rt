// The operations of an entry, made on a block.
ghost use Rattle.std.specs.Prelude.{◌≡◌, ◌≤◌, IfOk, IfErr, length, map};
ghost use Rattle.spec_sealing.specs.Entries.{ops_in};
ghost use Rattle.json_patch6902.specs.View.{op_view};
ghost use Rattle.jws_flat.specs.View.{entry_view};
ghost use Rattle.block_patch.specs.Commutes.{BlockOf};
ghost use Rattle.entry_checks.specs.Views.{terms_view};
ghost use Rattle.entry_checks.specs.Steps.{Changes, IsQuiet, changed};

use crate::refused::{EntryWhy, StepFault};
use crate::terms::EntryTerms;
use block_forms::Block;
use block_patch::{EntryFault, apply_entry};
use json_patch6902::{OpList, OpsRead, read_ops};
use jws_flat::Entry;
use n32_values::NoMemory;
use std::alloc::Global;

// The operations of an entry, none where it changes nothing.
fn operations_of(alloc: Global, entry: &Entry) -> Result<OpList, NoMemory>
    ensures operations { IfOk result (λ ops. map op_view ops ≡ ops_in entry.now.operations) }
    ensures few { IfOk result (λ ops. length ops ≤ 64) }
{
    let Some(doc) = &entry.operations else {
        return Ok(OpList::new(alloc));
    };
    match read_ops(alloc, doc.node()) {
        Ok(operations) => Ok(operations),
        Err(OpsRead::Form(_)) => Ok(OpList::new(alloc)),
        Err(OpsRead::NoMemory) => Err(NoMemory),
    }
}

/// Makes the operations of an entry on a block, each allowed.
pub(crate) fn make_changes(
    alloc: Global,
    terms: &EntryTerms<'_>,
    block: &mut Block,
    entry: &Entry,
) -> Result<(), StepFault>
    ensures changes { (b : BlockOf block.old) → Changes b.holes block.new (changed (terms_view terms.now b.holes) (entry_view entry.now) block.old b.clear) result }
    ensures quiet { IfErr result (λ fault. IsQuiet fault) }
{
    let Ok(operations) = operations_of(alloc, entry) else {
        return Err(StepFault::NoMemory);
    };
    match apply_entry(
        alloc,
        block,
        &operations,
        terms.policy,
        terms.mapping,
        &entry.identity,
    ) {
        Ok(()) => Ok(()),
        Err(EntryFault::Operation(number, why)) => {
            Err(StepFault::Refused(EntryWhy::Operation(number, why)))
        }
        Err(EntryFault::NoMemory) => Err(StepFault::NoMemory),
    }
}
