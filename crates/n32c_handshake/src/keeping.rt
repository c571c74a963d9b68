// The put of a record.
ghost use Rattle.std.specs.Prelude.{◌≡◌, ◌≤◌, true, IsTrue, IsErrOf};
ghost use Rattle.spec_records.specs.Records.{Opened};
ghost use Rattle.spec_records.specs.RecordDocument.{is_well_named};
ghost use Rattle.n32_outside.specs.Causes.{Rose};
ghost use Rattle.context_records.specs.View.{context_view, record_view};
ghost use Rattle.context_store.specs.Stores.{IsConsistent};
ghost use Rattle.n32c_handshake.specs.Outcome.{Keeps};

use crate::fault::HandFault;
use crate::refusal::HandRefusal;
use context_records::{Context, Record};
use context_store::{AddFault, CallFault, Store};
use n32_outside::Keeper;
use std::alloc::Global;

/// Puts a record, whose names are in their grammar, in a fresh store and its keeper.
pub(crate) fn keep<K: Keeper>(
    alloc: Global,
    store: &mut Store,
    keeper: &mut K,
    item: Record,
) -> Result<(), HandFault>
    requires consistent { IsConsistent (K.held keeper.old) store.old }
    requires fresh { store.old.fresh ≡ true }
    requires named { IsTrue (is_well_named (record_view item)) }
    ensures keeps { Keeps (K.held keeper.old) (K.held keeper.new) store.old store.new (record_view item) result }
    ensures consistent { IsConsistent (K.held keeper.new) store.new }
    ensures later { K.faults keeper.old ≤ K.faults keeper.new }
    ensures failed { IsErrOf result CallFault.Keeper → Rose (K.faults keeper.old) (K.faults keeper.new) }
{
    match store.add(alloc, keeper, item) {
        Ok(_) => Ok(()),
        Err(AddFault::Limit) => Err(HandFault::Refused(HandRefusal::Limit)),
        Err(AddFault::Keeper) => Err(HandFault::Keeper),
        Err(AddFault::NoMemory) => Err(HandFault::NoMemory),
    }
}

/// Puts the record of a context that opens, whose names are in their grammar.
pub(crate) fn keep_opened<K: Keeper>(
    alloc: Global,
    store: &mut Store,
    keeper: &mut K,
    context: Context,
) -> Result<(), HandFault>
    requires consistent { IsConsistent (K.held keeper.old) store.old }
    requires fresh { store.old.fresh ≡ true }
    requires named { IsTrue (is_well_named (Opened (context_view context))) }
    ensures keeps { Keeps (K.held keeper.old) (K.held keeper.new) store.old store.new (Opened (context_view context)) result }
    ensures consistent { IsConsistent (K.held keeper.new) store.new }
    ensures later { K.faults keeper.old ≤ K.faults keeper.new }
    ensures failed { IsErrOf result CallFault.Keeper → Rose (K.faults keeper.old) (K.faults keeper.new) }
{
    match Record::of_context(alloc, context) {
        Ok(item) => keep(alloc, store, keeper, item),
        Err(_) => Err(HandFault::NoMemory),
    }
}
