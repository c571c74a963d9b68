// The record of a message, which is put before its document is handed out.
ghost use Rattle.std.specs.Prelude.{◌≡◌, ◌<◌, ◌≤◌, length, true, IsTrue, IsErrOf};
ghost use Rattle.spec_documents.specs.Text.{is_node_name};
ghost use Rattle.spec_records.specs.Records.{record_limit};
ghost use Rattle.n32_outside.specs.Causes.{Rose};
ghost use Rattle.context_store.specs.Stores.{IsConsistent};
ghost use Rattle.sending_sepp.specs.Outcome.{Records, sealed_view};

use crate::checks::Checked;
use crate::fault::{ProtectFault, SendFault};
use block_forms::LimitName;
use context_records::Record;
use context_store::{AddFault, CallFault, Store};
use n32_outside::Keeper;
use n32_values::{Doc, Hex64, Text};
use std::alloc::Global;

/// Puts the record of a sealed message, and hands out its document.
pub(crate) fn record_sent<K: Keeper>(
    alloc: Global,
    store: &mut Store,
    keeper: &mut K,
    node: &Text,
    id: Hex64,
    checked: Checked,
) -> Result<Doc, ProtectFault>
    requires consistent { IsConsistent (K.held keeper.old) store.old }
    requires fresh { store.old.fresh ≡ true }
    requires named { IsTrue (is_node_name node.now) }
    ensures records { Records (K.held keeper.old) (K.held keeper.new) store.old store.new (sealed_view node.now id.value checked) result }
    ensures room { IsErrOf result CallFault.Keeper → length store.old.records < record_limit }
    ensures consistent { IsConsistent (K.held keeper.new) store.new }
    ensures later { K.faults keeper.old ≤ K.faults keeper.new }
    ensures failed { IsErrOf result CallFault.Keeper → Rose (K.faults keeper.old) (K.faults keeper.new) }
{
    let item = Record::Sent {
        node: node.copy(alloc)?,
        id,
        kind: checked.outgoing.kind(),
        seq: checked.seq,
        message: checked.outgoing.message_id(checked.seq),
        mapping: checked.mapping,
    };
    match store.add(alloc, keeper, item) {
        Ok(_) => Ok(checked.document),
        Err(AddFault::Limit) => { Err(ProtectFault::Refused(SendFault::Limit(LimitName::Records))) }
        Err(AddFault::Keeper) => Err(ProtectFault::Keeper),
        Err(AddFault::NoMemory) => Err(ProtectFault::NoMemory),
    }
}
