// The record of a delivery, which is put before anything is delivered.
ghost use Rattle.std.specs.Prelude.{◌≡◌, ◌≤◌, true, IsTrue, IsErrOf};
ghost use Rattle.spec_documents.specs.Text.{is_node_name};
ghost use Rattle.n32_outside.specs.Causes.{Rose};
ghost use Rattle.context_store.specs.Stores.{IsConsistent};
ghost use Rattle.receiving_sepp.specs.Outcome.{Delivers, delivery_view};

use crate::checks::Checked;
use crate::faults::AcceptFault;
use crate::refused::Refused;
use context_records::Record;
use context_store::{AddFault, CallFault, Store};
use http_message::{Kind, Message};
use n32_outside::Keeper;
use n32_values::{Hex64, Text};
use std::alloc::Global;

/// A message that is delivered.
#[derive(Drop)]
pub struct Delivered {
    /// The message, with all its values.
    pub message: Message,
    /// Its message id.
    pub id: Hex64,
    /// Whether it is a request or a response.
    pub kind: Kind,
}

/// Puts the record of a checked message, and delivers it.
pub(crate) fn deliver<K: Keeper>(
    alloc: Global,
    store: &mut Store,
    keeper: &mut K,
    node: &Text,
    checked: Checked,
) -> Result<Delivered, AcceptFault>
    requires consistent { IsConsistent (K.held keeper.old) store.old }
    requires fresh { store.old.fresh ≡ true }
    requires named { IsTrue (is_node_name node.now) }
    ensures delivers { Delivers (K.held keeper.old) (K.held keeper.new) store.old store.new (delivery_view node.now checked) result }
    ensures consistent { IsConsistent (K.held keeper.new) store.new }
    ensures later { K.faults keeper.old ≤ K.faults keeper.new }
    ensures failed { IsErrOf result CallFault.Keeper → Rose (K.faults keeper.old) (K.faults keeper.new) }
{
    let item = Record::Delivered {
        node: node.copy(alloc)?,
        id: checked.context,
        kind: checked.kind,
        message: checked.message,
        mapping: checked.mapping,
    };
    match store.add(alloc, keeper, item) {
        Ok(_) => Ok(Delivered {
            message: checked.content,
            id: checked.message,
            kind: checked.kind,
        }),
        Err(AddFault::Limit) => Err(AcceptFault::Refused(Refused::Limit)),
        Err(AddFault::Keeper) => Err(AcceptFault::Keeper),
        Err(AddFault::NoMemory) => Err(AcceptFault::NoMemory),
    }
}
