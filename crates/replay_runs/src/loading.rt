ghost use Rattle.std.specs.Prelude.{◌≤◌, IfErr, IfOk, IsErrOf, OnOk};
ghost use Rattle.n32_outside.specs.Causes.{Rose};
ghost use Rattle.n32_outside.specs.Contents.{Stays};
ghost use Rattle.context_store.specs.Stores.{HasNoBad, NamesBad};
ghost use Rattle.replay_runs.specs.Loads.{IsBegun};

use context_store::OpenFault;
use n32_outside::Keeper;
use replay_world::{World, load_world, new_world};
use std::alloc::Global;

/// A world without nodes, documents and starts of handshakes, over the records that the keeper holds, which are read here.
pub(crate) fn begun_world<K: Keeper>(alloc: Global, keeper: &mut K) -> Result<World, OpenFault>
    ensures begun { IfOk result (λ world. IsBegun (K.held keeper.new) world) }
    ensures sound { OnOk result (HasNoBad (K.held keeper.new)) }
    ensures same { Stays (K.held keeper.old) (K.held keeper.new) }
    ensures journal { IfErr result (NamesBad (K.held keeper.old)) }
    ensures later { K.faults keeper.old ≤ K.faults keeper.new }
    ensures failed { IsErrOf result OpenFault.Keeper → Rose (K.faults keeper.old) (K.faults keeper.new) }
{
    let mut world = new_world(alloc);
    load_world(alloc, &mut world, keeper)?;
    Ok(world)
}
