// The world of a replay.
ghost use Rattle.std.specs.Prelude.{◌≡◌, ◌≤◌, [], true, false, length, IfErr, IsErrOf, OnErr, OnOk, Option, List, ℕ};
ghost use Rattle.n32_outside.specs.Causes.{Rose};
ghost use Rattle.n32_outside.specs.Contents.{Stays};
ghost use Rattle.spec_records.specs.Records.{record_limit};
ghost use Rattle.context_store.specs.Stores.{HasNoBad, Holds, NamesBad};
ghost use Rattle.replay_world.specs.Worlds.{IsReady};

use context_store::{OpenFault, Store, new_store};
use n32_outside::Keeper;
use n32_values::{DocList, List, PlmnId, Text};
use n32c_handshake::Hands;
use std::alloc::Global;

/// A node: a SEPP that works.
#[derive(Drop)]
pub struct Site {
    /// Its name.
    pub node: Text,
    /// The network that it stands in.
    pub plmn: PlmnId,
}

/// A list of nodes.
pub type SiteList = List<Site>;

/// All that a replay keeps between two lines: its nodes, the documents on the wire, the records of contexts, and the
/// starts of handshakes.
#[derive(Drop)]
pub struct World {
    /// The nodes, in the order in which they began to work.
    pub sites: SiteList,
    /// The documents on the wire. The one of number n, from 1, is item n - 1.
    pub wire: DocList,
    /// How many bytes the documents on the wire have as compact texts.
    pub wire_bytes: u64,
    /// The records, as they were last read or added.
    pub store: Store,
    /// The starts of handshakes that wait.
    pub hands: Hands,
}

/// A world without nodes, documents and starts, whose store is stale and has no record. It takes no memory.
pub fn new_world(alloc: Global) -> World
    ensures sites { result.sites ≡ [] }
    ensures wire { result.wire ≡ [] }
    ensures bytes { result.wire_bytes ≡ 0 }
    ensures records { result.store.records ≡ [] }
    ensures stale { result.store.fresh ≡ false }
    ensures hands { result.hands ≡ [] }
    ensures ready { (held : Option (List (List ℕ))) → IsReady held result }
{
    World {
        sites: SiteList::new(alloc),
        wire: DocList::new(alloc),
        wire_bytes: 0,
        store: new_store(alloc),
        hands: Hands::new(alloc),
    }
}

/// Reads the records that the keeper holds, where the world's store is stale. All else of the world stays.
///
/// `Journal` comes exactly where a held text is of no record or has the number 1,048,576, unless the keeper
/// failed or memory was refused before, and names the first. `Keeper` comes only where the keeper failed.
pub fn load_world<K: Keeper>(
    alloc: Global,
    world: &mut World,
    keeper: &mut K,
) -> Result<(), OpenFault>
    requires { IsReady (K.held keeper.old) world.old }
    ensures ready { IsReady (K.held keeper.new) world.new }
    ensures sites { world.new.sites ≡ world.old.sites }
    ensures wire { world.new.wire ≡ world.old.wire }
    ensures bytes { world.new.wire_bytes ≡ world.old.wire_bytes }
    ensures hands { world.new.hands ≡ world.old.hands }
    ensures fresh { OnOk result (world.new.store.fresh ≡ true) }
    ensures held { OnOk result (Holds (K.held keeper.new) world.new.store.records) }
    ensures few { OnOk result (length world.new.store.records ≤ record_limit) }
    ensures sound { OnOk result (HasNoBad (K.held keeper.new)) }
    ensures stale { OnErr result (world.new.store.fresh ≡ false) }
    ensures same { Stays (K.held keeper.old) (K.held keeper.new) }
    ensures journal { IfErr result (NamesBad (K.held keeper.old)) }
    ensures later { K.faults keeper.old ≤ K.faults keeper.new }
    ensures failed { IsErrOf result OpenFault.Keeper → Rose (K.faults keeper.old) (K.faults keeper.new) }
{
    world.store.refresh(alloc, keeper)
}
