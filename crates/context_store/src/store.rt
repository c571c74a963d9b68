// The store.
ghost use Rattle.std.specs.Prelude.{◌≡◌, ◌<◌, ◌≤◌, ◌⊎◌, [], ◌∷◌, ◌++◌, true, false, map, length, option_map, Option, Ok, IfSome, IfOk, OnOk, OnErr, IfErr, IsErrOf, IsTrue};
ghost use Rattle.n32_outside.specs.Causes.{Rose};
ghost use Rattle.n32_outside.specs.Contents.{Stays, Gains};
ghost use Rattle.spec_records.specs.Records as spec;
ghost use Rattle.spec_documents.specs.Text.{is_node_name};
ghost use Rattle.spec_records.specs.RecordDocument.{are_ipx, is_well_named};
ghost use Rattle.http_message.specs.Reading.{kind_view};
ghost use Rattle.context_records.specs.View.{context_view, key_set_view, record_view};
ghost use Rattle.context_records.specs.Reading.{ReadsRecord, written};
ghost use Rattle.context_store.specs.Stores.{HasNoBad, IsConsistent, NamesBad};

use crate::faults::{AddFault, OpenFault};
use crate::loading::read_records;
use crate::noting::{make_room, push_record};
use crate::questions::{delivery, greatest, keyed_at, open_context, seq_with, widened};
use context_cache::Caches;
use context_records::{Context, KeySet, Record, record_text};
use http_message::Kind;
use n32_outside::{Keeper, OutFault};
use n32_values::{Hex64, Text};
use std::alloc::Global;
use std::marker::Model;

/// How many records may be held.
pub const RECORD_LIMIT: usize = 1_048_576;

/// The records of a keeper as they were last read or added, the oldest first, and whether they are fresh:
/// still those that are held. A fresh store is kept in step with its keeper. Contracts see both.
///
/// Beside the records it keeps what they tell of each context. A question looks up one context, and there one id
/// among runs of ids: it goes over no records and takes no memory.
#[derive(Drop)]
pub struct Store {
    records: Vec<Record>,
    caches: Caches,
    fresh: bool,
}

impl Model for Store {
    ghost use Rattle.std.specs.Prelude.{◌≤◌, length, map};
    ghost use Rattle.spec_records.specs.Records.{record_limit};
    ghost use Rattle.context_cache.specs.Mirror.{IsMirror};
    ghost use Rattle.context_records.specs.View.{record_view};
    ghost use Rattle.context_store.specs.Stores.{AreNamed, Stored};

    ghost Value = { Stored };

    ghost view = { λ s. record { records = map record_view s.records.items; fresh = s.fresh } };

    ghost invariant = { λ s. (length s.records.items ≤ record_limit) × AreNamed (map record_view s.records.items) × IsMirror s.caches (map record_view s.records.items) };
}

/// A stale store without records. It takes no memory.
pub fn new_store(alloc: Global) -> Store
    ensures records { result.records ≡ [] }
    ensures stale { result.fresh ≡ false }
{
    Store {
        records: Vec::new(alloc),
        caches: Caches::new(alloc),
        fresh: false,
    }
}

/// A fresh store with the records that a keeper holds. It reads each of them once.
///
/// `Journal` comes exactly where a held text is of no record or has the number 1,048,576, unless the keeper
/// failed or memory was refused before, and names the first. `Keeper` comes only where the keeper failed.
pub fn open_store<K: Keeper>(alloc: Global, keeper: &mut K) -> Result<Store, OpenFault>
    ensures consistent { IfOk result (λ store. IsConsistent (K.held keeper.new) store) }
    ensures fresh { IfOk result (λ store. store.fresh ≡ true) }
    ensures few { IfOk result (λ store. length store.records ≤ spec.record_limit) }
    ensures sound { IfOk result (λ _. HasNoBad (K.held keeper.new)) }
    ensures same { Stays (K.held keeper.old) (K.held keeper.new) }
    ensures journal { IfErr result (NamesBad (K.held keeper.old)) }
    ensures later { K.faults keeper.old ≤ K.faults keeper.new }
    ensures failed { IsErrOf result OpenFault.Keeper → Rose (K.faults keeper.old) (K.faults keeper.new) }
{
    let mut store = new_store(alloc);
    store.refresh(alloc, keeper)?;
    Ok(store)
}

impl Store {
    /// Reads the keeper again where the store is stale, and does nothing where it is fresh.
    ///
    /// After an `Err` the store is stale and has the records that it had. `Journal` and `Keeper` come as in
    /// `open_store`.
    pub fn refresh<K: Keeper>(&mut self, alloc: Global, keeper: &mut K) -> Result<(), OpenFault>
        requires { IsConsistent (K.held keeper.old) self.old }
        ensures consistent { IsConsistent (K.held keeper.new) self.new }
        ensures fresh { OnOk result (self.new.fresh ≡ true) }
        ensures few { OnOk result (length self.new.records ≤ spec.record_limit) }
        ensures sound { OnOk result (HasNoBad (K.held keeper.new)) }
        ensures idle { self.old.fresh ≡ true → (result ≡ Ok tt) × (self.new ≡ self.old) × (keeper.new ≡ keeper.old) }
        ensures stale { OnErr result (self.new.fresh ≡ false) }
        ensures kept { OnErr result (self.new.records ≡ self.old.records) }
        ensures same { Stays (K.held keeper.old) (K.held keeper.new) }
        ensures journal { IfErr result (NamesBad (K.held keeper.old)) }
        ensures later { K.faults keeper.old ≤ K.faults keeper.new }
        ensures failed { IsErrOf result OpenFault.Keeper → Rose (K.faults keeper.old) (K.faults keeper.new) }
    {
        if self.fresh {
            return Ok(());
        }
        let (records, caches) = read_records(alloc, keeper)?;
        self.records = records;
        self.caches = caches;
        self.fresh = true;
        Ok(())
    }

    /// Makes the store stale.
    pub fn forget(&mut self)
        ensures records { self.new.records ≡ self.old.records }
        ensures stale { self.new.fresh ≡ false }
    {
        self.fresh = false;
    }

    /// Adds a record, and answers its number. It takes its memory before it puts the record.
    ///
    /// `Limit` comes exactly where 1,048,576 records are held. `Keeper` comes only where the keeper failed:
    /// the store is then stale, and the record may be held or not. After `Limit` and `NoMemory` all is as it was.
    pub fn add<K: Keeper>(
        &mut self,
        alloc: Global,
        keeper: &mut K,
        item: Record,
    ) -> Result<u64, AddFault>
        requires consistent { IsConsistent (K.held keeper.old) self.old }
        requires fresh { self.old.fresh ≡ true }
        requires names { IsTrue (is_well_named (record_view item)) }
        ensures consistent { IsConsistent (K.held keeper.new) self.new }
        ensures number { IfOk result (λ number. number ≡ length self.old.records) }
        ensures added { OnOk result (self.new.records ≡ self.old.records ++ record_view item ∷ []) }
        ensures fresh { OnOk result (self.new.fresh ≡ true) }
        ensures put { OnOk result (Gains (K.held keeper.old) (K.held keeper.new) (written (record_view item))) }
        ensures room { OnOk result (length self.old.records < spec.record_limit) }
        ensures limit { IsErrOf result AddFault.Limit → spec.record_limit ≤ length self.old.records }
        ensures keeper { IsErrOf result AddFault.Keeper → length self.old.records < spec.record_limit }
        ensures stale { IsErrOf result AddFault.Keeper → self.new.fresh ≡ false }
        ensures perhaps { IsErrOf result AddFault.Keeper → Stays (K.held keeper.old) (K.held keeper.new)
            ⊎ Gains (K.held keeper.old) (K.held keeper.new) (written (record_view item)) }
        ensures read_back { OnOk result (ReadsRecord (written (record_view item)) (record_view item)) }
        ensures perhaps_read { IsErrOf result AddFault.Keeper → ReadsRecord (written (record_view item)) (record_view item) }
        ensures as_it_was { (IsErrOf result AddFault.Limit ⊎ IsErrOf result AddFault.NoMemory) → (self.new ≡ self.old) × Stays (K.held keeper.old) (K.held keeper.new) }
        ensures later { K.faults keeper.old ≤ K.faults keeper.new }
        ensures failed { IsErrOf result AddFault.Keeper → Rose (K.faults keeper.old) (K.faults keeper.new) }
    {
        if self.records.len() >= RECORD_LIMIT {
            return Err(AddFault::Limit);
        }
        let number = self.records.len() as u64;
        let text = record_text(alloc, &item)?;
        make_room(alloc, &mut self.records, &mut self.caches, &item)?;
        match keeper.put(text.as_slice()) {
            Ok(()) => {
                push_record(&mut self.records, &mut self.caches, item);
                Ok(number)
            }
            Err(OutFault::Failed) => {
                self.forget();
                Err(AddFault::Keeper)
            }
            Err(OutFault::NoMemory) => Err(AddFault::NoMemory),
        }
    }

    /// Whether the id is used at the node: it was offered, or a context of it was opened.
    pub fn used(&self, node: &Text, id: Hex64) -> bool
        ensures { result ≡ spec.used node.now id.value self.now.records }
    {
        self.caches.used(node.as_str(), id.value)
    }

    /// The context that is opened and not closed, `None` exactly where there is none. Of several opened records
    /// the first counts. Its node and its intermediary are in their grammar, as all names in a store.
    pub fn context(&self, node: &Text, id: Hex64) -> Option<&Context>
        ensures context { option_map (λ x. context_view x.now) result ≡ spec.open_context node.now id.value self.now.records }
        ensures node { IfSome result (λ _. IsTrue (is_node_name node.now)) }
        ensures own_ipx { IfSome result (λ x. IsTrue (are_ipx (context_view x.now).own_ipx)) }
    {
        open_context(&self.records, &self.caches, node, id)
    }

    /// The keys of the context: those of the first keyed record behind its opening whose key lengths fit its
    /// suite. `None` exactly where there is none.
    pub fn keys(&self, node: &Text, id: Hex64) -> Option<&KeySet>
        ensures { option_map (λ k. key_set_view k.now) result ≡ spec.keys node.now id.value self.now.records }
    {
        keyed_at(&self.records, self.caches.keyed(node.as_str(), id.value))
    }

    /// The number of the first record of the delivery of a message, `None` exactly where it was not delivered.
    pub fn delivered(&self, node: &Text, id: Hex64, kind: Kind, message: Hex64) -> Option<u64>
        ensures { result ≡ spec.delivered_at node.now id.value (kind_view kind) message.value self.now.records }
    {
        widened(delivery(&self.caches, node, id, kind, message))
    }

    /// The mapping kept with the request that was sent under a message id, `None` exactly where none was.
    pub fn mapping_sent(&self, node: &Text, id: Hex64, message: Hex64) -> Option<Option<u32>>
        ensures { result ≡ spec.mapping_sent node.now id.value message.value self.now.records }
    {
        self.caches
            .mapping_sent(node.as_str(), id.value, message.value)
    }

    /// The mapping kept with the request that was delivered under a message id, `None` exactly where none was.
    pub fn mapping_delivered(&self, node: &Text, id: Hex64, message: Hex64) -> Option<Option<u32>>
        ensures { result ≡ spec.mapping_delivered node.now id.value message.value self.now.records }
    {
        self.caches
            .mapping_delivered(node.as_str(), id.value, message.value)
    }

    /// Whether a response was sent under a message id, which is that of its request.
    pub fn answered(&self, node: &Text, id: Hex64, message: Hex64) -> bool
        ensures { result ≡ spec.answered node.now id.value message.value self.now.records }
    {
        self.caches.answered(node.as_str(), id.value, message.value)
    }

    /// The next sequence number of a kind: the keys' first where nothing of the kind was sent, else the greatest
    /// that was sent and 1. `None` exactly where that has more than 32 bits, or the context has no keys.
    pub fn next_seq(&self, node: &Text, id: Hex64, kind: Kind) -> Option<u32>
        ensures { result ≡ spec.next_seq node.now id.value (kind_view kind) self.now.records }
    {
        seq_with(self.keys(node, id), greatest(&self.caches, node, id, kind))
    }
}
