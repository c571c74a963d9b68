// The table of contexts.
ghost use Rattle.std.specs.Prelude.{◌≡◌, ℕ, ◌≤◌, List, [], ◌∷◌, ◌++◌, map, None, OnOk, OnErr, IfOk, IfSome, IfNone, option_map, is_some, if◌then◌else◌};
ghost use Rattle.std.specs.Map.{lookup};
ghost use Rattle.std.specs.String.{string_bytes};
ghost use Rattle.id_runs.specs.Runs.{entry_of};
ghost use Rattle.context_cache.specs.Known.{nothing_known, noted};
ghost use Rattle.context_cache.specs.Tables.{is_named, known_at, room_at, known_of, kept_of, names};

use crate::cache::{Cache, make_room, note, roomy_cache};
use crate::fact::Fact;
use crate::name::{Name, NameRef};
use id_runs::{mapping_of, number_of};
use indexmap::IndexMap;
use n32_values::NoMemory;
use std::alloc::Global;
use std::marker::Model;

/// The contexts, in the order of their first records. Contracts see of each its name, what is kept of it, and how
/// many more ids fit without memory.
#[derive(Drop)]
pub struct Caches {
    table: IndexMap<Name, Cache>,
}

impl Model for Caches {
    ghost use Rattle.std.specs.Prelude.{List, map};
    ghost use Rattle.context_cache.specs.Tables.{Kept, kept_of};

    ghost Value = { List Kept };

    ghost view = { λ s. map kept_of s.table.entries };
}

// A name that is new goes last.
fn put(table: &mut IndexMap<Name, Cache>, name: Name, cache: Cache) -> Result<(), NoMemory>
    requires { lookup (names (string_bytes name.node) name.id) table.old.entries ≡ None }
    ensures ok { OnOk result (table.new.entries ≡ table.old.entries ++ (name, cache) ∷ []) }
    ensures err { OnErr result (table.new.entries ≡ table.old.entries) }
{
    match table.insert(name, cache) {
        Ok(_) => Ok(()),
        Err(_) => Err(NoMemory),
    }
}

fn new_name(alloc: Global, node: &str, id: u64) -> Result<Name, NoMemory>
    ensures node { IfOk result (λ name. string_bytes name.node ≡ node.now) }
    ensures id { IfOk result (λ name. name.id ≡ id) }
{
    match String::from_str(alloc, node) {
        Ok(node) => Ok(Name { node, id }),
        Err(_) => Err(NoMemory),
    }
}

// Nothing is known of a context that is new.
fn put_new(
    table: &mut IndexMap<Name, Cache>,
    alloc: Global,
    node: &str,
    id: u64,
) -> Result<(), NoMemory>
    requires { lookup (names node.now id) table.old.entries ≡ None }
    ensures known { (n : List ℕ) (i : ℕ) → known_at n i (map kept_of table.new.entries) ≡ known_at n i (map kept_of table.old.entries) }
    ensures room { OnOk result (1 ≤ room_at node.now id (map kept_of table.new.entries)) }
{
    match roomy_cache(alloc) {
        Ok(cache) => match new_name(alloc, node, id) {
            Ok(name) => put(table, name, cache),
            Err(refused) => Err(refused),
        },
        Err(refused) => Err(refused),
    }
}

impl Caches {
    /// No contexts. It takes no memory.
    pub fn new(alloc: Global) -> Caches
        ensures { result ≡ [] }
    {
        Caches {
            table: IndexMap::new(alloc),
        }
    }

    /// Makes room for one more record of a context. What is known stays, whatever the answer.
    pub fn reserve(&mut self, alloc: Global, node: &str, id: u64) -> Result<(), NoMemory>
        ensures known { (n : List ℕ) (i : ℕ) → known_at n i self.new ≡ known_at n i self.old }
        ensures room { OnOk result (1 ≤ room_at node.now id self.new) }
    {
        match self.table.get_index_of(NameRef { node, id }) {
            Some(i) => {
                let (_, cache) = self.table.pair_mut(i);
                make_room(cache)
            }
            None => put_new(&mut self.table, alloc, node, id),
        }
    }

    /// Keeps what the record of this number tells of its context. It takes no memory.
    pub fn note(&mut self, node: &str, id: u64, number: u32, fact: Fact)
        requires { 1 ≤ room_at node.now id self.old }
        ensures { (n : List ℕ) (i : ℕ) → known_at n i self.new ≡ (if is_named n i node.now id then noted number fact (known_at node.now id self.old) else known_at n i self.old) }
    {
        match self.table.get_index_of(NameRef { node, id }) {
            Some(i) => {
                let (_, cache) = self.table.pair_mut(i);
                note(cache, number, fact);
            }
            None => {}
        }
    }

    fn find(&self, node: &str, id: u64) -> Option<&Cache>
        ensures some { IfSome result (λ c. known_of c.now ≡ known_at node.now id self.now) }
        ensures none { IfNone result (nothing_known ≡ known_at node.now id self.now) }
    {
        self.table.get(NameRef { node, id })
    }

    /// Whether the id was offered or opened.
    pub fn used(&self, node: &str, id: u64) -> bool
        ensures { result ≡ (known_at node.now id self.now).used }
    {
        match self.find(node, id) {
            Some(cache) => cache.used,
            None => false,
        }
    }

    /// The number of the first opened record.
    pub fn opened(&self, node: &str, id: u64) -> Option<u32>
        ensures { result ≡ (known_at node.now id self.now).opened }
    {
        match self.find(node, id) {
            Some(cache) => cache.opened,
            None => None,
        }
    }

    /// Whether the context was closed.
    pub fn closed(&self, node: &str, id: u64) -> bool
        ensures { result ≡ (known_at node.now id self.now).closed }
    {
        match self.find(node, id) {
            Some(cache) => cache.closed,
            None => false,
        }
    }

    /// The number of the record with the keys.
    pub fn keyed(&self, node: &str, id: u64) -> Option<u32>
        ensures { result ≡ (known_at node.now id self.now).keyed }
    {
        match self.find(node, id) {
            Some(cache) => cache.keyed,
            None => None,
        }
    }

    /// The greatest number of a request that was sent.
    pub fn sent_request(&self, node: &str, id: u64) -> Option<u32>
        ensures { result ≡ (known_at node.now id self.now).sent_request }
    {
        match self.find(node, id) {
            Some(cache) => cache.sent_request,
            None => None,
        }
    }

    /// The greatest number of a response that was sent.
    pub fn sent_response(&self, node: &str, id: u64) -> Option<u32>
        ensures { result ≡ (known_at node.now id self.now).sent_response }
    {
        match self.find(node, id) {
            Some(cache) => cache.sent_response,
            None => None,
        }
    }

    /// The mapping of the first request that was sent under a message id.
    pub fn mapping_sent(&self, node: &str, id: u64, message: u64) -> Option<Option<u32>>
        ensures { result ≡ option_map (λ e. e.mapping) (entry_of message (known_at node.now id self.now).sent_requests) }
    {
        match self.find(node, id) {
            Some(cache) => mapping_of(&cache.sent_requests, message),
            None => None,
        }
    }

    /// Whether a response was sent under a message id.
    pub fn answered(&self, node: &str, id: u64, message: u64) -> bool
        ensures { result ≡ is_some (entry_of message (known_at node.now id self.now).sent_responses) }
    {
        match self.find(node, id) {
            Some(cache) => number_of(&cache.sent_responses, message).is_some(),
            None => false,
        }
    }

    /// The mapping of the first request that was delivered under a message id.
    pub fn mapping_delivered(&self, node: &str, id: u64, message: u64) -> Option<Option<u32>>
        ensures { result ≡ option_map (λ e. e.mapping) (entry_of message (known_at node.now id self.now).delivered_requests) }
    {
        match self.find(node, id) {
            Some(cache) => mapping_of(&cache.delivered_requests, message),
            None => None,
        }
    }

    /// The number of the first record of a delivered request.
    pub fn delivered_request(&self, node: &str, id: u64, message: u64) -> Option<u32>
        ensures { result ≡ option_map (λ e. e.number) (entry_of message (known_at node.now id self.now).delivered_requests) }
    {
        match self.find(node, id) {
            Some(cache) => number_of(&cache.delivered_requests, message),
            None => None,
        }
    }

    /// The number of the first record of a delivered response.
    pub fn delivered_response(&self, node: &str, id: u64, message: u64) -> Option<u32>
        ensures { result ≡ option_map (λ e. e.number) (entry_of message (known_at node.now id self.now).delivered_responses) }
    {
        match self.find(node, id) {
            Some(cache) => number_of(&cache.delivered_responses, message),
            None => None,
        }
    }
}
