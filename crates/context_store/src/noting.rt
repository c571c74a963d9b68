// One more record, and what it tells.
ghost use Rattle.std.specs.Prelude.{◌≡◌, ◌<◌, ◌≤◌, [], ◌∷◌, ◌++◌, length, map, option_map, OnOk, vec_len, vec_capacity};
ghost use Rattle.spec_records.specs.Records as spec;
ghost use Rattle.context_records.specs.View.{context_view, record_view};
ghost use Rattle.context_cache.specs.Mirror.{IsMirror, fact_of, held_at};
ghost use Rattle.context_cache.specs.Tables.{room_at};

use crate::facts::{fact, name_of, opened_context};
use context_cache::{Caches, Fact};
use context_records::{Context, Record};
use n32_values::NoMemory;
use std::alloc::Global;

// The context that the record of this number opened.
pub(crate) fn opened_at(records: &[Record], number: Option<u32>) -> Option<&Context>
    ensures { option_map (λ x. context_view x.now) result ≡ held_at spec.opened_context (map record_view records.now) number }
{
    match number {
        None => None,
        Some(number) => match records.get(number as usize) {
            Some(record) => opened_context(record),
            None => None,
        },
    }
}

fn fact_now(records: &[Record], caches: &Caches, item: &Record) -> Fact
    requires { IsMirror caches.now (map record_view records.now) }
    ensures { result ≡ fact_of (spec.opening (spec.node_of (record_view item.now)) (spec.context_of (record_view item.now)) (map record_view records.now)) (record_view item.now) }
{
    let (node, id) = name_of(item);
    fact(
        opened_at(records, caches.opened(node.as_str(), id.value)),
        item,
    )
}

// Makes room for a record in all lists.
pub(crate) fn make_room(
    alloc: Global,
    records: &mut Vec<Record>,
    caches: &mut Caches,
    item: &Record,
) -> Result<(), NoMemory>
    requires { IsMirror caches.old (map record_view records.old.items) }
    ensures items { records.new.items ≡ records.old.items }
    ensures mirror { IsMirror caches.new (map record_view records.new.items) }
    ensures room { OnOk result (1 ≤ room_at (spec.node_of (record_view item.now)) (spec.context_of (record_view item.now)) caches.new) }
    ensures spare { OnOk result (vec_len records.new < vec_capacity records.new) }
{
    let (node, id) = name_of(item);
    caches.reserve(alloc, node.as_str(), id.value)?;
    records.reserve(1)?;
    Ok(())
}

// Adds a record for which there is room.
pub(crate) fn push_record(records: &mut Vec<Record>, caches: &mut Caches, item: Record)
    requires mirror { IsMirror caches.old (map record_view records.old.items) }
    requires few { length records.old.items < spec.record_limit }
    requires room { 1 ≤ room_at (spec.node_of (record_view item)) (spec.context_of (record_view item)) caches.old }
    requires spare { vec_len records.old < vec_capacity records.old }
    ensures items { records.new.items ≡ records.old.items ++ item ∷ [] }
    ensures mirror { IsMirror caches.new (map record_view records.new.items) }
{
    let number = records.len() as u32;
    let fact = fact_now(records.as_slice(), &*caches, &item);
    let (node, id) = name_of(&item);
    caches.note(node.as_str(), id.value, number, fact);
    records.push(item).unwrap();
}
