// The questions that look at a record, and those by a kind.
ghost use Rattle.std.specs.Prelude.{◌≡◌, map, option_map, Option};
ghost use Rattle.spec_records.specs.Records as spec;
ghost use Rattle.http_message.specs.Reading.{kind_view};
ghost use Rattle.context_records.specs.View.{context_view, key_set_view, record_view};
ghost use Rattle.context_cache.specs.Mirror.{IsMirror, held_at, keyed_set as keyed_set_of};
ghost use Rattle.context_cache.specs.Tables.{known_at};
ghost use Rattle.context_store.specs.ByKind.{delivery_of, greatest_of};

use crate::facts::keyed_set;
use crate::noting::opened_at;
use context_cache::Caches;
use context_records::{Context, KeySet, Record};
use http_message::Kind;
use n32_values::{Hex64, Text};

pub(crate) fn open_context<'a>(
    records: &'a [Record],
    caches: &Caches,
    node: &Text,
    id: Hex64,
) -> Option<&'a Context>
    requires { IsMirror caches.now (map record_view records.now) }
    ensures { option_map (λ x. context_view x.now) result ≡ spec.open_context node.now id.value (map record_view records.now) }
{
    if caches.closed(node.as_str(), id.value) {
        None
    } else {
        opened_at(records, caches.opened(node.as_str(), id.value))
    }
}

// The keys of the record of this number.
pub(crate) fn keyed_at(records: &[Record], number: Option<u32>) -> Option<&KeySet>
    ensures { option_map (λ k. key_set_view k.now) result ≡ held_at keyed_set_of (map record_view records.now) number }
{
    match number {
        None => None,
        Some(number) => match records.get(number as usize) {
            Some(record) => keyed_set(record),
            None => None,
        },
    }
}

pub(crate) fn delivery(
    caches: &Caches,
    node: &Text,
    id: Hex64,
    kind: Kind,
    message: Hex64,
) -> Option<u32>
    ensures { result ≡ delivery_of (kind_view kind) message.value (known_at node.now id.value caches.now) }
{
    match kind {
        Kind::Request => caches.delivered_request(node.as_str(), id.value, message.value),
        Kind::Response => caches.delivered_response(node.as_str(), id.value, message.value),
    }
}

pub(crate) fn widened(number: Option<u32>) -> Option<u64>
    ensures { result ≡ number }
{
    match number {
        Some(number) => Some(u64::from(number)),
        None => None,
    }
}

pub(crate) fn greatest(caches: &Caches, node: &Text, id: Hex64, kind: Kind) -> Option<u32>
    ensures { result ≡ greatest_of (kind_view kind) (known_at node.now id.value caches.now) }
{
    match kind {
        Kind::Request => caches.sent_request(node.as_str(), id.value),
        Kind::Response => caches.sent_response(node.as_str(), id.value),
    }
}

// Each number of 32 bits is a sequence number.
fn seq_at(number: u32) -> Option<u32>
    ensures { result ≡ spec.seq_at number }
{
    Some(number)
}

// The first number of these keys, or what follows the greatest that was sent.
pub(crate) fn seq_with(keys: Option<&KeySet>, greatest: Option<u32>) -> Option<u32>
    ensures { result ≡ spec.seq_with (option_map (λ k. key_set_view k.now) keys.entry) greatest }
{
    match keys {
        None => None,
        Some(keys) => match greatest {
            None => seq_at(keys.first),
            Some(greatest) => greatest.checked_add(1),
        },
    }
}
