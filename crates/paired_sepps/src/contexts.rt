// What a store has of an open context: its names are in their grammar, ids have 64 bits, and keys are bytes. Each
// function gives such a fact and changes nothing.
ghost use Rattle.std.specs.Prelude.{◌≡◌, ◌==◌, ◌||◌, length, Some, IsTrue};
ghost use Rattle.base64.specs.GeneralPurpose.{IsBytes};
ghost use Rattle.spec_records.specs.Records as spec;
ghost use Rattle.spec_records.specs.RecordDocument.{are_ipx, IsKeySet, IsOneKey};
ghost use Rattle.spec_exchange.specs.Untouched.{HasNames};
ghost use Rattle.context_records.specs.View.{context_view, key_set_view, key_view, one_key_view};

use context_records::{Context, KeySet, OneKey};
use context_store::Store;
use jwe_flat::ContentKey;
use n32_values::{Hex64, Text};

fn is_named(context: &Context)
    requires { IsTrue (are_ipx (context_view context.now).own_ipx) }
    ensures { HasNames (context_view context.now) }
{
    let _id = context.peer.value;
}

// What an open context names is in its grammar.
pub(crate) fn context_is_named(store: &Store, node: &Text, id: Hex64)
    ensures { (x : spec.Context) → spec.open_context node.now id.value store.now.records ≡ Some x → HasNames x }
{
    if let Some(context) = store.context(node, id) {
        is_named(context);
    }
}

fn are_bytes(bytes: &[u8])
    ensures { IsBytes bytes.now }
{
    let _count = bytes.len();
}

fn is_key(key: &ContentKey)
    ensures bytes { IsBytes (key_view key.now) }
    ensures length { IsTrue ((length (key_view key.now) == 16) || (length (key_view key.now) == 32)) }
{
    match key {
        ContentKey::Aes128(key) => are_bytes(&key.key()),
        ContentKey::Aes256(key) => are_bytes(&key.key()),
    }
}

fn is_one_key(key: &OneKey)
    ensures { IsOneKey (one_key_view key.now) }
{
    is_key(&key.key);
    are_bytes(&key.salt);
}

fn is_key_set(keys: &KeySet)
    ensures { IsKeySet (key_set_view keys.now) }
{
    let _first = keys.first;
    is_one_key(&keys.send_request);
    is_one_key(&keys.send_response);
    is_one_key(&keys.receive_request);
    is_one_key(&keys.receive_response);
}

// The keys of a context are bytes, each as many as its suite asks.
pub(crate) fn context_has_keys(store: &Store, node: &Text, id: Hex64)
    ensures { (k : spec.KeySet) → spec.keys node.now id.value store.now.records ≡ Some k → IsKeySet k }
{
    if let Some(keys) = store.keys(node, id) {
        is_key_set(keys);
    }
}
