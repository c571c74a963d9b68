// The keys and nonces of a context's messages.
ghost use Rattle.std.specs.Prelude.{◌≡◌, IsTrue};
ghost use Rattle.spec_records.specs.Keys as keys_of;
ghost use Rattle.spec_records.specs.Records.{key_fits, keys_fit};
ghost use Rattle.http_message.specs.Reading.{kind_view};
ghost use Rattle.spec_sealing.specs.Suites.{content_key};
ghost use Rattle.jwe_flat.specs.View.{content_key_view};
ghost use Rattle.context_records.specs.View.{key_set_view, one_key_view, suite_view};

use crate::context::{KeySet, OneKey};
use http_message::Kind;
use jwe_flat::{ContentKey, Suite};

// A key that fits a suite is the suite's.
fn fitting(suite: Suite, key: &OneKey) -> &ContentKey
    requires { IsTrue (key_fits (suite_view suite) (one_key_view key.now)) }
    ensures { content_key_view result.now ≡ content_key (suite_view suite) (one_key_view key.now).key }
{
    let _length = match &key.key {
        ContentKey::Aes128(key) => key.key().len(),
        ContentKey::Aes256(key) => key.key().len(),
    };
    &key.key
}

fn sending(keys: &KeySet, kind: Kind) -> &OneKey
    ensures { one_key_view result.now ≡ keys_of.send_key (kind_view kind) (key_set_view keys.now) }
{
    match kind {
        Kind::Request => &keys.send_request,
        Kind::Response => &keys.send_response,
    }
}

fn receiving(keys: &KeySet, kind: Kind) -> &OneKey
    ensures { one_key_view result.now ≡ keys_of.receive_key (kind_view kind) (key_set_view keys.now) }
{
    match kind {
        Kind::Request => &keys.receive_request,
        Kind::Response => &keys.receive_response,
    }
}

/// The key that messages of the kind are sealed under. The keys must fit the suite, as those of an open context do.
pub fn send_key(suite: Suite, keys: &KeySet, kind: Kind) -> &ContentKey
    requires { IsTrue (keys_fit (suite_view suite) (key_set_view keys.now)) }
    ensures { content_key_view result.now ≡ content_key (suite_view suite) (keys_of.send_key (kind_view kind) (key_set_view keys.now)).key }
{
    fitting(suite, sending(keys, kind))
}

/// The key that a peer's messages of the kind are sealed under. The keys must fit the suite, as those of an open
/// context do.
pub fn receive_key(suite: Suite, keys: &KeySet, kind: Kind) -> &ContentKey
    requires { IsTrue (keys_fit (suite_view suite) (key_set_view keys.now)) }
    ensures { content_key_view result.now ≡ content_key (suite_view suite) (keys_of.receive_key (kind_view kind) (key_set_view keys.now)).key }
{
    fitting(suite, receiving(keys, kind))
}

/// The nonce of a message of the kind: the salt of the sending key, and the sequence number as four bytes, the
/// greatest first (TS 33.501 clause 13.2.4.4.2 in outline).
pub fn send_nonce(keys: &KeySet, kind: Kind, seq: u32) -> [u8; 12]
    ensures { result ≡ keys_of.nonce (keys_of.send_key (kind_view kind) (key_set_view keys.now)) seq }
{
    let salt = &sending(keys, kind).salt;
    let [a, b, c, d] = seq.to_be_bytes();
    [
        salt[0], salt[1], salt[2], salt[3], salt[4], salt[5], salt[6], salt[7], a, b, c, d,
    ]
}
