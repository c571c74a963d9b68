// Keys and salts, as hexadecimal digits.
ghost use Rattle.std.specs.Prelude.{◌≡◌, option_map, IfOk, IsTrue, length, ◌==◌, ◌||◌};
ghost use Rattle.hex.specs.Hex.{encode_lower, IsBytes};
ghost use Rattle.n32_values.specs.View.{tree_of};
ghost use Rattle.spec_documents.specs.Tree.{words};
ghost use Rattle.spec_messages.specs.Message.{wanted};
ghost use Rattle.spec_messages.specs.PolicyDocument.{chosen};
ghost use Rattle.spec_records.specs.RecordDocument as document;
ghost use Rattle.context_records.specs.View.{key_view, one_key_view, key_pair_view};
ghost use Rattle.context_records.specs.Reading.{Gives};

use crate::context::OneKey;
use crate::read::RecordRead;
use aes_block::{Key128, Key256};
use doc_forms::put;
use hex::FromHex;
use jwe_flat::ContentKey;
use n32_values::{NoMemory, Node, NodeMap, Text};
use std::alloc::Global;

// A key of 16 or of 32 bytes.
fn key_of(text: &str) -> Option<ContentKey>
    ensures { option_map key_view result ≡ document.key_of text.now }
{
    if let Ok(bytes) = <[u8; 16] as FromHex>::from_hex(text) {
        return Some(ContentKey::Aes128(Key128::new(bytes)));
    }
    match <[u8; 32] as FromHex>::from_hex(text) {
        Ok(bytes) => Some(ContentKey::Aes256(Key256::new(bytes))),
        Err(_) => None,
    }
}

fn salt_of(text: &str) -> Option<[u8; 8]>
    ensures { result ≡ document.salt_of text.now }
{
    match <[u8; 8] as FromHex>::from_hex(text) {
        Ok(bytes) => Some(bytes),
        Err(_) => None,
    }
}

fn read_key(node: Option<&Node>) -> Result<ContentKey, RecordRead>
    ensures { Gives key_view result (wanted (chosen document.key_of (option_map (λ n. tree_of n.now) node.entry)) document.no_record) }
{
    if let Some(Node::Words(text)) = node {
        if let Some(key) = key_of(text.as_str()) {
            return Ok(key);
        }
    }
    Err(RecordRead::Form)
}

fn read_salt(node: Option<&Node>) -> Result<[u8; 8], RecordRead>
    ensures { Gives (λ s. s) result (wanted (chosen document.salt_of (option_map (λ n. tree_of n.now) node.entry)) document.no_record) }
{
    if let Some(Node::Words(text)) = node {
        if let Some(salt) = salt_of(text.as_str()) {
            return Ok(salt);
        }
    }
    Err(RecordRead::Form)
}

fn object_at(node: Option<&Node>) -> Result<&NodeMap, RecordRead>
    ensures { Gives (λ m. m.now) result (wanted (document.object_in (option_map (λ n. tree_of n.now) node.entry)) document.no_record) }
{
    match node {
        Some(Node::Members(map)) => Ok(map),
        _ => Err(RecordRead::Form),
    }
}

fn read_one_key(node: Option<&Node>) -> Result<OneKey, RecordRead>
    ensures { Gives one_key_view result (document.one_key_in (option_map (λ n. tree_of n.now) node.entry)) }
{
    let map = object_at(node)?;
    let key = read_key(map.get("key"))?;
    let salt = read_salt(map.get("salt"))?;
    Ok(OneKey { key, salt })
}

/// The keys of a direction, for requests and for responses.
pub fn read_key_pair(node: Option<&Node>) -> Result<(OneKey, OneKey), RecordRead>
    ensures { Gives key_pair_view result (document.key_pair_in (option_map (λ n. tree_of n.now) node.entry)) }
{
    let map = object_at(node)?;
    let request = read_one_key(map.get("request"))?;
    let response = read_one_key(map.get("response"))?;
    Ok((request, response))
}

fn hex_node(alloc: Global, bytes: &[u8]) -> Result<Node, NoMemory>
    ensures node { IfOk result (λ n. tree_of n ≡ words (encode_lower bytes.now)) }
    ensures bytes { IsBytes bytes.now }
{
    let digits = hex::encode(alloc, bytes)?;
    Ok(Node::Words(Text::from_string(digits)))
}

fn key_node(alloc: Global, key: &ContentKey) -> Result<Node, NoMemory>
    ensures node { IfOk result (λ n. tree_of n ≡ words (encode_lower (key_view key.now))) }
    ensures bytes { IsBytes (key_view key.now) }
    ensures length { IsTrue ((length (key_view key.now) == 16) || (length (key_view key.now) == 32)) }
{
    match key {
        ContentKey::Aes128(key) => hex_node(alloc, &key.key()),
        ContentKey::Aes256(key) => hex_node(alloc, &key.key()),
    }
}

fn one_key_node(alloc: Global, key: &OneKey) -> Result<Node, NoMemory>
    ensures node { IfOk result (λ n. tree_of n ≡ document.one_key_tree (one_key_view key.now)) }
    ensures range { IfOk result (λ _. document.IsOneKey (one_key_view key.now)) }
{
    let mut map = NodeMap::new(alloc);
    put(alloc, &mut map, "salt", hex_node(alloc, &key.salt)?)?;
    put(alloc, &mut map, "key", key_node(alloc, &key.key)?)?;
    Ok(Node::Members(map))
}

pub(crate) fn key_pair_node(
    alloc: Global,
    request: &OneKey,
    response: &OneKey,
) -> Result<Node, NoMemory>
    ensures node { IfOk result (λ n. tree_of n ≡ document.key_pair_tree (one_key_view request.now) (one_key_view response.now)) }
    ensures request { IfOk result (λ _. document.IsOneKey (one_key_view request.now)) }
    ensures response { IfOk result (λ _. document.IsOneKey (one_key_view response.now)) }
{
    let mut map = NodeMap::new(alloc);
    put(alloc, &mut map, "response", one_key_node(alloc, response)?)?;
    put(alloc, &mut map, "request", one_key_node(alloc, request)?)?;
    Ok(Node::Members(map))
}
