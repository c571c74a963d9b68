// The calls of `aes_block` and `gcm_mode`. Bytes are hexadecimal digits.
use crate::keys::{block_of, key_of, nonce_of};
use aes_block::BlockKey;
use gcm_mode::{GhashTable, open_in_place, seal_in_place};
use jwe_flat::ContentKey;
use n32_values::{Bytes, Node, NodeList, copy_doc, is_same_doc};
use std::alloc::Global;
use worked_rows::{Args, Given, digits_node, fault_node, member_node, number_of, pair_node};

fn encrypted(key: ContentKey, block: [u8; 16]) -> [u8; 16] {
    match &key {
        ContentKey::Aes128(key) => key.encrypt_block(block),
        ContentKey::Aes256(key) => key.encrypt_block(block),
    }
}

/// The encrypted `block`.
pub fn encrypt_block_call(alloc: Global, args: Args<'_>) -> Option<Node> {
    let block = block_of(args.text("block")?)?;
    let block = encrypted(key_of(args.text("key")?)?, block);
    digits_node(alloc, &block)
}

fn key_digits(alloc: Global, key: ContentKey) -> Option<Node> {
    match &key {
        ContentKey::Aes128(key) => digits_node(alloc, &key.key()),
        ContentKey::Aes256(key) => digits_node(alloc, &key.key()),
    }
}

/// The bytes that a key was made of.
pub fn key_call(alloc: Global, args: Args<'_>) -> Option<Node> {
    key_digits(alloc, key_of(args.text("key")?)?)
}

/// The product of the blocks `h` and `x`.
pub fn ghash_times_call(alloc: Global, args: Args<'_>) -> Option<Node> {
    let x = u128::from_be_bytes(block_of(args.text("x")?)?);
    let table = GhashTable::new(u128::from_be_bytes(block_of(args.text("h")?)?));
    digits_node(alloc, &table.times(x).to_be_bytes())
}

/// What is sealed or opened.
#[derive(Clone, Copy)]
struct Sealing<'a> {
    nonce: [u8; 12],
    /// The tag, where it is opened.
    tag: Option<[u8; 16]>,
    /// The additional data.
    data: &'a [u8],
    /// The plaintext, or else the ciphertext.
    bytes: &'a [u8],
    /// Where the data is cut in two.
    splits: &'a NodeList,
}

fn sealed(
    alloc: Global,
    key: &ContentKey,
    nonce: &[u8; 12],
    data: (&[u8], &[u8]),
    buffer: &mut [u8],
) -> Option<Node> {
    let (head, tail) = data;
    let tag = match key {
        ContentKey::Aes128(key) => seal_in_place(key, nonce, head, tail, buffer),
        ContentKey::Aes256(key) => seal_in_place(key, nonce, head, tail, buffer),
    };
    let ciphertext = digits_node(alloc, buffer);
    pair_node(
        alloc,
        "ciphertext",
        ciphertext,
        "tag",
        digits_node(alloc, &tag),
    )
}

fn opened(
    alloc: Global,
    key: &ContentKey,
    nonce: &[u8; 12],
    data: (&[u8], &[u8]),
    buffer: &mut [u8],
    tag: &[u8; 16],
) -> Option<Node> {
    let (head, tail) = data;
    let is_opened = match key {
        ContentKey::Aes128(key) => open_in_place(key, nonce, head, tail, buffer, tag),
        ContentKey::Aes256(key) => open_in_place(key, nonce, head, tail, buffer, tag),
    };
    if is_opened {
        digits_node(alloc, buffer)
    } else {
        member_node(alloc, "kept", digits_node(alloc, buffer)?)
    }
}

fn cut_at(data: &[u8], place: usize) -> Option<(&[u8], &[u8])> {
    if place <= data.len() {
        Some(data.split_at(place))
    } else {
        None
    }
}

fn at_split(alloc: Global, key: &ContentKey, what: &Sealing<'_>, split: &Node) -> Option<Node> {
    let data = cut_at(what.data, number_of(split)? as usize)?;
    let mut buffer = Bytes::from_slice(alloc, what.bytes).ok()?.into_vec();
    match &what.tag {
        Some(tag) => opened(alloc, key, &what.nonce, data, &mut buffer, tag),
        None => sealed(alloc, key, &what.nonce, data, &mut buffer),
    }
}

fn is_one(list: &NodeList) -> bool {
    for i in 1..list.len() {
        if !is_same_doc(list.item(0), list.item(i)) {
            return false;
        }
    }
    true
}

// The node of which a list has nothing else.
fn one_of(alloc: Global, list: &NodeList) -> Option<Node> {
    let node = list.get(0)?;
    if is_one(list) {
        copy_doc(alloc, node).ok()
    } else {
        fault_node(alloc, "SPLITS")
    }
}

// What every split gives.
fn at_splits(alloc: Global, key: &ContentKey, what: &Sealing<'_>) -> Option<Node> {
    let mut list = NodeList::new(alloc);
    for i in 0..what.splits.len() {
        list.push(at_split(alloc, key, what, what.splits.item(i))?)
            .ok()?;
    }
    one_of(alloc, &list)
}

fn done(alloc: Global, key: ContentKey, what: Sealing<'_>) -> Option<Node> {
    at_splits(alloc, &key, &what)
}

fn sealing_in<'a>(args: Args<'a>, given: &'a Given, tag: Option<[u8; 16]>) -> Option<Sealing<'a>> {
    Some(Sealing {
        nonce: nonce_of(args.text("nonce")?)?,
        tag,
        data: given.data.as_ref()?.as_slice(),
        bytes: given.bytes.as_ref()?.as_slice(),
        splits: args.list("splits")?,
    })
}

/// The ciphertext and the tag of `bytes`, as every split of the data gives them.
pub fn seal_in_place_call(alloc: Global, args: Args<'_>, given: &Given) -> Option<Node> {
    let what = sealing_in(args, given, None)?;
    done(alloc, key_of(args.text("key")?)?, what)
}

/// The plaintext that `bytes` are opened to at every split of the data; or `kept`, the bytes that are left
/// where they aren't opened.
pub fn open_in_place_call(alloc: Global, args: Args<'_>, given: &Given) -> Option<Node> {
    let tag = block_of(args.text("tag")?)?;
    let what = sealing_in(args, given, Some(tag))?;
    done(alloc, key_of(args.text("key")?)?, what)
}
