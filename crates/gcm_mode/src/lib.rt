//! The mode GCM (SP 800-38D), with nonces of 96 bits and tags of 128 bits.
//!
//! Slices of every length are taken. For a text of at most 68,719,476,704 bytes and additional data of
//! less than 2^61 bytes this is the standard's GCM; past that the counter and the lengths go round.
#![tactic(auto)]

ghost use Rattle.std.specs.Prelude.{◌≡◌, ◌<◌, ◌^◌, ◌↔◌, ℕ, List, [], ◌∷◌, ◌++◌, IsTrue};
ghost use Rattle.std.specs.Bool.{OnTrue, OnFalse};
ghost use Rattle.spec_sealing.specs.Gcm.{Opens, Seals, blocks, lengths, tag_of};
ghost use Rattle.spec_sealing.specs.GcmField.{ghash};

mod byte_table;
mod field;
mod ghash;
mod key_stream;

use aes_block::BlockKey;
use byte_table::ByteTable;
use field::Factor;
pub use field::GhashTable;
use ghash::absorb;
use key_stream::{add_key_stream, counter_block};

/// Replaces the plaintext in `buffer` by the ciphertext, and returns the tag (SP 800-38D, section 7.1).
/// The additional data is `head` followed by `tail`.
pub fn seal_in_place<B: BlockKey>(
    key: &B,
    iv: &[u8; 12],
    head: &[u8],
    tail: &[u8],
    buffer: &mut [u8],
) -> [u8; 16]
    ensures { Seals (B.cipher key.now) iv.now (head.now ++ tail.now) buffer.old buffer.new result }
{
    add_key_stream(key, iv, buffer);
    tag_of(key, iv, head, tail, buffer)
}

/// Says whether `tag` is that of the ciphertext in `buffer`, and if so replaces this by the plaintext
/// (SP 800-38D, section 7.2). The additional data is `head` followed by `tail`.
pub fn open_in_place<B: BlockKey>(
    key: &B,
    iv: &[u8; 12],
    head: &[u8],
    tail: &[u8],
    buffer: &mut [u8],
    tag: &[u8; 16],
) -> bool
    ensures verdict { IsTrue result ↔
        (tag.now ≡ tag_of (B.cipher key.now) iv.now (head.now ++ tail.now) buffer.old) }
    ensures opened { OnTrue result
        (Opens (B.cipher key.now) iv.now (head.now ++ tail.now) buffer.old tag.now buffer.new) }
    ensures kept { OnFalse result (buffer.new ≡ buffer.old) }
{
    let found = tag_of(key, iv, head, tail, buffer);
    if *tag != found {
        return false;
    }
    add_key_stream(key, iv, buffer);
    true
}

// From this number of bytes on a table of 256 products is made.
const LONG: usize = 1024;

fn tag_of<B: BlockKey>(key: &B, iv: &[u8; 12], head: &[u8], tail: &[u8], text: &[u8]) -> [u8; 16]
    ensures { result ≡ tag_of (B.cipher key.now) iv.now (head.now ++ tail.now) text.now }
{
    let h = u128::from_be_bytes(key.encrypt_block([0; 16]));
    let mask = u128::from_be_bytes(key.encrypt_block(counter_block(iv, 1)));
    (mask ^ hashed(h, head, tail, text)).to_be_bytes()
}

// The GHASH of additional data, text and their lengths under `h`.
fn hashed(h: u128, head: &[u8], tail: &[u8], text: &[u8]) -> u128
    ensures { result ≡ ghash h (blocks (head.now ++ tail.now) ++ blocks text.now ++ lengths (head.now ++ tail.now) text.now ∷ []) }
{
    let table = GhashTable::new(h);
    if tail.len() < LONG && text.len() < LONG {
        return hashed_by(&table, head, tail, text);
    }
    hashed_by(&ByteTable::of(&table), head, tail, text)
}

// The same, under the block of a table.
fn hashed_by<T: Factor>(table: &T, head: &[u8], tail: &[u8], text: &[u8]) -> u128
    requires { T.block table.now < 2 ^ 128 }
    ensures { result ≡ ghash (T.block table.now) (blocks (head.now ++ tail.now) ++ blocks text.now
        ++ lengths (head.now ++ tail.now) text.now ∷ []) }
{
    let sum = absorb(table, 0, head, tail);
    let sum = absorb(table, sum, text, &[]);
    table.times(sum ^ lengths(head, tail, text))
}

// The lengths of the additional data and of the ciphertext in bits, each modulo 2^64.
fn lengths(head: &[u8], tail: &[u8], text: &[u8]) -> u128
    ensures { result ≡ lengths (head.now ++ tail.now) text.now }
{
    let data_bits = ((head.len() + tail.len()) as u64).wrapping_mul(8);
    let text_bits = (text.len() as u64).wrapping_mul(8);
    ((data_bits as u128) << 64) | text_bits as u128
}
