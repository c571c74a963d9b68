//! The rounds, over a state of four words, a word for each column.

ghost use Rattle.std.specs.Prelude.{◌≡◌, ◌+◌, ◌*◌, ◌<◌, ◌≤◌, List, [], ◌∷◌, length};
ghost use Rattle.std.specs.Int.{byte_at, from_be_bytes, to_be_bytes, w32};
ghost use Rattle.spec_sealing.specs.Aes.{add_round_key, add_words, encrypted, mix_columns, shift_rows, sub_bytes};
ghost use Rattle.aes_block.specs.Columns.{bytes_at, bytes_of, mixed_column, word_at};

use crate::tables::{mixed_word, substitution};

#[inline(always)]
fn byte_3(x: u32) -> u8
    ensures { result ≡ byte_at 3 x }
{
    (x >> 24) as u8
}

#[inline(always)]
fn byte_2(x: u32) -> u8
    ensures { result ≡ byte_at 2 x }
{
    ((x >> 16) & 0xff) as u8
}

#[inline(always)]
fn byte_1(x: u32) -> u8
    ensures { result ≡ byte_at 1 x }
{
    ((x >> 8) & 0xff) as u8
}

#[inline(always)]
fn byte_0(x: u32) -> u8
    ensures { result ≡ byte_at 0 x }
{
    (x & 0xff) as u8
}

// The word of four bytes from `base + i` on.
#[inline(always)]
fn load(bytes: &[u8], base: usize, i: usize) -> u32
    requires { base + (i + 4) ≤ length bytes.now }
    ensures { result ≡ word_at bytes.now base i }
{
    u32::from_be_bytes([
        bytes[base + i],
        bytes[base + (i + 1)],
        bytes[base + (i + 2)],
        bytes[base + (i + 3)],
    ])
}

// The new column of four bytes of the state that stand on a diagonal.
#[inline(always)]
fn mixed_column(a: u8, b: u8, c: u8, d: u8) -> u32
    ensures { result ≡ from_be_bytes w32 (mixed_column a b c d) }
{
    mixed_word(a)
        ^ mixed_word(b).rotate_right(8)
        ^ mixed_word(c).rotate_right(16)
        ^ mixed_word(d).rotate_right(24)
}

#[inline(always)]
fn first_round(words: &[u8], block: &[u8; 16]) -> [u32; 4]
    requires { 16 ≤ length words.now }
    ensures { bytes_of result ≡ add_round_key words.now 0 block.now }
{
    [
        load(block, 0, 0) ^ load(words, 0, 0),
        load(block, 0, 4) ^ load(words, 0, 4),
        load(block, 0, 8) ^ load(words, 0, 8),
        load(block, 0, 12) ^ load(words, 0, 12),
    ]
}

// Column `i / 4` of the state after a round.
#[inline(always)]
fn inner_column(words: &[u8], round: usize, i: usize, a: u32, b: u32, c: u32, d: u32) -> u32
    requires { 16 * round + (i + 4) ≤ length words.now }
    ensures { to_be_bytes w32 result ≡ add_words
        (mixed_column (byte_at 3 a) (byte_at 2 b) (byte_at 1 c) (byte_at 0 d)) (bytes_at words.now (16 * round) i) }
{
    mixed_column(byte_3(a), byte_2(b), byte_1(c), byte_0(d)) ^ load(words, 16 * round, i)
}

#[inline(always)]
fn inner_round(words: &[u8], round: usize, state: [u32; 4]) -> [u32; 4]
    requires { 16 * round + 16 ≤ length words.now }
    ensures { bytes_of result ≡ add_round_key words.now round (mix_columns (shift_rows (sub_bytes (bytes_of state)))) }
{
    let [a, b, c, d] = state;
    [
        inner_column(words, round, 0, a, b, c, d),
        inner_column(words, round, 4, b, c, d, a),
        inner_column(words, round, 8, c, d, a, b),
        inner_column(words, round, 12, d, a, b, c),
    ]
}

#[inline(always)]
fn last_column(words: &[u8], round: usize, i: usize, a: u32, b: u32, c: u32, d: u32) -> [u8; 4]
    requires { 16 * round + (i + 4) ≤ length words.now }
    ensures { result ≡ add_words (sub_bytes (byte_at 3 a ∷ byte_at 2 b ∷ byte_at 1 c ∷ byte_at 0 d ∷ []))
        (bytes_at words.now (16 * round) i) }
{
    [
        substitution(byte_3(a)) ^ words[16 * round + i],
        substitution(byte_2(b)) ^ words[16 * round + (i + 1)],
        substitution(byte_1(c)) ^ words[16 * round + (i + 2)],
        substitution(byte_0(d)) ^ words[16 * round + (i + 3)],
    ]
}

#[inline(always)]
fn last_round(words: &[u8], round: usize, state: [u32; 4]) -> [u8; 16]
    requires { 16 * round + 16 ≤ length words.now }
    ensures { result ≡ add_round_key words.now round (shift_rows (sub_bytes (bytes_of state))) }
{
    let [a, b, c, d] = state;
    let first = last_column(words, round, 0, a, b, c, d);
    let second = last_column(words, round, 4, b, c, d, a);
    let third = last_column(words, round, 8, c, d, a, b);
    let fourth = last_column(words, round, 12, d, a, b, c);
    [
        first[0], first[1], first[2], first[3], second[0], second[1], second[2], second[3],
        third[0], third[1], third[2], third[3], fourth[0], fourth[1], fourth[2], fourth[3],
    ]
}

// `block` after the rounds up to `last`, with the round keys of `words`.
pub(crate) fn encrypted(words: &[u8], last: usize, block: [u8; 16]) -> [u8; 16]
    requires some { 0 < last }
    requires keys { 16 * last + 16 ≤ length words.now }
    ensures { result ≡ encrypted words.now last block }
{
    let mut state = first_round(words, &block);
    for round in 1..last {
        let next = inner_round(words, round, state);
        state = next;
    }
    last_round(words, last, state)
}
