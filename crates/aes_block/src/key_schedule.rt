//! The key schedule: the words of all round keys, as bytes one after the other.

ghost use Rattle.std.specs.Prelude.{◌≡◌, ◌+◌, ◌-◌, ◌*◌, ◌/◌, ◌%◌, ◌<◌, ◌≤◌, length, take};
ghost use Rattle.spec_sealing.specs.Aes.{next_word, schedule, step_word, word};

use crate::tables::substitution;

// The powers x^0, x^1, ..
const ROUND_CONSTANTS: [u8; 10] = [0x01, 0x02, 0x04, 0x08, 0x10, 0x20, 0x40, 0x80, 0x1b, 0x36];

// What is added to an earlier word to give the word `i`, from the word before it.
fn step_word(nk: usize, i: usize, before: [u8; 4]) -> [u8; 4]
    requires some { 4 ≤ nk }
    requires first { nk ≤ i }
    requires last { i < 11 * nk }
    ensures { result ≡ step_word nk i before }
{
    let [a, b, c, d] = before;
    if i % nk == 0 {
        let constant = ROUND_CONSTANTS[i / nk - 1];
        [
            substitution(b) ^ constant,
            substitution(c),
            substitution(d),
            substitution(a),
        ]
    } else if nk == 8 && i % 8 == 4 {
        [
            substitution(a),
            substitution(b),
            substitution(c),
            substitution(d),
        ]
    } else {
        before
    }
}

fn word(words: &[u8], i: usize) -> [u8; 4]
    requires { 4 * i + 4 ≤ length words.now }
    ensures { result ≡ word words.now i }
{
    [
        words[4 * i],
        words[4 * i + 1],
        words[4 * i + 2],
        words[4 * i + 3],
    ]
}

fn next_word(nk: usize, words: &[u8], i: usize) -> [u8; 4]
    requires some { 4 ≤ nk }
    requires first { nk ≤ i }
    requires last { i < 11 * nk }
    requires known { 4 * i ≤ length words.now }
    ensures { result ≡ next_word nk words.now i }
{
    let earlier = word(words, i - nk);
    let step = step_word(nk, i, word(words, i - 1));
    [
        earlier[0] ^ step[0],
        earlier[1] ^ step[1],
        earlier[2] ^ step[2],
        earlier[3] ^ step[3],
    ]
}

// Fills `words` with the words of `key`, which has `nk`, and the `count` words after them.
pub(crate) fn expand(nk: usize, key: &[u8], count: usize, words: &mut [u8])
    requires some { 4 ≤ nk }
    requires last { nk + count ≤ 11 * nk }
    requires key { length key.now ≡ 4 * nk }
    requires room { length words.old ≡ 4 * nk + 4 * count }
    ensures { words.new ≡ schedule nk key.now count }
{
    words[..key.len()].copy_from_slice(key);
    for i in 0..count {
        let word = next_word(nk, words, nk + i);
        let start = 4 * (nk + i);
        words[start..start + 4].copy_from_slice(&word);
    }
}
