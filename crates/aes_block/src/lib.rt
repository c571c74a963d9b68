//! The block cipher AES (FIPS 197), with keys of 128 and of 256 bits.
#![tactic(auto)]

ghost use Rattle.std.specs.Prelude.{◌≡◌, ℕ, List};
ghost use Rattle.spec_sealing.specs.Aes.{aes, schedule};

mod key_schedule;
mod rounds;
mod tables;

use key_schedule::expand;
use rounds::encrypted;
use std::marker::Model;

/// A key of a cipher on blocks of 16 bytes. Contracts name what it makes of a block as `cipher`.
pub trait BlockKey {
    // what the key makes of a block
    ghost cipher: { Self → List ℕ → List ℕ };

    /// The encrypted block.
    fn encrypt_block(&self, block: [u8; 16]) -> [u8; 16]
        ensures { result ≡ cipher self.now block };
}

/// A key of AES-128, with its round keys: ten rounds (FIPS 197, section 5). Contracts see the 16 bytes
/// of the key.
#[derive(Drop)]
pub struct Key128 {
    key: [u8; 16],
    words: [u8; 176],
}

impl Model for Key128 {
    ghost Value = { List ℕ };

    ghost view = { λ k. k.key };

    ghost invariant = { λ k. k.words ≡ schedule 4 k.key 40 };
}

impl Key128 {
    /// The key of these bytes, expanded (FIPS 197, section 5.2).
    pub fn new(key: [u8; 16]) -> Key128
        ensures { result ≡ key }
    {
        let mut words = [0; 176];
        expand(4, &key, 40, &mut words);
        Key128 { key, words }
    }

    /// The bytes that the key was made of.
    pub fn key(&self) -> [u8; 16]
        ensures { result ≡ self.now }
    {
        self.key
    }
}

impl BlockKey for Key128 {
    ghost cipher = { aes 4 };

    fn encrypt_block(&self, block: [u8; 16]) -> [u8; 16] {
        encrypted(&self.words, 10, block)
    }
}

/// A key of AES-256, with its round keys: fourteen rounds (FIPS 197, section 5). Contracts see the 32
/// bytes of the key.
#[derive(Drop)]
pub struct Key256 {
    key: [u8; 32],
    words: [u8; 240],
}

impl Model for Key256 {
    ghost Value = { List ℕ };

    ghost view = { λ k. k.key };

    ghost invariant = { λ k. k.words ≡ schedule 8 k.key 52 };
}

impl Key256 {
    /// The key of these bytes, expanded (FIPS 197, section 5.2).
    pub fn new(key: [u8; 32]) -> Key256
        ensures { result ≡ key }
    {
        let mut words = [0; 240];
        expand(8, &key, 52, &mut words);
        Key256 { key, words }
    }

    /// The bytes that the key was made of.
    pub fn key(&self) -> [u8; 32]
        ensures { result ≡ self.now }
    {
        self.key
    }
}

impl BlockKey for Key256 {
    ghost cipher = { aes 8 };

    fn encrypt_block(&self, block: [u8; 16]) -> [u8; 16] {
        encrypted(&self.words, 14, block)
    }
}
