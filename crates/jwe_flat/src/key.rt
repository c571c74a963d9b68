//! Suites and keys of content encryption.

ghost use Rattle.std.specs.Prelude.{◌≡◌};
ghost use Rattle.spec_sealing.specs.Suites.{content_cipher, suite_name, suite_of};
ghost use Rattle.jwe_flat.specs.View.{content_key_view, suite_view};

use aes_block::{BlockKey, Key128, Key256};

/// A suite of content encryption (RFC 7518, section 5.3).
#[derive(Clone, Copy, Debug, PartialEq, Eq, Drop)]
pub enum Suite {
    /// AES GCM with a key of 128 bits.
    A128Gcm,
    /// AES GCM with a key of 256 bits.
    A256Gcm,
}

impl Suite {
    /// Its name, which a header has as `enc` (RFC 7518, section 5.1).
    pub fn name(self) -> &'static str
        ensures { result.now ≡ suite_name (suite_view self) }
    {
        match self {
            Suite::A128Gcm => "A128GCM",
            Suite::A256Gcm => "A256GCM",
        }
    }
}

/// A key of content encryption, which is the shared key of `dir` (RFC 7518, section 4.5).
#[derive(Drop)]
pub enum ContentKey {
    /// A key of `A128GCM`.
    Aes128(Key128),
    /// A key of `A256GCM`.
    Aes256(Key256),
}

impl ContentKey {
    /// The suite that the key is of.
    pub fn suite(&self) -> Suite
        ensures { suite_view result ≡ suite_of (content_key_view self.now) }
    {
        match self {
            ContentKey::Aes128(_) => Suite::A128Gcm,
            ContentKey::Aes256(_) => Suite::A256Gcm,
        }
    }
}

impl BlockKey for ContentKey {
    ghost cipher = { λ key. content_cipher (content_key_view key) };

    fn encrypt_block(&self, block: [u8; 16]) -> [u8; 16] {
        match self {
            ContentKey::Aes128(key) => key.encrypt_block(block),
            ContentKey::Aes256(key) => key.encrypt_block(block),
        }
    }
}
