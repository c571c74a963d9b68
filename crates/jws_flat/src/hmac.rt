//! HMAC (RFC 2104) with SHA-256.

ghost use Rattle.std.specs.Prelude.{◌≡◌};
ghost use Rattle.spec_sealing.specs.Hmac as spec;

use sha2::{Digest, Sha256};

const BLOCK: usize = 64;

const INNER_PAD: u8 = 0x36;

const OUTER_PAD: u8 = 0x5C;

// A key as a block: hashed where it is longer, with zeros after it where it is shorter.
fn block_key(key: &[u8]) -> [u8; BLOCK]
    ensures { result ≡ spec.block_key key.now }
{
    let mut block = [0; BLOCK];
    if key.len() <= BLOCK {
        block[..key.len()].copy_from_slice(key);
    } else {
        block[..32].copy_from_slice(&Sha256::digest(key));
    }
    block
}

fn padded(pad: u8, key: &[u8]) -> [u8; BLOCK]
    ensures { result ≡ spec.padded pad key.now }
{
    let mut block = block_key(key);
    for i in 0..BLOCK {
        block[i] ^= pad;
    }
    block
}

/// HMAC with SHA-256 of an input under a key of any length (RFC 2104, section 2).
pub fn hmac_sha256(key: &[u8], input: &[u8]) -> [u8; 32]
    ensures { result ≡ spec.hmac key.now input.now }
{
    let mut inner = Sha256::new();
    inner.update(padded(INNER_PAD, key));
    inner.update(input);
    let mut outer = Sha256::new();
    outer.update(padded(OUTER_PAD, key));
    outer.update(inner.finalize());
    outer.finalize()
}
