// Keys, nonces and tags, in hexadecimal digits.
use aes_block::{Key128, Key256};
use hex::FromHex;
use jwe_flat::ContentKey;

/// A key of 16 or 32 bytes.
pub fn key_of(digits: &str) -> Option<ContentKey> {
    match <[u8; 16] as FromHex>::from_hex(digits) {
        Ok(bytes) => Some(ContentKey::Aes128(Key128::new(bytes))),
        Err(_) => match <[u8; 32] as FromHex>::from_hex(digits) {
            Ok(bytes) => Some(ContentKey::Aes256(Key256::new(bytes))),
            Err(_) => None,
        },
    }
}

pub fn nonce_of(digits: &str) -> Option<[u8; 12]> {
    match <[u8; 12] as FromHex>::from_hex(digits) {
        Ok(bytes) => Some(bytes),
        Err(_) => None,
    }
}

/// 16 bytes: a block or a tag.
pub fn block_of(digits: &str) -> Option<[u8; 16]> {
    match <[u8; 16] as FromHex>::from_hex(digits) {
        Ok(bytes) => Some(bytes),
        Err(_) => None,
    }
}
