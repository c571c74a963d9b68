//! The key stream of counter mode.

ghost use Rattle.std.specs.Prelude.{◌≡◌, ◌+◌, ◌*◌, ◌<◌, ◌≤◌, bit_xor, length, map, slice_index};
ghost use Rattle.std.specs.List.{range_with_len};
ghost use Rattle.spec_sealing.specs.Gcm.{counter_block, with_key_stream};

use aes_block::BlockKey;

pub(crate) fn counter_block(iv: &[u8; 12], n: u32) -> [u8; 16]
    ensures { result ≡ counter_block iv.now n }
{
    let mut block = [0; 16];
    block[..12].copy_from_slice(iv);
    block[12..].copy_from_slice(&n.to_be_bytes());
    block
}

// Adds the bytes of `mask` to those of `part`.
fn add_mask(mask: &[u8; 16], part: &mut [u8])
    requires { length part.old ≤ 16 }
    ensures { part.new ≡ map (λ k. bit_xor (slice_index part.old k) (slice_index mask.now k)) (range_with_len 0 (length part.old)) }
{
    for k in 0..part.len() {
        part[k] ^= mask[k];
    }
}

// Adds the key stream to `text`.
pub(crate) fn add_key_stream<B: BlockKey>(key: &B, iv: &[u8; 12], text: &mut [u8])
    ensures { text.new ≡ with_key_stream (B.cipher key.now) iv.now text.old }
{
    let count = text.len().div_ceil(16);
    for i in 0..count {
        let counter = (i as u64 + 2) % (1 << 32);
        let mask = key.encrypt_block(counter_block(iv, counter as u32));
        let start = 16 * i;
        let end = text.len().min(start + 16);
        add_mask(&mask, &mut text[start..end]);
    }
}
