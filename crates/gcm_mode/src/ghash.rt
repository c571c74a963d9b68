//! GHASH over bytes, a block at a time.

ghost use Rattle.std.specs.Prelude.{◌≡◌, ℕ, ◌+◌, ◌*◌, ◌^◌, ◌<◌, ◌≤◌, List, ◌++◌, length, map, slice_index};
ghost use Rattle.std.specs.Int.{from_be_bytes, w128};
ghost use Rattle.std.specs.List.{range_with_len};
ghost use Rattle.spec_sealing.specs.GcmField.{ghash};
ghost use Rattle.spec_sealing.specs.Gcm.{block_at, blocks};

use crate::field::Factor;

// Byte `i` of `first` followed by `second`, and zeros after these.
fn byte_at(first: &[u8], second: &[u8], i: usize) -> u8
    ensures { result ≡ slice_index (first.now ++ second.now) i }
{
    if i < first.len() {
        first[i]
    } else if i - first.len() < second.len() {
        second[i - first.len()]
    } else {
        0
    }
}

// The 16 bytes from `start` on, as a block.
fn whole_block(bytes: &[u8], start: usize) -> u128
    requires { start + 16 ≤ length bytes.now }
    ensures { result ≡ from_be_bytes w128 (map (λ k. slice_index bytes.now (start + k)) (range_with_len 0 16)) }
{
    let mut block = [0; 16];
    block.copy_from_slice(&bytes[start..start + 16]);
    u128::from_be_bytes(block)
}

// A block that ends behind `first` or `second`, byte by byte.
fn mixed_block(first: &[u8], second: &[u8], i: usize) -> u128
    requires { 16 * i + 16 ≤ 2 ^ 64 }
    ensures { result ≡ block_at (first.now ++ second.now) i }
{
    let mut bytes = [0; 16];
    for k in 0..16 {
        bytes[k] = byte_at(first, second, 16 * i + k);
    }
    u128::from_be_bytes(bytes)
}

// Block `i` of `first` followed by `second`.
fn block_at(first: &[u8], second: &[u8], i: usize) -> u128
    requires { 16 * i < length first.now + length second.now }
    ensures { result ≡ block_at (first.now ++ second.now) i }
{
    let start = 16 * i;
    if first.len() >= 16 && start <= first.len() - 16 {
        return whole_block(first, start);
    }
    if start >= first.len() && second.len() >= 16 && start - first.len() <= second.len() - 16 {
        return whole_block(second, start - first.len());
    }
    mixed_block(first, second, i)
}

// Goes on with the GHASH `sum` over the blocks of `first` followed by `second`.
pub(crate) fn absorb<T: Factor>(table: &T, sum: u128, first: &[u8], second: &[u8]) -> u128
    requires { T.block table.now < 2 ^ 128 }
    ensures { (xs : List ℕ) → sum ≡ ghash (T.block table.now) xs →
        result ≡ ghash (T.block table.now) (xs ++ blocks (first.now ++ second.now)) }
{
    let count = (first.len() + second.len()).div_ceil(16);
    let mut total = sum;
    for i in 0..count {
        total = table.times(total ^ block_at(first, second, i));
    }
    total
}
