//! Blocks as polynomials over the field of two elements. The greatest bit is the coefficient of u^0.

ghost use Rattle.std.specs.Prelude.{◌≡◌, ℕ, ◌*◌, ◌^◌, ◌<◌, ◌≤◌, List, slice_index};
ghost use Rattle.spec_sealing.specs.GcmField.{product, product_below, times_power, times_u};
ghost use Rattle.gcm_mode.specs.Table.{nibble_products};

use std::marker::Model;

// u^128.
const REDUCTION: u128 = 0xe100_0000_0000_0000_0000_0000_0000_0000;

// The greatest 16 bits of u^4 times each polynomial of u^124 to u^127; its other bits are 0.
static REDUCTIONS: [u16; 16] = [
    0x0000, 0x1c20, 0x3840, 0x2460, 0x7080, 0x6ca0, 0x48c0, 0x54e0, 0xe100, 0xfd20, 0xd940, 0xc560,
    0x9180, 0x8da0, 0xa9c0, 0xb5e0,
];

fn times_u(y: u128) -> u128
    ensures { result ≡ times_u y }
{
    if y & 1 == 1 {
        (y >> 1) ^ REDUCTION
    } else {
        y >> 1
    }
}

// The product of `y` and the first `count` terms of `x`.
fn product_below(count: u32, x: u128, y: u128) -> u128
    requires { count ≤ 128 }
    ensures { result ≡ product_below count x y }
{
    let mut sum = 0;
    let mut term = y;
    for i in 0..count {
        if (x >> (127 - i)) & 1 == 1 {
            sum ^= term;
        }
        term = times_u(term);
    }
    sum
}

#[inline(always)]
pub(crate) fn times_u4(y: u128) -> u128
    ensures { result ≡ times_power 4 y }
{
    (y >> 4) ^ ((REDUCTIONS[(y & 15) as usize] as u128) << 112)
}

// A block by which blocks are multiplied. Contracts name it as `block`.
pub(crate) trait Factor {
    // the block
    ghost block: { Self → ℕ };

    // The product of the block `x` and this one.
    fn times(&self, x: u128) -> u128
        ensures { result ≡ product x (block self.now) };
}

/// A block H with its products by the polynomials of a degree of at most 3, by which other blocks are
/// multiplied with it four bits at a time. Contracts see H as a number, whose greatest bit is the
/// coefficient of u^0 (SP 800-38D, section 6.3).
#[derive(Drop)]
pub struct GhashTable {
    entries: [u128; 16],
}

impl Model for GhashTable {
    ghost Value = { ℕ };

    ghost view = { λ t. slice_index t.entries 8 };

    ghost invariant = { λ t. t.entries ≡ nibble_products (slice_index t.entries 8) };
}

impl GhashTable {
    /// The table of the block `h`.
    pub fn new(h: u128) -> GhashTable
        ensures { result ≡ h }
    {
        let mut entries = [0; 16];
        for i in 0..16 {
            entries[i] = product_below(4, (i as u128) << 124, h);
        }
        GhashTable { entries }
    }

    // The product of H and the polynomial that has the four bits of `i` as its coefficients.
    #[inline(always)]
    pub(crate) fn of_degree_3(&self, i: usize) -> u128
        requires { i < 16 }
        ensures { result ≡ product (i * 2 ^ 124) self.now }
    {
        self.entries[i]
    }

    /// The product of the block `x` and H, taken four bits of `x` at a time.
    pub fn times(&self, x: u128) -> u128
        ensures { result ≡ product x self.now }
    {
        let mut sum = 0;
        let mut rest = x;
        for step in 0..32u32 {
            sum = times_u4(sum) ^ self.entries[(rest & 15) as usize];
            rest >>= 4;
        }
        sum
    }
}

impl Factor for GhashTable {
    ghost block = { λ t. t };

    fn times(&self, x: u128) -> u128 {
        GhashTable::times(self, x)
    }
}
