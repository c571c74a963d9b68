ghost use Rattle.std.specs.Prelude.{◌≡◌, ◌≤ℤ◌, neg_ℤ, pos, ◌-◌, ◌^◌, IsSome, IfSome, ◌↔◌};

use std::marker::Model;

const LEAST: i128 = -(1 << 63);

const GREATEST: i128 = (1 << 64) - 1;

/// A whole number from -2^63 to 2^64 - 1.
#[derive(Clone, Copy, Drop)]
pub struct Whole {
    value: i128,
}

impl Model for Whole {
    ghost use Rattle.std.specs.Prelude.{ℤ};
    ghost use Rattle.spec_documents.specs.Whole.{IsWhole};

    ghost Value = { ℤ };

    ghost view = { λ w. w.value };

    ghost invariant = { λ w. IsWhole w.value };

    ghost inverse = { λ z. record { value = z } };
}

impl Whole {
    ghost use Rattle.spec_documents.specs.Whole.{IsWhole};

    /// The whole number of this value, or `None` exactly outside the range.
    pub fn new(value: i128) -> Option<Whole>
        ensures inside { IsSome result ↔ IsWhole value }
        ensures value { IfSome result (λ w. w ≡ value) }
    {
        if LEAST <= value && value <= GREATEST {
            Some(Whole { value })
        } else {
            None
        }
    }

    /// The number of a value without a sign, which is always in the range.
    pub fn from_u64(value: u64) -> Whole
        ensures { result ≡ pos value }
    {
        Whole {
            value: i128::from(value),
        }
    }

    /// The number of a value with a sign, which is always in the range.
    pub fn from_i64(value: i64) -> Whole
        ensures { result ≡ value }
    {
        Whole {
            value: i128::from(value),
        }
    }

    /// Its value.
    pub fn value(&self) -> i128
        ensures value { result ≡ self.now }
        ensures range { IsWhole result }
    {
        self.value
    }
}
