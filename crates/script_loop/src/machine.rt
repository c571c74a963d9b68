ghost use Rattle.std.specs.Prelude.{List, ℕ, IfOk, OnOk, OnErr};

use n32_values::{Bytes, NoMemory};
use std::alloc::Global;

/// A machine that answers the lines of a script, one after another.
pub trait Machine {
    /// The condition of `answer`.
    ghost ready: { Self → Type 0 };

    /// From the first machine, the line of that number may get that answer, which leaves the last machine.
    ghost gives: { Self → ℕ → List ℕ → List ℕ → Self → Type 0 };

    /// From the first machine, the answer to the line of that number may find no memory, which leaves the last machine.
    ghost gives_up: { Self → ℕ → List ℕ → Self → Type 0 };

    /// What every call keeps, such as that a count hasn't fallen.
    ghost later: { Self → Self → Type 0 };

    /// The answer to the line of that number, from 1, without a newline at its end.
    fn answer(&mut self, alloc: Global, number: u64, line: &[u8]) -> Result<Bytes, NoMemory>
        requires { ready self.old }
        ensures ok { IfOk result (λ text. gives self.old number line.now text self.new) }
        ensures ready { OnOk result (ready self.new) }
        ensures err { OnErr result (gives_up self.old number line.now self.new) }
        ensures later { later self.old self.new };

    /// Nothing was called.
    ghost stays: { (m : Self) → later m m };

    /// One call after another.
    ghost goes_on: { (a b c : Self) → later a b → later b c → later a c };
}
