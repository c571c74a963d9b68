ghost use Rattle.std.specs.Prelude.{◌≡◌, ◌≤◌, ◌+◌, Err, true, false};
ghost use Rattle.n32_outside.specs.Calls.{count_after, fails_at, next_count};
ghost use Rattle.n32_outside.specs.Causes.{HasOutCause, Rose};
ghost use Rattle.n32_outside.specs.Meanings.{Signs, Verifies};

use crate::{CallList, JwsAlg, OutFault, Signer, Verifier, is_listed};
use n32_values::{Bytes, Text};
use std::alloc::Global;

/// A signer or verifier that fails at its listed calls, and hands the others on to the one that it holds.
///
/// Its count of faults is the number of listed calls so far and the count of the one that it holds.
#[derive(Drop)]
pub struct FailAt<T: Drop> {
    inner: T,
    fails: CallList,
    call: u64,
    faults: u64,
}

impl<T: Drop> FailAt<T> {
    ghost use Rattle.n32_outside.specs.FailViews.{held_object, listed_calls, listed_faults, this_call};

    /// One that holds this object, and fails at the listed calls. Calls of `sign` or `verify` are counted.
    pub fn new(inner: T, fails: CallList) -> FailAt<T>
        ensures inner { held_object result ≡ inner }
        ensures fails { listed_calls result ≡ fails }
        ensures call { this_call result ≡ 0 }
        ensures faults { listed_faults result ≡ 0 }
    {
        FailAt {
            inner,
            fails,
            call: 0,
            faults: 0,
        }
    }

    // Counts a call. The answer says whether it fails.
    fn next_call(&mut self) -> bool
        ensures fails { result ≡ fails_at (listed_calls self.old) (this_call self.old) }
        ensures call { this_call self.new ≡ next_count (this_call self.old) }
        ensures count { listed_faults self.new ≡ count_after result (listed_faults self.old) }
        ensures later { listed_faults self.old ≤ listed_faults self.new }
        ensures risen { result ≡ true → Rose (listed_faults self.old) (listed_faults self.new) }
        ensures inner { held_object self.new ≡ held_object self.old }
        ensures list { listed_calls self.new ≡ listed_calls self.old }
    {
        let is_fault = is_listed(&self.fails, self.call);
        self.call = self.call.saturating_add(1);
        if is_fault {
            self.faults = self.faults.saturating_add(1);
        }
        is_fault
    }
}

impl<T: Signer + Drop> Signer for FailAt<T> {
    ghost use Rattle.n32_outside.specs.FailViews.{held_object, listed_calls, listed_faults, this_call};

    ghost algorithm = { λ s. T.algorithm (held_object s) };

    ghost meaning = { λ s. T.meaning (held_object s) };

    ghost faults = { λ s. listed_faults s + T.faults (held_object s) };

    fn alg(&self) -> JwsAlg
        ensures alg { result ≡ T.algorithm (held_object self.now) }
    {
        self.inner.alg()
    }

    fn sign(&mut self, alloc: Global, identity: &Text, input: &[u8]) -> Result<Bytes, OutFault>
        ensures signature { Signs (T.meaning (held_object self.old)) result (T.algorithm (held_object self.old)) identity.now input.now }
        ensures same_meaning { T.meaning (held_object self.new) ≡ T.meaning (held_object self.old) }
        ensures same_algorithm { T.algorithm (held_object self.new) ≡ T.algorithm (held_object self.old) }
        ensures cause { HasOutCause (listed_faults self.old + T.faults (held_object self.old)) (listed_faults self.new + T.faults (held_object self.new)) result }

        // It fails at the listed calls, and at the others as the one that it holds.
        ensures fails { fails_at (listed_calls self.old) (this_call self.old) ≡ true → (result ≡ Err OutFault.Failed) × (held_object self.new ≡ held_object self.old) }
        ensures passes { fails_at (listed_calls self.old) (this_call self.old) ≡ false → HasOutCause (T.faults (held_object self.old)) (T.faults (held_object self.new)) result }
        ensures call { this_call self.new ≡ next_count (this_call self.old) }
        ensures count { listed_faults self.new ≡ count_after (fails_at (listed_calls self.old) (this_call self.old)) (listed_faults self.old) }
        ensures list { listed_calls self.new ≡ listed_calls self.old }
    {
        if self.next_call() {
            return Err(OutFault::Failed);
        }
        self.inner.sign(alloc, identity, input)
    }
}

impl<T: Verifier + Drop> Verifier for FailAt<T> {
    ghost use Rattle.n32_outside.specs.FailViews.{held_object, listed_calls, listed_faults, this_call};

    ghost meaning = { λ s. T.meaning (held_object s) };

    ghost faults = { λ s. listed_faults s + T.faults (held_object s) };

    fn verify(
        &mut self,
        alloc: Global,
        alg: JwsAlg,
        identity: &Text,
        input: &[u8],
        signature: &[u8],
    ) -> Result<bool, OutFault>
        ensures truth { Verifies (T.meaning (held_object self.old)) result alg identity.now input.now signature.now }
        ensures same_meaning { T.meaning (held_object self.new) ≡ T.meaning (held_object self.old) }
        ensures cause { HasOutCause (listed_faults self.old + T.faults (held_object self.old)) (listed_faults self.new + T.faults (held_object self.new)) result }

        // It fails at the listed calls, and at the others as the one that it holds.
        ensures fails { fails_at (listed_calls self.old) (this_call self.old) ≡ true → (result ≡ Err OutFault.Failed) × (held_object self.new ≡ held_object self.old) }
        ensures passes { fails_at (listed_calls self.old) (this_call self.old) ≡ false → HasOutCause (T.faults (held_object self.old)) (T.faults (held_object self.new)) result }
        ensures call { this_call self.new ≡ next_count (this_call self.old) }
        ensures count { listed_faults self.new ≡ count_after (fails_at (listed_calls self.old) (this_call self.old)) (listed_faults self.old) }
        ensures list { listed_calls self.new ≡ listed_calls self.old }
    {
        if self.next_call() {
            return Err(OutFault::Failed);
        }
        self.inner.verify(alloc, alg, identity, input, signature)
    }
}
