ghost use Rattle.std.specs.Prelude.{◌≡◌, ◌≤◌, [], ◌∷◌, ◌++◌, Some, true, false, IsErrOf, IsTrue, OnOk, OnSome, ◌↔◌};
ghost use Rattle.n32_outside.specs.Calls.{count_after, is_failing, keeps_at, next_count};
ghost use Rattle.n32_outside.specs.Causes.{HasOutCause, Rose};
ghost use Rattle.n32_outside.specs.Contents.{Loads, Puts, Stays};

use crate::{FailList, Keeper, OutFault, kept_at};
use n32_values::{Bytes, List};
use std::alloc::Global;

/// A keeper in memory. It fails exactly at its listed calls.
#[derive(Drop)]
pub struct MemKeeper {
    alloc: Global,
    items: List<Bytes>,
    fails: FailList,
    call: u64,
    faults: u64,
}

impl MemKeeper {
    ghost use Rattle.n32_outside.specs.MemoryViews.{keeper_held, keeper_faults, keeper_fails, keeper_call};

    /// A keeper without items, which fails at the listed calls. It takes memory as items are put.
    pub fn new(alloc: Global, fails: FailList) -> MemKeeper
        ensures held { keeper_held result ≡ [] }
        ensures fails { keeper_fails result ≡ fails }
        ensures call { keeper_call result ≡ 0 }
        ensures faults { keeper_faults result ≡ 0 }
    {
        MemKeeper {
            alloc,
            items: List::new(alloc),
            fails,
            call: 0,
            faults: 0,
        }
    }

    // Counts a call. The answer says whether it fails, and whether a failing `put` keeps its item.
    fn next_call(&mut self) -> Option<bool>
        ensures fails { result ≡ keeps_at (keeper_fails self.old) (keeper_call self.old) }
        ensures call { keeper_call self.new ≡ next_count (keeper_call self.old) }
        ensures count { keeper_faults self.new ≡ count_after (is_failing (keeper_fails self.old) (keeper_call self.old)) (keeper_faults self.old) }
        ensures later { keeper_faults self.old ≤ keeper_faults self.new }
        ensures risen { OnSome result (Rose (keeper_faults self.old) (keeper_faults self.new)) }
        ensures held { keeper_held self.new ≡ keeper_held self.old }
        ensures list { keeper_fails self.new ≡ keeper_fails self.old }
    {
        let fails = kept_at(&self.fails, self.call);
        self.call = self.call.saturating_add(1);
        if fails.is_some() {
            self.faults = self.faults.saturating_add(1);
        }
        fails
    }
}

impl Keeper for MemKeeper {
    ghost use Rattle.std.specs.Prelude.{Some};
    ghost use Rattle.n32_outside.specs.MemoryViews.{keeper_held, keeper_faults, keeper_fails, keeper_call};

    ghost held = { λ k. Some (keeper_held k) };

    ghost faults = { keeper_faults };

    fn put(&mut self, item: &[u8]) -> Result<(), OutFault>
        ensures items { Puts (Some (keeper_held self.old)) (Some (keeper_held self.new)) result item.now }
        ensures cause { HasOutCause (keeper_faults self.old) (keeper_faults self.new) result }

        // It fails at the listed calls and nowhere else, but that a put which keeps its item may find no memory for it.
        ensures fails { IsErrOf result OutFault.Failed → IsTrue (is_failing (keeper_fails self.old) (keeper_call self.old)) }
        ensures works { OnOk result (is_failing (keeper_fails self.old) (keeper_call self.old) ≡ false) }
        ensures kept { keeps_at (keeper_fails self.old) (keeper_call self.old) ≡ Some true → IsErrOf result OutFault.Failed → keeper_held self.new ≡ keeper_held self.old ++ item.now ∷ [] }
        ensures lost { keeps_at (keeper_fails self.old) (keeper_call self.old) ≡ Some false → keeper_held self.new ≡ keeper_held self.old }
        ensures call { keeper_call self.new ≡ next_count (keeper_call self.old) }
        ensures count { keeper_faults self.new ≡ count_after (is_failing (keeper_fails self.old) (keeper_call self.old)) (keeper_faults self.old) }
        ensures list { keeper_fails self.new ≡ keeper_fails self.old }
    {
        let fails = self.next_call();
        if let Some(false) = fails {
            return Err(OutFault::Failed);
        }
        self.items.push(Bytes::from_slice(self.alloc, item)?)?;
        match fails {
            Some(_) => Err(OutFault::Failed),
            None => Ok(()),
        }
    }

    fn load(&mut self, alloc: Global, number: u64) -> Result<Option<Bytes>, OutFault>
        ensures items { Loads (Some (keeper_held self.old)) result number }
        ensures same { Stays (Some (keeper_held self.old)) (Some (keeper_held self.new)) }
        ensures cause { HasOutCause (keeper_faults self.old) (keeper_faults self.new) result }

        // It fails at the listed calls and nowhere else.
        ensures fails { IsErrOf result OutFault.Failed ↔ IsTrue (is_failing (keeper_fails self.old) (keeper_call self.old)) }
        ensures call { keeper_call self.new ≡ next_count (keeper_call self.old) }
        ensures count { keeper_faults self.new ≡ count_after (is_failing (keeper_fails self.old) (keeper_call self.old)) (keeper_faults self.old) }
        ensures list { keeper_fails self.new ≡ keeper_fails self.old }
    {
        if let Some(_) = self.next_call() {
            return Err(OutFault::Failed);
        }
        let Some(item) = self.items.get(number as usize) else {
            return Ok(None);
        };
        Ok(Some(item.copy(alloc)?))
    }
}
