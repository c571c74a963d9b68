ghost use Rattle.std.specs.Prelude.{◌≡◌};
ghost use Rattle.n32_outside.specs.Calls.{fails_at, keeps_at};

use n32_values::List;

/// The numbers of the calls that fail. The first call of an object has the number 0.
pub type CallList = List<u64>;

/// A call of a keeper that fails.
#[derive(Clone, Copy, Debug, PartialEq, Eq, Drop)]
pub struct FailItem {
    /// The number of the call. The first call has the number 0, and calls of `put` and `load` are counted together.
    pub call: u64,
    /// Whether a failing `put` still keeps its item.
    pub keeps: bool,
}

/// The calls of a keeper that fail. Of several items for one call the first counts.
pub type FailList = List<FailItem>;

/// Whether the call of that number is listed.
pub fn is_listed(calls: &CallList, call: u64) -> bool
    ensures { result ≡ fails_at calls.now call }
{
    calls.as_slice().iter().any(|listed| *listed == call)
}

/// Whether the failing `put` of that number still keeps its item, or `None` where no item is listed for the call.
pub fn kept_at(fails: &FailList, call: u64) -> Option<bool>
    ensures { result ≡ keeps_at fails.now call }
{
    for item in fails.as_slice() {
        if item.call == call {
            return Some(item.keeps);
        }
    }
    None
}
