// Why a call over a store comes to nothing: a refusal of its own, a fault of the outside, or want of memory.
use crate::faults::OpenFault;
use n32_values::NoMemory;

/// Why the checks of a call come to nothing.
#[derive(Clone, Copy, Debug, PartialEq, Eq, Drop)]
pub enum CheckFault<R> {
    /// A check refuses it.
    Refused(R),
    /// Memory was refused.
    NoMemory,
}

/// Why a call gives nothing.
#[derive(Clone, Copy, Debug, PartialEq, Eq, Drop)]
pub enum CallFault<R> {
    /// It is refused.
    Refused(R),
    /// The held record of this number is none, or stands past the limit.
    Journal(u64),
    /// The keeper failed, in reading the records or in keeping the last.
    Keeper,
    /// Memory was refused.
    NoMemory,
}

impl<R> From<NoMemory> for CheckFault<R> {
    ghost use Rattle.std.specs.Prelude.{◌≡◌};
    ghost use Rattle.context_store.specs.declared.call_faults.CheckFault.TheVariants.{NoMemory as refused_memory};

    ghost from_gives = { λ _ e. e ≡ refused_memory };

    fn from(_refused: NoMemory) -> CheckFault<R> {
        CheckFault::NoMemory
    }
}

impl<R> From<NoMemory> for CallFault<R> {
    ghost use Rattle.std.specs.Prelude.{◌≡◌};
    ghost use Rattle.context_store.specs.declared.call_faults.CallFault.TheVariants.{NoMemory as refused_memory};

    ghost from_gives = { λ _ e. e ≡ refused_memory };

    fn from(_refused: NoMemory) -> CallFault<R> {
        CallFault::NoMemory
    }
}

impl<R> From<CheckFault<R>> for CallFault<R> {
    ghost use Rattle.std.specs.Prelude.{◌≡◌};
    ghost use Rattle.context_store.specs.CallFaults.{of_check};

    ghost from_gives = { λ fault e. e ≡ of_check fault };

    fn from(fault: CheckFault<R>) -> CallFault<R> {
        match fault {
            CheckFault::Refused(refused) => CallFault::Refused(refused),
            CheckFault::NoMemory => CallFault::NoMemory,
        }
    }
}

impl<R> From<OpenFault> for CallFault<R> {
    ghost use Rattle.std.specs.Prelude.{◌≡◌};
    ghost use Rattle.context_store.specs.CallFaults.{of_opening};

    ghost from_gives = { λ fault e. e ≡ of_opening fault };

    fn from(fault: OpenFault) -> CallFault<R> {
        match fault {
            OpenFault::Journal(number) => CallFault::Journal(number),
            OpenFault::Keeper => CallFault::Keeper,
            OpenFault::NoMemory => CallFault::NoMemory,
        }
    }
}
