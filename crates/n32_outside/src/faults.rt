use n32_values::NoMemory;
use std::alloc::AllocError;

/// The outside failed.
#[derive(Clone, Copy, Debug, PartialEq, Eq, Drop)]
pub struct Failed;

/// Why a call that may need memory did nothing.
#[derive(Clone, Copy, Debug, PartialEq, Eq, Drop)]
pub enum OutFault {
    /// The outside failed.
    Failed,
    /// Memory was refused.
    NoMemory,
}

impl From<AllocError> for OutFault {
    ghost use Rattle.std.specs.Prelude.{◌≡◌};
    ghost use Rattle.n32_outside.specs.declared.faults.OutFault.TheVariants.{NoMemory};

    ghost from_gives = { λ _ fault. fault ≡ NoMemory };

    fn from(_refused: AllocError) -> OutFault {
        OutFault::NoMemory
    }
}

impl From<NoMemory> for OutFault {
    ghost use Rattle.std.specs.Prelude.{◌≡◌};
    ghost use Rattle.n32_outside.specs.declared.faults.OutFault.TheVariants.{NoMemory};

    ghost from_gives = { λ _ fault. fault ≡ NoMemory };

    fn from(_refused: NoMemory) -> OutFault {
        OutFault::NoMemory
    }
}
