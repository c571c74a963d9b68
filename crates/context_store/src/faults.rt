// Why a store isn't read, or gains no record.
use n32_values::NoMemory;

/// Why the records of a keeper aren't read.
#[derive(Clone, Copy, Debug, PartialEq, Eq, Drop)]
pub enum OpenFault {
    /// The held text of this number is the first that is of no record, or has the number 1,048,576.
    Journal(u64),
    /// The keeper failed.
    Keeper,
    /// Memory was refused.
    NoMemory,
}

/// Why a record isn't added.
#[derive(Clone, Copy, Debug, PartialEq, Eq, Drop)]
pub enum AddFault {
    /// 1,048,576 records are held.
    Limit,
    /// The keeper failed. The record may be held or not.
    Keeper,
    /// Memory was refused.
    NoMemory,
}

impl From<NoMemory> for AddFault {
    ghost use Rattle.std.specs.Prelude.{◌≡◌};
    ghost use Rattle.context_store.specs.declared.faults.AddFault.TheVariants.{NoMemory as refused_memory};

    ghost from_gives = { λ _ e. e ≡ refused_memory };

    fn from(_refused: NoMemory) -> AddFault {
        AddFault::NoMemory
    }
}
