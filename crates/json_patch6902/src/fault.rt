ghost use Rattle.json_patch6902.specs.Faults.{fault_of, fault_for};

use json_ptr::FindFault;
use n32_values::{Doc, NoMemory};
use std::alloc::AllocError;

/// Why an operation makes nothing of a document.
#[derive(Clone, Copy, Debug, PartialEq, Eq, Drop)]
pub enum PatchFault {
    /// Nothing stands at a place that the operation names, or it takes the whole document out.
    NoPlace,
    /// A token meets a list, and is neither `-` nor an index: `0`, or digits without a leading zero.
    BadIndex,
    /// The node at the place of a test is another one than its value.
    TestFailed,
    /// A move goes beneath the place that it comes from.
    IntoItself,
    /// All else succeeds, and the result nests deeper than 127.
    TooDeep,
}

/// Why `apply` gives no document.
#[derive(Drop)]
pub enum ApplyFault {
    /// The operation makes nothing of the document, which is handed back as it was given.
    Refused { doc: Doc, why: PatchFault },
    /// Memory was refused, and the document is dropped.
    NoMemory,
}

// Why an operation in place changes nothing, or leaves what nobody reads.
#[derive(Clone, Copy, Debug, PartialEq, Eq, Drop)]
pub(crate) enum EditFault {
    Cause(PatchFault),
    NoMemory,
}

impl From<FindFault> for PatchFault {
    ghost use Rattle.std.specs.Prelude.{◌≡◌};
    ghost use Rattle.json_patch6902.specs.Faults.{fault_of};

    ghost from_gives = { λ fault why. why ≡ fault_of fault };

    fn from(fault: FindFault) -> PatchFault {
        match fault {
            FindFault::NoPlace => PatchFault::NoPlace,
            FindFault::BadIndex => PatchFault::BadIndex,
        }
    }
}

impl From<FindFault> for EditFault {
    ghost use Rattle.std.specs.Prelude.{◌≡◌};
    ghost use Rattle.json_patch6902.specs.Faults.{fault_for};

    ghost from_gives = { λ fault e. e ≡ fault_for fault };

    fn from(fault: FindFault) -> EditFault {
        EditFault::Cause(PatchFault::from(fault))
    }
}

impl From<NoMemory> for EditFault {
    ghost use Rattle.std.specs.Prelude.{◌≡◌};
    ghost use Rattle.json_patch6902.specs.declared.fault.EditFault.TheVariants.{NoMemory as edit_memory};

    ghost from_gives = { λ _ e. e ≡ edit_memory };

    fn from(_refused: NoMemory) -> EditFault {
        EditFault::NoMemory
    }
}
