// Why an operation, or an entry, isn't allowed.
use json_patch6902::PatchFault;
use n32_values::NoMemory;
use policy_tables::Address;

/// Why an operation isn't allowed: the first that holds, in this order.
#[derive(Drop)]
pub enum OpWhy {
    /// The operation's value has a spelling of a hole.
    HoleValue,
    /// `from` or `path` goes strictly beneath an object hole of the block.
    IntoHole,
    /// The operation makes nothing of the block's document.
    Patch(PatchFault),
    /// The node that is removed, copied, moved or overwritten is a hole, holds one, or is a text that
    /// holds one.
    HoleTaken,
    /// The result's compact text has more than 4,194,304 bytes.
    TooLarge,
    /// The result is no object, or its `metaData` isn't the block's.
    Meta,
    /// The result is no block with as many holes.
    NotBlock,
    /// The holes of the result don't stand where they stood.
    HoleMoved,
    /// This is the first difference of the clear messages that the policy doesn't let the intermediary make.
    NotModifiable(Address),
}

/// Why an entry isn't applied.
#[derive(Drop)]
pub enum EntryFault {
    /// The number of the first operation, from 1, that isn't allowed, and the first reason.
    Operation(u32, OpWhy),
    /// Memory was refused.
    NoMemory,
}

// Why an operation makes no block.
#[derive(Drop)]
pub(crate) enum StepFault {
    Why(OpWhy),
    NoMemory,
}

impl From<NoMemory> for StepFault {
    ghost use Rattle.std.specs.Prelude.{◌≡◌};
    ghost use Rattle.block_patch.specs.declared.fault.StepFault.TheVariants.{NoMemory as no_room};

    ghost from_gives = { λ _ e. e ≡ no_room };

    fn from(_refused: NoMemory) -> StepFault {
        StepFault::NoMemory
    }
}
