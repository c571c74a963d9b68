ghost use Rattle.std.specs.Prelude.{List, ℕ, Option};
ghost use Rattle.std.specs.Io.{ReadsAtMost, WritesAtMost};
ghost use Rattle.std.specs.Io.KnownBytes.{ReadConsumes, WriteAppends};
ghost use Rattle.n32_outside.specs.Causes.{HasCause, HasOutCause};
ghost use Rattle.n32_outside.specs.Contents.{Loads, MovesSome, Puts, Stays};

use crate::{Failed, OutFault};
use n32_values::Bytes;
use std::alloc::Global;

/// Bytes to read.
pub trait Source {
    /// The bytes that are left, where the source tells them.
    ghost left: { Self → Option (List ℕ) };

    /// How often the source has failed.
    ghost faults: { Self → ℕ };

    /// Reads the next bytes to the front of `into` and answers how many.
    ///
    /// With room for a byte it answers 0 only at the end of the bytes. After `Failed` the same bytes are left.
    fn read(&mut self, into: &mut [u8]) -> Result<usize, Failed>
        ensures bound { ReadsAtMost result into.new }
        ensures bytes { ReadConsumes (left self.old) (left self.new) result into.new }
        ensures cause { HasCause (faults self.old) (faults self.new) result };
}

/// A place to write to.
pub trait Sink {
    /// The bytes that were written, where the sink tells them.
    ghost written: { Self → Option (List ℕ) };

    /// How often the sink has failed.
    ghost faults: { Self → ℕ };

    /// Writes a front of `piece` and answers its length, at least 1 where the piece has a byte.
    ///
    /// After an `Err` nothing was written.
    fn write(&mut self, piece: &[u8]) -> Result<usize, OutFault>
        ensures bound { WritesAtMost result piece.now }
        ensures some { MovesSome result piece.now }
        ensures bytes { WriteAppends (written self.old) (written self.new) result piece.now }
        ensures cause { HasOutCause (faults self.old) (faults self.new) result };
}

/// A list of byte texts that outlasts the program's run, numbered from 0.
pub trait Keeper {
    /// The items, where the keeper tells them.
    ghost held: { Self → Option (List (List ℕ)) };

    /// How often the keeper has failed.
    ghost faults: { Self → ℕ };

    /// Adds an item at the end.
    ///
    /// After `Failed` the item may be there or not. After `NoMemory` it isn't.
    fn put(&mut self, item: &[u8]) -> Result<(), OutFault>
        ensures items { Puts (held self.old) (held self.new) result item.now }
        ensures cause { HasOutCause (faults self.old) (faults self.new) result };

    /// The item of that number, or `None` exactly at or past the end. The items stay.
    fn load(&mut self, alloc: Global, number: u64) -> Result<Option<Bytes>, OutFault>
        ensures items { Loads (held self.old) result number }
        ensures same { Stays (held self.old) (held self.new) }
        ensures cause { HasOutCause (faults self.old) (faults self.new) result };
}
