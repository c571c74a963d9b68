ghost use Rattle.std.specs.Prelude.{◌≡◌, ◌≢◌, Err, IfOk, None, is_err};
ghost use Rattle.n32_outside.specs.Calls.{count_after, is_fault};
ghost use Rattle.n32_outside.specs.Causes.{HasOutCause};
ghost use Rattle.n32_outside.specs.Contents.{Loads, Puts, Stays};

use crate::line_file::LineFile;
use crate::{Keeper, LockFile, OutFault};
use n32_values::{Bytes, NoMemory};
use std::alloc::Global;
use std::io::ErrorKind;
use std::rt::Files;

/// A keeper over a file, with one item on each line. It counts each `Err` of the system, and tells nothing of what the file holds.
///
/// The first call opens the file, or makes it, and locks it until the keeper is dropped. Each of these is a fault: there is no file at the
/// path and none can be made, it is no plain file or may not be read and written, another has locked it, the file system has no locks.
///
/// `load` leaves the file as it is. `put` cuts off what stands behind the last whole line, as a run that was stopped or a put that failed
/// may have left it, and adds the item by one write. A file that has bytes and no whole line is a fault for both, and stays as it is,
/// unless its bytes may be the front of a record's text (`may_begin_record`).
///
/// In place of a text of more than 1,114,112 bytes, which no record has, `load` gives the empty text, which is no record either, and what stands
/// behind it is a fault. An item that is so long or has a newline is refused by `put` as `Failed`, and counted.
#[derive(Drop)]
pub struct FileKeeper<T: Files + Clone + Drop>
where
    T::File: LockFile,
{
    file: LineFile<T>,
    faults: u64,
}

impl<T: Files + Clone + Drop> FileKeeper<T>
where
    T::File: LockFile,
{
    ghost use Rattle.n32_outside.specs.FileViews.{file_faults};

    /// A keeper over the file at this path, which it keeps a copy of, and which isn't opened yet. It takes all memory that `put` needs.
    pub fn new(rt: T, alloc: Global, path: &str) -> Result<FileKeeper<T>, NoMemory>
        ensures faults { IfOk result (λ k. file_faults k ≡ 0) }
    {
        Ok(FileKeeper {
            file: LineFile::new(rt, alloc, path)?,
            faults: 0,
        })
    }
}

impl<T: Files + Clone + Drop> Keeper for FileKeeper<T>
where
    T::File: LockFile,
{
    ghost use Rattle.n32_outside.specs.FileViews.{file_faults};

    ghost held = { λ k. None };

    ghost faults = { λ k. file_faults k };

    fn put(&mut self, item: &[u8]) -> Result<(), OutFault>
        ensures items { Puts None None result item.now }
        ensures cause { HasOutCause (file_faults self.old) (file_faults self.new) result }
        ensures count { file_faults self.new ≡ count_after (is_err result) (file_faults self.old) }
        ensures memory { result ≢ Err OutFault.NoMemory }
    {
        match self.file.append(item) {
            Ok(()) => Ok(()),
            Err(_) => {
                self.faults = self.faults.saturating_add(1);
                Err(OutFault::Failed)
            }
        }
    }

    fn load(&mut self, alloc: Global, number: u64) -> Result<Option<Bytes>, OutFault>
        ensures items { Loads None result number }
        ensures same { Stays None None }
        ensures cause { HasOutCause (file_faults self.old) (file_faults self.new) result }
        ensures count { file_faults self.new ≡ count_after (is_fault result) (file_faults self.old) }
    {
        match self.file.item(alloc, number) {
            Ok(found) => Ok(found),
            Err(error) if error.kind() == ErrorKind::OutOfMemory => Err(OutFault::NoMemory),
            Err(_) => {
                self.faults = self.faults.saturating_add(1);
                Err(OutFault::Failed)
            }
        }
    }
}
