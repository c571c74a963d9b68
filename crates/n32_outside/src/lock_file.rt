use std::fs::File;
use std::io;

/// A file that one of those who opened it may have to itself.
pub trait LockFile {
    /// Takes the file's lock until the file is closed, as it also is where its process ends.
    ///
    /// It fails where another who opened the file has the lock, and where the file system has no locks.
    fn try_lock(&self) -> io::Result<()>;
}

impl LockFile for File {
    fn try_lock(&self) -> io::Result<()> {
        File::try_lock(self)?;
        Ok(())
    }
}
