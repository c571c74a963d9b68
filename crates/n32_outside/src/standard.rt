ghost use Rattle.std.specs.Prelude.{◌≡◌, ◌≢◌, is_err, Err};
ghost use Rattle.std.specs.Io.{ReadsAtMost, WritesAtMost};
ghost use Rattle.std.specs.Io.KnownBytes.{ReadConsumes, WriteAppends};
ghost use Rattle.n32_outside.specs.Calls.{count_after};
ghost use Rattle.n32_outside.specs.Causes.{HasCause, HasOutCause};
ghost use Rattle.n32_outside.specs.Contents.{MovesSome};

use crate::{Failed, OutFault, Sink, Source};
use std::io::{Read, Write};

/// A source over a reader of std. It counts each `Err` of the reader.
#[derive(Drop)]
pub struct StdSource<R: Read + Drop> {
    reader: R,
    faults: u64,
}

impl<R: Read + Drop> StdSource<R> {
    ghost use Rattle.n32_outside.specs.StandardViews.{source_reader, reader_faults};

    /// A source over this reader, which hasn't failed yet.
    pub fn new(reader: R) -> StdSource<R>
        ensures reader { source_reader result ≡ reader }
        ensures faults { reader_faults result ≡ 0 }
    {
        StdSource { reader, faults: 0 }
    }
}

impl<R: Read + Drop> Source for StdSource<R> {
    ghost use Rattle.n32_outside.specs.StandardViews.{source_reader, reader_faults};

    ghost left = { λ s. R.remaining (source_reader s) };

    ghost faults = { λ s. reader_faults s };

    fn read(&mut self, into: &mut [u8]) -> Result<usize, Failed>
        ensures bound { ReadsAtMost result into.new }
        ensures bytes { ReadConsumes (R.remaining (source_reader self.old)) (R.remaining (source_reader self.new)) result into.new }
        ensures cause { HasCause (reader_faults self.old) (reader_faults self.new) result }
        ensures count { reader_faults self.new ≡ count_after (is_err result) (reader_faults self.old) }
    {
        match self.reader.read(into) {
            Ok(count) => Ok(count),
            Err(_) => {
                self.faults = self.faults.saturating_add(1);
                Err(Failed)
            }
        }
    }
}

/// A sink over a writer of std. It counts each `Err` of the writer and each write that takes nothing of a piece.
#[derive(Drop)]
pub struct StdSink<W: Write + Drop> {
    writer: W,
    faults: u64,
}

impl<W: Write + Drop> StdSink<W> {
    ghost use Rattle.n32_outside.specs.StandardViews.{sink_writer, writer_faults};

    /// A sink over this writer, which hasn't failed yet.
    pub fn new(writer: W) -> StdSink<W>
        ensures writer { sink_writer result ≡ writer }
        ensures faults { writer_faults result ≡ 0 }
    {
        StdSink { writer, faults: 0 }
    }
}

impl<W: Write + Drop> Sink for StdSink<W> {
    ghost use Rattle.n32_outside.specs.StandardViews.{sink_writer, writer_faults};

    ghost written = { λ s. W.contents (sink_writer s) };

    ghost faults = { λ s. writer_faults s };

    fn write(&mut self, piece: &[u8]) -> Result<usize, OutFault>
        ensures bound { WritesAtMost result piece.now }
        ensures some { MovesSome result piece.now }
        ensures bytes { WriteAppends (W.contents (sink_writer self.old)) (W.contents (sink_writer self.new)) result piece.now }
        ensures cause { HasOutCause (writer_faults self.old) (writer_faults self.new) result }
        ensures count { writer_faults self.new ≡ count_after (is_err result) (writer_faults self.old) }
        ensures memory { result ≢ Err OutFault.NoMemory }
    {
        match self.writer.write(piece) {
            Ok(count) if count > 0 || piece.is_empty() => Ok(count),
            _ => {
                self.faults = self.faults.saturating_add(1);
                Err(OutFault::Failed)
            }
        }
    }
}
