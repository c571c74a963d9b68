ghost use Rattle.std.specs.Prelude.{◌≡◌, ◌+◌, ◌-◌, ◌≤◌, [], ◌++◌, Some, drop, take, min, max, length, IsErrOf, IsTrue, ◌↔◌, is_err};
ghost use Rattle.std.specs.Io.{ReadsAtMost, WritesAtMost};
ghost use Rattle.std.specs.Io.KnownBytes.{ReadConsumes, WriteAppends};
ghost use Rattle.n32_outside.specs.Calls.{fails_at, next_count, count_after};
ghost use Rattle.n32_outside.specs.Causes.{HasCause, HasOutCause};
ghost use Rattle.n32_outside.specs.Contents.{MovesSome};

use crate::{CallList, Failed, OutFault, Sink, Source, is_listed};
use n32_values::Bytes;
use std::alloc::Global;

/// A source in memory. It fails exactly at its listed calls.
#[derive(Drop)]
pub struct MemSource {
    bytes: Bytes,
    at: usize,
    fails: CallList,
    call: u64,
    faults: u64,
}

impl MemSource {
    ghost use Rattle.n32_outside.specs.MemoryViews.{source_left, source_faults, source_fails, source_call};

    /// A source of these bytes, which fails at the listed calls. It takes no memory.
    pub fn new(bytes: Bytes, fails: CallList) -> MemSource
        ensures left { source_left result ≡ bytes }
        ensures fails { source_fails result ≡ fails }
        ensures call { source_call result ≡ 0 }
        ensures faults { source_faults result ≡ 0 }
    {
        MemSource {
            bytes,
            at: 0,
            fails,
            call: 0,
            faults: 0,
        }
    }
}

impl Source for MemSource {
    ghost use Rattle.std.specs.Prelude.{Some};
    ghost use Rattle.n32_outside.specs.MemoryViews.{source_left, source_faults, source_fails, source_call};

    ghost left = { λ s. Some (source_left s) };

    ghost faults = { source_faults };

    fn read(&mut self, into: &mut [u8]) -> Result<usize, Failed>
        ensures bound { ReadsAtMost result into.new }
        ensures bytes { ReadConsumes (Some (source_left self.old)) (Some (source_left self.new)) result into.new }
        ensures cause { HasCause (source_faults self.old) (source_faults self.new) result }

        // It fails at the listed calls and nowhere else.
        ensures fails { is_err result ≡ fails_at (source_fails self.old) (source_call self.old) }
        ensures call { source_call self.new ≡ next_count (source_call self.old) }
        ensures count { source_faults self.new ≡ count_after (is_err result) (source_faults self.old) }
        ensures list { source_fails self.new ≡ source_fails self.old }
    {
        let is_fault = is_listed(&self.fails, self.call);
        self.call = self.call.saturating_add(1);
        if is_fault {
            self.faults = self.faults.saturating_add(1);
            return Err(Failed);
        }
        let count = copy_from(self.bytes.as_slice(), self.at, into);
        self.at += count;
        Ok(count)
    }
}

// Copies the bytes from that place on to the front of the room, as many as there are and fit.
fn copy_from(bytes: &[u8], at: usize, into: &mut [u8]) -> usize
    ensures bound { result ≤ length into.new }
    ensures place { at + result ≤ max at (length bytes.now) }
    ensures copied { take result into.new ++ drop (at + result) bytes.now ≡ drop at bytes.now }
    ensures all { result ≡ min (length into.new) (length bytes.now - at) }
{
    if at >= bytes.len() {
        return 0;
    }
    let rest = &bytes[at..];
    let count = rest.len().min(into.len());
    into[..count].copy_from_slice(&rest[..count]);
    count
}

/// A sink in memory. It fails exactly at its listed calls.
#[derive(Drop)]
pub struct MemSink {
    bytes: Vec<u8>,
    fails: CallList,
    call: u64,
    faults: u64,
}

impl MemSink {
    ghost use Rattle.n32_outside.specs.MemoryViews.{sink_written, sink_faults, sink_fails, sink_call};

    /// A sink that was given nothing yet, and fails at the listed calls. It takes memory as it is written to.
    pub fn new(alloc: Global, fails: CallList) -> MemSink
        ensures written { sink_written result ≡ [] }
        ensures fails { sink_fails result ≡ fails }
        ensures call { sink_call result ≡ 0 }
        ensures faults { sink_faults result ≡ 0 }
    {
        MemSink {
            bytes: Vec::new(alloc),
            fails,
            call: 0,
            faults: 0,
        }
    }

    /// The bytes that were written.
    pub fn written(&self) -> &[u8]
        ensures { result.now ≡ sink_written self.now }
    {
        &self.bytes
    }
}

impl Sink for MemSink {
    ghost use Rattle.std.specs.Prelude.{Some};
    ghost use Rattle.n32_outside.specs.MemoryViews.{sink_written, sink_faults, sink_fails, sink_call};

    ghost written = { λ s. Some (sink_written s) };

    ghost faults = { sink_faults };

    /// Takes the whole piece, or nothing.
    fn write(&mut self, piece: &[u8]) -> Result<usize, OutFault>
        ensures bound { WritesAtMost result piece.now }
        ensures some { MovesSome result piece.now }
        ensures bytes { WriteAppends (Some (sink_written self.old)) (Some (sink_written self.new)) result piece.now }
        ensures cause { HasOutCause (sink_faults self.old) (sink_faults self.new) result }

        // It fails at the listed calls and nowhere else.
        ensures fails { IsErrOf result OutFault.Failed ↔ IsTrue (fails_at (sink_fails self.old) (sink_call self.old)) }
        ensures call { sink_call self.new ≡ next_count (sink_call self.old) }
        ensures count { sink_faults self.new ≡ count_after (fails_at (sink_fails self.old) (sink_call self.old)) (sink_faults self.old) }
        ensures list { sink_fails self.new ≡ sink_fails self.old }
    {
        let is_fault = is_listed(&self.fails, self.call);
        self.call = self.call.saturating_add(1);
        if is_fault {
            self.faults = self.faults.saturating_add(1);
            return Err(OutFault::Failed);
        }
        self.bytes.extend_from_slice(piece)?;
        Ok(piece.len())
    }
}
