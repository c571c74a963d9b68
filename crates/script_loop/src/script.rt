ghost use Rattle.std.specs.Prelude.{◌≡◌, ℕ, ◌+◌, ◌<◌, ◌≤◌, List, length, IfOk, IfSome, vec_len};
ghost use Rattle.std.specs.Io.KnownBytes.{ReadConsumes, Consumes};
ghost use Rattle.n32_outside.specs.Causes.{HasCause, Rose};
ghost use Rattle.script_loop.specs.Limits.{script_limit};
ghost use Rattle.script_loop.specs.Ends.{Ends, MeetsNoLimit};
ghost use Rattle.script_loop.specs.Lines.{IsWithin};

use crate::line_buffer::LineBuffer;
use crate::{Ending, Machine};
use n32_outside::{Failed, Sink, Source};
use std::alloc::{AllocError, Global};

/// The bytes that a script may have.
pub const SCRIPT_LIMIT: usize = 67_108_864;

// The bytes that are read at a time.
const CHUNK: usize = 65_536;

// Room for one read.
fn new_buffer(alloc: Global) -> Result<Vec<u8>, AllocError>
    ensures { IfOk result (λ buffer. 0 < vec_len buffer) }
{
    vec![in alloc; 0u8; CHUNK]
}

// Reads at most so many bytes to the front of the buffer.
fn read_some<S: Source>(source: &mut S, buffer: &mut [u8], most: usize) -> Result<usize, Failed>
    requires most { 0 < most }
    ensures bound { IfOk result (λ count. (count ≤ most) × (count ≤ length buffer.new)) }
    ensures bytes { ReadConsumes (S.left source.old) (S.left source.new) result buffer.new }
    ensures cause { HasCause (S.faults source.old) (S.faults source.new) result }
{
    if most < buffer.len() {
        source.read(&mut buffer[..most])
    } else {
        source.read(buffer)
    }
}

// The same into a vector, which keeps its length.
fn read_chunk<S: Source>(source: &mut S, buffer: &mut Vec<u8>, most: usize) -> Result<usize, Failed>
    requires most { 0 < most }
    ensures len { vec_len buffer.new ≡ vec_len buffer.old }
    ensures bound { IfOk result (λ count. (count ≤ most) × (count ≤ vec_len buffer.new)) }
    ensures bytes { ReadConsumes (S.left source.old) (S.left source.new) result buffer.new.items }
    ensures cause { HasCause (S.faults source.old) (S.faults source.new) result }
{
    read_some(source, buffer, most)
}

/// Reads the source's script to its end and writes the machine's answer to each line, whole before the next line is
/// handled. It takes at most one byte more than a script may have.
///
/// `Ends` says, for each ending, which lines were answered and what is left. The source and the sink fail only where
/// their counts rose, and a script within the limits meets no limit.
pub fn run<S: Source, O: Sink, M: Machine>(
    alloc: Global,
    source: &mut S,
    sink: &mut O,
    machine: &mut M,
) -> Ending
    requires { M.ready machine.old }
    ensures script { IfSome (S.left source.old) (λ script. Ends M.gives M.gives_up script (S.left source.new)
        machine.old machine.new (O.written sink.old) (O.written sink.new) result) }
    ensures complete { IfSome (S.left source.old) (λ script. IsWithin script → MeetsNoLimit result) }
    ensures taken { (bytes : List ℕ) × (length bytes ≤ script_limit + 1) × Consumes (S.left source.old) (S.left source.new) bytes }
    ensures machine { M.later machine.old machine.new }
    ensures reading { S.faults source.old ≤ S.faults source.new }
    ensures read_fault { result ≡ Ending.ReadFault → Rose (S.faults source.old) (S.faults source.new) }
    ensures writing { O.faults sink.old ≤ O.faults sink.new }
    ensures write_fault { result ≡ Ending.WriteFault → Rose (O.faults sink.old) (O.faults sink.new) }
{
    let Ok(mut buffer) = new_buffer(alloc) else {
        return Ending::NoMemory;
    };
    let mut line_buffer = LineBuffer::new(alloc);
    let mut taken = 0;
    loop {
        let room = SCRIPT_LIMIT - taken;
        let Ok(count) = read_chunk(source, &mut buffer, room.max(1)) else {
            return Ending::ReadFault;
        };
        if count == 0 {
            return line_buffer.finish(alloc, machine, sink);
        }
        if room == 0 {
            return line_buffer.past_limit(buffer[0]);
        }
        if let Err(ending) = line_buffer.feed(alloc, &buffer[..count], machine, sink) {
            return ending;
        }
        taken += count;
    }
}
