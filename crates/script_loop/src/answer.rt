ghost use Rattle.std.specs.Prelude.{List, ℕ, OnOk, OnErr, IfErr};
ghost use Rattle.std.specs.Io.KnownBytes.{Appends};
ghost use Rattle.n32_outside.specs.Causes.{HasOutCause};
ghost use Rattle.spec_documents.specs.Lines.{LineOutput};
ghost use Rattle.script_loop.specs.Progress.{WritesSome, StopsInLine};
ghost use Rattle.script_loop.specs.Stops.{HasWriteCause, IsWriting};

use crate::lines::{NEWLINE, is_blank_line};
use crate::{Ending, Machine};
use n32_outside::{OutFault, Sink};
use std::alloc::Global;

/// Writes all the bytes, however few the sink takes at a time.
///
/// # Errors
/// What the sink answered: some of the bytes were written, and not all.
pub fn write_all<O: Sink>(sink: &mut O, bytes: &[u8]) -> Result<(), OutFault>
    ensures ok { OnOk result (Appends (O.written sink.old) (O.written sink.new) bytes.now) }
    ensures err { OnErr result (WritesSome bytes.now (O.written sink.old) (O.written sink.new)) }
    ensures cause { HasOutCause (O.faults sink.old) (O.faults sink.new) result }
{
    let mut count = 0;
    while count < bytes.len() {
        count += sink.write(&bytes[count..])?;
    }
    Ok(())
}

/// Writes the machine's answer to a line, and nothing for a blank one.
pub fn answer_line<M: Machine, O: Sink>(
    alloc: Global,
    number: u64,
    line: &[u8],
    machine: &mut M,
    sink: &mut O,
) -> Result<(), Ending>
    requires { M.ready machine.old }
    ensures ok { OnOk result ((out : List ℕ)
        × LineOutput M.gives machine.old number line.now out machine.new × Appends (O.written sink.old) (O.written sink.new) out) }
    ensures err { IfErr result (StopsInLine M.gives M.gives_up machine.old number line.now machine.new (O.written sink.old) (O.written sink.new)) }
    ensures which { IfErr result IsWriting }
    ensures ready { OnOk result (M.ready machine.new) }
    ensures later { M.later machine.old machine.new }
    ensures cause { HasWriteCause (O.faults sink.old) (O.faults sink.new) result }
{
    if is_blank_line(line) {
        return Ok(());
    }
    let Ok(answer) = machine.answer(alloc, number, line) else {
        return Err(Ending::NoMemory);
    };
    let mut text = answer.into_vec();
    if text.push(NEWLINE).is_err() {
        return Err(Ending::NoMemory);
    }
    match write_all(sink, &text) {
        Ok(()) => Ok(()),
        Err(OutFault::Failed) => Err(Ending::WriteFault),
        Err(OutFault::NoMemory) => Err(Ending::NoMemory),
    }
}
