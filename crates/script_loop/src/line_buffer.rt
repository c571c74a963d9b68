ghost use Rattle.std.specs.Prelude.{◌≡◌, ℕ, ◌+◌, ◌-◌, ◌^◌, ◌<◌, ◌≤◌, List, [], ◌++◌, length, OnOk, IfErr};
ghost use Rattle.std.specs.Io.KnownBytes.{Appends};
ghost use Rattle.n32_outside.specs.Causes.{Rose};
ghost use Rattle.script_loop.specs.Limits.{line_limit};
ghost use Rattle.spec_documents.specs.Lines.{LineOutput};
ghost use Rattle.script_loop.specs.Progress.{IsLine, Feeds, StopsInLine};
ghost use Rattle.script_loop.specs.Stops.{HasWriteCause, IsWriting, IsExtending, Stops, Finishes, PassesLimit};

use crate::answer::answer_line;
use crate::lines::{NEWLINE, split_line};
use crate::{Ending, Machine};
use n32_outside::Sink;
use std::alloc::Global;

/// The bytes that a line may have, without its newline.
pub const LINE_LIMIT: usize = 1_048_576;

/// What has come of a script's lines: how many have ended, and the one that has begun.
#[derive(Drop)]
pub struct LineBuffer {
    line: Vec<u8>,
    number: u64,
}

impl LineBuffer {
    pub fn new(alloc: Global) -> Self
        ensures line { result.line.items ≡ [] }
        ensures number { result.number ≡ 0 }
    {
        LineBuffer {
            line: Vec::new(alloc),
            number: 0,
        }
    }

    /// Adds a part of the line.
    fn extend(&mut self, part: &[u8]) -> Result<(), Ending>
        requires short { length self.old.line.items ≤ line_limit }
        requires number { self.old.number < 2 ^ 64 - 1 }
        ensures ok { OnOk result (self.new.line.items ≡ self.old.line.items ++ part.now) }
        ensures short { OnOk result (length self.new.line.items ≤ line_limit) }
        ensures number { self.new.number ≡ self.old.number }
        ensures err { IfErr result (IsExtending self.old.number (self.old.line.items ++ part.now)) }
    {
        if part.len() > LINE_LIMIT - self.line.len() {
            return Err(Ending::LineTooLong(self.number + 1));
        }
        match self.line.extend_from_slice(part) {
            Ok(()) => Ok(()),
            Err(_) => Err(Ending::NoMemory),
        }
    }

    /// Answers the line, which has ended.
    fn end_line<M: Machine, O: Sink>(
        &mut self,
        alloc: Global,
        machine: &mut M,
        sink: &mut O,
    ) -> Result<(), Ending>
        requires number { self.old.number < 2 ^ 64 - 1 }
        requires ready { M.ready machine.old }
        ensures ok { OnOk result ((out : List ℕ)
            × LineOutput M.gives machine.old (self.old.number + 1) self.old.line.items out machine.new
            × Appends (O.written sink.old) (O.written sink.new) out) }
        ensures line { OnOk result (self.new.line.items ≡ []) }
        ensures number { OnOk result (self.new.number ≡ self.old.number + 1) }
        ensures err { IfErr result (StopsInLine M.gives M.gives_up machine.old (self.old.number + 1) self.old.line.items machine.new (O.written sink.old) (O.written sink.new)) }
        ensures which { IfErr result IsWriting }
        ensures ready { OnOk result (M.ready machine.new) }
        ensures later { M.later machine.old machine.new }
        ensures cause { HasWriteCause (O.faults sink.old) (O.faults sink.new) result }
    {
        self.number += 1;
        let answered = answer_line(alloc, self.number, &self.line, machine, sink);
        self.line.clear();
        answered
    }

    /// Takes the next bytes of the script, and answers each line that ends in them.
    pub fn feed<M: Machine, O: Sink>(
        &mut self,
        alloc: Global,
        chunk: &[u8],
        machine: &mut M,
        sink: &mut O,
    ) -> Result<(), Ending>
        requires line { IsLine self.old.line.items }
        requires number { self.old.number + length chunk.now < 2 ^ 64 - 1 }
        requires ready { M.ready machine.old }
        ensures ok { OnOk result (Feeds M.gives machine.old self.old.number (self.old.line.items ++ chunk.now)
            machine.new self.new.number self.new.line.items [] (O.written sink.old) (O.written sink.new)) }
        ensures err { IfErr result (Stops M.gives M.gives_up machine.old self.old.number (self.old.line.items ++ chunk.now)
            machine.new (O.written sink.old) (O.written sink.new)) }
        ensures ready { OnOk result (M.ready machine.new) }
        ensures later { M.later machine.old machine.new }
        ensures cause { HasWriteCause (O.faults sink.old) (O.faults sink.new) result }
    {
        let mut rest = chunk;
        while let Some((part, after)) = split_line(rest) {
            self.extend(part)?;
            self.end_line(alloc, machine, sink)?;
            rest = after;
        }
        self.extend(rest)
    }

    /// Answers the last line, which no newline ends, if there is one.
    pub fn finish<M: Machine, O: Sink>(
        &mut self,
        alloc: Global,
        machine: &mut M,
        sink: &mut O,
    ) -> Ending
        requires line { IsLine self.old.line.items }
        requires number { self.old.number < 2 ^ 64 - 1 }
        requires ready { M.ready machine.old }
        ensures ending { Finishes M.gives M.gives_up machine.old self.old.number self.old.line.items machine.new (O.written sink.old) (O.written sink.new) result }
        ensures machine { M.later machine.old machine.new }
        ensures sink { O.faults sink.old ≤ O.faults sink.new }
        ensures write { result ≡ Ending.WriteFault → Rose (O.faults sink.old) (O.faults sink.new) }
    {
        if self.line.is_empty() {
            return Ending::Done;
        }
        match answer_line(alloc, self.number + 1, &self.line, machine, sink) {
            Ok(()) => Ending::Done,
            Err(ending) => ending,
        }
    }

    /// What a byte is that the script may not have.
    pub fn past_limit(&self, byte: u8) -> Ending
        requires { self.now.number < 2 ^ 64 - 1 }
        ensures { PassesLimit self.now.number self.now.line.items byte result }
    {
        if byte != NEWLINE && self.line.len() == LINE_LIMIT {
            Ending::LineTooLong(self.number + 1)
        } else {
            Ending::ScriptTooLarge
        }
    }
}
