ghost use Rattle.std.specs.Prelude.{◌≡◌, ◌≤◌};
ghost use Rattle.n32_outside.specs.Causes.{Rose};
ghost use Rattle.exercise_word.specs.Endings.{Ends, Writes};

use crate::playing::play;
use exercise_script::Summary;
use n32_outside::{OutFault, Sink};
use n32_values::Text;
use script_loop::{Ending, Machine, write_all};
use std::alloc::Global;

fn write_summary<O: Sink>(sink: &mut O, text: &Text) -> Ending
    ensures written { Writes text.now (O.written sink.old) (O.written sink.new) result }
    ensures writing { O.faults sink.old ≤ O.faults sink.new }
    ensures write_fault { result ≡ Ending.WriteFault → Rose (O.faults sink.old) (O.faults sink.new) }
{
    match write_all(sink, text.as_str().as_bytes()) {
        Ok(()) => Ending::Done,
        Err(OutFault::Failed) => Ending::WriteFault,
        Err(OutFault::NoMemory) => Ending::NoMemory,
    }
}

/// Has the machine answer each line of the script of `exercise N`, in order, and then writes the summary of the answers.
///
/// `Ends` says, by the ending, which lines were answered and what was written of the summary. The sink fails only where its
/// count rose.
pub fn run<O: Sink, M: Machine>(
    alloc: Global,
    messages: u32,
    sink: &mut O,
    machine: &mut M,
) -> Ending
    requires { M.ready machine.old }
    ensures ends { Ends M.gives M.gives_up messages machine.old machine.new (O.written sink.old) (O.written sink.new) result }
    ensures machine { M.later machine.old machine.new }
    ensures writing { O.faults sink.old ≤ O.faults sink.new }
    ensures write_fault { result ≡ Ending.WriteFault → Rose (O.faults sink.old) (O.faults sink.new) }
{
    let mut summary = Summary::new();
    let Ok(()) = play(alloc, messages, machine, &mut summary) else {
        return Ending::NoMemory;
    };
    let Ok(text) = summary.text(alloc, messages) else {
        return Ending::NoMemory;
    };
    write_summary(sink, &text)
}
