// The lines of the script, answered one after another.
ghost use Rattle.std.specs.Prelude.{◌≡◌, [], OnOk, OnErr};
ghost use Rattle.spec_exercise.specs.Documents as spec;
ghost use Rattle.exercise_script.specs.View.{line_view};
ghost use Rattle.exercise_script.specs.Sums.{HasTaken};
ghost use Rattle.exercise_word.specs.Playing.{PlaysLine, LosesLine, PlaysAll, StopsPlaying};

use exercise_script::{Line, Script, Summary, line_text};
use n32_values::NoMemory;
use script_loop::Machine;
use std::alloc::Global;

// Answers a line, and has the summary take the answer.
fn play_line<M: Machine>(
    alloc: Global,
    machine: &mut M,
    summary: &mut Summary,
    number: u64,
    line: Line,
) -> Result<(), NoMemory>
    requires { M.ready machine.old }
    ensures ok { OnOk result (PlaysLine M.gives machine.old number (spec.line_text (line_view line)) machine.new summary.old summary.new) }
    ensures ready { OnOk result (M.ready machine.new) }
    ensures err { OnErr result (LosesLine M.gives M.gives_up machine.old number (spec.line_text (line_view line)) machine.new) }
    ensures later { M.later machine.old machine.new }
{
    let text = line_text(alloc, line)?;
    let answer = machine.answer(alloc, number, text.as_slice())?;
    summary.take(alloc, answer.as_slice())?;
    Ok(())
}

/// Answers each line of the script with so many messages, and has the summary, which took nothing yet, take the answers.
pub(crate) fn play<M: Machine>(
    alloc: Global,
    messages: u32,
    machine: &mut M,
    summary: &mut Summary,
) -> Result<(), NoMemory>
    requires ready { M.ready machine.old }
    requires new { HasTaken summary.old [] }
    ensures ok { OnOk result (PlaysAll M.gives messages machine.old machine.new summary.new) }
    ensures err { OnErr result (StopsPlaying M.gives M.gives_up messages machine.old machine.new) }
    ensures later { M.later machine.old machine.new }
{
    let mut script = Script::new(messages);
    let mut number: u64 = 0;
    while let Some(line) = script.next_line() {
        number += 1;
        play_line(alloc, machine, summary, number, line)?;
    }
    Ok(())
}
