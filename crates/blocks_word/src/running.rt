ghost use Rattle.std.specs.Prelude.{◌≡◌, ◌≤◌};
ghost use Rattle.n32_outside.specs.Causes.{Rose};
ghost use Rattle.blocks_word.specs.BlockRuns.{Runs};

use crate::answering::answer;
use n32_outside::{Sink, Source};
use n32_values::{Bytes, NoMemory, ReadingRoom};
use script_loop::{Ending, Machine};
use std::alloc::Global;
use std::marker::Model;

// The machine of `blocks`. It keeps nothing between two lines but the room in which they are read.
#[derive(Drop)]
struct Blocks {
    room: ReadingRoom,
}

impl Model for Blocks {
    ghost Value = { Unit {0} };

    ghost view = { λ _. tt };
}

impl Machine for Blocks {
    ghost use Rattle.std.specs.Prelude.{refl};
    ghost use Rattle.std.proofs.Common.{◌∙◌};
    ghost use Rattle.blocks_word.specs.BlockAnswers.{gives_block, gives_none, IsSame};

    ghost ready = { λ _. Unit {0} };

    ghost gives = { gives_block };

    ghost gives_up = { gives_none };

    ghost later = { IsSame };

    ghost stays = { λ _. refl };

    ghost goes_on = { λ a b c first then. then ∙ first };

    fn answer(&mut self, alloc: Global, number: u64, line: &[u8]) -> Result<Bytes, NoMemory> {
        answer(alloc, number, line, &mut self.room)
    }
}

/// Answers each line of the source's script, in order: by the block of its request under the empty policy, or by the first
/// refusal.
///
/// `Runs` says, by the ending, which answers were written and what is left of the script. Source and sink fail only where their
/// counts rose.
pub fn run<S: Source, O: Sink>(alloc: Global, source: &mut S, sink: &mut O) -> Ending
    ensures runs { Runs (S.left source.old) (S.left source.new) (O.written sink.old) (O.written sink.new) result }
    ensures reading { S.faults source.old ≤ S.faults source.new }
    ensures read_fault { result ≡ Ending.ReadFault → Rose (S.faults source.old) (S.faults source.new) }
    ensures writing { O.faults sink.old ≤ O.faults sink.new }
    ensures write_fault { result ≡ Ending.WriteFault → Rose (O.faults sink.old) (O.faults sink.new) }
{
    let room = ReadingRoom::new(alloc);
    script_loop::run(alloc, source, sink, &mut Blocks { room })
}
