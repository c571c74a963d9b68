// Lines are read to events.
ghost use Rattle.std.specs.Prelude.{IfOk};
ghost use Rattle.script_lines.specs.View.{event_view};
ghost use Rattle.spec_script.specs.Events.{line_event};
ghost use Rattle.spec_documents.specs.Gives.{Gives};
ghost use Rattle.script_lines.specs.Unanswered.{SparesKeeper, told_refusal};
ghost use Rattle.replay_world.specs.Fitting.{IsFit};

use script_lines::{Event, EventRead, Refusal, Unanswered, read_event, read_line};
use std::alloc::Global;

/// The event of a line, or the first reason why it is of none.
pub(crate) fn read_line_event(alloc: Global, line: &[u8]) -> Result<Event, Unanswered>
    ensures gives { Gives told_refusal event_view result (line_event line.now) }
    ensures fit { IfOk result (λ event. IsFit (event_view event)) }
    ensures spares { SparesKeeper result }
{
    let document = match read_line(alloc, line) {
        Ok(document) => document,
        Err(why) => return Err(why),
    };
    match read_event(alloc, document) {
        Ok(event) => Ok(event),
        Err(EventRead::Member(member)) => Err(Unanswered::Refused(Refusal::Event(member.name()))),
        Err(EventRead::NoMemory) => Err(Unanswered::NoMemory),
    }
}
