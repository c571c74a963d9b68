ghost use Rattle.std.specs.Prelude.{◌≡◌};
ghost use Rattle.script_lines.specs.EventReading.{IsMemory, of_member};

use crate::event_member::EventMember;
use context_records::RecordRead;
use n32_values::NoMemory;

/// Why a document is read to no event.
#[derive(Clone, Copy, Debug, PartialEq, Eq, Drop)]
pub enum EventRead {
    /// This is the first member that is missing or has not its form.
    Member(EventMember),
    /// Memory was refused.
    NoMemory,
}

impl From<NoMemory> for EventRead {
    ghost from_gives = { λ _ e. IsMemory e };

    fn from(_refused: NoMemory) -> EventRead {
        EventRead::NoMemory
    }
}

// A refusal of a member is told by its name.
pub(crate) fn of_member<T>(read: Result<T, RecordRead>, member: EventMember) -> Result<T, EventRead>
    ensures { result ≡ of_member member read }
{
    match read {
        Ok(value) => Ok(value),
        Err(RecordRead::Form) => Err(EventRead::Member(member)),
        Err(RecordRead::NoMemory) => Err(EventRead::NoMemory),
    }
}
