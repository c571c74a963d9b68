// What comes in place of an answer's text.
use crate::refusal::Refusal;
use n32_values::NoMemory;

/// Why a line has no text as its answer yet.
#[derive(Drop)]
pub enum Unanswered {
    /// It is refused.
    Refused(Refusal),
    /// Memory was refused.
    NoMemory,
}

impl From<NoMemory> for Unanswered {
    ghost use Rattle.script_lines.specs.Unanswered.{IsMemory};

    ghost from_gives = { λ _ why. IsMemory why };

    fn from(_refused: NoMemory) -> Unanswered {
        Unanswered::NoMemory
    }
}
