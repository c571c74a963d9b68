/// How a run over a script ended.
#[derive(Clone, Copy, Debug, PartialEq, Eq, Drop)]
pub enum Ending {
    /// The script was read to its end, and every answer was written.
    Done,
    /// The source failed.
    ReadFault,
    /// The sink failed.
    WriteFault,
    /// The line of this number, from 1, is longer than a line may be.
    LineTooLong(u64),
    /// The script has a byte more than a script may have.
    ScriptTooLarge,
    /// Memory was refused.
    NoMemory,
}
