ghost use Rattle.std.specs.Prelude.{◌≡◌};

use context_store::OpenFault;
use script_loop::Ending;
use std::fmt;

/// How a run ended. Its text goes to standard error, and its number is the program's exit status.
#[derive(Clone, Copy, Debug, PartialEq, Eq, Drop)]
pub enum Status {
    /// The source was read to its end, or left unread by `exercise`, and all output was written.
    Done,
    /// The words are none that the program has.
    Words,
    /// The source failed.
    ReadFault,
    /// The sink failed.
    WriteFault,
    /// The line of this number, from 1, has more than 1,048,576 bytes.
    LineTooLong(u64),
    /// The script has more than 67,108,864 bytes.
    ScriptTooLarge,
    /// The text of this number, from 0, that the keeper held at the start is the first that is no record, or stands past
    /// the limit of 1,048,576 records.
    Journal(u64),
    /// The keeper failed while its records were read at the start.
    KeeperFault,
    /// Memory was refused.
    NoMemory,
}

impl Status {
    ghost use Rattle.replay_runs.specs.Statuses.{exit_number};

    /// The exit status of the program.
    pub fn exit(&self) -> u8
        ensures { result ≡ exit_number self.now }
    {
        match self {
            Status::Done => 0,
            Status::Words => 2,
            Status::ReadFault => 3,
            Status::WriteFault => 4,
            Status::LineTooLong(_) => 5,
            Status::ScriptTooLarge => 6,
            Status::Journal(_) => 7,
            Status::KeeperFault => 8,
            Status::NoMemory => 9,
        }
    }
}

impl From<Ending> for Status {
    ghost use Rattle.std.specs.Prelude.{◌≡◌};
    ghost use Rattle.replay_runs.specs.Statuses.{status_of};

    ghost from_gives = { λ ending status. status ≡ status_of ending };

    fn from(ending: Ending) -> Status {
        match ending {
            Ending::Done => Status::Done,
            Ending::ReadFault => Status::ReadFault,
            Ending::WriteFault => Status::WriteFault,
            Ending::LineTooLong(number) => Status::LineTooLong(number),
            Ending::ScriptTooLarge => Status::ScriptTooLarge,
            Ending::NoMemory => Status::NoMemory,
        }
    }
}

impl From<OpenFault> for Status {
    ghost use Rattle.std.specs.Prelude.{◌≡◌};
    ghost use Rattle.replay_runs.specs.Statuses.{load_status};

    ghost from_gives = { λ fault status. status ≡ load_status fault };

    fn from(fault: OpenFault) -> Status {
        match fault {
            OpenFault::Journal(number) => Status::Journal(number),
            OpenFault::Keeper => Status::KeeperFault,
            OpenFault::NoMemory => Status::NoMemory,
        }
    }
}

impl fmt::Display for Status {
    ghost use Rattle.std.specs.Prelude.{Some};
    ghost use Rattle.replay_runs.specs.Statuses.{status_text};

    ghost output = { λ status. Some (status_text status) };

    fn fmt<W: fmt::Write>(&self, f: &mut fmt::Formatter<W>) -> fmt::Result {
        match self {
            Status::Done => Ok(()),
            Status::Words => f.write_str("usage: n32_replay blocks | replay [FILE] | exercise N"),
            Status::ReadFault => f.write_str("n32_replay: read fault"),
            Status::WriteFault => f.write_str("n32_replay: write fault"),
            Status::LineTooLong(number) => write!(f, "n32_replay: line {number} too long"),
            Status::ScriptTooLarge => f.write_str("n32_replay: script too large"),
            Status::Journal(number) => write!(f, "n32_replay: bad record {number}"),
            Status::KeeperFault => f.write_str("n32_replay: keeper fault"),
            Status::NoMemory => f.write_str("n32_replay: no memory"),
        }
    }
}
