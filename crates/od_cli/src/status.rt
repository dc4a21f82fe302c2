ghost use Rattle.std.specs.Prelude.{◌≡◌};

use crate::read::ReadEnd;
use gd_names::{NoMemory, SinkFault};

/// How a replay ended. Its number is the exit code of the program.
#[derive(Clone, Copy, Debug, PartialEq, Eq)]
pub enum ReplayStatus {
    /// The script was read to its end and run, and all was written.
    Replayed,
    /// The words give no command.
    Usage,
    /// The line of this number is the first that is no script line. Nothing was run.
    BadLine(u64),
    /// The source gave more than 8,388,608 bytes.
    TooLong,
    ReadFault,
    WriteFault,
    Memory,
}

impl ReplayStatus {
    ghost use Rattle.od_cli.specs.Statuses.{status_number};

    pub fn number(&self) -> u8
        ensures { result ≡ status_number self.now }
    {
        match self {
            ReplayStatus::Replayed => 0,
            ReplayStatus::Usage => 2,
            ReplayStatus::BadLine(_) => 3,
            ReplayStatus::TooLong => 4,
            ReplayStatus::ReadFault => 5,
            ReplayStatus::WriteFault => 8,
            ReplayStatus::Memory => 10,
        }
    }
}

impl From<ReadEnd> for ReplayStatus {
    ghost use Rattle.od_cli.specs.Statuses.{status_of_read};

    ghost from_gives = { λ end status. status ≡ status_of_read end };

    fn from(end: ReadEnd) -> ReplayStatus {
        match end {
            ReadEnd::TooLong => ReplayStatus::TooLong,
            ReadEnd::Fault => ReplayStatus::ReadFault,
            ReadEnd::Memory => ReplayStatus::Memory,
        }
    }
}

impl From<SinkFault> for ReplayStatus {
    ghost use Rattle.od_cli.specs.Statuses.{status_of_write};

    ghost from_gives = { λ fault status. status ≡ status_of_write fault };

    fn from(fault: SinkFault) -> ReplayStatus {
        match fault {
            SinkFault::Failed => ReplayStatus::WriteFault,
            SinkFault::Memory => ReplayStatus::Memory,
        }
    }
}

impl From<NoMemory> for ReplayStatus {
    ghost use Rattle.od_cli.specs.declared.status.ReplayStatus.TheVariants.{Memory};

    ghost from_gives = { λ _ status. status ≡ Memory };

    fn from(_error: NoMemory) -> ReplayStatus {
        ReplayStatus::Memory
    }
}
