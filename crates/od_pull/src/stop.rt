ghost use Rattle.std.specs.Prelude.{◌≡◌};

use gd_item::{ErrorCode, ItemId};
use gd_names::{Bytes, NoMemory};
use od_keeper::KeeperFault;
use od_mirror::PullFault;
use od_remote::{AskFault, ServeFault};
use std::alloc::AllocError;
use thiserror::Error;

/// Why a pull has no view of the drive.
#[derive(Debug, PartialEq, Eq, Drop, Error)]
pub enum PullStop {
    #[error("three sends had no reply")]
    LinkFault,
    #[error("the drive lacks memory")]
    Unserved,
    /// The bytes that came.
    #[error("what came is no reply")]
    BadReply(Bytes),
    #[error("the drive does not tell what changed: {status}")]
    Refused { status: u16, code: ErrorCode },
    /// The least item that does not fit.
    #[error("the pages make no drive: see item {0:?}")]
    BadPages(ItemId),
    #[error("the pages do not end")]
    Endless,
    #[error("the kept image cannot be reached")]
    KeeperFault,
    #[error("out of memory")]
    Memory,
}

impl From<NoMemory> for PullStop {
    ghost use Rattle.od_pull.specs.declared.stop.PullStop.TheVariants.{Memory};

    ghost from_gives = { λ _ stop. stop ≡ Memory };

    fn from(_error: NoMemory) -> PullStop {
        PullStop::Memory
    }
}

impl From<AskFault> for PullStop {
    ghost use Rattle.od_pull.specs.Stops.{ask_stop};

    ghost from_gives = { λ fault stop. stop ≡ ask_stop fault };

    fn from(fault: AskFault) -> PullStop {
        match fault {
            AskFault::Failed => PullStop::LinkFault,
            AskFault::Bad(bytes) => PullStop::BadReply(bytes),
            AskFault::Memory => PullStop::Memory,
        }
    }
}

impl From<AllocError> for PullStop {
    ghost use Rattle.od_pull.specs.declared.stop.PullStop.TheVariants.{Memory};

    ghost from_gives = { λ _ stop. stop ≡ Memory };

    fn from(_error: AllocError) -> PullStop {
        PullStop::Memory
    }
}

impl From<ServeFault> for PullStop {
    ghost use Rattle.od_pull.specs.Stops.{serve_stop};

    ghost from_gives = { λ fault stop. stop ≡ serve_stop fault };

    fn from(fault: ServeFault) -> PullStop {
        match fault {
            ServeFault::Failed => PullStop::LinkFault,
            ServeFault::Unserved => PullStop::Unserved,
            ServeFault::Bad(bytes) => PullStop::BadReply(bytes),
            ServeFault::Memory => PullStop::Memory,
        }
    }
}

impl From<PullFault> for PullStop {
    ghost use Rattle.od_pull.specs.Stops.{page_stop};

    ghost from_gives = { λ fault stop. stop ≡ page_stop fault };

    fn from(fault: PullFault) -> PullStop {
        match fault {
            PullFault::BadPages(id) => PullStop::BadPages(id),
            PullFault::Memory => PullStop::Memory,
        }
    }
}

impl From<KeeperFault> for PullStop {
    ghost use Rattle.od_pull.specs.Stops.{keeper_stop};

    ghost from_gives = { λ fault stop. stop ≡ keeper_stop fault };

    fn from(fault: KeeperFault) -> PullStop {
        match fault {
            KeeperFault::Failed => PullStop::KeeperFault,
            KeeperFault::Memory => PullStop::Memory,
        }
    }
}
