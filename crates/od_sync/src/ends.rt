ghost use Rattle.std.specs.Prelude.{◌≡◌};

use crate::pulling::PullStop;
use crate::scanning::FolderFault;
use gd_item::ItemId;
use gd_names::NoMemory;
use od_keeper::KeeperFault;
use std::alloc::{AllocError, AllocFailed};
use thiserror::Error;

/// How a sync ended.
#[derive(Debug, PartialEq, Eq, Drop)]
pub enum SyncEnd {
    /// Both sides are the same.
    Settled,
    /// After three rounds they are not.
    Unsettled,
    /// Three sends of one request had no reply.
    LinkFault,
    TreeFault,
    KeeperFault,
    /// The least item that the drive gave and that does not fit.
    BadPages(ItemId),
    /// Three sends of a request for changes brought no reply but that the drive lacks memory.
    Unserved,
    Memory,
}

/// Why a sync did not come to compare both sides for the last time.
#[derive(Clone, Copy, Debug, PartialEq, Eq, Error)]
pub enum SyncStop {
    #[error("three sends had no reply")]
    LinkFault,
    #[error("the folder cannot be reached")]
    TreeFault,
    #[error("the kept image cannot be reached")]
    KeeperFault,
    #[error("the pages make no drive: see item {0:?}")]
    BadPages(ItemId),
    #[error("the drive lacks memory")]
    Unserved,
    #[error("out of memory")]
    Memory,
}

impl SyncStop {
    ghost use Rattle.od_sync.specs.Ends.{end_of_stop};

    pub(crate) fn end(self) -> SyncEnd
        ensures { result ≡ end_of_stop self }
    {
        match self {
            SyncStop::LinkFault => SyncEnd::LinkFault,
            SyncStop::TreeFault => SyncEnd::TreeFault,
            SyncStop::KeeperFault => SyncEnd::KeeperFault,
            SyncStop::BadPages(id) => SyncEnd::BadPages(id),
            SyncStop::Unserved => SyncEnd::Unserved,
            SyncStop::Memory => SyncEnd::Memory,
        }
    }
}

impl From<NoMemory> for SyncStop {
    ghost use Rattle.od_sync.specs.declared.ends.SyncStop.TheVariants.{Memory};

    ghost from_gives = { λ _ stop. stop ≡ Memory };

    fn from(_error: NoMemory) -> SyncStop {
        SyncStop::Memory
    }
}

impl From<AllocError> for SyncStop {
    ghost use Rattle.od_sync.specs.declared.ends.SyncStop.TheVariants.{Memory};

    ghost from_gives = { λ _ stop. stop ≡ Memory };

    fn from(_error: AllocError) -> SyncStop {
        SyncStop::Memory
    }
}

impl<T: Drop> From<AllocFailed<T>> for SyncStop {
    ghost use Rattle.od_sync.specs.declared.ends.SyncStop.TheVariants.{Memory};

    ghost from_gives = { λ _ stop. stop ≡ Memory };

    fn from(_error: AllocFailed<T>) -> SyncStop {
        SyncStop::Memory
    }
}

impl From<PullStop> for SyncStop {
    ghost use Rattle.od_sync.specs.Ends.{stop_of_pull};

    ghost from_gives = { λ cause stop. stop ≡ stop_of_pull cause };

    fn from(cause: PullStop) -> SyncStop {
        match cause {
            PullStop::LinkFault => SyncStop::LinkFault,
            PullStop::Unserved => SyncStop::Unserved,
            PullStop::BadPages(id) => SyncStop::BadPages(id),
            PullStop::Memory => SyncStop::Memory,
        }
    }
}

impl From<FolderFault> for SyncStop {
    ghost use Rattle.od_sync.specs.Ends.{stop_of_folder};

    ghost from_gives = { λ cause stop. stop ≡ stop_of_folder cause };

    fn from(cause: FolderFault) -> SyncStop {
        match cause {
            FolderFault::Failed => SyncStop::TreeFault,
            FolderFault::Memory => SyncStop::Memory,
        }
    }
}

impl From<KeeperFault> for SyncStop {
    ghost use Rattle.od_sync.specs.Ends.{stop_of_keeper};

    ghost from_gives = { λ cause stop. stop ≡ stop_of_keeper cause };

    fn from(cause: KeeperFault) -> SyncStop {
        match cause {
            KeeperFault::Failed => SyncStop::KeeperFault,
            KeeperFault::Memory => SyncStop::Memory,
        }
    }
}
