ghost use Rattle.std.specs.Prelude.{◌≡◌};

use gd_names::NoMemory;
use od_keeper::KeeperFault;
use sqlite::ErrorCode;
use std::alloc::{AllocError, AllocFailed};
use thiserror::Error;

/// Why the database gives no image, or takes no change.
#[derive(Clone, Copy, Debug, PartialEq, Eq, Error)]
pub enum DatabaseFault {
    /// It refused a statement, or could not carry it out.
    #[error("the database refused a statement")]
    Refused,
    /// Rows that no image has, or an image that no rows can have.
    #[error("the rows are those of no image")]
    NoImage,
    #[error("out of memory")]
    Memory,
}

impl DatabaseFault {
    ghost use Rattle.od_database.specs.Faults.{keeper_fault};

    /// What a caller of the keeper learns of it.
    pub fn told(self) -> KeeperFault
        ensures { result ≡ keeper_fault self }
    {
        match self {
            DatabaseFault::Refused | DatabaseFault::NoImage => KeeperFault::Failed,
            DatabaseFault::Memory => KeeperFault::Memory,
        }
    }
}

impl From<sqlite::Error> for DatabaseFault {
    fn from(error: sqlite::Error) -> DatabaseFault {
        match error {
            sqlite::Error::SqliteFailure(ErrorCode::OutOfMemory) => DatabaseFault::Memory,
            _ => DatabaseFault::Refused,
        }
    }
}

impl From<AllocError> for DatabaseFault {
    ghost use Rattle.od_database.specs.declared.fault.DatabaseFault.TheVariants.{Memory};

    ghost from_gives = { λ _ fault. fault ≡ Memory };

    fn from(_error: AllocError) -> DatabaseFault {
        DatabaseFault::Memory
    }
}

impl<T: Drop> From<AllocFailed<T>> for DatabaseFault {
    ghost use Rattle.od_database.specs.declared.fault.DatabaseFault.TheVariants.{Memory};

    ghost from_gives = { λ _ fault. fault ≡ Memory };

    fn from(_error: AllocFailed<T>) -> DatabaseFault {
        DatabaseFault::Memory
    }
}

impl From<NoMemory> for DatabaseFault {
    ghost use Rattle.od_database.specs.declared.fault.DatabaseFault.TheVariants.{Memory};

    ghost from_gives = { λ _ fault. fault ≡ Memory };

    fn from(_error: NoMemory) -> DatabaseFault {
        DatabaseFault::Memory
    }
}
