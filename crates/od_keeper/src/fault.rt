ghost use Rattle.std.specs.Prelude.{◌≡◌};

use gd_names::NoMemory;
use std::alloc::AllocError;
use thiserror::Error;

/// Why a keeper does not answer.
#[derive(Clone, Copy, Debug, PartialEq, Eq, Error)]
pub enum KeeperFault {
    #[error("the kept image cannot be reached")]
    Failed,
    #[error("out of memory")]
    Memory,
}

impl From<NoMemory> for KeeperFault {
    ghost use Rattle.od_keeper.specs.declared.fault.KeeperFault.TheVariants.{Memory};

    ghost from_gives = { λ _ fault. fault ≡ Memory };

    fn from(_error: NoMemory) -> KeeperFault {
        KeeperFault::Memory
    }
}

impl From<AllocError> for KeeperFault {
    ghost use Rattle.od_keeper.specs.declared.fault.KeeperFault.TheVariants.{Memory};

    ghost from_gives = { λ _ fault. fault ≡ Memory };

    fn from(_error: AllocError) -> KeeperFault {
        KeeperFault::Memory
    }
}
