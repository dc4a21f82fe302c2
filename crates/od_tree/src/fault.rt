ghost use Rattle.std.specs.Prelude.{◌≡◌};

use gd_names::{Exact, NoMemory};
use std::alloc::{AllocError, AllocFailed};
use thiserror::Error;

/// Why a call on the folder is refused.
#[derive(Clone, Copy, Debug, PartialEq, Eq, Error)]
pub enum TreeFault {
    #[error("an entry is there already")]
    Taken,
    #[error("no such entry")]
    Missing,
    #[error("the folder is not empty")]
    NotEmpty,
    #[error("the folder cannot be reached")]
    Failed,
    #[error("out of memory")]
    Memory,
}

impl Exact for TreeFault {
    ghost use Rattle.std.proofs.Common.{rules};

    ghost exact = { Prim.search rules };
}

impl From<NoMemory> for TreeFault {
    ghost use Rattle.od_tree.specs.declared.fault.TreeFault.TheVariants.{Memory};

    ghost from_gives = { λ _ fault. fault ≡ Memory };

    fn from(_error: NoMemory) -> TreeFault {
        TreeFault::Memory
    }
}

impl From<AllocError> for TreeFault {
    ghost use Rattle.od_tree.specs.declared.fault.TreeFault.TheVariants.{Memory};

    ghost from_gives = { λ _ fault. fault ≡ Memory };

    fn from(_error: AllocError) -> TreeFault {
        TreeFault::Memory
    }
}

impl<T: Drop> From<AllocFailed<T>> for TreeFault {
    ghost use Rattle.od_tree.specs.declared.fault.TreeFault.TheVariants.{Memory};

    ghost from_gives = { λ _ fault. fault ≡ Memory };

    fn from(_error: AllocFailed<T>) -> TreeFault {
        TreeFault::Memory
    }
}
