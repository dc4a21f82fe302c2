ghost use Rattle.std.specs.Prelude.{◌≡◌};

use gd_names::NoMemory;
use std::alloc::{AllocError, AllocFailed};
use thiserror::Error;

/// Why the folder could not be looked at.
#[derive(Clone, Copy, Debug, PartialEq, Eq, Error)]
pub enum ScanStop {
    #[error("the folder cannot be reached")]
    Failed,
    #[error("out of memory")]
    Memory,
}

impl From<NoMemory> for ScanStop {
    ghost use Rattle.od_scan.specs.declared.stop.ScanStop.TheVariants.{Memory};

    ghost from_gives = { λ _ stop. stop ≡ Memory };

    fn from(_error: NoMemory) -> ScanStop {
        ScanStop::Memory
    }
}

impl From<AllocError> for ScanStop {
    ghost use Rattle.od_scan.specs.declared.stop.ScanStop.TheVariants.{Memory};

    ghost from_gives = { λ _ stop. stop ≡ Memory };

    fn from(_error: AllocError) -> ScanStop {
        ScanStop::Memory
    }
}

impl<T: Drop> From<AllocFailed<T>> for ScanStop {
    ghost use Rattle.od_scan.specs.declared.stop.ScanStop.TheVariants.{Memory};

    ghost from_gives = { λ _ stop. stop ≡ Memory };

    fn from(_error: AllocFailed<T>) -> ScanStop {
        ScanStop::Memory
    }
}
