use gd_names::NoMemory;
use std::alloc::{AllocError, AllocFailed};
use thiserror::Error;

/// Why a message is no request, in the order in which the causes count.
#[derive(Clone, Copy, Debug, PartialEq, Eq, Error)]
pub enum RequestFault {
    #[error("the target names nothing")]
    NotFound,
    #[error("the target has no such method")]
    NotAllowed,
    #[error("the query, a header or the body is not as it has to be")]
    Invalid,
    #[error("out of memory")]
    Memory,
}

impl From<NoMemory> for RequestFault {
    ghost use Rattle.std.specs.Prelude.{◌≡◌};
    ghost use Rattle.gd_target.specs.declared.fault.RequestFault.TheVariants.{Memory};

    ghost from_gives = { λ _ fault. fault ≡ Memory };

    fn from(_error: NoMemory) -> RequestFault {
        RequestFault::Memory
    }
}

impl From<AllocError> for RequestFault {
    ghost use Rattle.std.specs.Prelude.{◌≡◌};
    ghost use Rattle.gd_target.specs.declared.fault.RequestFault.TheVariants.{Memory};

    ghost from_gives = { λ _ fault. fault ≡ Memory };

    fn from(_error: AllocError) -> RequestFault {
        RequestFault::Memory
    }
}

impl<T: Drop> From<AllocFailed<T>> for RequestFault {
    ghost use Rattle.std.specs.Prelude.{◌≡◌};
    ghost use Rattle.gd_target.specs.declared.fault.RequestFault.TheVariants.{Memory};

    ghost from_gives = { λ _ fault. fault ≡ Memory };

    fn from(_error: AllocFailed<T>) -> RequestFault {
        RequestFault::Memory
    }
}
