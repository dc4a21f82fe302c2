ghost use Rattle.std.specs.Prelude.{◌≡◌};

use gd_names::NoMemory;
use std::alloc::AllocError;

/// Why a text is no line of a script.
#[derive(Clone, Copy, Debug, PartialEq, Eq)]
pub enum LineFault {
    Bad,
    Memory,
}

impl From<NoMemory> for LineFault {
    ghost use Rattle.od_cli.specs.declared.fault.LineFault.TheVariants.{Memory};

    ghost from_gives = { λ _ fault. fault ≡ Memory };

    fn from(_error: NoMemory) -> LineFault {
        LineFault::Memory
    }
}

impl From<AllocError> for LineFault {
    ghost use Rattle.od_cli.specs.declared.fault.LineFault.TheVariants.{Memory};

    ghost from_gives = { λ _ fault. fault ≡ Memory };

    fn from(_error: AllocError) -> LineFault {
        LineFault::Memory
    }
}
