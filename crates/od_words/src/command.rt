ghost use Rattle.std.specs.Prelude.{◌≡◌};

use gd_names::{NoMemory, Text};
use std::alloc::AllocError;
use thiserror::Error;

/// What the words of `odsync` ask for.
#[derive(Debug, PartialEq, Eq, Drop)]
pub enum Command {
    Sync(Words),
    /// The words of each sync, and how many syncs.
    Monitor(Words, u32),
    /// The name that conflict copies get, and for how many files a script is generated, if it is.
    Replay { host: Text, generate: Option<u32> },
}

/// What a sync is told by the words.
#[derive(Debug, PartialEq, Eq, Drop)]
pub struct Words {
    pub root: Text,
    pub hold: Text,
    pub db: Text,
    pub url: Text,
    pub host: Text,
    pub rules: Option<Text>,
    pub resync: bool,
    pub workers: u32,
}

/// Why words gave no command.
#[derive(Clone, Copy, Debug, PartialEq, Eq, Error)]
pub enum UsageFault {
    #[error("the words give no command")]
    Usage,
    #[error("out of memory")]
    Memory,
}

impl From<NoMemory> for UsageFault {
    ghost use Rattle.od_words.specs.declared.command.UsageFault.TheVariants.{Memory};

    ghost from_gives = { λ _ fault. fault ≡ Memory };

    fn from(_cause: NoMemory) -> UsageFault {
        UsageFault::Memory
    }
}

impl From<AllocError> for UsageFault {
    ghost use Rattle.od_words.specs.declared.command.UsageFault.TheVariants.{Memory};

    ghost from_gives = { λ _ fault. fault ≡ Memory };

    fn from(_cause: AllocError) -> UsageFault {
        UsageFault::Memory
    }
}
