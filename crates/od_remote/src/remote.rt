ghost use Rattle.std.specs.Prelude.{◌≡◌, List, Option};

use gd_item::{Reply, Request};
use gd_names::Bytes;
use std::alloc::Global;
use thiserror::Error;

/// Why a request has no reply.
#[derive(Debug, PartialEq, Eq, Drop, Error)]
pub enum AskFault {
    #[error("no reply came")]
    Failed,
    /// The bytes that came.
    #[error("what came is no reply")]
    Bad(Bytes),
    #[error("out of memory")]
    Memory,
}

/// A drive, as a client sees it.
pub trait Remote {
    ghost use Rattle.gd_item.specs.declared.step.Step.{Step};
    ghost use Rattle.od_remote.specs.Asking.{Asks};
    ghost use Rattle.od_remote.specs.Counting.{AreSame, AskCounts, HasAskCause, Later, Reading};

    /// What the drive was asked and what befell it, where it is told.
    ghost log: { Self → Option (List Step) };

    /// How often no reply came and one came, and what was exchanged, where that is told.
    ghost counts: { Self → AskCounts };

    /// Which bytes are read as a reply to a request of a kind. Where replies come as values, any bytes may stand for them.
    ghost reads: { Self → Reading };

    /// That one goes on to the other by calls. What more that means is the instance's.
    ghost goes: { Self → Self → Type 0 };

    /// Sends one request. After want of memory it may have come to the drive, and its reply may have been lost here.
    fn ask(&mut self, alloc: Global, request: &Request) -> Result<Reply, AskFault>
        ensures log { Asks request.now result (log self.old) (log self.new) }
        ensures cause { HasAskCause (reads self.old) request.now result (counts self.old) (counts self.new) }
        ensures goes { goes self.old self.new };

    ghost goes_refl: { (x : Self) → goes x x };

    ghost goes_trans: { (x y z : Self) → goes x y → goes y z → goes x z };

    ghost goes_later: { (x y : Self) → goes x y → Later (counts x) (counts y) };

    ghost goes_reads: { (x y : Self) → goes x y → AreSame (reads x) (reads y) };
}
