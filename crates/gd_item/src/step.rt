ghost use Rattle.std.specs.Prelude.{◌≡◌};

use crate::request::Request;
use gd_names::Exact;
use std::alloc::AllocError;

/// Whose request it is: that of the client that is looked at, or of another one.
#[derive(Clone, Copy, Debug, PartialEq, Eq)]
pub enum Who {
    Own,
    Other,
}

impl Exact for Who {
    ghost use Rattle.std.proofs.Common.{rules};

    ghost exact = { Prim.search rules };
}

/// What happens to a drive without a request.
#[derive(Clone, Copy, Debug, PartialEq, Eq)]
pub enum DriveEvent {
    /// Tokens that were given out below this change number are no longer served.
    Expire(u64),
    /// The drive is restored from elsewhere: no token of before is served.
    Restore,
    /// The upload session ends.
    EndSession(u64),
    /// From now on replies give neither digests nor content tags.
    Plain,
}

impl Exact for DriveEvent {
    ghost use Rattle.std.proofs.Common.{rules};

    ghost exact = { Prim.search rules };
}

/// One step of a drive's log.
#[derive(Debug, PartialEq, Eq, Drop)]
pub enum Step {
    Ask {
        who: Who,
        request: Request,
        /// False where the answer was that memory was wanting.
        served: bool,
        /// False where the reply did not come back.
        heard: bool,
    },
    Event(DriveEvent),
}

impl Clone for Step {
    ghost is_clone = { λ a b. b ≡ a };

    fn clone(&self) -> Result<Step, AllocError> {
        match self {
            Step::Ask {
                who,
                request,
                served,
                heard,
            } => {
                let request = request.clone()?;
                Ok(Step::Ask {
                    who: *who,
                    request,
                    served: *served,
                    heard: *heard,
                })
            }
            Step::Event(event) => Ok(Step::Event(*event)),
        }
    }
}

impl Exact for Step {
    ghost exact = { λ x y h. h };
}
