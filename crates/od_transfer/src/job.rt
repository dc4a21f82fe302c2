use gd_item::{Digest, ErrorCode, ItemId};
use gd_names::{Bytes, Exact};

/// The transfer of one file.
#[derive(Clone, Debug, PartialEq, Eq, Drop)]
pub enum Job {
    /// From the drive, if its bytes have this digest.
    Fetch {
        id: ItemId,
        digest: Digest,
        size: u64,
    },
}

impl Exact for Job {
    ghost use Rattle.std.proofs.Common.{rules};

    ghost exact = { Prim.search rules };
}

/// What came of a job.
#[derive(Debug, PartialEq, Eq, Drop)]
pub enum Outcome {
    Fetched(Bytes),
    /// The bytes have another digest.
    Changed,
    /// The drive refused a request of the job.
    Refused(ErrorCode),
    /// Three sends of a request had no reply.
    Lost,
}
