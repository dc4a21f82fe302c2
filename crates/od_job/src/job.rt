use gd_item::{Digest, ErrorCode, Item, ItemId, Reply, Tag};
use gd_names::{Bytes, Text};

/// Where a file is sent: over an item that still has this tag, or to a name in a folder that is free there.
#[derive(Debug, PartialEq, Eq, Drop)]
pub enum SendTo {
    Over(ItemId, Tag),
    Under(ItemId, Text),
}

/// The transfer of one file.
#[derive(Debug, PartialEq, Eq, Drop)]
pub enum Job {
    /// From the drive, if its bytes have this digest.
    Fetch {
        id: ItemId,
        digest: Digest,
        size: u64,
    },
    /// To the drive.
    Send {
        to: SendTo,
        bytes: Bytes,
    },
}

/// What came of a job.
#[derive(Debug, PartialEq, Eq, Drop)]
pub enum Outcome {
    Fetched(Bytes),
    /// The bytes have another digest.
    Changed,
    Accepted(Item),
    /// The drive refused a request of the job.
    Refused(ErrorCode),
    /// Replies did not come, and what became of the file on the drive is not known.
    Lost,
    /// An answer that does not fit its place came to what begins at this byte.
    Odd(u64),
    /// These bytes came, and they are no reply to what was asked.
    Bad(Bytes),
}

/// What came of a request.
#[derive(Debug, PartialEq, Eq, Drop)]
pub enum Answered {
    Got(Reply),
    Failed,
    /// Bytes that are no reply to the request.
    Bad(Bytes),
}
