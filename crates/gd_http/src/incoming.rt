use gd_item::{ErrorCode, ItemId, Request};
use gd_names::Bytes;

/// What a whole request is.
#[derive(Debug, PartialEq, Eq, Drop)]
pub enum Incoming {
    Ask(Request),
    /// A message that is no request of a drive.
    Refuse { status: u16, code: ErrorCode },
    /// The body of a batch of requests.
    Batch(Bytes),
    /// The versions of a file are asked for.
    Versions(ItemId),
    /// A version of a file is to be restored.
    Restore(ItemId, u64),
}
