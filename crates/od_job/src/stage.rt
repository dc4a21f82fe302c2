use crate::job::Outcome;
use gd_item::{ErrorCode, ItemId};

/// How a job ends whose session is cancelled.
#[derive(Clone, Copy, Debug, PartialEq, Eq)]
pub enum Why {
    Refused(ErrorCode),
    Lost,
    /// With the byte at which the answer did not fit.
    Odd(u64),
}

/// Where a job stands: what it asks next.
#[derive(Clone, Copy, Debug, PartialEq, Eq)]
pub enum Stage {
    /// Where the bytes of its item are to be had.
    AskContent,
    /// The bytes of the version that was named.
    AskDownload { id: ItemId, version: u64 },
    /// To put the whole file.
    Putting,
    /// To open a session.
    Opening,
    /// To take the fragment that begins at byte `sent`. The bytes before it have come.
    Opened { session: u64, sent: u64 },
    /// How far the session has come: the fragment that begins at byte `sent` had no reply.
    AskStatus { session: u64, sent: u64 },
    /// To make the file. All bytes have come.
    Finishing { session: u64 },
    /// How far the session has come: making the file had no reply.
    AskTotal { session: u64 },
    /// To end the session, whatever the answer is.
    Cancelling { session: u64, why: Why },
    /// Nothing more.
    Ended,
}

/// What an answer leads to.
#[derive(Debug, PartialEq, Eq, Drop)]
pub enum Turn {
    To(Stage),
    End(Outcome),
}
