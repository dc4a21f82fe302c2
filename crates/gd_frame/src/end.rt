ghost use Rattle.gd_frame.specs.Ends.{EndsAt};

use crate::head::{HeadScan, scan};
use crate::message::Kind;

/// Where the first reply of bytes ends.
#[derive(Clone, Copy, Debug, PartialEq, Eq)]
pub enum ReplyEnd {
    /// It is not whole yet.
    Need,
    /// The first bytes, so many, are one whole reply.
    Whole(usize),
    /// None is one, whatever follows.
    Bad,
}

/// Where the first reply of bytes ends.
pub fn reply_end(bytes: &[u8]) -> ReplyEnd
    ensures { EndsAt bytes.now result }
{
    match scan(Kind::Reply, bytes) {
        HeadScan::Open => ReplyEnd::Need,
        HeadScan::Bad(_) => ReplyEnd::Bad,
        HeadScan::Framed(end, body) => {
            if bytes.len() - end < body {
                ReplyEnd::Need
            } else {
                ReplyEnd::Whole(end + body)
            }
        }
    }
}
