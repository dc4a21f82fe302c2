//! Where the messages of HTTP/1.1 (RFC 9112) begin and end in a stream, however it is cut.
#![tactic(auto)]

mod end;
mod frame;
mod framing;
mod head;
mod laws;
mod message;
mod replies;
mod requests;
mod spot;
mod step;
mod stream;
mod target;

pub use end::{ReplyEnd, reply_end};
pub use frame::{Field, ReplyFrame, RequestFrame};
pub use framing::{MAX_BODY, number};
pub use head::{MAX_HEAD, MAX_HEADERS};
pub use laws::{
    bad_for_good, no_prefix, one_reading, one_reply, one_request, replies_cut_anywhere,
    requests_cut_anywhere, whole_reply_done, whole_request_done,
};
pub use message::{Kind, MessageCause};
pub use replies::ReplyFrames;
pub use requests::RequestFrames;
pub use step::{ReadState, ReadStep};
