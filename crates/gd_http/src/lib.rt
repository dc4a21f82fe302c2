//! Requests and replies of a drive as messages of HTTP/1.1 (RFC 9110, RFC 9112), both ways.
#![tactic(auto)]

mod answer;
mod body;
mod closing;
mod fault;
mod header;
mod incoming;
mod known;
mod laws;
mod method;
mod range;
mod reader;
mod replies;
mod reply;
mod request;
mod telling;
mod word;
mod writing;

pub use fault::ReplyFault;
pub use gd_frame::{MAX_BODY, MAX_HEAD, MAX_HEADERS, MessageCause, ReadStep, ReplyEnd, reply_end};
pub use incoming::Incoming;
pub use laws::{
    one_cause, one_hearing_of_replies, one_hearing_of_requests, one_reply, one_request,
    replies_cut_anywhere, requests_cut_anywhere, streams_go_on, whole_reply_done,
    whole_request_done,
};
pub use range::Range;
pub use reader::RequestReader;
pub use replies::{Ending, ReplyReader};
pub use reply::reply_from;
pub use request::incoming_from;
pub use telling::{write_content_head, write_reply};
pub use writing::write_request;
