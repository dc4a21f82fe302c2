ghost use Rattle.std.specs.Prelude.{◌≡◌, ◌≤◌, ◌<◌, ℕ, All, Ok, map, length, take, IfOk, Result};
ghost use Rattle.httparse.specs.Grammar.{NeverHasRequest};
ghost use Rattle.httparse.specs.Spans.{IsHeaderWithin, header_bytes, RequestOverflows, ResponseOverflows};
ghost use Rattle.gd_frame.specs.Framing.{reply_without_length, IsAnnounced};
ghost use Rattle.gd_frame.specs.Syntax.{requests, replies, syntax_of, HasNoHead, MayBecomeHead};
ghost use Rattle.gd_frame.specs.Scanning.{HasHead, Scans};

use crate::framing::framing;
use crate::message::{Kind, MessageCause};
use crate::target::ends_in_target;
use httparse::spans::{EMPTY_HEADER_SPAN, HeaderSpan, parse_request, parse_response};
use httparse::{Error, Status};

/// The most bytes of a head.
pub const MAX_HEAD: usize = 65_536;

/// The most headers of a head.
pub const MAX_HEADERS: usize = 64;

/// Room for the headers of any head below the most bytes, since each has three bytes.
const ROOM: usize = 21_846;

/// What stands at the front of bytes.
#[derive(Clone, Copy, Debug)]
pub(crate) enum HeadScan {
    /// A head that is not whole yet.
    Open,
    /// A head of so many bytes, which announces a body of so many.
    Framed(usize, usize),
    /// No message, whatever follows.
    Bad(MessageCause),
}

/// A whole head: within the limits it announces a body, or has a cause.
fn whole(
    kind: Kind,
    absent: Result<u64, MessageCause>,
    bytes: &[u8],
    end: usize,
    headers: &[HeaderSpan],
) -> HeadScan
    requires within { All (IsHeaderWithin (length bytes.now)) headers.now }
    requires head { HasHead (syntax_of kind) bytes.now end absent (map (header_bytes bytes.now) headers.now) }
    requires few { length headers.now ≤ 64 }
    requires absent { IsAnnounced absent }
    ensures { Scans (syntax_of kind) bytes.now result }
{
    if end > MAX_HEAD {
        return HeadScan::Bad(MessageCause::Head);
    }
    match framing(absent, bytes, headers) {
        Ok(body) => HeadScan::Framed(end, body as usize),
        Err(cause) => HeadScan::Bad(cause),
    }
}

/// A head that is not whole: it may go on below the limit.
fn open(kind: Kind, bytes: &[u8]) -> HeadScan
    requires none { HasNoHead (syntax_of kind) bytes.now }
    requires may { MayBecomeHead (syntax_of kind) bytes.now }
    ensures { Scans (syntax_of kind) bytes.now result }
{
    if bytes.len() < MAX_HEAD {
        HeadScan::Open
    } else {
        HeadScan::Bad(MessageCause::Head)
    }
}

/// No head, whatever follows; of a target this is told behind its end.
fn never_request(bytes: &[u8]) -> HeadScan
    requires { NeverHasRequest bytes.now }
    ensures { Scans requests bytes.now result }
{
    if ends_in_target(bytes) {
        open(Kind::Request, bytes)
    } else {
        HeadScan::Bad(MessageCause::Head)
    }
}

/// A head of more headers than are allowed: it is refused once it is whole.
#[cold]
fn many_in_request(bytes: &[u8]) -> HeadScan
    requires { RequestOverflows 64 bytes.now }
    ensures { Scans requests bytes.now result }
{
    if bytes.len() >= MAX_HEAD {
        return HeadScan::Bad(MessageCause::Head);
    }
    let mut headers = [EMPTY_HEADER_SPAN; ROOM];
    match parse_request(bytes, &mut headers) {
        Ok(Status::Partial) => HeadScan::Open,
        Ok(Status::Complete(_)) => HeadScan::Bad(MessageCause::Head),
        Err(Error::TooManyHeaders) => unreachable!(),
        Err(_) => never_request(bytes),
    }
}

fn scan_request(bytes: &[u8]) -> HeadScan
    ensures { Scans requests bytes.now result }
{
    let mut headers = [EMPTY_HEADER_SPAN; MAX_HEADERS];
    match parse_request(bytes, &mut headers) {
        Ok(Status::Complete(head)) => whole(
            Kind::Request,
            Ok(0),
            bytes,
            head.len,
            &headers[..head.headers],
        ),
        Ok(Status::Partial) => open(Kind::Request, bytes),
        Err(Error::TooManyHeaders) => many_in_request(bytes),
        Err(_) => never_request(bytes),
    }
}

/// The same of a reply.
#[cold]
fn many_in_reply(bytes: &[u8]) -> HeadScan
    requires { ResponseOverflows 64 bytes.now }
    ensures { Scans replies bytes.now result }
{
    if bytes.len() >= MAX_HEAD {
        return HeadScan::Bad(MessageCause::Head);
    }
    let mut headers = [EMPTY_HEADER_SPAN; ROOM];
    match parse_response(bytes, &mut headers) {
        Ok(Status::Partial) => HeadScan::Open,
        Ok(Status::Complete(_)) => HeadScan::Bad(MessageCause::Head),
        Err(Error::TooManyHeaders) => unreachable!(),
        Err(_) => HeadScan::Bad(MessageCause::Head),
    }
}

/// What a reply without `Content-Length` has for a body.
fn without_length(status: u16) -> Result<u64, MessageCause>
    ensures is { result ≡ reply_without_length status }
    ensures announced { IsAnnounced result }
{
    if status == 204 {
        Ok(0)
    } else {
        Err(MessageCause::Framing)
    }
}

fn scan_reply(bytes: &[u8]) -> HeadScan
    ensures { Scans replies bytes.now result }
{
    let mut headers = [EMPTY_HEADER_SPAN; MAX_HEADERS];
    match parse_response(bytes, &mut headers) {
        Ok(Status::Complete(head)) => whole(
            Kind::Reply,
            without_length(head.code),
            bytes,
            head.len,
            &headers[..head.headers],
        ),
        Ok(Status::Partial) => open(Kind::Reply, bytes),
        Err(Error::TooManyHeaders) => many_in_reply(bytes),
        Err(_) => HeadScan::Bad(MessageCause::Head),
    }
}

/// The head at the front of bytes.
pub(crate) fn scan(kind: Kind, bytes: &[u8]) -> HeadScan
    ensures { Scans (syntax_of kind) bytes.now result }
{
    match kind {
        Kind::Request => scan_request(bytes),
        Kind::Reply => scan_reply(bytes),
    }
}
