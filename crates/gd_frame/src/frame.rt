ghost use Rattle.std.specs.Prelude.{◌≡◌, ◌≤◌, ◌<◌, ◌-◌, ℕ, All, map, length, drop, IfOk};
ghost use Rattle.httparse.specs.Spans.{IsHeaderWithin, header_bytes};
ghost use Rattle.gd_frame.specs.Syntax.{requests, replies};
ghost use Rattle.gd_frame.specs.Scanning.{IsFramed};
ghost use Rattle.gd_frame.specs.Frames.{field, IsRequest, IsReply};

use crate::head::MAX_HEADERS;
use gd_names::{Bytes, List, NoMemory};
use httparse::Status;
use httparse::spans::{EMPTY_HEADER_SPAN, HeaderSpan, parse_request, parse_response};
use std::alloc::Global;

/// A header: its name as it came, and its value without the blanks around it.
#[derive(Debug, PartialEq, Eq, Drop)]
pub struct Field {
    pub name: Bytes,
    pub value: Bytes,
}

/// The parts of a request.
#[derive(Debug, PartialEq, Eq, Drop)]
pub struct RequestFrame {
    pub method: Bytes,
    pub target: Bytes,
    /// The minor version of HTTP/1.
    pub minor: u8,
    pub fields: List<Field>,
    pub body: Bytes,
}

/// The parts of a reply. Its phrase is ignored.
#[derive(Debug, PartialEq, Eq, Drop)]
pub struct ReplyFrame {
    pub status: u16,
    pub fields: List<Field>,
    pub body: Bytes,
}

fn field_of(alloc: Global, bytes: &[u8], header: &HeaderSpan) -> Result<Field, NoMemory>
    requires { IsHeaderWithin (length bytes.now) header.now }
    ensures { IfOk result (λ f. f ≡ field (header_bytes bytes.now header.now)) }
{
    Ok(Field {
        name: Bytes::from_slice(alloc, header.name.of(bytes))?,
        value: Bytes::from_slice(alloc, header.value.of(bytes))?,
    })
}

fn fields_of(alloc: Global, bytes: &[u8], headers: &[HeaderSpan]) -> Result<List<Field>, NoMemory>
    requires { All (IsHeaderWithin (length bytes.now)) headers.now }
    ensures { IfOk result (λ fs. fs ≡ map field (map (header_bytes bytes.now) headers.now)) }
{
    let mut fields = List::new(alloc);
    for header in headers {
        fields.push(field_of(alloc, bytes, header)?)?;
    }
    Ok(fields)
}

/// The bytes from there on, in the memory of all.
fn without_front(mut bytes: Vec<u8>, end: usize) -> Vec<u8>
    requires { end ≤ length bytes.items }
    ensures { result.items ≡ drop end bytes.items }
{
    let rest = bytes.as_slice().len() - end;
    bytes.copy_within(end.., 0);
    bytes.truncate(rest);
    bytes
}

/// The parts of a whole request whose head ends there. The body keeps the memory in which it came.
pub(crate) fn request_of(
    alloc: Global,
    whole: Vec<u8>,
    end: usize,
) -> Result<RequestFrame, NoMemory>
    requires framed { IsFramed requests whole.items end (length whole.items - end) }
    requires within { end ≤ length whole.items }
    ensures { IfOk result (IsRequest whole.items) }
{
    let bytes = whole.as_slice();
    let mut headers = [EMPTY_HEADER_SPAN; MAX_HEADERS];
    match parse_request(bytes, &mut headers) {
        Ok(Status::Complete(head)) => {
            let method = Bytes::from_slice(alloc, head.method.of(bytes))?;
            let target = Bytes::from_slice(alloc, head.path.of(bytes))?;
            let fields = fields_of(alloc, bytes, &headers[..head.headers])?;
            Ok(RequestFrame {
                method,
                target,
                minor: head.version,
                fields,
                body: Bytes::from_vec(without_front(whole, end)),
            })
        }
        Ok(Status::Partial) | Err(_) => unreachable!(),
    }
}

/// The same of a reply.
pub(crate) fn reply_of(alloc: Global, whole: Vec<u8>, end: usize) -> Result<ReplyFrame, NoMemory>
    requires framed { IsFramed replies whole.items end (length whole.items - end) }
    requires within { end ≤ length whole.items }
    ensures { IfOk result (IsReply whole.items) }
{
    let bytes = whole.as_slice();
    let mut headers = [EMPTY_HEADER_SPAN; MAX_HEADERS];
    match parse_response(bytes, &mut headers) {
        Ok(Status::Complete(head)) => {
            let fields = fields_of(alloc, bytes, &headers[..head.headers])?;
            Ok(ReplyFrame {
                status: head.code,
                fields,
                body: Bytes::from_vec(without_front(whole, end)),
            })
        }
        Ok(Status::Partial) | Err(_) => unreachable!(),
    }
}
