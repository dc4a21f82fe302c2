//! Writing replies.
ghost use Rattle.std.specs.Prelude.{◌≡◌, ◌++◌, ℕ, List, None, Some, codes, length, IfOk, OnOk};
ghost use Rattle.std.specs.Fmt.{decimal};
ghost use Rattle.gd_item.specs.Replies.{status_of_reply};
ghost use Rattle.gd_target.specs.Targets.{download_text, delta_text};
ghost use Rattle.gd_http.specs.Written.{line_end, length_text, or_bytes};
ghost use Rattle.gd_http.specs.HearingReplies.{Listening, ReplyBytes};
ghost use Rattle.gd_http.specs.Sending.{IsAnswer, HasReplyBody};
ghost use Rattle.gd_http.specs.WrittenReplies.{phrase_of, version_text, status_text, link_field, location_header, code_of, json_of, bytes_type, type_header, bytes_of, length_header, reply_front, reply_rest, written_reply};

use crate::answer::feed_link;
use crate::known::known_reply;
use crate::writing::{or_bytes, put_body, put_field, put_length, put_type};
use gd_item::{ErrorCode, ItemId, Reply, Resync};
use gd_json::{
    ChildList, SessionBody, Wire, write_children, write_error, write_item, write_page,
    write_session,
};
use gd_names::{Bytes, NoMemory};
use gd_target::{put_both, put_download};
use std::alloc::Global;

#[tactic(auto, unfolding(crate::specs::WrittenReplies::phrase_of))]
fn phrase_of(status: u16) -> &'static [u8]
    ensures { result.now ≡ phrase_of status }
{
    match status {
        200 => b"OK",
        201 => b"Created",
        202 => b"Accepted",
        204 => b"No Content",
        302 => b"Found",
        400 => b"Bad Request",
        404 => b"Not Found",
        405 => b"Method Not Allowed",
        409 => b"Conflict",
        410 => b"Gone",
        412 => b"Precondition Failed",
        413 => b"Payload Too Large",
        416 => b"Range Not Satisfiable",
        424 => b"Failed Dependency",
        501 => b"Not Implemented",
        503 => b"Service Unavailable",
        507 => b"Insufficient Storage",
        _ => b"",
    }
}

#[tactic(auto, unfolding(crate::specs::WrittenReplies::version_text))]
fn put_version(out: &mut Bytes) -> Result<(), NoMemory>
    ensures { OnOk result (out.new ≡ out.old ++ version_text) }
{
    out.push_slice(b"HTTP/1.1 ")
}

fn put_number(alloc: Global, out: &mut Bytes, number: u16) -> Result<(), NoMemory>
    ensures { OnOk result (out.new ≡ out.old ++ decimal number) }
{
    let digits = format!(in alloc; "{number}")?;
    out.push_slice(digits.as_bytes())
}

fn put_phrase(out: &mut Bytes, status: u16) -> Result<(), NoMemory>
    ensures { OnOk result (out.new ≡ out.old ++ ((codes " " ++ phrase_of status) ++ line_end)) }
{
    put_both(out, b" ", phrase_of(status))?;
    out.push_slice(b"\r\n")?;
    Ok(())
}

#[tactic(auto, unfolding(crate::specs::WrittenReplies::status_text))]
fn put_status(alloc: Global, out: &mut Bytes, status: u16) -> Result<(), NoMemory>
    ensures { OnOk result (out.new ≡ out.old ++ status_text status) }
{
    put_version(out)?;
    put_number(alloc, out, status)?;
    put_phrase(out, status)?;
    Ok(())
}

/// The status with which a reply is sent.
fn status_of(reply: &Reply) -> u16
    ensures { result ≡ status_of_reply reply.now }
{
    match reply {
        Reply::Made(_) => 201,
        Reply::Is(_)
        | Reply::Listed { .. }
        | Reply::Content(_)
        | Reply::Session { .. }
        | Reply::Status { .. }
        | Reply::Page(_) => 200,
        Reply::Done => 204,
        Reply::Found { .. } => 302,
        Reply::More { .. } => 202,
        Reply::Gone(_) => 410,
        Reply::Refused { status, .. } => *status,
    }
}

fn download_link(alloc: Global, wire: &Wire, id: ItemId, version: u64) -> Result<Bytes, NoMemory>
    ensures { IfOk result (λ b. b ≡ wire.now.base ++ download_text id version) }
{
    let mut link = Bytes::from_slice(alloc, wire.base.as_bytes())?;
    put_download(alloc, &mut link, id, version)?;
    Ok(link)
}

#[tactic(auto, unfolding(crate::specs::WrittenReplies::link_field))]
fn put_found(
    alloc: Global,
    out: &mut Bytes,
    wire: &Wire,
    id: ItemId,
    version: u64,
) -> Result<(), NoMemory>
    ensures { OnOk result (out.new ≡ out.old ++ link_field wire.now.base (download_text id version)) }
{
    let link = download_link(alloc, wire, id, version)?;
    put_field(out, b"Location", link.as_slice())
}

#[tactic(auto, unfolding(crate::specs::WrittenReplies::link_field))]
fn put_feed(alloc: Global, out: &mut Bytes, wire: &Wire) -> Result<(), NoMemory>
    ensures { OnOk result (out.new ≡ out.old ++ link_field wire.now.base (delta_text None)) }
{
    let link = feed_link(alloc, wire)?;
    put_field(out, b"Location", link.as_slice())
}

fn put_location(alloc: Global, out: &mut Bytes, reply: &Reply, wire: &Wire) -> Result<(), NoMemory>
    ensures { OnOk result (out.new ≡ out.old ++ location_header wire.now.base reply.now) }
{
    match reply {
        Reply::Found { id, version } => put_found(alloc, out, wire, *id, *version),
        Reply::Gone(_) => put_feed(alloc, out, wire),
        _ => Ok(()),
    }
}

fn code_of(resync: Resync) -> ErrorCode
    ensures { result ≡ code_of resync }
{
    match resync {
        Resync::ApplyDifferences => ErrorCode::ResyncChangesApplyDifferences,
        Resync::UploadDifferences => ErrorCode::ResyncChangesUploadDifferences,
    }
}

/// The body in JSON, of the replies that have one.
fn json_of(alloc: Global, reply: &Reply, wire: &Wire) -> Result<Option<Bytes>, NoMemory>
    ensures is { IfOk result (λ json. json ≡ json_of wire.now.base reply.now) }
    ensures read_again { OnOk result (HasReplyBody wire.now.base reply.now) }
{
    match reply {
        Reply::Made(item) | Reply::Is(item) => {
            let json = write_item(alloc, item)?;
            Ok(Some(json))
        }
        Reply::Listed { items, next } => {
            let list = ChildList {
                items: items.clone()?,
                next: next.clone()?,
            };
            let json = write_children(alloc, &list, wire)?;
            Ok(Some(json))
        }
        Reply::Session { session, expected } => {
            let body = SessionBody {
                session: Some(*session),
                expected: *expected,
            };
            let json = write_session(alloc, &body, wire)?;
            Ok(Some(json))
        }
        Reply::Status { expected } | Reply::More { expected } => {
            let body = SessionBody {
                session: None,
                expected: *expected,
            };
            let json = write_session(alloc, &body, wire)?;
            Ok(Some(json))
        }
        Reply::Page(page) => {
            let json = write_page(alloc, page, wire)?;
            Ok(Some(json))
        }
        Reply::Gone(resync) => {
            let json = write_error(alloc, &code_of(*resync))?;
            Ok(Some(json))
        }
        Reply::Refused { code, .. } => {
            let json = write_error(alloc, code)?;
            Ok(Some(json))
        }
        Reply::Done | Reply::Found { .. } | Reply::Content(_) => Ok(None),
    }
}

fn bytes_of(reply: &Reply) -> &[u8]
    ensures { result.now ≡ bytes_of reply.now }
{
    match reply {
        Reply::Content(bytes) => bytes.as_slice(),
        _ => &[],
    }
}

#[tactic(auto, unfolding(crate::specs::WrittenReplies::bytes_type))]
fn put_bytes_type(out: &mut Bytes) -> Result<(), NoMemory>
    ensures { OnOk result (out.new ≡ out.old ++ bytes_type) }
{
    put_field(out, b"Content-Type", b"application/octet-stream")
}

fn put_content_type(out: &mut Bytes, reply: &Reply, json: &Option<Bytes>) -> Result<(), NoMemory>
    ensures { OnOk result (out.new ≡ out.old ++ type_header reply.now json.now) }
{
    match reply {
        Reply::Content(_) => put_bytes_type(out),
        _ => put_type(out, json),
    }
}

fn put_reply_length(
    alloc: Global,
    out: &mut Bytes,
    reply: &Reply,
    length: usize,
) -> Result<(), NoMemory>
    ensures { OnOk result (out.new ≡ out.old ++ length_header reply.now length) }
{
    match reply {
        Reply::Done => Ok(()),
        _ => put_length(alloc, out, length),
    }
}

fn put_front(alloc: Global, out: &mut Bytes, reply: &Reply, wire: &Wire) -> Result<(), NoMemory>
    ensures { OnOk result (out.new ≡ out.old ++ reply_front wire.now.base reply.now) }
{
    put_status(alloc, out, status_of(reply))?;
    put_location(alloc, out, reply, wire)?;
    Ok(())
}

fn put_rest(
    alloc: Global,
    out: &mut Bytes,
    reply: &Reply,
    json: &Option<Bytes>,
    body: &[u8],
) -> Result<(), NoMemory>
    ensures { OnOk result (out.new ≡ out.old ++ reply_rest reply.now json.now body.now) }
{
    put_content_type(out, reply, json)?;
    put_reply_length(alloc, out, reply, body.len())?;
    put_body(out, body)?;
    Ok(())
}

#[tactic(auto, unfolding(crate::specs::WrittenReplies::written_reply))]
fn spelling(alloc: Global, reply: &Reply, wire: &Wire) -> Result<Bytes, NoMemory>
    ensures text { IfOk result (λ b. b ≡ written_reply wire.now.base reply.now) }
    ensures has { OnOk result (HasReplyBody wire.now.base reply.now) }
{
    let json = json_of(alloc, reply, wire)?;
    let mut out = Bytes::new(alloc);
    put_front(alloc, &mut out, reply, wire)?;
    put_rest(
        alloc,
        &mut out,
        reply,
        &json,
        or_bytes(&json, bytes_of(reply)),
    )?;
    Ok(out)
}

/// What stands before the bytes of a reply that gives so many.
fn content_head(alloc: Global, length: usize) -> Result<Bytes, NoMemory>
    ensures { IfOk result (λ head. head ≡ ((status_text 200 ++ bytes_type) ++ length_text length) ++ line_end) }
{
    let mut out = Bytes::new(alloc);
    put_status(alloc, &mut out, 200)?;
    put_bytes_type(&mut out)?;
    put_length(alloc, &mut out, length)?;
    out.push_slice(b"\r\n")?;
    Ok(out)
}

/// Writes the head of a reply that gives these bytes. Who sends them behind it need not copy them.
pub fn write_content_head(alloc: Global, bytes: &[u8]) -> Result<Bytes, NoMemory>
    ensures { IfOk result (λ head. (base : List ℕ) → written_reply base (Reply.Content bytes.now) ≡ head ++ bytes.now) }
{
    let head = content_head(alloc, bytes.len())?;
    Ok(head)
}

/// Writes a reply in its one spelling. Within the limits it is read again as what it was, by who asked for it.
pub fn write_reply(alloc: Global, reply: &Reply, wire: &Wire) -> Result<Bytes, NoMemory>
    ensures text { IfOk result (λ b. b ≡ written_reply wire.now.base reply.now) }
    ensures read_again { IfOk result (λ b. (l : Listening) → l.base ≡ wire.now.base → IsAnswer l.base l.kind reply.now → ReplyBytes l b reply.now) }
{
    known_reply(reply);
    let out = spelling(alloc, reply, wire)?;
    Ok(out)
}
