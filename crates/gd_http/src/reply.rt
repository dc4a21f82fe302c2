//! What whole replies say.
ghost use Rattle.std.specs.Prelude.{◌≡◌, option_map, option_and_then};
ghost use Rattle.gd_item.specs.Replies.{has_status};
ghost use Rattle.gd_http.specs.Answering.{Tells, item_in, expected_in, error_in, okay_of, opened, may_make, is_fragment, is_plain, is_content, is_delta, moved_of, resync_of, gone_of, refused_of, reply_of};

use crate::answer::{
    error_in, expected_in, found_in, is_feed, item_in, list_in, location_of, page_in, session_in,
};
use crate::fault::ReplyFault;
use gd_frame::{Field, ReplyFrame};
use gd_item::{ErrorCode, Reply, RequestKind, Resync};
use gd_json::{SessionBody, Wire};
use gd_names::{Bytes, List};
use std::alloc::Global;

/// A session has its number.
fn opened(body: SessionBody) -> Result<Reply, ReplyFault>
    ensures { Tells result (opened body.session body.expected) }
{
    match body.session {
        Some(session) => Ok(Reply::Session {
            session,
            expected: body.expected,
        }),
        None => Err(ReplyFault::Meaning),
    }
}

#[tactic(auto, unfolding(crate::specs::Answering::okay_of))]
fn okay_of(alloc: Global, wire: &Wire, kind: RequestKind, bytes: Bytes) -> Result<Reply, ReplyFault>
    ensures { Tells result (okay_of wire.now.base kind bytes) }
{
    match kind {
        RequestKind::Get
        | RequestKind::Put
        | RequestKind::Patch
        | RequestKind::Fragment
        | RequestKind::Finish => {
            let item = item_in(alloc, bytes.as_slice())?;
            Ok(Reply::Is(item))
        }
        RequestKind::Children => {
            let list = list_in(alloc, bytes.as_slice(), wire)?;
            Ok(Reply::Listed {
                items: list.items,
                next: list.next,
            })
        }
        RequestKind::Download => Ok(Reply::Content(bytes)),
        RequestKind::OpenSession => {
            let body = session_in(alloc, bytes.as_slice(), wire)?;
            opened(body)
        }
        RequestKind::SessionStatus => {
            let expected = expected_in(alloc, bytes.as_slice())?;
            Ok(Reply::Status { expected })
        }
        RequestKind::Delta => {
            let page = page_in(alloc, bytes.as_slice(), wire)?;
            Ok(Reply::Page(page))
        }
        RequestKind::MakeFolder
        | RequestKind::Delete
        | RequestKind::Content
        | RequestKind::CancelSession => Err(ReplyFault::Meaning),
    }
}

fn may_make(kind: RequestKind) -> bool
    ensures { result ≡ may_make kind }
{
    matches!(
        kind,
        RequestKind::MakeFolder | RequestKind::Put | RequestKind::Fragment | RequestKind::Finish
    )
}

fn is_fragment(kind: RequestKind) -> bool
    ensures { result ≡ is_fragment kind }
{
    matches!(kind, RequestKind::Fragment)
}

fn is_plain(kind: RequestKind) -> bool
    ensures { result ≡ is_plain kind }
{
    matches!(kind, RequestKind::Delete | RequestKind::CancelSession)
}

fn is_content(kind: RequestKind) -> bool
    ensures { result ≡ is_content kind }
{
    matches!(kind, RequestKind::Content)
}

fn is_delta(kind: RequestKind) -> bool
    ensures { result ≡ is_delta kind }
{
    matches!(kind, RequestKind::Delta)
}

fn made_of(alloc: Global, bytes: &Bytes) -> Result<Reply, ReplyFault>
    ensures { Tells result (option_map Reply.Made (item_in bytes.now)) }
{
    let item = item_in(alloc, bytes.as_slice())?;
    Ok(Reply::Made(item))
}

fn more_of(alloc: Global, bytes: &Bytes) -> Result<Reply, ReplyFault>
    ensures { Tells result (option_map Reply.More (expected_in bytes.now)) }
{
    let expected = expected_in(alloc, bytes.as_slice())?;
    Ok(Reply::More { expected })
}

#[tactic(auto, unfolding(crate::specs::Answering::moved_of))]
fn moved_of(wire: &Wire, fields: &List<Field>) -> Result<Reply, ReplyFault>
    ensures { Tells result (moved_of wire.now.base fields.now) }
{
    let link = location_of(fields)?;
    found_in(wire, link)
}

fn resync_of(code: ErrorCode) -> Result<Resync, ReplyFault>
    ensures { Tells result (resync_of code) }
{
    match code {
        ErrorCode::ResyncChangesApplyDifferences => Ok(Resync::ApplyDifferences),
        ErrorCode::ResyncChangesUploadDifferences => Ok(Resync::UploadDifferences),
        _ => Err(ReplyFault::Meaning),
    }
}

fn anew_of(alloc: Global, bytes: &Bytes) -> Result<Reply, ReplyFault>
    ensures { Tells result (option_map Reply.Gone (option_and_then resync_of (error_in bytes.now))) }
{
    let code = error_in(alloc, bytes.as_slice())?;
    let resync = resync_of(code)?;
    Ok(Reply::Gone(resync))
}

/// A token is gone: the link says where to begin anew, and the code how.
#[tactic(auto, unfolding(crate::specs::Answering::gone_of))]
fn gone_of(
    alloc: Global,
    wire: &Wire,
    fields: &List<Field>,
    bytes: &Bytes,
) -> Result<Reply, ReplyFault>
    ensures { Tells result (gone_of wire.now.base fields.now bytes.now) }
{
    let link = location_of(fields)?;
    if is_feed(alloc, wire, link)? {
        anew_of(alloc, bytes)
    } else {
        Err(ReplyFault::Meaning)
    }
}

fn has_status(code: ErrorCode, status: u16) -> bool
    ensures { result ≡ has_status code status }
{
    match code {
        ErrorCode::InvalidRequest => status == 400 || status == 413,
        ErrorCode::InvalidRange => status == 400 || status == 416,
        ErrorCode::ItemNotFound => status == 404,
        ErrorCode::NotSupported => status == 405 || status == 501,
        ErrorCode::NameAlreadyExists => status == 409,
        ErrorCode::ResyncChangesApplyDifferences | ErrorCode::ResyncChangesUploadDifferences =>
            status == 410,
        ErrorCode::ResourceModified => status == 412,
        ErrorCode::FailedDependency => status == 424,
        ErrorCode::GeneralException => status == 503,
        ErrorCode::QuotaLimitReached => status == 507,
    }
}

#[tactic(auto, unfolding(crate::specs::Answering::refused_of))]
fn refused_of(alloc: Global, status: u16, bytes: &Bytes) -> Result<Reply, ReplyFault>
    ensures { Tells result (refused_of status bytes.now) }
{
    let code = error_in(alloc, bytes.as_slice())?;
    if has_status(code, status) {
        Ok(Reply::Refused { status, code })
    } else {
        Err(ReplyFault::Meaning)
    }
}

/// What a whole reply to a request of this kind says.
#[tactic(auto, unfolding(crate::specs::Answering::reply_of))]
pub fn reply_from(
    alloc: Global,
    kind: RequestKind,
    frame: ReplyFrame,
    wire: &Wire,
) -> Result<Reply, ReplyFault>
    ensures { Tells result (reply_of wire.now.base kind frame.status frame.fields frame.body) }
{
    let ReplyFrame {
        status,
        fields,
        body,
    } = frame;
    if status == 200 {
        okay_of(alloc, wire, kind, body)
    } else if status == 201 && may_make(kind) {
        made_of(alloc, &body)
    } else if status == 202 && is_fragment(kind) {
        more_of(alloc, &body)
    } else if status == 204 && is_plain(kind) {
        Ok(Reply::Done)
    } else if status == 302 && is_content(kind) {
        moved_of(wire, &fields)
    } else if status == 410 && is_delta(kind) {
        gone_of(alloc, wire, &fields, &body)
    } else {
        refused_of(alloc, status, &body)
    }
}
