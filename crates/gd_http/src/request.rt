//! What whole requests ask for.
ghost use Rattle.std.specs.Prelude.{◌≡◌, Ok, IfOk};
ghost use Rattle.gd_target.specs.Faults.{Gives};
ghost use Rattle.gd_target.specs.Queries.{shown};
ghost use Rattle.gd_http.specs.Asking.{on_item, on_children, on_content, on_uploads, finish, on_session, only_get, only_post, on_changes, asked_of, asked, incoming_of};

use crate::body::{begin_in, folder_in, patch_in};
use crate::header::{condition_of, range_of};
use crate::incoming::Incoming;
use crate::method::{Method, method_of};
use crate::word::{after_at, behaviour_at, token_at};
use gd_frame::{Field, RequestFrame};
use gd_item::{Address, ErrorCode, Request};
use gd_names::{Bytes, List, NoMemory};
use gd_target::{RequestFault, Resource, named_by, query_of};
use std::alloc::Global;

#[tactic(auto, unfolding(crate::specs::Asking::on_item))]
fn on_item(
    alloc: Global,
    at: Address,
    method: Method,
    fields: &List<Field>,
    bytes: &Bytes,
) -> Result<Incoming, RequestFault>
    ensures { Gives (λ x. x) result (on_item at method fields.now bytes.now) }
{
    match method {
        Method::Get => Ok(Incoming::Ask(Request::Get { at })),
        Method::Patch => {
            let condition = condition_of(alloc, fields)?;
            let patch = patch_in(alloc, bytes.as_slice())?;
            Ok(Incoming::Ask(Request::Patch {
                at,
                name: patch.name,
                parent: patch.parent,
                condition,
            }))
        }
        Method::Delete => {
            let condition = condition_of(alloc, fields)?;
            Ok(Incoming::Ask(Request::Delete { at, condition }))
        }
        Method::Put | Method::Post | Method::Other => Err(RequestFault::NotAllowed),
    }
}

#[tactic(auto, unfolding(crate::specs::Asking::on_children))]
fn on_children(
    alloc: Global,
    at: Address,
    method: Method,
    query: Option<&[u8]>,
    bytes: &Bytes,
) -> Result<Incoming, RequestFault>
    ensures { Gives (λ x. x) result (on_children at method (shown query.entry) bytes.now) }
{
    match method {
        Method::Get => {
            let after = after_at(alloc, query)?;
            Ok(Incoming::Ask(Request::Children { at, after }))
        }
        Method::Post => {
            let folder = folder_in(alloc, bytes.as_slice())?;
            Ok(Incoming::Ask(Request::MakeFolder {
                at,
                name: folder.name,
                behaviour: folder.behaviour,
            }))
        }
        Method::Put | Method::Patch | Method::Delete | Method::Other => {
            Err(RequestFault::NotAllowed)
        }
    }
}

#[tactic(auto, unfolding(crate::specs::Asking::on_content))]
fn on_content(
    alloc: Global,
    at: Address,
    method: Method,
    query: Option<&[u8]>,
    fields: &List<Field>,
    bytes: Bytes,
) -> Result<Incoming, RequestFault>
    ensures { Gives (λ x. x) result (on_content at method (shown query.entry) fields.now bytes) }
{
    match method {
        Method::Get => Ok(Incoming::Ask(Request::Content { at })),
        Method::Put => {
            let behaviour = behaviour_at(query)?;
            let condition = condition_of(alloc, fields)?;
            Ok(Incoming::Ask(Request::Put {
                at,
                bytes,
                behaviour,
                condition,
            }))
        }
        Method::Post | Method::Patch | Method::Delete | Method::Other => {
            Err(RequestFault::NotAllowed)
        }
    }
}

#[tactic(auto, unfolding(crate::specs::Asking::on_uploads))]
fn on_uploads(
    alloc: Global,
    at: Address,
    method: Method,
    fields: &List<Field>,
    bytes: &Bytes,
) -> Result<Incoming, RequestFault>
    ensures { Gives (λ x. x) result (on_uploads at method fields.now bytes.now) }
{
    match method {
        Method::Post => {
            let condition = condition_of(alloc, fields)?;
            let begin = begin_in(alloc, bytes.as_slice())?;
            Ok(Incoming::Ask(Request::OpenSession {
                at,
                name: begin.name,
                behaviour: begin.behaviour,
                condition,
                defer: begin.defer,
            }))
        }
        Method::Get | Method::Put | Method::Patch | Method::Delete | Method::Other => {
            Err(RequestFault::NotAllowed)
        }
    }
}

/// A session that is whole becomes a file by a request without a body.
fn finish(session: u64, bytes: &Bytes) -> Result<Incoming, RequestFault>
    ensures { Gives (λ x. x) result (finish session bytes.now) }
{
    if bytes.is_empty() {
        Ok(Incoming::Ask(Request::Finish { session }))
    } else {
        Err(RequestFault::Invalid)
    }
}

#[tactic(auto, unfolding(crate::specs::Asking::on_session))]
fn on_session(
    session: u64,
    method: Method,
    fields: &List<Field>,
    bytes: Bytes,
) -> Result<Incoming, RequestFault>
    ensures { Gives (λ x. x) result (on_session session method fields.now bytes) }
{
    match method {
        Method::Get => Ok(Incoming::Ask(Request::SessionStatus { session })),
        Method::Put => {
            let range = range_of(fields)?;
            Ok(Incoming::Ask(Request::Fragment {
                session,
                first: range.first,
                last: range.last,
                total: range.total,
                bytes,
            }))
        }
        Method::Delete => Ok(Incoming::Ask(Request::CancelSession { session })),
        Method::Post => finish(session, &bytes),
        Method::Patch | Method::Other => Err(RequestFault::NotAllowed),
    }
}

fn only_get(method: Method, message: Incoming) -> Result<Incoming, RequestFault>
    ensures { Gives (λ x. x) result (only_get method (Ok message)) }
{
    match method {
        Method::Get => Ok(message),
        Method::Put | Method::Post | Method::Patch | Method::Delete | Method::Other => {
            Err(RequestFault::NotAllowed)
        }
    }
}

fn only_post(method: Method, message: Incoming) -> Result<Incoming, RequestFault>
    ensures { Gives (λ x. x) result (only_post method (Ok message)) }
{
    match method {
        Method::Post => Ok(message),
        Method::Get | Method::Put | Method::Patch | Method::Delete | Method::Other => {
            Err(RequestFault::NotAllowed)
        }
    }
}

#[tactic(auto, unfolding(crate::specs::Asking::on_changes))]
fn on_changes(alloc: Global, method: Method, query: Option<&[u8]>) -> Result<Incoming, RequestFault>
    ensures { Gives (λ x. x) result (on_changes method (shown query.entry)) }
{
    match method {
        Method::Get => {
            let token = token_at(alloc, query)?;
            Ok(Incoming::Ask(Request::Delta { token }))
        }
        Method::Put | Method::Post | Method::Patch | Method::Delete | Method::Other => {
            Err(RequestFault::NotAllowed)
        }
    }
}

#[tactic(auto, unfolding(crate::specs::Asking::asked_of))]
fn asked_of(
    alloc: Global,
    resource: Resource,
    method: Method,
    query: Option<&[u8]>,
    fields: &List<Field>,
    bytes: Bytes,
) -> Result<Incoming, RequestFault>
    ensures { Gives (λ x. x) result (asked_of resource method (shown query.entry) fields.now bytes) }
{
    match resource {
        Resource::Item(at) => on_item(alloc, at, method, fields, &bytes),
        Resource::Children(at) => on_children(alloc, at, method, query, &bytes),
        Resource::Content(at) => on_content(alloc, at, method, query, fields, bytes),
        Resource::Uploads(at) => on_uploads(alloc, at, method, fields, &bytes),
        Resource::Versions(id) => only_get(method, Incoming::Versions(id)),
        Resource::Version(id, version) => only_post(method, Incoming::Restore(id, version)),
        Resource::Changes => on_changes(alloc, method, query),
        Resource::Download(id, version) => {
            only_get(method, Incoming::Ask(Request::Download { id, version }))
        }
        Resource::Session(session) => on_session(session, method, fields, bytes),
        Resource::Batch => only_post(method, Incoming::Batch(bytes)),
    }
}

#[tactic(auto, unfolding(crate::specs::Asking::asked))]
fn asked(
    alloc: Global,
    method: &Bytes,
    target: &Bytes,
    fields: &List<Field>,
    bytes: Bytes,
) -> Result<Incoming, RequestFault>
    ensures { Gives (λ x. x) result (asked method.now target.now fields.now bytes) }
{
    let target = target.as_slice();
    let resource = named_by(alloc, target)?;
    asked_of(
        alloc,
        resource,
        method_of(method.as_slice()),
        query_of(target),
        fields,
        bytes,
    )
}

/// What a whole request asks for, or why it asks for nothing.
pub fn incoming_from(alloc: Global, frame: RequestFrame) -> Result<Incoming, NoMemory>
    ensures { IfOk result (λ message. message ≡ incoming_of frame.method frame.target frame.fields frame.body) }
{
    let RequestFrame {
        method,
        target,
        minor: _,
        fields,
        body,
    } = frame;
    match asked(alloc, &method, &target, &fields, body) {
        Ok(message) => Ok(message),
        Err(RequestFault::NotFound) => Ok(Incoming::Refuse {
            status: 404,
            code: ErrorCode::ItemNotFound,
        }),
        Err(RequestFault::NotAllowed) => Ok(Incoming::Refuse {
            status: 405,
            code: ErrorCode::NotSupported,
        }),
        Err(RequestFault::Invalid) => Ok(Incoming::Refuse {
            status: 400,
            code: ErrorCode::InvalidRequest,
        }),
        Err(RequestFault::Memory) => Err(NoMemory),
    }
}
