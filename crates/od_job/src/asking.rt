ghost use Rattle.std.specs.Prelude.{◌≡◌, ◌<◌, ◌≤◌, true, length, Some, IfOk};
ghost use Rattle.od_job.specs.Asking.{address_of, behaviour_of, condition_of, end_of, fetch_request, first_stage, fragment_of, is_at, is_fetch_at, is_send_at, request_at, send_request};

use crate::job::{Job, SendTo};
use crate::stage::Stage;
use gd_item::{Address, Condition, ItemId, Request};
use gd_names::{Bytes, Conflict, NoMemory};
use std::alloc::Global;

/// A file of at most so many bytes is put at once.
const SHORT: u64 = 327_680;

/// Of so many bytes each fragment has but the last, a multiple of what the drive takes.
const FRAGMENT: u64 = 655_360;

fn address_of(to: &SendTo) -> Result<Address, NoMemory>
    ensures { IfOk result (λ at. at ≡ address_of to.now) }
{
    match to {
        SendTo::Over(id, _) => Ok(Address::Id(*id)),
        SendTo::Under(id, name) => Ok(Address::Child(*id, name.clone()?)),
    }
}

fn behaviour_of(to: &SendTo) -> Conflict
    ensures { result ≡ behaviour_of to.now }
{
    match to {
        SendTo::Over(_, _) => Conflict::Replace,
        SendTo::Under(_, _) => Conflict::Fail,
    }
}

fn condition_of(to: &SendTo) -> Result<Condition, NoMemory>
    ensures { IfOk result (λ condition. condition ≡ condition_of to.now) }
{
    match to {
        SendTo::Over(_, tag) => Ok(Condition::Match(tag.0.clone()?)),
        SendTo::Under(_, _) => Ok(Condition::Free),
    }
}

/// Where the fragment ends that begins at a byte.
pub fn end_of(total: u64, sent: u64) -> u64
    requires { sent < total }
    ensures { result ≡ end_of total sent }
{
    if total - sent <= FRAGMENT {
        total
    } else {
        sent + FRAGMENT
    }
}

fn put(to: &SendTo, bytes: &Bytes) -> Result<Request, NoMemory>
    ensures { IfOk result (λ asked. send_request to.now bytes.now Stage.Putting ≡ Some asked) }
{
    Ok(Request::Put {
        at: address_of(to)?,
        bytes: bytes.clone()?,
        behaviour: behaviour_of(to),
        condition: condition_of(to)?,
    })
}

fn open(to: &SendTo, bytes: &Bytes) -> Result<Request, NoMemory>
    ensures { IfOk result (λ asked. send_request to.now bytes.now Stage.Opening ≡ Some asked) }
{
    Ok(Request::OpenSession {
        at: address_of(to)?,
        name: None,
        behaviour: behaviour_of(to),
        condition: condition_of(to)?,
        defer: true,
    })
}

fn fragment(alloc: Global, session: u64, sent: u64, bytes: &Bytes) -> Result<Request, NoMemory>
    requires { sent < length bytes.now }
    ensures { IfOk result (λ asked. asked ≡ fragment_of session sent bytes.now) }
{
    let whole = bytes.as_slice();
    let total = whole.len() as u64;
    let end = end_of(total, sent);
    let part = Bytes::from_slice(alloc, &whole[sent as usize..end as usize])?;
    Ok(Request::Fragment {
        session,
        first: sent,
        last: end - 1,
        total,
        bytes: part,
    })
}

fn fetch_request(id: ItemId, stage: Stage) -> Request
    requires { is_fetch_at stage ≡ true }
    ensures { fetch_request id stage ≡ Some result }
{
    match stage {
        Stage::AskContent => Request::Content {
            at: Address::Id(id),
        },
        Stage::AskDownload { id: found, version } => Request::Download { id: found, version },
        _ => unreachable!(),
    }
}

fn send_request(
    alloc: Global,
    to: &SendTo,
    bytes: &Bytes,
    stage: Stage,
) -> Result<Request, NoMemory>
    requires { is_send_at (length bytes.now) stage ≡ true }
    ensures { IfOk result (λ asked. send_request to.now bytes.now stage ≡ Some asked) }
{
    match stage {
        Stage::Putting => Ok(put(to, bytes)?),
        Stage::Opening => Ok(open(to, bytes)?),
        Stage::Opened { session, sent } => Ok(fragment(alloc, session, sent, bytes)?),
        Stage::AskStatus { session, sent: _ } => Ok(Request::SessionStatus { session }),
        Stage::Finishing { session } => Ok(Request::Finish { session }),
        Stage::AskTotal { session } => Ok(Request::SessionStatus { session }),
        Stage::Cancelling { session, why: _ } => Ok(Request::CancelSession { session }),
        _ => unreachable!(),
    }
}

/// What a job asks where it stands.
pub fn request(alloc: Global, job: &Job, stage: Stage) -> Result<Request, NoMemory>
    requires { is_at job.now stage ≡ true }
    ensures { IfOk result (λ asked. request_at job.now stage ≡ Some asked) }
{
    match job {
        Job::Fetch {
            id,
            digest: _,
            size: _,
        } => Ok(fetch_request(*id, stage)),
        Job::Send { to, bytes } => Ok(send_request(alloc, to, bytes, stage)?),
    }
}

/// Where a job begins.
pub fn first_stage(job: &Job) -> Stage
    ensures stage { result ≡ first_stage job.now }
    ensures at { is_at job.now result ≡ true }
{
    match job {
        Job::Fetch {
            id: _,
            digest: _,
            size: _,
        } => Stage::AskContent,
        Job::Send { to: _, bytes } => {
            if bytes.len() as u64 <= SHORT {
                Stage::Putting
            } else {
                Stage::Opening
            }
        }
    }
}
