ghost use Rattle.std.specs.Prelude.{◌≡◌, ◌+◌, ◌<◌, ◌^◌, true, length, Some};
ghost use Rattle.od_job.specs.Asking.{end_of, is_at, request_at};
ghost use Rattle.od_job.specs.Turns.{bad_turn, cancelled, content_turn, download_turn, failure_turn, fetched, finish_turn, fragment_turn, is_last_failure, may_answer_it, may_reply, open_turn, outcome_of, put_turn, refused_status, reply_turn, sent_to, status_turn, total_turn};

use crate::asking::end_of;
use crate::job::{Job, Outcome};
use crate::stage::{Stage, Turn, Why};
use gd_item::{Digest, ErrorCode, Reply, RequestKind, digest_of};
use gd_names::Bytes;

/// What comes of a fetch with these bytes.
fn fetched(digest: Digest, bytes: Bytes) -> Outcome
    ensures { result ≡ fetched digest bytes }
{
    if digest_of(bytes.as_slice()) == digest {
        Outcome::Fetched(bytes)
    } else {
        Outcome::Changed
    }
}

fn content_turn(reply: Reply) -> Turn
    requires { may_reply RequestKind.Content reply ≡ true }
    ensures { content_turn reply ≡ Some result }
{
    match reply {
        Reply::Found { id, version } => Turn::To(Stage::AskDownload { id, version }),
        Reply::Refused { status: _, code } => Turn::End(Outcome::Refused(code)),
        _ => unreachable!(),
    }
}

fn download_turn(digest: Digest, reply: Reply) -> Turn
    requires { may_reply RequestKind.Download reply ≡ true }
    ensures { download_turn digest reply ≡ Some result }
{
    match reply {
        Reply::Content(bytes) => Turn::End(fetched(digest, bytes)),
        Reply::Refused { status: _, code } => Turn::End(Outcome::Refused(code)),
        _ => unreachable!(),
    }
}

fn put_turn(reply: Reply) -> Turn
    requires { may_reply RequestKind.Put reply ≡ true }
    ensures { put_turn reply ≡ Some result }
{
    match reply {
        Reply::Made(item) | Reply::Is(item) => Turn::End(Outcome::Accepted(item)),
        Reply::Refused { status: _, code } => Turn::End(Outcome::Refused(code)),
        _ => unreachable!(),
    }
}

/// A session is ended, and then the job.
fn cancelled(session: u64, why: Why) -> Turn
    ensures { result ≡ cancelled session why }
{
    Turn::To(Stage::Cancelling { session, why })
}

fn open_turn(reply: Reply) -> Turn
    requires { may_reply RequestKind.OpenSession reply ≡ true }
    ensures { open_turn reply ≡ Some result }
{
    match reply {
        Reply::Session { session, expected } => {
            if expected == 0 {
                Turn::To(Stage::Opened { session, sent: 0 })
            } else {
                cancelled(session, Why::Odd(0))
            }
        }
        Reply::Refused { status: _, code } => Turn::End(Outcome::Refused(code)),
        _ => unreachable!(),
    }
}

/// What is next once the bytes before this one have come.
fn sent_to(total: u64, session: u64, sent: u64) -> Turn
    ensures { result ≡ sent_to total session sent }
{
    if sent == total {
        Turn::To(Stage::Finishing { session })
    } else {
        Turn::To(Stage::Opened { session, sent })
    }
}

fn fragment_turn(total: u64, session: u64, sent: u64, reply: Reply) -> Turn
    requires within { sent < total }
    requires kind { may_reply RequestKind.Fragment reply ≡ true }
    ensures { fragment_turn total session sent reply ≡ Some result }
{
    match reply {
        Reply::More { expected } => {
            if expected == end_of(total, sent) {
                sent_to(total, session, expected)
            } else {
                cancelled(session, Why::Odd(sent))
            }
        }
        Reply::Made(_) | Reply::Is(_) => cancelled(session, Why::Odd(sent)),
        Reply::Refused { status: _, code } => cancelled(session, Why::Refused(code)),
        _ => unreachable!(),
    }
}

/// What a refusal to say how far a session has come leads to.
fn refused_status(session: u64, status: u16, code: ErrorCode) -> Turn
    ensures { result ≡ refused_status session status code }
{
    if status == 404 {
        Turn::End(Outcome::Lost)
    } else {
        cancelled(session, Why::Refused(code))
    }
}

fn status_turn(total: u64, session: u64, sent: u64, reply: Reply) -> Turn
    requires within { sent < total }
    requires kind { may_reply RequestKind.SessionStatus reply ≡ true }
    ensures { status_turn total session sent reply ≡ Some result }
{
    match reply {
        Reply::Status { expected } => {
            if expected == sent {
                Turn::To(Stage::Opened { session, sent })
            } else if expected == end_of(total, sent) {
                sent_to(total, session, expected)
            } else {
                cancelled(session, Why::Lost)
            }
        }
        Reply::Refused { status, code } => refused_status(session, status, code),
        _ => unreachable!(),
    }
}

fn finish_turn(session: u64, reply: Reply) -> Turn
    requires { may_reply RequestKind.Finish reply ≡ true }
    ensures { finish_turn session reply ≡ Some result }
{
    match reply {
        Reply::Made(item) | Reply::Is(item) => Turn::End(Outcome::Accepted(item)),
        Reply::Refused { status: _, code } => cancelled(session, Why::Refused(code)),
        _ => unreachable!(),
    }
}

fn total_turn(total: u64, session: u64, reply: Reply) -> Turn
    requires { may_reply RequestKind.SessionStatus reply ≡ true }
    ensures { total_turn total session reply ≡ Some result }
{
    match reply {
        Reply::Status { expected } => {
            if expected == total {
                Turn::To(Stage::Finishing { session })
            } else {
                cancelled(session, Why::Lost)
            }
        }
        Reply::Refused { status, code } => refused_status(session, status, code),
        _ => unreachable!(),
    }
}

/// How a job ends whose session was cancelled.
fn outcome_of(why: Why) -> Outcome
    ensures { result ≡ outcome_of why }
{
    match why {
        Why::Refused(code) => Outcome::Refused(code),
        Why::Lost => Outcome::Lost,
        Why::Odd(first) => Outcome::Odd(first),
    }
}

/// What a reply to what is asked leads to.
pub fn reply_turn(job: &Job, stage: Stage, reply: Reply) -> Turn
    requires at { is_at job.now stage ≡ true }
    requires kind { may_answer_it (request_at job.now stage) reply ≡ true }
    ensures { reply_turn job.now stage reply ≡ Some result }
{
    match job {
        Job::Fetch {
            id: _,
            digest,
            size: _,
        } => match stage {
            Stage::AskContent => content_turn(reply),
            Stage::AskDownload { id: _, version: _ } => download_turn(*digest, reply),
            _ => unreachable!(),
        },
        Job::Send { to: _, bytes } => {
            let total = bytes.as_slice().len() as u64;
            match stage {
                Stage::Putting => put_turn(reply),
                Stage::Opening => open_turn(reply),
                Stage::Opened { session, sent } => fragment_turn(total, session, sent, reply),
                Stage::AskStatus { session, sent } => status_turn(total, session, sent, reply),
                Stage::Finishing { session } => finish_turn(session, reply),
                Stage::AskTotal { session } => total_turn(total, session, reply),
                Stage::Cancelling { session: _, why } => Turn::End(outcome_of(why)),
                _ => unreachable!(),
            }
        }
    }
}

/// What a failure leads to that is not one too many.
pub fn failure_turn(job: &Job, stage: Stage) -> Turn
    requires { is_at job.now stage ≡ true }
    ensures { failure_turn stage ≡ Some result }
{
    match stage {
        Stage::AskContent => Turn::To(Stage::AskContent),
        Stage::AskDownload { id, version } => Turn::To(Stage::AskDownload { id, version }),
        Stage::Putting | Stage::Opening => Turn::End(Outcome::Lost),
        Stage::Opened { session, sent } | Stage::AskStatus { session, sent } => {
            Turn::To(Stage::AskStatus { session, sent })
        }
        Stage::Finishing { session } | Stage::AskTotal { session } => {
            Turn::To(Stage::AskTotal { session })
        }
        Stage::Cancelling { session: _, why } => Turn::End(outcome_of(why)),
        Stage::Ended => unreachable!(),
    }
}

/// Whether a failure is the last, with the counts after it.
pub fn is_last_failure(row: u8, failures: u8) -> bool
    ensures { result ≡ is_last_failure row failures }
{
    row >= 3 || failures >= 16
}

/// What bytes lead to that are no reply.
pub fn bad_turn(job: &Job, stage: Stage, bytes: Bytes) -> Turn
    requires { is_at job.now stage ≡ true }
    ensures { bad_turn stage bytes ≡ Some result }
{
    match stage {
        Stage::Cancelling { session: _, why } => Turn::End(outcome_of(why)),
        Stage::Ended => unreachable!(),
        _ => Turn::End(Outcome::Bad(bytes)),
    }
}
