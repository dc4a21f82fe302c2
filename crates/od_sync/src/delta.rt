ghost use Rattle.std.specs.Prelude.{◌≡◌, ◌&&◌, ◌∷◌, [], true, length, nat_lt, Some, None, IfOk, IfErr, IsErrOf};
ghost use Rattle.std.specs.List.{list_all};
ghost use Rattle.gd_item.specs.Written.{IsWritten, is_token_byte};
ghost use Rattle.od_transfer.specs.Asking.{is_last_link, may_answer_delta};
ghost use Rattle.od_transfer.specs.Undisturbed.{Undisturbed, MayBeServed};
ghost use Rattle.od_sync.specs.Deltas.{AsksDelta, DeltaAsks, HasDeltaCause, SendsOnce, HasSendCause, is_delta, is_written_token, page_in};

use gd_item::{Page, Reply, Request};
use gd_names::{NoMemory, Text};
use od_transfer::{AskFault, Remote};
use std::alloc::Global;
use thiserror::Error;

/// Why there is no page of changes.
#[derive(Clone, Copy, Debug, PartialEq, Eq, Error)]
pub enum DeltaFault {
    #[error("three sends had no reply")]
    LinkFault,
    /// Some of three sends had the reply that the drive lacks memory, and the others had none.
    #[error("the drive lacks memory")]
    Unserved,
    #[error("out of memory")]
    Memory,
}

impl From<NoMemory> for DeltaFault {
    ghost use Rattle.od_sync.specs.declared.delta.DeltaFault.TheVariants.{Memory};

    ghost from_gives = { λ _ fault. fault ≡ Memory };

    fn from(_error: NoMemory) -> DeltaFault {
        DeltaFault::Memory
    }
}

/// The page of a reply, and None where the drive lacks memory.
fn page_in(reply: Reply) -> Option<Page>
    requires { may_answer_delta reply ≡ true }
    ensures { page_in reply ≡ Some result }
{
    match reply {
        Reply::Page(page) => Some(page),
        Reply::Refused { .. } => None,
        _ => unreachable!(),
    }
}

fn is_token_byte(byte: u8) -> bool
    ensures { result ≡ is_token_byte byte }
{
    matches!(byte, b'A'..=b'Z' | b'a'..=b'z' | b'0'..=b'9' | b'.')
}

fn are_token_bytes(text: &[u8]) -> bool
    ensures { result ≡ list_all is_token_byte text.now }
{
    for byte in text {
        if !is_token_byte(*byte) {
            return false;
        }
    }
    true
}

fn is_token_text(text: &[u8]) -> bool
    ensures { result ≡ (nat_lt 0 (length text.now) && list_all is_token_byte text.now) }
{
    if text.is_empty() {
        return false;
    }
    are_token_bytes(text)
}

/// Whether a request for changes can carry a token.
fn is_written_token(token: &Option<Text>) -> bool
    ensures { result ≡ is_written_token token.now }
{
    match token {
        Some(text) => is_token_text(text.as_bytes()),
        None => true,
    }
}

/// Sends a request for changes once. Without a page it says how many replies came, of which there is one at most.
fn send_delta<R: Remote>(
    remote: &mut R,
    alloc: Global,
    request: &Request,
) -> Result<Result<Page, u64>, NoMemory>
    requires delta { is_delta request.now ≡ true }
    requires written { IsWritten request.now }
    ensures log { SendsOnce request.now (R.log remote.old) (R.log remote.new) result }
    ensures cause { HasSendCause (R.faults remote.old) (R.faults remote.new) (R.answers remote.old) (R.answers remote.new) (R.in_row remote.old) (R.in_row remote.new) result }
    ensures undisturbed { Undisturbed (R.undisturbed remote.old) (R.undisturbed remote.new) (R.log remote.old) (R.log remote.new) }
    ensures no_faults { R.undisturbed remote.old ≡ true → MayBeServed request.now (R.log remote.old) → R.faults remote.new ≡ R.faults remote.old }
{
    match remote.ask(alloc, request) {
        Ok(reply) => match page_in(reply) {
            Some(page) => Ok(Ok(page)),
            None => Ok(Err(1)),
        },
        Err(AskFault::Failed) => Ok(Err(0)),
        Err(AskFault::Memory) => Err(NoMemory),
    }
}

fn send_again<R: Remote>(
    remote: &mut R,
    alloc: Global,
    request: &Request,
) -> Result<Page, DeltaFault>
    requires delta { is_delta request.now ≡ true }
    requires written { IsWritten request.now }
    ensures log { DeltaAsks request.now (R.log remote.old) (R.log remote.new) result }
    ensures cause { HasDeltaCause (R.faults remote.old) (R.faults remote.new) (R.answers remote.old) (R.answers remote.new) (R.in_row remote.new) result }
    ensures undisturbed { Undisturbed (R.undisturbed remote.old) (R.undisturbed remote.new) (R.log remote.old) (R.log remote.new) }
    ensures no_faults { R.undisturbed remote.old ≡ true → MayBeServed request.now (R.log remote.old) → R.faults remote.new ≡ R.faults remote.old }
{
    let mut replies: u64 = 0;
    for _sent in 0u64..3 {
        let sent = send_delta(remote, alloc, request)?;
        match sent {
            Ok(page) => return Ok(page),
            Err(more) => replies += more,
        }
    }
    if replies == 0 {
        Err(DeltaFault::LinkFault)
    } else {
        Err(DeltaFault::Unserved)
    }
}

/// Asks for the changes since a token, or for everything. The request is sent again after a failure, and where the
/// drive lacks memory, three times in all. No request is made that cannot carry its token: that ends as want of memory does.
pub fn ask_delta<R: Remote>(
    remote: &mut R,
    alloc: Global,
    token: Option<Text>,
) -> Result<Page, DeltaFault>
    ensures log { DeltaAsks (Request.Delta token) (R.log remote.old) (R.log remote.new) result }
    ensures asks { AsksDelta (IsErrOf result DeltaFault.Memory) token (R.log remote.old) (R.log remote.new) }
    ensures cause { HasDeltaCause (R.faults remote.old) (R.faults remote.new) (R.answers remote.old) (R.answers remote.new) (R.in_row remote.new) result }
    ensures undisturbed { Undisturbed (R.undisturbed remote.old) (R.undisturbed remote.new) (R.log remote.old) (R.log remote.new) }
    ensures no_faults { R.undisturbed remote.old ≡ true → MayBeServed (Request.Delta token) (R.log remote.old) → R.faults remote.new ≡ R.faults remote.old }
{
    if !is_written_token(&token) {
        return Err(DeltaFault::Memory);
    }
    let request = Request::Delta { token };
    send_again(remote, alloc, &request)
}
