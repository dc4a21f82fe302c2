ghost use Rattle.std.specs.Prelude.{◌≡◌};
ghost use Rattle.gd_item.specs.Requests.{kind_of};
ghost use Rattle.gd_item.specs.declared.request.RequestKind.TheVariants.{Delta};
ghost use Rattle.od_remote.specs.Again.{AsksAgain, AsksServed, HasAgainCause, HasSendCause, HasServeCause, Sends, is_unserved};

use crate::remote::{AskFault, Remote};
use gd_item::{Reply, Request};
use gd_names::Bytes;
use std::alloc::Global;
use thiserror::Error;

/// Why a request has no reply, though it was sent again where the drive lacked memory.
#[derive(Debug, PartialEq, Eq, Drop, Error)]
pub enum ServeFault {
    #[error("three sends had no reply")]
    Failed,
    /// Some of three sends had the reply that the drive lacks memory, and the others had none.
    #[error("the drive lacks memory")]
    Unserved,
    /// The bytes that came.
    #[error("what came is no reply")]
    Bad(Bytes),
    #[error("out of memory")]
    Memory,
}

/// Sends a request until a reply comes, three times at most.
pub fn ask_again<R: Remote>(
    remote: &mut R,
    alloc: Global,
    request: &Request,
) -> Result<Reply, AskFault>
    ensures log { AsksAgain request.now result (R.log remote.old) (R.log remote.new) }
    ensures cause { HasAgainCause (R.reads remote.old) request.now result (R.counts remote.old) (R.counts remote.new) }
    ensures goes { R.goes remote.old remote.new }
{
    for _sent in 0..2u64 {
        match remote.ask(alloc, request) {
            Ok(reply) => return Ok(reply),
            Err(AskFault::Failed) => {}
            Err(AskFault::Bad(bytes)) => return Err(AskFault::Bad(bytes)),
            Err(AskFault::Memory) => return Err(AskFault::Memory),
        }
    }
    remote.ask(alloc, request)
}

/// Whether a reply says that the drive lacks memory.
fn is_unserved(reply: &Reply) -> bool
    ensures { result ≡ is_unserved reply.now }
{
    match reply {
        Reply::Refused { status, code: _ } => *status == 503,
        _ => false,
    }
}

/// Sends a request for changes once. Without a reply that counts it says how many came, of which there is one at most.
fn ask_once<R: Remote>(
    remote: &mut R,
    alloc: Global,
    request: &Request,
) -> Result<Result<Reply, u64>, AskFault>
    requires { kind_of request.now ≡ Delta }
    ensures log { Sends request.now result (R.log remote.old) (R.log remote.new) }
    ensures cause { HasSendCause (R.reads remote.old) request.now result (R.counts remote.old) (R.counts remote.new) }
    ensures goes { R.goes remote.old remote.new }
{
    match remote.ask(alloc, request) {
        Ok(reply) => {
            if is_unserved(&reply) {
                Ok(Err(1))
            } else {
                Ok(Ok(reply))
            }
        }
        Err(AskFault::Failed) => Ok(Err(0)),
        Err(AskFault::Bad(bytes)) => Err(AskFault::Bad(bytes)),
        Err(AskFault::Memory) => Err(AskFault::Memory),
    }
}

/// Sends a request for changes until a reply comes other than that the drive lacks memory, three times at most.
pub fn ask_until_served<R: Remote>(
    remote: &mut R,
    alloc: Global,
    request: &Request,
) -> Result<Reply, ServeFault>
    requires { kind_of request.now ≡ Delta }
    ensures log { AsksServed request.now result (R.log remote.old) (R.log remote.new) }
    ensures cause { HasServeCause (R.reads remote.old) request.now result (R.counts remote.old) (R.counts remote.new) }
    ensures goes { R.goes remote.old remote.new }
{
    let mut replies: u64 = 0;
    for _sent in 0..3u64 {
        match ask_once(remote, alloc, request) {
            Ok(Ok(reply)) => return Ok(reply),
            Ok(Err(more)) => replies += more,
            Err(AskFault::Failed) => return Err(ServeFault::Failed),
            Err(AskFault::Bad(bytes)) => return Err(ServeFault::Bad(bytes)),
            Err(AskFault::Memory) => return Err(ServeFault::Memory),
        }
    }
    if replies == 0 {
        Err(ServeFault::Failed)
    } else {
        Err(ServeFault::Unserved)
    }
}
