ghost use Rattle.std.specs.Prelude.{◌≡◌, true, IfOk};
ghost use Rattle.od_transfer.specs.Asking.{AsksAgain, HasCauseBy, may_answer};
ghost use Rattle.od_transfer.specs.Undisturbed.{Undisturbed, MayBeServed};

use crate::remote::{AskFault, Remote};
use gd_item::{Reply, Request};
use std::alloc::Global;

fn ask_once<R: Remote>(remote: &mut R, alloc: Global, request: &Request) -> Result<Reply, AskFault>
    ensures log { AsksAgain 0 request.now (R.log remote.old) (R.log remote.new) result }
    ensures kind { IfOk result (λ reply. may_answer request.now reply ≡ true) }
    ensures cause { HasCauseBy 1 (R.faults remote.old) (R.faults remote.new) (R.answers remote.old) (R.answers remote.new) (R.in_row remote.old) (R.in_row remote.new) result }
    ensures undisturbed { Undisturbed (R.undisturbed remote.old) (R.undisturbed remote.new) (R.log remote.old) (R.log remote.new) }
    ensures no_faults { R.undisturbed remote.old ≡ true → MayBeServed request.now (R.log remote.old) → R.faults remote.new ≡ R.faults remote.old }
    ensures goes { R.goes remote.old remote.new }
{
    match remote.ask(alloc, request) {
        Ok(reply) => Ok(reply),
        Err(fault) => Err(fault),
    }
}

fn ask_twice<R: Remote>(remote: &mut R, alloc: Global, request: &Request) -> Result<Reply, AskFault>
    ensures log { AsksAgain 1 request.now (R.log remote.old) (R.log remote.new) result }
    ensures kind { IfOk result (λ reply. may_answer request.now reply ≡ true) }
    ensures cause { HasCauseBy 2 (R.faults remote.old) (R.faults remote.new) (R.answers remote.old) (R.answers remote.new) (R.in_row remote.old) (R.in_row remote.new) result }
    ensures undisturbed { Undisturbed (R.undisturbed remote.old) (R.undisturbed remote.new) (R.log remote.old) (R.log remote.new) }
    ensures no_faults { R.undisturbed remote.old ≡ true → MayBeServed request.now (R.log remote.old) → R.faults remote.new ≡ R.faults remote.old }
    ensures goes { R.goes remote.old remote.new }
{
    match ask_once(remote, alloc, request) {
        Ok(reply) => Ok(reply),
        Err(AskFault::Memory) => Err(AskFault::Memory),
        Err(AskFault::Failed) => match ask_once(remote, alloc, request) {
            Ok(reply) => Ok(reply),
            Err(fault) => Err(fault),
        },
    }
}

/// Sends a request until a reply comes, three times at most.
pub fn ask_thrice<R: Remote>(
    remote: &mut R,
    alloc: Global,
    request: &Request,
) -> Result<Reply, AskFault>
    ensures log { AsksAgain 2 request.now (R.log remote.old) (R.log remote.new) result }
    ensures kind { IfOk result (λ reply. may_answer request.now reply ≡ true) }
    ensures cause { HasCauseBy 3 (R.faults remote.old) (R.faults remote.new) (R.answers remote.old) (R.answers remote.new) (R.in_row remote.old) (R.in_row remote.new) result }
    ensures undisturbed { Undisturbed (R.undisturbed remote.old) (R.undisturbed remote.new) (R.log remote.old) (R.log remote.new) }
    ensures no_faults { R.undisturbed remote.old ≡ true → MayBeServed request.now (R.log remote.old) → R.faults remote.new ≡ R.faults remote.old }
    ensures goes { R.goes remote.old remote.new }
{
    match ask_once(remote, alloc, request) {
        Ok(reply) => Ok(reply),
        Err(AskFault::Memory) => Err(AskFault::Memory),
        Err(AskFault::Failed) => match ask_twice(remote, alloc, request) {
            Ok(reply) => Ok(reply),
            Err(fault) => Err(fault),
        },
    }
}

/// Sends a request until a reply comes, three times at most, and lets the request go.
pub fn send_thrice<R: Remote>(
    remote: &mut R,
    alloc: Global,
    request: Request,
) -> Result<Reply, AskFault>
    ensures log { AsksAgain 2 request (R.log remote.old) (R.log remote.new) result }
    ensures kind { IfOk result (λ reply. may_answer request reply ≡ true) }
    ensures cause { HasCauseBy 3 (R.faults remote.old) (R.faults remote.new) (R.answers remote.old) (R.answers remote.new) (R.in_row remote.old) (R.in_row remote.new) result }
    ensures undisturbed { Undisturbed (R.undisturbed remote.old) (R.undisturbed remote.new) (R.log remote.old) (R.log remote.new) }
    ensures no_faults { R.undisturbed remote.old ≡ true → MayBeServed request (R.log remote.old) → R.faults remote.new ≡ R.faults remote.old }
    ensures goes { R.goes remote.old remote.new }
{
    ask_thrice(remote, alloc, &request)
}
