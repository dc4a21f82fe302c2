ghost use Rattle.std.specs.Prelude.{◌≡◌, true, Some, IfOk};
ghost use Rattle.std.specs.List.{AllZip};
ghost use Rattle.od_transfer.specs.Asking.{may_answer_content, may_answer_download};
ghost use Rattle.od_transfer.specs.Explained.{Carries, GrowsSo, IsSendOf, IsOfFetch, IsOfJob, IsDownloadExplained, IsFetchExplained, IsExplained};
ghost use Rattle.od_transfer.specs.Undisturbed.{Undisturbed};
ghost use Rattle.od_transfer.specs.Fits.{Fits, HasDigest, HasFetchCause, HasCarryCause, fetched, content_in, found_in, downloaded};

use crate::again::send_thrice;
use crate::job::{Job, Outcome};
use crate::remote::{AskFault, Remote};
use gd_item::{Address, Digest, ErrorCode, ItemId, Reply, Request, digest_of};
use gd_names::{Bytes, List, NoMemory};
use std::alloc::Global;

/// A drive over which files are carried.
pub trait Carrier: Remote {
    /// One outcome for each job, in their order.
    fn carry(&mut self, alloc: Global, jobs: &List<Job>) -> Result<List<Outcome>, NoMemory>
        ensures fits { IfOk result (λ outcomes. AllZip Fits jobs.now outcomes) }
        ensures told { Carries jobs.now (Self.log self.old) (Self.log self.new) result }
        ensures cause { HasCarryCause (Self.faults self.old) (Self.faults self.new) (Self.answers self.old) (Self.answers self.new) result }
        ensures undisturbed { Undisturbed (Self.undisturbed self.old) (Self.undisturbed self.new) (Self.log self.old) (Self.log self.new) }
        ensures no_faults { Self.undisturbed self.old ≡ true → Self.faults self.new ≡ Self.faults self.old }
        ensures goes { Self.goes self.old self.new };
}

/// What comes of a fetch with these bytes.
fn judge(bytes: Bytes, digest: Digest) -> Outcome
    ensures { result ≡ fetched digest bytes }
{
    if digest_of(bytes.as_slice()) == digest {
        Outcome::Fetched(bytes)
    } else {
        Outcome::Changed
    }
}

/// The bytes of a reply to a download, or why it is refused.
fn content_in(reply: Reply) -> Result<Bytes, ErrorCode>
    requires { may_answer_download reply ≡ true }
    ensures { content_in reply ≡ Some result }
{
    match reply {
        Reply::Content(bytes) => Ok(bytes),
        Reply::Refused { status: _, code } => Err(code),
        _ => unreachable!(),
    }
}

/// Where a reply says that the bytes are to be had, or why it is refused.
fn found_in(reply: Reply) -> Result<(ItemId, u64), ErrorCode>
    requires { may_answer_content reply ≡ true }
    ensures { found_in reply ≡ Some result }
{
    match reply {
        Reply::Found { id, version } => Ok((id, version)),
        Reply::Refused { status: _, code } => Err(code),
        _ => unreachable!(),
    }
}

/// What comes of a download whose reply this is.
fn downloaded(reply: Reply, digest: Digest) -> Outcome
    requires { may_answer_download reply ≡ true }
    ensures { downloaded digest (content_in reply) ≡ Some result }
{
    match content_in(reply) {
        Ok(bytes) => judge(bytes, digest),
        Err(code) => Outcome::Refused(code),
    }
}

fn download<R: Remote>(
    remote: &mut R,
    alloc: Global,
    id: ItemId,
    version: u64,
    digest: Digest,
) -> Result<Outcome, NoMemory>
    ensures fits { IfOk result (λ outcome. HasDigest digest outcome) }
    ensures told { GrowsSo (IsSendOf (Request.Download id version)) (λ old part. IfOk result (λ outcome. IsDownloadExplained old part id version digest outcome)) (R.log remote.old) (R.log remote.new) }
    ensures cause { HasFetchCause (R.faults remote.old) (R.faults remote.new) (R.answers remote.old) (R.answers remote.new) result }
    ensures undisturbed { Undisturbed (R.undisturbed remote.old) (R.undisturbed remote.new) (R.log remote.old) (R.log remote.new) }
    ensures no_faults { R.undisturbed remote.old ≡ true → R.faults remote.new ≡ R.faults remote.old }
    ensures goes { R.goes remote.old remote.new }
{
    match send_thrice(remote, alloc, Request::Download { id, version }) {
        Ok(reply) => Ok(downloaded(reply, digest)),
        Err(AskFault::Failed) => Ok(Outcome::Lost),
        Err(AskFault::Memory) => Err(NoMemory),
    }
}

fn fetch<R: Remote>(
    remote: &mut R,
    alloc: Global,
    id: ItemId,
    digest: Digest,
) -> Result<Outcome, NoMemory>
    ensures fits { IfOk result (λ outcome. HasDigest digest outcome) }
    ensures told { GrowsSo (IsOfFetch id) (λ old part. IfOk result (λ outcome. IsFetchExplained old part id digest outcome)) (R.log remote.old) (R.log remote.new) }
    ensures cause { HasFetchCause (R.faults remote.old) (R.faults remote.new) (R.answers remote.old) (R.answers remote.new) result }
    ensures undisturbed { Undisturbed (R.undisturbed remote.old) (R.undisturbed remote.new) (R.log remote.old) (R.log remote.new) }
    ensures no_faults { R.undisturbed remote.old ≡ true → R.faults remote.new ≡ R.faults remote.old }
    ensures goes { R.goes remote.old remote.new }
{
    let reply = match send_thrice(
        remote,
        alloc,
        Request::Content {
            at: Address::Id(id),
        },
    ) {
        Ok(reply) => reply,
        Err(AskFault::Failed) => return Ok(Outcome::Lost),
        Err(AskFault::Memory) => return Err(NoMemory),
    };
    match found_in(reply) {
        Ok((found, version)) => download(remote, alloc, found, version, digest),
        Err(code) => Ok(Outcome::Refused(code)),
    }
}

fn carry_one<R: Remote>(remote: &mut R, alloc: Global, job: &Job) -> Result<Outcome, NoMemory>
    ensures fits { IfOk result (λ outcome. Fits job.now outcome) }
    ensures told { GrowsSo (IsOfJob job.now) (λ old part. IfOk result (λ outcome. IsExplained old part job.now outcome)) (R.log remote.old) (R.log remote.new) }
    ensures cause { HasFetchCause (R.faults remote.old) (R.faults remote.new) (R.answers remote.old) (R.answers remote.new) result }
    ensures undisturbed { Undisturbed (R.undisturbed remote.old) (R.undisturbed remote.new) (R.log remote.old) (R.log remote.new) }
    ensures no_faults { R.undisturbed remote.old ≡ true → R.faults remote.new ≡ R.faults remote.old }
    ensures goes { R.goes remote.old remote.new }
{
    match job {
        Job::Fetch {
            id,
            digest,
            size: _,
        } => fetch(remote, alloc, *id, *digest),
    }
}

/// Carries job after job, for a `Remote` that is to be a `Carrier`.
pub fn carry_each<R: Remote>(
    remote: &mut R,
    alloc: Global,
    jobs: &List<Job>,
) -> Result<List<Outcome>, NoMemory>
    ensures fits { IfOk result (λ outcomes. AllZip Fits jobs.now outcomes) }
    ensures told { Carries jobs.now (R.log remote.old) (R.log remote.new) result }
    ensures cause { HasCarryCause (R.faults remote.old) (R.faults remote.new) (R.answers remote.old) (R.answers remote.new) result }
    ensures undisturbed { Undisturbed (R.undisturbed remote.old) (R.undisturbed remote.new) (R.log remote.old) (R.log remote.new) }
    ensures no_faults { R.undisturbed remote.old ≡ true → R.faults remote.new ≡ R.faults remote.old }
    ensures goes { R.goes remote.old remote.new }
{
    let mut outcomes = List::new(alloc);
    for job in jobs.as_slice() {
        let outcome = carry_one(remote, alloc, job)?;
        outcomes.push(outcome)?;
    }
    Ok(outcomes)
}
