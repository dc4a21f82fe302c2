//! A drive of which nothing is told.
ghost use Rattle.std.specs.Prelude.{◌≡◌, true, IfOk};
ghost use Rattle.gd_item.specs.Replies.{may_answer};
ghost use Rattle.gd_item.specs.Requests.{kind_of};

use gd_item::{ErrorCode, ItemId, Reply, Request};
use gd_names::{Bytes, NoMemory};
use od_remote::{AskFault, Remote};
use std::alloc::{AllocError, Global};

/// A drive with one file, whose first requests are lost and that lacks memory at each request for changes.
#[derive(Debug, Drop)]
pub struct OneFile {
    bytes: Bytes,
    pub lost: u64,
    pub faults: u64,
    pub answers: u64,
    failures: u64,
}

impl OneFile {
    pub fn new(alloc: Global, lost: u64) -> Result<OneFile, NoMemory> {
        Ok(OneFile {
            bytes: Bytes::from_slice(alloc, b"abc")?,
            lost,
            faults: 0,
            answers: 0,
            failures: 0,
        })
    }

    fn reply_to(&self, request: &Request) -> Result<Reply, AllocError>
        ensures { IfOk result (λ reply. may_answer (kind_of request.now) reply ≡ true) }
    {
        match request {
            Request::Content { .. } => Ok(Reply::Found {
                id: ItemId(2),
                version: 2,
            }),
            Request::Download { .. } => Ok(Reply::Content(self.bytes.clone()?)),
            Request::Delta { .. } => Ok(Reply::Refused {
                status: 503,
                code: ErrorCode::GeneralException,
            }),
            _ => Ok(Reply::Refused {
                status: 404,
                code: ErrorCode::ItemNotFound,
            }),
        }
    }
}

impl Remote for OneFile {
    ghost use Rattle.std.proofs.Common.{le_refl, le_trans};
    ghost use Rattle.std.specs.Prelude.{◌≡◌, ◌≤◌, [], None};

    ghost log = { λ r. None };

    ghost counts = { λ r. record { faults = r.faults; answers = r.answers; in_row = r.failures; exchanges = None } };

    ghost reads = { λ r kind bytes reply. bytes ≡ [] };

    ghost goes = { λ x y. (x.faults ≤ y.faults) × (x.answers ≤ y.answers) };

    fn ask(&mut self, _alloc: Global, request: &Request) -> Result<Reply, AskFault> {
        if self.lost > 0 {
            self.lost -= 1;
            self.faults = self.faults.saturating_add(1);
            self.failures = self.failures.saturating_add(1);
            return Err(AskFault::Failed);
        }
        match self.reply_to(request) {
            Ok(reply) => {
                self.answers = self.answers.saturating_add(1);
                self.failures = 0;
                Ok(reply)
            }
            Err(_) => Err(AskFault::Memory),
        }
    }

    ghost goes_refl = { λ x. (le_refl x.faults, le_refl x.answers) };

    ghost goes_trans = { λ x y z first more. (le_trans first.0 more.0, le_trans first.1 more.1) };

    ghost goes_later = { λ x y goes. record { faults = goes.0; answers = goes.1; exchanges = λ old at. absurd (cc at) } };

    ghost goes_reads = { λ x y goes. record { still = λ kind bytes reply read. read; back = λ kind bytes reply read. read } };
}
