ghost use Rattle.std.specs.Prelude.{◌≡◌, ◌+◌, ◌<◌, ◌≤◌, ◌++◌, ◌∷◌, [], true, length, Some, None, IfOk, IfSome, IfNone, vec_len, vec_capacity};
ghost use Rattle.od_board.specs.Claims.{are_in_order};

use gd_names::{Exact, NoMemory};
use std::alloc::Global;

/// A job, and the worker that claimed it.
#[derive(Clone, Copy, Debug, PartialEq, Eq)]
pub struct Claim {
    pub job: u64,
    pub worker: u32,
}

impl Exact for Claim {
    ghost use Rattle.std.proofs.Common.{rules};

    ghost exact = { Prim.search rules };
}

/// So many jobs, and who claimed them: job 0 first, then job 1 and so on, each once.
#[derive(Drop)]
pub struct Board {
    jobs: u64,
    claims: Vec<Claim>,
    pub ghost in_order: { are_in_order claims.items ≡ true },
    pub ghost within: { vec_len claims ≤ jobs },
    pub ghost room: { jobs ≤ vec_capacity claims },
}

impl Board {
    ghost use Rattle.od_board.specs.Boards.{claims_of, holder_in, jobs_of};

    /// Makes the room for all claims.
    pub fn new(alloc: Global, jobs: u64) -> Result<Board, NoMemory>
        ensures jobs { IfOk result (λ board. jobs_of board ≡ jobs) }
        ensures claims { IfOk result (λ board. claims_of board ≡ []) }
    {
        let claims = Vec::with_capacity(alloc, jobs as usize)?;
        Ok(Board { jobs, claims })
    }

    /// The least job that no worker has claimed yet. Takes no memory.
    pub fn claim(&mut self, worker: u32) -> Option<u64>
        ensures none { IfNone result ((length (claims_of self.old) ≡ jobs_of self.old) × (claims_of self.new ≡ claims_of self.old)) }
        ensures some { IfSome result (λ job. (job ≡ length (claims_of self.old)) × (job < jobs_of self.old)) }
        ensures claimed { IfSome result (λ job. claims_of self.new ≡ claims_of self.old ++ record { job = job; worker = worker } ∷ []) }
        ensures holder { IfSome result (λ job. holder_in job (claims_of self.new) ≡ Some worker) }
        ensures jobs { jobs_of self.new ≡ jobs_of self.old }
    {
        let job = self.claims.len() as u64;
        if job >= self.jobs {
            return None;
        }
        self.claims.push_reserved(Claim { job, worker });
        Some(job)
    }

    /// The worker that claimed a job. Takes no memory.
    pub fn holder(&self, job: u64) -> Option<u32>
        ensures { result ≡ holder_in job (claims_of self.now) }
    {
        for claim in self.claims.as_slice() {
            if claim.job == job {
                return Some(claim.worker);
            }
        }
        None
    }
}
