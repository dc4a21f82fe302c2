ghost use Rattle.std.specs.Prelude.{◌≡◌, ◌+◌, true, Some, IsOk, IfOk};
ghost use Rattle.od_job.specs.Asking.{request_at};
ghost use Rattle.od_job.specs.Turns.{IsGoing, IsStanding, after_failure, after_turn, begun, may_hear, next_of, step_of};

use crate::asking::{first_stage, request};
use crate::job::{Answered, Job, Outcome};
use crate::stage::{Stage, Turn};
use crate::turns::{bad_turn, failure_turn, is_last_failure, reply_turn};
use gd_item::Request;
use gd_names::NoMemory;
use std::alloc::Global;

/// The transfer of one file: where its job stands, and how often no answer came.
#[derive(Clone, Copy, Debug, PartialEq, Eq)]
pub struct Transfer {
    stage: Stage,
    /// Failures since the last answer.
    row: u8,
    failures: u8,
}

/// What an answer leads to.
#[derive(Debug, PartialEq, Eq, Drop)]
pub enum Next {
    Goes(Transfer),
    Ends(Outcome),
}

/// What came of an answer: more is to be asked, or the job has ended.
#[derive(Debug, PartialEq, Eq, Drop)]
pub enum Step {
    More,
    Ended(Outcome),
}

/// What a turn leads to, with these counts.
fn turned(turn: Turn, row: u8, failures: u8) -> Next
    ensures { after_turn row failures (Some turn) ≡ Some result }
{
    match turn {
        Turn::To(stage) => Next::Goes(Transfer {
            stage,
            row,
            failures,
        }),
        Turn::End(outcome) => Next::Ends(outcome),
    }
}

/// What a failure leads to, with the counts after it.
fn failed(turn: Turn, row: u8, failures: u8) -> Next
    ensures { after_failure row failures (Some turn) ≡ Some result }
{
    match turn {
        Turn::To(stage) => {
            if is_last_failure(row, failures) {
                Next::Ends(Outcome::Lost)
            } else {
                Next::Goes(Transfer {
                    stage,
                    row,
                    failures,
                })
            }
        }
        Turn::End(outcome) => Next::Ends(outcome),
    }
}

impl Transfer {
    /// Takes no memory.
    pub fn begin(job: &Job) -> Transfer
        ensures begun { result ≡ begun job.now }
        ensures going { IsGoing job.now result }
    {
        Transfer {
            stage: first_stage(job),
            row: 0,
            failures: 0,
        }
    }

    /// What is asked next for the job with which the transfer began. A copy of bytes that are sent is made for the request.
    pub fn next(&self, alloc: Global, job: &Job) -> Result<Request, NoMemory>
        requires { IsGoing job.now self.now }
        ensures { IfOk result (λ asked. request_at job.now self.now.stage ≡ Some asked) }
    {
        request(alloc, job, self.stage)
    }

    fn after(&self, job: &Job, answered: Answered) -> Next
        requires going { IsGoing job.now self.now }
        requires kind { may_hear job.now self.now.stage answered ≡ true }
        ensures { step_of job.now self.now answered ≡ Some result }
    {
        match answered {
            Answered::Got(reply) => turned(reply_turn(job, self.stage, reply), 0, self.failures),
            Answered::Failed => failed(
                failure_turn(job, self.stage),
                self.row + 1,
                self.failures + 1,
            ),
            Answered::Bad(bytes) => turned(bad_turn(job, self.stage, bytes), 0, self.failures),
        }
    }

    /// Takes what came of the request that is asked next. Takes no memory, and keeps the bytes that came.
    pub fn take(&mut self, job: &Job, answered: Answered) -> Result<Step, NoMemory>
        requires going { IsGoing job.now self.old }
        requires kind { may_hear job.now self.old.stage answered ≡ true }
        ensures memory { IsOk result }
        ensures step { IfOk result (λ step. step_of job.now self.old answered ≡ Some (next_of self.new step)) }
        ensures stands { IfOk result (λ step. IsStanding job.now self.new step) }
    {
        match self.after(job, answered) {
            Next::Goes(next) => {
                *self = next;
                Ok(Step::More)
            }
            Next::Ends(outcome) => {
                self.stage = Stage::Ended;
                Ok(Step::Ended(outcome))
            }
        }
    }
}
