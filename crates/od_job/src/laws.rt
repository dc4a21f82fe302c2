//! Laws of the runs of a job, each the contract of a function that does nothing.
ghost use Rattle.std.specs.Prelude.{◌≡◌, ℕ, ◌≤◌, List, length};
ghost use Rattle.od_job.specs.Fits.{Fits, HasCause};
ghost use Rattle.od_job.specs.Runs.{Exchange, Ran, RunsTo, most_requests};
ghost use Rattle.od_job.specs.declared.transfer.Next.{Next};

use crate::job::{Job, Outcome};

/// What comes of a job fits it: what is fetched has its digest.
pub fn an_outcome_fits()
    ensures { (job : Job) (exchanges : List Exchange) (outcome : Outcome) → Ran job exchanges outcome → Fits job outcome }
{}

/// What comes of a job has its cause among the answers: it is lost only where a request failed, refused only where a reply
/// says so, accepted and fetched only where a reply has this item and these bytes, and bad only where these bytes came.
pub fn an_outcome_has_a_cause()
    ensures { (job : Job) (exchanges : List Exchange) (outcome : Outcome) → Ran job exchanges outcome → HasCause job exchanges outcome }
{}

/// A job ends after so many requests at most, over or not.
pub fn a_run_ends()
    ensures { (job : Job) (exchanges : List Exchange) (to : Next) → RunsTo job exchanges to → length exchanges ≤ most_requests job }
{}
