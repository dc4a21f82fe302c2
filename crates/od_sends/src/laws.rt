//! What a transfer does to a drive, each law the contract of a function that does nothing.
ghost use Rattle.std.specs.Prelude.{◌≡◌, ℕ, ◌≤◌, true, List, [], length};
ghost use Rattle.std.specs.List.{AllByRecursion};
ghost use Rattle.gd_item.specs.Steps.{is_fair_after, state_of};
ghost use Rattle.od_job.specs.Runs.{Exchange, Ran, RunsTo};
ghost use Rattle.od_job.specs.declared.job.SendTo.{SendTo};
ghost use Rattle.od_job.specs.declared.transfer.Next.{Next};
ghost use Rattle.od_sends.specs.Fitting.{IsTold};
ghost use Rattle.od_sends.specs.Putting.{JobPuts, job_effects};
ghost use Rattle.od_sends.specs.Told.{IsOfOthers, KeepsOff, Marked, Told, steps_in};

use gd_item::{Digest, ItemId, Step};
use od_job::{Job, Outcome};

/// A send, over or not, has one effect at most: it puts the job's bytes where the job sends them, over an item that has the
/// job's tag just then, or as a new file whose name no item of the folder has. No step of another kind names a session that
/// the job opened.
pub fn a_send_puts_once()
    ensures once { (to : SendTo) (bytes : List ℕ) (old : List Step) (part : List Marked) (exchanges : List Exchange) (next : Next) → RunsTo (Job.Send to bytes) exchanges next
        → Told (state_of old) exchanges part → KeepsOff (state_of old) [] part → length (job_effects (state_of old) part) ≤ 1 }
    ensures puts { (to : SendTo) (bytes : List ℕ) (old : List Step) (part : List Marked) (exchanges : List Exchange) (next : Next) → RunsTo (Job.Send to bytes) exchanges next
        → Told (state_of old) exchanges part → KeepsOff (state_of old) [] part → JobPuts to bytes (state_of old) part }
{}

/// A fetch has no effect.
pub fn a_fetch_changes_nothing()
    ensures { (id : ItemId) (digest : Digest) (size : ℕ) (old : List Step) (part : List Marked) (exchanges : List Exchange) (next : Next) → RunsTo (Job.Fetch id digest size) exchanges next
        → Told (state_of old) exchanges part → job_effects (state_of old) part ≡ [] }
{}

/// Each answer of a drive whose log is told is a reply that fits its place.
pub fn each_answer_fits()
    ensures fetch { (id : ItemId) (digest : Digest) (size : ℕ) (old : List Step) (part : List Marked) (exchanges : List Exchange) (outcome : Outcome) → Ran (Job.Fetch id digest size) exchanges outcome
        → Told (state_of old) exchanges part → IsTold outcome }
    ensures send { (to : SendTo) (bytes : List ℕ) (old : List Step) (part : List Marked) (exchanges : List Exchange) (outcome : Outcome) → Ran (Job.Send to bytes) exchanges outcome
        → Told (state_of old) exchanges part → KeepsOff (state_of old) [] part → IsTold outcome }
{}

/// Where the job is all that this client asks, and no other client names a session that this client opened, no other step
/// names one of the job's.
pub fn others_keep_off()
    ensures { (old : List Step) (part : List Marked) → AllByRecursion IsOfOthers part → is_fair_after (state_of old) (steps_in part) ≡ true → KeepsOff (state_of old) [] part }
{}
