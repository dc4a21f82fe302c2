//! Laws of the definitions, each the contract of a function that does nothing.
ghost use Rattle.std.specs.Prelude.{◌≡◌, ℕ, true, false, List, ◌++◌, Some};
ghost use Rattle.std.specs.List.{All};
ghost use Rattle.gd_item.specs.Ids.{item_id};
ghost use Rattle.gd_item.specs.Records.{digest_record};
ghost use Rattle.gd_item.specs.Steps.{state_of, held_by};
ghost use Rattle.gd_item.specs.declared.step.Step.{Step};
ghost use Rattle.od_transfer.specs.Alone.{AreOwnServed, HasFile};
ghost use Rattle.od_transfer.specs.Asking.{OwnAre};
ghost use Rattle.od_transfer.specs.Explained.{IsFetchExplained, IsOfJobs};
ghost use Rattle.od_transfer.specs.Fits.{IsTransfer, IsWrittenJob, is_lost};
ghost use Rattle.od_transfer.specs.declared.job.Job.{Job};
ghost use Rattle.od_transfer.specs.declared.job.Outcome.{Outcome};

/// What a client asks for jobs whose requests have a written form asks for bytes alone.
pub fn jobs_ask_for_bytes()
    ensures { (jobs : List Job) (old part : List Step) → All IsWrittenJob jobs → OwnAre (IsOfJobs jobs old part) part → OwnAre IsTransfer part }
{}

/// Transfers change nothing on the drive.
pub fn transfers_change_nothing()
    ensures { (old part : List Step) → AreOwnServed part → OwnAre IsTransfer part → state_of (old ++ part) ≡ state_of old }
{}

/// Where this client alone asks the drive, and it serves each request, a file that it has is fetched, unless no reply comes.
pub fn a_file_that_is_there_is_fetched()
    ensures { (old part : List Step) (number : ℕ) (bytes : List ℕ) (outcome : Outcome) → AreOwnServed part → OwnAre IsTransfer part
        → HasFile (held_by old) number bytes → IsFetchExplained old part (item_id number) (digest_record bytes) outcome → is_lost outcome ≡ false
        → outcome ≡ Outcome.Fetched bytes }
{}
