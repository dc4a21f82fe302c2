//! Instances of short runs, each the contract of a function that does nothing.
ghost use Rattle.std.specs.Prelude.{◌≡◌, ℕ, List, [], ◌∷◌, length};
ghost use Rattle.gd_item.specs.declared.reply.Reply.TheVariants as reply;
ghost use Rattle.od_job.specs.Runs.{Ran};
ghost use Rattle.od_job.specs.Turns.{fetched};
ghost use Rattle.od_job.specs.Examples.{content_of, download_of, failed, file, gave, got, open_new, put_new, send_new, part_at, status_asked, finished, cancelled};

use crate::job::{Job, Outcome, SendTo};
use gd_item::{Digest, ErrorCode, Item};

/// A fetch asks where the bytes are to be had, and then for them.
pub fn a_fetch_asks_twice()
    ensures fetched { (digest : Digest) (bytes : List ℕ) → Ran (Job.Fetch file digest 3)
        (got (content_of file) (reply.Found file 4) ∷ got (download_of file 4) (reply.Content bytes) ∷ []) (fetched digest bytes) }
    ensures again { (digest : Digest) (bytes : List ℕ) → Ran (Job.Fetch file digest 3)
        (failed (content_of file) ∷ got (content_of file) (reply.Found file 4) ∷ failed (download_of file 4) ∷ failed (download_of file 4) ∷ got (download_of file 4) (reply.Content bytes) ∷ []) (fetched digest bytes) }
    ensures lost { (digest : Digest) → Ran (Job.Fetch file digest 3)
        (failed (content_of file) ∷ failed (content_of file) ∷ failed (content_of file) ∷ []) Outcome.Lost }
    ensures refused { (digest : Digest) → Ran (Job.Fetch file digest 3)
        (got (content_of file) (reply.Found file 4) ∷ got (download_of file 4) (reply.Refused 404 ErrorCode.ItemNotFound) ∷ []) (Outcome.Refused ErrorCode.ItemNotFound) }
    ensures bad { (digest : Digest) (bytes : List ℕ) → Ran (Job.Fetch file digest 3) (gave (content_of file) bytes ∷ []) (Outcome.Bad bytes) }
{}

/// A file of at most 327,680 bytes is put at once, and once only.
pub fn a_short_file_is_put()
    ensures accepted { (bytes : List ℕ) (item : Item) → length bytes ≡ 327680 → Ran (send_new bytes) (got (put_new bytes) (reply.Made item) ∷ []) (Outcome.Accepted item) }
    ensures lost { (bytes : List ℕ) → length bytes ≡ 327680 → Ran (send_new bytes) (failed (put_new bytes) ∷ []) Outcome.Lost }
{}

/// A file of 1,000,000 bytes is sent in two fragments, and then made.
pub fn a_long_file_is_sent()
    ensures accepted { (bytes : List ℕ) (item : Item) → length bytes ≡ 1000000 → Ran (send_new bytes)
        (got open_new (reply.Session 7 0) ∷ got (part_at 0 bytes) (reply.More 655360) ∷ got (part_at 655360 bytes) (reply.More 1000000) ∷ got finished (reply.Made item) ∷ []) (Outcome.Accepted item) }
    ensures refused { (bytes : List ℕ) → length bytes ≡ 1000000 → Ran (send_new bytes)
        (got open_new (reply.Session 7 0) ∷ got (part_at 0 bytes) (reply.Refused 507 ErrorCode.QuotaLimitReached) ∷ failed cancelled ∷ []) (Outcome.Refused ErrorCode.QuotaLimitReached) }
    ensures lost { (bytes : List ℕ) → length bytes ≡ 1000000 → Ran (send_new bytes) (failed open_new ∷ []) Outcome.Lost }
{}

/// After a fragment without a reply the session is asked how far it has come, and the fragment is sent again or is not.
pub fn a_failed_fragment_is_asked_for()
    ensures again { (bytes : List ℕ) (item : Item) → length bytes ≡ 500000 → Ran (send_new bytes)
        (got open_new (reply.Session 7 0) ∷ failed (part_at 0 bytes) ∷ got status_asked (reply.Status 0) ∷ got (part_at 0 bytes) (reply.More 500000) ∷ got finished (reply.Made item) ∷ []) (Outcome.Accepted item) }
    ensures on { (bytes : List ℕ) (item : Item) → length bytes ≡ 500000 → Ran (send_new bytes)
        (got open_new (reply.Session 7 0) ∷ failed (part_at 0 bytes) ∷ failed status_asked ∷ got status_asked (reply.Status 500000) ∷ failed finished ∷ got status_asked (reply.Status 500000) ∷ got finished (reply.Made item) ∷ []) (Outcome.Accepted item) }
    ensures elsewhere { (bytes : List ℕ) → length bytes ≡ 500000 → Ran (send_new bytes)
        (got open_new (reply.Session 7 0) ∷ failed (part_at 0 bytes) ∷ got status_asked (reply.Status 327680) ∷ got cancelled reply.Done ∷ []) Outcome.Lost }
{}

/// Where the session is gone after a failure, what became of the file is not known.
pub fn a_gone_session_is_lost()
    ensures fragment { (bytes : List ℕ) → length bytes ≡ 500000 → Ran (send_new bytes)
        (got open_new (reply.Session 7 0) ∷ failed (part_at 0 bytes) ∷ got status_asked (reply.Refused 404 ErrorCode.ItemNotFound) ∷ []) Outcome.Lost }
    ensures finish { (bytes : List ℕ) → length bytes ≡ 500000 → Ran (send_new bytes)
        (got open_new (reply.Session 7 0) ∷ got (part_at 0 bytes) (reply.More 500000) ∷ failed finished ∷ got status_asked (reply.Refused 404 ErrorCode.ItemNotFound) ∷ []) Outcome.Lost }
{}

/// An answer that does not fit its place ends the session, and then the job.
pub fn a_misplaced_answer_is_odd()
    ensures session { (bytes : List ℕ) → length bytes ≡ 500000 → Ran (send_new bytes)
        (got open_new (reply.Session 7 1) ∷ got cancelled reply.Done ∷ []) (Outcome.Odd 0) }
    ensures item { (bytes : List ℕ) (item : Item) → length bytes ≡ 500000 → Ran (send_new bytes)
        (got open_new (reply.Session 7 0) ∷ got (part_at 0 bytes) (reply.Made item) ∷ got cancelled reply.Done ∷ []) (Outcome.Odd 0) }
{}
