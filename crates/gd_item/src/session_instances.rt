//! Instances of upload sessions, each the contract of a function that does nothing.
ghost use Rattle.std.specs.Prelude.{◌≡◌, ℕ, true, false, List, [], ◌∷◌, ◌++◌, length, codes, Some, None};
ghost use Rattle.gd_item.specs.Answers.{answer_of, refused};
ghost use Rattle.gd_item.specs.DriveLogs.{put_at, send_new, other, opened_log, overtaken_log, meddled_log, putting_log, ten_bytes, first_part, second_part, third_part, begun_log, two_parts_log, sent_log, deferred_log, filled_log, finished_log, plain_log};
ghost use Rattle.gd_item.specs.Ids.{item_id};
ghost use Rattle.gd_item.specs.Refused.{refuse};
ghost use Rattle.gd_item.specs.Replies.{status_of_reply};
ghost use Rattle.gd_item.specs.Tags.{tag_of, etag_text};
ghost use Rattle.gd_item.specs.Steps.{held_by, number_of, is_fair};
ghost use Rattle.gd_item.specs.declared.reply.Reply.TheVariants as reply;

use crate::fault::ErrorCode;
use crate::item::Kind;
use crate::request::{Address, Request};

/// A session whose name another client puts meanwhile: its only fragment is refused, and it lives on until it is
/// cancelled.
pub fn session_overtaken()
    ensures opened { answer_of [] 200 (send_new (codes "s" ∷ [])) ≡ reply.Session 1 0 }
    ensures put { status_of_reply (answer_of opened_log 200 (put_at (codes "s" ∷ []) (codes "x"))) ≡ 201 }
    ensures fragment { answer_of overtaken_log 200 ten_bytes ≡ refused (refuse 409 ErrorCode.NameAlreadyExists) }
    ensures status { answer_of (overtaken_log ++ other ten_bytes ∷ []) 200 (Request.SessionStatus 1) ≡ reply.Status 0 }
    ensures cancel { answer_of (overtaken_log ++ other ten_bytes ∷ []) 200 (Request.CancelSession 1) ≡ reply.Done }
    ensures again { answer_of (overtaken_log ++ other ten_bytes ∷ other (Request.CancelSession 1) ∷ []) 200 (Request.CancelSession 1) ≡ refused (refuse 404 ErrorCode.ItemNotFound) }
{}

/// A fragment alone that is the whole file makes it, and ends the session.
pub fn session_completed()
    ensures made { status_of_reply (answer_of opened_log 200 ten_bytes) ≡ 201 }
    ensures status { answer_of (opened_log ++ other ten_bytes ∷ []) 200 (Request.SessionStatus 1) ≡ refused (refuse 404 ErrorCode.ItemNotFound) }
{}

/// A deferred session: it is finished once all bytes came, its last fragment makes nothing, and it ends with its file.
pub fn deferred_session_finished()
    ensures early { answer_of deferred_log 200 (Request.Finish 1) ≡ refused (refuse 400 ErrorCode.InvalidRequest) }
    ensures fragment { answer_of deferred_log 200 ten_bytes ≡ reply.More 10 }
    ensures status { answer_of filled_log 200 (Request.SessionStatus 1) ≡ reply.Status 10 }
    ensures nothing { number_of filled_log ≡ 1 }
    ensures made { status_of_reply (answer_of filled_log 200 (Request.Finish 1)) ≡ 201 }
    ensures again { answer_of finished_log 200 (Request.Finish 1) ≡ refused (refuse 404 ErrorCode.ItemNotFound) }
    ensures not_deferred { answer_of opened_log 200 (Request.Finish 1) ≡ refused (refuse 400 ErrorCode.InvalidRequest) }
{}

/// A plain drive gives neither a digest nor a content tag.
pub fn plain_drive_bare()
    ensures { answer_of plain_log 200 (Request.Get (Address.ByPath (codes "a" ∷ []))) ≡ reply.Is (record {
      id = item_id 2;
      parent = Some (item_id 1);
      parent_path = Some (codes "/drive/root:");
      name = codes "a";
      size = 1;
      etag = tag_of (etag_text 2);
      ctag = None;
      kind = Kind.Bare;
    }) }
{}

/// A file of 655,361 bytes in three fragments: a repeated fragment changes nothing, and the last one makes the file of
/// all their bytes.
pub fn large_file_sent()
    ensures first { (a : List ℕ) → length a ≡ 327680 → answer_of opened_log 200 (first_part a) ≡ reply.More 327680 }
    ensures second { (a b : List ℕ) → length a ≡ 327680 → length b ≡ 327680 → answer_of (begun_log a) 200 (second_part b) ≡ reply.More 655360 }
    ensures again { (a b : List ℕ) → length a ≡ 327680 → length b ≡ 327680 → answer_of (two_parts_log a b) 200 (second_part b) ≡ refused (refuse 416 ErrorCode.InvalidRange) }
    ensures third { (a b c : List ℕ) → length a ≡ 327680 → length b ≡ 327680 → length c ≡ 1
        → status_of_reply (answer_of (two_parts_log a b ++ other (second_part b) ∷ []) 200 (third_part c)) ≡ 201 }
    ensures made { (a b c : List ℕ) → length a ≡ 327680 → length b ≡ 327680 → length c ≡ 1
        → (held_by (sent_log a b c)).items ≡ record { number = 2; parent = 1; name = codes "s"; bytes = Some (a ++ b ++ c); change = 2; content = 2 } ∷ [] }
    ensures status { (a b c : List ℕ) → length a ≡ 327680 → length b ≡ 327680 → length c ≡ 1
        → answer_of (sent_log a b c) 200 (Request.SessionStatus 1) ≡ refused (refuse 404 ErrorCode.ItemNotFound) }
{}

/// A fragment that is no multiple of 327,680 bytes, one that begins too late, and one with another total.
pub fn fragments_refused()
    ensures multiple { (a : List ℕ) → length a ≡ 100 → answer_of opened_log 200 (Request.Fragment 1 0 99 1000 a) ≡ refused (refuse 400 ErrorCode.InvalidRange) }
    ensures range { (b : List ℕ) → length b ≡ 327680 → answer_of opened_log 200 (second_part b) ≡ refused (refuse 416 ErrorCode.InvalidRange) }
    ensures total { (a b : List ℕ) → length a ≡ 327680 → answer_of (begun_log a) 200 (Request.Fragment 1 327680 655359 655362 b) ≡ refused (refuse 400 ErrorCode.InvalidRequest) }
{}

/// A log in which another client names a session that this client opened does not occur.
pub fn sessions_kept_apart()
    ensures meddled { is_fair meddled_log ≡ false }
    ensures others { is_fair (overtaken_log ++ other ten_bytes ∷ []) ≡ true }
{}

/// A file that is put at once has at most 4,194,304 bytes, whatever else there is to refuse.
pub fn large_put_refused()
    ensures { (path : List (List ℕ)) (bytes : List ℕ) → length bytes ≡ 4194305 → answer_of [] 200 (put_at path bytes) ≡ refused (refuse 413 ErrorCode.InvalidRequest) }
{}

/// 128 puts of 4,194,304 bytes fill a drive, and then not a byte is taken.
pub fn drive_filled()
    ensures number { (bytes : List ℕ) → length bytes ≡ 4194304 → number_of (putting_log 128 bytes) ≡ 129 }
    ensures next { (bytes : List ℕ) → length bytes ≡ 4194304 → answer_of (putting_log 128 bytes) 200 (put_at (codes "g" ∷ []) (codes "x")) ≡ refused (refuse 507 ErrorCode.QuotaLimitReached) }
{}
