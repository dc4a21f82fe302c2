//! Instances of the drive's log and of its answers, each the contract of a function that does nothing.
ghost use Rattle.std.specs.Prelude.{◌≡◌, [], ◌∷◌, ◌++◌, codes, Some, None};
ghost use Rattle.gd_item.specs.Answers.{answer, answer_of, refused};
ghost use Rattle.gd_item.specs.DriveLogs.{put_at, put_new, rename_at, remove_at, other, moved_folder_log, two_files_log, renamed_log, three_files_log, expired_log, floor_log, folder_log, nested_log, one_folder_log, removed_file_log, restored_log, letters_log, unlucky_log, named_by, next_of, link_of, many_files, records_in};
ghost use Rattle.gd_item.specs.Refused.{refuse, refusal};
ghost use Rattle.gd_item.specs.Replies.{status_of_reply};
ghost use Rattle.gd_item.specs.Steps.{state_of, held_by, number_of};
ghost use Rattle.gd_item.specs.Tokens.{token_text, token_of_text};
ghost use Rattle.gd_item.specs.Trees.{tree_of};
ghost use Rattle.gd_item.specs.declared.reply.Reply.TheVariants as reply;

use crate::condition::Condition;
use crate::fault::ErrorCode;
use crate::reply::{PageLink, Resync};
use crate::request::{Address, Request};

/// A folder is not moved below itself, a file may change the case of its name, and the root stays.
pub fn moves_refused()
    ensures below { answer_of moved_folder_log 200 (Request.Patch (Address.ByPath (codes "a" ∷ [])) None (Some (record { 0 = 3 })) Condition.Free) ≡ refused (refuse 400 ErrorCode.InvalidRequest) }
    ensures root { answer_of moved_folder_log 200 (Request.Delete (Address.Id (record { 0 = 1 })) Condition.Free) ≡ refused (refuse 400 ErrorCode.InvalidRequest) }
    ensures case { refusal (state_of moved_folder_log) (Request.Patch (Address.ByPath (codes "a" ∷ [])) (Some (codes "A")) None Condition.Free) ≡ None }
{}

/// A name that differs from the item's own in case alone is given.
pub fn case_changed()
    ensures status { status_of_reply (answer_of two_files_log 200 (rename_at (codes "a" ∷ []) (codes "A"))) ≡ 200 }
    ensures name { named_by (answer_of two_files_log 200 (rename_at (codes "a" ∷ []) (codes "A"))) ≡ (2, codes "A") ∷ [] }
{}

/// A token is read as it is written, without zeros at the beginning of a number, and `latest` is none.
pub fn tokens_read()
    ensures whole { token_of_text (codes "t1.2.3") ≡ Some (record { epoch = 1; position = 2; start = 3 }) }
    ensures zero { token_of_text (codes "t01.2.3") ≡ None }
    ensures short { token_of_text (codes "t1.2") ≡ None }
    ensures latest { token_of_text (codes "latest") ≡ None }
    ensures written { token_text (record { epoch = 1; position = 2; start = 3 }) ≡ codes "t1.2.3" }
{}

/// Two pages of two records each: a file that is moved meanwhile stands on both.
pub fn moved_between_pages()
    ensures first { named_by (answer_of two_files_log 2 (Request.Delta None)) ≡ (1, codes "root") ∷ (2, codes "a") ∷ [] }
    ensures first_link { link_of (answer_of two_files_log 2 (Request.Delta None)) ≡ Some (PageLink.Next (codes "t1.2.3")) }
    ensures second { named_by (answer_of renamed_log 2 (Request.Delta (Some (codes "t1.2.3")))) ≡ (3, codes "b") ∷ (2, codes "d") ∷ [] }
    ensures second_link { link_of (answer_of renamed_log 2 (Request.Delta (Some (codes "t1.2.3")))) ≡ Some (PageLink.Delta (codes "t1.5.3")) }
{}

/// A token below the floor is gone.
pub fn expired_token_gone()
    ensures { answer_of expired_log 200 (Request.Delta (Some (codes "t1.2.2"))) ≡ reply.Gone Resync.ApplyDifferences }
{}

/// A page takes three records, of which the root is one. (Small, since each file of the log takes time to compute.)
pub fn pages_full()
    ensures one { named_by (answer_of two_files_log 3 (Request.Delta None)) ≡ (1, codes "root") ∷ (2, codes "a") ∷ (3, codes "b") ∷ [] }
    ensures one_link { link_of (answer_of two_files_log 3 (Request.Delta None)) ≡ Some (PageLink.Delta (codes "t1.3.3")) }
    ensures first { named_by (answer_of three_files_log 3 (Request.Delta None)) ≡ (1, codes "root") ∷ (2, codes "a") ∷ (3, codes "b") ∷ [] }
    ensures first_link { link_of (answer_of three_files_log 3 (Request.Delta None)) ≡ Some (PageLink.Next (codes "t1.3.4")) }
    ensures second { named_by (answer_of three_files_log 3 (Request.Delta (Some (codes "t1.3.4")))) ≡ (4, codes "c") ∷ [] }
    ensures second_link { link_of (answer_of three_files_log 3 (Request.Delta (Some (codes "t1.3.4")))) ≡ Some (PageLink.Delta (codes "t1.4.4")) }
{}

/// A page takes 200 records: those of 199 files and of the root, and of 200 files all but one.
pub fn large_pages_full()
    ensures one { records_in (answer (many_files 199) 200 (Request.Delta None)) ≡ 200 }
    ensures one_link { link_of (answer (many_files 199) 200 (Request.Delta None)) ≡ Some (PageLink.Delta (codes "t1.200.200")) }
    ensures first { records_in (answer (many_files 200) 200 (Request.Delta None)) ≡ 200 }
    ensures first_link { link_of (answer (many_files 200) 200 (Request.Delta None)) ≡ Some (PageLink.Next (codes "t1.200.201")) }
    ensures second { records_in (answer (many_files 200) 200 (Request.Delta (Some (codes "t1.200.201")))) ≡ 1 }
    ensures second_link { link_of (answer (many_files 200) 200 (Request.Delta (Some (codes "t1.200.201")))) ≡ Some (PageLink.Delta (codes "t1.201.201")) }
{}

/// What tokens get at epoch 1, number 5 and floor 4.
pub fn tokens_served()
    ensures old { answer_of floor_log 200 (Request.Delta (Some (codes "t1.3.2"))) ≡ reply.Gone Resync.ApplyDifferences }
    ensures page { link_of (answer_of floor_log 200 (Request.Delta (Some (codes "t1.2.4")))) ≡ Some (PageLink.Delta (codes "t1.5.4")) }
    ensures epoch { answer_of floor_log 200 (Request.Delta (Some (codes "t2.9.9"))) ≡ reply.Gone Resync.UploadDifferences }
    ensures ahead { answer_of floor_log 200 (Request.Delta (Some (codes "t1.6.1"))) ≡ refused (refuse 400 ErrorCode.InvalidRequest) }
    ensures latest { named_by (answer_of floor_log 200 (Request.Delta (Some (codes "latest")))) ≡ [] }
    ensures latest_link { link_of (answer_of floor_log 200 (Request.Delta (Some (codes "latest")))) ≡ Some (PageLink.Delta (codes "t1.5.5")) }
{}

/// A put where no folder is, under a condition that nothing meets, and twice where it is to be new. A condition comes
/// before a taken name.
pub fn puts_answered()
    ensures missing { answer_of [] 200 (put_at (codes "x" ∷ codes "a" ∷ []) (codes "1")) ≡ refused (refuse 404 ErrorCode.ItemNotFound) }
    ensures condition { answer_of [] 200 (put_new (codes "a" ∷ []) (codes "1") (Condition.Match (codes "e1"))) ≡ refused (refuse 412 ErrorCode.ResourceModified) }
    ensures made { status_of_reply (answer_of [] 200 (put_new (codes "a" ∷ []) (codes "1") Condition.Free)) ≡ 201 }
    ensures taken { answer_of two_files_log 200 (put_new (codes "a" ∷ []) (codes "1") Condition.Free) ≡ refused (refuse 409 ErrorCode.NameAlreadyExists) }
    ensures condition_first { answer_of two_files_log 200 (put_new (codes "a" ∷ []) (codes "1") (Condition.Match (codes "e9"))) ≡ refused (refuse 412 ErrorCode.ResourceModified) }
{}

/// Of a folder that is removed at change number 3 with its file two tombstones are left, that of the file first.
pub fn folder_deleted()
    ensures answer { answer_of folder_log 200 (remove_at (codes "d" ∷ [])) ≡ reply.Done }
    ensures items { (held_by (folder_log ++ other (remove_at (codes "d" ∷ [])) ∷ [])).items ≡ [] }
    ensures removed { (held_by (folder_log ++ other (remove_at (codes "d" ∷ [])) ∷ [])).removed ≡ record { number = 3; parent = 2; change = 4 } ∷ record { number = 2; parent = 1; change = 5 } ∷ [] }
{}

/// What stands below a folder moves with it.
pub fn folder_moved()
    ensures number { number_of nested_log ≡ 5 }
    ensures tree { tree_of (held_by nested_log) ≡ (codes "b" ∷ [], None) ∷ (codes "b" ∷ codes "a" ∷ [], None) ∷ (codes "b" ∷ codes "a" ∷ codes "f" ∷ [], None) ∷ [] }
{}

/// A refused move is no effect, and an item is found by its name in other case.
pub fn folder_renamed_and_removed()
    ensures number { number_of one_folder_log ≡ 4 }
    ensures tree { tree_of (held_by one_folder_log) ≡ [] }
{}

/// A file that is removed between two pages stands on the second one as removed, since the first had it.
pub fn removed_between_pages()
    ensures second { named_by (answer_of removed_file_log 2 (Request.Delta (Some (codes "t1.2.3")))) ≡ (3, codes "b") ∷ (2, []) ∷ [] }
    ensures second_link { link_of (answer_of removed_file_log 2 (Request.Delta (Some (codes "t1.2.3")))) ≡ Some (PageLink.Delta (codes "t1.4.3")) }
    ensures fresh { named_by (answer_of removed_file_log 2 (Request.Delta None)) ≡ (1, codes "root") ∷ (3, codes "b") ∷ [] }
{}

/// A token of before a restoration is gone, and a client has to send what it has.
pub fn restored_token_gone()
    ensures { answer_of restored_log 200 (Request.Delta (Some (codes "t1.2.2"))) ≡ reply.Gone Resync.UploadDifferences }
{}

/// Children are listed in order of their names in lower case, and a list goes on after the last name that was given.
pub fn children_listed()
    ensures first { named_by (answer_of letters_log 2 (Request.Children (Address.ByPath []) None)) ≡ (4, codes "a") ∷ (3, codes "B") ∷ [] }
    ensures first_next { next_of (answer_of letters_log 2 (Request.Children (Address.ByPath []) None)) ≡ Some (codes "B") }
    ensures second { named_by (answer_of letters_log 2 (Request.Children (Address.ByPath []) (Some (codes "B")))) ≡ (2, codes "c") ∷ [] }
    ensures second_next { next_of (answer_of letters_log 2 (Request.Children (Address.ByPath []) (Some (codes "B")))) ≡ None }
{}

/// A step that was not served has no effect, and one whose reply was lost has it.
pub fn steps_unlucky()
    ensures number { number_of unlucky_log ≡ 2 }
    ensures tree { tree_of (held_by unlucky_log) ≡ (codes "b" ∷ [], Some (codes "y")) ∷ [] }
{}
