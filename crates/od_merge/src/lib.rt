//! What two sides become that are merged over what they last agreed on: definitions, and their laws.
#![tactic(auto)]

mod content;
mod instances;
mod laws;
mod why;

pub use content::Content;
pub use instances::{
    a_folder_with_a_file_is_a_tree, edit_against_edit, file_became_a_folder, folder_against_file,
    folder_that_is_not_empty, folder_that_passes_stays, folders_above, folders_clash,
    landed_bytes_are_the_base, moves_are_paired, new_names_clash, no_copy_name_is_left,
    old_name_clashes, plain_changes, removed_name_does_not_clash, skipped_name_clashes,
};
pub use laws::{
    a_changed_file_is_wanted, drive_alone_is_the_target, files_that_go_are_as_agreed,
    plan_makes_the_target, renames_leave_no_conflict, same_sides_are_the_target,
    same_sides_have_no_steps, steps_here_make_the_target, steps_there_make_the_target,
    user_alone_is_the_target, what_is_not_kept_stays, what_is_the_same_is_not_carried,
};
pub use why::Why;
