//! What holds in every log of a drive.
#![tactic(auto)]

mod feed_laws;
mod laws;
mod path_laws;
mod removal_laws;
mod reply_laws;
mod token_laws;
mod version_laws;

pub use feed_laws::a_feed_has_exactly_what_changed;
pub use laws::{a_step_adds_its_effects, a_step_keeps_this, every_drive_keeps_this};
pub use path_laws::{
    a_path_is_of_one_item, a_path_leads_to_its_item, a_tree_has_each_folder, a_tree_has_each_item,
};
pub use removal_laws::{a_removal_takes_all_below, removals_go_up};
pub use reply_laws::{an_answer_is_of_its_kind, changes_are_answered};
pub use token_laws::{
    a_given_token_is_served, a_last_page_has_all_that_changed, a_page_has_what_changed,
    a_served_token_has_a_page, a_served_token_stays,
};
pub use version_laws::{an_accepted_version_is_given, no_version_is_forgotten};
