//! The local folder and its holding folder: what the user and the client do to them.
#![tactic(auto)]

mod aside;
mod call;
mod doing;
mod edit;
mod entry;
mod fault;
mod folder;
mod held;
mod instances;
mod laws;
mod listing;
mod local;
mod look;
mod memory;
mod refusing;
mod spots;
mod step;
mod tree;

pub use aside::Aside;
pub use call::TreeCall;
pub use edit::UserEdit;
pub use entry::Entry;
pub use fault::TreeFault;
pub use instances::{calls_refused, file_carried, file_overwritten, folder_listed};
pub use laws::{
    a_file_stays_or_is_replaced, a_written_file_stands, an_unedited_folder_grows_by_operations,
    an_unlisted_folder_never_fails, contents_were_written_or_placed, every_folder_is_a_tree,
    held_files_are_by_number, no_more_is_lost_without_a_discard, nothing_is_lost_without_a_discard,
    only_the_user_or_a_discard_takes_a_file,
};
pub use local::{HeldFile, LocalFile, Spot};
pub use memory::MemoryTree;
pub use step::{LocalStep, TreeOp};
pub use tree::Tree;
