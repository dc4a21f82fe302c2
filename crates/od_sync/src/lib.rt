//! The sync of a local folder with a drive, phase by phase.
#![tactic(auto)]

mod agreeing;
mod changing;
mod committing;
mod comparing;
mod delta;
mod doing;
mod ends;
mod fetching;
mod laws;
mod looking;
mod planning;
mod pulling;
mod receiving;
mod rounds;
mod scanning;
mod syncing;
mod waiting;

pub use agreeing::agree;
pub use changing::pull_change;
pub use committing::commit;
pub use comparing::is_same;
pub use delta::{DeltaFault, ask_delta};
pub use ends::{SyncEnd, SyncStop};
pub use fetching::do_plan;
pub use laws::{
    a_first_pull_mirrors_the_drive, a_fresh_plan_makes_the_drives_tree, a_pull_mirrors_the_drive,
    syncs_change_nothing, the_same_entries_are_the_same_trees,
    the_same_trees_have_the_same_entries,
};
pub use looking::{Sides, look};
pub use planning::{Fetching, Plan, make_plan};
pub use pulling::{PullStop, pull};
pub use scanning::{FolderFault, Node, scan};
pub use syncing::sync_now;
