//! What a sync has to do so that the folder and the drive become one: the plan, over values alone.
#![tactic(auto)]

mod both;
mod conflicts;
mod copies;
mod ends;
mod entries;
mod folders;
mod holding;
mod laws;
mod listing;
mod look;
mod merge;
mod pairs;
mod places;
mod planning;
mod queues;
mod side;
mod spelling;
mod steps;
mod taken;
mod types;

pub use entries::{content_at, index, kind_content, local_tree, node_content, remote_tree};
pub use laws::{a_plan_makes_the_target, equal_sides_need_no_plan};
pub use od_merge::Why;
pub use planning::plan;
pub use types::{Down, Held, Node, Plan, Rename, Up};
