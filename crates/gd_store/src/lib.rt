//! The items of a drive by number, in an index: what its steps do, and why they are refused. Beside them the epoch of the
//! drive's tokens, and the floor up to which its removals are forgotten.
#![tactic(auto)]

mod edit;
mod feed;
mod items;
mod look;
mod moving;
mod path;
mod record;
mod removing;
mod store;
mod versions;
mod walk;

pub use gd_item::StoreFault;
pub use store::Store;
