//! What a client pulls of a drive: pages of the feed, made into items and paths.
#![tactic(auto)]

mod climb;
mod mirror;
mod places;
mod view;

pub use mirror::{Mirror, PullFault, Taken};
pub use view::MirrorView;
