//! The drive: what it answers to each request, over its store and its upload sessions.
#![tactic(auto)]

mod bare;
mod drive;
mod feed;
mod reads;
mod steps;
mod target;
mod uploads;

pub use drive::Drive;
