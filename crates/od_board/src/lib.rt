//! Gives out jobs to workers, each once.
#![tactic(auto)]

mod board;

pub use board::{Board, Claim};
