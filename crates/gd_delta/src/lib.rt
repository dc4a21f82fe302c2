//! The feed of changes: its tokens, and its pages over a drive's store.
#![tactic(auto)]

mod delta;
mod pages;
mod token;

pub use delta::page;
pub use gd_item::Token;
pub use pages::DeltaFault;
pub use token::{read_token, write_token};

#[cfg(test)]
mod tests;
