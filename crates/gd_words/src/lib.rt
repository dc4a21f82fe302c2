//! The words of `gd_drive`: whether they ask to serve a drive, or to be told something, or are refused.
#![tactic(auto)]

mod asked;
mod found;
pub mod instances;
mod options;
mod reading;

pub use asked::{Asked, Serving};
pub use reading::read_words;

#[cfg(test)]
mod tests;
