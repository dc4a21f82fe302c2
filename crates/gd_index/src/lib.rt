//! The items of a drive by number, by folder and name, and by change number.
#![tactic(auto)]

mod counts;
mod index;
mod row;
mod rows;
mod spot;

pub use index::Index;
