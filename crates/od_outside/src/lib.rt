//! A drive, a folder and a keeper as one outside, and what a function over it says.
#![tactic(auto)]

mod bundle;
mod laws;
mod outside;

pub use bundle::Bundle;
pub use laws::what_is_known_stays;
pub use outside::Outside;
