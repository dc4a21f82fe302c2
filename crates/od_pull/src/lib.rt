//! A pull of a drive's items over an outside: page by page, from the kept token on, and anew where the drive says so.
#![tactic(auto)]

mod learning;
mod pulling;
mod stop;

pub use learning::pull_with_digests;
pub use pulling::pull;
pub use stop::PullStop;
