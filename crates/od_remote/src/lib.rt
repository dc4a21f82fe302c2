//! A drive as a client sees it, and requests that are sent again.
#![tactic(auto)]

mod again;
mod remote;

pub use again::{ServeFault, ask_again, ask_until_served};
pub use remote::{AskFault, Remote};
