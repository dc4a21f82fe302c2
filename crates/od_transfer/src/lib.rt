//! What the client asks of a drive over a link, and the transfer of files.
#![tactic(auto)]

mod again;
mod carry;
mod job;
mod laws;
mod remote;

pub use again::{ask_thrice, send_thrice};
pub use carry::{Carrier, carry_each};
pub use job::{Job, Outcome};
pub use laws::{a_file_that_is_there_is_fetched, jobs_ask_for_bytes, transfers_change_nothing};
pub use remote::{AskFault, Remote};
