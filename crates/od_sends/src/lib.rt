//! What the transfer of a file does to a drive whose log is told.
#![tactic(auto)]

mod laws;

pub use laws::{a_fetch_changes_nothing, a_send_puts_once, each_answer_fits, others_keep_off};
