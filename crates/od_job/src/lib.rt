//! The transfer of one file as a machine: what it asks next, and what an answer leads to.
#![tactic(auto)]

mod asking;
mod instances;
mod job;
mod laws;
mod stage;
mod transfer;
mod turns;

pub use instances::{
    a_failed_fragment_is_asked_for, a_fetch_asks_twice, a_gone_session_is_lost,
    a_long_file_is_sent, a_misplaced_answer_is_odd, a_short_file_is_put,
};
pub use job::{Answered, Job, Outcome, SendTo};
pub use laws::{a_run_ends, an_outcome_fits, an_outcome_has_a_cause};
pub use stage::{Stage, Why};
pub use transfer::{Step, Transfer};
