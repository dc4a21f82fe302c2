//! The commands of the client: what `odsync replay` does.
#![tactic(auto)]

mod counting;
mod fault;
mod line;
mod lines;
mod output;
mod play;
mod print;
mod pull;
mod read;
mod replay;
mod script;
mod status;
mod words;
mod world;

pub use line::{Content, Line};
pub use replay::replay_main;
pub use script::{ScriptFault, read_script};
pub use status::ReplayStatus;
