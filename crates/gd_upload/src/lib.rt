//! The upload sessions of a drive: files that come in fragments, in order.
#![tactic(auto)]

mod append;
mod laws;
mod open;
mod progress;
mod sessions;
mod target;

pub use gd_item::SessionFault;
pub use laws::{a_repeated_fragment_is_refused, session_bytes_are_received};
pub use progress::Progress;
pub use sessions::Sessions;
pub use target::Target;
