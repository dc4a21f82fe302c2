//! What a sync does, told event by event to listeners that the caller hands in.
#![tactic(auto)]

mod counting;
mod event;
mod lines;
mod listener;
mod listing;
mod telling;

pub use counting::CountListener;
pub use event::{Event, event_line};
pub use lines::LineListener;
pub use listener::Listener;
pub use listing::ListListener;
pub use telling::tell_all;

#[cfg(test)]
mod tests;
