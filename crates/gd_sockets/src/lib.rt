//! Connections on sockets, each served on a thread of its own: what stands between a drive's server and the system.
#![tactic(auto)]

mod incoming;
mod stream;
mod threaded;

pub use incoming::Incoming;
pub use stream::Stream;
pub use threaded::Threaded;
