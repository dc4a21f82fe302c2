//! Connections to a drive: what is read is answered, message by message.
#![tactic(auto)]

mod answering;
mod connection;
mod end;
mod inbox;
mod memory;
mod serving;
mod shared;
mod spawning;

pub use connection::serve_connection;
pub use end::{ServeEnd, ServeLoopEnd};
pub use inbox::Message;
pub use memory::serve_in_memory;
pub use serving::{Accept, AcceptFault, Connection, serve};
pub use shared::{SharedDrive, serve_shared};
pub use spawning::{Running, Spawner, Task};
